// A schedule of the plain pool, with each kind of step where it is allowed and where it isn't. The answers come from the
// definition of the steps, by hand.
ghost use Rattle.std.specs.Prelude.{◌≤◌, IfOk};
ghost use Rattle.pool_model.specs.Lawful.{IsLawful};

use pool_model::{Block, BufferKey, PlainPool, Sequence, Setting, Step};
use std::alloc::{AllocError, Global};

/// A step in header 0, of a pool whose one file has 16 bytes.
#[derive(Clone, Copy)]
enum Row {
    Grant(u32, u32, u32),
    Ungrant(u32, u32),
    Open(u32),
    Name(u32, u32),
    Fill(u32, u64),
    Publish(u32),
    Pin(u32),
    Unpin(u32),
    BeginEvict(u32),
    Release(u32),
    BeginMove(u32),
    Copy(u32),
    Settle(u32),
    Cancel(u32),
}

/// Grants and opens, up to a new buffer in header 0 at place 0; names, fills and publishes it; pins it, and lets it go.
const FILLED: [(Row, bool); 22] = [
    (Row::Grant(2, 1, 1), false),
    (Row::Grant(1, 0, 0), true),
    (Row::Grant(2, 0, 1), false),
    (Row::Ungrant(2, 0), false),
    (Row::Open(2), false),
    (Row::Open(1), true),
    (Row::Publish(1), false),
    (Row::Name(1, 17), false),
    (Row::Name(1, 9), true),
    (Row::Fill(1, 5), false),
    (Row::Fill(1, 0x0807_0605_0403_0201), true),
    (Row::Publish(1), false),
    (Row::Fill(1, 9), true),
    (Row::Pin(2), false),
    (Row::Publish(1), true),
    (Row::Name(1, 9), false),
    (Row::Pin(1), false),
    (Row::Pin(2), true),
    (Row::Unpin(1), true),
    (Row::Unpin(1), false),
    (Row::BeginEvict(3), false),
    (Row::Unpin(2), true),
];

/// Moves it to place 2, and back to where it was once more; copies it there, settles it, and evicts it.
const MOVED: [(Row, bool); 18] = [
    (Row::BeginMove(3), false),
    (Row::Grant(3, 2, 0), true),
    (Row::BeginMove(3), true),
    (Row::Grant(4, 2, 0), false),
    (Row::Pin(1), false),
    (Row::Cancel(1), false),
    (Row::Cancel(3), true),
    (Row::BeginMove(3), true),
    (Row::Settle(3), false),
    (Row::Copy(3), true),
    (Row::Copy(3), true),
    (Row::Copy(3), false),
    (Row::Settle(3), true),
    (Row::Ungrant(3, 0), true),
    (Row::BeginEvict(1), true),
    (Row::Release(2), false),
    (Row::Release(1), true),
    (Row::Ungrant(1, 2), true),
];

/// The cells of a minimum block of 64 bytes.
fn cells(alloc: Global) -> Result<Sequence<u64>, AllocError> {
    Ok(Sequence::new(vec![in alloc; 7_u64; 8]?))
}

fn block(place: u32, order: u32) -> Block {
    Block { place, order }
}

/// So many bytes from the file's beginning.
fn key(len: u32) -> BufferKey {
    BufferKey {
        file: 0,
        at: 0,
        len,
    }
}

/// The buffer moves to place 2.
fn move_to_2(seat: u32, cells: Sequence<u64>) -> Step {
    Step::BeginMove {
        seat,
        header: 0,
        target: block(2, 0),
        cells,
    }
}

fn step_of(alloc: Global, row: Row) -> Result<Step, AllocError> {
    let header = 0;
    Ok(match row {
        Row::Grant(seat, place, order) => Step::Grant {
            seat,
            block: block(place, order),
        },
        Row::Ungrant(seat, place) => Step::Ungrant {
            seat,
            block: block(place, 0),
        },
        Row::Open(seat) => Step::Open {
            seat,
            header,
            block: block(0, 0),
            cells: cells(alloc)?,
        },
        Row::Name(seat, len) => Step::Name {
            seat,
            header,
            key: key(len),
        },
        Row::Fill(seat, value) => Step::Fill {
            seat,
            header,
            value,
        },
        Row::Publish(seat) => Step::Publish { seat, header },
        Row::Pin(seat) => Step::Pin { seat, header },
        Row::Unpin(seat) => Step::Unpin { seat, header },
        Row::BeginEvict(seat) => Step::BeginEvict { seat, header },
        Row::Release(seat) => Step::Release { seat, header },
        Row::BeginMove(seat) => move_to_2(seat, cells(alloc)?),
        Row::Copy(seat) => Step::Copy { seat, header },
        Row::Settle(seat) => Step::Settle { seat, header },
        Row::Cancel(seat) => Step::Cancel { seat, header },
    })
}

/// A pool of two headers and eight minimum blocks of 64 bytes, in a world whose one file has the bytes 1 to 16.
fn setting(alloc: Global) -> Result<Setting, AllocError>
    ensures { IfOk result (λ s. s.greatest_order ≤ 12) }
{
    let name = Sequence::new([b'a'].to_vec(alloc)?);
    let bytes = Sequence::new([1_u8, 2, 3, 4, 5, 6, 7, 8, 9, 10, 11, 12, 13, 14, 15, 16].to_vec(
        alloc,
    )?);
    let mut files = Vec::new(alloc);
    files.push((name, bytes))?;
    Ok(Setting {
        greatest_order: 6,
        min_block: 64,
        files: Some(Sequence::new(files)),
    })
}

/// Whether exactly the steps that are allowed were made.
fn goes_by(alloc: Global, setting: &Setting, pool: &mut PlainPool, rows: &[(Row, bool)]) -> bool
    requires order { setting.now.greatest_order ≤ 12 }
    requires lawful { IsLawful setting.now pool.old }
    ensures lawful { IsLawful setting.now pool.new }
{
    for (row, allowed) in rows {
        match step_of(alloc, *row) {
            Ok(step) => {
                if pool.apply(alloc, setting, step).is_ok() != *allowed {
                    return false;
                }
            }
            Err(_) => return false,
        }
    }
    true
}

fn both_go_by(alloc: Global) -> Result<bool, AllocError> {
    let setting = setting(alloc)?;
    let mut pool = PlainPool::empty(alloc, 2, 8)?;
    Ok(goes_by(alloc, &setting, &mut pool, &FILLED) && goes_by(alloc, &setting, &mut pool, &MOVED))
}

#[test]
fn each_step_is_made_exactly_where_it_is_allowed(rt: HostRuntime) {
    assert!(rt; matches!(both_go_by(rt.alloc()), Ok(true)));
}
