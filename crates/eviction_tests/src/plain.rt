// A cache of one caller as plain lists: one set of eight headers, one arena, no words, counts or exchanges. What is held isn't evicted.

use crate::fetches::{FILLED, FULL, HIT, NO_ROOM};

/// A range in the cache.
#[derive(Clone, Copy)]
struct Row {
    key: u8,
    place: u32,
    order: u32,
    touches: u64,
    last: u64,
    held: u32,
}

/// What the policy knows of it.
#[derive(Clone, Copy)]
struct Known {
    key: u8,
    s: u64,
    e: u64,
    last: u64,
}

/// The cache, its clock, and how many ranges were evicted and went past it.
#[derive(Clone, Copy, Drop)]
pub(crate) struct Plain {
    half_life: u64,
    clock: u64,
    evicted: u64,
    passed: u64,
    rows: [Option<Row>; 8],
    known: [Option<Known>; 8],
}

/// Nothing yet.
pub(crate) fn new_plain(half_life: u64) -> Plain {
    Plain {
        half_life,
        clock: 0,
        evicted: 0,
        passed: 0,
        rows: [None; 8],
        known: [None; 8],
    }
}

/// Whether two runs of smallest blocks share one.
fn share(a: u32, a_order: u32, b: u32, b_order: u32) -> bool {
    let a_end = a.wrapping_add(1u32.wrapping_shl(a_order));
    let b_end = b.wrapping_add(1u32.wrapping_shl(b_order));
    a < b_end && b < a_end
}

/// Whether nothing lies in a block.
fn is_free(plain: &Plain, place: u32, order: u32) -> bool {
    for i in 0..8 {
        if let Some(row) = plain.rows[i] {
            if share(place, order, row.place, row.order) {
                return false;
            }
        }
    }
    true
}

/// The lowest of the smallest free blocks that have the order or more, where a free block is in no greater free one.
fn buddy(plain: &Plain, order: u32) -> Option<u32> {
    for k in order..7 {
        let size = 1u32.wrapping_shl(k);
        for place in 0..64 {
            let aligned = place & size.wrapping_sub(1) == 0;
            let parent = place & !size;
            if aligned
                && is_free(plain, place, k)
                && (k == 6 || !is_free(plain, parent, k.wrapping_add(1)))
            {
                return Some(place);
            }
        }
    }
    None
}

/// Notes the touches of each row, and takes them.
fn consult(plain: &mut Plain) {
    for i in 0..8 {
        if let Some(mut row) = plain.rows[i] {
            if row.touches > 0 {
                plain.known[i] = Some(synced(plain.half_life, plain.known[i], row));
                row.touches = 0;
                plain.rows[i] = Some(row);
            }
        }
    }
}

/// What is known of a row after its touches.
fn synced(half_life: u64, known: Option<Known>, row: Row) -> Known {
    let (s, e, last) = match known {
        Some(old) => if old.key == row.key {
            (old.s, old.e, old.last)
        } else {
            (0, 0, 0)
        },
        None => (0, 0, 0),
    };
    let last = last.max(row.last);
    let now = last.checked_div(half_life).unwrap_or(0);
    let halvings = now.saturating_sub(e);
    let left = if halvings < 64 { s >> halvings } else { 0 };
    let s = left
        .saturating_add(row.touches.saturating_mul(1 << 32))
        .min(1 << 63);
    Known {
        key: row.key,
        s,
        e: now,
        last,
    }
}

/// Whether one goes before another: by its weight, then by its last touch, then by its header.
fn goes_before(a: Known, b: Known) -> bool {
    let left = u128::from(a.s).wrapping_shl((a.e & 127) as u32);
    let right = u128::from(b.s).wrapping_shl((b.e & 127) as u32);
    left < right || left == right && a.last < b.last
}

/// Whether a row may go.
fn is_idle(row: Option<Row>) -> bool {
    match row {
        Some(row) => row.held == 0,
        None => false,
    }
}

/// Takes the first victim out that isn't held, and answers its header.
fn evict(plain: &mut Plain) -> Option<usize> {
    let mut victim: Option<usize> = None;
    for i in 0..8usize {
        if !is_idle(plain.rows[i]) {
            continue;
        }
        if let Some(known) = plain.known[i] {
            let first = match victim {
                Some(v) => match plain.known[v & 7] {
                    Some(best) => goes_before(known, best),
                    None => true,
                },
                None => true,
            };
            if first {
                victim = Some(i);
            }
        }
    }
    if let Some(v) = victim {
        plain.rows[v & 7] = None;
        plain.known[v & 7] = None;
        plain.evicted = plain.evicted.wrapping_add(1);
    }
    victim
}

/// The header that has a key, or the lowest without a row.
fn header_with(plain: &Plain, key: Option<u8>) -> Option<usize> {
    for i in 0..8usize {
        let here = match plain.rows[i] {
            Some(row) => Some(row.key),
            None => None,
        };
        if here == key {
            return Some(i);
        }
    }
    None
}

/// A block, by evictions where there is none.
fn block(plain: &mut Plain, order: u32) -> Option<u32> {
    if let Some(place) = buddy(plain, order) {
        return Some(place);
    }
    consult(plain);
    for _ in 0..8 {
        if evict(plain).is_none() {
            return None;
        }
        if let Some(place) = buddy(plain, order) {
            return Some(place);
        }
    }
    None
}

/// A header without a row, by an eviction where there is none.
fn header(plain: &mut Plain) -> Option<usize> {
    let free = header_with(plain, None);
    if free.is_none() {
        consult(plain);
        return evict(plain);
    }
    free
}

/// Counts a range that goes past the cache.
fn pass(plain: &mut Plain, how: u64) -> u64 {
    plain.passed = plain.passed.wrapping_add(1);
    how
}

/// Brings a key of that order in, held, where there is a header and a block for it.
fn fill(plain: &mut Plain, key: u8, order: u32) -> u64 {
    let Some(header) = header(plain) else {
        return pass(plain, FULL);
    };
    let Some(place) = block(plain, order) else {
        return pass(plain, NO_ROOM);
    };
    plain.rows[header & 7] = Some(Row {
        key,
        place,
        order,
        touches: 1,
        last: plain.clock,
        held: 1,
    });
    FILLED
}

/// Gets a key of that order, which is held then unless it goes past the cache: how it was got.
pub(crate) fn plain_get(plain: &mut Plain, key: u8, order: u32) -> u64 {
    plain.clock = plain.clock.wrapping_add(1);
    if let Some(header) = header_with(plain, Some(key)) {
        if let Some(mut row) = plain.rows[header & 7] {
            row.touches = row.touches.wrapping_add(1);
            row.last = plain.clock;
            row.held = row.held.wrapping_add(1);
            plain.rows[header & 7] = Some(row);
        }
        return HIT;
    }
    fill(plain, key, order)
}

/// Lets a key go once, if it is held.
pub(crate) fn plain_drop(plain: &mut Plain, key: u8) {
    if let Some(header) = header_with(plain, Some(key)) {
        if let Some(mut row) = plain.rows[header & 7] {
            row.held = row.held.saturating_sub(1);
            plain.rows[header & 7] = Some(row);
        }
    }
}

/// How many ranges were evicted so far.
pub(crate) fn evicted_so_far(plain: &Plain) -> u64 {
    plain.evicted
}

/// Whether it was used so much: so many gets, evictions, and ranges past the cache.
pub(crate) fn was_used(plain: &Plain, gets: u64, evicted: u64, passed: u64) -> bool {
    plain.clock >= gets && plain.evicted >= evicted && plain.passed >= passed
}
