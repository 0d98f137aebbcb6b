// A header and a block for a range, and the new buffer.
ghost use Rattle.std.specs.Prelude.{◌≡◌, ◌+◌, ◌≤◌, length, MatchOption};
ghost use Rattle.buffer_word.specs.KeyWord.{IsKey};
ghost use Rattle.pool_model.specs.Content.{IsRange};
ghost use Rattle.pool_rule.specs.Layout.{headers_of};
ghost use Rattle.buffer_pool.specs.Pools.{IsContentOf, IsSameSeat, IsSeatOf, buffer_key, seat_id, sizes_of, view};
ghost use Rattle.cache_placement.specs.Free.{IsFirstFree, IsOrder, NoneFree};
ghost use Rattle.cache_placement.specs.Placements.{HoldsPlaced, PlacesRange};
ghost use Rattle.cache_placement.specs.Steps.{Places};

use crate::arenas::{Asked, ask};
use crate::opening::open_with;
use crate::{Placed, Why};
use buffer_pool::{Key, Pool, PoolSeat};
use outside::World;

/// The lowest way whose state word is that of a released header without a count.
fn first_free(states: &[u64]) -> Option<u32>
    requires { length states.now ≡ 8 }
    ensures { MatchOption result (NoneFree states.now) (λ way. IsFirstFree states.now way) }
{
    for way in 0..8 {
        if states[way as usize] == 8 {
            return Some(way);
        }
    }
    None
}

/// Places a range: by which steps.
fn place_by_steps<W: World>(
    pool: &Pool<W>,
    seat: &mut PoolSeat<W>,
    key: Key,
    order: u32,
    first: u32,
    states: [u64; 8],
    from: u32,
    until: u32,
    bytes: &[u8],
) -> Placed
    requires seat { IsSeatOf pool.now seat.old }
    requires key { IsKey key }
    requires order { IsOrder (sizes_of pool.now) key.len order }
    requires set { first + 8 ≤ headers_of (sizes_of pool.now) }
    requires arenas { (from ≤ until) × (until ≤ (sizes_of pool.now).arenas) × (until ≤ 64) }
    requires range { IsRange W.files (buffer_key key) }
    requires len { length bytes.now ≡ key.len }
    requires content { IsContentOf W.files (buffer_key key) bytes.now }
    ensures seat { IsSameSeat pool.now seat.old seat.new }
    ensures token { HoldsPlaced pool.now seat.new key result }
    ensures made { Places W.files (sizes_of pool.now) (seat_id seat.old) key order first states from until (view seat.old)
        (view seat.new) result }
{
    let way = match first_free(&states) {
        Some(way) => way,
        None => return Placed::Bypass(Why::SetFull { states }),
    };
    let mut words = [u64::MAX; 64];
    match ask(pool, seat, order, from, until, &mut words) {
        Asked::Full => Placed::Bypass(Why::NoRoom { words }),
        Asked::Raced(saw) => Placed::Bypass(Why::Raced { saw }),
        Asked::Got(grant) => open_with(pool, seat, first + way, key, grant, bytes),
    }
}

/// Places a range in the cache, in a header of its set that was seen released, and pins it.
///
/// `states` are the states that were seen of the eight ways from header `first` on. The header is the lowest way that was seen
/// released without a count. The arenas from number `from` on and below `until` are asked in order for a free block of the order, the
/// least that holds the key's bytes, and the first that `find` gives is granted. Then the header is opened with it, its cells are filled
/// from `bytes`, and it is published.
///
/// Answers `SetFull` where no way was seen released, `NoRoom` where none of these arenas has a free block, and `Raced` where the exchange
/// that grants or opens came back with another word. After each of these the seat has what it had: a block whose header was lost
/// is given back.
///
/// Source: this project's own.
pub fn place<W: World>(
    pool: &Pool<W>,
    seat: &mut PoolSeat<W>,
    key: Key,
    order: u32,
    first: u32,
    states: [u64; 8],
    from: u32,
    until: u32,
    bytes: &[u8],
) -> Placed
    requires seat { IsSeatOf pool.now seat.old }
    requires key { IsKey key }
    requires order { IsOrder (sizes_of pool.now) key.len order }
    requires set { first + 8 ≤ headers_of (sizes_of pool.now) }
    requires arenas { (from ≤ until) × (until ≤ (sizes_of pool.now).arenas) × (until ≤ 64) }
    requires range { IsRange W.files (buffer_key key) }
    requires len { length bytes.now ≡ key.len }
    requires content { IsContentOf W.files (buffer_key key) bytes.now }
    ensures seat { IsSameSeat pool.now seat.old seat.new }
    ensures token { HoldsPlaced pool.now seat.new key result }
    ensures placed { PlacesRange W.files pool.now seat.old seat.new key order first states from until result }
{
    place_by_steps(pool, seat, key, order, first, states, from, until, bytes)
}
