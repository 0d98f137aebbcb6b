//! A range is placed, and buffers are evicted where that is needed.
ghost use Rattle.std.specs.Prelude.{◌≡◌, ◌-◌, ◌^◌, ◌<◌, ℕ, MatchOption, length, slice_index};
ghost use Rattle.pool_rule.specs.Layout.{headers_of};
ghost use Rattle.buffer_pool.specs.Pools.{IsSameSeat, IsSeatOf, seat_id, sizes_of, view};
ghost use Rattle.cache_placement.specs.Free.{IsFirstFree, NoneFree};
ghost use Rattle.cache_placement.specs.Placements.{HoldsPlaced};
ghost use Rattle.cache_room.specs.Quiet.{AreKnown};
ghost use Rattle.cache_room.specs.Rooms.{HasFree, IsRoom, IsWanted, MakesWhereFull, with_freed};
ghost use Rattle.cache_room.specs.Searches.{Ranks, SearchesIf, is_no_room, why_of};

use crate::room::{place_evicting, unless_full};
use crate::{Room, Wanted, free_way};
use buffer_pool::{Pool, PoolSeat};
use cache_placement::{Placed, Why, place};
use lrfu_policy::Policy;
use outside::World;

/// The lowest way that was seen released, without a count.
fn first_free(states: &[u64]) -> Option<u32>
    requires { length states.now ≡ 8 }
    ensures { MatchOption result (NoneFree states.now) (λ way. IsFirstFree states.now way) }
{
    for way in 0..8 {
        if states[way as usize] == 8 {
            return Some(way);
        }
    }
    None
}

/// The same with a way that was freed.
fn with_freed(wanted: Wanted, way: u32) -> Wanted
    requires { way < 8 }
    ensures same { result ≡ with_freed way wanted }
    ensures free { slice_index result.states way ≡ 8 }
{
    let Wanted {
        key,
        order,
        first,
        mut states,
    } = wanted;
    states[way as usize] = 8;
    Wanted {
        key,
        order,
        first,
        states,
    }
}

/// Places a range in a way that was seen free: in a block of an arena, and if none shows one, by evictions.
fn place_in_free<W: World>(
    pool: &Pool<W>,
    seat: &mut PoolSeat<W>,
    policy: &mut Policy,
    tried: &mut [bool],
    wanted: &Wanted,
    bytes: &[u8],
) -> Room
    requires seat { IsSeatOf pool.now seat.old }
    requires entries { length policy.old.entries ≡ headers_of (sizes_of pool.now) }
    requires tried { length tried.old ≡ headers_of (sizes_of pool.now) }
    requires known { AreKnown (view seat.old) }
    requires wanted { IsWanted W.files (sizes_of pool.now) wanted.now bytes.now }
    requires free { HasFree wanted.now }
    ensures seat { IsSameSeat pool.now seat.old seat.new }
    ensures entries { length policy.new.entries ≡ length policy.old.entries }
    ensures tried { length tried.new ≡ length tried.old }
    ensures token { HoldsPlaced pool.now seat.new wanted.now.key result.placed }
    ensures few { result.evicted < 2 ^ 32 - 2 }
    ensures makes { MakesWhereFull W.files (sizes_of pool.now) (seat_id seat.old) wanted.now (view seat.old) (view seat.new)
        result.evicted result.placed }
    ensures searched { SearchesIf W.files (sizes_of pool.now) (seat_id seat.old) (is_no_room result.placed) policy.old policy.new
        (view seat.old) (view seat.new) }
{
    let arenas = pool.geometry().arenas;
    let placed = place(
        pool,
        seat,
        wanted.key,
        wanted.order,
        wanted.first,
        wanted.states,
        0,
        arenas,
        bytes,
    );
    match unless_full(placed) {
        Some(placed) => Room { placed, evicted: 0 },
        None => place_evicting(pool, seat, policy, tried, wanted, bytes),
    }
}

/// Places a range in the cache and pins it, and evicts what has to go for it.
///
/// Where no way of its set was seen free, one is freed, as `free_way` does. Then the arenas are asked for a free block. Only where none
/// showed one are buffers evicted for it: behind each the arena of its block is asked, and one more goes only where that arena showed no
/// free block when it was asked last. No other arena is asked before each header was tried. With a block that is granted the header is
/// opened, filled from `bytes` and published.
///
/// `SetFull` comes where each way of the set was tried in this call and none could be freed, with the last words that steps on their
/// states found; `NoRoom` where each header was tried in this call and no arena showed a free block behind that, with the words that the
/// last loads of the arenas gave; `Raced` where the exchange that grants or opens came back with another word. What was evicted stays so,
/// whatever the answer, and `evicted` counts it.
///
/// `tried` has a flag for each header, of any value. The policy has as many headers as the pool, and the keys of the seat's pins are
/// known. It takes no memory and waits for nobody.
pub fn place_or_evict<W: World>(
    pool: &Pool<W>,
    seat: &mut PoolSeat<W>,
    policy: &mut Policy,
    tried: &mut [bool],
    wanted: Wanted,
    bytes: &[u8],
) -> Room
    requires seat { IsSeatOf pool.now seat.old }
    requires entries { length policy.old.entries ≡ headers_of (sizes_of pool.now) }
    requires tried { length tried.old ≡ headers_of (sizes_of pool.now) }
    requires known { AreKnown (view seat.old) }
    requires wanted { IsWanted W.files (sizes_of pool.now) wanted bytes.now }
    ensures seat { IsSameSeat pool.now seat.old seat.new }
    ensures entries { length policy.new.entries ≡ length policy.old.entries }
    ensures tried { length tried.new ≡ length tried.old }
    ensures token { HoldsPlaced pool.now seat.new wanted.key result.placed }
    ensures few { result.evicted < 2 ^ 32 - 1 }
    ensures room { IsRoom W.files (sizes_of pool.now) (seat_id seat.old) wanted (view seat.old) (view seat.new) result.evicted
        result.placed }
    ensures ranked { Ranks W.files (sizes_of pool.now) (seat_id seat.old) wanted.first policy.old policy.new (view seat.old)
        (view seat.new) (why_of result.placed) }
{
    match first_free(&wanted.states) {
        Some(_) => return place_in_free(pool, seat, policy, tried, &wanted, bytes),
        None => {}
    }
    let mut seen = wanted.states;
    match free_way(pool, seat, policy, wanted.first, &mut seen) {
        Some(way) => {
            let wanted = with_freed(wanted, way);
            let Room { placed, evicted } = place_in_free(pool, seat, policy, tried, &wanted, bytes);
            let evicted = evicted.saturating_add(1);
            Room { placed, evicted }
        }
        None => Room {
            placed: Placed::Bypass(Why::SetFull { states: seen }),
            evicted: 0,
        },
    }
}
