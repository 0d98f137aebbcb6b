//! A block of full arenas is made free, and the range is placed in it.
ghost use Rattle.std.specs.Prelude.{◌≡◌, ◌⊎◌, ◌+◌, ◌-◌, ◌^◌, ◌<◌, ◌≤◌, ℕ, List, Bool, true, false, None, MatchOption, length, slice_set};
ghost use Rattle.lrfu_policy.specs.Policy.{Ranking, with_entry};
ghost use Rattle.pool_rule.specs.declared.view.View.{View};
ghost use Rattle.pool_rule.specs.Layout.{headers_of};
ghost use Rattle.buffer_pool.specs.Pools.{IsSameSeat, IsSeatOf, seat_id, sizes_of, view};
ghost use Rattle.cache_eviction.specs.Order.{IsOneTry, IsVictimWalk, IsWalkOn};
ghost use Rattle.cache_placement.specs.Placements.{HoldsPlaced};
ghost use Rattle.cache_room.specs.Quiet.{AreKnown};
ghost use Rattle.cache_room.specs.Rooms.{AreMarked, HasFree, HeadersTried, IsWanted, MakesByTries, RoomLeft, unless_full};
ghost use Rattle.cache_room.specs.Searches.{Searches, WalkLeft, is_no_room};

use crate::Wanted;
use crate::marks::{is_marked, unmark_all};
use crate::trying::try_header;
use buffer_pool::{Pool, PoolSeat};
use cache_consult::consult;
use cache_placement::{Placed, Why, place};
use lrfu_policy::{Policy, Rank};
use outside::World;

/// What became of a range that was to be placed, and how many buffers were evicted for it.
pub struct Room {
    pub placed: Placed,
    pub evicted: u32,
}

/// The answer of a placement, but for want of room.
pub(crate) fn unless_full(placed: Placed) -> Option<Placed>
    ensures { result ≡ unless_full placed }
{
    match placed {
        Placed::Filled(pin) => Some(Placed::Filled(pin)),
        Placed::Bypass(why) => match why {
            Why::NoRoom { words: _ } => None,
            Why::Raced { saw } => Some(Placed::Bypass(Why::Raced { saw })),
            Why::Busy { word } => Some(Placed::Bypass(Why::Busy { word })),
            Why::SetFull { states } => Some(Placed::Bypass(Why::SetFull { states })),
            Why::PolicyOut => Some(Placed::Bypass(Why::PolicyOut)),
        },
    }
}

/// Tries a header, and if its buffer goes, places the range in the arena where its block was. `None` comes where the buffer can't
/// be had, or the arena shows no free block all the same.
fn place_for<W: World>(
    pool: &Pool<W>,
    seat: &mut PoolSeat<W>,
    policy: &mut Policy,
    header: u32,
    wanted: &Wanted,
    bytes: &[u8],
    evicted: &mut u32,
) -> Option<Placed>
    requires seat { IsSeatOf pool.now seat.old }
    requires entries { length policy.old.entries ≡ headers_of (sizes_of pool.now) }
    requires header { header < headers_of (sizes_of pool.now) }
    requires wanted { IsWanted W.files (sizes_of pool.now) wanted.now bytes.now }
    requires free { HasFree wanted.now }
    ensures seat { IsSameSeat pool.now seat.old seat.new }
    ensures entries { length policy.new.entries ≡ length policy.old.entries }
    ensures policy { (policy.new ≡ policy.old) ⊎ (policy.new ≡ with_entry header None policy.old) }
    ensures one { IsOneTry W.files (sizes_of pool.now) (seat_id seat.old) header policy.old policy.new (view seat.old) (view seat.new) }
    ensures roomy { MatchOption result (Unit {0}) (λ placed. is_no_room placed ≡ false) }
    ensures token { MatchOption result (Unit {0}) (HoldsPlaced pool.now seat.new wanted.now.key) }
    ensures few { evicted.new ≤ evicted.old + 1 }
    ensures left { (start : View) (tried : List Bool) → header < length tried
        → HeadersTried W.files (sizes_of pool.now) (seat_id seat.old) wanted.now.key start tried evicted.old (view seat.old)
        → RoomLeft W.files (sizes_of pool.now) (seat_id seat.old) wanted.now start (slice_set tried header true) evicted.new
        (view seat.new) result }
{
    match try_header(pool, seat, policy, header) {
        Ok(block) => {
            *evicted = evicted.saturating_add(1);
            let arena = block.place / 64;
            unless_full(place(
                pool,
                seat,
                wanted.key,
                wanted.order,
                wanted.first,
                wanted.states,
                arena,
                arena + 1,
                bytes,
            ))
        }
        Err(_) => None,
    }
}

/// Tries the policy's victims, in their order.
fn place_for_victims<W: World>(
    pool: &Pool<W>,
    seat: &mut PoolSeat<W>,
    policy: &mut Policy,
    tried: &mut [bool],
    wanted: &Wanted,
    bytes: &[u8],
    evicted: &mut u32,
) -> Option<Placed>
    requires seat { IsSeatOf pool.now seat.old }
    requires entries { length policy.old.entries ≡ headers_of (sizes_of pool.now) }
    requires tried { length tried.old ≡ headers_of (sizes_of pool.now) }
    requires wanted { IsWanted W.files (sizes_of pool.now) wanted.now bytes.now }
    requires free { HasFree wanted.now }
    ensures seat { IsSameSeat pool.now seat.old seat.new }
    ensures entries { length policy.new.entries ≡ length policy.old.entries }
    ensures roomy { MatchOption result (Unit {0}) (λ placed. is_no_room placed ≡ false) }
    ensures token { MatchOption result (Unit {0}) (HoldsPlaced pool.now seat.new wanted.now.key) }
    ensures few { evicted.new ≤ evicted.old + headers_of (sizes_of pool.now) }
    ensures left { (start : View) → HeadersTried W.files (sizes_of pool.now) (seat_id seat.old) wanted.now.key start tried.old
        evicted.old (view seat.old)
        → RoomLeft W.files (sizes_of pool.now) (seat_id seat.old) wanted.now start tried.new evicted.new (view seat.new) result }
    ensures walk { (told : Ranking) (start : View) → IsVictimWalk W.files (sizes_of pool.now) (seat_id seat.old) 0
        (headers_of (sizes_of pool.now)) told start None tried.old policy.old (view seat.old)
        → WalkLeft W.files (sizes_of pool.now) (seat_id seat.old) 0 (headers_of (sizes_of pool.now)) told start tried.new policy.new
        (view seat.new) result }
{
    lrfu_policy::laws::walk_ends();
    lrfu_policy::laws::ranks_are_ordered();
    lrfu_policy::laws::none_between();
    let mut after: Option<Rank> = None;
    while let Some(rank) = policy.next_victim(after) {
        match place_for(pool, seat, policy, rank.header, wanted, bytes, evicted) {
            Some(placed) => return Some(placed),
            None => tried[rank.header as usize] = true,
        }
        after = Some(rank);
    }
    None
}

/// Tries the headers that weren't tried, in order.
fn place_for_others<W: World>(
    pool: &Pool<W>,
    seat: &mut PoolSeat<W>,
    policy: &mut Policy,
    tried: &mut [bool],
    wanted: &Wanted,
    bytes: &[u8],
    evicted: &mut u32,
) -> Option<Placed>
    requires seat { IsSeatOf pool.now seat.old }
    requires entries { length policy.old.entries ≡ headers_of (sizes_of pool.now) }
    requires tried { length tried.old ≡ headers_of (sizes_of pool.now) }
    requires wanted { IsWanted W.files (sizes_of pool.now) wanted.now bytes.now }
    requires free { HasFree wanted.now }
    ensures seat { IsSameSeat pool.now seat.old seat.new }
    ensures entries { length policy.new.entries ≡ length policy.old.entries }
    ensures roomy { MatchOption result (Unit {0}) (λ placed. is_no_room placed ≡ false) }
    ensures token { MatchOption result (Unit {0}) (HoldsPlaced pool.now seat.new wanted.now.key) }
    ensures few { evicted.new ≤ evicted.old + headers_of (sizes_of pool.now) }
    ensures left { (start : View) → HeadersTried W.files (sizes_of pool.now) (seat_id seat.old) wanted.now.key start tried.old
        evicted.old (view seat.old)
        → RoomLeft W.files (sizes_of pool.now) (seat_id seat.old) wanted.now start tried.new evicted.new (view seat.new) result }
    ensures walk { (told : Ranking) (start : View) → IsWalkOn W.files (sizes_of pool.now) (seat_id seat.old) 0
        (headers_of (sizes_of pool.now)) told start tried.old policy.old (view seat.old)
        → WalkLeft W.files (sizes_of pool.now) (seat_id seat.old) 0 (headers_of (sizes_of pool.now)) told start tried.new policy.new
        (view seat.new) result }
    ensures all { MatchOption result (AreMarked (headers_of (sizes_of pool.now)) tried.new) (λ placed. Unit {0}) }
{
    for header in 0..8 * pool.geometry().sets {
        if is_marked(tried, header as usize) {
            continue;
        }
        match place_for(pool, seat, policy, header, wanted, bytes, evicted) {
            Some(placed) => return Some(placed),
            None => tried[header as usize] = true,
        }
    }
    None
}

/// Places a range where no arena showed a free block for it, by evicting buffers.
///
/// The policy is consulted. Its victims are tried in their order, and after them the headers that weren't tried, by ascending number.
/// After each buffer that went the arena of its block is asked, and no other; and one more goes only where that arena showed no free
/// block when it was asked last. Where each header was tried and no arena that was asked had a block, all arenas are asked once more.
/// The answer is that of the last `cache_placement::place`.
///
/// `NoRoom` comes only from that: each header was tried in this call, and no arena showed a block then. What was evicted stays so,
/// whatever the answer.
///
/// `tried` has a flag for each header, of any value. The policy has as many headers as the pool, and the keys of the seat's pins are
/// known. Each header of the pool costs a step or a few. It takes no memory and waits for nobody.
pub(crate) fn place_evicting<W: World>(
    pool: &Pool<W>,
    seat: &mut PoolSeat<W>,
    policy: &mut Policy,
    tried: &mut [bool],
    wanted: &Wanted,
    bytes: &[u8],
) -> Room
    requires seat { IsSeatOf pool.now seat.old }
    requires entries { length policy.old.entries ≡ headers_of (sizes_of pool.now) }
    requires tried { length tried.old ≡ headers_of (sizes_of pool.now) }
    requires known { AreKnown (view seat.old) }
    requires wanted { IsWanted W.files (sizes_of pool.now) wanted.now bytes.now }
    requires free { HasFree wanted.now }
    ensures seat { IsSameSeat pool.now seat.old seat.new }
    ensures entries { length policy.new.entries ≡ length policy.old.entries }
    ensures tried { length tried.new ≡ length tried.old }
    ensures token { HoldsPlaced pool.now seat.new wanted.now.key result.placed }
    ensures few { result.evicted < 2 ^ 32 - 2 }
    ensures makes { MakesByTries W.files (sizes_of pool.now) (seat_id seat.old) wanted.now (view seat.old) (view seat.new)
        result.evicted result.placed }
    ensures searched { Searches W.files (sizes_of pool.now) (seat_id seat.old) 0 (headers_of (sizes_of pool.now))
        (is_no_room result.placed) policy.old policy.new (view seat.old) (view seat.new) }
{
    consult(pool, seat, policy);
    unmark_all(tried);
    let mut evicted = 0;
    match place_for_victims(pool, seat, policy, tried, wanted, bytes, &mut evicted) {
        Some(placed) => return Room { placed, evicted },
        None => {}
    }
    match place_for_others(pool, seat, policy, tried, wanted, bytes, &mut evicted) {
        Some(placed) => return Room { placed, evicted },
        None => {}
    }
    let arenas = pool.geometry().arenas;
    let placed = place(
        pool,
        seat,
        wanted.key,
        wanted.order,
        wanted.first,
        wanted.states,
        0,
        arenas,
        bytes,
    );
    Room { placed, evicted }
}
