//! A way of a full set is freed.
ghost use Rattle.std.specs.Prelude.{◌≡◌, ◌+◌, ◌<◌, ◌≤◌, ℕ, None, length};
ghost use Rattle.std.specs.Option.{is_none};
ghost use Rattle.lrfu_policy.specs.Policy.{Ranking};
ghost use Rattle.buffer_word.specs.declared.key_word.Key.{Key};
ghost use Rattle.pool_rule.specs.declared.view.View.{View};
ghost use Rattle.pool_rule.specs.Layout.{headers_of};
ghost use Rattle.buffer_pool.specs.Pools.{IsSameSeat, IsSeatOf, seat_id, sizes_of, view};
ghost use Rattle.cache_room.specs.Quiet.{AreKnown};
ghost use Rattle.cache_eviction.specs.Order.{IsVictimWalk, IsWalkOn};
ghost use Rattle.cache_room.specs.Rooms.{FreesWay, WaysLeft, WaysTried};
ghost use Rattle.cache_room.specs.Searches.{EndsAll, Searches, WalkLeft};

use crate::marks::is_marked;
use crate::trying::try_header;
use buffer_pool::{Pool, PoolSeat};
use cache_consult::consult;
use lrfu_policy::{Policy, Rank};
use outside::World;

/// Tries the policy's victims among the ways, in their order.
fn victim_way<W: World>(
    pool: &Pool<W>,
    seat: &mut PoolSeat<W>,
    policy: &mut Policy,
    first: u32,
    seen: &mut [u64],
    tried: &mut [bool],
) -> Option<u32>
    requires seat { IsSeatOf pool.now seat.old }
    requires entries { length policy.old.entries ≡ headers_of (sizes_of pool.now) }
    requires set { first + 8 ≤ headers_of (sizes_of pool.now) }
    requires seen { length seen.old ≡ 8 }
    requires tried { length tried.old ≡ 8 }
    ensures seat { IsSameSeat pool.now seat.old seat.new }
    ensures entries { length policy.new.entries ≡ length policy.old.entries }
    ensures left { (key : Key) (start : View) → WaysTried W.files (sizes_of pool.now) (seat_id seat.old) key first start seen.old
        tried.old (view seat.old)
        → WaysLeft W.files (sizes_of pool.now) (seat_id seat.old) key first start seen.new tried.new (view seat.new) result }
    ensures walk { (told : Ranking) (start : View) → IsVictimWalk W.files (sizes_of pool.now) (seat_id seat.old) first 8 told start
        None tried.old policy.old (view seat.old)
        → WalkLeft W.files (sizes_of pool.now) (seat_id seat.old) first 8 told start tried.new policy.new (view seat.new) result }
{
    lrfu_policy::laws::walk_ends();
    lrfu_policy::laws::ranks_are_ordered();
    lrfu_policy::laws::none_between();
    let mut after: Option<Rank> = None;
    while let Some(rank) = policy.next_among(first, 8, after) {
        let way = rank.header - first;
        match try_header(pool, seat, policy, rank.header) {
            Ok(_) => return Some(way),
            Err(held) => {
                seen[way as usize] = held.word;
                tried[way as usize] = true;
            }
        }
        after = Some(rank);
    }
    None
}

/// Tries the ways that weren't tried, in order.
fn other_way<W: World>(
    pool: &Pool<W>,
    seat: &mut PoolSeat<W>,
    policy: &mut Policy,
    first: u32,
    seen: &mut [u64],
    tried: &mut [bool],
) -> Option<u32>
    requires seat { IsSeatOf pool.now seat.old }
    requires entries { length policy.old.entries ≡ headers_of (sizes_of pool.now) }
    requires set { first + 8 ≤ headers_of (sizes_of pool.now) }
    requires seen { length seen.old ≡ 8 }
    requires tried { length tried.old ≡ 8 }
    ensures seat { IsSameSeat pool.now seat.old seat.new }
    ensures entries { length policy.new.entries ≡ length policy.old.entries }
    ensures frees { (key : Key) (start : View) → WaysTried W.files (sizes_of pool.now) (seat_id seat.old) key first start seen.old
        tried.old (view seat.old)
        → FreesWay W.files (sizes_of pool.now) (seat_id seat.old) key first start seen.new (view seat.new) result }
    ensures walk { (told : Ranking) (start : View) → IsWalkOn W.files (sizes_of pool.now) (seat_id seat.old) first 8 told start tried.old
        policy.old (view seat.old)
        → EndsAll W.files (sizes_of pool.now) (seat_id seat.old) first 8 (is_none result) told start policy.new (view seat.new) }
{
    for way in 0..8 {
        if is_marked(tried, way) {
            continue;
        }
        match try_header(pool, seat, policy, first + way as u32) {
            Ok(_) => return Some(way as u32),
            Err(held) => {
                seen[way] = held.word;
                tried[way] = true;
            }
        }
    }
    None
}

/// Frees one of the eight ways from header `first` on, by evicting its buffer, and answers which.
///
/// The policy is consulted. Its victims among the ways are tried in their order, and after them the ways that weren't tried, by
/// ascending number. The first buffer that can be had goes: its header is released, its block given back, and the policy forgets it.
///
/// `None` comes where none could be had. Each way was tried then, and `seen` has the words that the last steps on the ways' states
/// found. The seat has what it had, whatever the answer.
///
/// The policy has as many headers as the pool, and the keys of the seat's pins are known. Each header of the pool costs a step or a
/// few. It takes no memory and waits for nobody.
pub fn free_way<W: World>(
    pool: &Pool<W>,
    seat: &mut PoolSeat<W>,
    policy: &mut Policy,
    first: u32,
    seen: &mut [u64],
) -> Option<u32>
    requires seat { IsSeatOf pool.now seat.old }
    requires entries { length policy.old.entries ≡ headers_of (sizes_of pool.now) }
    requires set { first + 8 ≤ headers_of (sizes_of pool.now) }
    requires known { AreKnown (view seat.old) }
    requires seen { length seen.old ≡ 8 }
    ensures seat { IsSameSeat pool.now seat.old seat.new }
    ensures entries { length policy.new.entries ≡ length policy.old.entries }
    ensures frees { (key : Key) → FreesWay W.files (sizes_of pool.now) (seat_id seat.old) key first (view seat.old) seen.new
        (view seat.new) result }
    ensures searched { Searches W.files (sizes_of pool.now) (seat_id seat.old) first 8 (is_none result) policy.old policy.new
        (view seat.old) (view seat.new) }
{
    consult(pool, seat, policy);
    let mut tried = [false; 8];
    match victim_way(pool, seat, policy, first, seen, &mut tried) {
        Some(way) => Some(way),
        None => other_way(pool, seat, policy, first, seen, &mut tried),
    }
}
