// Grants in turn: what a stale word loses, and what arena words show meanwhile.
ghost use Rattle.std.specs.Prelude.{◌≡◌, ◌≢◌, ℕ};
ghost use Rattle.pool_rule.specs.Seats.{granted_at};
ghost use Rattle.buffer_pool.specs.Pools.{IsSameSeat, IsSeatOf, sizes_of, view};

use buddy_arena::mask;
use buffer_pool::{Geometry, Pool, PoolSeat, WordName, grant, look, ungrant};
use outside::RealWorld;
use std::alloc::Global;

/// Tries place 4 from a word that isn't there. Gives the word that the exchange found, or all ones where the block was granted.
fn stale(pool: &Pool<RealWorld>, seat: &mut PoolSeat<RealWorld>, word: u64) -> u64
    requires seat { IsSeatOf pool.now seat.old }
    requires arenas { (sizes_of pool.now).arenas ≡ 1 }
    ensures seat { IsSameSeat pool.now seat.old seat.new }
    ensures others { (place : ℕ) → place ≢ 4 → granted_at (view seat.new) place ≡ granted_at (view seat.old) place }
{
    buddy_arena::laws::mask_tests_clear();
    let bits = mask(4, 0);
    if word & bits != 0 {
        return u64::MAX;
    }
    match grant(pool, seat, 4, 0, word) {
        Ok(granted) => {
            ungrant(pool, seat, granted);
            u64::MAX
        }
        Err(lost) => lost.saw,
    }
}

/// Grants place 4 from the word that a stale try found, beside a first block, and gives it back. Answers whether the words
/// were those of the first block, and of both.
fn grants_again(pool: &Pool<RealWorld>, seat: &mut PoolSeat<RealWorld>) -> bool
    requires seat { IsSeatOf pool.now seat.old }
    requires arenas { (sizes_of pool.now).arenas ≡ 1 }
    ensures seat { IsSameSeat pool.now seat.old seat.new }
    ensures others { (place : ℕ) → place ≢ 4 → granted_at (view seat.new) place ≡ granted_at (view seat.old) place }
{
    buddy_arena::laws::mask_tests_clear();
    let saw = stale(pool, seat, 0);
    let bits = mask(4, 0);
    if saw & bits != 0 {
        return false;
    }
    match grant(pool, seat, 4, 0, saw) {
        Ok(second) => {
            let out = look(pool, seat, WordName::Arena(0));
            ungrant(pool, seat, second);
            saw == 0xF && out == 0x1F
        }
        Err(_) => false,
    }
}

/// Grants places 0 to 3 and then place 4, and gives both back: no bit is left set. Before, a word with bits loses to the one without.
fn grants_in_turn(pool: &Pool<RealWorld>, seat: &mut PoolSeat<RealWorld>) -> bool
    requires seat { IsSeatOf pool.now seat.old }
    requires arenas { (sizes_of pool.now).arenas ≡ 1 }
{
    if stale(pool, seat, 0xF) != 0 {
        return false;
    }
    match grant(pool, seat, 0, 2, 0) {
        Ok(first) => {
            let again = grants_again(pool, seat);
            ungrant(pool, seat, first);
            again && look(pool, seat, WordName::Arena(0)) == 0
        }
        Err(_) => false,
    }
}

fn words_show_grants(alloc: Global) -> bool {
    let geometry = Geometry {
        min_block: 64,
        arenas: 1,
        sets: 1,
    };
    match Pool::<RealWorld>::create(alloc, geometry, 1) {
        Ok((pool, mut seat)) => grants_in_turn(&pool, &mut seat),
        Err(_) => false,
    }
}

#[test]
fn a_stale_word_loses_the_grant(rt: HostRuntime) {
    assert!(rt; words_show_grants(rt.alloc()));
}
