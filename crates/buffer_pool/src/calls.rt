//! The calls on blocks and seats, and a load. Each is one atomic step.

ghost use Rattle.std.specs.Prelude.{◌≡◌, ◌≢◌, ℕ, ◌%◌, ◌/◌, ◌<◌, length, Some, IfOk, IfErr, OnOk};
ghost use Rattle.buddy_arena.specs.Block.{IsClear};
ghost use Rattle.pool_rule.specs.declared.geometry.WordName.TheVariants.{Arena};
ghost use Rattle.pool_rule.specs.declared.word_step.WordStep.TheVariants.{Granted, Looked, Missed, Returned};
ghost use Rattle.pool_rule.specs.Layout.{IsWord};
ghost use Rattle.pool_rule.specs.Seats.{HasNothing, joined, part_of, parted};
ghost use Rattle.buffer_pool.specs.Made.{Makes};
ghost use Rattle.buffer_pool.specs.Pools.{IsBlockOf, IsGrantOf, IsSameSeat, IsSeatOf, block_at, block_of, seat_id, sizes_of, view};

use crate::{Grant, LostGrant, Pool, PoolSeat, WordName};
use outside::World;
use pool_model::Block;
use std::marker::PhantomData;

/// Loads a word, in one step.
///
/// A load of a header's key word tells the key to a pin of that header, or to a buffer that the seat is moving.
pub fn look<W: World>(pool: &Pool<W>, seat: &mut PoolSeat<W>, word: WordName) -> u64
    requires seat { IsSeatOf pool.now seat.old }
    requires word { IsWord (sizes_of pool.now) word }
    ensures seat { IsSameSeat pool.now seat.old seat.new }
    ensures made { Makes W.files pool.now seat.old seat.new (Looked word result) }
{
    pool.words.look(&mut seat.seat, word)
}

/// Takes a block for the seat, in one step: an exchange of the arena's word from `seen`, in which the block is clear, to
/// the same with the block's bits set.
///
/// The place is counted in minimum blocks over all arenas, and is a multiple of `2^order`; the order is at most 6.
///
/// `LostGrant` comes only where the exchange found another word than `seen`. The pool is then as it was.
pub fn grant<W: World>(
    pool: &Pool<W>,
    seat: &mut PoolSeat<W>,
    place: u32,
    order: u32,
    seen: u64,
) -> Result<Grant, LostGrant>
    requires seat { IsSeatOf pool.now seat.old }
    requires block { IsBlockOf pool.now (block_at place order) }
    requires clear { IsClear seen (place % 64) order }
    ensures seat { IsSameSeat pool.now seat.old seat.new }
    ensures block { IfOk result (λ g. block_of g ≡ block_at place order) }
    ensures token { IfOk result (λ g. IsGrantOf pool.now seat.new g) }
    ensures ok { OnOk result (Makes W.files pool.now seat.old seat.new (Granted (block_at place order) seen)) }
    ensures saw { IfErr result (λ e. e.saw ≢ seen) }
    ensures err { IfErr result (λ e. Makes W.files pool.now seat.old seat.new (Missed (Arena (place / 64)) e.saw)) }
{
    let block = Block { place, order };
    match pool.words.take_block(&mut seat.seat, block, seen) {
        Ok(()) => Ok(Grant { block }),
        Err(lost) => Err(lost),
    }
}

/// Gives a granted block back, in one step: a fetch_and clears its bits in the arena's word.
pub fn ungrant<W: World>(pool: &Pool<W>, seat: &mut PoolSeat<W>, grant: Grant)
    requires seat { IsSeatOf pool.now seat.old }
    requires token { IsGrantOf pool.now seat.old grant }
    ensures seat { IsSameSeat pool.now seat.old seat.new }
    ensures made { (found : ℕ) × Makes W.files pool.now seat.old seat.new (Returned (block_of grant) found) }
{
    let Grant { block } = grant;
    pool.words.give_block(&mut seat.seat, block);
}

/// Parts a seat, in one step. The new seat has its last numbers, so many of them, and nothing else.
///
/// The seat has more numbers than that, and `numbers` is at least 1. Neither seat knows the words from then on.
pub fn split<W: World>(pool: &Pool<W>, seat: &mut PoolSeat<W>, numbers: u32) -> PoolSeat<W>
    requires seat { IsSeatOf pool.now seat.old }
    requires numbers { (0 < numbers) × (numbers < length (view seat.old).numbers) }
    ensures seat { IsSameSeat pool.now seat.old seat.new }
    ensures new { IsSeatOf pool.now result }
    ensures view { view seat.new ≡ parted numbers (view seat.old) }
    ensures part { view result ≡ part_of numbers (view seat.old) }
{
    let part = pool.words.split(&mut seat.seat, numbers);
    PoolSeat {
        seat: part,
        world: PhantomData,
    }
}

/// Joins another seat to this one, in one step: its numbers come back, and it is spent.
///
/// The other has no pin, no claim and no grant. The seat doesn't know the words from then on.
pub fn join<W: World>(pool: &Pool<W>, seat: &mut PoolSeat<W>, other: PoolSeat<W>)
    requires seat { IsSeatOf pool.now seat.old }
    requires other { IsSeatOf pool.now other }
    requires nothing { HasNothing (view other) }
    ensures seat { IsSameSeat pool.now seat.old seat.new }
    ensures view { view seat.new ≡ joined (view seat.old) (view other) }
{
    let PoolSeat {
        seat: spent,
        world: _,
    } = other;
    pool.words.join(&mut seat.seat, spent);
}
