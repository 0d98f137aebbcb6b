// The ways of a set, tried in order.
ghost use Rattle.std.specs.Prelude.{◌≡◌, ◌+◌, ◌<◌, ◌≤◌, ℕ, List, length, slice_index};
ghost use Rattle.buffer_word.specs.declared.state_word.State.{State};
ghost use Rattle.buffer_word.specs.KeyWord.{IsKey};
ghost use Rattle.buffer_word.specs.StateWord.{IsPackable, state_word};
ghost use Rattle.pool_rule.specs.declared.view.Hold.TheVariants.{Free};
ghost use Rattle.pool_rule.specs.Layout.{headers_of};
ghost use Rattle.pool_rule.specs.Seats.{mark_at};
ghost use Rattle.buffer_pool.specs.Pools.{IsSameSeat, IsSeatOf, buffer_key, seat_id, sizes_of, view};
ghost use Rattle.cache_lookup.specs.Before.{HasNoPinOf};
ghost use Rattle.cache_lookup.specs.LookUps.{HoldsFound, LooksUp};
ghost use Rattle.cache_lookup.specs.Right.{HasMode};
ghost use Rattle.cache_lookup.specs.Sets.{IsWay, first_way};
ghost use Rattle.cache_lookup.specs.Tries.{HoldsTried, IfPassed, Looks, Pins, Tries};

use buffer_pool::{Key, NotPinned, Pin, Pool, PoolSeat, WordName, look, pin};
use buffer_word::{Mode, pack_key, unpack};
use outside::World;

/// What a way gave.
enum Tried {
    /// It has the key, and is pinned.
    Hit(Pin),
    /// It has the key, and can't be pinned: the state word that says so.
    Busy(u64),
    /// It hasn't the key: the state word that was seen.
    Passed(u64),
}

/// What a look-up found.
pub enum Found {
    /// A way has the key: its buffer is pinned.
    Hit(Pin),
    /// A way has the key, but its buffer can't be pinned. The state word with which a step on it came back.
    Busy(u64),
    /// No way has the key.
    Missing,
}

/// The mode in a state word.
fn mode_in(word: u64) -> Mode
    requires { (s : State) × IsPackable s × (word ≡ state_word s) }
    ensures { HasMode word result }
{
    match unpack(word) {
        Some(state) => state.mode,
        None => unreachable!(),
    }
}

/// Pins a way that was seen to have the key.
fn pin_way<W: World>(
    pool: &Pool<W>,
    seat: &mut PoolSeat<W>,
    key: Key,
    header: u32,
    seen: u64,
) -> Tried
    requires seat { IsSeatOf pool.now seat.old }
    requires key { IsKey key }
    requires header { header < headers_of (sizes_of pool.now) }
    requires free { (mark_at (view seat.old) header).hold ≡ Free }
    ensures seat { IsSameSeat pool.now seat.old seat.new }
    ensures token { HoldsTried pool.now seat.new key result }
    ensures made { Pins W.files (sizes_of pool.now) (seat_id seat.old) key header seen (view seat.old) (view seat.new) result }
{
    match pin(pool, seat, header, key) {
        Ok(pin) => Tried::Hit(pin),
        Err(NotPinned::Busy { word }) => Tried::Busy(word),
        // the header became another key's between the two looks
        Err(NotPinned::Other { key: _ }) => Tried::Passed(seen),
    }
}

/// Looks at a way, and pins it if it has the key and may be pinned.
fn try_way<W: World>(pool: &Pool<W>, seat: &mut PoolSeat<W>, key: Key, header: u32) -> Tried
    requires seat { IsSeatOf pool.now seat.old }
    requires key { IsKey key }
    requires header { header < headers_of (sizes_of pool.now) }
    requires way { IsWay (sizes_of pool.now) key header }
    requires no_pin { HasNoPinOf (buffer_key key) (view seat.old) }
    ensures seat { IsSameSeat pool.now seat.old seat.new }
    ensures token { HoldsTried pool.now seat.new key result }
    ensures no_pin { IfPassed result (HasNoPinOf (buffer_key key) (view seat.new)) }
    ensures made { Tries W.files (sizes_of pool.now) (seat_id seat.old) key header (view seat.old) (view seat.new) result }
{
    buffer_word::laws::word_tells_key();
    let seen = look(pool, seat, WordName::State(header));
    let shown = look(pool, seat, WordName::KeyOf(header));
    if shown != pack_key(key) {
        return Tried::Passed(seen);
    }
    match mode_in(seen) {
        Mode::New => Tried::Busy(seen),
        Mode::Evicted => Tried::Passed(seen),
        Mode::Released => Tried::Passed(seen),
        Mode::Live => pin_way(pool, seat, key, header, seen),
        // it may be live by now
        Mode::Moving => pin_way(pool, seat, key, header, seen),
    }
}

/// Tries the ways from one on, in order, until one has the key.
fn look_up_from<W: World>(
    pool: &Pool<W>,
    seat: &mut PoolSeat<W>,
    key: Key,
    first: u32,
    way: u32,
    states: &mut [u64],
) -> Found
    requires seat { IsSeatOf pool.now seat.old }
    requires key { IsKey key }
    requires first { first ≡ first_way (sizes_of pool.now) key }
    requires set { first + 8 ≤ headers_of (sizes_of pool.now) }
    requires way { way ≤ 8 }
    requires no_pin { HasNoPinOf (buffer_key key) (view seat.old) }
    requires states { length states.old ≡ 8 }
    ensures seat { IsSameSeat pool.now seat.old seat.new }
    ensures token { HoldsFound pool.now seat.new key result }
    ensures below { (i : ℕ) → i < way → slice_index states.new i ≡ slice_index states.old i }
    ensures made { Looks W.files (sizes_of pool.now) (seat_id seat.old) key first states.new way (view seat.old) (view seat.new) result }
{
    if way == 8 {
        return Found::Missing;
    }
    match try_way(pool, seat, key, first + way) {
        Tried::Hit(pin) => Found::Hit(pin),
        Tried::Busy(word) => Found::Busy(word),
        Tried::Passed(seen) => {
            states[way as usize] = seen;
            look_up_from(pool, seat, key, first, way + 1, states)
        }
    }
}

/// Looks a key up in the ways of its set, in order, and pins the first that has it and can be pinned.
///
/// Each way's state and key word are loaded once. A way that shows the key and is live or moves is pinned, which is a count, and a
/// second look at the key; `Busy` ends the look-up, and another key in the second look goes on to the next way. A new way that
/// shows the key is busy. Evicted and released ways are passed.
///
/// `first` is the first of the eight ways, and the seat has no pin of the key. `states` gets the states of the ways that were
/// passed: all eight after `Missing`. But for the pin of a `Hit` the seat has what it had.
pub fn look_up<W: World>(
    pool: &Pool<W>,
    seat: &mut PoolSeat<W>,
    key: Key,
    first: u32,
    states: &mut [u64],
) -> Found
    requires seat { IsSeatOf pool.now seat.old }
    requires key { IsKey key }
    requires first { first ≡ first_way (sizes_of pool.now) key }
    requires set { first + 8 ≤ headers_of (sizes_of pool.now) }
    requires no_pin { HasNoPinOf (buffer_key key) (view seat.old) }
    requires states { length states.old ≡ 8 }
    ensures seat { IsSameSeat pool.now seat.old seat.new }
    ensures token { HoldsFound pool.now seat.new key result }
    ensures looked { LooksUp W.files pool.now seat.old seat.new key states.new result }
{
    buffer_word::laws::word_tells_key();
    look_up_from(pool, seat, key, first, 0, states)
}
