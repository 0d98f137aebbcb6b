//! One run of version 1, read from a feed.
ghost use Rattle.std.specs.Prelude.{◌≡◌, ◌≤◌, ◌<◌, [], length, OnOk};
ghost use Rattle.outside.specs.Reading.{Reads, placed};
ghost use Rattle.orc_integers.specs.Given.{given_then_held, GivesSomeIfOk};
ghost use Rattle.orc_rle.specs.IntRun1.{int_run1, literal_run, repeated_run, run_after, run_len};

use crate::signed_byte::widened;
use orc_integers::{Held, bits_of, write_integers, write_ramp};
use outside::{Feed, RunFault, take_byte, take_varint, take_varints};

/// Reads a run, straight into `out` where that has room for it, and else into `held`, of which it gives what
/// there is room for. Answers how many values were given.
pub fn give_run<F: Feed>(
    feed: &mut F,
    stream: u32,
    signed: bool,
    held: &mut Held,
    out: &mut [i64],
) -> Result<usize, RunFault>
    requires none { held.old ≡ [] }
    requires asked { 0 < length out.old }
    ensures reads { Reads F.rest F.fed F.fault_count stream (int_run1 signed) feed.old feed.new (given_then_held out.new held.new result) }
    ensures gives { GivesSomeIfOk (length out.old) held.new result }
{
    let control = take_byte(feed, stream)?;
    let count = run_len(control);
    if count <= out.len() {
        let (into, _) = out.split_at_mut(count);
        read_body(feed, stream, signed, control, into)?;
        return Ok(count);
    }
    hold_body(feed, stream, signed, control, held)?;
    Ok(held.give(out))
}

/// Reads what follows the control of a run, and holds its values in the place of those that were held.
fn hold_body<F: Feed>(
    feed: &mut F,
    stream: u32,
    signed: bool,
    control: u8,
    held: &mut Held,
) -> Result<(), RunFault>
    ensures reads { Reads F.rest F.fed F.fault_count stream (run_after signed control) feed.old feed.new (placed held.new result) }
    ensures some { OnOk result (0 < length held.new) }
{
    let count = run_len(control);
    let (into, _) = held.values.split_at_mut(count);
    read_body(feed, stream, signed, control, into)?;
    held.from = 0;
    held.to = count;
    Ok(())
}

/// How many values a run has, by its control.
pub fn run_len(control: u8) -> usize
    ensures value { result ≡ run_len control }
    ensures some { 0 < result }
    ensures most { result ≤ 130 }
{
    let control = usize::from(control);
    if control < 128 {
        control + 3
    } else {
        256 - control
    }
}

/// Reads what follows the control of a run into `into`, which has room for just its values.
fn read_body<F: Feed>(
    feed: &mut F,
    stream: u32,
    signed: bool,
    control: u8,
    into: &mut [i64],
) -> Result<(), RunFault>
    requires { length into.old ≡ run_len control }
    ensures { Reads F.rest F.fed F.fault_count stream (run_after signed control) feed.old feed.new (placed into.new result) }
{
    if control < 128 {
        read_repeated(feed, stream, signed, into)
    } else {
        read_literals(feed, stream, signed, into)
    }
}

fn read_repeated<F: Feed>(
    feed: &mut F,
    stream: u32,
    signed: bool,
    into: &mut [i64],
) -> Result<(), RunFault>
    ensures { Reads F.rest F.fed F.fault_count stream (repeated_run signed (length into.old)) feed.old feed.new (placed into.new result) }
{
    let delta = take_byte(feed, stream)?;
    let base = take_varint(feed, stream)?;
    write_ramp(bits_of(signed, base), widened(delta), into);
    Ok(())
}

fn read_literals<F: Feed>(
    feed: &mut F,
    stream: u32,
    signed: bool,
    into: &mut [i64],
) -> Result<(), RunFault>
    requires { length into.old ≤ 128 }
    ensures { Reads F.rest F.fed F.fault_count stream (literal_run signed (length into.old)) feed.old feed.new (placed into.new result) }
{
    let mut buffer = [0; 128];
    let (numbers, _) = buffer.split_at_mut(into.len());
    take_varints(feed, stream, numbers)?;
    write_integers(signed, numbers, into);
    Ok(())
}
