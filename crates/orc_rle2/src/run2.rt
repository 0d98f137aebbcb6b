//! One run of version 2, read from a feed.
ghost use Rattle.std.specs.Prelude.{◌≡◌, ◌-◌, ◌≤◌, ◌<◌, [], length, OnOk};
ghost use Rattle.std.specs.Int.{cast_signed, w64};
ghost use Rattle.outside.specs.Reading.{Reads, mapped, placed};
ghost use Rattle.orc_integers.specs.Given.{given_then_held, GivesSomeIfOk};
ghost use Rattle.orc_rle2.specs.Header.{run_body, repeat_body, count_of, IsBounded};
ghost use Rattle.orc_rle2.specs.IntRun2.{int_run2, delta_body, varied, packed};
ghost use Rattle.orc_rle2.specs.Widths.{IsWidth};

use crate::header::{Header, read_header};
use crate::packed::{number_in, take_packed};
use crate::patched::read_patched;
use crate::sums::add_steps;
use crate::widths::width_of;
use orc_integers::{Held, bits_of, write_copies, write_ramp};
use outside::{Feed, RunFault, take_exactly, take_varints};

/// Reads a run, straight into `out` where that has room for it, and else into `held`, of which it gives what
/// there is room for. Answers how many values were given.
pub fn give_run<F: Feed>(
    feed: &mut F,
    stream: u32,
    signed: bool,
    held: &mut Held,
    out: &mut [i64],
) -> Result<usize, RunFault>
    requires none { held.old ≡ [] }
    requires asked { 0 < length out.old }
    ensures reads { Reads F.rest F.fed F.fault_count stream (int_run2 signed) feed.old feed.new (given_then_held out.new held.new result) }
    ensures gives { GivesSomeIfOk (length out.old) held.new result }
{
    let header = read_header(feed, stream)?;
    let count = header.count();
    if count <= out.len() {
        let (into, _) = out.split_at_mut(count);
        read_body(feed, stream, signed, header, into)?;
        return Ok(count);
    }
    hold_body(feed, stream, signed, header, held)?;
    Ok(held.give(out))
}

/// Reads what follows the header of a run, and holds its values in the place of those that were held.
fn hold_body<F: Feed>(
    feed: &mut F,
    stream: u32,
    signed: bool,
    header: Header,
    held: &mut Held,
) -> Result<(), RunFault>
    requires bounded { IsBounded header }
    requires some { 0 < count_of header }
    requires most { count_of header ≤ 512 }
    ensures reads { Reads F.rest F.fed F.fault_count stream (run_body signed header) feed.old feed.new (placed held.new result) }
    ensures some { OnOk result (0 < length held.new) }
{
    let count = header.count();
    let (into, _) = held.values.split_at_mut(count);
    read_body(feed, stream, signed, header, into)?;
    held.from = 0;
    held.to = count;
    Ok(())
}

/// Reads what follows the header of a run into `into`, which has room for just its values.
fn read_body<F: Feed>(
    feed: &mut F,
    stream: u32,
    signed: bool,
    header: Header,
    into: &mut [i64],
) -> Result<(), RunFault>
    requires bounded { IsBounded header }
    requires room { length into.old ≡ count_of header }
    requires some { 0 < length into.old }
    requires most { length into.old ≤ 512 }
    ensures { Reads F.rest F.fed F.fault_count stream (run_body signed header) feed.old feed.new (placed into.new result) }
{
    match header {
        Header::Repeat { bytes, .. } => read_repeat(feed, stream, signed, bytes, into),
        Header::Direct { width, .. } => take_packed(feed, stream, width, signed, into),
        Header::Patched { width, .. } => read_patched(feed, stream, width, into),
        Header::Delta { code, .. } => read_delta(feed, stream, signed, code, into),
    }
}

fn read_repeat<F: Feed>(
    feed: &mut F,
    stream: u32,
    signed: bool,
    bytes: u32,
    into: &mut [i64],
) -> Result<(), RunFault>
    requires { bytes ≤ 8 }
    ensures { Reads F.rest F.fed F.fault_count stream (repeat_body signed bytes (length into.old)) feed.old feed.new
        (placed into.new result) }
{
    let mut buffer = [0; 8];
    let (number, _) = buffer.split_at_mut(bytes as usize);
    take_exactly(feed, stream, number)?;
    write_copies(bits_of(signed, number_in(number)), into);
    Ok(())
}

fn read_delta<F: Feed>(
    feed: &mut F,
    stream: u32,
    signed: bool,
    code: u32,
    into: &mut [i64],
) -> Result<(), RunFault>
    requires code { code < 32 }
    requires some { 0 < length into.old }
    requires most { length into.old ≤ 512 }
    ensures { Reads F.rest F.fed F.fault_count stream (delta_body signed code (length into.old)) feed.old feed.new
        (placed into.new result) }
{
    let mut numbers = [0; 2];
    take_varints(feed, stream, &mut numbers)?;
    let [start, step] = numbers;
    let base = bits_of(signed, start);
    let delta = bits_of(true, step);
    if code == 0 {
        write_ramp(base, delta, into);
        return Ok(());
    }
    read_varied(feed, stream, width_of(code), base, delta, into)
}

/// Reads the magnitudes behind the second value of a run of deltas.
fn read_varied<F: Feed>(
    feed: &mut F,
    stream: u32,
    width: u32,
    base: u64,
    delta: u64,
    into: &mut [i64],
) -> Result<(), RunFault>
    requires width { IsWidth width }
    requires some { 0 < length into.old }
    requires most { length into.old ≤ 512 }
    ensures { Reads F.rest F.fed F.fault_count stream
        (mapped (varied (cast_signed w64 base) (cast_signed w64 delta) (length into.old))
        (packed width (length into.old - 2))) feed.old feed.new (placed into.new result) }
{
    let (front, magnitudes) = into.split_at_mut(into.len().min(2));
    write_ramp(base, delta, front);
    take_packed(feed, stream, width, false, magnitudes)?;
    add_steps(base.wrapping_add(delta), delta, magnitudes);
    Ok(())
}
