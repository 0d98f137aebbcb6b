//! The body of a patched run, read from a feed.
ghost use Rattle.std.specs.Prelude.{◌≡◌, ◌≤◌, ◌<◌, length};
ghost use Rattle.std.specs.Int.{cast_signed, w64};
ghost use Rattle.outside.specs.Reading.{Reads, placed};
ghost use Rattle.orc_rle2.specs.Integers.{seen};
ghost use Rattle.orc_rle2.specs.IntRun2.{base_bytes, patched_body, patched_after, patched_values, entry_width};
ghost use Rattle.orc_rle2.specs.Widths.{IsWidth};

use crate::packed::{number_in, take_packed};
use crate::patches::{Shape, patch};
use crate::sums::{add_base, sign_magnitude};
use crate::widths::{least_width, width_of};
use outside::{Feed, RunFault, take_exactly};

/// Reads what follows the length of a patched run into `into`, which has room for just its values.
pub fn read_patched<F: Feed>(
    feed: &mut F,
    stream: u32,
    width: u32,
    into: &mut [i64],
) -> Result<(), RunFault>
    requires width { IsWidth width }
    requires most { length into.old ≤ 512 }
    ensures { Reads F.rest F.fed F.fault_count stream (patched_body width (length into.old)) feed.old feed.new (placed into.new result) }
{
    let mut header = [0; 2];
    take_exactly(feed, stream, &mut header)?;
    let [third, fourth] = header;
    let shape = Shape {
        values: width,
        gaps: u32::from(fourth / 32 + 1),
        patches: width_of(u32::from(third % 32)),
    };
    let base_len = u32::from(third / 32 + 1);
    let patches = usize::from(fourth % 32);
    read_after(feed, stream, shape, base_len, patches, into)
}

/// Reads what follows the header, where the patches aren't too wide.
fn read_after<F: Feed>(
    feed: &mut F,
    stream: u32,
    shape: Shape,
    base_len: u32,
    patches: usize,
    into: &mut [i64],
) -> Result<(), RunFault>
    requires width { IsWidth shape.values }
    requires gaps { shape.gaps ≤ 8 }
    requires gap { 0 < shape.gaps }
    requires wide { shape.patches ≤ 64 }
    requires base { 0 < base_len }
    requires base_most { base_len ≤ 8 }
    requires few { patches < 32 }
    requires most { length into.old ≤ 512 }
    ensures { Reads F.rest F.fed F.fault_count stream (patched_after shape base_len patches (length into.old)) feed.old feed.new
        (placed into.new result) }
{
    if patches > 0 && shape.gaps + shape.patches > 64 {
        return Err(RunFault::PatchTooWide);
    }
    let base = read_base(feed, stream, base_len)?;
    read_values(feed, stream, shape, base, patches, into)
}

/// Reads a base, and gives its 64 bits.
fn read_base<F: Feed>(feed: &mut F, stream: u32, len: u32) -> Result<u64, RunFault>
    requires some { 0 < len }
    requires most { len ≤ 8 }
    ensures { Reads F.rest F.fed F.fault_count stream (base_bytes len) feed.old feed.new (seen result) }
{
    let mut buffer = [0; 8];
    let (bytes, _) = buffer.split_at_mut(len as usize);
    take_exactly(feed, stream, bytes)?;
    Ok(sign_magnitude(len, number_in(bytes)))
}

fn read_values<F: Feed>(
    feed: &mut F,
    stream: u32,
    shape: Shape,
    base: u64,
    patches: usize,
    into: &mut [i64],
) -> Result<(), RunFault>
    requires width { IsWidth shape.values }
    requires gaps { shape.gaps ≤ 8 }
    requires gap { 0 < shape.gaps }
    requires wide { 0 < patches → shape.patches < 64 }
    requires widest { shape.patches ≤ 64 }
    requires few { patches < 32 }
    requires most { length into.old ≤ 512 }
    ensures { Reads F.rest F.fed F.fault_count stream
        (patched_values shape (cast_signed w64 base) patches (length into.old)) feed.old feed.new
        (placed into.new result) }
{
    take_packed(feed, stream, shape.values, false, into)?;
    let mut buffer = [0; 32];
    let (entries, _) = buffer.split_at_mut(patches);
    take_packed(
        feed,
        stream,
        least_width(shape.gaps + shape.patches),
        false,
        entries,
    )?;
    patch(shape, entries, into)?;
    add_base(base, into);
    Ok(())
}
