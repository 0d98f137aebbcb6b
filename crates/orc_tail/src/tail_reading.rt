//! Reads a file's tail.

ghost use Rattle.std.specs.Prelude.{◌≡◌, ◌<◌, ◌≤◌, ◌+◌, IfOk, OnOk, All, length};
ghost use Rattle.outside.specs.Files.{IsFile};
ghost use Rattle.outside.specs.Followed.{Followed};
ghost use Rattle.orc_tail.specs.Reads.{ending, span_plan, footer_plan, tail_plan};
ghost use Rattle.orc_tail.specs.Tail.{stripe_end};

use crate::fault::TailFault;
use crate::footer::tail_of;
use crate::postscript::{LAST_BYTES, Span, footer_span};
use crate::reads::read_range;
use crate::tail::Tail;
use outside::{FileRef, RangeReader, World};
use std::alloc::Global;

/// The most bytes of a file that is read.
const GREATEST_LEN: u64 = 4_294_967_295;

/// Reads the last bytes of a file, and finds its footer by them.
fn read_span<W: World, B: RangeReader<W>>(
    alloc: Global,
    reader: &mut B,
    file: FileRef,
) -> Result<Span, TailFault>
    requires number { file.number < 4096 }
    requires len { file.len ≤ 4294967295 }
    requires is_file { IsFile W.files file }
    ensures followed { Followed B.went B.fault_count W.files file ending (span_plan file) reader.old reader.new result }
    ensures in_file { IfOk result (λ span. span.at + span.len ≤ file.len) }
{
    let count = file.len.min(LAST_BYTES);
    let last = read_range(alloc, reader, file, file.len - count, count)?;
    footer_span(file.len, last.as_slice())
}

/// Reads a file's footer, and judges it.
fn read_footer<W: World, B: RangeReader<W>>(
    alloc: Global,
    reader: &mut B,
    file: FileRef,
    span: Span,
) -> Result<Tail, TailFault>
    requires in_range { span.at + span.len ≤ file.len }
    requires number { file.number < 4096 }
    requires len { file.len ≤ 4294967295 }
    requires is_file { IsFile W.files file }
    ensures followed { Followed B.went B.fault_count W.files file ending (footer_plan file span) reader.old reader.new result }
    ensures few { IfOk result (λ tail. length tail.stripes ≤ 1000000) }
    ensures in_file { IfOk result (λ tail. All (λ stripe. stripe_end stripe ≤ file.len) tail.stripes) }
{
    let footer = read_range(alloc, reader, file, span.at, span.len)?;
    tail_of(alloc, file.len, footer.as_slice())
}

/// Reads the tail of a file: its stripes and its top-level columns.
///
/// Lengths and offsets are in bytes, counted from the file's first byte. It reads the last 256 bytes, or the
/// whole file where that is shorter, and then the footer, each in one read.
///
/// Refuses by the first of nine conditions: `TooLarge` above 4,294,967,295 bytes, `TooShort`, `NotOrc`,
/// `Compressed`, `OutOfFile` for the footer, `Wire`, `BadTypes`, `TooLarge` above 1,000,000 stripes, and
/// `OutOfFile` for a stripe. `Read` comes only where the reader failed in this call, and `NoMemory` where
/// memory was refused.
///
/// Source: Apache ORC specification v1, "File Tail".
pub fn read_tail<W: World, B: RangeReader<W>>(
    alloc: Global,
    reader: &mut B,
    file: FileRef,
) -> Result<Tail, TailFault>
    requires number { file.number < 4096 }
    requires is_file { IsFile W.files file }
    ensures followed { Followed B.went B.fault_count W.files file ending (tail_plan file) reader.old reader.new result }
    ensures len { OnOk result (file.len ≤ 4294967295) }
    ensures few { IfOk result (λ tail. length tail.stripes ≤ 1000000) }
    ensures in_file { IfOk result (λ tail. All (λ stripe. stripe_end stripe ≤ file.len) tail.stripes) }
{
    if file.len > GREATEST_LEN {
        return Err(TailFault::TooLarge);
    }
    if file.len == 0 {
        return Err(TailFault::TooShort);
    }
    let span = read_span(alloc, reader, file)?;
    read_footer(alloc, reader, file, span)
}
