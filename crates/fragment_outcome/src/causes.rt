//! The line of a failure, behind the fragment's name.
ghost use Rattle.std.specs.Prelude.{◌≡◌, ◌++◌, codes};
ghost use Rattle.std.specs.Fmt.{decimal};
ghost use Rattle.fragment_outcome.specs.Sent.{held_by, Wrote};
ghost use Rattle.fragment_outcome.specs.Words.{column_words};
ghost use Rattle.fragment_outcome.specs.Text.{cause_text, name_at as name_of};

use crate::failure::Failure;
use crate::fault_words::{run_words, stream_word, tail_words};
use crate::writer::Writer;
use fragment_plan::Plan;
use itoa::Buffer;
use orc_columns::ColumnFault;
use outside::Sink;

/// The name of a fragment, by its number; no text where the plan has no such fragment.
pub(crate) fn name_at(plan: &Plan, number: u32) -> &str
    ensures { result.now ≡ name_of plan.now number }
{
    match plan.fragments().get(number as usize) {
        Some(fragment) => fragment.name.as_str(),
        None => "",
    }
}

/// Writes a text and a number.
fn put_numbered<K: Sink>(writer: &mut Writer, out: &mut K, text: &str, number: u64)
    ensures { Wrote (held_by writer.old) (K.content out.old) (K.fault_count out.old)
        (held_by writer.new) (K.content out.new) (K.fault_count out.new) (text.now ++ decimal number) }
{
    let mut digits = Buffer::new();
    writer.put(out, text.as_bytes());
    writer.put(out, digits.format(number).as_bytes());
}

/// Writes two texts.
fn put_two<K: Sink>(writer: &mut Writer, out: &mut K, first: &str, second: &str)
    ensures { Wrote (held_by writer.old) (K.content out.old) (K.fault_count out.old)
        (held_by writer.new) (K.content out.new) (K.fault_count out.new) (first.now ++ second.now) }
{
    writer.put(out, first.as_bytes());
    writer.put(out, second.as_bytes());
}

/// Writes the words of a column's fault.
fn put_column_words<K: Sink>(writer: &mut Writer, out: &mut K, fault: ColumnFault)
    ensures { Wrote (held_by writer.old) (K.content out.old) (K.fault_count out.old)
        (held_by writer.new) (K.content out.new) (K.fault_count out.new) (column_words fault) }
{
    match fault {
        ColumnFault::BadEncoding => writer.put(out, b"encoding"),
        ColumnFault::Run(stream, fault) => {
            writer.put(out, stream_word(stream).as_bytes());
            put_two(writer, out, " ", run_words(fault));
        }
        ColumnFault::NegativeLength => writer.put(out, b"negative length"),
        ColumnFault::LengthsPastData => writer.put(out, b"lengths"),
        ColumnFault::IndexOutOfDictionary => writer.put(out, b"index"),
        ColumnFault::Read(_) => {}
        ColumnFault::NoMemory => {}
    }
}

/// Writes the cause of a failure.
pub(crate) fn put_cause<K: Sink>(writer: &mut Writer, out: &mut K, plan: &Plan, failure: &Failure)
    ensures { Wrote (held_by writer.old) (K.content out.old) (K.fault_count out.old)
        (held_by writer.new) (K.content out.new) (K.fault_count out.new) (cause_text plan.now failure.now) }
{
    match failure {
        Failure::NoFile => writer.put(out, b"no file"),
        Failure::Compressed(kind) => put_numbered(writer, out, "compressed ", *kind),
        Failure::BrokenTail(fault) => put_two(writer, out, "broken tail ", tail_words(*fault)),
        Failure::BrokenFooter { stripe, fault } => {
            put_numbered(writer, out, "broken stripe ", u64::from(*stripe));
            put_two(writer, out, " footer ", tail_words(*fault));
        }
        Failure::BrokenColumn {
            stripe,
            column,
            fault,
        } => {
            put_numbered(writer, out, "broken stripe ", u64::from(*stripe));
            put_numbered(writer, out, " column ", u64::from(*column));
            writer.put(out, b" ");
            put_column_words(writer, out, *fault);
        }
        Failure::NoColumn(name) => {
            writer.put(out, b"no column ");
            writer.put(out, name.as_slice());
        }
        Failure::WrongKind(name) => {
            writer.put(out, b"wrong kind ");
            writer.put(out, name.as_slice());
        }
        Failure::Overflow => writer.put(out, b"overflow"),
        Failure::SourceFailed(source) => put_two(writer, out, "source ", name_at(plan, *source)),
        Failure::ReadFault => writer.put(out, b"read fault"),
    }
}
