//! The lines of an answer, behind the fragment's name.
ghost use Rattle.std.specs.Prelude.{◌≡◌};
ghost use Rattle.orc_values.specs.declared.value.Value.TheVariants as value;
ghost use Rattle.std.specs.Fmt.{decimal};
ghost use Rattle.group_counts.specs.Entries.{one, renamed, by_bytes};
ghost use Rattle.fragment_outcome.specs.declared.answer.Answer.TheVariants.{Sum};
ghost use Rattle.fragment_outcome.specs.Sent.{held_by, Wrote};
ghost use Rattle.fragment_outcome.specs.Text.{ended, rows_text, groups_text, answer_text};

use crate::answer::Answer;
use crate::groups::Groups;
use crate::row::Row;
use crate::value_text::{put_number, put_row, put_text, put_value};
use crate::writer::Writer;
use itoa::Buffer;
use orc_values::Value;
use outside::Sink;
use std::collections::BTreeMap;

/// Writes a number, and ends the line.
fn put_count<K: Sink>(writer: &mut Writer, out: &mut K, count: u128)
    ensures { Wrote (held_by writer.old) (K.content out.old) (K.fault_count out.old)
        (held_by writer.new) (K.content out.new) (K.fault_count out.new) (ended (decimal count)) }
{
    let mut digits = Buffer::new();
    writer.put(out, digits.format(count).as_bytes());
    writer.put(out, b"\n");
}

/// Writes a line for each row.
fn put_rows<K: Sink>(writer: &mut Writer, out: &mut K, rows: &[Row])
    ensures { Wrote (held_by writer.old) (K.content out.old) (K.fault_count out.old)
        (held_by writer.new) (K.content out.new) (K.fault_count out.new) (rows_text rows.now) }
{
    for row in rows {
        put_row(writer, out, row);
        writer.put(out, b"\n");
    }
}

/// Writes the line of a value, where it has a count.
fn put_one<K: Sink>(writer: &mut Writer, out: &mut K, value: &Value, count: Option<u64>)
    ensures { Wrote (held_by writer.old) (K.content out.old) (K.fault_count out.old)
        (held_by writer.new) (K.content out.new) (K.fault_count out.new) (groups_text (one value.now count)) }
{
    match count {
        Some(count) => {
            put_value(writer, out, value);
            writer.put(out, b"\t");
            put_count(writer, out, u128::from(count));
        }
        None => {}
    }
}

/// Writes a line for each number.
fn put_numbers<K: Sink>(writer: &mut Writer, out: &mut K, counts: &BTreeMap<i64, u64>)
    ensures { Wrote (held_by writer.old) (K.content out.old) (K.fault_count out.old)
        (held_by writer.new) (K.content out.new) (K.fault_count out.new) (groups_text (renamed (λ n. value.Int n) counts.now.entries)) }
{
    for (number, count) in counts {
        put_number(writer, out, number);
        writer.put(out, b"\t");
        put_count(writer, out, u128::from(*count));
    }
}

/// Writes a line for each text.
fn put_texts<K: Sink>(writer: &mut Writer, out: &mut K, counts: &BTreeMap<Vec<u8>, u64>)
    ensures { Wrote (held_by writer.old) (K.content out.old) (K.fault_count out.old)
        (held_by writer.new) (K.content out.new) (K.fault_count out.new)
        (groups_text (renamed (λ t. value.Text t) (by_bytes counts.now.entries))) }
{
    for (text, count) in counts {
        put_text(writer, out, text.as_slice());
        writer.put(out, b"\t");
        put_count(writer, out, u128::from(*count));
    }
}

/// Writes a line for each key.
fn put_groups<K: Sink>(writer: &mut Writer, out: &mut K, groups: &Groups)
    ensures { Wrote (held_by writer.old) (K.content out.old) (K.fault_count out.old)
        (held_by writer.new) (K.content out.new) (K.fault_count out.new) (groups_text groups.now) }
{
    let parts = groups.counts().parts();
    put_one(writer, out, &Value::Null, parts.nulls);
    put_one(writer, out, &Value::Bool(false), parts.falses);
    put_one(writer, out, &Value::Bool(true), parts.trues);
    put_numbers(writer, out, parts.numbers);
    put_texts(writer, out, parts.texts);
}

/// Writes a sum, behind the fragment's name.
fn put_sum<K: Sink>(writer: &mut Writer, out: &mut K, total: &Option<i64>)
    ensures { Wrote (held_by writer.old) (K.content out.old) (K.fault_count out.old)
        (held_by writer.new) (K.content out.new) (K.fault_count out.new) (answer_text (Sum total.now)) }
{
    match total {
        None => writer.put(out, b" sum null\n"),
        Some(total) => {
            writer.put(out, b" sum ");
            put_number(writer, out, total);
            writer.put(out, b"\n");
        }
    }
}

/// Writes an answer, behind the fragment's name.
pub(crate) fn put_answer<K: Sink>(writer: &mut Writer, out: &mut K, answer: &Answer)
    ensures { Wrote (held_by writer.old) (K.content out.old) (K.fault_count out.old)
        (held_by writer.new) (K.content out.new) (K.fault_count out.new) (answer_text answer.now) }
{
    match answer {
        Answer::Rows(table) => {
            writer.put(out, b" rows ");
            put_count(writer, out, table.as_slice().len() as u128);
            put_rows(writer, out, table.as_slice());
        }
        Answer::Count(number) => {
            writer.put(out, b" count ");
            put_number(writer, out, number);
            writer.put(out, b"\n");
        }
        Answer::Sum(total) => put_sum(writer, out, total),
        Answer::Group(groups) => {
            writer.put(out, b" group ");
            put_count(writer, out, groups.counts().len());
            put_groups(writer, out, groups);
        }
    }
}
