//! The text of a value.
ghost use Rattle.std.specs.Prelude.{◌≡◌, ◌≤◌, ◌<◌, [], ◌∷◌, ◌++◌, length, take};
ghost use Rattle.fragment_outcome.specs.Sent.{held_by, Wrote};
ghost use Rattle.std.specs.Fmt.{signed_decimal};
ghost use Rattle.fragment_outcome.specs.Text.{hex_digit as digit_of, stands as stands_as_is, escaped_byte};
ghost use Rattle.fragment_outcome.specs.Text.{escaped, value_text, tabbed, row_text};

use crate::row::Row;
use crate::writer::Writer;
use itoa::Buffer;
use orc_values::Value;
use outside::Sink;

/// A lower-case hexadecimal digit.
fn hex_digit(digit: u8) -> u8
    requires { digit < 16 }
    ensures { result ≡ digit_of digit }
{
    if digit < 10 {
        b'0' + digit
    } else {
        b'a' - 10 + digit
    }
}

/// Whether a byte of a text stands as it is.
fn stands(byte: u8) -> bool
    ensures { result ≡ stands_as_is byte }
{
    byte >= 32 && byte != 127 && byte != b'"' && byte != b'\\'
}

/// How many bytes at the front of a text stand as they are.
fn count_standing(text: &[u8]) -> usize
    ensures within { result ≤ length text.now }
    ensures front { escaped (take result text.now) ≡ take result text.now }
{
    for (index, byte) in text.iter().enumerate() {
        if !stands(*byte) {
            return index;
        }
    }
    text.len()
}

/// Writes one byte of a text.
fn put_byte<K: Sink>(writer: &mut Writer, out: &mut K, byte: u8)
    ensures { Wrote (held_by writer.old) (K.content out.old) (K.fault_count out.old)
        (held_by writer.new) (K.content out.new) (K.fault_count out.new) (escaped_byte byte) }
{
    if byte == b'"' || byte == b'\\' {
        writer.put(out, &[b'\\', byte]);
    } else if stands(byte) {
        writer.put(out, &[byte]);
    } else {
        let high = hex_digit(byte / 16);
        let low = hex_digit(byte % 16);
        writer.put(out, &[b'\\', b'x', high, low]);
    }
}

/// Writes some bytes at the front of a text that isn't empty, and answers how many.
fn put_front<K: Sink>(writer: &mut Writer, out: &mut K, text: &[u8]) -> usize
    requires { 0 < length text.now }
    ensures some { 0 < result }
    ensures within { result ≤ length text.now }
    ensures wrote { Wrote (held_by writer.old) (K.content out.old) (K.fault_count out.old)
        (held_by writer.new) (K.content out.new) (K.fault_count out.new) (escaped (take result text.now)) }
{
    let standing = count_standing(text);
    if standing > 0 {
        writer.put(out, &text[..standing]);
        return standing;
    }
    put_byte(writer, out, text[0]);
    1
}

/// Writes the bytes of a text.
fn put_escaped<K: Sink>(writer: &mut Writer, out: &mut K, text: &[u8])
    ensures { Wrote (held_by writer.old) (K.content out.old) (K.fault_count out.old)
        (held_by writer.new) (K.content out.new) (K.fault_count out.new) (escaped text.now) }
{
    let mut done = 0;
    while done < text.len() {
        done += put_front(writer, out, &text[done..]);
    }
}

/// Writes a text in double quotes.
pub(crate) fn put_text<K: Sink>(writer: &mut Writer, out: &mut K, text: &[u8])
    ensures { Wrote (held_by writer.old) (K.content out.old) (K.fault_count out.old)
        (held_by writer.new) (K.content out.new) (K.fault_count out.new) (34 ∷ escaped text.now ++ 34 ∷ []) }
{
    writer.put(out, b"\"");
    put_escaped(writer, out, text);
    writer.put(out, b"\"");
}

/// Writes a number.
pub(crate) fn put_number<K: Sink>(writer: &mut Writer, out: &mut K, number: &i64)
    ensures { Wrote (held_by writer.old) (K.content out.old) (K.fault_count out.old)
        (held_by writer.new) (K.content out.new) (K.fault_count out.new) (signed_decimal number.now) }
{
    let number = *number;
    let mut digits = Buffer::new();
    writer.put(out, digits.format(number).as_bytes());
}

/// Writes a value.
pub(crate) fn put_value<K: Sink>(writer: &mut Writer, out: &mut K, value: &Value)
    ensures { Wrote (held_by writer.old) (K.content out.old) (K.fault_count out.old)
        (held_by writer.new) (K.content out.new) (K.fault_count out.new) (value_text value.now) }
{
    match value {
        Value::Null => writer.put(out, b"null"),
        Value::Bool(true) => writer.put(out, b"true"),
        Value::Bool(false) => writer.put(out, b"false"),
        Value::Int(number) => put_number(writer, out, number),
        Value::Text(text) => put_text(writer, out, text.as_slice()),
    }
}

/// Writes values, each behind a tab.
fn put_others<K: Sink>(writer: &mut Writer, out: &mut K, values: &[Value])
    ensures { Wrote (held_by writer.old) (K.content out.old) (K.fault_count out.old)
        (held_by writer.new) (K.content out.new) (K.fault_count out.new) (tabbed values.now) }
{
    for value in values {
        writer.put(out, b"\t");
        put_value(writer, out, value);
    }
}

/// Writes the values of a row, parted by tabs.
pub(crate) fn put_row<K: Sink>(writer: &mut Writer, out: &mut K, row: &Row)
    ensures { Wrote (held_by writer.old) (K.content out.old) (K.fault_count out.old)
        (held_by writer.new) (K.content out.new) (K.fault_count out.new) (row_text row.now) }
{
    match row.as_slice().split_first() {
        Some((first, others)) => {
            put_value(writer, out, first);
            put_others(writer, out, others);
        }
        None => {}
    }
}
