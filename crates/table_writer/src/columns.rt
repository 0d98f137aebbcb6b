//! The streams of a table's columns, and their encodings.
ghost use Rattle.std.specs.Prelude.{◌≡◌, ◌≤◌, ◌^◌, ◌++◌, ◌∷◌, [], All, length, OnOk};
ghost use Rattle.table_writer.specs.Table.{IsColumnOf, HasOwnStreams};
ghost use Rattle.table_columns.specs.Tables.{HasCount};
ghost use Rattle.table_writer.specs.Stands.{AddsColumn, AddsWritten, Stand};

use crate::opaque::push_opaque;
use column_writer::ColumnBuffer;
use orc_tail::Encoding;
use outside::NoMemory;
use std::alloc::Global;
use stripe_writer::laws::streams_are_added;
use stripe_writer::{StreamBytes, push_buffer};
use table_columns::{Content, TableColumn, encoding_number};

/// Adds the columns of a table, the first of which has the number 1.
///
/// Answers `NoMemory` where memory was refused.
pub(crate) fn push_columns(
    alloc: Global,
    parts: &mut Vec<StreamBytes>,
    encodings: &mut Vec<Encoding>,
    columns: &[TableColumn],
    rows: u64,
) -> Result<(), NoMemory>
    requires begun { Stand [] (record { parts = parts.old.items; encodings = encodings.old.items }) }
    requires counted { rows ≤ 2 ^ 32 }
    requires columns { All (IsColumnOf rows) columns.now }
    ensures { OnOk result (Stand columns.now (record { parts = parts.new.items; encodings = encodings.new.items })) }
{
    streams_are_added();
    for i in 0..columns.len() {
        push_column(alloc, parts, encodings, &columns[i], rows)?;
    }
    Ok(())
}

/// Adds a column. Its type's number is that of the encodings so far.
fn push_column(
    alloc: Global,
    parts: &mut Vec<StreamBytes>,
    encodings: &mut Vec<Encoding>,
    column: &TableColumn,
    rows: u64,
) -> Result<(), NoMemory>
    requires counted { rows ≤ 2 ^ 32 }
    requires has_count { HasCount rows column.now.content }
    requires own { HasOwnStreams column.now.column column.now.content }
    ensures { OnOk result (AddsColumn (record { parts = parts.old.items; encodings = encodings.old.items })
        (record { parts = parts.new.items; encodings = encodings.new.items }) column.now.column column.now.content) }
{
    match &column.content {
        Content::Written(buffer) => push_written(alloc, parts, encodings, buffer),
        Content::Opaque(streams) => {
            push_opaque(
                alloc,
                parts,
                encodings,
                column.column.children.len(),
                streams,
            )
        }
    }
}

/// Adds a column that is written.
fn push_written(
    alloc: Global,
    parts: &mut Vec<StreamBytes>,
    encodings: &mut Vec<Encoding>,
    buffer: &ColumnBuffer,
) -> Result<(), NoMemory>
    requires { length buffer.now.rows ≤ 2 ^ 32 }
    ensures { OnOk result (AddsWritten (record { parts = parts.old.items; encodings = encodings.old.items })
        (record { parts = parts.new.items; encodings = encodings.new.items }) buffer.now) }
{
    let number = encodings.len() as u64;
    let dictionary_size = push_buffer(alloc, parts, number, buffer)?;
    push_encoding(
        encodings,
        encoding_number(buffer.spelling()),
        dictionary_size,
    )
}

/// Adds an encoding.
pub(crate) fn push_encoding(
    encodings: &mut Vec<Encoding>,
    kind: u64,
    dictionary_size: u64,
) -> Result<(), NoMemory>
    ensures { OnOk result (encodings.new.items ≡ encodings.old.items ++ record { kind = kind; dictionary_size = dictionary_size } ∷ []) }
{
    match encodings.push(Encoding {
        kind,
        dictionary_size,
    }) {
        Ok(()) => Ok(()),
        Err(_) => Err(NoMemory),
    }
}
