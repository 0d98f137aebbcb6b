//! A stripe of a table.
ghost use Rattle.std.specs.Prelude.{◌≡◌, ◌≤◌, ◌^◌, [], All, IfOk, OnErr};
ghost use Rattle.table_writer.specs.Table.{IsColumnOf, HasTable};
ghost use Rattle.table_writer.specs.Stands.{Stand};

use crate::columns::push_columns;
use crate::listing::list_streams;
use file_writer::push_stripe;
use orc_tail::{Encoding, Stripe};
use outside::NoMemory;
use std::alloc::Global;
use stripe_writer::laws::a_column_is_there;
use stripe_writer::{StreamBytes, join_streams};
use table_columns::TableColumn;

/// Adds a stripe of so many rows of a table, a struct of these columns, behind the file's bytes. Answers where it lies.
///
/// The root is type 0; each column's type is numbered behind those of the columns in front of it and of their children. The stripe
/// has no index. A refused call, for want of memory alone, leaves the file's bytes as they were.
///
/// Source: Apache ORC specification v1, "Stripes" and "Column Encodings".
pub fn write_stripe(
    alloc: Global,
    file: &mut Vec<u8>,
    columns: &[TableColumn],
    rows: u64,
) -> Result<Stripe, NoMemory>
    requires counted { rows ≤ 2 ^ 32 }
    requires columns { All (IsColumnOf rows) columns.now }
    ensures ok { IfOk result (λ stripe. HasTable file.old.items file.new.items stripe columns.now rows) }
    ensures err { OnErr result (file.new.items ≡ file.old.items) }
{
    let mut parts: Vec<StreamBytes> = Vec::new(alloc);
    let mut encodings = root_encoding(alloc)?;
    push_columns(alloc, &mut parts, &mut encodings, columns, rows)?;
    put_stripe(alloc, file, &parts, &encodings, columns, rows)
}

/// The encoding of the root alone: DIRECT.
fn root_encoding(alloc: Global) -> Result<Vec<Encoding>, NoMemory>
    ensures { IfOk result (λ encodings. Stand [] (record { parts = []; encodings = encodings.items })) }
{
    let mut encodings = Vec::new(alloc);
    match encodings.push(Encoding {
        kind: 0,
        dictionary_size: 0,
    }) {
        Ok(()) => Ok(encodings),
        Err(_) => Err(NoMemory),
    }
}

/// Adds these columns' streams, and the stripe's footer.
fn put_stripe(
    alloc: Global,
    file: &mut Vec<u8>,
    parts: &[StreamBytes],
    encodings: &[Encoding],
    columns: &[TableColumn],
    rows: u64,
) -> Result<Stripe, NoMemory>
    requires stand { Stand columns.now (record { parts = parts.now; encodings = encodings.now }) }
    requires columns { All (IsColumnOf rows) columns.now }
    ensures ok { IfOk result (λ stripe. HasTable file.old.items file.new.items stripe columns.now rows) }
    ensures err { OnErr result (file.new.items ≡ file.old.items) }
{
    a_column_is_there();
    let body = join_streams(alloc, parts)?;
    let streams = list_streams(alloc, parts)?;
    match push_stripe(alloc, file, body, &streams, encodings, rows) {
        Ok(stripe) => Ok(stripe),
        Err(_) => Err(NoMemory),
    }
}
