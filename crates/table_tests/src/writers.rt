//! Writers, their rows and their files.
ghost use Rattle.std.specs.Prelude.{◌≤◌, All, IfSome};
ghost use Rattle.orc_writer.specs.Given.{IsSpec};
ghost use Rattle.orc_writer.specs.Writing.{IsFresh};

use orc_columns::Value;
use orc_writer::{ColumnSpec, Spelling, Writer};
use outside::{Bytes, MemorySink};
use std::alloc::Global;

/// The name, the kind and the spelling of a column.
pub type Column = (&'static [u8], u64, Spelling);

/// A column, if its kind has that spelling.
fn spec_of(alloc: Global, column: Column) -> Option<ColumnSpec>
    ensures { IfSome result IsSpec }
{
    let spec = ColumnSpec {
        name: Bytes::new(Vec::from_slice(alloc, column.0).ok()?),
        kind: column.1,
        spelling: column.2,
    };
    if spec.is_possible() { Some(spec) } else { None }
}

fn specs_of(alloc: Global, columns: &[Column]) -> Option<Vec<ColumnSpec>>
    ensures { IfSome result (λ specs. All IsSpec specs.items) }
{
    let mut specs = Vec::new(alloc);
    for i in 0..columns.len() {
        let spec = spec_of(alloc, columns[i])?;
        specs.reserve(1).ok()?;
        specs.push_reserved(spec);
    }
    Some(specs)
}

/// A writer of these columns without rows.
pub fn writer_of(alloc: Global, columns: &[Column], stripe_rows: u32) -> Option<Writer>
    requires { 1 ≤ stripe_rows }
    ensures { IfSome result IsFresh }
{
    let specs = specs_of(alloc, columns)?;
    Writer::new(alloc, specs, stripe_rows).ok()
}

/// Adds a row, if it has a value for each column.
pub fn push(writer: &mut Writer, row: &[Value]) -> Option<()> {
    if !writer.takes(row) {
        return None;
    }
    writer.push_row(row).ok()
}

/// A sink with what the writer makes.
pub fn made(alloc: Global, writer: Writer) -> Option<MemorySink> {
    let mut sink = MemorySink::new(alloc, Vec::new(alloc), 4000).ok()?;
    writer.finish(&mut sink).ok()?;
    Some(sink)
}
