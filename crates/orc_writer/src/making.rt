//! What a writer begins with.
ghost use Rattle.std.specs.Prelude.{◌≡◌, ◌∷◌, [], ◌↔◌, All, IfOk, OnOk, IsTrue};
ghost use Rattle.orc_writer.specs.Given.{IsSpec, number_of};
ghost use Rattle.orc_writer.specs.Making.{AreMade, AddsMade, IsMadeOf};

use crate::column_spec::{ColumnSpec, Spelling};
use column_writer::ColumnBuffer;
use orc_columns::spelling_of;
use outside::NoMemory;
use rle_writer::put;
use std::alloc::Global;
use table_columns::{Content, TableColumn};
use tail_writer::FileColumn;

/// The first bytes of a file.
///
/// Source: Apache ORC specification v1, "File Structure".
pub(crate) fn magic(alloc: Global) -> Result<Vec<u8>, NoMemory>
    ensures { IfOk result (λ bytes. bytes.items ≡ 0x4F ∷ 0x52 ∷ 0x43 ∷ []) }
{
    let mut bytes = Vec::new(alloc);
    put(&mut bytes, b"ORC")?;
    Ok(bytes)
}

/// The columns that were given, without rows.
pub(crate) fn table_columns(
    alloc: Global,
    specs: Vec<ColumnSpec>,
) -> Result<Vec<TableColumn>, NoMemory>
    requires { All IsSpec specs.items }
    ensures { IfOk result (λ columns. AreMade specs.items columns.items) }
{
    let mut columns = Vec::new(alloc);
    for spec in specs {
        push_column(alloc, &mut columns, spec)?;
    }
    Ok(columns)
}

/// Adds a column that was given.
fn push_column(
    alloc: Global,
    columns: &mut Vec<TableColumn>,
    spec: ColumnSpec,
) -> Result<(), NoMemory>
    requires { IsSpec spec }
    ensures { OnOk result (AddsMade columns.old.items columns.new.items spec) }
{
    if columns.reserve(1).is_err() {
        return Err(NoMemory);
    }
    columns.push_reserved(table_column(alloc, spec));
    Ok(())
}

/// A column that was given, without rows.
fn table_column(alloc: Global, spec: ColumnSpec) -> TableColumn
    requires { IsSpec spec }
    ensures { IsMadeOf spec result }
{
    let ColumnSpec {
        name,
        kind,
        spelling,
    } = spec;
    let Some(spelled) = spelling_of(kind, Some(encoding_of(spelling))) else {
        unreachable!()
    };
    TableColumn {
        column: FileColumn {
            name,
            kind,
            children: Vec::new(alloc),
        },
        content: Content::Written(ColumnBuffer::new(alloc, spelled)),
    }
}

impl ColumnSpec {
    /// Whether the column's kind has its spelling.
    pub fn is_possible(&self) -> bool
        ensures { IsTrue result ↔ IsSpec self.now }
    {
        spelling_of(self.kind, Some(encoding_of(self.spelling))).is_some()
    }
}

/// The number of an encoding.
fn encoding_of(spelling: Spelling) -> u64
    ensures { result ≡ number_of spelling }
{
    match spelling {
        Spelling::Direct => 0,
        Spelling::DirectV2 => 2,
        Spelling::DictionaryV2 => 3,
    }
}
