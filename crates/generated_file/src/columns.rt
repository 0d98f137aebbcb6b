//! The columns of a generated file.
ghost use Rattle.std.specs.Prelude.{◌≡◌, ◌++◌, ◌∷◌, [], IfOk, OnOk};
ghost use Rattle.generated_file.specs.Columns.{generated_columns, spec_of};

use orc_writer::{ColumnSpec, Spelling};
use outside::{Bytes, NoMemory};
use std::alloc::Global;

/// Kinds of columns. Source: Apache ORC specification v1, "Type Information".
const BOOLEAN: u64 = 0;

const INT: u64 = 3;

const LONG: u64 = 4;

const STRING: u64 = 7;

/// The columns, each with its kind and its spelling.
///
/// Answers `NoMemory` where memory was refused.
pub(crate) fn columns(alloc: Global) -> Result<Vec<ColumnSpec>, NoMemory>
    ensures { IfOk result (λ columns. columns.items ≡ generated_columns) }
{
    let mut columns = Vec::new(alloc);
    add(alloc, &mut columns, "id", LONG, Spelling::DirectV2)?;
    add(alloc, &mut columns, "even", BOOLEAN, Spelling::Direct)?;
    add(alloc, &mut columns, "city", STRING, Spelling::DictionaryV2)?;
    add(alloc, &mut columns, "note", STRING, Spelling::DirectV2)?;
    add(alloc, &mut columns, "qty", INT, Spelling::Direct)?;
    Ok(columns)
}

/// Adds a column.
fn add(
    alloc: Global,
    columns: &mut Vec<ColumnSpec>,
    name: &str,
    kind: u64,
    spelling: Spelling,
) -> Result<(), NoMemory>
    ensures { OnOk result (columns.new.items ≡ columns.old.items ++ spec_of name.now kind spelling ∷ []) }
{
    let name = match name.as_bytes().to_vec(alloc) {
        Ok(name) => Bytes::new(name),
        Err(_) => return Err(NoMemory),
    };
    match columns.push(ColumnSpec {
        name,
        kind,
        spelling,
    }) {
        Ok(()) => Ok(()),
        Err(_) => Err(NoMemory),
    }
}
