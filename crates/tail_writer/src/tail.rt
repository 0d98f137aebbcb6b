//! A file's tail.

ghost use Rattle.std.specs.Prelude.{IfOk};
ghost use Rattle.tail_writer.specs.Columns.{top_columns_from};
ghost use Rattle.tail_writer.specs.Tails.{IsTail, Tells};

use crate::column_types::column_types;
use crate::file_column::FileColumn;
use footer_writer::{push_postscript, write_footer};
use orc_tail::Stripe;
use std::alloc::{AllocError, Global};

/// The last bytes of a file with these stripes, these columns, each list in order, and this number of rows: its footer, its
/// PostScript and the byte with the PostScript's length.
///
/// Type 0 is a STRUCT of the columns; the types of a column's children follow the column's. Nothing is compressed, and there is no
/// metadata.
///
/// Refuses for want of memory alone.
///
/// Source: Apache ORC specification v1, "File Tail".
pub fn write_tail(
    alloc: Global,
    stripes: &[Stripe],
    columns: &[FileColumn],
    rows: u64,
) -> Result<Vec<u8>, AllocError>
    ensures tail { IfOk result (λ bytes. IsTail bytes.items stripes.now (top_columns_from 1 columns.now)) }
    ensures told { IfOk result (λ bytes. Tells bytes.items stripes.now columns.now rows) }
{
    let types = column_types(alloc, columns)?;
    let footer = write_footer(alloc, stripes, &types, rows)?;
    let tail = push_postscript(alloc, footer)?;
    Ok(tail)
}
