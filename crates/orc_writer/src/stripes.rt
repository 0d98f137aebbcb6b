//! A stripe more in a file's bytes.
ghost use Rattle.std.specs.Prelude.{◌≡◌, ◌≤◌, ◌^◌, All, OnOk, OnErr};
ghost use Rattle.table_writer.specs.Table.{IsColumnOf};
ghost use Rattle.orc_writer.specs.Stripes.{AddsStripe, AddsLast};

use orc_tail::Stripe;
use outside::NoMemory;
use std::alloc::Global;
use table_columns::TableColumn;
use table_writer::write_stripe;

/// Adds a stripe of the rows of these columns behind the bytes, and lists it.
///
/// Answers `NoMemory` where memory was refused, and bytes and list are then as before.
pub(crate) fn push_stripe(
    alloc: Global,
    bytes: &mut Vec<u8>,
    stripes: &mut Vec<Stripe>,
    columns: &[TableColumn],
    rows: u64,
) -> Result<(), NoMemory>
    requires counted { rows ≤ 2 ^ 32 }
    requires columns { All (IsColumnOf rows) columns.now }
    ensures ok { OnOk result (AddsStripe bytes.old.items bytes.new.items stripes.old.items stripes.new.items columns.now rows) }
    ensures bytes_stay { OnErr result (bytes.new.items ≡ bytes.old.items) }
    ensures stripes_stay { OnErr result (stripes.new.items ≡ stripes.old.items) }
{
    if stripes.reserve(1).is_err() {
        return Err(NoMemory);
    }
    let stripe = write_stripe(alloc, bytes, columns, rows)?;
    stripes.push_reserved(stripe);
    Ok(())
}

/// Adds a stripe of the rows that wait, if there are any.
pub(crate) fn push_last(
    alloc: Global,
    bytes: &mut Vec<u8>,
    stripes: &mut Vec<Stripe>,
    columns: &[TableColumn],
    waiting: u32,
) -> Result<(), NoMemory>
    requires { All (IsColumnOf waiting) columns.now }
    ensures { OnOk result (AddsLast bytes.old.items bytes.new.items stripes.old.items stripes.new.items columns.now waiting) }
{
    if waiting == 0 {
        return Ok(());
    }
    push_stripe(alloc, bytes, stripes, columns, waiting as u64)
}
