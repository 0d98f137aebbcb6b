//! A column of a stripe, batch by batch.
ghost use Rattle.std.specs.Prelude.{◌≡◌, ◌∷◌, ◌≤◌, [], length, Some, None, Err, All, OnOk, IfOk, IfErr};
ghost use Rattle.std.specs.Result.{result_err};
ghost use Rattle.outside.specs.Reading.{placed};
ghost use Rattle.orc_columns.specs.declared.fault.ColumnFault.{ColumnFault};
ghost use Rattle.orc_columns.specs.declared.plan.ColumnPlan.{ColumnPlan};
ghost use Rattle.orc_columns.specs.Batches.{HoldsNoRead, IsOfKind};
ghost use Rattle.orc_columns.specs.Draws.{StreamsDiffer, Draws};
ghost use Rattle.orc_columns.specs.Midway.{spelling_in};
ghost use Rattle.orc_columns.specs.Reader.{IsReady, whole_reader, RowsGoOn, RowsFail, Begins, FailsAtStart, HasLengths};
ghost use Rattle.orc_columns.specs.Spelling.{spelling_of};
ghost use Rattle.orc_columns.specs.Turns.{value_streams, batch_streams, start_streams};

use crate::fault::ColumnFault;
use crate::fills::fill_flags;
use crate::plan::ColumnPlan;
use crate::spelling::spelling_of;
use crate::value_reader::{ValueReader, start_values};
use orc_values::{Column, count_present};
use outside::Feed;
use row_flags::Present;
use std::alloc::Global;
use std::marker::Model;
use std::mem;

/// Reads a column of a stripe, batch by batch.
///
/// It is seen as its plan, its decoders, and the fault that it has answered, if any.
#[derive(Drop)]
pub struct ColumnReader {
    plan: ColumnPlan,
    present: Present,
    values: ValueReader,
    fault: Option<ColumnFault>,
}

impl Model for ColumnReader {
    ghost use Rattle.orc_columns.specs.Midway.{ReaderOf};
    ghost use Rattle.orc_columns.specs.Reader.{IsSound};

    ghost Value = { ReaderOf };

    ghost view = { λ r. record { plan = r.plan; present = r.present; values = r.values; fault = r.fault } };

    ghost invariant = { λ r. IsSound r.plan r.present r.values r.fault };
}

impl ColumnReader {
    /// A reader of a column from its first row.
    ///
    /// It reads a dictionary, where the column has one: all its lengths, and then the bytes of all its texts, and no more than
    /// these. For other spellings it takes nothing, and the feed stays as it is. The plan's streams have different numbers, and
    /// where the feed tells them `body_len` and `dictionary_len` are theirs.
    ///
    /// A fault is the first condition that refuses a column of no rows: the encoding, or one of the dictionary's lengths.
    /// `Read` comes only where the feed failed, and `NoMemory` where memory was refused.
    ///
    /// Source: Apache ORC specification v1, "Column Encodings".
    pub fn start<F: Feed>(
        alloc: Global,
        plan: ColumnPlan,
        feed: &mut F,
    ) -> Result<ColumnReader, ColumnFault>
        requires differ { StreamsDiffer plan }
        requires lens { HasLengths F.rest feed.old plan }
        ensures plan { IfOk result (λ reader. reader.plan ≡ plan) }
        ensures fresh { IfOk result (λ reader. reader.fault ≡ None) }
        ensures no_read { IfErr result HoldsNoRead }

        // Of LENGTH and then of DICTIONARY_DATA it takes what the dictionary's entries use, and without a dictionary nothing.
        ensures draws { Draws F.rest F.fed F.fault_count plan (start_streams plan) feed.old feed.new Begins (FailsAtStart plan) result }
        ensures idle { start_streams plan ≡ [] → feed.new ≡ feed.old }
    {
        let Some(spelling) = spelling_of(plan.kind, plan.encoding) else {
            return Err(ColumnFault::BadEncoding);
        };
        let values = start_values(alloc, plan, spelling, feed)?;
        Ok(ColumnReader {
            plan,
            present: Present::new(plan.present),
            values,
            fault: None,
        })
    }

    /// Gives the next rows, at most 1,024, in place of those of `out`.
    ///
    /// It takes from PRESENT, then from LENGTH where texts are spelled one by one, then from DATA, and from each no
    /// more than the runs that the rows need. A fault is the first condition that refuses as many rows as were asked for so
    /// far; `Read` comes only where the feed failed in this call, and `NoMemory` where memory was refused. After a fault each
    /// later call answers the same and takes nothing, and what `out` holds isn't promised.
    ///
    /// Source: Apache ORC specification v1, "Column Encodings".
    pub fn next_batch<F: Feed>(
        &mut self,
        alloc: Global,
        feed: &mut F,
        rows: u32,
        out: &mut Column,
    ) -> Result<(), ColumnFault>
        requires { rows ≤ 1024 }

        // It stays a reader of its column.
        ensures plan { self.new.plan ≡ self.old.plan }

        // A fault is kept, and answered again.
        ensures keeps { self.new.fault ≡ result_err result }
        ensures kept { (fault : ColumnFault) → self.old.fault ≡ Some fault → (result ≡ Err fault) × (feed.new ≡ feed.old) }

        // Each row is null or of the column's kind.
        ensures rows { OnOk result (length out.new ≡ rows) }
        ensures kinds { OnOk result (All (IsOfKind self.old.plan.kind) out.new) }
        ensures no_read { IfErr result HoldsNoRead }

        // Before a fault the rows are the next of the column, or the column has none so far.
        ensures draws { self.old.fault ≡ None →
            Draws F.rest F.fed F.fault_count self.old.plan (batch_streams self.old.plan) feed.old feed.new
            (RowsGoOn self.old self.new) (RowsFail self.old rows) (placed out.new result) }
    {
        if let Some(fault) = self.fault {
            return Err(fault);
        }
        let filled = fill_rows(&mut self.present, &mut self.values, alloc, feed, rows, out);
        self.fault = filled.err();
        filled
    }
}

/// Gives the next rows of a column that has answered no fault.
fn fill_rows<F: Feed>(
    present: &mut Present,
    values: &mut ValueReader,
    alloc: Global,
    feed: &mut F,
    rows: u32,
    out: &mut Column,
) -> Result<(), ColumnFault>
    requires { rows ≤ 1024 }
    ensures spelling { spelling_in values.new ≡ spelling_in values.old }
    ensures ready { (plan : ColumnPlan) → IsReady plan present.old values.old → OnOk result (IsReady plan present.new values.new) }
    ensures rows { OnOk result (length out.new ≡ rows) }
    ensures kinds { (plan : ColumnPlan) → spelling_of plan.kind plan.encoding ≡ Some (spelling_in values.old)
        → OnOk result (All (IsOfKind plan.kind) out.new) }
    ensures no_read { IfErr result HoldsNoRead }
    ensures draws { (plan : ColumnPlan) → StreamsDiffer plan → IsReady plan present.old values.old →
        Draws F.rest F.fed F.fault_count plan (plan.present ∷ value_streams plan (spelling_in values.old)) feed.old feed.new
        (RowsGoOn (whole_reader plan present.old values.old) (whole_reader plan present.new values.new))
        (RowsFail (whole_reader plan present.old values.old) rows) (placed out.new result) }
{
    let (mut flags, older) = mem::replace(out, Column::empty(alloc)).into_parts();
    flags.resize(rows as usize, false)?;
    fill_flags(present, feed, &mut flags)?;
    let count = count_present(&flags);
    let typed = values.fill(alloc, feed, count, older)?;
    *out = Column::new(flags, typed);
    Ok(())
}
