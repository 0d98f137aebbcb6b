//! The writer.
ghost use Rattle.std.specs.Prelude.{◌≡◌, ◌≤◌, ◌<◌, length, All, ◌↔◌, IfOk, OnOk, OnErr, IsTrue};
ghost use Rattle.outside.specs.Cause.{Cause};
ghost use Rattle.orc_rows.specs.Rows.{Rows};
ghost use Rattle.table_columns.specs.Shapes.{RowFits, opaque};
ghost use Rattle.table_columns.specs.Tables.{AreChildren};
ghost use Rattle.orc_writer.specs.Given.{IsSpec, AreOfSpecs, count_written, placed_before, none_of, and_row};
ghost use Rattle.orc_writer.specs.Writing.{shapes, IsFresh, Holds, IsSame, IsMade, Pushes, Wrote, IsWrite};

use crate::column_spec::ColumnSpec;
use crate::ending::end_file;
use crate::fault::MakeFault;
use crate::making::{magic, table_columns};
use crate::placing::{count_written, insert_opaque};
use crate::stripes::{push_last, push_stripe};
use crate::waiting::{let_go, push_values};
use orc_tail::Stripe;
use orc_values::Value;
use outside::{Bytes, NoMemory, Sink};
use std::alloc::Global;
use std::marker::Model;
use table_columns::{OpaqueStream, TableColumn, takes};
use tail_writer::FileColumn;

/// A file that is written row by row.
///
/// Its columns are those whose rows are given, and others whose streams are given once. A stripe is written, in memory, as soon as
/// the next row comes behind its last, so what is kept as values are the rows of one stripe.
#[derive(Drop)]
pub struct Writer {
    alloc: Global,
    bytes: Vec<u8>,
    stripes: Vec<Stripe>,
    columns: Vec<TableColumn>,
    waiting: u32,
    stripe_rows: u32,
    pushed: u64,
}

impl Model for Writer {
    ghost use Rattle.orc_writer.specs.Writing.{Writing, IsWriter};

    ghost Value = { Writing };

    ghost view = { λ w. record {
      bytes = w.bytes.items;
      stripes = w.stripes.items;
      columns = w.columns.items;
      waiting = w.waiting;
      stripe_rows = w.stripe_rows;
      pushed = w.pushed;
    } };

    ghost invariant = { λ w. IsWriter (record {
      bytes = w.bytes.items;
      stripes = w.stripes.items;
      columns = w.columns.items;
      waiting = w.waiting;
      stripe_rows = w.stripe_rows;
      pushed = w.pushed;
    }) };
}

impl Writer {
    /// No rows yet of these columns, in stripes of so many rows.
    ///
    /// Each column's kind has its spelling. Answers `NoMemory` where memory was refused.
    pub fn new(
        alloc: Global,
        columns: Vec<ColumnSpec>,
        stripe_rows: u32,
    ) -> Result<Writer, NoMemory>
        requires specs { All IsSpec columns.items }
        requires some { 1 ≤ stripe_rows }
        ensures columns { IfOk result (λ w. AreOfSpecs columns.items (shapes w)) }
        ensures stripe_rows { IfOk result (λ w. w.stripe_rows ≡ stripe_rows) }
        ensures fresh { IfOk result IsFresh }
        ensures rows { IfOk result (λ w. Holds w (none_of columns.items)) }
    {
        let bytes = magic(alloc)?;
        let columns = table_columns(alloc, columns)?;
        Ok(Writer {
            alloc,
            bytes,
            stripes: Vec::new(alloc),
            columns,
            waiting: 0,
            stripe_rows,
            pushed: 0,
        })
    }

    /// How many columns are written.
    pub fn written_columns(&self) -> usize
        ensures { result ≡ count_written (shapes self.now) }
    {
        count_written(&self.columns)
    }

    /// Whether a row has a value for each column that is written, and for no other: null, or of the column's kind.
    pub fn takes(&self, row: &[Value]) -> bool
        ensures { IsTrue result ↔ RowFits (shapes self.now) row.now }
    {
        takes(&self.columns, row)
    }

    /// Adds a column that nobody reads: its name, its kind, the kinds of its children, which have none themselves, and the streams
    /// that every stripe has of them.
    ///
    /// It stands in front of the column of `new` at the place `before`, or last where there is none, and behind the columns that were
    /// pushed earlier for that place. No row was pushed yet. All its types have the encoding DIRECT. Answers `NoMemory` where memory
    /// was refused, and the writer is then as before.
    pub fn push_opaque(
        &mut self,
        before: u32,
        name: Bytes,
        kind: u64,
        children: Vec<u64>,
        streams: Vec<OpaqueStream>,
    ) -> Result<(), NoMemory>
        requires fresh { IsFresh self.old }
        requires place { before ≤ count_written (shapes self.old) }
        requires children { AreChildren (length children.items) streams.items }
        ensures columns { OnOk result (shapes self.new ≡ placed_before before
            (opaque (record { name = name; kind = kind; children = children }) streams.items) (shapes self.old)) }
        ensures stripe_rows { self.new.stripe_rows ≡ self.old.stripe_rows }
        ensures fresh { IsFresh self.new }
        ensures rows { OnOk result ((rows : Rows) → Holds self.old rows → Holds self.new rows) }
        ensures err { OnErr result (self.new ≡ self.old) }
    {
        let column = FileColumn {
            name,
            kind,
            children,
        };
        insert_opaque(&mut self.columns, before, column, streams)
    }

    /// Adds a row: for each column that is written a value, null or of the column's kind, of which a text is copied.
    ///
    /// Answers `NoMemory` where memory was refused, or 2^64 - 1 rows were pushed, and the writer then holds the rows of before. Where
    /// there were none, `push_opaque` may still be called.
    pub fn push_row(&mut self, row: &[Value]) -> Result<(), NoMemory>
        requires { RowFits (shapes self.old) row.now }
        ensures ok { OnOk result (Pushes self.old row.now self.new) }
        ensures err { OnErr result (IsSame self.old self.new) }
    {
        self.make_room()?;
        self.add_row(row)
    }

    /// Adds a row to those that wait, which are fewer than a stripe has.
    fn add_row(&mut self, row: &[Value]) -> Result<(), NoMemory>
        requires room { self.old.waiting < self.old.stripe_rows }
        requires row { RowFits (shapes self.old) row.now }
        ensures ok { OnOk result (Pushes self.old row.now self.new) }
        ensures err { OnErr result (self.new ≡ self.old) }
    {
        if self.pushed == u64::MAX {
            return Err(NoMemory);
        }
        push_values(self.alloc, &mut self.columns, row)?;
        self.waiting += 1;
        self.pushed += 1;
        Ok(())
    }

    /// Makes room for a row: where a stripe's rows wait, it is written.
    fn make_room(&mut self) -> Result<(), NoMemory>
        ensures ok { OnOk result (IsSame self.old self.new × (self.new.waiting < self.new.stripe_rows)) }
        ensures err { OnErr result (self.new ≡ self.old) }
    {
        if self.waiting < self.stripe_rows {
            return Ok(());
        }
        self.write_waiting()
    }

    /// Writes a stripe of the rows that wait, which are as many as a stripe has.
    fn write_waiting(&mut self) -> Result<(), NoMemory>
        requires { self.old.waiting ≡ self.old.stripe_rows }
        ensures ok { OnOk result (IsSame self.old self.new × (self.new.waiting < self.new.stripe_rows)) }
        ensures err { OnErr result (self.new ≡ self.old) }
    {
        let rows = self.waiting as u64;
        push_stripe(
            self.alloc,
            &mut self.bytes,
            &mut self.stripes,
            &self.columns,
            rows,
        )?;
        let_go(self.alloc, &mut self.columns);
        self.waiting = 0;
        Ok(())
    }

    /// Writes the file: its stripes, of which the last may have fewer rows, and its tail.
    ///
    /// `Write` comes only where the sink's faults rose, and a front of the file was written. After `NoMemory` nothing was written.
    ///
    /// Source: Apache ORC specification v1, "File Structure".
    pub fn finish<K: Sink>(self, out: &mut K) -> Result<(), MakeFault>
        ensures wrote { Wrote self (K.content out.old) (K.content out.new) result }
        ensures cause { Cause (K.fault_count out.old) (K.fault_count out.new) (IsWrite result) }
    {
        let Ok(file) = self.into_file() else {
            return Err(MakeFault::NoMemory);
        };
        match out.write(&file) {
            Ok(()) => Ok(()),
            Err(fault) => Err(MakeFault::Write(fault)),
        }
    }

    /// The file, whole.
    fn into_file(self) -> Result<Vec<u8>, NoMemory>
        ensures { IfOk result (λ file. IsMade self file.items) }
    {
        let Writer {
            alloc,
            bytes,
            stripes,
            columns,
            waiting,
            stripe_rows: _,
            pushed,
        } = self;
        let mut bytes = bytes;
        let mut stripes = stripes;
        push_last(alloc, &mut bytes, &mut stripes, &columns, waiting)?;
        end_file(alloc, bytes, &stripes, columns, pushed)
    }
}
