//! The rows of a column of a stripe, before it is written.
ghost use Rattle.std.specs.Prelude.{◌≡◌, ◌<◌, ◌≤◌, ◌^◌, ◌++◌, ◌∷◌, [], length, OnOk, OnErr, IfOk, not};
ghost use Rattle.orc_values.specs.declared.value.Value.{Value};
ghost use Rattle.orc_values.specs.Column.{is_present};
ghost use Rattle.column_writer.specs.Buffered.{MayStand, HasRows, and_row};

use crate::encoded::Encoded;
use crate::encoding::encode;
use crate::kept::Kept;
use orc_columns::Spelling;
use orc_values::Value;
use outside::NoMemory;
use std::alloc::Global;
use std::marker::Model;

/// The rows of one column that aren't written yet: which have a value, and these values side by side.
///
/// Contracts see it as the list of its rows, and how they are to be spelled.
#[derive(Drop)]
pub struct ColumnBuffer {
    flags: Vec<bool>,
    kept: Kept,
}

impl Model for ColumnBuffer {
    ghost use Rattle.std.specs.Prelude.{◌≡◌, length};
    ghost use Rattle.orc_columns.specs.Column.{rows_of};
    ghost use Rattle.orc_values.specs.Woven.{present_count};
    ghost use Rattle.column_writer.specs.Encoded.{spelling_in, values_in};
    ghost use Rattle.column_writer.specs.Buffered.{Buffered};

    ghost Value = { Buffered };

    ghost view = { λ b. record { spelling = spelling_in b.kept; rows = rows_of b.flags.items (values_in b.kept) } };

    ghost invariant = { λ b. length (values_in b.kept) ≡ present_count b.flags.items };
}

impl ColumnBuffer {
    /// No rows, to be spelled so, and no memory.
    pub fn new(alloc: Global, spelling: Spelling) -> ColumnBuffer
        ensures { result ≡ record { spelling = spelling; rows = [] } }
    {
        ColumnBuffer {
            flags: Vec::new(alloc),
            kept: Kept::none(alloc, spelling),
        }
    }

    /// Adds a row: null, or a value of the spelling's kind, of which a text is copied.
    ///
    /// Answers `NoMemory` where memory was refused, and the rows are then as before.
    pub fn push(&mut self, row: &Value) -> Result<(), NoMemory>
        requires { MayStand self.old.spelling row.now }
        ensures ok { OnOk result (self.new ≡ and_row self.old row.now) }
        ensures err { OnErr result (self.new ≡ self.old) }
    {
        if self.flags.reserve(1).is_err() {
            return Err(NoMemory);
        }
        if is_null(row) {
            self.flags.push_reserved(false);
            return Ok(());
        }
        self.kept.push(row)?;
        self.flags.push_reserved(true);
        Ok(())
    }

    /// Lets the last row go.
    pub fn pop(&mut self, alloc: Global)
        requires { 0 < length self.old.rows }
        ensures { (last : Value) × (self.old ≡ and_row self.new last) }
    {
        if pop_flag(&mut self.flags) {
            self.kept.pop(alloc);
        }
    }

    /// How its rows are to be spelled.
    pub fn spelling(&self) -> Spelling
        ensures { result ≡ self.now.spelling }
    {
        self.kept.spelling()
    }

    /// Lets all rows go.
    pub fn clear(&mut self, alloc: Global)
        ensures { self.new ≡ record { spelling = self.old.spelling; rows = [] } }
    {
        self.flags.clear();
        self.kept.clear(alloc);
    }

    /// The streams of these rows: by any plan of this spelling they have just these rows.
    ///
    /// A dictionary has its entries in the order of their first use. Answers `NoMemory` where memory was refused.
    pub fn encode(&self, alloc: Global) -> Result<Encoded, NoMemory>
        requires { length self.now.rows ≤ 2 ^ 32 }
        ensures { IfOk result (λ e. HasRows self.now e) }
    {
        encode(alloc, &self.flags, &self.kept)
    }
}

/// Whether a value is null.
fn is_null(value: &Value) -> bool
    ensures { is_present value.now ≡ not result }
{
    matches!(value, Value::Null)
}

/// Takes the last flag.
fn pop_flag(flags: &mut Vec<bool>) -> bool
    requires { 0 < length flags.old.items }
    ensures { flags.old.items ≡ flags.new.items ++ result ∷ [] }
{
    match flags.pop() {
        Some(flag) => flag,
        None => unreachable!(),
    }
}
