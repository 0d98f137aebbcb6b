//! A consumer that keeps what it takes as numbers.
ghost use Rattle.std.specs.Prelude.{◌≡◌};
ghost use Rattle.orc_rows.specs.Given.{kinds_in};

use orc_batches::Consumer;
use orc_columns::Column;
use orc_streams::ReadColumn;
use orc_values::ValueRef;
use outside::NoMemory;

/// The number that stands for null.
pub const NULL: i64 = -1_000_000;

/// The columns that are taken, and the values, batch by batch and column by column: a number as it is, a text by its first byte.
/// A stripe's count is a number, too.
#[derive(Drop)]
pub struct KeptRows<'a> {
    pub columns: &'a [ReadColumn],
    pub numbers: Vec<i64>,
}

fn number_of(value: ValueRef<'_>) -> i64 {
    match value {
        ValueRef::Null => NULL,
        ValueRef::Bool(value) => i64::from(value),
        ValueRef::Int(number) => number,
        ValueRef::Text(bytes) => match bytes.first() {
            Some(byte) => i64::from(*byte),
            None => 0,
        },
    }
}

/// Puts the values of a column behind those numbers.
fn keep(numbers: &mut Vec<i64>, column: &Column) -> Option<()> {
    for row in 0..column.len() {
        numbers.push(number_of(column.get(row))).ok()?;
    }
    Some(())
}

/// Puts the values of all columns behind those numbers.
fn keep_all(numbers: &mut Vec<i64>, columns: &[Column]) -> Option<()> {
    for column in columns {
        keep(numbers, column)?;
    }
    Some(())
}

impl<'a> Consumer for KeptRows<'a> {
    ghost use Rattle.std.specs.Prelude.{◌≡◌, refl};
    ghost use Rattle.std.proofs.Common.{◌∙◌, ap};
    ghost use Rattle.orc_rows.specs.Given.{kinds_in};

    ghost kinds = { λ c. kinds_in c.columns.now };

    ghost ate = { λ first _ last. last.columns.now ≡ first.columns.now };

    fn batch(&mut self, _rows: u32, columns: &mut [Column]) -> Result<(), NoMemory> {
        match keep_all(&mut self.numbers, columns) {
            Some(()) => Ok(()),
            None => Err(NoMemory),
        }
    }

    fn count(&mut self, rows: u64) -> Result<(), NoMemory> {
        let kept = i64::try_from(rows).unwrap_or(i64::MAX);
        self.numbers.push(kept).map_err(|_| NoMemory)?;
        Ok(())
    }

    ghost ate_nothing = { λ _. refl };

    ghost ate_on = { λ first between last front back p q. q ∙ p };

    ghost ate_kinds = { λ first last pieces p. ap (λ columns. kinds_in columns) p };
}
