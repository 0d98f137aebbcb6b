//! A law of batches, as the contract of a function that does nothing.
ghost use Rattle.orc_batches.specs.Laws.{GiveTheColumns};

use orc_columns::laws::a_reader_gives_the_column;

/// The rows that were given of each column, batch by batch, are the column's first: so batches join to the whole columns.
pub fn batches_are_the_columns()
    ensures { GiveTheColumns }
{
    a_reader_gives_the_column();
}
