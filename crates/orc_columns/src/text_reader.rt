//! Texts that are spelled one by one.
ghost use Rattle.std.specs.Prelude.{◌≡◌, ◌∷◌, ◌≤◌, OnOk, IfOk, IfErr};
ghost use Rattle.orc_values.specs.Column.{entries_in};
ghost use Rattle.orc_columns.specs.declared.plan.ColumnPlan.{ColumnPlan};
ghost use Rattle.orc_columns.specs.declared.value_reader.ValueReader.TheVariants as reader;
ghost use Rattle.orc_columns.specs.Batches.{HoldsNoRead, IsTyped, ReadsPlan, ValuesGoOn, ValuesBreak};
ghost use Rattle.orc_columns.specs.Draws.{StreamsDiffer, Draws};
ghost use Rattle.orc_columns.specs.Midway.{spelling_in};
ghost use Rattle.orc_columns.specs.Turns.{alone};

use crate::fault::ColumnFault;
use crate::integers::Integers;
use crate::lengths::next_lengths;
use crate::text_bytes::read_bytes;
use orc_values::{ColumnValues, Texts};
use outside::Feed;
use row_flags::BATCH;
use row_texts::laid_texts;
use std::alloc::Global;

/// Texts, each spelled by its length in LENGTH and its bytes in DATA.
#[derive(Drop)]
pub(crate) struct TextReader {
    /// The lengths.
    pub(crate) lengths: Integers,
    /// The stream DATA.
    pub(crate) data: Option<u32>,
    /// How many bytes of DATA are left.
    pub(crate) left: u64,
    /// Memory for the lengths of a batch, kept from batch to batch.
    pub(crate) memory: Vec<i64>,
}

/// The next texts, in the memory of an older batch.
pub(crate) fn next_texts<F: Feed>(
    texts: &mut TextReader,
    alloc: Global,
    feed: &mut F,
    count: usize,
    older: ColumnValues,
) -> Result<ColumnValues, ColumnFault>
    requires few { count ≤ 1024 }
    ensures spelling { spelling_in (reader.Texts texts.new) ≡ spelling_in (reader.Texts texts.old) }
    ensures count { IfOk result (λ typed. entries_in typed ≡ count) }
    ensures typed { IfOk result (IsTyped (spelling_in (reader.Texts texts.old))) }
    ensures ready { (plan : ColumnPlan) → ReadsPlan plan (reader.Texts texts.old) → OnOk result (ReadsPlan plan (reader.Texts texts.new)) }
    ensures no_read { IfErr result HoldsNoRead }
    ensures draws { (plan : ColumnPlan) → StreamsDiffer plan → ReadsPlan plan (reader.Texts texts.old) →
        Draws F.rest F.fed F.fault_count plan (plan.length ∷ alone plan.body) feed.old feed.new
        (ValuesGoOn plan.dictionary_size (reader.Texts texts.old) (reader.Texts texts.new))
        (ValuesBreak plan.dictionary_size count (reader.Texts texts.old)) result }
{
    let (mut bytes, mut ends) = text_memory(alloc, older);
    ends.resize(count, 0)?;
    texts.memory.resize(BATCH, 0)?;
    let total = next_lengths(
        &mut texts.lengths,
        feed,
        &mut texts.memory,
        count,
        texts.left,
    )?;
    read_bytes(feed, texts.data, &mut bytes, total)?;
    texts.left -= total;
    let (lengths, _) = texts.memory.split_at(count);
    Ok(ColumnValues::Texts(laid_texts(lengths, bytes, ends)))
}

/// The memory of an older batch of texts, if it is one: for their bytes and for their ends.
pub(crate) fn text_memory(alloc: Global, older: ColumnValues) -> (Vec<u8>, Vec<usize>) {
    match older {
        ColumnValues::Texts(texts) => texts.into_parts(),
        _ => (Vec::new(alloc), Vec::new(alloc)),
    }
}
