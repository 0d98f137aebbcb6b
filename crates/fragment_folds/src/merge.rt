//! The merge of answers.
ghost use Rattle.std.specs.Prelude.{◌≡◌, ◌∷◌, [], ◌++◌, ◌+◌, ◌+ℤ◌, ◌^◌, ◌<◌, IfOk, OnOk, FitsSigned};
ghost use Rattle.std.specs.Int.{w128};
ghost use Rattle.batch_masks.specs.Totals.{with_numbers, SumOfFew};
ghost use Rattle.fragment_outcome.specs.declared.answer.Answer.TheVariants as answer;
ghost use Rattle.fragment_folds.specs.declared.joined.Joined.TheVariants as joined;
ghost use Rattle.fragment_folds.specs.Merging.{numbers_of, nothing_like as nothing_of, joined_with};
ghost use Rattle.fragment_folds.specs.Merging.{joined_sum, merged, merge_of, answer_of};

use crate::faults::MergeFault;
use crate::joined::Joined;
use batch_masks::Total;
use fragment_outcome::{Answer, Groups, Row, Table};
use group_counts::Counts;
use orc_values::Value;
use outside::NoMemory;
use std::alloc::Global;
use std::marker::Model;
use std::mem;

/// The merge of some answers of one form, in order.
///
/// Contracts see how many answers it was given, and what it has of them.
#[derive(Drop)]
pub struct Merge {
    answers: u64,
    joined: Joined,
}

impl Model for Merge {
    ghost use Rattle.batch_masks.specs.Totals.{SumOfFew};
    ghost use Rattle.fragment_folds.specs.Merging.{MergeOf, joined_sum};

    ghost Value = { MergeOf };

    ghost view = { λ m. record { answers = m.answers; joined = m.joined } };

    ghost invariant = { λ m. SumOfFew m.answers (joined_sum m.joined) };
}

/// What a merge has of no answer of this form.
fn nothing_like(alloc: Global, answer: &Answer) -> Joined
    ensures { result ≡ nothing_of answer.now }
{
    match answer {
        Answer::Rows(_) => Joined::Rows(Table::new(Vec::new(alloc))),
        Answer::Count(_) => Joined::Count(0),
        Answer::Sum(_) => Joined::Sum(Total {
            some: false,
            sum: 0,
        }),
        Answer::Group(_) => Joined::Group(Counts::new(alloc)),
    }
}

/// The same values, copied.
fn copied(alloc: Global, values: &[Value]) -> Result<Vec<Value>, NoMemory>
    ensures { IfOk result (λ copies. copies.items ≡ values.now) }
{
    let mut copies = Vec::new(alloc);
    for value in values {
        let copy = value.as_ref().to_value(alloc)?;
        if copies.push(copy).is_err() {
            return Err(NoMemory);
        }
    }
    Ok(copies)
}

/// A table with copies of these rows more.
fn with_copies(alloc: Global, table: Table, more: &[Row]) -> Result<Table, NoMemory>
    ensures { IfOk result (λ new. new ≡ table ++ more.now) }
{
    let mut rows = table.into_vec();
    for row in more {
        let copy = Row::new(copied(alloc, row.as_slice())?);
        if rows.push(copy).is_err() {
            return Err(NoMemory);
        }
    }
    Ok(Table::new(rows))
}

/// A total with a sum more, where it isn't null.
fn with_sum(total: Total, answers: u64, more: &Option<i64>) -> Total
    requires few { answers + 1 < 2 ^ 63 }
    requires bound { SumOfFew answers total.sum }
    ensures total { result ≡ with_numbers total (numbers_of more.now) }
    ensures bound { SumOfFew (answers + 1) result.sum }
{
    match more {
        Some(more) => with_number(total, answers, more),
        None => total,
    }
}

/// A total with a number more.
fn with_number(total: Total, answers: u64, more: &i64) -> Total
    requires few { answers + 1 < 2 ^ 63 }
    requires bound { SumOfFew answers total.sum }
    ensures total { result ≡ with_numbers total (more.now ∷ []) }
    ensures bound { SumOfFew (answers + 1) result.sum }
{
    let more = *more;
    Total {
        some: true,
        sum: sum_of(total.sum, answers, more),
    }
}

/// What a merge has with a table more.
fn rows_with(alloc: Global, joined: Joined, more: &Table) -> Result<Joined, NoMemory>
    ensures joined { IfOk result (λ new. new ≡ joined_with joined (answer.Rows more.now)) }
    ensures sum { IfOk result (λ new. joined_sum new ≡ joined_sum joined) }
{
    match joined {
        Joined::Rows(table) => match with_copies(alloc, table, more.as_slice()) {
            Ok(table) => Ok(Joined::Rows(table)),
            Err(_) => Err(NoMemory),
        },
        Joined::Count(count) => Ok(Joined::Count(count)),
        Joined::Sum(total) => Ok(Joined::Sum(total)),
        Joined::Group(counts) => Ok(Joined::Group(counts)),
    }
}

/// What a merge has with a count more.
fn count_with(joined: Joined, answers: u64, more: &i64) -> Joined
    requires few { answers + 1 < 2 ^ 63 }
    requires bound { SumOfFew answers (joined_sum joined) }
    ensures joined { result ≡ joined_with joined (answer.Count more.now) }
    ensures bound { SumOfFew (answers + 1) (joined_sum result) }
{
    let more = *more;
    match joined {
        Joined::Count(count) => Joined::Count(sum_of(count, answers, more)),
        Joined::Rows(table) => Joined::Rows(table),
        Joined::Sum(total) => Joined::Sum(total),
        Joined::Group(counts) => Joined::Group(counts),
    }
}

/// A sum with a number more.
fn sum_of(sum: i128, answers: u64, more: i64) -> i128
    requires few { answers + 1 < 2 ^ 63 }
    requires bound { SumOfFew answers sum }
    ensures sum { result ≡ sum +ℤ more }
    ensures bound { SumOfFew (answers + 1) result }
    ensures fits { FitsSigned w128 result }
{
    sum + i128::from(more)
}

/// What a merge has with a sum more.
fn sum_with(joined: Joined, answers: u64, more: &Option<i64>) -> Joined
    requires few { answers + 1 < 2 ^ 63 }
    requires bound { SumOfFew answers (joined_sum joined) }
    ensures joined { result ≡ joined_with joined (answer.Sum more.now) }
    ensures bound { SumOfFew (answers + 1) (joined_sum result) }
{
    match joined {
        Joined::Sum(total) => Joined::Sum(with_sum(total, answers, more)),
        Joined::Rows(table) => Joined::Rows(table),
        Joined::Count(count) => Joined::Count(count),
        Joined::Group(counts) => Joined::Group(counts),
    }
}

/// What a merge has with groups more.
fn group_with(alloc: Global, joined: Joined, more: &Groups) -> Result<Joined, NoMemory>
    ensures joined { IfOk result (λ new. new ≡ joined_with joined (answer.Group more.now)) }
    ensures sum { IfOk result (λ new. joined_sum new ≡ joined_sum joined) }
{
    match joined {
        Joined::Group(mut counts) => match counts.add_all(alloc, more.counts()) {
            Ok(()) => Ok(Joined::Group(counts)),
            Err(_) => Err(NoMemory),
        },
        Joined::Rows(table) => Ok(Joined::Rows(table)),
        Joined::Count(count) => Ok(Joined::Count(count)),
        Joined::Sum(total) => Ok(Joined::Sum(total)),
    }
}

/// What a merge has with one answer more.
fn join(alloc: Global, joined: Joined, answers: u64, next: &Answer) -> Result<Joined, NoMemory>
    requires few { answers + 1 < 2 ^ 63 }
    requires bound { SumOfFew answers (joined_sum joined) }
    ensures joined { IfOk result (λ new. new ≡ joined_with joined next.now) }
    ensures bound { IfOk result (λ new. SumOfFew (answers + 1) (joined_sum new)) }
{
    match next {
        Answer::Rows(more) => rows_with(alloc, joined, more),
        Answer::Count(more) => Ok(count_with(joined, answers, more)),
        Answer::Sum(more) => Ok(sum_with(joined, answers, more)),
        Answer::Group(more) => group_with(alloc, joined, more),
    }
}

impl Merge {
    /// The merge of one answer.
    ///
    /// Refuses only for want of memory.
    pub fn new(alloc: Global, first: &Answer) -> Result<Merge, NoMemory>
        ensures { IfOk result (λ merge. merge ≡ merge_of first.now) }
    {
        let mut merge = Merge {
            answers: 0,
            joined: nothing_like(alloc, first),
        };
        merge.add(alloc, first)?;
        Ok(merge)
    }

    /// How many answers it was given.
    pub fn answers(&self) -> u64
        ensures { result ≡ self.now.answers }
    {
        self.answers
    }

    /// One answer more, of the first one's form; one of another form changes only how many there are.
    ///
    /// It takes fewer than 2^63 answers. `NoMemory` comes only where memory was refused, and gives the merge up.
    pub fn add(&mut self, alloc: Global, next: &Answer) -> Result<(), NoMemory>
        requires { self.old.answers + 1 < 2 ^ 63 }
        ensures { OnOk result (self.new ≡ merged self.old next.now) }
    {
        let answers = self.answers;
        let joined = mem::replace(&mut self.joined, Joined::Count(0));
        let joined = join(alloc, joined, answers, next)?;
        self.joined = joined;
        self.answers = answers + 1;
        Ok(())
    }

    /// The answer, or that a total isn't in the 64 bits of `i64`: the whole one alone counts. It takes no memory, and never answers
    /// `NoMemory`.
    pub fn finish(self) -> Result<Answer, MergeFault>
        ensures { result ≡ answer_of self.joined }
    {
        let Merge { answers: _, joined } = self;
        match joined {
            Joined::Rows(table) => Ok(Answer::Rows(table)),
            Joined::Count(count) => count_answer(count),
            Joined::Sum(total) => sum_answer(total),
            Joined::Group(counts) => {
                if counts.all_fit() {
                    Ok(Answer::Group(Groups::new(counts)))
                } else {
                    Err(MergeFault::Overflow)
                }
            }
        }
    }
}

/// The answer of a sum of counts.
fn count_answer(count: i128) -> Result<Answer, MergeFault>
    ensures { result ≡ answer_of (joined.Count count) }
{
    match i64::try_from(count) {
        Ok(count) => Ok(Answer::Count(count)),
        Err(_) => Err(MergeFault::Overflow),
    }
}

/// The answer of a total.
fn sum_answer(total: Total) -> Result<Answer, MergeFault>
    ensures { result ≡ answer_of (joined.Sum total) }
{
    if !total.some {
        return Ok(Answer::Sum(None));
    }
    match i64::try_from(total.sum) {
        Ok(sum) => Ok(Answer::Sum(Some(sum))),
        Err(_) => Err(MergeFault::Overflow),
    }
}
