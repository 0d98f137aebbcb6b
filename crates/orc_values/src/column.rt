//! A batch of a column.

ghost use Rattle.std.specs.Prelude.{◌≡◌, ◌==◌, ◌<◌, [], length, take, slice_get, FitsSigned};
ghost use Rattle.std.specs.Int.{w64};
ghost use Rattle.orc_values.specs.Shown.{shown};
ghost use Rattle.orc_values.specs.Column.{column_of, entries_in, present_of};
ghost use Rattle.orc_values.specs.Woven.{present_count};

use crate::column_values::ColumnValues;
use crate::rows::count_present;
use crate::value::ValueRef;
use std::alloc::Global;
use std::marker::Model;

/// The values of some rows of one column.
///
/// Those that aren't null stand in one typed list, one behind the other, beside flags that say which rows have one. Contracts see
/// it as the list of the rows' values.
#[derive(Drop)]
pub struct Column {
    present: Vec<bool>,
    values: ColumnValues,
}

impl Model for Column {
    ghost use Rattle.std.specs.Prelude.{◌≡◌};
    ghost use Rattle.orc_values.specs.Column.{RowValues, column_of, entries_in};
    ghost use Rattle.orc_values.specs.Woven.{present_count};

    ghost Value = { RowValues };

    ghost view = { λ column. column_of column.present.items column.values };

    ghost invariant = { λ column. entries_in column.values ≡ present_count column.present.items };
}

impl Column {
    /// No rows, and no memory.
    pub fn empty(alloc: Global) -> Column
        ensures { result ≡ [] }
    {
        Column {
            present: Vec::new(alloc),
            values: ColumnValues::Ints(Vec::new(alloc)),
        }
    }

    /// The rows of a flag each, of which those have a value whose flag is set: the next of a typed list.
    ///
    /// The list has one value for each flag that is set. It keeps both: no memory is taken.
    pub fn new(present: Vec<bool>, values: ColumnValues) -> Column
        requires { entries_in values ≡ present_count present.items }
        ensures { result ≡ column_of present.items values }
    {
        Column { present, values }
    }

    /// How many rows there are.
    pub fn len(&self) -> usize
        ensures { result ≡ length self.now }
    {
        self.present.len()
    }

    /// Whether there is none.
    pub fn is_empty(&self) -> bool
        ensures { result ≡ (length self.now == 0) }
    {
        self.present.is_empty()
    }

    /// How many rows have a value. No row is looked at.
    pub fn count(&self) -> usize
        ensures { result ≡ present_count (present_of self.now) }
    {
        self.values.len()
    }

    /// The value of a row, borrowed.
    ///
    /// Where a row is null it counts the flags in front of this one: whoever looks at row after row counts them, and takes `get_behind`.
    pub fn get(&self, row: usize) -> ValueRef<'_>
        requires { row < length self.now }
        ensures { slice_get self.now row ≡ Some (shown result) }
    {
        self.get_behind(row, place_of(&self.present, self.values.len(), row))
    }

    /// The value of a row, borrowed, where so many of the rows in front of it have one.
    pub fn get_behind(&self, row: usize, before: usize) -> ValueRef<'_>
        requires row { row < length self.now }
        requires before { before ≡ present_count (take row (present_of self.now)) }
        ensures { slice_get self.now row ≡ Some (shown result) }
    {
        if !self.present[row] {
            return ValueRef::Null;
        }
        match &self.values {
            ColumnValues::Bools(values) => ValueRef::Bool(values[before]),
            ColumnValues::Ints(values) => ValueRef::Int(number_at(values, before)),
            ColumnValues::Texts(values) => ValueRef::Text(values.get(before)),
            ColumnValues::Chosen(values) => ValueRef::Text(values.get(before)),
        }
    }

    /// Which rows have a value, lent.
    pub fn present(&self) -> &[bool]
        ensures { result.now ≡ present_of self.now }
    {
        self.present.as_slice()
    }

    /// The values that aren't null, one behind the other in the order of their rows, lent.
    ///
    /// Whoever sums, counts or groups needs no more of a column, and meets no null.
    pub fn values(&self) -> &ColumnValues
        ensures count { entries_in result.now ≡ present_count (present_of self.now) }
        ensures values { column_of (present_of self.now) result.now ≡ self.now }
    {
        &self.values
    }

    /// Gives the flags and the typed list back that it was made from.
    pub fn into_parts(self) -> (Vec<bool>, ColumnValues)
        ensures present { result.0.items ≡ present_of self }
        ensures count { entries_in result.1 ≡ present_count (present_of self) }
        ensures values { column_of (present_of self) result.1 ≡ self }
    {
        let Column { present, values } = self;
        (present, values)
    }
}

/// Where the value of a row stands among those that aren't null: behind those of the rows in front.
fn place_of(present: &[bool], count: usize, row: usize) -> usize
    requires row { row < length present.now }
    requires count { count ≡ present_count present.now }
    ensures { result ≡ present_count (take row present.now) }
{
    if count == present.len() {
        return row;
    }
    let (before, _) = present.split_at(row);
    count_present(before)
}

/// The number at a place.
fn number_at(values: &[i64], place: usize) -> i64
    requires { place < length values.now }
    ensures value { slice_get values.now place ≡ Some result }
    ensures fits { FitsSigned w64 result }
{
    values[place]
}
