use crate::groups::Groups;
use crate::table::Table;

/// What a fragment makes of its rows.
#[derive(Drop)]
pub enum Answer {
    /// The listed columns of the rows, in order.
    Rows(Table),
    /// How many rows there are.
    Count(i64),
    /// The sum of the values that aren't null, or none where there is no such value.
    Sum(Option<i64>),
    /// How many rows have each value.
    Group(Groups),
}
