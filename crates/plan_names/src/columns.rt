//! The columns that a line has named so far.

ghost use Rattle.std.specs.Prelude.{◌≡◌, ◌<◌, [], true, length, position, nat_lt, IfSome};
ghost use Rattle.std.specs.Str.{bytes_eq};
ghost use Rattle.plan_words.specs.Names.{is_name, all_names};
ghost use Rattle.plan_words.specs.Pieces.{pieces_of};
ghost use Rattle.plan_words.specs.Steps.{GivesOr};
ghost use Rattle.plan_names.specs.Columns.{placed, column, all_placed, column_list};

use outside::Name;
use plan_words::{Pieces, PlanKind, Stop, name_of, read_name, read_name_list};
use std::alloc::Global;
use std::marker::Model;

/// The most distinct columns of a fragment.
const MOST_COLUMNS: usize = 16;

/// The most names of a list.
const MOST_NAMES: usize = 64;

/// The distinct columns of a line, in the order in which the line first names them: at most 16.
///
/// Contracts see it as the list of their names.
#[derive(Drop)]
pub struct Columns {
    names: Vec<Name>,
}

impl Model for Columns {
    ghost use Rattle.std.specs.Prelude.{List, ℕ, length, ◌≤◌};

    ghost Value = { List (List ℕ) };

    ghost view = { λ c. c.names.items };

    ghost invariant = { λ c. length c.names.items ≤ 16 };
}

impl Columns {
    /// No column.
    pub fn new(alloc: Global) -> Columns
        ensures { result ≡ [] }
    {
        Columns {
            names: Vec::new(alloc),
        }
    }

    /// The names of the columns, in that order.
    pub fn into_vec(self) -> Vec<Name>
        ensures { result.items ≡ self }
    {
        self.names
    }

    /// The place of a column.
    fn find(&self, wanted: &[u8]) -> Option<u32>
        ensures { result ≡ position (bytes_eq wanted.now) self.now }
    {
        let place = find_column(self.names.as_slice(), wanted)?;
        Some(place as u32)
    }

    /// The column's place, with the columns that are named then. Refuses the 17th as too many.
    fn place(self, alloc: Global, found: &[u8]) -> Result<(u32, Columns), Stop>
        requires { is_name found.now ≡ true }
        ensures { GivesOr (λ x. (x.0, x.1)) result (placed self found.now) }
    {
        if let Some(place) = self.find(found) {
            return Ok((place, self));
        }
        let mut names = self.names;
        let place = names.len();
        if place >= MOST_COLUMNS {
            return Err(Stop::Fault(PlanKind::TooMany));
        }
        let Ok(name) = name_of(alloc, found) else {
            return Err(Stop::NoMemory);
        };
        names.push(name)?;
        Ok((place as u32, Columns { names }))
    }
}

/// The place of a column among those that were named.
#[tactic(auto, using(crate::proofs::Positions::position_first, crate::proofs::Positions::position_later))]
fn find_column(columns: &[Name], wanted: &[u8]) -> Option<usize>
    ensures place { result ≡ position (bytes_eq wanted.now) columns.now }
    ensures within { IfSome result (λ n. n < length columns.now) }
{
    let (first, rest) = columns.split_first()?;
    if wanted == first.as_str().as_bytes() {
        return Some(0);
    }
    Some(1 + find_column(rest, wanted)?)
}

/// A column's place, with the columns that are named then, and what is left.
#[tactic(auto, unfolding(crate::specs::Columns::column))]
pub fn read_column(
    alloc: Global,
    columns: Columns,
    left: &[u8],
) -> Result<(u32, Columns, &[u8]), Stop>
    ensures { GivesOr (λ x. ((x.0, x.1), x.2.now)) result (column columns left.now) }
{
    let (found, rest) = read_name(left)?;
    let (place, columns) = columns.place(alloc, found)?;
    Ok((place, columns, rest))
}

/// The places of a list of columns, with the columns that are named then.
fn place_all(alloc: Global, list: &[u8]) -> Result<(Vec<u32>, Columns), Stop>
    requires { all_names (pieces_of 44 list.now) ≡ true }
    ensures { GivesOr (λ x. (x.0.items, x.1)) result (all_placed [] [] (pieces_of 44 list.now)) }
{
    let mut columns = Columns::new(alloc);
    let mut places = Vec::new(alloc);
    let mut pieces = Pieces::new(b',', list);
    while let Some(piece) = pieces.next() {
        let (place, named) = columns.place(alloc, piece)?;
        columns = named;
        places.push(place)?;
    }
    Ok((places, columns))
}

/// Whether a list has more than 64 names.
fn is_too_long(list: &[u8]) -> bool
    ensures { result ≡ nat_lt 64 (length (pieces_of 44 list.now)) }
{
    let mut count = 0;
    let mut pieces = Pieces::new(b',', list);
    while let Some(_) = pieces.next() {
        if count == MOST_NAMES {
            return true;
        }
        count += 1;
    }
    false
}

/// The places of the first columns of a line, with these columns, and what is left.
#[tactic(auto, unfolding(crate::specs::Columns::column_list))]
pub fn read_column_list(alloc: Global, left: &[u8]) -> Result<(Vec<u32>, Columns, &[u8]), Stop>
    ensures { GivesOr (λ x. ((x.0.items, x.1), x.2.now)) result (column_list left.now) }
{
    let (list, rest) = read_name_list(left)?;
    if is_too_long(list) {
        return Err(Stop::Fault(PlanKind::TooMany));
    }
    let (places, columns) = place_all(alloc, list)?;
    Ok((places, columns, rest))
}
