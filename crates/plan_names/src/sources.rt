//! Lists of fragments of earlier lines.

ghost use Rattle.std.specs.Prelude.{◌≡◌, ◌<◌, [], None, true, length, position, IfOk, OnOk};
ghost use Rattle.std.specs.Str.{bytes_eq};
ghost use Rattle.plan_words.specs.Names.{is_name};
ghost use Rattle.plan_words.specs.Pieces.{pieces_of};
ghost use Rattle.plan_words.specs.Steps.{Gives, GivesOr};
ghost use Rattle.plan_names.specs.Sources.{all_known, sources, after, new_name};

use crate::earlier::KnownNames;
use plan_words::{Pieces, PlanKind, Stop, read_name, read_name_list, read_option};
use std::alloc::Global;

/// The most names of a list.
const MOST_NAMES: usize = 64;

/// The most fragments of a plan.
const MOST_FRAGMENTS: usize = 1000;

/// The numbers of the fragments that a list names.
fn find_all(alloc: Global, earlier: &KnownNames<'_>, list: &[u8]) -> Result<Vec<u32>, Stop>
    ensures { GivesOr (λ v. v.items) result (all_known earlier.now [] (pieces_of 44 list.now)) }
{
    let mut found = Vec::new(alloc);
    let mut pieces = Pieces::new(b',', list);
    while let Some(piece) = pieces.next() {
        let Some(number) = earlier.find(piece) else {
            return Err(Stop::Fault(PlanKind::UnknownFragment));
        };
        found.push(number)?;
    }
    Ok(found)
}

/// The fragments that a list names, and what is left.
#[tactic(auto, unfolding(crate::specs::Sources::sources))]
pub fn read_sources<'a>(
    alloc: Global,
    earlier: &KnownNames<'_>,
    left: &'a [u8],
) -> Result<(Vec<u32>, &'a [u8]), Stop>
    ensures { GivesOr (λ x. (x.0.items, x.1.now)) result (sources earlier.now left.now) }
{
    let (list, rest) = read_name_list(left)?;
    let found = find_all(alloc, earlier, list)?;
    if found.len() > MOST_NAMES {
        return Err(Stop::Fault(PlanKind::TooMany));
    }
    Ok((found, rest))
}

/// The fragments behind which this one is to be done, and what is left.
#[tactic(auto, unfolding(crate::specs::Sources::after))]
pub fn read_after<'a>(
    alloc: Global,
    earlier: &KnownNames<'_>,
    left: &'a [u8],
) -> Result<(Vec<u32>, &'a [u8]), Stop>
    ensures { GivesOr (λ x. (x.0.items, x.1.now)) result (after earlier.now left.now) }
{
    let (some, rest) = read_option(b"after", left);
    if !some {
        return Ok((Vec::new(alloc), rest));
    }
    read_sources(alloc, earlier, rest)
}

/// A name that stands on no earlier line, and what is left.
#[tactic(auto, unfolding(crate::specs::Sources::new_name))]
pub fn read_new_name<'a>(
    earlier: &KnownNames<'_>,
    left: &'a [u8],
) -> Result<(&'a [u8], &'a [u8]), PlanKind>
    ensures read { Gives (λ x. (x.0.now, x.1.now)) result (new_name earlier.now left.now) }
    ensures rule { IfOk result (λ x. is_name x.0.now ≡ true) }
    ensures fresh { IfOk result (λ x. position (bytes_eq x.0.now) earlier.now ≡ None) }
    ensures room { OnOk result (length earlier.now < 1000) }
{
    let (found, rest) = read_name(left)?;
    if let Some(_) = earlier.find(found) {
        return Err(PlanKind::BadName);
    }
    if earlier.len() >= MOST_FRAGMENTS {
        return Err(PlanKind::TooMany);
    }
    Ok((found, rest))
}
