// The block that costs least to clear: of the blocks whose set bits are all movable, one with the fewest.
ghost use Rattle.std.specs.Prelude.{◌≡◌, nat_le, if◌then◌else◌, MatchOption};
ghost use Rattle.buddy_arena.specs.Window.{IsWindow};

use crate::blocks::{TOP_ORDER, mask};

/// A block that may be cleared, and how many set bits it has.
#[derive(Clone, Copy)]
struct Candidate {
    place: u32,
    taken: u32,
}

/// Which block of the order costs least to clear in an arena with this word: of the aligned blocks whose set
/// bits all stand in `movable`, the one with the fewest set bits, ties to the lowest place.
///
/// None exactly where there is none; so it is for each order above 6.
///
/// Source: this project's own.
pub fn window(word: u64, movable: u64, order: u32) -> Option<u32>
    ensures { IsWindow 64 word movable order result }
{
    if order > TOP_ORDER {
        return None;
    }
    let fixed = word & !movable;
    let mut best = None;
    for index in 0..64 >> order {
        let place = index << order;
        let bits = mask(place, order);
        if fixed & bits == 0 {
            let taken = (word & bits).count_ones();
            best = Some(cheaper(best, Candidate { place, taken }));
        }
    }
    match best {
        None => None,
        Some(candidate) => Some(candidate.place),
    }
}

/// The better of the best so far and one at a higher place: a tie goes to the lower place.
fn cheaper(best: Option<Candidate>, next: Candidate) -> Candidate
    ensures { MatchOption best (result ≡ next) (λ b. result ≡ (if nat_le b.taken next.taken then b else next)) }
{
    match best {
        None => next,
        Some(lower) => {
            if lower.taken <= next.taken {
                lower
            } else {
                next
            }
        }
    }
}
