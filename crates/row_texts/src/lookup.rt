//! The numbers of a dictionary's entries.
ghost use Rattle.std.specs.Prelude.{◌≡◌, ◌+◌, ◌<◌, ◌≤◌, ◌^◌, ℕ, true, All, Contains, IsTrue, IsFalse};
ghost use Rattle.row_texts.specs.Lookup.{places_of};

use orc_values::entry_number;

/// Whether a number isn't below that of the entries.
///
/// `places` has the numbers of the entries, as the 64 bits that a stream spells them by.
pub fn is_any_past(places: &[i64], size: usize) -> bool
    ensures some { IsTrue result → (place : ℕ) × Contains (places_of places.now) place × (size ≤ place) }
    ensures none { IsFalse result → All (λ place. place < size) (places_of places.now) }
{
    if are_below(places, size as u64) {
        return false;
    }
    for place in places {
        if entry_number(*place) >= size {
            return true;
        }
    }
    false
}

/// Whether all numbers are seen to be below a size at once: none has the highest bit, nor has it with what the size lacks of 2^63.
///
/// The bits of both are kept apart, which saves a move for each number.
fn are_below(places: &[i64], size: u64) -> bool
    ensures { result ≡ true → All (λ place. place < size) (places_of places.now) }
{
    let Some(lack) = (1u64 << 63).checked_sub(size) else {
        return false;
    };
    let mut seen = 0;
    let mut moved = 0;
    for place in places {
        let number = place.cast_unsigned();
        seen |= number;
        moved |= number.wrapping_add(lack);
    }
    (seen | moved) < 1 << 63
}
