//! Pieces between separators: the lines of a plan, and the names of a list.

ghost use Rattle.std.specs.Prelude.{◌≡◌, ◌≤◌, ◌+◌, ◌∷◌, [], length};
ghost use Rattle.std.specs.Option.{option_map_or};
ghost use Rattle.plan_words.specs.Pieces.{pieces_of, PopsFirst};

use std::marker::Model;

/// The pieces of a list of bytes that are still to come, from left to right.
///
/// They stand between the separators, so there is one more than there are separators. Contracts see it as the
/// list of them.
#[derive(Drop)]
pub struct Pieces<'a> {
    separator: u8,
    rest: Option<&'a [u8]>,
}

impl<'a> Model for Pieces<'a> {
    ghost use Rattle.std.specs.Prelude.{List, ℕ, []};
    ghost use Rattle.std.specs.Option.{option_map_or};
    ghost use Rattle.plan_words.specs.Pieces.{pieces_of};

    ghost Value = { List (List ℕ) };

    ghost view = { λ p. option_map_or (λ r. pieces_of p.separator r.now) p.rest [] };
}

impl<'a> Pieces<'a> {
    /// All pieces of these bytes.
    pub fn new(separator: u8, bytes: &'a [u8]) -> Pieces<'a>
        ensures pieces { result ≡ pieces_of separator bytes.now }
        ensures few { length result ≤ length bytes.now + 1 }
    {
        Pieces {
            separator,
            rest: Some(bytes),
        }
    }

    /// Takes the next piece; None where none is left.
    pub fn next(&mut self) -> Option<&'a [u8]>
        ensures { PopsFirst (λ piece. piece.now) result self.old self.new }
    {
        let Some(bytes) = self.rest else {
            return None;
        };
        let (piece, rest) = split_piece(self.separator, bytes);
        self.rest = rest;
        Some(piece)
    }
}

/// The first piece, and what follows the separator that ends it.
fn split_piece(separator: u8, bytes: &[u8]) -> (&[u8], Option<&[u8]>)
    ensures { pieces_of separator bytes.now ≡ result.0.now ∷ option_map_or (λ r. pieces_of separator r.now) result.1 [] }
{
    let mut len = 0;
    let mut rest = bytes;
    while let Some((&byte, after)) = rest.split_first() {
        if byte == separator {
            return (bytes.split_at(len).0, Some(after));
        }
        len += 1;
        rest = after;
    }
    (bytes, None)
}
