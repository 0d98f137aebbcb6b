//! What later lines need of the fragments of earlier lines.

ghost use Rattle.std.specs.Prelude.{◌≡◌, ◌<◌, ◌++◌, ◌∷◌, [], None, Ok, length, position};
ghost use Rattle.std.specs.Str.{bytes_eq};
ghost use Rattle.plan_words.specs.Steps.{GivesOr};

use crate::shape::Shape;
use plan_names::KnownNames;
use plan_words::Stop;
use std::alloc::Global;
use std::marker::Model;

/// An index of the names of earlier fragments, and their shapes. Contracts see it as these two lists.
#[derive(Drop)]
pub(crate) struct Earlier<'a> {
    names: KnownNames<'a>,
    shapes: Vec<Shape>,
}

impl<'a> Model for Earlier<'a> {
    ghost use Rattle.std.specs.Prelude.{List, ℕ};
    ghost use Rattle.fragment_plan.specs.declared.shape.Shape.{Shape};

    ghost Value = { List (List ℕ) × List Shape };

    ghost view = { λ e. (e.names, e.shapes.items) };
}

impl<'a> Earlier<'a> {
    /// No fragment.
    pub(crate) fn new(alloc: Global) -> Earlier<'a>
        ensures { result ≡ ([], []) }
    {
        Earlier {
            names: KnownNames::new(alloc),
            shapes: Vec::new(alloc),
        }
    }

    /// The index of the names, lent.
    pub(crate) fn names(&self) -> &KnownNames<'a>
        ensures { result.now ≡ self.now.0 }
    {
        &self.names
    }

    /// The shapes, lent.
    pub(crate) fn shapes(&self) -> &[Shape]
        ensures { result.now ≡ self.now.1 }
    {
        self.shapes.as_slice()
    }

    /// The same with those of one fragment more, whose name wasn't there. Refuses only for want of memory.
    pub(crate) fn with(self, name: &'a [u8], shape: Shape) -> Result<Earlier<'a>, Stop>
        requires room { length self.0 < 1000 }
        requires fresh { position (bytes_eq name.now) self.0 ≡ None }
        ensures { GivesOr (λ e. e) result (Ok (self.entry.0 ++ name.now ∷ [], self.entry.1 ++ shape ∷ [])) }
    {
        let Earlier {
            mut names,
            mut shapes,
        } = self;
        names.add(name)?;
        shapes.push(shape)?;
        Ok(Earlier { names, shapes })
    }
}
