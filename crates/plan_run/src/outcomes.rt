ghost use Rattle.std.specs.Prelude.{◌≡◌};

use fragment_outcome::Outcome;
use std::marker::Model;

/// The outcomes of a plan's fragments, in plan order. Contracts see it as the list of them.
#[derive(Drop)]
pub struct Outcomes {
    items: Vec<Outcome>,
}

impl Model for Outcomes {
    ghost use Rattle.std.specs.Prelude.{List};
    ghost use Rattle.fragment_outcome.specs.declared.outcome.Outcome.{Outcome};

    ghost Value = { List Outcome };

    ghost view = { λ outcomes. outcomes.items.items };
}

impl Outcomes {
    /// The outcomes of a `Vec`, which it keeps: no memory is taken.
    pub fn new(items: Vec<Outcome>) -> Outcomes
        ensures { result ≡ items.items }
    {
        Outcomes { items }
    }

    /// The outcomes, lent.
    pub fn as_slice(&self) -> &[Outcome]
        ensures { result.now ≡ self.now }
    {
        self.items.as_slice()
    }

    /// The `Vec` that it was made from.
    pub fn into_vec(self) -> Vec<Outcome>
        ensures { result.items ≡ self }
    {
        let Outcomes { items } = self;
        items
    }
}
