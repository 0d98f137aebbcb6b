ghost use Rattle.std.specs.Prelude.{◌≡◌};

use outside::Name;
use std::marker::Model;

/// Names, in order. Contracts see it as the list of them.
#[derive(Drop)]
pub struct Names {
    items: Vec<Name>,
}

impl Model for Names {
    ghost use Rattle.std.specs.Prelude.{List, ℕ};

    ghost Value = { List (List ℕ) };

    ghost view = { λ names. names.items.items };
}

impl Names {
    /// The names of a `Vec`, which it keeps: no memory is taken.
    pub fn new(items: Vec<Name>) -> Names
        ensures { result ≡ items.items }
    {
        Names { items }
    }

    /// The names, lent.
    pub fn as_slice(&self) -> &[Name]
        ensures { result.now ≡ self.now }
    {
        self.items.as_slice()
    }

    /// The `Vec` that it was made from.
    pub fn into_vec(self) -> Vec<Name>
        ensures { result.items ≡ self }
    {
        let Names { items } = self;
        items
    }
}
