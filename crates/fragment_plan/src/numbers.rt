ghost use Rattle.std.specs.Prelude.{◌≡◌};

use std::marker::Model;

/// Numbers, in order: of fragments of a plan, or of columns of a scan. Contracts see it as the list of them.
#[derive(Drop)]
pub struct Numbers {
    items: Vec<u32>,
}

impl Model for Numbers {
    ghost use Rattle.std.specs.Prelude.{List, ℕ};

    ghost Value = { List ℕ };

    ghost view = { λ numbers. numbers.items.items };
}

impl Numbers {
    /// The numbers of a `Vec`, which it keeps: no memory is taken.
    pub fn new(items: Vec<u32>) -> Numbers
        ensures { result ≡ items.items }
    {
        Numbers { items }
    }

    /// The numbers, lent.
    pub fn as_slice(&self) -> &[u32]
        ensures { result.now ≡ self.now }
    {
        self.items.as_slice()
    }

    /// The `Vec` that it was made from.
    pub fn into_vec(self) -> Vec<u32>
        ensures { result.items ≡ self }
    {
        let Numbers { items } = self;
        items
    }
}
