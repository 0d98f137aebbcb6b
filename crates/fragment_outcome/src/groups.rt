ghost use Rattle.std.specs.Prelude.{◌≡◌, IsTrue};
ghost use Rattle.group_counts.specs.Entries.{all_fit};

use group_counts::Counts;
use std::marker::Model;

/// The values of a column, each with its number of rows, a number of 64 bits with a sign.
///
/// Contracts see it as the list of pairs, values ascending: null, false, true, numbers, texts by their bytes.
#[derive(Drop)]
pub struct Groups {
    counts: Counts,
}

impl Model for Groups {
    ghost use Rattle.std.specs.Prelude.{IsTrue};
    ghost use Rattle.group_counts.specs.Entries.{Entries, all_fit};

    ghost Value = { Entries };

    ghost view = { λ groups. groups.counts };

    ghost invariant = { λ groups. IsTrue (all_fit groups.counts) };
}

impl Groups {
    /// The groups of counts that all fit, which it keeps: no memory is taken.
    pub fn new(counts: Counts) -> Groups
        requires { IsTrue (all_fit counts) }
        ensures { result ≡ counts }
    {
        Groups { counts }
    }

    /// The counts, lent.
    pub fn counts(&self) -> &Counts
        ensures same { result.now ≡ self.now }
        ensures fit { IsTrue (all_fit self.now) }
    {
        &self.counts
    }

    /// The counts that it was made from.
    pub fn into_counts(self) -> Counts
        ensures same { result ≡ self }
        ensures fit { IsTrue (all_fit self) }
    {
        let Groups { counts } = self;
        counts
    }
}
