//! What is known of the fragments of earlier lines.

ghost use Rattle.std.specs.Prelude.{◌≡◌, ◌<◌, ◌++◌, ◌∷◌, [], length, map, position, OnOk, None};
ghost use Rattle.std.specs.Str.{bytes_eq};

use indexmap::IndexSet;
use std::alloc::{AllocFailed, Global};
use std::marker::Model;

/// The names on earlier lines, at most 1,000: the place of a name is the number of its fragment.
///
/// They are borrowed from the plan's bytes. Contracts see it as the list of them.
#[derive(Drop)]
pub struct KnownNames<'a> {
    set: IndexSet<&'a [u8]>,
}

impl<'a> Model for KnownNames<'a> {
    ghost use Rattle.std.specs.Prelude.{List, ℕ, map, length, ◌≤◌};

    ghost Value = { List (List ℕ) };

    ghost view = { λ names. map (λ key. key.now) names.set.keys };

    ghost invariant = { λ names. length names.set.keys ≤ 1000 };
}

impl<'a> KnownNames<'a> {
    /// No name.
    pub fn new(alloc: Global) -> KnownNames<'a>
        ensures { result ≡ [] }
    {
        KnownNames {
            set: IndexSet::new(alloc),
        }
    }

    /// How many names there are.
    pub fn len(&self) -> usize
        ensures { result ≡ length self.now }
    {
        self.set.len()
    }

    /// The number of the fragment of that name. It doesn't walk over the names.
    pub fn find(&self, wanted: &[u8]) -> Option<u32>
        ensures { result ≡ position (bytes_eq wanted.now) self.now }
    {
        let place = self.set.get_index_of(wanted)?;
        Some(place as u32)
    }

    /// Adds a name that wasn't there.
    pub fn add(&mut self, name: &'a [u8]) -> Result<(), AllocFailed<&'a [u8]>>
        requires room { length self.old < 1000 }
        requires fresh { position (bytes_eq name.now) self.old ≡ None }
        ensures { OnOk result (self.new ≡ self.old ++ name.now ∷ []) }
    {
        self.set.insert(name)?;
        Ok(())
    }
}
