//! The entries of a dictionary.
ghost use Rattle.std.specs.Prelude.{◌≡◌, ◌==◌, length, IfOk};

use crate::texts::Texts;
use outside::NoMemory;
use std::alloc::Global;
use std::marker::Model;
use std::sync::Arc;

/// The entries of a dictionary, which several owners share: whoever reads a column, and each batch of it.
///
/// Contracts see it as the list of the entries.
#[derive(Drop)]
pub struct Dictionary {
    entries: Arc<Texts>,
}

impl Model for Dictionary {
    ghost use Rattle.std.specs.Prelude.{List, ℕ};
    ghost use Rattle.std.specs.Arc.{arc_value};

    ghost Value = { List (List ℕ) };

    ghost view = { λ dictionary. arc_value dictionary.entries };
}

impl Dictionary {
    /// A dictionary of these entries, which it keeps.
    ///
    /// Answers `NoMemory` only where memory was refused.
    pub fn new(alloc: Global, entries: Texts) -> Result<Dictionary, NoMemory>
        ensures { IfOk result (λ dictionary. dictionary ≡ entries) }
    {
        match Arc::new(alloc, entries) {
            Ok(entries) => Ok(Dictionary { entries }),
            Err(_) => Err(NoMemory),
        }
    }

    /// The same dictionary for another owner. No entry is copied, and no memory is taken.
    ///
    /// Answers `NoMemory` only where it has as many owners as can be counted.
    pub fn share(&self) -> Result<Dictionary, NoMemory>
        ensures { IfOk result (λ dictionary. dictionary ≡ self.now) }
    {
        match Arc::try_clone(&self.entries) {
            Ok(entries) => Ok(Dictionary { entries }),
            Err(_) => Err(NoMemory),
        }
    }

    /// The entries, lent.
    pub fn entries(&self) -> &Texts
        ensures { result.now ≡ self.now }
    {
        &self.entries
    }

    /// How many entries there are.
    pub fn len(&self) -> usize
        ensures { result ≡ length self.now }
    {
        self.entries().len()
    }

    /// Whether there is none.
    pub fn is_empty(&self) -> bool
        ensures { result ≡ (length self.now == 0) }
    {
        self.entries().is_empty()
    }
}
