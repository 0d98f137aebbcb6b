//! Texts that are entries of a dictionary.
ghost use Rattle.std.specs.Prelude.{◌≡◌, ◌==◌, ◌<◌, length, get_or, slice_get, pos, Some, IfOk};
ghost use Rattle.std.specs.Int.{w64, cast_unsigned};
ghost use Rattle.orc_values.specs.Chosen.{chosen, places_of, AreWithin};

use crate::dictionary::Dictionary;
use crate::texts::Texts;
use outside::NoMemory;
use std::alloc::Global;
use std::marker::Model;

/// A list of texts, each the entry of a dictionary: its number alone stands for it.
///
/// Contracts see it as the list of the texts.
#[derive(Drop)]
pub struct ChosenTexts {
    dictionary: Dictionary,
    numbers: Vec<i64>,
}

impl Model for ChosenTexts {
    ghost use Rattle.std.specs.Prelude.{List, ℕ};
    ghost use Rattle.orc_values.specs.Chosen.{chosen, places_of, AreWithin};

    ghost Value = { List (List ℕ) };

    ghost view = { λ texts. chosen texts.dictionary (places_of texts.numbers.items) };

    ghost invariant = { λ texts. AreWithin texts.dictionary texts.numbers.items };
}

impl ChosenTexts {
    /// The entries of these numbers, which are the 64 bits that a stream spells them by, each below the number of entries.
    ///
    /// It keeps both: no memory is taken.
    pub fn new(dictionary: Dictionary, numbers: Vec<i64>) -> ChosenTexts
        requires { AreWithin dictionary numbers.items }
        ensures { result ≡ chosen dictionary (places_of numbers.items) }
    {
        ChosenTexts {
            dictionary,
            numbers,
        }
    }

    /// How many texts there are.
    pub fn len(&self) -> usize
        ensures { result ≡ length self.now }
    {
        self.numbers.len()
    }

    /// Whether there is none.
    pub fn is_empty(&self) -> bool
        ensures { result ≡ (length self.now == 0) }
    {
        self.numbers.is_empty()
    }

    /// The text at an index, lent.
    pub fn get(&self, index: usize) -> &[u8]
        requires { index < length self.now }
        ensures { slice_get self.now index ≡ Some result.now }
    {
        self.dictionary
            .entries()
            .get(entry_at(&self.numbers, index))
    }

    /// The entries and the number of the entry for each text, lent: whoever tests or counts texts looks at each entry once.
    pub fn parts(&self) -> (&Texts, &[i64])
        ensures within { AreWithin result.0.now result.1.now }
        ensures texts { chosen result.0.now (places_of result.1.now) ≡ self.now }
    {
        (self.dictionary.entries(), self.numbers.as_slice())
    }

    /// The same texts for another owner: the dictionary is shared, and the numbers are copied.
    ///
    /// Answers `NoMemory` only where memory was refused, or where the dictionary has as many owners as can be counted.
    pub fn copy(&self, alloc: Global) -> Result<ChosenTexts, NoMemory>
        ensures { IfOk result (λ copy. copy ≡ self.now) }
    {
        let dictionary = self.dictionary.share()?;
        match Vec::from_slice(alloc, &self.numbers) {
            Ok(numbers) => Ok(ChosenTexts::new(dictionary, numbers)),
            Err(_) => Err(NoMemory),
        }
    }

    /// Gives the dictionary and the numbers back that it was made from.
    pub fn into_parts(self) -> (Dictionary, Vec<i64>)
        ensures within { AreWithin result.0 result.1.items }
        ensures texts { chosen result.0 (places_of result.1.items) ≡ self }
    {
        let ChosenTexts {
            dictionary,
            numbers,
        } = self;
        (dictionary, numbers)
    }
}

/// The number of the entry at an index.
pub fn entry_at(numbers: &[i64], index: usize) -> usize
    requires { index < length numbers.now }
    ensures { result ≡ cast_unsigned w64 (get_or numbers.now index (pos 0)) }
{
    entry_number(numbers[index])
}

/// The number of an entry, by its 64 bits.
pub fn entry_number(number: i64) -> usize
    ensures { result ≡ cast_unsigned w64 number }
{
    number.cast_unsigned() as usize
}
