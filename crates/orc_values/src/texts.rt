//! Texts in one list of bytes.

ghost use Rattle.std.specs.Prelude.{◌≡◌, ◌==◌, ◌<◌, ◌≤◌, ◌++◌, ◌∷◌, [], length, slice_get, slice_range, OnOk, OnErr};
ghost use Rattle.orc_values.specs.Texts.{texts_from, AreEnds, start_of};

use outside::NoMemory;
use std::alloc::Global;
use std::marker::Model;

/// A list of texts, whose bytes stand one behind the other in one list.
///
/// A text is the bytes between the end of the one before it and its own end. Contracts see it as the list of
/// the texts.
#[derive(Drop)]
pub struct Texts {
    bytes: Vec<u8>,
    ends: Vec<usize>,
}

impl Model for Texts {
    ghost use Rattle.std.specs.Prelude.{List, ℕ, length};
    ghost use Rattle.orc_values.specs.Texts.{texts_from, AreEnds};

    ghost Value = { List (List ℕ) };

    ghost view = { λ texts. texts_from 0 texts.ends.items texts.bytes.items };

    ghost invariant = { λ texts. AreEnds 0 texts.ends.items (length texts.bytes.items) };
}

impl Texts {
    /// No texts, and no memory.
    pub fn empty(alloc: Global) -> Texts
        ensures { result ≡ [] }
    {
        Texts {
            bytes: Vec::new(alloc),
            ends: Vec::new(alloc),
        }
    }

    /// The texts of a list of bytes by their ends, which don't fall and go to the list's length at most.
    ///
    /// It keeps both lists: no memory is taken. Bytes behind the last end belong to no text.
    pub fn new(bytes: Vec<u8>, ends: Vec<usize>) -> Texts
        requires { AreEnds 0 ends.items (length bytes.items) }
        ensures { result ≡ texts_from 0 ends.items bytes.items }
    {
        Texts { bytes, ends }
    }

    /// How many texts there are.
    pub fn len(&self) -> usize
        ensures { result ≡ length self.now }
    {
        self.ends.len()
    }

    /// Whether there is none.
    pub fn is_empty(&self) -> bool
        ensures { result ≡ (length self.now == 0) }
    {
        self.ends.is_empty()
    }

    /// The text at an index, lent.
    pub fn get(&self, index: usize) -> &[u8]
        requires { index < length self.now }
        ensures { slice_get self.now index ≡ Some result.now }
    {
        let from = start_of(&self.ends, index);
        let to = self.ends[index];
        part(&self.bytes, from, to)
    }

    /// The bytes and the ends of the texts, lent: whoever looks at text after text finds where each begins by the one before it.
    pub fn parts(&self) -> (&[u8], &[usize])
        ensures ends { AreEnds 0 result.1.now (length result.0.now) }
        ensures texts { texts_from 0 result.1.now result.0.now ≡ self.now }
    {
        (self.bytes.as_slice(), self.ends.as_slice())
    }

    /// Adds a text behind the others, copied.
    ///
    /// Answers `NoMemory` only where memory was refused, and the texts are then as before.
    pub fn push(&mut self, text: &[u8]) -> Result<(), NoMemory>
        ensures ok { OnOk result (self.new ≡ self.old ++ text.now ∷ []) }
        ensures err { OnErr result (self.new ≡ self.old) }
    {
        let end = start_of(&self.ends, self.ends.len());
        self.bytes.truncate(end);
        if self.bytes.extend_from_slice(text).is_err() {
            return Err(NoMemory);
        }
        let end = self.bytes.len();
        if self.ends.push(end).is_err() {
            return Err(NoMemory);
        }
        Ok(())
    }

    /// Lets all texts go, and keeps their memory for others.
    pub fn clear(&mut self)
        ensures { self.new ≡ [] }
    {
        self.ends.clear();
        self.bytes.clear();
    }

    /// Gives the two lists back that it was made from: the bytes and the ends.
    pub fn into_parts(self) -> (Vec<u8>, Vec<usize>)
        ensures texts { texts_from 0 result.1.items result.0.items ≡ self }
        ensures ends { AreEnds 0 result.1.items (length result.0.items) }
    {
        let Texts { bytes, ends } = self;
        (bytes, ends)
    }
}

/// Where the text at an index begins, or a text that is added behind the others.
fn start_of(ends: &[usize], index: usize) -> usize
    requires { index ≤ length ends.now }
    ensures { result ≡ start_of 0 ends.now index }
{
    if index == 0 {
        return 0;
    }
    ends[index - 1]
}

/// The bytes between two places, lent.
fn part(bytes: &[u8], from: usize, to: usize) -> &[u8]
    requires order { from ≤ to }
    requires within { to ≤ length bytes.now }
    ensures { result.now ≡ slice_range bytes.now from to }
{
    &bytes[from..to]
}
