ghost use Rattle.std.specs.Prelude.{◌≡◌, [], ◌∷◌, ◌++◌, ◌<◌, length, slice_get, slice_set, OnOk, OnErr};
ghost use Rattle.std.specs.Prelude.{slice_index_or, filter, not, ◌==◌, IfOk, replicate, None};
ghost use Rattle.std.specs.Option.{option_copied};

use std::alloc::{AllocError, Global};
use std::marker::Model;
use std::mem;

/// A list of the pool's: cells, seats, buffers by header, grants by place, files by number.
#[derive(Drop)]
pub struct Sequence<T> {
    items: Vec<T>,
}

impl<T> Model for Sequence<T> {
    ghost use Rattle.std.specs.Prelude.{List};
    ghost use Rattle.std.specs.Coded.{coded_list};

    ghost Value = { List T };

    ghost coded = { coded_list T.code };

    ghost view = { λ s. s.items.items };
}

impl<T> Sequence<T> {
    /// Makes a list of the collection, without taking memory.
    pub fn new(items: Vec<T>) -> Sequence<T>
        ensures { result ≡ items.items }
    {
        Sequence { items }
    }

    /// The collection.
    pub fn as_slice(&self) -> &[T]
        ensures { result.now ≡ self.now }
    {
        self.items.as_slice()
    }
}

impl<T: Drop> Sequence<T> {
    /// Puts an item at a place, and gives back the one that stood there.
    pub fn replace(&mut self, at: usize, item: T) -> T
        requires { at < length self.old }
        ensures before { result ≡ slice_index_or self.old at result }
        ensures after { self.new ≡ slice_set self.old at item }
    {
        mem::replace(&mut self.items[at], item)
    }

    /// Puts an item at a place. Past the end nothing changes.
    pub fn set(&mut self, at: usize, item: T)
        ensures { self.new ≡ slice_set self.old at item }
    {
        if at < self.items.len() {
            self.items[at] = item;
        }
    }

    /// Puts an item at the end. Where memory is wanting, nothing changes.
    pub fn push(&mut self, item: T) -> Result<(), AllocError>
        ensures ok { OnOk result (self.new ≡ self.old ++ item ∷ []) }
        ensures err { OnErr result (self.new ≡ self.old) }
    {
        self.items.push(item)?;
        Ok(())
    }
}

impl Sequence<u32> {
    /// Takes out every item that equals one.
    pub fn remove_all(&mut self, item: u32)
        ensures { self.new ≡ filter (λ s. not (s == item)) self.old }
    {
        self.items.retain(|s| *s != item);
    }
}

impl<T: Drop> Sequence<Option<T>> {
    /// A list of that many empty places.
    pub fn of_none(alloc: Global, len: usize) -> Result<Sequence<Option<T>>, AllocError>
        ensures { IfOk result (λ s. s ≡ replicate len None) }
    {
        let mut items = Vec::new(alloc);
        for _ in 0..len {
            items.push(None)?;
        }
        Ok(Sequence { items })
    }
}
