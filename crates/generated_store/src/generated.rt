//! A store with a generated file beside the files of another store.
ghost use Rattle.std.specs.Prelude.{◌≡◌, ◌<◌, ◌≤◌, ◌+◌, ◌^◌, ◌∷◌, ◌↔◌, [], ℕ, List, length, true, IsTrue, Option, None, Some, Ok, IfOk, IfSome, OnOk, OnErr, slice_range};
ghost use Rattle.outside.specs.Cause.{HasCause};
ghost use Rattle.outside.specs.Files.{Files, file_named, HasBytes, IsFile, range_of};
ghost use Rattle.outside.specs.Told.{Extended};
ghost use Rattle.outside.specs.declared.file_ref.FileRange.{FileRange};
ghost use Rattle.generated_store.specs.Made.{MadeOf};
ghost use Rattle.generated_store.specs.Generated.{GeneratedOf, IsMade, IsInMade, IsLast, IsNotInMade, made_ref};

use crate::made::Made;
use outside::{Failed, FileRef, RealWorld, Store, World};
use std::marker::{Model, PhantomData};

/// The number of the generated file: the last that a file may have. A folder's files have smaller ones.
const MADE_NUMBER: u32 = 4095;

/// A store that has a generated file, where there is one, under its name and with the number 4,095. Every other name is looked up in
/// the store below, and every other file is read from it.
///
/// Where the world tells its files, the generated one is the last of them, and the store below has the same files; the world of a real
/// run tells none. It keeps no log. Its count of faults is that of the store below.
///
/// Contracts see the store below and the generated file.
#[derive(Drop)]
pub struct Generated<S, W: World = RealWorld> {
    /// The store below.
    pub under: S,
    /// The generated file.
    pub made: Option<Made>,
    world: PhantomData<W>,
}

impl<S, W: World> Model for Generated<S, W> {
    ghost use Rattle.generated_store.specs.Generated.{GeneratedOf, IsLast};

    ghost Value = { GeneratedOf S };

    ghost view = { λ s. record { under = s.under; made = s.made } };

    ghost invariant = { λ s. IsLast W.files s.made };
}

impl<S, W: World> Generated<S, W> {
    /// A store over that one, with that generated file, or with none.
    pub fn new(under: S, made: Option<Made>) -> Generated<S, W>
        requires { IsLast W.files made }
        ensures under { result.under ≡ under }
        ensures made { result.made ≡ made }
    {
        Generated {
            under,
            made,
            world: PhantomData,
        }
    }
}

impl<S: Store<W>, W: World> Store<W> for Generated<S, W> {
    ghost reads = { λ _. None };

    ghost fault_count = { λ s. S.fault_count s.under };

    fn find(&mut self, name: &str) -> Result<Option<FileRef>, Failed>
        ensures found { IfOk result (λ found. (told : Files) → W.files ≡ Some told → found ≡ file_named name.now told) }
        ensures number { IfOk result (λ found. IfSome found (λ file. file.number < 4096)) }
        ensures cause { HasCause (S.fault_count self.old.under) (S.fault_count self.new.under) result }
        ensures made { (made : MadeOf) → IsMade self.old.made name.now made
            → (result ≡ Ok (Some (made_ref made))) × (self.new ≡ self.old) }
        ensures unread { S.reads self.new.under ≡ S.reads self.old.under }
        ensures kept { self.new.made ≡ self.old.made }
    {
        if let Some(made) = &self.made
            && made.name() == name
        {
            return Ok(Some(FileRef {
                number: MADE_NUMBER,
                len: made.bytes().len() as u64,
            }));
        }
        self.under.find(name)
    }

    fn read_at(&mut self, file: FileRef, at: u64, into: &mut [u8]) -> Result<(), Failed>
        requires in_range { at + length into.old ≤ file.len }
        requires is_file { IsFile W.files file }
        ensures bytes { OnOk result ((bytes : List ℕ) → HasBytes W.files file bytes
            → into.new ≡ slice_range bytes at (at + length into.new)) }
        ensures reads { OnOk result (Extended {A = FileRange} None None (range_of file at (length into.new) ∷ [])) }
        ensures refused { OnErr result (◌≡◌ {A = Option (List FileRange)} None None) }
        ensures cause { HasCause (S.fault_count self.old.under) (S.fault_count self.new.under) result }
        ensures made { (made : MadeOf) → IsInMade self.old.made file at (length into.old) made
            → (result ≡ Ok tt) × (into.new ≡ slice_range made.bytes at (at + length into.old)) × (self.new ≡ self.old) }
        ensures below { IsNotInMade self.old.made file at (length into.old)
            → OnOk result (Extended (S.reads self.old.under) (S.reads self.new.under) (range_of file at (length into.new) ∷ [])) }
        ensures below_refused { OnErr result (S.reads self.new.under ≡ S.reads self.old.under) }
        ensures kept { self.new.made ≡ self.old.made }
    {
        if let Some(made) = &self.made
            && file.number == MADE_NUMBER
            && copied(made.bytes(), at, into)
        {
            return Ok(());
        }
        self.under.read_at(file, at, into)
    }

    fn faults(&self) -> u64 {
        self.under.faults()
    }
}

/// Copies a range of these bytes, where it lies in them, and says whether it does; else nothing is copied.
fn copied(bytes: &[u8], at: u64, into: &mut [u8]) -> bool
    requires { at + length into.old < 2 ^ 64 }
    ensures whole { IsTrue result ↔ at + length into.old ≤ length bytes.now }
    ensures bytes { IsTrue result → into.new ≡ slice_range bytes.now at (at + length into.old) }
    ensures len { length into.new ≡ length into.old }
{
    let start = at as usize;
    match bytes.get(start..start + into.len()) {
        Some(part) => {
            into.copy_from_slice(part);
            true
        }
        None => false,
    }
}
