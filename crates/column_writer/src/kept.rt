//! Values that are still to be written.
ghost use Rattle.std.specs.Prelude.{◌≡◌, ◌<◌, ◌++◌, ◌∷◌, [], ℕ, ℤ, Bool, List, length, map, OnOk, OnErr};
ghost use Rattle.orc_values.specs.declared.value.Value.{Value};
ghost use Rattle.orc_values.specs.declared.value.Value.TheVariants as value;
ghost use Rattle.orc_columns.specs.declared.spelling.Spelling.TheVariants as by;
ghost use Rattle.orc_columns.specs.declared.spelling.Version.TheVariants as version;
ghost use Rattle.column_writer.specs.Encoded.{spelling_in, values_in};
ghost use Rattle.column_writer.specs.Buffered.{IsOf};

use orc_columns::{Spelling, Version};
use orc_values::{Texts, Value};
use outside::NoMemory;
use std::alloc::Global;
use std::mem;

/// The values of a column that stand, in order: a list of their type, and how they are to be spelled.
#[derive(Drop)]
pub enum Kept {
    /// Truth values, as bits.
    Bits(Vec<bool>),
    /// Numbers, in runs of this version.
    Integers(Version, Vec<i64>),
    /// Texts, each with its own bytes.
    Strings(Version, Texts),
    /// Texts, by a dictionary.
    Dictionary(Version, Texts),
}

impl Kept {
    /// No values, to be spelled so.
    pub(crate) fn none(alloc: Global, spelling: Spelling) -> Kept
        ensures spelling { spelling_in result ≡ spelling }
        ensures values { values_in result ≡ [] }
    {
        match spelling {
            Spelling::Bits => Kept::Bits(Vec::new(alloc)),
            Spelling::Integers(version) => Kept::Integers(version, Vec::new(alloc)),
            Spelling::Texts(version) => Kept::Strings(version, Texts::empty(alloc)),
            Spelling::Dictionary(version) => Kept::Dictionary(version, Texts::empty(alloc)),
        }
    }

    /// Adds a value of the spelling's kind; a text is copied.
    ///
    /// Answers `NoMemory` where memory was refused, and the values are then as before.
    pub(crate) fn push(&mut self, row: &Value) -> Result<(), NoMemory>
        requires { IsOf (spelling_in self.old) row.now }
        ensures spelling { spelling_in self.new ≡ spelling_in self.old }
        ensures ok { OnOk result (values_in self.new ≡ values_in self.old ++ row.now ∷ []) }
        ensures err { OnErr result (values_in self.new ≡ values_in self.old) }
    {
        match self {
            Kept::Bits(bits) => push_bit(bits, row),
            Kept::Integers(_, numbers) => push_number(numbers, row),
            Kept::Strings(_, texts) => push_text(texts, row),
            Kept::Dictionary(_, texts) => push_text(texts, row),
        }
    }

    /// How they are to be spelled.
    pub(crate) fn spelling(&self) -> Spelling
        ensures { result ≡ spelling_in self.now }
    {
        match self {
            Kept::Bits(_) => Spelling::Bits,
            Kept::Integers(version, _) => Spelling::Integers(*version),
            Kept::Strings(version, _) => Spelling::Texts(*version),
            Kept::Dictionary(version, _) => Spelling::Dictionary(*version),
        }
    }

    /// Lets all values go.
    pub(crate) fn clear(&mut self, alloc: Global)
        ensures spelling { spelling_in self.new ≡ spelling_in self.old }
        ensures values { values_in self.new ≡ [] }
    {
        match self {
            Kept::Bits(bits) => bits.clear(),
            Kept::Integers(_, numbers) => numbers.clear(),
            Kept::Strings(_, texts) => *texts = Texts::empty(alloc),
            Kept::Dictionary(_, texts) => *texts = Texts::empty(alloc),
        }
    }

    /// Lets the last value go, if there is one.
    pub(crate) fn pop(&mut self, alloc: Global)
        requires { 0 < length (values_in self.old) }
        ensures spelling { spelling_in self.new ≡ spelling_in self.old }
        ensures values { (last : Value) × (values_in self.old ≡ values_in self.new ++ last ∷ []) }
    {
        match self {
            Kept::Bits(bits) => pop_bit(bits),
            Kept::Integers(_, numbers) => pop_number(numbers),
            Kept::Strings(_, texts) => pop_text(alloc, texts),
            Kept::Dictionary(_, texts) => pop_text(alloc, texts),
        }
    }
}

fn pop_bit(bits: &mut Vec<bool>)
    requires { 0 < length bits.old.items }
    ensures { (last : Bool) × (bits.old.items ≡ bits.new.items ++ last ∷ []) }
{
    bits.pop();
}

fn pop_number(numbers: &mut Vec<i64>)
    requires { 0 < length numbers.old.items }
    ensures { (last : ℤ) × (numbers.old.items ≡ numbers.new.items ++ last ∷ []) }
{
    numbers.pop();
}

fn pop_text(alloc: Global, texts: &mut Texts)
    requires { 0 < length texts.old }
    ensures { (last : List ℕ) × (texts.old ≡ texts.new ++ last ∷ []) }
{
    let (bytes, mut ends) = mem::replace(texts, Texts::empty(alloc)).into_parts();
    pop_end(&mut ends);
    *texts = Texts::new(bytes, ends);
}

fn push_bit(bits: &mut Vec<bool>, row: &Value) -> Result<(), NoMemory>
    requires { IsOf by.Bits row.now }
    ensures ok { OnOk result (map (λ b. value.Bool b) bits.new.items ≡ map (λ b. value.Bool b) bits.old.items ++ row.now ∷ []) }
    ensures err { OnErr result (bits.new.items ≡ bits.old.items) }
{
    let Value::Bool(bit) = row else {
        unreachable!()
    };
    match bits.push(*bit) {
        Ok(()) => Ok(()),
        Err(_) => Err(NoMemory),
    }
}

fn push_number(numbers: &mut Vec<i64>, row: &Value) -> Result<(), NoMemory>
    requires { IsOf (by.Integers version.One) row.now }
    ensures ok { OnOk result (map (λ n. value.Int n) numbers.new.items ≡ map (λ n. value.Int n) numbers.old.items ++ row.now ∷ []) }
    ensures err { OnErr result (numbers.new.items ≡ numbers.old.items) }
{
    let Value::Int(number) = row else {
        unreachable!()
    };
    match numbers.push(*number) {
        Ok(()) => Ok(()),
        Err(_) => Err(NoMemory),
    }
}

fn push_text(texts: &mut Texts, row: &Value) -> Result<(), NoMemory>
    requires { IsOf (by.Texts version.One) row.now }
    ensures ok { OnOk result (map (λ t. value.Text t) texts.new ≡ map (λ t. value.Text t) texts.old ++ row.now ∷ []) }
    ensures err { OnErr result (texts.new ≡ texts.old) }
{
    let Value::Text(text) = row else {
        unreachable!()
    };
    texts.push(text.as_slice())
}

fn pop_end(ends: &mut Vec<usize>)
    requires { 0 < length ends.old.items }
    ensures { (last : ℕ) × (ends.old.items ≡ ends.new.items ++ last ∷ []) }
{
    ends.pop();
}
