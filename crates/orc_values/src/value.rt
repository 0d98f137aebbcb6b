//! One value of a row, owned or borrowed.

ghost use Rattle.std.specs.Prelude.{◌≡◌, ◌↔◌, IsTrue, IfOk};
ghost use Rattle.orc_values.specs.Shown.{shown};

use outside::{Bytes, NoMemory};
use std::alloc::Global;

/// A value of a row.
///
/// A column has millions of values, so none of them is one of these: a literal, a row of a result and the key
/// of a group are.
#[derive(Drop)]
pub enum Value {
    /// No value stands in the row.
    Null,
    /// Of kind BOOLEAN.
    Bool(bool),
    /// Of kinds SHORT, INT and LONG.
    Int(i64),
    /// The bytes of a text, of kind STRING.
    Text(Bytes),
}

/// A value of a row, where its text is borrowed from the column.
#[derive(Clone, Copy, PartialEq, Eq)]
pub enum ValueRef<'a> {
    /// No value stands in the row.
    Null,
    /// Of kind BOOLEAN.
    Bool(bool),
    /// Of kinds SHORT, INT and LONG.
    Int(i64),
    /// The bytes of a text, of kind STRING.
    Text(&'a [u8]),
}

impl Value {
    /// The same value, borrowed.
    pub fn as_ref(&self) -> ValueRef<'_>
        ensures { shown result ≡ self.now }
    {
        match self {
            Value::Null => ValueRef::Null,
            Value::Bool(value) => ValueRef::Bool(*value),
            Value::Int(value) => ValueRef::Int(*value),
            Value::Text(bytes) => ValueRef::Text(bytes.as_slice()),
        }
    }
}

impl<'a> ValueRef<'a> {
    /// Whether both show the same value; null is the same as null.
    pub fn is_same(self, other: ValueRef<'_>) -> bool
        ensures { IsTrue result ↔ (shown self.entry ≡ shown other.entry) }
    {
        match (self, other) {
            (ValueRef::Null, ValueRef::Null) => true,
            (ValueRef::Bool(one), ValueRef::Bool(two)) => one == two,
            (ValueRef::Int(one), ValueRef::Int(two)) => one == two,
            (ValueRef::Text(one), ValueRef::Text(two)) => one == two,
            _ => false,
        }
    }

    /// The same value, owned: a text is copied.
    ///
    /// Answers `NoMemory` only where memory for a text was refused.
    pub fn to_value(self, alloc: Global) -> Result<Value, NoMemory>
        ensures { IfOk result (λ value. value ≡ shown self.entry) }
    {
        Ok(match self {
            ValueRef::Null => Value::Null,
            ValueRef::Bool(value) => Value::Bool(value),
            ValueRef::Int(value) => Value::Int(value),
            ValueRef::Text(bytes) => Value::Text(copied(alloc, bytes)?),
        })
    }
}

fn copied(alloc: Global, bytes: &[u8]) -> Result<Bytes, NoMemory>
    ensures { IfOk result (λ copy. copy ≡ bytes.now) }
{
    match Vec::from_slice(alloc, bytes) {
        Ok(items) => Ok(Bytes::new(items)),
        Err(_) => Err(NoMemory),
    }
}
