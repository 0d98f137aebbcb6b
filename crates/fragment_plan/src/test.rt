//! What a row must meet to pass.

ghost use Rattle.std.specs.Prelude.{◌≡◌};

use orc_values::Value;
use std::marker::Model;

/// How a value is compared with a literal.
#[derive(Clone, Copy, PartialEq, Eq)]
pub enum Op {
    /// `=`
    Equal,
    /// `!=`
    NotEqual,
    /// `<`
    Less,
    /// `<=`
    LessOrEqual,
    /// `>`
    Greater,
    /// `>=`
    GreaterOrEqual,
}

/// What a test asks of a value.
#[derive(Drop)]
pub enum Check {
    /// It compares with a literal, which is a truth value, a number or a text, by the operator. Truth values are
    /// compared by `=` and `!=` alone.
    Compare {
        /// By which operator.
        op: Op,
        /// With which literal.
        literal: Value,
    },
    /// It is null.
    IsNull,
    /// It isn't null.
    IsNotNull,
}

/// A test of one column of a scan.
#[derive(Drop)]
pub struct Test {
    /// The column: its place in the scan's `columns`, counted from 0.
    pub column: u32,
    /// What is asked of its value.
    pub check: Check,
}

/// Tests, in the order of the line. Contracts see it as the list of them.
#[derive(Drop)]
pub struct Tests {
    items: Vec<Test>,
}

impl Model for Tests {
    ghost use Rattle.std.specs.Prelude.{List};
    ghost use Rattle.fragment_plan.specs.declared.test.Test.{Test};

    ghost Value = { List Test };

    ghost view = { λ tests. tests.items.items };
}

impl Tests {
    /// The tests of a `Vec`, which it keeps: no memory is taken.
    pub fn new(items: Vec<Test>) -> Tests
        ensures { result ≡ items.items }
    {
        Tests { items }
    }

    /// The tests, lent.
    pub fn as_slice(&self) -> &[Test]
        ensures { result.now ≡ self.now }
    {
        self.items.as_slice()
    }

    /// The `Vec` that it was made from.
    pub fn into_vec(self) -> Vec<Test>
        ensures { result.items ≡ self }
    {
        let Tests { items } = self;
        items
    }
}
