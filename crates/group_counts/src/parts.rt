//! The counts of values, by kind.

use std::collections::BTreeMap;

/// The counts of values by kind, lent: of null, of the truth values, of numbers and of texts. A kind that has no value has none.
#[derive(Clone, Copy)]
pub struct Parts<'a> {
    /// Of null.
    pub nulls: Option<u64>,
    /// Of false.
    pub falses: Option<u64>,
    /// Of true.
    pub trues: Option<u64>,
    /// Of numbers, ascending.
    pub numbers: &'a BTreeMap<i64, u64>,
    /// Of texts, ascending by their bytes.
    pub texts: &'a BTreeMap<Vec<u8>, u64>,
}
