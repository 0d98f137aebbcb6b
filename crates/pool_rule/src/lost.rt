/// An arena's word wasn't the one that was expected, so the block wasn't granted.
#[derive(Clone, Copy, Debug, PartialEq, Eq)]
pub struct LostGrant {
    /// The word as the exchange found it.
    pub saw: u64,
}
