/// An attempt of a fragment by an executor.
#[derive(Clone, Copy, PartialEq, Eq)]
pub struct Attempt {
    /// The fragment, counted from 0 in the plan's order.
    pub fragment: u32,
    /// Which of its attempts it is, counted from 1.
    pub number: u32,
    /// The executor, counted from 0.
    pub executor: u32,
}
