/// A gate that each attempt of a fragment enters before its first other act.
///
/// It promises nothing: a test may hold attempts up in it, and see them pass.
pub trait Gate {
    /// The attempt with this number, counted from 1, of this fragment enters.
    fn enter(&self, fragment: u32, attempt: u32);
}

/// The gate that lets everybody pass.
#[derive(Clone, Copy)]
pub struct OpenGate;

impl Gate for OpenGate {
    fn enter(&self, _fragment: u32, _attempt: u32) {}
}
