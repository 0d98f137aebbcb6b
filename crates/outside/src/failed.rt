//! What a call on the outside answers where it couldn't be done.

/// A read, a write or a look-up of the outside failed.
///
/// It says nothing of why. The count of faults of the object that answered it rose in that call, or stands
/// at its last value.
#[derive(Clone, Copy, Debug, PartialEq, Eq)]
pub struct Failed;

/// Memory was asked for, and refused.
#[derive(Clone, Copy, Debug, PartialEq, Eq)]
pub struct NoMemory;
