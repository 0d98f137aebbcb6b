//! Why runs could not be read.

ghost use Rattle.std.specs.Prelude.{◌≡◌};
ghost use Rattle.outside.specs.declared.run_fault.RunFault.TheVariants.{Read};

use crate::Failed;

/// What is wrong with the first run of a stream that isn't whole, judged in the order of its bytes.
#[derive(Clone, Copy, Debug, PartialEq, Eq)]
pub enum RunFault {
    /// The stream ends before the run does, or before a run that is needed.
    StreamEnds,
    /// Ten bytes of a varint all have their top bit set.
    LongVarint,
    /// An entry of a patched run patches a position that isn't below the run's length.
    PatchOutOfRun,
    /// There is a patch, and the width of its gap and its own are above 64 bits together.
    PatchTooWide,
    /// The feed failed. Its count of faults rose in the call that answered this first.
    Read(Failed),
}

impl From<Failed> for RunFault {
    ghost from_gives = { λ failed fault. fault ≡ Read failed };

    fn from(failed: Failed) -> RunFault {
        RunFault::Read(failed)
    }
}
