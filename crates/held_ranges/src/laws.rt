//! Laws of deeds, as functions that do nothing.
ghost use Rattle.held_ranges.specs.Counts.{ReadsAreCounted, StepsAreCounted};

use outside::{Store, World};

/// Where the store tells its reads afterwards, deeds added as many as the counts of fills and bypasses grew by, unless one of
/// these two counts stands at its end.
pub fn reads_are_counted<W: World, S: Store<W>>()
    ensures { ReadsAreCounted W W.files S.reads }
{}

/// By deeds fills grew by as many as the steps of the desk's seat published buffers, unless that count stands at its end; and evictions
/// by as many as they released headers, unless that count stands at its end, or one fetch may have released 2^32 - 1. Nothing is moved.
pub fn steps_are_counted<W: World, S: Store<W>>()
    ensures { StepsAreCounted W W.files S.reads }
{}
