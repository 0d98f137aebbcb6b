//! A buffer in front of a sink. Its calls stand in a file of their own, since a struct with a ghost field may not bring in what names it.
ghost use Rattle.std.specs.Prelude.{◌≤◌};

/// How many bytes are held at most.
pub(crate) const ROOM: usize = 4096;

/// Bytes on their way to a sink, which is written in large pieces.
///
/// Once a write has failed it takes no more, and writes nothing: so whoever writes needn't look after each part.
#[derive(Drop)]
pub(crate) struct Writer {
    pub(crate) buffer: [u8; ROOM],
    pub(crate) len: usize,
    pub(crate) failed: bool,
    ghost within: { len ≤ 4096 },
}
