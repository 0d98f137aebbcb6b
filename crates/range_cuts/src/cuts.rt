//! The cuts of a range, one by one.
ghost use Rattle.std.specs.Prelude.{◌≡◌, ◌+◌, ◌<◌, ◌≤◌, ◌^◌};
ghost use Rattle.range_cuts.specs.Cuts.{cut_ranges_of};

/// Gives the i-th range of a stream that has `len` bytes from `at` on: its first byte and its length, in bytes.
///
/// Ranges begin at multiples of the chunk, counted from the stream's start; each is of one chunk, but the last, which may be
/// shorter. `None` comes exactly past the end. The chunk is at least 1, and `at + len` fits 64 bits.
pub fn cut_ranges(at: u64, len: u64, chunk: u32, i: u64) -> Option<(u64, u32)>
    requires chunk { 1 ≤ chunk }
    requires fits { at + len < 2 ^ 64 }
    ensures { result ≡ cut_ranges_of at len chunk i }
{
    let Some(before) = i.checked_mul(u64::from(chunk)) else {
        return None;
    };
    if before >= len {
        return None;
    }
    let left = len - before;
    let size = if left < u64::from(chunk) {
        left as u32
    } else {
        chunk
    };
    Some((at + before, size))
}
