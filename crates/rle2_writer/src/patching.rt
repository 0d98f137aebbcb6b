//! Whether patches make a run shorter, and which.
ghost use Rattle.std.specs.Prelude.{◌<◌, ◌≤◌, length, IfSome};

use crate::base::above;
use crate::sizes::{direct_bytes, packed_bytes};
use crate::widths::{code_for, least_width, width_of};

/// How the values of a run are patched: the base below them, and two widths by their codes, of what all have above the base and of
/// what a few have above that.
#[derive(Clone, Copy)]
pub(crate) struct Patching {
    /// The least of the values.
    pub(crate) base: i64,
    /// The width of the values above it.
    pub(crate) code: u32,
    /// The width of the patches.
    pub(crate) patch: u32,
}

/// The most patches of a run.
pub(crate) const MOST_PATCHES: usize = 31;

/// The bytes of a patched run in front of its packed values: at most so many.
const FRONT: usize = 12;

/// How these values are patched, where that takes fewer bytes than a direct run. At least one value has a patch then, since other
/// readers want that.
pub(crate) fn patching_for(signed: bool, values: &[i64]) -> Option<Patching>
    requires some { 0 < length values.now }
    requires most { length values.now ≤ 512 }
    ensures code { IfSome result (λ patching. patching.code < 31) }
    ensures patch { IfSome result (λ patching. patching.patch < 31) }
{
    let base = least_of(values);
    let (counts, most) = counts_above(&base, values);
    let code = best_code(&counts, most, values.len(), direct_bytes(signed, values))?;
    let patch = code_for(most >> width_of(code));
    if patch < 31 {
        return Some(Patching { base, code, patch });
    }
    None
}

/// The least of these values.
fn least_of(values: &[i64]) -> i64
    requires { 0 < length values.now }
{
    let mut least = values[0];
    for value in values {
        if *value < least {
            least = *value;
        }
    }
    least
}

/// How many numbers above a base have each width at least, by its code, and the greatest of them.
fn counts_above(base: &i64, values: &[i64]) -> ([usize; 32], u64) {
    let mut counts = [0usize; 32];
    let mut most = 0;
    for value in values {
        let number = above(base, value);
        let code = code_for(number) as usize;
        counts[code] = counts[code].saturating_add(1);
        if number > most {
            most = number;
        }
    }
    (counts, most)
}

/// The code with which a run of so many values takes the fewest bytes, and fewer than these.
fn best_code(counts: &[usize; 32], most: u64, len: usize, bytes: usize) -> Option<u32>
    requires { len ≤ 512 }
    ensures { IfSome result (λ code. code < 31) }
{
    let mut best = bytes;
    let mut found = None;
    let mut patches = 0usize;
    let mut code = 31u32;
    while code > 0 {
        patches = patches.saturating_add(counts[code as usize]);
        code -= 1;
        let size = patched_bytes(code, most, len, patches);
        if size < best {
            best = size;
            found = Some(code);
        }
    }
    found
}

/// The bytes of a patched run, about; more than a direct one has where it can't be.
fn patched_bytes(code: u32, most: u64, len: usize, patches: usize) -> usize
    requires code { code < 31 }
    requires len { len ≤ 512 }
{
    let patch = code_for(most >> width_of(code));
    if patches == 0 || patches > MOST_PATCHES || patch > 30 {
        return 5000;
    }
    let listed = least_width(8 + width_of(patch)) as usize;
    FRONT + packed_bytes(width_of(code) as usize, len) + packed_bytes(listed, patches)
}
