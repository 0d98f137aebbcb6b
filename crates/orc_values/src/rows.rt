//! Flags that are counted, and lengths that become ends.

ghost use Rattle.std.specs.Prelude.{◌≡◌, ◌<◌, ◌^◌, length, map, sum, unsigned_abs, All};
ghost use Rattle.std.specs.Int.{IsNonNegative};
ghost use Rattle.orc_values.specs.Woven.{present_count};
ghost use Rattle.orc_values.specs.Texts.{running_ends, AreEnds};

/// How many flags are set.
pub fn count_present(present: &[bool]) -> usize
    ensures { result ≡ present_count present.now }
{
    let mut count = 0;
    let mut left = present;
    while let Some((flags, behind)) = left.split_first_chunk::<128>() {
        count += usize::from(count_chunk(flags));
        left = behind;
    }
    count + count_each(left)
}

/// How many flags of a chunk are set: so few are counted in a byte, sixteen at once.
#[inline(always)]
fn count_chunk(flags: &[bool; 128]) -> u8
    ensures { result ≡ present_count flags.now }
{
    let mut count = 0;
    for flag in flags {
        count += u8::from(*flag);
    }
    count
}

/// Does what `count_present` does, flag by flag.
fn count_each(flags: &[bool]) -> usize
    ensures { result ≡ present_count flags.now }
{
    let mut count = 0;
    for flag in flags {
        count += usize::from(*flag);
    }
    count
}

/// Lays the ends of texts by their lengths, which are in bytes: each stands behind those before it.
pub fn lay_ends(lengths: &[i64], ends: &mut [usize])
    requires each { length lengths.now ≡ length ends.old }
    requires positive { All IsNonNegative lengths.now }
    requires fits { sum (map unsigned_abs lengths.now) < 2 ^ 64 }
    ensures ends { ends.new ≡ running_ends 0 (map unsigned_abs lengths.now) }
    ensures are_ends { AreEnds 0 ends.new (sum (map unsigned_abs lengths.now)) }
{
    let mut end = 0;
    for (text, place) in ends.iter_mut().enumerate() {
        end += lengths[text] as usize;
        *place = end;
    }
}
