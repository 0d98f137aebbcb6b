//! Runs of equal steps.
ghost use Rattle.std.specs.Prelude.{◌≡◌, length, replicate};
ghost use Rattle.std.specs.Int.{cast_signed, w64};
ghost use Rattle.orc_integers.specs.Integers.{ramp};

/// Fills `into` with the values from a base on, each a delta above the one before. Base and delta are given as
/// their 64 bits.
pub fn write_ramp(base: u64, delta: u64, into: &mut [i64])
    ensures { into.new ≡ ramp (cast_signed w64 base) (cast_signed w64 delta) (length into.old) }
{
    let mut next = base;
    for value in into.iter_mut() {
        *value = next.cast_signed();
        next = next.wrapping_add(delta);
    }
}

/// Fills `into` with the value of these 64 bits.
pub fn write_copies(value: u64, into: &mut [i64])
    ensures { into.new ≡ replicate (length into.old) (cast_signed w64 value) }
{
    into.fill(value.cast_signed());
}
