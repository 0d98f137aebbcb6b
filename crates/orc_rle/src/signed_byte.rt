//! The steps of a repeated run.
ghost use Rattle.std.specs.Prelude.{◌≡◌, ◌^◌, ◌<◌};
ghost use Rattle.std.specs.Int.{cast_signed, w8, w64};

/// The 64 bits of a signed byte.
pub fn widened(delta: u8) -> u64
    ensures { cast_signed w64 result ≡ cast_signed w8 delta }
{
    let bits = u64::from(delta);
    if delta < 128 {
        bits
    } else {
        bits + (u64::MAX - 255)
    }
}
