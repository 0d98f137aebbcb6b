//! The front of a run but short repeat: its form, its width and its length.
ghost use Rattle.std.specs.Prelude.{◌≡◌, ◌+◌, ◌-◌, ◌*◌, ◌/◌, ◌%◌, ◌<◌, ◌≤◌, [], ◌∷◌};

/// The two bytes in front of a run: two bits of the form, which stands in the highest bits of `form`, five of the width's code,
/// and nine of the length minus one.
///
/// Source: Apache ORC specification v1, "Integer Run Length Encoding, version 2".
pub(crate) fn header(form: u8, code: u32, len: usize) -> [u8; 2]
    requires form { form ≤ 192 }
    requires code { code < 32 }
    requires some { 0 < len }
    requires most { len ≤ 512 }
    ensures { result ≡ (form + 2 * code + (len - 1) / 256) ∷ (len - 1) % 256 ∷ [] }
{
    let less = len - 1;
    let first = form as usize + 2 * code as usize + less / 256;
    [first as u8, (less % 256) as u8]
}
