//! Entries: what numbers have above a width.
ghost use Rattle.std.specs.Prelude.{◌≡◌, ◌+◌, ◌*◌, ◌/◌, ◌%◌, ◌^◌, ◌<◌, ◌≤◌, length, map, take, IfSome};
ghost use Rattle.rle2_writer.specs.Entries.{Entries};

/// Writes the entries of numbers to `into`, and answers how many they are: none where there are more than `into` has room for, one
/// has more above the width than `patches` bits, or one stands more than 255 values behind the one before.
///
/// A gap is given that lies in front of the numbers.
///
/// Source: Apache ORC specification v1, "Integer Run Length Encoding, version 2", patched base.
pub(crate) fn write_entries(
    width: u32,
    patches: u32,
    gap: u64,
    numbers: &[u64],
    into: &mut [u64],
) -> Option<usize>
    requires width { width < 64 }
    requires patches { patches ≤ 56 }
    requires gap { gap + length numbers.now ≤ 1000 }
    ensures within { IfSome result (λ count. count ≤ length into.old) }
    ensures entries { IfSome result (λ count. Entries width patches gap numbers.now (take count into.new)) }
{
    let Some((number, others)) = numbers.split_first() else {
        return Some(0);
    };
    let patch = *number >> width;
    if patch == 0 {
        return write_entries(width, patches, gap + 1, others, into);
    }
    if gap > 255 || patch >> patches != 0 {
        return None;
    }
    let Some((first, more)) = into.split_first_mut() else {
        return None;
    };
    *first = entry(gap, patches, patch);
    match write_entries(width, patches, 1, others, more) {
        Some(count) => Some(count + 1),
        None => None,
    }
}

/// One entry: a gap, and a patch below it.
fn entry(gap: u64, patches: u32, patch: u64) -> u64
    requires gap { gap < 256 }
    requires patches { patches ≤ 56 }
    requires patch { patch < 2 ^ patches }
    ensures { result ≡ gap * 2 ^ patches + patch }
{
    (gap << patches) + patch
}

/// Writes the lowest bits of numbers to `into`, which has room for just these.
pub(crate) fn write_low(width: u32, numbers: &[u64], into: &mut [u64])
    requires width { width < 64 }
    requires room { length into.old ≡ length numbers.now }
    ensures { into.new ≡ map (λ number. number % 2 ^ width) numbers.now }
{
    for (i, number) in numbers.iter().enumerate() {
        into[i] = low_bits(width, *number);
    }
}

/// The lowest bits of a number.
fn low_bits(width: u32, number: u64) -> u64
    requires { width < 64 }
    ensures { result ≡ number % 2 ^ width }
{
    number - ((number >> width) << width)
}
