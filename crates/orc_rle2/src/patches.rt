//! Patches: they give values of a run the bits above its width.
ghost use Rattle.std.specs.Prelude.{◌≡◌, ◌+◌, ◌≤◌, ◌<◌, length, Some, None, MatchResult};
ghost use Rattle.outside.specs.declared.run_fault.RunFault.TheVariants.{PatchOutOfRun};
ghost use Rattle.orc_rle2.specs.Integers.{bits_in};
ghost use Rattle.orc_rle2.specs.Patches.{patched, gap_of, patch_of, only_moves, patched_value};

use outside::RunFault;

/// The widths in bits of a run's values, and of the gaps and the patches in its entries.
#[derive(Clone, Copy)]
pub struct Shape {
    pub values: u32,
    pub gaps: u32,
    pub patches: u32,
}

impl Shape {
    fn gap(self, entry: u64) -> u64
        requires patches { self.patches < 64 }
        requires gaps { self.gaps ≤ 8 }
        ensures value { result ≡ gap_of self entry }
        ensures small { result < 256 }
    {
        (entry >> self.patches) & ((1 << self.gaps) - 1)
    }

    fn patch(self, entry: u64) -> u64
        requires { self.patches < 64 }
        ensures { result ≡ patch_of self entry }
    {
        entry & ((1 << self.patches) - 1)
    }

    fn only_moves(self, entry: u64) -> bool
        requires patches { self.patches < 64 }
        requires gaps { self.gaps ≤ 8 }
        ensures { result ≡ only_moves self entry }
    {
        self.gap(entry) == 255 && self.patch(entry) == 0
    }
}

/// A value with a patch as the bits above its width. Bits past 64 are lost.
fn patched_value(width: u32, patch: u64, value: u64) -> u64
    requires { width ≤ 64 }
    ensures { result ≡ patched_value width patch value }
{
    if width == 64 {
        return value;
    }
    (value & ((1 << width) - 1)).wrapping_add(patch << width)
}

/// Patches the values, entry by entry. Entries and values are numbers of 64 bits.
///
/// Answers `PatchOutOfRun` at the first entry that patches a position past the values.
pub fn patch(shape: Shape, entries: &[i64], numbers: &mut [i64]) -> Result<(), RunFault>
    requires values { shape.values ≤ 64 }
    requires gaps { shape.gaps ≤ 8 }
    requires patches { 0 < length entries.now → shape.patches < 64 }
    requires few { length entries.now < 32 }
    ensures { MatchResult result
        (λ _. patched shape 0 (bits_in entries.now) (bits_in numbers.old) ≡ Some (bits_in numbers.new))
        (λ fault. (fault ≡ PatchOutOfRun) × (patched shape 0 (bits_in entries.now) (bits_in numbers.old) ≡ None)) }
{
    let mut position = 0;
    for entry in entries {
        let entry = entry.cast_unsigned();
        position += shape.gap(entry) as usize;
        if shape.only_moves(entry) {
            continue;
        }
        if position >= numbers.len() {
            return Err(RunFault::PatchOutOfRun);
        }
        let number = numbers[position].cast_unsigned();
        numbers[position] = patched_value(shape.values, shape.patch(entry), number).cast_signed();
    }
    Ok(())
}
