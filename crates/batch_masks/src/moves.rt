//! The flags of the rows that have a value, one behind the other, as the values stand.
ghost use Rattle.std.specs.Prelude.{◌≡◌, length, take};
ghost use Rattle.orc_values.specs.Woven.{present_count};
ghost use Rattle.batch_masks.specs.Kept.{kept, scattered};

/// Moves the flags of the rows that have a value to the front: `count` of them.
pub(crate) fn gather(mask: &mut [bool], present: &[bool], count: usize)
    requires rows { length mask.old ≡ length present.now }
    requires count { count ≡ present_count present.now }
    ensures { take count mask.new ≡ kept present.now mask.old }
{
    if count == present.len() {
        return;
    }
    // The flags are cut to the mask's length, which is their own, so that one index alone is tested.
    let (cut, _) = present.split_at(mask.len());
    let mut used = 0;
    for row in 0..mask.len() {
        mask[used] = mask[row];
        used += usize::from(cut[row]);
    }
}

/// Moves the first `count` flags back to the rows that have a value, and lets no other row pass.
pub(crate) fn scatter(mask: &mut [bool], present: &[bool], count: usize)
    requires rows { length mask.old ≡ length present.now }
    requires count { count ≡ present_count present.now }
    ensures { mask.new ≡ scattered present.now (take count mask.old) }
{
    if count == present.len() {
        return;
    }
    // From the last row on, a flag goes to a row at or behind its place, so none that is still to be moved is lost.
    let (cut, _) = present.split_at(mask.len());
    let mut from = count;
    let mut row = mask.len();
    while row > 0 {
        row -= 1;
        from -= usize::from(cut[row]);
        mask[row] = mask[from] & cut[row];
    }
}
