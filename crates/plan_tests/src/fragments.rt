//! Plans that are read, each with its fragments spelled out, by the rules of the language, and the limits of a plan.
use crate::texts::all_hold;
use fragment_plan::{named_by, read_plan, width};
use std::alloc::Global;

/// The fragments of plans, or the first fault, and the plan.
const PLANS: &str = "\
good : # nothing||@
good : |
good[s sum 0 from t.orc x] : s sum x from t.orc
good[s sum 0 from t.orc x] : s sum x from t.orc@|
good[s sum 0 from t.orc x] : ^ s^sum^^x  from t.orc ^|# end
good[n count from t] : n count from t
good[a group 0 from t x] : a group x from t
good[a rows 0 from t from] : a rows from from t
good[a rows 0 1 0 from t x y z ? 2 null ? 1 eq 5] : a rows x,y,x from t where z is null and y = 5
good[a sum 0 from t x y ? 0 not null ? 1 null] : a sum x from t where x is not null and y is null
good[a count from t x ? 0 eq 0 ? 0 eq 0 ? 0 eq -7] : a count from t where x = -0 and x = 0 and x = -7
good[a count from t x ? 0 ge -9223372036854775808] : a count from t where x >= -9223372036854775808
good[a count from t x ? 0 le 9223372036854775807] : a count from t where x <= 9223372036854775807
good[a count from t x y ? 0 eq yes ? 1 ne no] : a count from t where x = true and y != false
good[a count from t x y ? 0 lt 1 ? 1 gt 2] : a count from t where x < 1 and y > 2
good[a count from t x y ? 0 eq text it's ? 1 ne text ] : a count from t where x = 'it''s' and y != ''
good[a count from t x y ? 0 eq text a ? 1 eq text b] : a count from t where x = 'a' and y = 'b'
good[a count from t x ? 0 eq text '] : a count from t where x = ''''
good[a count from t x ? 0 gt text a, b  c# true] : a count from t where x > 'a, b  c# true'^
good[where count from from][b count from after after 0] : where count from from|b count from after after where
good[a count from t][m merge 0 0] : a count from t|m merge a,a
good[a rows 0 0 from t x][b rows 0 1 from u y z][m merge 1 0 after 0] : a rows x,x from t|b rows y,z from u|m merge b,a after a
good[a sum 0 from t x][b merge 0][c sum 0 from t y][m merge 1 2 after 2 0] : a sum x from t|b merge a|c sum y from t|m merge b,c after c,a
1 unknown fragment : a count from t where x = 1 after b
good[a count from t][b count from t x ? 0 eq 1 after 0] : a count from t|b count from t where x = 1 after a";

/// Each limit, and one more: bytes and fragments of a plan, names of a list, columns, tests, bytes of a name; and 1,000 fragments of
/// which all but the first merge 64 names.
const SIZES: &str = "\
good : {16384:################################################################}
0 too long : {16384:################################################################}#
good{1000:[f~ count from t]} : {1000:f~ count from t|}
1001 too many : {1000:f~ count from t|}g what
1001 bad name : {1000:f~ count from t|}f7 what
1001 bad name : {1000:f~ count from t|}g$
good[a count from t][m merge{64: 0}] : a count from t|m merge {63:a,}a
2 too many : a count from t|m merge {64:a,}a q
2 unknown fragment : a count from t|m merge {64:a,}z
2 too many : a count from t|m merge a after {64:a,}a
good[r rows{64: 0} from t x] : r rows {63:x,}x from t
1 too many : r rows {64:x,}x from t
good[a count from t x{15: ? 0 eq 1} ? 0 null] : a count from t where {15:x = 1 and }x is null
1 too many : a count from t where {16:x = 1 and }x ?
1 bad name : a count from t where {16:x = 1 and }$ = 1
good[{64:a} count from t] : {64:a} count from t
1 bad name : {65:a} count from t
good[f0 count from t]{999:[f% merge 0 0 0 0 0 0 0 0 0 0 0 0 0 0 0 0 0 0 0 0 0 0 0 0 0 0 0 0 0 0 0 0 \
~ ~ ~ ~ ~ ~ ~ ~ ~ ~ ~ ~ ~ ~ ~ ~ ~ ~ ~ ~ ~ ~ ~ ~ ~ ~ ~ ~ ~ ~ ~ 0]} : \
f0 count from t|{999:f% merge f0,f0,f0,f0,f0,f0,f0,f0,f0,f0,f0,f0,f0,f0,f0,f0,f0,f0,f0,f0,f0,f0,f0,f0,f0,f0,f0,f0,f0,f0,f0,f0,\
f~,f~,f~,f~,f~,f~,f~,f~,f~,f~,f~,f~,f~,f~,f~,f~,f~,f~,f~,f~,f~,f~,f~,f~,f~,f~,f~,f~,f~,f~,f~,f0|}";

#[test]
fn plans_are_read(rt: HostRuntime) {
    assert!(rt; all_hold(rt.alloc(), PLANS));
    assert!(rt; all_hold(rt.alloc(), SIZES));
}

const WAITING: &[u8] =
    b"a sum x from t.orc\nz sum x from t.orc after a\ny rows x,y,x from t.orc\nm merge z,a after y";

/// The width of each fragment of that plan but the first, and places of a fragment with the fragment that it names there.
const WIDTHS: [u32; 3] = [1, 2, 0];

const NAMED: [(u32, u32, Option<u32>); 12] = [
    (0, 0, None),
    (0, 1, None),
    (0, 2, None),
    (0, 3, None),
    (1, 0, Some(0)),
    (1, 1, None),
    (1, 2, None),
    (1, 3, None),
    (3, 0, Some(1)),
    (3, 1, Some(0)),
    (3, 2, Some(2)),
    (3, 3, None),
];

fn widths_and_names(alloc: Global) -> Option<bool> {
    let plan = read_plan(alloc, WAITING).ok()?;
    if plan.fragments().len() != 4 {
        return None;
    }
    for (fragment, place, wanted) in &NAMED {
        if *fragment > 3 || named_by(&plan, *fragment, *place) != *wanted {
            return None;
        }
    }
    Some([width(&plan, 1), width(&plan, 2), width(&plan, 3)] == WIDTHS)
}

/// A merge behind two scans that wait for a third.
const MERGED: &[u8] =
    b"a sum x from t.orc\nz sum x from t.orc after a\ny sum x from t.orc after a\nm merge z,y\n";

/// Whether the merge has no column, and names the two scans.
fn merge_names(alloc: Global) -> Option<bool> {
    let plan = read_plan(alloc, MERGED).ok()?;
    if plan.fragments().len() != 4 {
        return None;
    }
    let named = [
        named_by(&plan, 3, 0),
        named_by(&plan, 3, 1),
        named_by(&plan, 3, 2),
    ];
    Some(width(&plan, 3) == 0 && named == [Some(1), Some(2), None])
}

#[test]
fn widths_and_named_fragments(rt: HostRuntime) {
    assert!(rt; widths_and_names(rt.alloc()) == Some(true));
    assert!(rt; merge_names(rt.alloc()) == Some(true));
}

fn sameness(alloc: Global) -> Option<bool> {
    let one = read_plan(alloc, b"a count from t where x = 'a'").ok()?;
    let two = read_plan(alloc, b"#\na  count from t where x = 'a' \n").ok()?;
    let three = read_plan(alloc, b"a count from t where x = 'b'").ok()?;
    Some(one.is_same(&two) && !one.is_same(&three))
}

#[test]
fn plans_are_compared_by_value(rt: HostRuntime) {
    assert!(rt; sameness(rt.alloc()) == Some(true));
}
