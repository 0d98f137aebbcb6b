//! What a fragment reads and names.

ghost use Rattle.std.specs.Prelude.{◌≡◌, ◌<◌, length, slice_get, option_map, IfSome};
ghost use Rattle.fragment_plan.specs.Bounds.{width_of, named_of};

use crate::fragment::Work;
use crate::plan::Plan;

/// How many distinct columns a fragment reads; 0 for a merge. The fragment is below the plan's length.
pub fn width(plan: &Plan, fragment: u32) -> u32
    requires { fragment < length plan.now }
    ensures { IfSome (slice_get plan.now fragment) (λ f. result ≡ width_of f.work) }
{
    match &plan.fragments()[fragment as usize].work {
        Work::Scan(scan) => scan.columns.as_slice().len() as u32,
        Work::Merge(_) => 0,
    }
}

/// The fragment that is named at place `i` of those that a fragment's merge, then its `after`, names, counted from
/// 0; None exactly past their end. The fragment is below the plan's length.
pub fn named_by(plan: &Plan, fragment: u32, i: u32) -> Option<u32>
    requires { fragment < length plan.now }
    ensures { IfSome (slice_get plan.now fragment) (λ f. result ≡ slice_get (named_of f) i) }
{
    let fragment = &plan.fragments()[fragment as usize];
    let sources: &[u32] = match &fragment.work {
        Work::Scan(_) => &[],
        Work::Merge(sources) => sources.as_slice(),
    };
    let i = i as usize;
    if i < sources.len() {
        return Some(sources[i]);
    }
    fragment.after.as_slice().get(i - sources.len()).copied()
}
