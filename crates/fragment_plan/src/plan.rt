//! A plan.

ghost use Rattle.std.specs.Prelude.{◌≡◌, ◌↔◌, IsTrue, IfOk};
ghost use Rattle.fragment_plan.specs.Bounds.{WasRead, AllInBounds};

use crate::fragment::Fragment;
use crate::same::are_same;
use outside::NoMemory;
use std::marker::Model;
use std::sync::ArcSlice;

/// A plan: a handle on a shared list of fragments, which are numbered from 0.
///
/// Contracts see it as the list of them.
#[derive(Drop)]
pub struct Plan {
    fragments: ArcSlice<Fragment>,
}

impl Model for Plan {
    ghost use Rattle.std.specs.Prelude.{List};
    ghost use Rattle.std.specs.Arc.{arc_slice_items};
    ghost use Rattle.fragment_plan.specs.declared.fragment.Fragment.{Fragment};
    ghost use Rattle.fragment_plan.specs.Bounds.{WasRead};

    ghost Value = { List Fragment };

    ghost view = { λ plan. arc_slice_items plan.fragments };

    ghost invariant = { λ plan. WasRead (arc_slice_items plan.fragments) };
}

impl Plan {
    /// The plan of these fragments. Refuses only for want of memory.
    pub(crate) fn new(fragments: Vec<Fragment>) -> Result<Plan, NoMemory>
        requires { WasRead fragments.items }
        ensures { IfOk result (λ plan. plan ≡ fragments.items) }
    {
        match ArcSlice::from_vec(fragments) {
            Ok(fragments) => Ok(Plan { fragments }),
            Err(_) => Err(NoMemory),
        }
    }

    /// Another handle on the same list. Refuses only for want of memory.
    pub fn again(&self) -> Result<Plan, NoMemory>
        ensures { IfOk result (λ plan. plan ≡ self.now) }
    {
        match self.fragments.clone() {
            Ok(fragments) => Ok(Plan { fragments }),
            Err(_) => Err(NoMemory),
        }
    }

    /// The fragments, lent.
    ///
    /// Some bytes are read as this plan, so its numbers lie in bounds: a scan has at most 16 columns, places lie
    /// among them, and a fragment names earlier ones.
    pub fn fragments(&self) -> &[Fragment]
        ensures list { result.now ≡ self.now }
        ensures read { WasRead self.now }
        ensures bounds { AllInBounds self.now }
    {
        self.fragments.as_slice()
    }

    /// Whether both plans have the same fragments in the same order. It takes no memory.
    pub fn is_same(&self, other: &Plan) -> bool
        ensures { IsTrue result ↔ (self.now ≡ other.now) }
    {
        are_same(self.fragments(), other.fragments())
    }
}
