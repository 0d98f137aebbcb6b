//! The fragments that were read so far.

ghost use Rattle.std.specs.Prelude.{◌≡◌, ◌++◌, ◌∷◌, [], Ok};
ghost use Rattle.plan_words.specs.Steps.{GivesOr};
ghost use Rattle.fragment_plan.specs.Plan.{with_line};

use crate::earlier::Earlier;
use crate::fragment::Fragment;
use crate::line::read_line;
use crate::shape::work_shape;
use plan_words::Stop;
use std::alloc::Global;
use std::marker::Model;

/// The fragments of the lines so far, with what later lines need of them.
///
/// Contracts see it as the list of the fragments.
#[derive(Drop)]
pub(crate) struct Fragments<'a> {
    list: Vec<Fragment>,
    earlier: Earlier<'a>,
}

impl<'a> Model for Fragments<'a> {
    ghost use Rattle.std.specs.Prelude.{List, ◌≡◌};
    ghost use Rattle.fragment_plan.specs.declared.fragment.Fragment.{Fragment};
    ghost use Rattle.fragment_plan.specs.Fragments.{names_of};
    ghost use Rattle.fragment_plan.specs.Shapes.{shapes_of};

    ghost Value = { List Fragment };

    ghost view = { λ f. f.list.items };

    ghost invariant = { λ f. f.earlier ≡ (names_of f.list.items, shapes_of f.list.items) };
}

/// The list with a fragment more. Refuses only for want of memory.
fn with_fragment(list: Vec<Fragment>, fragment: Fragment) -> Result<Vec<Fragment>, Stop>
    ensures { GivesOr (λ v. v.items) result (Ok (list.items ++ fragment ∷ [])) }
{
    let mut list = list;
    list.push(fragment)?;
    Ok(list)
}

impl<'a> Fragments<'a> {
    /// None yet.
    pub(crate) fn new(alloc: Global) -> Fragments<'a>
        ensures { result ≡ [] }
    {
        Fragments {
            list: Vec::new(alloc),
            earlier: Earlier::new(alloc),
        }
    }

    /// The fragments with that of one line more, which is no comment. A refusal leaves nothing.
    pub(crate) fn with_line(self, alloc: Global, text: &'a [u8]) -> Result<Fragments<'a>, Stop>
        ensures { GivesOr (λ fragments. fragments) result (with_line self.entry text.now) }
    {
        let Fragments { list, earlier } = self;
        let (name, fragment) = read_line(alloc, earlier.names(), earlier.shapes(), text)?;
        let shape = work_shape(earlier.shapes(), &fragment.work);
        let earlier = earlier.with(name, shape)?;
        let list = with_fragment(list, fragment)?;
        Ok(Fragments { list, earlier })
    }

    /// The list of them.
    pub(crate) fn into_vec(self) -> Vec<Fragment>
        ensures { result.items ≡ self.entry }
    {
        let Fragments { list, .. } = self;
        list
    }
}
