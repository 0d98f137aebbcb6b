//! The result of a fragment.
ghost use Rattle.std.specs.Prelude.{◌≡◌};
ghost use Rattle.kept_results.specs.Kept.{IsKept};

use fragment_outcome::Answer;
use fragment_plan::Plan;
use outside::World;
use std::marker::{Model, PhantomData};

/// The answer of a fragment of a plan, by its number.
///
/// Its type keeps that the fragment is one of the plan's, that the answer has the fragment's shape, and that, where the world
/// tells its files, it is what the fragment means. So whoever gets one from a queue or a lock knows it by its type alone, once its
/// plan and its fragment are compared.
#[derive(Drop)]
pub struct Kept<W: World> {
    /// The plan.
    pub plan: Plan,
    /// The number of the fragment.
    pub fragment: u32,
    /// Its answer.
    pub answer: Answer,
    pub(crate) world: PhantomData<W>,
}

impl<W: World> Model for Kept<W> {
    ghost use Rattle.kept_results.specs.Kept.{IsKept, KeptOf};

    ghost Value = { KeptOf };

    ghost view = { λ k. record { plan = k.plan; fragment = k.fragment; answer = k.answer } };

    ghost invariant = { λ k. IsKept W.files k.plan k.fragment k.answer };
}

impl<W: World> Kept<W> {
    /// The result of a fragment, which its type then keeps.
    pub fn new(plan: Plan, fragment: u32, answer: Answer) -> Kept<W>
        requires { IsKept W.files plan fragment answer }
        ensures { result ≡ (record { plan = plan; fragment = fragment; answer = answer }) }
    {
        Kept {
            plan,
            fragment,
            answer,
            world: PhantomData,
        }
    }

    /// The answer, lent.
    pub fn answer(&self) -> &Answer
        ensures same { result.now ≡ self.now.answer }
        ensures kept { IsKept W.files self.now.plan self.now.fragment result.now }
    {
        &self.answer
    }

    /// The answer.
    pub fn into_answer(self) -> Answer
        ensures same { result ≡ self.answer }
        ensures kept { IsKept W.files self.plan self.fragment result }
    {
        self.answer
    }
}
