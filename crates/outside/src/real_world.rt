ghost use Rattle.std.specs.Prelude.{◌≡◌, None};
ghost use Rattle.std.proofs.lemmas.Option.{none-some};

use crate::World;

/// The world of a real run, which tells nothing: what files, standard input and standard output hold is
/// outside of what can be proved.
#[derive(Clone, Copy)]
pub struct RealWorld;

impl World for RealWorld {
    ghost files = { None };

    ghost are_files = { λ told e. absurd (none-some told e) };
}
