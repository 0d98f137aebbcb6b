//! The name of a generated file.
ghost use Rattle.std.specs.Prelude.{◌≡◌, IfOk};
ghost use Rattle.generated_plan.specs.Text.{file_name};

use outside::{Name, NoMemory};
use std::alloc::Global;

/// The name of the generated file of that number and so many rows: `gen-N-M.orc`.
///
/// Answers `NoMemory` where memory was refused.
#[tactic(auto, unfolding(crate::specs::Text::file_name))]
pub fn file_name(alloc: Global, number: u32, rows: u32) -> Result<Name, NoMemory>
    ensures { IfOk result (λ name. name ≡ file_name number rows) }
{
    match format!(in alloc; "gen-{number}-{rows}.orc") {
        Ok(text) => Ok(Name::new(text)),
        Err(_) => Err(NoMemory),
    }
}
