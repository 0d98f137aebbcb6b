//! The line on a plan's fault.
ghost use Rattle.std.specs.Prelude.{◌≡◌, IfOk};
ghost use Rattle.data_path.specs.FaultLine.{in_line, fault_text};

use outside::{Bytes, NoMemory};
use plan_words::PlanKind;
use std::alloc::Global;

/// The line that names a line of a plan and what is wrong with it.
fn line_with(alloc: Global, line: u32, words: &str) -> Result<Bytes, NoMemory>
    ensures { IfOk result (λ text. text ≡ in_line line words.now) }
{
    match format!(in alloc; "plan line {line}: {words}\n") {
        Ok(text) => Ok(Bytes::new(text.into_bytes())),
        Err(_) => Err(NoMemory),
    }
}

/// The line on a plan's first fault, whole and with its end. Refuses only for want of memory.
pub fn fault_line(alloc: Global, line: u32, kind: PlanKind) -> Result<Bytes, NoMemory>
    ensures { IfOk result (λ text. text ≡ fault_text line kind) }
{
    match kind {
        PlanKind::TooLong => match b"plan too long\n".as_slice().to_vec(alloc) {
            Ok(text) => Ok(Bytes::new(text)),
            Err(_) => Err(NoMemory),
        },
        PlanKind::BadWord
        | PlanKind::BadName
        | PlanKind::UnknownFragment
        | PlanKind::ShapeDiffers
        | PlanKind::TooMany
        | PlanKind::BadLiteral => line_with(alloc, line, kind.words()),
    }
}
