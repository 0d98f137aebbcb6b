//! The text of the plan over a generated file.
ghost use Rattle.std.specs.Prelude.{◌≡◌, ◌+◌, ◌++◌, ◌∷◌, [], ℕ, List, codes, string_bytes, IfOk, OnOk};
ghost use Rattle.std.specs.Fmt.{decimal};
ghost use Rattle.generated_plan.specs.Text.{generated_plan, text_of};

use crate::naming::file_name;
use outside::{Bytes, NoMemory};
use std::alloc::Global;

/// The plan that is run over the generated file of that number and so many rows: seven lines, one a fragment.
///
/// Answers `NoMemory` where memory was refused.
pub fn generated_plan(alloc: Global, number: u32, rows: u32) -> Result<Bytes, NoMemory>
    ensures { IfOk result (λ plan. plan ≡ generated_plan number rows) }
{
    let name = file_name(alloc, number, rows)?;
    let file = name.as_str();
    let thousand = below(
        alloc,
        " where even = true and id < ",
        u64::from(number) + 1000,
    )?;
    let three = below(alloc, " where id < ", u64::from(number) + 3)?;
    let mut text = Vec::new(alloc);
    add_line(&mut text, "n count from ", file, "")?;
    add_line(&mut text, "s sum id from ", file, "")?;
    add_line(&mut text, "q sum qty from ", file, "")?;
    add_line(&mut text, "m merge s,q", "", "")?;
    add_line(&mut text, "g group city from ", file, "")?;
    add_line(&mut text, "f count from ", file, thousand.as_str())?;
    add_line(&mut text, "r rows id,note from ", file, three.as_str())?;
    Ok(Bytes::new(text))
}

/// The tests of a line, which end with a number.
fn below(alloc: Global, tests: &str, number: u64) -> Result<String, NoMemory>
    ensures { IfOk result (λ text. string_bytes text ≡ tests.now ++ decimal number) }
{
    match format!(in alloc; "{tests}{number}") {
        Ok(text) => Ok(text),
        Err(_) => Err(NoMemory),
    }
}

/// Adds a line of three pieces.
fn add_line(text: &mut Vec<u8>, front: &str, file: &str, back: &str) -> Result<(), NoMemory>
    ensures { OnOk result ((lines : List (List ℕ)) → text.old.items ≡ text_of lines
        → text.new.items ≡ text_of (lines ++ (front.now ++ (file.now ++ back.now)) ∷ [])) }
{
    add(text, front)?;
    add(text, file)?;
    add(text, back)?;
    add(text, "\n")
}

/// Adds a piece.
fn add(text: &mut Vec<u8>, piece: &str) -> Result<(), NoMemory>
    ensures { OnOk result (text.new.items ≡ text.old.items ++ piece.now) }
{
    match text.extend_from_slice(piece.as_bytes()) {
        Ok(()) => Ok(()),
        Err(_) => Err(NoMemory),
    }
}
