//! Reads the words of a command line as options.
ghost use Rattle.std.specs.Prelude.{◌≡◌, IfOk, map};
ghost use Rattle.command_line.specs.Options.{AreOptionsOf, AreRefused};

use crate::reading::{options_of, parsed};
use crate::settings::{Options, WordsFault};
use std::alloc::Global;

/// Reads the words after the program's name as options.
///
/// An option is `--NAME N` or `--NAME=N`, each at most once, in any order: what `clap` takes by its rule for simple
/// commands, so that a number may have a `+` and leading zeros. An option that isn't given has its default, by the table
/// of `specs/Command.antt`.
///
/// `Usage` exactly where `clap` refuses the words for another cause than memory, or `--min-block` is no power of two.
pub fn options(alloc: Global, words: &[&str]) -> Result<Options, WordsFault>
    ensures ok { IfOk result (AreOptionsOf (map (λ word. word.now) words.now)) }
    ensures usage { result ≡ Err WordsFault.Usage → AreRefused (map (λ word. word.now) words.now) }
{
    let matches = parsed(alloc, words)?;
    let options = options_of(&matches);
    if options.min_block.is_power_of_two() {
        Ok(options)
    } else {
        Err(WordsFault::Usage)
    }
}
