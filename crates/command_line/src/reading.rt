//! Reads words as the command's matches, and the matches as numbers.
ghost use Rattle.std.specs.Prelude.{◌≡◌, ◌⊎◌, ◌≢◌, IfOk, map, option_map, pos};
ghost use Rattle.clap.specs.Words.{kind_of};
ghost use Rattle.command_line.specs.Options.{AreFaulty};
ghost use Rattle.command_line.specs.Matches.{AreSpelled, HasNumber, HasNumbers, IsAbsent, Took, spelled};

use crate::command::new_command;
use crate::settings::{Options, WordsFault};
use clap::error::ErrorKind;
use clap::{ArgMatches, Error};
use std::alloc::Global;

/// What an error of a parse comes to: want of memory, or words that are no command line.
fn words_fault(error: &Error) -> WordsFault
    ensures memory { kind_of error.now ≡ ErrorKind.OutOfMemory → result ≡ WordsFault.NoMemory }
    ensures usage { kind_of error.now ≢ ErrorKind.OutOfMemory → result ≡ WordsFault.Usage }
{
    if error.kind() == ErrorKind::OutOfMemory {
        WordsFault::NoMemory
    } else {
        WordsFault::Usage
    }
}

/// Parses the words.
pub(crate) fn parsed<'a>(alloc: Global, words: &'a [&str]) -> Result<ArgMatches<'a>, WordsFault>
    ensures ok { IfOk result (Took (map (λ word. word.now) words.entry.now)) }
    ensures usage { result ≡ Err WordsFault.Usage → AreFaulty (map (λ word. word.now) words.entry.now) }
{
    let Ok(command) = new_command(alloc) else {
        return Err(WordsFault::NoMemory);
    };
    match command.try_get_matches_from(words) {
        Ok(matches) => Ok(matches),
        Err(error) => Err(words_fault(&error)),
    }
}

/// The number of an option, or none where it has no text.
fn number_given(matches: &ArgMatches<'_>, name: &str) -> Option<u32>
    requires { IsAbsent matches.now name.now ⊎ HasNumber matches.now name.now }
    ensures { spelled matches.now name.now ≡ option_map pos result }
{
    matches.get_one::<u32>(name)
}

/// The number of an option that has one.
fn number(matches: &ArgMatches<'_>, name: &str) -> u32
    requires { HasNumber matches.now name.now }
    ensures { spelled matches.now name.now ≡ Some (pos result) }
{
    number_given(matches, name).unwrap()
}

/// The options of a parse.
pub(crate) fn options_of(matches: &ArgMatches<'_>) -> Options
    requires { HasNumbers matches.now }
    ensures { AreSpelled matches.now result }
{
    Options {
        min_block: number(matches, "min-block"),
        arenas: number(matches, "arenas"),
        sets: number(matches, "sets"),
        executors: number(matches, "executors"),
        io: number(matches, "io"),
        room: number(matches, "room"),
        half_life: u64::from(number(matches, "half-life")),
        generated: number_given(matches, "gen"),
        rows: number(matches, "rows"),
    }
}
