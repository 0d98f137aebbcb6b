//! The command, as `clap` builds it.
ghost use Rattle.std.specs.Prelude.{◌≡◌, IfOk, false};
ghost use Rattle.clap.specs.Words.{app_of, rule_of, with_rule};
ghost use Rattle.command_line.specs.Command.{command, rule};

use clap::builder::ValueParser;
use clap::{Arg, ArgAction, Command};
use std::alloc::{AllocError, Global};

/// An option of that long name, which takes one number from `least` to `most`.
fn number_option<'a>(alloc: Global, name: &'a str, least: u32, most: u32) -> Arg<'a>
    ensures local { result.global ≡ false }
    ensures rule { rule_of result
        ≡ rule (record { name = name.entry.now; least = least; most = most; default = None }) }
{
    Arg::new(alloc, name)
        .long(name)
        .action(ArgAction::Set)
        .value_parser(ValueParser::signed(i64::from(least), i64::from(most)))
}

/// Adds an option that has a default.
fn with_number<'a>(
    alloc: Global,
    command: Command<'a>,
    name: &'a str,
    least: u32,
    most: u32,
    default: &'a str,
) -> Result<Command<'a>, AllocError>
    ensures { IfOk result (λ new. app_of new ≡ with_rule (app_of command.entry)
        (rule (record { name = name.entry.now; least = least; most = most; default = Some default.entry.now }))) }
{
    command.arg(number_option(alloc, name, least, most).default_value(default))
}

/// The command with its options. Its words have no program's name before them.
pub(crate) fn new_command<'a>(alloc: Global) -> Result<Command<'a>, AllocError>
    ensures { IfOk result (λ new. app_of new ≡ command) }
{
    let command = Command::new(alloc, "llapd").no_binary_name(true);
    let command = with_number(alloc, command, "min-block", 64, 65_536, "4096")?;
    let command = with_number(alloc, command, "arenas", 1, 64, "16")?;
    let command = with_number(alloc, command, "sets", 1, 4_096, "64")?;
    let command = with_number(alloc, command, "executors", 0, 16, "2")?;
    let command = with_number(alloc, command, "io", 0, 8, "2")?;
    let command = with_number(alloc, command, "room", 1, 1_000, "16")?;
    let command = with_number(alloc, command, "half-life", 0, 1_000_000, "1000")?;
    let command = command.arg(number_option(alloc, "gen", 0, 1_000_000))?;
    with_number(alloc, command, "rows", 0, 10_000_000, "1000")
}
