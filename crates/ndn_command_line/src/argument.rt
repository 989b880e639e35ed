//! The arguments of the subcommands, as data.

ghost use Rattle.std.specs.Prelude.{map, IfOk};
ghost use Rattle.clap.specs.Simple.{App};
ghost use Rattle.ndn_command_line.specs.CommandLine.{HasApp, HasRule, a_positional, an_optional_positional, an_option, a_required_option, a_flag, rule_for, with_rules};

use clap::{Arg, ArgAction, Command};
use std::alloc::{AllocError, Global};

/// An argument: its id, the placeholder for its value (if the argument is an option with a value),
/// and its help text. The id of an option or a flag is its long name.
#[derive(Clone, Copy)]
pub enum Argument<'a> {
    /// A positional argument that is required.
    Positional(&'a str, &'a str),
    /// A positional argument that is optional.
    MaybePositional(&'a str, &'a str),
    /// An option with a value.
    Optional(&'a str, &'a str, &'a str),
    /// A required option with a value.
    Required(&'a str, &'a str, &'a str),
    /// An option without a value.
    Flag(&'a str, &'a str),
}

/// Adds these arguments to a command, in order.
pub fn with_arguments<'a>(
    alloc: Global,
    command: Command<'a>,
    arguments: &[Argument<'a>],
) -> Result<Command<'a>, AllocError>
    ensures { (app : App) → HasApp app command.entry
        → IfOk result (HasApp (with_rules app (map rule_for arguments.now))) }
{
    let mut command = command;
    for argument in arguments {
        command = command.arg(built(alloc, *argument))?;
    }
    Ok(command)
}

/// Returns the argument as `clap` represents it.
fn built<'a>(alloc: Global, argument: Argument<'a>) -> Arg<'a>
    ensures { HasRule (rule_for argument.entry) result }
{
    match argument {
        Argument::Positional(id, help) => positional(alloc, id, help),
        Argument::MaybePositional(id, help) => maybe_positional(alloc, id, help),
        Argument::Optional(id, value, help) => option(alloc, id, value, help),
        Argument::Required(id, value, help) => required_option(alloc, id, value, help),
        Argument::Flag(id, help) => flag(alloc, id, help),
    }
}

fn positional<'a>(alloc: Global, id: &'a str, help: &'a str) -> Arg<'a>
    ensures { HasRule (a_positional id.entry.now) result }
{
    Arg::new(alloc, id).required(true).help(help)
}

fn maybe_positional<'a>(alloc: Global, id: &'a str, help: &'a str) -> Arg<'a>
    ensures { HasRule (an_optional_positional id.entry.now) result }
{
    Arg::new(alloc, id).help(help)
}

fn required_option<'a>(alloc: Global, id: &'a str, value: &'a str, help: &'a str) -> Arg<'a>
    ensures { HasRule (a_required_option id.entry.now) result }
{
    option(alloc, id, value, help).required(true)
}

fn option<'a>(alloc: Global, id: &'a str, value: &'a str, help: &'a str) -> Arg<'a>
    ensures { HasRule (an_option id.entry.now) result }
{
    Arg::new(alloc, id).long(id).value_name(value).help(help)
}

fn flag<'a>(alloc: Global, id: &'a str, help: &'a str) -> Arg<'a>
    ensures { HasRule (a_flag id.entry.now) result }
{
    Arg::new(alloc, id)
        .long(id)
        .action(ArgAction::SetTrue)
        .help(help)
}
