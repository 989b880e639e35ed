//! The command line of the program.

ghost use Rattle.std.specs.Prelude.{IfOk};
ghost use Rattle.ndn_command_line.specs.CommandLine.{HasApp, tool};

use crate::help;
use crate::subcommand::{Subcommand, with_subcommands};
use clap::Command;
use std::alloc::{AllocError, Global};

/// Returns the command line of the program, with all its subcommands and help texts.
pub fn tool_command<'a>(alloc: Global) -> Result<Command<'a>, AllocError>
    ensures { IfOk result (HasApp tool) }
{
    let command = Command::new(alloc, "ndn_tool")
        .about(help::ABOUT)
        .after_help(help::TOOL)
        .disable_help_subcommand(true)
        .subcommand_required(true)
        .arg_required_else_help(true)
        .version(help::VERSION);
    let subcommands = [
        Subcommand::Interest,
        Subcommand::Data,
        Subcommand::Command,
        Subcommand::Route,
        Subcommand::Strategy,
        Subcommand::Cache,
        Subcommand::Repository,
        Subcommand::Tag,
        Subcommand::Show,
        Subcommand::Explain,
        Subcommand::Send,
        Subcommand::Peek,
        Subcommand::Get,
        Subcommand::Put,
        Subcommand::Key,
    ];
    with_subcommands(alloc, command, &subcommands)
}
