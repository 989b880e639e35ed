//! The command line of `ndn_tool`: its subcommands with their arguments, options and help texts.
#![tactic(auto)]

mod argument;
mod command;
mod help;
mod subcommand;

pub use command::tool_command;
pub use subcommand::Subcommand;
