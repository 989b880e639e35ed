//! The subcommands by name, with their arguments and their help texts.

ghost use Rattle.std.specs.Prelude.{map, IfOk};
ghost use Rattle.clap.specs.Simple.{App};
ghost use Rattle.ndn_command_line.specs.CommandLine.{HasApp, rule_for, a_subcommand, app_for, with_subcommands, interest_app, data_app, command_app, route_app, strategy_app, cache_app, repository_app, tag_app, show_app, explain_app, send_app, peek_app, get_app, put_app, key_app, stamped};

use crate::argument::{Argument, with_arguments};
use crate::help;
use clap::Command;
use std::alloc::{AllocError, Global};

/// A subcommand.
#[derive(Clone, Copy, Debug, PartialEq, Eq)]
pub enum Subcommand {
    Interest,
    Data,
    Command,
    Route,
    Strategy,
    Cache,
    Repository,
    Tag,
    Show,
    Explain,
    Send,
    Peek,
    Get,
    Put,
    Key,
}

impl Subcommand {
    ghost use Rattle.std.specs.Prelude.{◌≡◌, IfOk};
    ghost use Rattle.ndn_command_line.specs.CommandLine.{HasApp, app_for, subcommand_named};

    /// Returns the subcommand with this name, or `None` if there is none.
    pub fn named(word: &str) -> Option<Subcommand>
        ensures { result ≡ subcommand_named word.now }
    {
        match word {
            "interest" => Some(Subcommand::Interest),
            "data" => Some(Subcommand::Data),
            "command" => Some(Subcommand::Command),
            "route" => Some(Subcommand::Route),
            "strategy" => Some(Subcommand::Strategy),
            "cache" => Some(Subcommand::Cache),
            "repo" => Some(Subcommand::Repository),
            "tag" => Some(Subcommand::Tag),
            "show" => Some(Subcommand::Show),
            "explain" => Some(Subcommand::Explain),
            "send" => Some(Subcommand::Send),
            "peek" => Some(Subcommand::Peek),
            "get" => Some(Subcommand::Get),
            "put" => Some(Subcommand::Put),
            "key" => Some(Subcommand::Key),
            _ => None,
        }
    }

    /// Returns the subcommand as `clap` represents it.
    fn command<'a>(self, alloc: Global) -> Result<Command<'a>, AllocError>
        ensures { IfOk result (HasApp (app_for self)) }
    {
        match self {
            Subcommand::Interest => interest_command(alloc),
            Subcommand::Data => data_command(alloc),
            Subcommand::Command => command_command(alloc),
            Subcommand::Route => route_command(alloc),
            Subcommand::Strategy => strategy_command(alloc),
            Subcommand::Cache => cache_command(alloc),
            Subcommand::Repository => repository_command(alloc),
            Subcommand::Tag => tag_command(alloc),
            Subcommand::Show => show_command(alloc),
            Subcommand::Explain => explain_command(alloc),
            Subcommand::Send => send_command(alloc),
            Subcommand::Peek => peek_command(alloc),
            Subcommand::Get => get_command(alloc),
            Subcommand::Put => put_command(alloc),
            Subcommand::Key => key_command(alloc),
        }
    }
}

/// Adds these subcommands to a command, in order.
pub fn with_subcommands<'a>(
    alloc: Global,
    command: Command<'a>,
    subcommands: &[Subcommand],
) -> Result<Command<'a>, AllocError>
    ensures { (app : App) → HasApp app command.entry
        → IfOk result (HasApp (with_subcommands app (map app_for subcommands.now))) }
{
    let mut command = command;
    for subcommand in subcommands {
        command = command.subcommand(subcommand.command(alloc)?)?;
    }
    Ok(command)
}

/// Returns a subcommand with this name, these help texts and these arguments.
fn described<'a>(
    alloc: Global,
    name: &'a str,
    about: &'a str,
    after: &'a str,
    arguments: &[Argument<'a>],
) -> Result<Command<'a>, AllocError>
    ensures { IfOk result (HasApp (a_subcommand name.entry.now (map rule_for arguments.now))) }
{
    let command = Command::new(alloc, name).about(about).after_help(after);
    with_arguments(alloc, command, arguments)
}

fn interest_command<'a>(alloc: Global) -> Result<Command<'a>, AllocError>
    ensures { IfOk result (HasApp interest_app) }
{
    let arguments = [
        Argument::Positional("URI", "The name"),
        Argument::Required("nonce", "HEX", help::NONCE),
        Argument::Flag("can-be-prefix", help::CAN_BE_PREFIX),
        Argument::Flag("must-be-fresh", help::MUST_BE_FRESH),
        Argument::Optional("lifetime", "N", help::LIFETIME),
        Argument::Optional(
            "hop-limit",
            "N",
            "The HopLimit, at most 255; no limit if absent",
        ),
        Argument::Optional(
            "parameters",
            "HEX",
            "The parameters (ApplicationParameters)",
        ),
        Argument::Optional("time", "N", help::TIME),
        Argument::Optional("seq", "N", help::SEQ),
        Argument::Optional("keys", "FILE", help::KEYS),
        Argument::Optional("key", "URI", help::KEY),
        Argument::Optional("token", "HEX", "The PIT token, 1 to 32 octets"),
    ];
    let about = "Writes an Interest and prints it";
    described(alloc, "interest", about, help::INTEREST, &arguments)
}

fn data_command<'a>(alloc: Global) -> Result<Command<'a>, AllocError>
    ensures { IfOk result (HasApp data_app) }
{
    let arguments = [
        Argument::Positional("URI", "The name"),
        Argument::Optional("content", "HEX", "The Content"),
        Argument::Optional("freshness", "N", help::FRESHNESS),
        Argument::Optional("keys", "FILE", help::KEYS),
        Argument::Optional("key", "URI", help::KEY),
    ];
    let about = "Writes a Data and prints it";
    described(alloc, "data", about, help::DATA, &arguments)
}

fn command_command<'a>(alloc: Global) -> Result<Command<'a>, AllocError>
    ensures { IfOk result (HasApp command_app) }
{
    let arguments = [
        Argument::Positional("URI", "The name of the command, which ends with its verb"),
        Argument::Required("name", "URI", "The Name in the command's parameters"),
        Argument::Required("nonce", "HEX", help::NONCE),
        Argument::Required("time", "N", help::TIME),
        Argument::Optional("seq", "N", help::SEQ),
        Argument::Optional("face", "N", help::FACE),
        Argument::Optional("cost", "N", help::COST),
        Argument::Optional("strategy", "URI", "The name of a strategy"),
        Argument::Optional("flags", "N", help::FLAGS),
        Argument::Optional("expires", "MILLISECONDS", help::EXPIRES),
        Argument::Optional("origin", "N", help::ORIGIN),
        Argument::Optional("count", "N", help::COUNT),
        Argument::Optional("lifetime", "N", help::WAIT),
        Argument::Flag("can-be-prefix", help::CAN_BE_PREFIX),
        Argument::Optional("keys", "FILE", help::KEYS),
        Argument::Optional("key", "URI", help::KEY),
    ];
    let about = "Writes a command and prints it";
    described(alloc, "command", about, help::COMMAND, &arguments)
}

fn route_command<'a>(alloc: Global) -> Result<Command<'a>, AllocError>
    ensures { IfOk result (HasApp route_app) }
{
    let arguments = [
        Argument::Positional("VERB", "add, remove, list, register or unregister"),
        Argument::MaybePositional("PREFIX", "The name prefix of the next hop or route"),
        Argument::Optional("face", "N", help::FACE),
        Argument::Optional("cost", "N", help::COST),
        Argument::Optional("flags", "N", help::FLAGS),
        Argument::Optional("expires", "MILLISECONDS", help::EXPIRES),
        Argument::Optional("origin", "N", help::ORIGIN),
    ];
    let about = "Writes or sends a command for routes, or asks for the list of routes";
    let command = described(alloc, "route", about, help::ROUTE, &arguments)?;
    with_stamp(alloc, command)
}

fn strategy_command<'a>(alloc: Global) -> Result<Command<'a>, AllocError>
    ensures { IfOk result (HasApp strategy_app) }
{
    let arguments = [
        Argument::Positional("VERB", "set, unset or list"),
        Argument::MaybePositional("PREFIX", "The name prefix of the strategy"),
        Argument::MaybePositional("STRATEGY", "The strategy"),
    ];
    let about = "Writes or sends a command for strategies, or asks for the list of strategies";
    let command = described(alloc, "strategy", about, help::STRATEGY, &arguments)?;
    with_stamp(alloc, command)
}

fn cache_command<'a>(alloc: Global) -> Result<Command<'a>, AllocError>
    ensures { IfOk result (HasApp cache_app) }
{
    let arguments = [
        Argument::Positional("VERB", "erase"),
        Argument::Positional("PREFIX", "The name prefix of the Data"),
        Argument::Optional("count", "N", help::COUNT),
    ];
    let about = "Writes or sends a command that erases Data from the cache";
    let command = described(alloc, "cache", about, help::CACHE, &arguments)?;
    with_stamp(alloc, command)
}

fn repository_command<'a>(alloc: Global) -> Result<Command<'a>, AllocError>
    ensures { IfOk result (HasApp repository_app) }
{
    let arguments = [
        Argument::Positional("VERB", "insert, delete or check"),
        Argument::Positional("PREFIX", "The prefix of the repository"),
        Argument::Positional("NAME", "The name of the Data"),
        Argument::Flag("can-be-prefix", help::CAN_BE_PREFIX),
        Argument::Optional("lifetime", "N", help::WAIT),
    ];
    let about = "Writes or sends a command that inserts, deletes or checks Data in a repository";
    let command = described(alloc, "repo", about, help::REPOSITORY, &arguments)?;
    with_stamp(alloc, command)
}

fn tag_command<'a>(alloc: Global) -> Result<Command<'a>, AllocError>
    ensures { IfOk result (HasApp tag_app) }
{
    let arguments = [
        Argument::Positional("HEX", "The octets"),
        Argument::Required("keys", "FILE", help::KEYS),
        Argument::Required("key", "URI", "The name of the key"),
    ];
    let about = "Computes and prints the HMAC-SHA256 of octets";
    described(alloc, "tag", about, help::TAG, &arguments)
}

fn show_command<'a>(alloc: Global) -> Result<Command<'a>, AllocError>
    ensures { IfOk result (HasApp show_app) }
{
    let arguments = [Argument::Positional("HEX", "The packet, alone or in a link packet")];
    let about = "Shows the fields of a packet";
    described(alloc, "show", about, help::SHOW, &arguments)
}

fn explain_command<'a>(alloc: Global) -> Result<Command<'a>, AllocError>
    ensures { IfOk result (HasApp explain_app) }
{
    let arguments = [
        Argument::Positional(
            "HEX",
            "The packet, or - to explain the packets of standard input",
        ),
        Argument::Optional("keys", "FILE", "The key file for checking the signature"),
    ];
    let about = "Explains a packet";
    described(alloc, "explain", about, help::EXPLAIN, &arguments)
}

fn send_command<'a>(alloc: Global) -> Result<Command<'a>, AllocError>
    ensures { IfOk result (HasApp send_app) }
{
    let arguments = [
        Argument::Positional("HEX", "The octets, or - to read them from standard input"),
        Argument::Required("to", "ENDPOINT", help::TO),
        Argument::Optional("from", "PORT", help::FROM),
        Argument::Optional("timeout", "MILLISECONDS", help::TIMEOUT),
    ];
    let about = "Sends octets to a node and prints the answer";
    described(alloc, "send", about, help::SEND, &arguments)
}

fn peek_command<'a>(alloc: Global) -> Result<Command<'a>, AllocError>
    ensures { IfOk result (HasApp peek_app) }
{
    let arguments = [
        Argument::Positional("URI", "The name"),
        Argument::Flag("can-be-prefix", help::CAN_BE_PREFIX),
        Argument::Flag("must-be-fresh", help::MUST_BE_FRESH),
        Argument::Optional("lifetime", "N", help::LIFETIME),
        Argument::Optional("nonce", "HEX", help::NONCE),
        Argument::Flag("raw", "Prints only the Content, unchanged"),
        Argument::Optional("to", "ENDPOINT", help::TO),
        Argument::Optional("from", "PORT", help::FROM),
        Argument::Optional("timeout", "MILLISECONDS", help::PEEK_TIMEOUT),
        Argument::Optional("retries", "N", help::RETRIES),
        Argument::Optional("keys", "FILE", "The key file for checking the signature"),
        Argument::Flag("unverified", "Also prints a Data with a wrong signature"),
    ];
    let about = "Writes an Interest; with --to, sends it and explains the answer";
    described(alloc, "peek", about, help::PEEK, &arguments)
}

fn get_command<'a>(alloc: Global) -> Result<Command<'a>, AllocError>
    ensures { IfOk result (HasApp get_app) }
{
    let arguments = [
        Argument::Positional("URI", "The name of the file, with or without its version"),
        Argument::Required("to", "ENDPOINT", help::TO),
        Argument::Optional("from", "PORT", help::FROM),
        Argument::Optional("output", "FILE", "Writes FILE instead of standard output"),
        Argument::Optional("lifetime", "N", help::LIFETIME),
        Argument::Optional("retries", "N", help::GET_RETRIES),
        Argument::Optional("keys", "FILE", "The key file for checking signatures"),
    ];
    let about = "Fetches a file, which is Data in segments";
    described(alloc, "get", about, help::GET, &arguments)
}

fn put_command<'a>(alloc: Global) -> Result<Command<'a>, AllocError>
    ensures { IfOk result (HasApp put_app) }
{
    let arguments = [
        Argument::Positional("FILE", "The file to store"),
        Argument::Positional("URI", "The name of the file, with or without its version"),
        Argument::Required("repo", "URI", "The prefix of the repository"),
        Argument::Required("to", "ENDPOINT", help::TO),
        Argument::Optional("from", "PORT", help::FROM),
        Argument::Optional("freshness", "N", help::FRESHNESS),
        Argument::Optional("retries", "N", help::PUT_RETRIES),
        Argument::Optional("keys", "FILE", help::KEYS),
        Argument::Optional("key", "URI", help::KEY),
    ];
    let about = "Stores a file in a repository, in segments";
    described(alloc, "put", about, help::PUT, &arguments)
}

fn key_command<'a>(alloc: Global) -> Result<Command<'a>, AllocError>
    ensures { IfOk result (HasApp key_app) }
{
    let arguments = [
        Argument::Positional("VERB", "show"),
        Argument::Positional("FILE", "The file of the certificate"),
    ];
    let about = "Shows the public key of a certificate as lines of a key file";
    described(alloc, "key", about, help::KEY_COMMAND, &arguments)
}

/// Adds the options of a stamp to a command: time, Nonce, sequence number, key, ports and timeout.
fn with_stamp<'a>(alloc: Global, command: Command<'a>) -> Result<Command<'a>, AllocError>
    ensures { (app : App) → HasApp app command.entry → IfOk result (HasApp (stamped app)) }
{
    let arguments = [
        Argument::Optional("time", "N", help::TIME),
        Argument::Optional("nonce", "HEX", help::NONCE),
        Argument::Optional("seq", "N", help::SEQ),
        Argument::Optional("keys", "FILE", help::KEYS),
        Argument::Optional("key", "URI", help::KEY),
        Argument::Optional("send", "ENDPOINT", help::SEND_TO),
        Argument::Optional("from", "PORT", help::FROM),
        Argument::Optional("timeout", "MILLISECONDS", help::TIMEOUT),
    ];
    with_arguments(alloc, command, &arguments)
}
