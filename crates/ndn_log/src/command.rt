//! The texts for allowed commands.

ghost use Rattle.std.specs.Prelude.{◌≡◌, ◌-◌, ◌++◌, OnOk, length, take};
ghost use Rattle.std.specs.Option.{option_map};
ghost use Rattle.ndn_names.specs.View.{components};
ghost use Rattle.mgmt_core.specs.Reading.{asked, command_at};
ghost use Rattle.repo_core.specs.Commands.{verb_row};
ghost use Rattle.repo_core.specs.Reading.{plain, repo_command_at};
ghost use Rattle.ndn_log.specs.Command.{action_words, command_words, count_words, expires_words, hop_words, is_unread, lifetime_words, number_words, parameter_words, prefix_words, read_words, repo_words, repository_words, route_words, strategy_words, tables_words, unread_words};

use crate::packet::put_name;
use crate::words::put_word;
use mgmt_core::{Action, Command};
use ndn_names::Name;
use ndn_tlv::Memory;
use repo_core::{Asked, Verb, command_in};
use std::io::Write;

/// The status of the reply to a command whose parameters cannot be read.
const BAD_PARAMETERS: u16 = 400;

/// The status of the reply to a command that does not exist.
const UNKNOWN_COMMAND: u16 = 501;

/// Appends a command with this name, to which the node replies with this status: what the command
/// asks for, with its parameters, or the word `command` and the name, if the node could not read
/// the command. Names are cut at 200 characters. If memory runs out, some of the text may be
/// appended.
pub fn put_command(text: &mut Vec<u8>, status: u16, name: Name<'_>) -> Result<(), Memory>
    ensures { OnOk result (text.new.items ≡ text.old.items
        ++ command_words status (components name.entry)) }
{
    if is_unread(status) {
        return put_unread(text, name);
    }
    put_read(text, name)
}

fn is_unread(status: u16) -> bool
    ensures { result ≡ is_unread status }
{
    status == BAD_PARAMETERS || status == UNKNOWN_COMMAND
}

fn put_unread(text: &mut Vec<u8>, name: Name<'_>) -> Result<(), Memory>
    ensures { OnOk result (text.new.items ≡ text.old.items
        ++ unread_words (components name.entry)) }
{
    put_word(text, "command ")?;
    put_name(text, name)
}

fn put_read(text: &mut Vec<u8>, name: Name<'_>) -> Result<(), Memory>
    ensures { OnOk result (text.new.items ≡ text.old.items
        ++ read_words (components name.entry) (command_at (components name.entry))) }
{
    match Command::read(name) {
        Ok(command) => put_tables(text, &command),
        Err(_) => put_repository(text, name),
    }
}

// ---- commands on routes, strategies and the cache

fn put_tables(text: &mut Vec<u8>, command: &Command<'_>) -> Result<(), Memory>
    ensures { OnOk result (text.new.items ≡ text.old.items ++ tables_words (asked command.now)) }
{
    put_word(text, action_words(command.action))?;
    put_name(text, command.name)?;
    put_parameters(text, command)
}

fn action_words(action: Action) -> &'static str
    ensures { result.now ≡ action_words action }
{
    match action {
        Action::AddNexthop => "route add ",
        Action::RemoveNexthop => "route remove ",
        Action::Register => "route register ",
        Action::Unregister => "route unregister ",
        Action::SetStrategy => "strategy set ",
        Action::UnsetStrategy => "strategy unset ",
        Action::EraseCache => "cache erase ",
    }
}

/// Appends the parameters of a command, except its name.
fn put_parameters(text: &mut Vec<u8>, command: &Command<'_>) -> Result<(), Memory>
    ensures { OnOk result (text.new.items ≡ text.old.items
        ++ parameter_words command.now.action (asked command.now)) }
{
    match command.action {
        Action::AddNexthop => put_hop(text, command.face, " cost ", command.cost),
        Action::RemoveNexthop => put_face(text, command.face),
        Action::Register => put_registered(text, command),
        Action::Unregister => put_hop(text, command.face, " origin ", command.origin),
        Action::SetStrategy => put_strategy(text, command.strategy),
        Action::UnsetStrategy => Ok(()),
        Action::EraseCache => put_count(text, command.count),
    }
}

/// Appends a face, a word and a number.
fn put_hop(text: &mut Vec<u8>, face: u64, word: &str, number: u64) -> Result<(), Memory>
    ensures { OnOk result (text.new.items ≡ text.old.items
        ++ (hop_words face ++ number_words word.now number)) }
{
    put_face(text, face)?;
    put_number(text, word, number)
}

fn put_number(text: &mut Vec<u8>, word: &str, number: u64) -> Result<(), Memory>
    ensures { OnOk result (text.new.items ≡ text.old.items ++ number_words word.now number) }
{
    write!(text, "{word}{number}").map_err(|_| Memory)
}

/// Appends a face. 0 stands for the face that the command came from.
fn put_face(text: &mut Vec<u8>, face: u64) -> Result<(), Memory>
    ensures { OnOk result (text.new.items ≡ text.old.items ++ hop_words face) }
{
    if face == 0 {
        return put_word(text, " face itself");
    }
    write!(text, " face {face}").map_err(|_| Memory)
}

/// Appends the parameters of a registered route.
fn put_registered(text: &mut Vec<u8>, command: &Command<'_>) -> Result<(), Memory>
    ensures { OnOk result (text.new.items ≡ text.old.items
        ++ parameter_words Action.Register (asked command.now)) }
{
    put_hop(text, command.face, " origin ", command.origin)?;
    put_route(text, command)
}

/// Appends the cost, flags and lifetime of a registered route.
fn put_route(text: &mut Vec<u8>, command: &Command<'_>) -> Result<(), Memory>
    ensures { OnOk result (text.new.items ≡ text.old.items ++ route_words (asked command.now)) }
{
    put_number(text, " cost ", command.cost)?;
    put_number(text, " flags ", command.flags)?;
    put_expires(text, command.expires)
}

fn put_expires(text: &mut Vec<u8>, expires: Option<u64>) -> Result<(), Memory>
    ensures { OnOk result (text.new.items ≡ text.old.items ++ expires_words expires) }
{
    match expires {
        Some(expires) => write!(text, " expires {expires}").map_err(|_| Memory),
        None => Ok(()),
    }
}

fn put_count(text: &mut Vec<u8>, count: Option<u64>) -> Result<(), Memory>
    ensures { OnOk result (text.new.items ≡ text.old.items ++ count_words count) }
{
    match count {
        Some(count) => write!(text, " count {count}").map_err(|_| Memory),
        None => Ok(()),
    }
}

fn put_strategy(text: &mut Vec<u8>, strategy: Option<Name<'_>>) -> Result<(), Memory>
    ensures { OnOk result (text.new.items ≡ text.old.items
        ++ strategy_words (option_map components strategy.entry)) }
{
    match strategy {
        Some(strategy) => {
            put_word(text, " ")?;
            put_name(text, strategy)
        }
        None => Ok(()),
    }
}

// ---- commands to the repository

/// Appends a command to the repository whose prefix is the name without its last three components,
/// or the word `command` and the name, if the name encodes no such command.
fn put_repository(text: &mut Vec<u8>, name: Name<'_>) -> Result<(), Memory>
    ensures { OnOk result (text.new.items ≡ text.old.items
        ++ repository_words (components name.entry) (repo_command_at
        (take (length (components name.entry) - 3) (components name.entry))
        (components name.entry))) }
{
    let prefix = name.prefix(name.len().saturating_sub(3));
    match command_in(prefix, name) {
        Some(command) => put_repo(text, &command),
        None => put_unread(text, name),
    }
}

fn put_repo(text: &mut Vec<u8>, command: &Asked<'_>) -> Result<(), Memory>
    ensures { OnOk result (text.new.items ≡ text.old.items ++ repo_words (plain command.now)) }
{
    write!(text, "repo {} ", verb_word(command.verb)).map_err(|_| Memory)?;
    put_name(text, command.name)?;
    put_word(text, prefix_words(command.can_be_prefix))?;
    put_lifetime(text, command.verb, command.lifetime)
}

fn verb_word(verb: Verb) -> &'static str
    ensures { result.now ≡ (verb_row verb).word }
{
    match verb {
        Verb::Insert => "insert",
        Verb::Delete => "delete",
        Verb::Check => "check",
    }
}

fn prefix_words(can_be_prefix: bool) -> &'static str
    ensures { result.now ≡ prefix_words can_be_prefix }
{
    if can_be_prefix { " can-be-prefix" } else { "" }
}

/// Appends the lifetime of the want that an insert adds or renews.
fn put_lifetime(text: &mut Vec<u8>, verb: Verb, lifetime: u64) -> Result<(), Memory>
    ensures { OnOk result (text.new.items ≡ text.old.items ++ lifetime_words verb lifetime) }
{
    match verb {
        Verb::Insert => write!(text, " lifetime {lifetime}").map_err(|_| Memory),
        _ => Ok(()),
    }
}
