//! The short forms of the node's commands: `route`, `strategy` and `cache`, each with its verbs.

ghost use Rattle.std.specs.Prelude.{◌≡◌, codes, false, true, Some, MatchResult};
ghost use Rattle.ndn_packets.specs.declared.command_types.TheConstants.{COST, ORIGIN, FLAGS, EXPIRATION_PERIOD};
ghost use Rattle.mgmt_core.specs.Commands.{row_of, takes};
ghost use Rattle.ndn_jobs.specs.Value.{IsUsage, Reads};
ghost use Rattle.ndn_jobs.specs.Options.{rows_in, value_at, Has, strategy_uri};
ghost use Rattle.ndn_jobs.specs.ShortForm.{action_of, is_named, fits, fits_route, IsVerb};

use crate::fault::{ToolFault, refusal};
use crate::options;
use clap::ArgMatches;
use mgmt_core::Action;

/// Returns the action for the subcommand and the verb in the options, or the fault `BadValue` if
/// there is no such action.
pub fn action_in(subcommand: &str, options: &ArgMatches<'_>) -> Result<Action, ToolFault>
    ensures { Reads
        (Has (value_at (rows_in options.now) (codes "VERB")) (IsVerb subcommand.now)) result }
{
    let verb = options::required(options, "VERB")?;
    match action_of(subcommand, verb) {
        Some(action) => Ok(action),
        None => Err(refusal("VERB", verbs_of(subcommand))),
    }
}

/// Returns the verbs of a subcommand, as they are listed in messages.
fn verbs_of(subcommand: &str) -> &'static str {
    match subcommand {
        "route" => "add, remove, list, register or unregister",
        "strategy" => "set, unset or list",
        _ => "erase",
    }
}

/// Returns whether the subcommand and the verb stand for the action.
fn is_named(action: Action, subcommand: &str, verb: &str) -> bool
    ensures { result ≡ is_named subcommand.now verb.now action }
{
    match action {
        Action::AddNexthop => subcommand == "route" && verb == "add",
        Action::RemoveNexthop => subcommand == "route" && verb == "remove",
        Action::Register => subcommand == "route" && verb == "register",
        Action::Unregister => subcommand == "route" && verb == "unregister",
        Action::SetStrategy => subcommand == "strategy" && verb == "set",
        Action::UnsetStrategy => subcommand == "strategy" && verb == "unset",
        Action::EraseCache => subcommand == "cache" && verb == "erase",
    }
}

/// Returns the action with this subcommand and this verb, or `None` if there is no such action.
fn action_of(subcommand: &str, verb: &str) -> Option<Action>
    ensures { result ≡ action_of subcommand.now verb.now }
{
    if is_named(Action::AddNexthop, subcommand, verb) {
        return Some(Action::AddNexthop);
    }
    if is_named(Action::RemoveNexthop, subcommand, verb) {
        return Some(Action::RemoveNexthop);
    }
    if is_named(Action::Register, subcommand, verb) {
        return Some(Action::Register);
    }
    if is_named(Action::Unregister, subcommand, verb) {
        return Some(Action::Unregister);
    }
    if is_named(Action::SetStrategy, subcommand, verb) {
        return Some(Action::SetStrategy);
    }
    if is_named(Action::UnsetStrategy, subcommand, verb) {
        return Some(Action::UnsetStrategy);
    }
    if is_named(Action::EraseCache, subcommand, verb) {
        return Some(Action::EraseCache);
    }
    None
}

/// Checks that the options suit the action. The options of a command on routes are checked by
/// `check_route`. A strategy is required for `SetStrategy`, and is not allowed for `UnsetStrategy`.
pub fn check_fit(action: Action, options: &ArgMatches<'_>) -> Result<(), ToolFault>
    ensures { MatchResult result (λ _. fits action (rows_in options.now) ≡ true)
        (λ why. IsUsage why × (fits action (rows_in options.now) ≡ false)) }
{
    match action {
        Action::AddNexthop | Action::RemoveNexthop | Action::Register | Action::Unregister => {
            check_route(action, options)
        }
        Action::SetStrategy if options::value(options, "STRATEGY").is_none() => {
            Err(refusal("STRATEGY", "a strategy, best-route or multicast"))
        }
        Action::UnsetStrategy if options::value(options, "STRATEGY").is_some() => {
            Err(refusal("STRATEGY", "no strategy with unset"))
        }
        _ => Ok(()),
    }
}

/// Checks the options of a command on routes: a face is given, and the command has a field for each
/// given option among `cost`, `origin`, `flags` and `expires`.
fn check_route(action: Action, options: &ArgMatches<'_>) -> Result<(), ToolFault>
    ensures { MatchResult result (λ _. fits_route action (rows_in options.now) ≡ true)
        (λ why. IsUsage why × (fits_route action (rows_in options.now) ≡ false)) }
{
    if options::value(options, "face").is_none() {
        return Err(refusal(
            "face",
            "the face of the next hop by --face, such as --face 2",
        ));
    }
    if !takes_cost(action) && options::value(options, "cost").is_some() {
        return Err(refusal("cost", "no cost with remove and unregister"));
    }
    if !takes_origin(action) && options::value(options, "origin").is_some() {
        return Err(refusal("origin", "no origin with add and remove"));
    }
    if !is_register(action) && options::value(options, "flags").is_some() {
        return Err(refusal("flags", "flags with register alone"));
    }
    if !is_register(action) && options::value(options, "expires").is_some() {
        return Err(refusal("expires", "a period with register alone"));
    }
    Ok(())
}

fn takes_cost(action: Action) -> bool
    ensures { result ≡ takes COST (row_of action) }
{
    matches!(action, Action::AddNexthop | Action::Register)
}

fn takes_origin(action: Action) -> bool
    ensures { result ≡ takes ORIGIN (row_of action) }
{
    matches!(action, Action::Register | Action::Unregister)
}

/// Returns whether the action allows flags and an expiration period. Each action allows both fields
/// or neither of them.
fn is_register(action: Action) -> bool
    ensures flags { result ≡ takes FLAGS (row_of action) }
    ensures expires { result ≡ takes EXPIRATION_PERIOD (row_of action) }
{
    action == Action::Register
}

/// If the word is `best-route` or `multicast`, returns the URI of this strategy. Returns any other
/// word unchanged.
pub fn strategy_uri(word: &str) -> &str
    ensures { result.now ≡ strategy_uri word.now }
{
    match word {
        "best-route" => "/localhost/nfd/strategy/best-route",
        "multicast" => "/localhost/nfd/strategy/multicast",
        _ => word,
    }
}
