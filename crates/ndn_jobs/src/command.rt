//! Reading the words of a command line as a job.
ghost use Rattle.std.specs.Prelude.{◌≡◌, drop, map, option_map, MatchResult};
ghost use Rattle.clap.specs.Words.{kind_of, subcommand_rows_of};
ghost use Rattle.ndn_jobs.specs.Value.{IsUsage, ReadsInMemory};
ghost use Rattle.ndn_jobs.specs.Options.{rows_in};
ghost use Rattle.ndn_jobs.specs.Command.{reading_of, IsJob, IsJobFor, IsListedJob, IsNamedJob, Asks, IsRefusedLine};

use crate::fault::{ToolFault, Usage};
use crate::job::{
    AskJob, CommandJob, DataJob, ExplainJob, GetJob, Job, KeyJob, LinkJob, PutJob, SendJob, TagJob,
    is_list,
};
use crate::nonce::seed_of;
use crate::options::required_octets;
use clap::error::ErrorKind;
use clap::{ArgMatches, Error};
use ndn_command_line::{Subcommand, tool_command};
use std::alloc::Global;
use std::convert::AsStr;

/// Reads the arguments of a command line as a job. The first argument is the program's name. `now`
/// is the time in milliseconds since 1970. If the arguments give no Nonce, the Nonce is computed
/// from the time, the arguments and the octets `random`. So different random octets make different
/// Nonces likely, and the same time, arguments and random octets make the same Nonce.
///
/// Returns `Usage` for a wrong command line. The only other error is `Memory`.
pub fn parse_words<S: AsStr>(
    alloc: Global,
    now: u64,
    random: &[u8],
    arguments: &[S],
) -> Result<Job, ToolFault>
    ensures { MatchResult result
        (Asks now random.now (map S.text arguments.now))
        (IsRefusedLine now random.now (map S.text arguments.now)) }
{
    let seed = seed_of(alloc, random, after_program(arguments))?;
    let mut command = tool_command(alloc)?;
    match command.try_get_matches_from_mut(arguments) {
        Ok(matches) => job_of(alloc, &matches, now, &seed),
        Err(error) => answer_to(error),
    }
}

/// Returns the arguments after the program's name.
fn after_program<S: AsStr>(arguments: &[S]) -> &[S]
    ensures { map S.text result.now ≡ drop 1 (map S.text arguments.now) }
{
    if arguments.is_empty() {
        arguments
    } else {
        &arguments[1..]
    }
}

fn answer_to(error: Error) -> Result<Job, ToolFault>
    ensures { result ≡ reading_of (kind_of error) error }
{
    match error.kind() {
        ErrorKind::DisplayHelp | ErrorKind::DisplayVersion => Ok(Job::Help(error)),
        ErrorKind::OutOfMemory => Err(ToolFault::Memory),
        _ => Err(ToolFault::Usage(Usage::CommandLine(error))),
    }
}

/// Returns the job of the subcommand in `matches`, or the fault `BadValue` if there is no
/// subcommand.
fn job_of(alloc: Global, matches: &ArgMatches<'_>, now: u64, seed: &[u8]) -> Result<Job, ToolFault>
    ensures { ReadsInMemory (IsJob now seed.now (subcommand_rows_of matches.now)) result }
{
    match used(matches) {
        Some((name, options)) => named_job(alloc, name, options, now, seed),
        None => Err(no_subcommand()),
    }
}

/// Returns the name and the options of the subcommand in `matches`, or `None` if there is no
/// subcommand.
fn used<'a, 'm>(matches: &'m ArgMatches<'a>) -> Option<(&'a str, &'m ArgMatches<'a>)>
    ensures { option_map (λ p. (p.0.now, rows_in p.1.now)) result ≡ subcommand_rows_of matches.now }
{
    matches.subcommand()
}

/// Returns the job that the options of the subcommand with this name describe, or the fault
/// `BadValue` if there is no such subcommand.
fn named_job(
    alloc: Global,
    name: &str,
    options: &ArgMatches<'_>,
    now: u64,
    seed: &[u8],
) -> Result<Job, ToolFault>
    ensures { ReadsInMemory (IsNamedJob now seed.now name.now (rows_in options.now)) result }
{
    match Subcommand::named(name) {
        Some(subcommand) => job_for(alloc, subcommand, name, options, now, seed),
        None => Err(no_subcommand()),
    }
}

/// Returns the job that the options of `subcommand` describe. `name` is the subcommand's name.
fn job_for(
    alloc: Global,
    subcommand: Subcommand,
    name: &str,
    options: &ArgMatches<'_>,
    now: u64,
    seed: &[u8],
) -> Result<Job, ToolFault>
    ensures { ReadsInMemory
        (IsJobFor subcommand now seed.now name.now (rows_in options.now)) result }
{
    match subcommand {
        Subcommand::Interest => Ok(Job::Interest(LinkJob::read(alloc, options)?)),
        Subcommand::Data => Ok(Job::Data(DataJob::read(alloc, options)?)),
        Subcommand::Command => Ok(Job::Command(CommandJob::read(alloc, options)?)),
        Subcommand::Route | Subcommand::Strategy => listed_job(alloc, name, options, now, seed),
        Subcommand::Cache => {
            Ok(Job::Command(CommandJob::read_short(alloc, name, options, now, seed)?))
        }
        Subcommand::Repository => {
            Ok(Job::Command(CommandJob::read_repository(alloc, options, now, seed)?))
        }
        Subcommand::Tag => Ok(Job::Tag(TagJob::read(alloc, options)?)),
        Subcommand::Show => Ok(Job::Show(required_octets(alloc, options, "HEX")?)),
        Subcommand::Explain => Ok(Job::Explain(ExplainJob::read(alloc, options)?)),
        Subcommand::Send => Ok(Job::Send(SendJob::read(alloc, options)?)),
        Subcommand::Peek => Ok(Job::Ask(AskJob::read_peek(alloc, options, now, seed)?)),
        Subcommand::Get => Ok(Job::Get(GetJob::read(alloc, options, now, seed)?)),
        Subcommand::Put => Ok(Job::Put(PutJob::read(alloc, options, now, seed)?)),
        Subcommand::Key => Ok(Job::Key(KeyJob::read(alloc, options)?)),
    }
}

/// Returns the job of the subcommand `route` or `strategy`. The job requests a list if the verb is
/// `list`. With any other verb, the job is a command.
fn listed_job(
    alloc: Global,
    name: &str,
    options: &ArgMatches<'_>,
    now: u64,
    seed: &[u8],
) -> Result<Job, ToolFault>
    ensures { ReadsInMemory (IsListedJob now seed.now name.now (rows_in options.now)) result }
{
    if is_list(options) {
        return Ok(Job::Ask(AskJob::read_list(alloc, name, options, now, seed)?));
    }
    Ok(Job::Command(CommandJob::read_short(alloc, name, options, now, seed)?))
}

fn no_subcommand() -> ToolFault
    ensures { IsUsage result }
{
    ToolFault::Usage(Usage::BadValue {
        place: "the first positional",
        wanted: "a subcommand",
    })
}
