//! What a command line asks for.

ghost use Rattle.std.specs.Prelude.{◌≡◌, option_map, string_bytes};
ghost use Rattle.ndn_jobs.specs.Value.{ReadsInMemory};
ghost use Rattle.ndn_jobs.specs.Options.{rows_in, AreParameters};
ghost use Rattle.ndn_jobs.specs.ShortForm.{AreShortParameters};
ghost use Rattle.ndn_jobs.specs.RepositoryForm.{AreRepositoryParameters};
ghost use Rattle.ndn_jobs.specs.Ask.{is_alone, is_list, lacks, list_of, view_of};
ghost use Rattle.ndn_jobs.specs.Job.{asked_again};
ghost use Rattle.ndn_jobs.specs.Key.{is_show};

use crate::fault::{ToolFault, refusal};
use crate::nonce::{nonce_after, nonce_or};
use crate::options;
use crate::repository_form::repository_name;
use crate::short_form::{action_in, check_fit};
use crate::token::Token;
use clap::{ArgMatches, Error};
use mgmt_core::Action;
use ndn_names::NameBuf;
use ndn_requests::{NodeList, Parameters, View, action_name, list_name};
use std::alloc::Global;
use std::net::SocketAddr;

/// How often an Interest of `get` or `put` is sent again if the command line does not say so.
const USUAL_RETRIES: u64 = 15;

/// What a command line asks for: the help, the version, or a subcommand with its options.
#[derive(Drop)]
pub enum Job {
    /// Print the help text or the version.
    Help(Error),
    /// Write an Interest.
    Interest(LinkJob),
    /// Write a Data.
    Data(DataJob),
    /// Write a command. If a destination is given, send the command. Otherwise print the command.
    Command(CommandJob),
    /// Compute the HMAC of some octets.
    Tag(TagJob),
    /// Show what a packet contains.
    Show(Vec<u8>),
    /// Explain packets.
    Explain(ExplainJob),
    /// Send a packet, and print the first datagram that comes back.
    Send(SendJob),
    /// If a destination is given, send an Interest (for a list, one for each segment), and print
    /// what the answers contain. Otherwise print the first Interest.
    Ask(AskJob),
    /// Fetch a file.
    Get(GetJob),
    /// Store a file in a repository.
    Put(PutJob),
    /// Show the key of a certificate.
    Key(KeyJob),
}

/// Where a packet is sent, and the port from which it is sent.
#[derive(Clone, Copy, Debug)]
pub struct Ports {
    /// The destination. `None` means that the packet is printed.
    pub to: Option<SocketAddr>,
    /// The source port. `None` means that the system chooses a port.
    pub from: Option<u16>,
}

/// The key of a signature: the key file that has the key, and the key's name.
#[derive(Drop)]
pub struct KeyChoice {
    /// The path of the key file, if one is given.
    pub keys: Option<String>,
    /// The name of the key, if one is given.
    pub key: Option<NameBuf>,
}

/// An Interest to write.
#[derive(Drop)]
pub struct InterestJob {
    pub name: NameBuf,
    pub can_be_prefix: bool,
    pub must_be_fresh: bool,
    /// The 4 octets of the Nonce, in order.
    pub nonce: [u8; 4],
    /// The InterestLifetime in milliseconds.
    pub lifetime: Option<u64>,
    /// The HopLimit, in hops.
    pub hop_limit: Option<u8>,
    /// The value of the ApplicationParameters.
    pub parameters: Option<Vec<u8>>,
    /// The SignatureTime, in milliseconds since 1970, of a signed Interest.
    pub time: Option<u64>,
    /// The SignatureSeqNum of a signed Interest.
    pub seq: Option<u64>,
    /// The key of the signature. If no key is named, the Interest is not signed.
    pub key: KeyChoice,
}

/// An Interest to write, and its PIT token, if one is given.
#[derive(Drop)]
pub struct LinkJob {
    pub interest: InterestJob,
    /// The PIT token. Without a token, the Interest is not put into a link packet.
    pub token: Option<Token>,
}

/// A Data to write.
#[derive(Drop)]
pub struct DataJob {
    pub name: NameBuf,
    /// The value of the Content.
    pub content: Option<Vec<u8>>,
    /// The FreshnessPeriod in milliseconds.
    pub freshness: Option<u64>,
    /// The key of the signature. If no key is named, the Data is signed with DigestSha256.
    pub key: KeyChoice,
}

/// A command to write: an Interest whose name contains the parameters of the command.
#[derive(Drop)]
pub struct CommandJob {
    /// The name of the command, which ends with the command's verb.
    pub name: NameBuf,
    pub parameters: Parameters,
    pub stamp: Stamp,
}

/// What makes a command unique, who signs it, and where it is sent.
#[derive(Drop)]
pub struct Stamp {
    /// The 4 octets of the Nonce, in order.
    pub nonce: [u8; 4],
    /// The SignatureTime, in milliseconds since 1970.
    pub time: u64,
    /// The SignatureSeqNum.
    pub seq: Option<u64>,
    /// The key of the signature. If no key is named, the command is signed with DigestSha256.
    pub key: KeyChoice,
    pub ports: Ports,
    /// How long to wait for an answer, in milliseconds, if this is given.
    pub timeout: Option<u32>,
}

/// Some octets, and the key with which to compute the HMAC of the octets.
#[derive(Drop)]
pub struct TagJob {
    pub octets: Vec<u8>,
    /// The path of the key file.
    pub keys: String,
    /// The name of the key.
    pub key: NameBuf,
}

/// Packets to explain.
#[derive(Drop)]
pub struct ExplainJob {
    /// The packet. `None` means that the packets are read from standard input.
    pub packet: Option<Vec<u8>>,
    /// The path of the key file for checking signatures. Without a key file, signatures are not
    /// checked.
    pub keys: Option<String>,
}

/// A packet to send.
#[derive(Drop)]
pub struct SendJob {
    /// The packet. `None` means that the packet is read from standard input.
    pub packet: Option<Vec<u8>>,
    /// The destination.
    pub to: SocketAddr,
    /// The source port. `None` means that the system chooses a port.
    pub from: Option<u16>,
    /// How long to wait for an answer, in milliseconds, if this is given.
    pub timeout: Option<u32>,
}

/// An Interest to send or print, and what is printed of the answer.
#[derive(Drop)]
pub struct AskJob {
    pub interest: InterestJob,
    pub view: View,
    pub ports: Ports,
    /// How long to wait for an answer, in milliseconds, if this is given.
    pub timeout: Option<u32>,
    /// How often the Interest is sent again if no answer comes in time.
    pub retries: u64,
    /// The path of the key file for checking the signature of the answer, if one is given.
    pub keys: Option<String>,
    /// Whether a Data with a wrong signature is printed.
    pub unverified: bool,
}

/// A file to fetch.
#[derive(Drop)]
pub struct GetJob {
    /// The name of the file, with or without its version.
    pub name: NameBuf,
    /// The destination.
    pub to: SocketAddr,
    /// The source port. `None` means that the system chooses a port.
    pub from: Option<u16>,
    /// The path of the file to write. `None` means standard output.
    pub output: Option<String>,
    /// The InterestLifetime in milliseconds.
    pub lifetime: Option<u64>,
    /// How often the Interest of a segment is sent again.
    pub retries: u64,
    /// The path of the key file for checking signatures, if one is given.
    pub keys: Option<String>,
    /// What the Nonce of the first Interest is computed from.
    pub nonce: [u8; 4],
}

/// A file to store in a repository.
#[derive(Drop)]
pub struct PutJob {
    /// The path of the file.
    pub file: String,
    /// The name of the file, with or without its version.
    pub name: NameBuf,
    /// The prefix of the repository.
    pub repository: NameBuf,
    /// The destination.
    pub to: SocketAddr,
    /// The source port. `None` means that the system chooses a port.
    pub from: Option<u16>,
    /// The FreshnessPeriod of the Data in milliseconds.
    pub freshness: Option<u64>,
    /// How often a command is sent again.
    pub retries: u64,
    /// The key of Data and commands. If no key is named, they are signed with DigestSha256.
    pub key: KeyChoice,
    /// The time of the clock, in milliseconds since 1970.
    pub time: u64,
    /// What the Nonce of the first command is computed from.
    pub nonce: [u8; 4],
}

/// A certificate whose key is shown.
#[derive(Drop)]
pub struct KeyJob {
    /// The path of the file with the certificate.
    pub file: String,
}

impl Job {
    ghost use Rattle.std.specs.Prelude.{◌≡◌, option_map};
    ghost use Rattle.ndn_jobs.specs.Job.{key_file_of, retried, retries_of};

    /// Returns the path of the key file that the job names, or `None` if it names no key file.
    pub fn key_file(&self) -> Option<&str>
        ensures { option_map (λ path. path.now) result ≡ key_file_of self.now }
    {
        match self {
            Job::Interest(job) => job.interest.key.path(),
            Job::Data(job) => job.key.path(),
            Job::Command(job) => job.stamp.key.path(),
            Job::Tag(job) => Some(job.keys.as_str()),
            Job::Explain(job) => path_in(&job.keys),
            Job::Ask(job) => path_in(&job.keys),
            Job::Get(job) => path_in(&job.keys),
            Job::Put(job) => job.key.path(),
            Job::Help(_) | Job::Show(_) | Job::Send(_) | Job::Key(_) => None,
        }
    }

    /// Returns how often the job sends its Interest again if no answer comes in time.
    pub fn retries(&self) -> u64
        ensures { result ≡ retries_of self.now }
    {
        match self {
            Job::Ask(job) => job.retries,
            _ => 0,
        }
    }

    /// Returns the job with which an Interest is sent again: the Interest has a new Nonce, and the
    /// number of retries is less by one, if it is not 0. Returns a job of another kind unchanged.
    pub fn retried(self) -> Job
        ensures { result ≡ retried self }
    {
        match self {
            Job::Ask(job) => Job::Ask(asked_again(job)),
            job => job,
        }
    }
}

fn asked_again(job: AskJob) -> AskJob
    ensures { result ≡ asked_again job }
{
    let mut job = job;
    job.interest.nonce = nonce_after(job.interest.nonce);
    job.retries = job.retries.saturating_sub(1);
    job
}

impl InterestJob {
    ghost use Rattle.ndn_jobs.specs.Value.{ReadsInMemory};
    ghost use Rattle.ndn_jobs.specs.Options.{rows_in, IsInterestJob};

    /// Returns the Interest that the options of the subcommand `interest` describe. The option for
    /// the PIT token is not read.
    pub fn read(alloc: Global, options: &ArgMatches<'_>) -> Result<InterestJob, ToolFault>
        ensures { ReadsInMemory (IsInterestJob (rows_in options.now)) result }
    {
        Ok(InterestJob {
            name: options::required_name(alloc, options, "URI")?,
            can_be_prefix: options::flag(options, "can-be-prefix"),
            must_be_fresh: options::flag(options, "must-be-fresh"),
            nonce: options::required_nonce(options, "nonce")?,
            lifetime: options::number(options, "lifetime")?,
            hop_limit: options::hops(options, "hop-limit")?,
            parameters: options::octets(alloc, options, "parameters")?,
            time: options::number(options, "time")?,
            seq: options::number(options, "seq")?,
            key: KeyChoice::read(alloc, options)?,
        })
    }
}

impl LinkJob {
    ghost use Rattle.ndn_jobs.specs.Value.{ReadsInMemory};
    ghost use Rattle.ndn_jobs.specs.Options.{rows_in, IsLinkJob};

    /// Returns the Interest and the PIT token that the options of the subcommand `interest`
    /// describe.
    pub fn read(alloc: Global, options: &ArgMatches<'_>) -> Result<LinkJob, ToolFault>
        ensures { ReadsInMemory (IsLinkJob (rows_in options.now)) result }
    {
        Ok(LinkJob {
            interest: InterestJob::read(alloc, options)?,
            token: options::token(alloc, options, "token")?,
        })
    }
}

impl DataJob {
    ghost use Rattle.ndn_jobs.specs.Value.{ReadsInMemory};
    ghost use Rattle.ndn_jobs.specs.Options.{rows_in, IsDataJob};

    /// Returns the Data that the options of the subcommand `data` describe.
    pub fn read(alloc: Global, options: &ArgMatches<'_>) -> Result<DataJob, ToolFault>
        ensures { ReadsInMemory (IsDataJob (rows_in options.now)) result }
    {
        Ok(DataJob {
            name: options::required_name(alloc, options, "URI")?,
            content: options::octets(alloc, options, "content")?,
            freshness: options::number(options, "freshness")?,
            key: KeyChoice::read(alloc, options)?,
        })
    }
}

impl CommandJob {
    ghost use Rattle.ndn_jobs.specs.Value.{ReadsInMemory};
    ghost use Rattle.ndn_jobs.specs.Options.{rows_in, IsCommandJob};
    ghost use Rattle.ndn_jobs.specs.ShortForm.{IsFormJob, IsShortJob};
    ghost use Rattle.ndn_jobs.specs.RepositoryForm.{IsRepositoryJob};

    /// Returns the command that the options of the subcommand `command` describe.
    pub fn read(alloc: Global, options: &ArgMatches<'_>) -> Result<CommandJob, ToolFault>
        ensures { ReadsInMemory (IsCommandJob (rows_in options.now)) result }
    {
        Ok(CommandJob {
            name: options::required_name(alloc, options, "URI")?,
            parameters: parameters(alloc, options)?,
            stamp: Stamp::read(alloc, options)?,
        })
    }

    /// Returns the command of a short form. The short form consists of the subcommand with this
    /// name, and these options. If no time is given, the time is `now`. If no Nonce is given, the
    /// Nonce is computed from the time and `seed`.
    pub fn read_short(
        alloc: Global,
        subcommand: &str,
        options: &ArgMatches<'_>,
        now: u64,
        seed: &[u8],
    ) -> Result<CommandJob, ToolFault>
        ensures { ReadsInMemory
            (IsShortJob now seed.now subcommand.now (rows_in options.now)) result }
    {
        let action = action_in(subcommand, options)?;
        CommandJob::read_form(alloc, action, options, now, seed)
    }

    /// Returns the command that the options of the subcommand `repo` describe. If no time is given,
    /// the time is `now`. If no Nonce is given, the Nonce is computed from the time and `seed`.
    pub fn read_repository(
        alloc: Global,
        options: &ArgMatches<'_>,
        now: u64,
        seed: &[u8],
    ) -> Result<CommandJob, ToolFault>
        ensures { ReadsInMemory (IsRepositoryJob now seed.now (rows_in options.now)) result }
    {
        Ok(CommandJob {
            name: repository_name(alloc, options)?,
            parameters: repository_parameters(alloc, options)?,
            stamp: Stamp::read_short(alloc, options, now, seed)?,
        })
    }

    /// Returns the command of a short form, given the command's action.
    fn read_form(
        alloc: Global,
        action: Action,
        options: &ArgMatches<'_>,
        now: u64,
        seed: &[u8],
    ) -> Result<CommandJob, ToolFault>
        ensures { ReadsInMemory (IsFormJob action now seed.now (rows_in options.now)) result }
    {
        check_fit(action, options)?;
        Ok(CommandJob {
            name: action_name(alloc, action)?,
            parameters: short_parameters(alloc, options)?,
            stamp: Stamp::read_short(alloc, options, now, seed)?,
        })
    }
}

/// Returns the parameters that the options of the subcommand `command` spell.
fn parameters(alloc: Global, options: &ArgMatches<'_>) -> Result<Parameters, ToolFault>
    ensures { ReadsInMemory (AreParameters (rows_in options.now)) result }
{
    Ok(Parameters {
        name: options::required_name(alloc, options, "name")?,
        face: options::number(options, "face")?,
        origin: options::number(options, "origin")?,
        cost: options::number(options, "cost")?,
        flags: options::number(options, "flags")?,
        expires: options::number(options, "expires")?,
        strategy: options::name(alloc, options, "strategy")?,
        count: options::number(options, "count")?,
        can_be_prefix: options::flag(options, "can-be-prefix"),
        lifetime: options::number(options, "lifetime")?,
    })
}

/// Returns the parameters that the options of a short form spell.
fn short_parameters(alloc: Global, options: &ArgMatches<'_>) -> Result<Parameters, ToolFault>
    ensures { ReadsInMemory (AreShortParameters (rows_in options.now)) result }
{
    Ok(Parameters {
        name: options::required_name(alloc, options, "PREFIX")?,
        face: options::number(options, "face")?,
        origin: options::number(options, "origin")?,
        cost: options::number(options, "cost")?,
        flags: options::number(options, "flags")?,
        expires: options::number(options, "expires")?,
        strategy: options::strategy(alloc, options, "STRATEGY")?,
        count: options::number(options, "count")?,
        can_be_prefix: false,
        lifetime: None,
    })
}

/// Returns the parameters that the options of the subcommand `repo` spell.
fn repository_parameters(alloc: Global, options: &ArgMatches<'_>) -> Result<Parameters, ToolFault>
    ensures { ReadsInMemory (AreRepositoryParameters (rows_in options.now)) result }
{
    Ok(Parameters {
        name: options::required_name(alloc, options, "NAME")?,
        face: None,
        origin: None,
        cost: None,
        flags: None,
        expires: None,
        strategy: None,
        count: None,
        can_be_prefix: options::flag(options, "can-be-prefix"),
        lifetime: options::number(options, "lifetime")?,
    })
}

impl Stamp {
    ghost use Rattle.ndn_jobs.specs.Value.{ReadsInMemory};
    ghost use Rattle.ndn_jobs.specs.Options.{rows_in, IsStamp};
    ghost use Rattle.ndn_jobs.specs.ShortForm.{IsShortStamp};

    /// Returns the stamp that the options of the subcommand `command` spell.
    fn read(alloc: Global, options: &ArgMatches<'_>) -> Result<Stamp, ToolFault>
        ensures { ReadsInMemory (IsStamp (rows_in options.now)) result }
    {
        Ok(Stamp {
            nonce: options::required_nonce(options, "nonce")?,
            time: options::required_number(options, "time")?,
            seq: options::number(options, "seq")?,
            key: KeyChoice::read(alloc, options)?,
            ports: Ports {
                to: None,
                from: None,
            },
            timeout: None,
        })
    }

    /// Returns the stamp that the options of a short form spell.
    fn read_short(
        alloc: Global,
        options: &ArgMatches<'_>,
        now: u64,
        seed: &[u8],
    ) -> Result<Stamp, ToolFault>
        ensures { ReadsInMemory (IsShortStamp now seed.now (rows_in options.now)) result }
    {
        let time = options::number(options, "time")?.unwrap_or(now);
        let given = options::nonce(options, "nonce")?;
        let ports = Ports::read(options, "send")?;
        Ok(Stamp {
            nonce: nonce_or(alloc, given, time, seed)?,
            time,
            seq: options::number(options, "seq")?,
            key: KeyChoice::read(alloc, options)?,
            ports,
            timeout: options::period(options, "timeout")?,
        })
    }
}

impl Ports {
    ghost use Rattle.std.specs.Prelude.{codes};
    ghost use Rattle.ndn_jobs.specs.Value.{Reads};
    ghost use Rattle.ndn_jobs.specs.Options.{rows_in, value_at, IsPorts};

    /// Returns the ports that the options spell. The option with the id `id` spells the
    /// destination. The option `from` spells the source port. The option `from` is refused if no
    /// destination is given.
    fn read(options: &ArgMatches<'_>, id: &'static str) -> Result<Ports, ToolFault>
        ensures { Reads (IsPorts (value_at (rows_in options.now) id.now)
            (value_at (rows_in options.now) (codes "from"))) result }
    {
        let to = options::endpoint(options, id)?;
        let from = options::port(options, "from")?;
        if to.is_none() && from.is_some() {
            return Err(refusal("from", "the port to send to as well"));
        }
        Ok(Ports { to, from })
    }
}

impl AskJob {
    ghost use Rattle.std.specs.Prelude.{◌≡◌, codes, true};
    ghost use Rattle.ndn_jobs.specs.Value.{IsUsage, ReadsInMemory};
    ghost use Rattle.ndn_jobs.specs.Options.{rows_in};
    ghost use Rattle.ndn_jobs.specs.Ask.{IsListJob, IsPeekJob};

    /// Returns the job of the verb `list` of the subcommand with this name: an Interest for the
    /// first segment of the list. If no Nonce is given, the Nonce is computed from the time and
    /// `seed`.
    pub fn read_list(
        alloc: Global,
        subcommand: &str,
        options: &ArgMatches<'_>,
        now: u64,
        seed: &[u8],
    ) -> Result<AskJob, ToolFault>
        ensures { ReadsInMemory
            (IsListJob now seed.now subcommand.now (rows_in options.now)) result }
    {
        if !is_alone(options) {
            return Err(refusal(
                "list",
                "no name and no option but --nonce, --send, --from and --timeout",
            ));
        }
        let list = list_of(subcommand);
        let given = options::nonce(options, "nonce")?;
        let ports = Ports::read(options, "send")?;
        Ok(AskJob {
            interest: InterestJob {
                name: list_name(alloc, list)?,
                can_be_prefix: true,
                must_be_fresh: true,
                nonce: nonce_or(alloc, given, now, seed)?,
                lifetime: None,
                hop_limit: None,
                parameters: None,
                time: None,
                seq: None,
                key: KeyChoice {
                    keys: None,
                    key: None,
                },
            },
            view: View::Table(list),
            ports,
            timeout: options::period(options, "timeout")?,
            retries: 0,
            keys: None,
            unverified: false,
        })
    }

    /// Returns the job that the options of the subcommand `peek` describe: the Interest, what is
    /// printed of the answer, the ports, the timeout, the retries, the key file, and whether a
    /// wrong signature matters. If no Nonce is given, the Nonce is computed from the time and
    /// `seed`.
    pub fn read_peek(
        alloc: Global,
        options: &ArgMatches<'_>,
        now: u64,
        seed: &[u8],
    ) -> Result<AskJob, ToolFault>
        ensures { ReadsInMemory (IsPeekJob now seed.now (rows_in options.now)) result }
    {
        let given = options::nonce(options, "nonce")?;
        let ports = Ports::read(options, "to")?;
        let retries = options::number(options, "retries")?;
        Ok(AskJob {
            interest: InterestJob {
                name: options::required_name(alloc, options, "URI")?,
                can_be_prefix: options::flag(options, "can-be-prefix"),
                must_be_fresh: options::flag(options, "must-be-fresh"),
                nonce: nonce_or(alloc, given, now, seed)?,
                lifetime: options::number(options, "lifetime")?,
                hop_limit: None,
                parameters: None,
                time: None,
                seq: None,
                key: KeyChoice {
                    keys: None,
                    key: None,
                },
            },
            view: view_of(options::flag(options, "raw")),
            ports,
            timeout: options::period(options, "timeout")?,
            retries: retries.unwrap_or(0),
            keys: options::path(alloc, options, "keys")?,
            unverified: options::flag(options, "unverified"),
        })
    }
}

fn view_of(raw: bool) -> View
    ensures { result ≡ view_of raw }
{
    if raw { View::Content } else { View::Lines }
}

/// Returns which list a subcommand requests: the list of routes for the subcommand `route`, and the
/// list of strategies for any other subcommand.
fn list_of(subcommand: &str) -> NodeList
    ensures { result ≡ list_of subcommand.now }
{
    if subcommand == "route" {
        NodeList::Routes
    } else {
        NodeList::Strategies
    }
}

/// Returns whether the verb in the options is `list`.
pub fn is_list(options: &ArgMatches<'_>) -> bool
    ensures { result ≡ is_list (rows_in options.now) }
{
    match options::value(options, "VERB") {
        None => false,
        Some(verb) => verb == "list",
    }
}

/// Returns whether the arguments suit the verb `list`. This verb allows the options for the Nonce,
/// the ports and the timeout, and no other arguments.
fn is_alone(options: &ArgMatches<'_>) -> bool
    ensures { result ≡ is_alone (rows_in options.now) }
{
    lacks(options, "PREFIX")
        && lacks(options, "face")
        && lacks(options, "cost")
        && lacks(options, "origin")
        && lacks(options, "flags")
        && lacks(options, "expires")
        && lacks(options, "STRATEGY")
        && lacks(options, "time")
        && lacks(options, "seq")
        && lacks(options, "keys")
        && lacks(options, "key")
}

fn lacks(options: &ArgMatches<'_>, id: &str) -> bool
    ensures { result ≡ lacks (rows_in options.now) id.now }
{
    options::value(options, id).is_none()
}

impl TagJob {
    ghost use Rattle.ndn_jobs.specs.Value.{ReadsInMemory};
    ghost use Rattle.ndn_jobs.specs.Options.{rows_in, IsTagJob};

    /// Returns the octets and the key that the options of the subcommand `tag` give.
    pub fn read(alloc: Global, options: &ArgMatches<'_>) -> Result<TagJob, ToolFault>
        ensures { ReadsInMemory (IsTagJob (rows_in options.now)) result }
    {
        Ok(TagJob {
            octets: options::required_octets(alloc, options, "HEX")?,
            keys: options::required_path(alloc, options, "keys")?,
            key: options::required_name(alloc, options, "key")?,
        })
    }
}

impl ExplainJob {
    ghost use Rattle.ndn_jobs.specs.Value.{ReadsInMemory};
    ghost use Rattle.ndn_jobs.specs.Options.{rows_in, IsExplainJob};

    /// Returns the packet and the path of the key file that the options of the subcommand `explain`
    /// give.
    pub fn read(alloc: Global, options: &ArgMatches<'_>) -> Result<ExplainJob, ToolFault>
        ensures { ReadsInMemory (IsExplainJob (rows_in options.now)) result }
    {
        Ok(ExplainJob {
            packet: options::packet(alloc, options, "HEX")?,
            keys: options::path(alloc, options, "keys")?,
        })
    }
}

impl SendJob {
    ghost use Rattle.ndn_jobs.specs.Value.{ReadsInMemory};
    ghost use Rattle.ndn_jobs.specs.Options.{rows_in, IsSendJob};

    /// Returns the packet, the ports and the timeout that the options of the subcommand `send`
    /// give.
    pub fn read(alloc: Global, options: &ArgMatches<'_>) -> Result<SendJob, ToolFault>
        ensures { ReadsInMemory (IsSendJob (rows_in options.now)) result }
    {
        Ok(SendJob {
            packet: options::packet(alloc, options, "HEX")?,
            to: options::required_endpoint(options, "to")?,
            from: options::port(options, "from")?,
            timeout: options::period(options, "timeout")?,
        })
    }
}

impl GetJob {
    ghost use Rattle.ndn_jobs.specs.Value.{ReadsInMemory};
    ghost use Rattle.ndn_jobs.specs.Options.{rows_in};
    ghost use Rattle.ndn_jobs.specs.Get.{IsGetJob};

    /// Returns the file that the options of the subcommand `get` describe. The Nonce is computed
    /// from the time and `seed`.
    pub fn read(
        alloc: Global,
        options: &ArgMatches<'_>,
        now: u64,
        seed: &[u8],
    ) -> Result<GetJob, ToolFault>
        ensures { ReadsInMemory (IsGetJob now seed.now (rows_in options.now)) result }
    {
        let to = options::required_endpoint(options, "to")?;
        let from = options::port(options, "from")?;
        let retries = options::number(options, "retries")?;
        Ok(GetJob {
            name: options::required_name(alloc, options, "URI")?,
            to,
            from,
            output: options::path(alloc, options, "output")?,
            lifetime: options::number(options, "lifetime")?,
            retries: retries.unwrap_or(USUAL_RETRIES),
            keys: options::path(alloc, options, "keys")?,
            nonce: nonce_or(alloc, None, now, seed)?,
        })
    }
}

impl PutJob {
    ghost use Rattle.ndn_jobs.specs.Value.{ReadsInMemory};
    ghost use Rattle.ndn_jobs.specs.Options.{rows_in};
    ghost use Rattle.ndn_jobs.specs.Put.{IsPutJob};

    /// Returns the file that the options of the subcommand `put` describe. The Nonce is computed
    /// from the time and `seed`.
    pub fn read(
        alloc: Global,
        options: &ArgMatches<'_>,
        now: u64,
        seed: &[u8],
    ) -> Result<PutJob, ToolFault>
        ensures { ReadsInMemory (IsPutJob now seed.now (rows_in options.now)) result }
    {
        let to = options::required_endpoint(options, "to")?;
        let from = options::port(options, "from")?;
        let retries = options::number(options, "retries")?;
        Ok(PutJob {
            file: options::required_path(alloc, options, "FILE")?,
            name: options::required_name(alloc, options, "URI")?,
            repository: options::required_name(alloc, options, "repo")?,
            to,
            from,
            freshness: options::number(options, "freshness")?,
            retries: retries.unwrap_or(USUAL_RETRIES),
            key: KeyChoice::read(alloc, options)?,
            time: now,
            nonce: nonce_or(alloc, None, now, seed)?,
        })
    }
}

impl KeyJob {
    ghost use Rattle.ndn_jobs.specs.Value.{ReadsInMemory};
    ghost use Rattle.ndn_jobs.specs.Options.{rows_in};
    ghost use Rattle.ndn_jobs.specs.Key.{IsKeyJob};

    /// Returns the file that the options of the subcommand `key` give. The verb must be `show`.
    pub fn read(alloc: Global, options: &ArgMatches<'_>) -> Result<KeyJob, ToolFault>
        ensures { ReadsInMemory (IsKeyJob (rows_in options.now)) result }
    {
        if !is_show(options) {
            return Err(refusal("VERB", "show"));
        }
        Ok(KeyJob {
            file: options::required_path(alloc, options, "FILE")?,
        })
    }
}

/// Returns whether the verb in the options is `show`.
fn is_show(options: &ArgMatches<'_>) -> bool
    ensures { result ≡ is_show (rows_in options.now) }
{
    match options::value(options, "VERB") {
        None => false,
        Some(verb) => verb == "show",
    }
}

impl KeyChoice {
    ghost use Rattle.std.specs.Prelude.{◌≡◌, option_map, string_bytes};
    ghost use Rattle.ndn_jobs.specs.Value.{ReadsInMemory};
    ghost use Rattle.ndn_jobs.specs.Options.{rows_in, IsKeyChoice};

    fn read(alloc: Global, options: &ArgMatches<'_>) -> Result<KeyChoice, ToolFault>
        ensures { ReadsInMemory (IsKeyChoice (rows_in options.now)) result }
    {
        Ok(KeyChoice {
            keys: options::path(alloc, options, "keys")?,
            key: options::name(alloc, options, "key")?,
        })
    }

    fn path(&self) -> Option<&str>
        ensures { option_map (λ path. path.now) result ≡ option_map string_bytes self.now.keys }
    {
        path_in(&self.keys)
    }
}

fn path_in(path: &Option<String>) -> Option<&str>
    ensures { option_map (λ path. path.now) result ≡ option_map string_bytes path.now }
{
    match path {
        None => None,
        Some(path) => Some(path.as_str()),
    }
}
