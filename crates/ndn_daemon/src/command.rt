//! The command line, and its help.
ghost use Rattle.std.specs.Prelude.{◌≡◌, IfErr, IfOk};
ghost use Rattle.clap.specs.Words.{kind_of};
ghost use Rattle.ndn_daemon.specs.Options.{ReadsInMemory, rows_in};
ghost use Rattle.ndn_daemon.specs.Command.{HasFewPeers, IsAsked, IsFaultOfWords, IsPathOf, IsRequest, reading_of};

use crate::fault::Fault;
use crate::options::{Options, ShorteningOptions, given_or, value};
use crate::udp_options::UdpOptions;
use clap::error::ErrorKind;
use clap::{Arg, ArgAction, ArgMatches, Command, Error};
use node_core::RunFault;
use std::alloc::{AllocError, Global};
use std::convert::AsStr;

/// The request that a command line makes.
#[derive(Debug, Drop)]
pub enum Request {
    /// The help text or the version, for standard output.
    Help(Error),
    /// Run the script that is on standard input.
    Script(Options),
    /// Run a node on a port.
    Udp(Options, UdpOptions),
    /// Run the node that the configuration file at this path configures.
    Run(String),
    /// Check the configuration file at this path, and the files that it names.
    Check(String),
    /// Shorten a journal.
    Shorten(ShorteningOptions),
}

/// The version of the program.
pub const VERSION: &str = "0.1.0";

const ABOUT: &str =
    "A Named Data Networking node: it forwards Interests by routes and strategies, and it caches and
stores Data. A rule file says which commands and which Data the node accepts.";

const ABOUT_SCRIPT: &str = "Runs the script on standard input and prints the node's answers";

const SCRIPTS: &str = "A script has one event on each line, with single spaces between its words:
  up FACE local|far MOMENT  opens a face: local if it leads to a program on this machine, else far
  down FACE MOMENT          closes a face, and removes its routes and pending Interests
  tick MOMENT               lets time pass
  in FACE MOMENT HEX        a packet arrives on a face
  rules MOMENT HEX HEX      replaces the rules and the keys: the first HEX is a rule file, and the
                            second is a key file. If a file has a fault, the line is a bad line
FACE is the number of a face, from 1. At most 64 faces are open at once. MOMENT is a time in
milliseconds since 1970. HEX stands for octets in hexadecimal, or is - for no octets. Empty lines,
and lines that begin with #, are skipped.

The answer to event N is a line `N VERDICT`. A line `> FACE HEX` follows for each packet that the
node sends. The verdict is one of these:
  passed                        the event had its effect
  allowed STATUS RULE           the rule allowed the command; the reply has this status
  data RULE                     the rule allowed the Data
  denied interest|data WHY RULE the rule denied the command or the Data, or the command is not fresh
  no-rule interest|data         no rule applies, so the command or the Data is denied
  dropped REASON                only the time changed; an Interest that loops gets a Nack
  memory                        memory ran out; nothing changed

Without --rules, all commands and all Data are denied until a line `rules` gives rules. Each line of
a key file has the URI of a key's name, a space, and the key in hexadecimal.

Example: an Interest for /A arrives on face 1, and no route leads to /A. The answer is a Nack.
  $ ndn_node script << END
  up 1 local 0
  in 1 1000 050b07030801410a0401020304
  END
  1 passed
  2 passed
  > 1 6418fd032005fd03210196500d050b07030801410a0401020304

Exit status:
  0  the script has ended
  1  a file has a fault, or a line is bad; standard error has `rules:LINE: KIND`, `keys:LINE: KIND`
     or `script:LINE: bad line`, and then a line that explains the fault
  2  the command line is wrong
  3  input or output failed, or memory ran out outside an event";

const ABOUT_UDP: &str = "Runs the node on a UDP port of this machine and prints its answers";

const AFTER_UDP: &str =
    "ENDPOINT is a port of 127.0.0.1, such as 6363, or an address and a port, such as 192.0.2.1:6363
or [2001:db8::1]:6363. Only programs on this machine can reach a node on 127.0.0.1. To serve other
machines, let the node listen on a network address of this machine.

PEERS are endpoints that the node knows from the start: at most 64, each given once, and all with
the address family of --listen (IPv4 or IPv6). The peers have the faces 1, 2 and so on, in this
order. The first K peers (--local K) are Local. They may send commands under /localhost, so they
must have loopback addresses (127.0.0.0/8 or ::1). The other peers are Far. The face of a peer never
closes while the node runs.

An endpoint that is not a peer is a stranger. If the node listens on a loopback address or has
--open, the first datagram of a stranger opens a Far face, and is handled in a later turn. Otherwise
the node drops the datagrams of strangers.

The face of a stranger becomes idle when nothing has come from the stranger for the time of --idle.
Before the node handles a datagram, or accepts a connection, it closes the idle faces, one in each
turn. If 64 endpoints have faces, and an endpoint without a face sends a datagram, the node looks
for a face of a stranger that may close: one that has neither a pending Interest nor a route, or one
that has been silent for at least 10 seconds. Of these it closes the one that has been silent
longest. If none may close, the node drops the datagram. While the node runs, it never gives the
same number to two faces.

With --tcp or --unix, programs can also connect to the node, and send and get packets one after
another on the connection. With --websocket, web pages can do so, each packet in a binary message.
Their browser says the page's origin: each --origin names one that may connect, such as
https://example.org, and no others may. The face of such a connection is Far, wherever it comes
from. Each connection is a face. It closes when the connection ends or fails,
when its octets are no packets, or when a packet that it has begun is not whole 10 seconds later.
Over a Unix socket, and over TCP from a loopback address, the face is Local: its program may send
commands under /localhost, and the face stays open until the connection ends. Over TCP from another
address the face is Far, and closes when it is idle or must make room, as that of a stranger. Of the
64 places for faces, 8 are left to peers and to Local connections: strangers and Far connections
must make room when they have 56 faces. A connection for which there is no place is closed at once.
A file that an earlier node left at PATH is removed. Only the owner of the file at PATH can connect
to it.

A turn handles one event: a face opens or closes, a packet arrives, or the node takes new rules and
keys. The node prints turn N as `script` prints event N. It reads the time from the machine's clock.

If the file of --rules or --keys has changed, the node reads both files again, and takes the new
rules and keys in a turn of their own. To change a file, write a new file beside it, and rename the
new file to the old name. If a file has a fault, the node reports the fault, and keeps the old rules
and keys. Each line of a key file has the URI of a key's name, a space, and the key in hexadecimal.

With --journal, the node writes a line to FILE for each allowed command, and for every other event
that changes faces, routes, strategies, rules or the repository. It writes the line before it sends
the packets of the event. It writes no line when a route expires. When a node is started with FILE
again, it continues from the state in FILE, even after a crash, but with the rules and keys of its
own --rules and --keys. A peer keeps its face if its place in PEERS and its scope (Local or Far) are
as before. All other faces close. The first turns take new rules and keys, and close these faces.
FILE is a script. It contains the keys. Only one node at a time can use it. The rule file and the
key file must have at most 9985 octets together.

The log goes to standard error, even with --quiet. Between --log and PEERS there must be a value or
another option: write `--log all` or `--log events`.

Example: a node that takes two turns. In the first turn it opens a face for the client. In the
second turn it answers the client's Interest for /A with a Nack.
  $ ndn_node udp --listen 6363 --turns 2 &
  $ ndn_tool send 050b07030801410a0401020304 --to 6363
  1 passed
  2 passed
  > 1 6418fd032005fd03210196500d050b07030801410a0401020304
  6418fd032005fd03210196500d050b07030801410a0401020304

Exit status:
  0  the node has taken its turns
  1  a file has a fault; standard error has `rules:LINE: KIND`, `keys:LINE: KIND` or
     `journal:LINE: KIND`, and then a line that explains the fault
  2  the command line is wrong
  3  a file cannot be read; the port, output or the journal failed; or memory ran out outside an
     event";

const ABOUT_RUN: &str = "Runs the node that a configuration file describes";

const AFTER_RUN: &str =
    "The node does what `ndn_node udp` does with the options that CONFIG stands for.

CONFIG has entries as a rule file: on each line a key, a key and its value, or a brace. A semicolon
begins a comment. The least file says where the node listens:
  listen
  {
    udp 6363
  }
docs/CONFIG.md has a whole file. The keys, and what they stand for:
  listen      udp ENDPOINT (--listen), tcp ENDPOINT (--tcp), unix PATH (--unix),
              strangers yes|no (--open)
  rules PATH, keys PATH, journal PATH
              as the options
  repository  prefix URI (--repo)
  cache       capacity N (--cache)
  limits      idle_timeout SECONDS (--idle), turns N (--turns)
  log         level none|events|all (--log), answers yes|no (no is --quiet)
  peers       for each peer NAME FACEURI, and perhaps a block with scope local|far (far if absent).
              A FaceUri is udp4://192.0.2.1:6363 or udp6://[2001:db8::1]:6363. The peers have the
              faces 1, 2 and so on. Local peers come before Far ones
All but udp may be absent. Then the node has the default of `ndn_node udp`; without turns it runs
until it is stopped. A path that does not begin with / is taken from the folder of CONFIG.

Exit status:
  0  the node has taken its turns
  1  a file has a fault; standard error has `config:LINE: KIND`, `rules:LINE: KIND`,
     `keys:LINE: KIND` or `journal:LINE: KIND`, and then a line that explains the fault
  2  the command line is wrong, or the repository's prefix is not allowed
  3  a file cannot be read; the port, output or the journal failed; or memory ran out outside an
     event";

const ABOUT_CHECK: &str = "Checks a configuration file, and the rules and keys that it names";

const AFTER_CHECK: &str =
    "The program reads CONFIG, and the rule file and the key file that it names, as `ndn_node run CONFIG`
does when it starts. It starts no node, and neither binds a port nor opens the journal. If there is
no fault, it prints what it has read, such as `node.conf: peers 3, rules 4, keys 2`. Of several
faults it reports the first.

Exit status:
  0  there is no fault
  1  a file has a fault; standard error has `config:LINE: KIND`, `rules:LINE: KIND` or
     `keys:LINE: KIND`, and then a line that explains the fault
  2  the command line is wrong, or the repository's prefix is not allowed
  3  a file cannot be read, output failed, or memory ran out";

const ABOUT_JOURNAL: &str = "Shortens a journal: leaves out the lines that a node no longer needs";

const AFTER_JOURNAL: &str =
    "FILE is a journal that `ndn_node udp --journal FILE` wrote. Give the --repo of that node. Stop
the node first: a journal that is in use is refused.

The program makes a new journal from the lines of FILE that restore the open faces, routes,
strategies, rules and the repository as they are after the last line of FILE. The new journal also
has each signer's last command, and each signer's last command with a sequence number, so that a
replay of an old command is still denied. If the line of a command with the status 503 is kept, all
lines before it are kept too. If a crash cut the last line of FILE short, the program leaves this
line out, as a node does when it starts. The new journal ends with a line `tick`, which has the time
of the last whole line of FILE.

The program replays FILE on one empty node, and the new journal on another empty node. It compares
the tables of the two nodes, and the last rules and keys of the two journals. If there is no
difference, and the new journal is shorter than FILE, the program writes the new journal to
FILE.short, and renames FILE.short to FILE. Otherwise FILE stays unchanged. Standard output has one
line: `FILE: 7 lines, 4 kept` or `FILE: nothing is left out`.

Exit status:
  0  the journal was shortened, or nothing is left out
  1  a line of the journal is bad, or a node with this --repo would not write it, or there are too
     many lines; standard error has `journal:LINE: KIND`, and then a line that explains the fault
  2  the command line is wrong
  3  the journal is in use, a file or output failed, or memory ran out";

const AFTER: &str =
    "`ndn_node script --help`, `ndn_node udp --help`, `ndn_node run --help`, `ndn_node check --help` and
`ndn_node journal --help` describe the subcommands.

Exit status:
  0  the job is done
  1  a file or a script has a fault
  2  the command line is wrong
  3  a file cannot be read or written; the port, input or output failed; a journal is in use; or
     memory ran out outside an event";

/// Reads the arguments of a command line. The first argument is the program's name.
pub fn request_of<S: AsStr>(alloc: Global, arguments: &[S]) -> Result<Request, Fault>
    ensures asked { IfOk result IsAsked }
    ensures few { IfOk result HasFewPeers }
    ensures fault { IfErr result IsFaultOfWords }
{
    let mut command = command(alloc)?;
    let matches = match command.try_get_matches_from_mut(arguments) {
        Ok(matches) => matches,
        Err(error) => return answer_to(error),
    };
    // The parser accepts the argument `--`, but this program does not.
    if has_dashes(arguments) {
        return answer_to(command.error(
            ErrorKind::UnknownArgument,
            "unexpected argument '--' found",
        )?);
    }
    match matches.subcommand() {
        Some((name, found)) => named_request(alloc, name, found),
        None => answer_to(command.error(ErrorKind::MissingSubcommand, "a subcommand is missing")?),
    }
}

/// Returns the request of the subcommand `name` with these options.
fn named_request(alloc: Global, name: &str, found: &ArgMatches<'_>) -> Result<Request, Fault>
    ensures { ReadsInMemory (IsRequest name.now (rows_in found.now)) result }
{
    if name == "udp" {
        let node = Options::read(alloc, found)?;
        Ok(Request::Udp(node, UdpOptions::read(alloc, found)?))
    } else if name == "run" {
        Ok(Request::Run(config_path(alloc, found)?))
    } else if name == "check" {
        Ok(Request::Check(config_path(alloc, found)?))
    } else if name == "journal" {
        Ok(Request::Shorten(ShorteningOptions::read(alloc, found)?))
    } else {
        Ok(Request::Script(Options::read(alloc, found)?))
    }
}

/// Returns the path of the configuration file. The parser refuses a command line without it.
fn config_path(alloc: Global, found: &ArgMatches<'_>) -> Result<String, Fault>
    ensures { ReadsInMemory (IsPathOf (rows_in found.now)) result }
{
    Ok(String::from_str(alloc, given_or("", value(found, "CONFIG")))?)
}

/// Returns whether one of the arguments is `--`.
fn has_dashes<S: AsStr>(arguments: &[S]) -> bool {
    arguments.iter().any(|argument| argument.as_str() == "--")
}

fn answer_to(error: Error) -> Result<Request, Fault>
    ensures { result ≡ reading_of (kind_of error) error }
{
    match error.kind() {
        ErrorKind::DisplayHelp | ErrorKind::DisplayVersion => Ok(Request::Help(error)),
        ErrorKind::OutOfMemory => Err(Fault::Script(RunFault::Memory)),
        _ => Err(Fault::CommandLine(error)),
    }
}

fn command<'a>(alloc: Global) -> Result<Command<'a>, AllocError> {
    Command::new(alloc, "ndn_node")
        .version(VERSION)
        .about(ABOUT)
        .after_help(AFTER)
        .disable_help_subcommand(true)
        .subcommand_required(true)
        .arg_required_else_help(true)
        .subcommand(script_command(alloc)?)?
        .subcommand(udp_command(alloc)?)?
        .subcommand(config_command(alloc, "run", ABOUT_RUN, AFTER_RUN)?)?
        .subcommand(config_command(alloc, "check", ABOUT_CHECK, AFTER_CHECK)?)?
        .subcommand(journal_command(alloc)?)
}

fn script_command<'a>(alloc: Global) -> Result<Command<'a>, AllocError> {
    let command = Command::new(alloc, "script")
        .about(ABOUT_SCRIPT)
        .after_help(SCRIPTS);
    with_node(alloc, command)
}

fn udp_command<'a>(alloc: Global) -> Result<Command<'a>, AllocError> {
    let command = Command::new(alloc, "udp")
        .about(ABOUT_UDP)
        .after_help(AFTER_UDP)
        .arg(required_option(
            alloc,
            "listen",
            "ENDPOINT",
            "The endpoint on which the node listens",
        ))?
        .arg(required_option(
            alloc,
            "turns",
            "N",
            "The number of turns until the node exits; each turn handles one event",
        ))?
        .arg(option(
            alloc,
            "local",
            "K",
            "The first K peers are Local, and must have loopback addresses; 0 if absent",
        ))?
        .arg(option(
            alloc,
            "idle",
            "SECONDS",
            "The seconds of silence until the face of a stranger is idle; 600 if absent",
        ))?
        .arg(flag(
            alloc,
            "open",
            "Accepts datagrams of strangers, whatever address the node listens on",
        ))?
        .arg(log_option(alloc))?
        .arg(option(
            alloc,
            "journal",
            "FILE",
            "Records faces, routes, strategies, rules and repository in FILE for the next start",
        ))?
        .arg(flag(alloc, "quiet", "Prints nothing on standard output"))?
        .arg(option(
            alloc,
            "tcp",
            "ENDPOINT",
            "Also listens for TCP connections on this endpoint",
        ))?
        .arg(option(
            alloc,
            "unix",
            "PATH",
            "Also listens on a Unix socket with this path, for programs of its owner",
        ))?
        .arg(option(
            alloc,
            "websocket",
            "ENDPOINT",
            "Also listens for WebSocket connections of web pages; give --origin too",
        ))?
        .arg(option(
            alloc,
            "origin",
            "ORIGIN",
            "A web page's origin that may connect over WebSocket; may be given 16 times",
        )
        .action(ArgAction::Append))?;
    with_node(alloc, command)?.arg(peers(alloc))
}

/// Returns a subcommand with the path of a configuration file.
fn config_command<'a>(
    alloc: Global,
    name: &'a str,
    about: &'a str,
    after: &'a str,
) -> Result<Command<'a>, AllocError> {
    Command::new(alloc, name).about(about).after_help(after).arg(
        Arg::new(alloc, "CONFIG")
            .required(true)
            .help("The configuration file"),
    )
}

fn journal_command<'a>(alloc: Global) -> Result<Command<'a>, AllocError> {
    Command::new(alloc, "journal")
        .about(ABOUT_JOURNAL)
        .after_help(AFTER_JOURNAL)
        .arg(required_option(
            alloc,
            "shorten",
            "FILE",
            "The journal; stop the node that uses it first",
        ))?
        .arg(repo_option(alloc))
}

/// Adds the options of a node to the command.
fn with_node<'a>(alloc: Global, command: Command<'a>) -> Result<Command<'a>, AllocError> {
    command
        .arg(option(alloc, "rules", "FILE", "The rule file; no rules if absent"))?
        .arg(option(alloc, "keys", "FILE", "The key file; no keys if absent"))?
        .arg(repo_option(alloc))?
        .arg(option(
            alloc,
            "cache",
            "N",
            "The greatest number of cached Data, from 1 to 65536; 1024 if absent",
        ))
}

/// Returns the option for the repository's prefix.
fn repo_option<'a>(alloc: Global) -> Arg<'a> {
    option(
        alloc,
        "repo",
        "URI",
        "The prefix of the repository; /repo if absent",
    )
}

/// Returns the argument for the addresses and ports of the peers.
fn peers<'a>(alloc: Global) -> Arg<'a> {
    Arg::new(alloc, "PEERS").num_args(0..).help(
        "The endpoints of the peers, which have the faces 1, 2 and so on",
    )
}

/// Returns the option that selects what is logged. If the command line has the option without a
/// value, the value is `events`.
fn log_option<'a>(alloc: Global) -> Arg<'a> {
    option(
        alloc,
        "log",
        "all",
        "Logs commands, new rules, denials, drops and failures; with `all`, logs every event",
    )
    .num_args(0..=1)
    .default_missing_value("events")
}

/// Returns a required option with a value.
fn required_option<'a>(alloc: Global, id: &'a str, value: &'a str, help: &'a str) -> Arg<'a> {
    option(alloc, id, value, help).required(true)
}

/// Returns an option with a value.
fn option<'a>(alloc: Global, id: &'a str, value: &'a str, help: &'a str) -> Arg<'a> {
    Arg::new(alloc, id).long(id).value_name(value).help(help)
}

/// Returns an option without a value.
fn flag<'a>(alloc: Global, id: &'a str, help: &'a str) -> Arg<'a> {
    Arg::new(alloc, id)
        .long(id)
        .action(ArgAction::SetTrue)
        .help(help)
}
