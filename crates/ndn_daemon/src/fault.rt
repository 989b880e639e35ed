//! The faults of the program, with their messages and exit statuses.
use crate::advice::{advice_on_config, advice_on_rules, is_config_memory, is_memory};
use file_faults::{KeyMessage, cause_of};
use info_rules::{RulesFault, RulesFaultKind};
use key_files::KeyFault;
use node_config::{ConfigFault, ConfigFaultKind};
use node_core::{NodeFault, RunFault};
use std::alloc::AllocError;
use std::fmt;
use std::io::ErrorKind;
use std::net::SocketAddr;

/// Why the program could not do what the command line asked for.
#[derive(Debug, Drop)]
pub enum Fault {
    /// The command line is wrong.
    CommandLine(clap::Error),
    /// A value of an option, or of the argument `PEERS`, is not allowed.
    BadValue {
        /// The name of the option or argument with this value, such as `--cache` or `PEERS`.
        place: &'static str,
        /// The values that are allowed.
        wanted: &'static str,
    },
    /// An argument is not UTF-8.
    NotText,
    /// A file cannot be opened or read, or a journal cannot be locked or truncated.
    Unread {
        /// The kind of file.
        file: &'static str,
        /// The path of the file.
        path: String,
        /// The kind of the error that occurred.
        kind: ErrorKind,
    },
    /// The configuration file has a fault, or memory ran out for its configuration.
    Config(ConfigFault),
    /// The rule file has a fault, or memory ran out for its rules.
    Rules(RulesFault),
    /// The key file has a fault, or memory ran out for its keys.
    Keys(KeyFault),
    /// The key file has more octets than allowed.
    LargeKeys,
    /// The script could not be run to its end, a node could not be created, standard output could
    /// not be written to, or memory ran out.
    Script(RunFault),
    /// This address and port cannot be bound.
    Unbound {
        /// The address and the port.
        endpoint: SocketAddr,
    },
    /// The node cannot listen for TCP connections on this address and port.
    UnboundTcp {
        /// The address and the port.
        endpoint: SocketAddr,
    },
    /// The node cannot listen for connections on the Unix socket with this path.
    UnboundUnix {
        /// The path.
        path: String,
    },
    /// The node cannot listen for WebSocket connections on this address and port.
    UnboundWebSocket {
        /// The address and the port.
        endpoint: SocketAddr,
    },
    /// No datagram can be received from the port, or the system cannot wait for several sockets.
    Unreceived,
    /// The journal cannot be used.
    Journal(JournalFault),
}

/// Why a journal cannot be used.
#[derive(Clone, Copy, Debug, PartialEq, Eq)]
pub enum JournalFault {
    /// Another program holds the lock of the journal, or has just replaced the journal.
    Locked,
    /// The line with this number, counted from 1, is not in the format of a script, which is the
    /// format of a journal.
    BadLine(u64),
    /// An event cannot be written to the journal.
    Unwritten,
    /// The rule file and the key file together are too long for one line of the journal.
    LongRules,
    /// The line with this number, counted from 1, cannot come from a node whose repository has the
    /// prefix `repo` of the `ShorteningOptions`.
    NotJournalled(u64),
    /// The journal has too many lines to be shortened.
    ManyLines,
    /// The shorter journal cannot be written.
    Unshortened,
}

impl Fault {
    ghost use Rattle.std.specs.Prelude.{◌≡◌};
    ghost use Rattle.ndn_daemon.specs.Fault.{status_of};

    /// Returns the exit status: 1 for a fault in a file or in the script, 2 for a wrong command
    /// line, 3 if reading, writing, a lock, the port or memory failed.
    pub fn exit_status(&self) -> u8
        ensures { result ≡ status_of self.now }
    {
        match self {
            Fault::CommandLine(_)
            | Fault::BadValue { .. }
            | Fault::NotText
            | Fault::Script(RunFault::Node(NodeFault::BadRepoPrefix | NodeFault::BadCapacity)) => 2,
            Fault::Config(ConfigFault { kind, .. }) => {
                match kind {
                    ConfigFaultKind::Memory => 3,
                    _ => 1,
                }
            }
            Fault::Rules(RulesFault { kind, .. }) => {
                match kind {
                    RulesFaultKind::Memory => 3,
                    _ => 1,
                }
            }
            Fault::Keys(
                KeyFault::BadLine(_)
                | KeyFault::BadKey(_)
                | KeyFault::TwiceNamed(_)
                | KeyFault::TooMany,
            )
            | Fault::LargeKeys
            | Fault::Script(RunFault::BadLine(_))
            | Fault::Journal(
                JournalFault::BadLine(_)
                | JournalFault::LongRules
                | JournalFault::NotJournalled(_)
                | JournalFault::ManyLines,
            ) => 1,
            Fault::Unread { .. }
            | Fault::Unbound { .. }
            | Fault::UnboundTcp { .. }
            | Fault::UnboundUnix { .. }
            | Fault::UnboundWebSocket { .. }
            | Fault::Unreceived
            | Fault::Journal(
                JournalFault::Locked | JournalFault::Unwritten | JournalFault::Unshortened,
            )
            | Fault::Keys(KeyFault::Memory)
            | Fault::Script(
                RunFault::Read
                | RunFault::Write
                | RunFault::Memory
                | RunFault::Node(NodeFault::Memory),
            ) => 3,
        }
    }
}

impl Fault {
    ghost use Rattle.std.specs.Prelude.{◌↔◌, IsTrue};
    ghost use Rattle.ndn_daemon.specs.Turn.{EndsTurns};

    /// Returns whether this is a fault with which a node on a bound port ends.
    pub fn ends_turns(&self) -> bool
        ensures { IsTrue result ↔ EndsTurns self.now }
    {
        match self {
            Fault::Unreceived => true,
            Fault::Script(RunFault::Write | RunFault::Memory) => true,
            Fault::Journal(JournalFault::Unwritten) => true,
            _ => false,
        }
    }
}

impl fmt::Display for Fault {
    ghost use Rattle.ndn_daemon.specs.Fault.{text_of};

    // Each message ends with an LF.
    ghost output = { text_of };

    fn fmt<W: fmt::Write>(&self, f: &mut fmt::Formatter<W>) -> fmt::Result {
        match self {
            Fault::CommandLine(error) => error.fmt(f),
            Fault::BadValue { place, wanted } => {
                writeln!(f, "error: invalid value for {place}: give {wanted}")
            }
            Fault::NotText => f.write_str("error: an argument is not UTF-8 text\n"),
            Fault::Unread { file, path, kind } => {
                writeln!(
                    f,
                    "error: the {file} {path} cannot be read: {}",
                    cause_of(*kind)
                )
            }
            Fault::Config(fault) if is_config_memory(fault.kind) => {
                f.write_str("error: out of memory\n")
            }
            Fault::Config(ConfigFault { line, kind }) => writeln!(
                f,
                "config:{line}: {}\n  {}",
                kind.name(),
                advice_on_config(*line, *kind)
            ),
            Fault::Rules(fault) if is_memory(fault.kind) => f.write_str("error: out of memory\n"),
            Fault::Rules(RulesFault { line, kind }) => writeln!(
                f,
                "rules:{line}: {}\n  {}",
                kind.name(),
                advice_on_rules(*line, *kind)
            ),
            Fault::Keys(fault) => KeyMessage(*fault).fmt(f),
            Fault::LargeKeys => {
                f.write_str("keys:0: TooLarge\n  at most 8388608 octets are allowed\n")
            }
            Fault::Script(RunFault::BadLine(line)) => writeln!(
                f,
                "script:{line}: bad line\n  a line is up FACE local|far MOMENT, down FACE MOMENT, tick MOMENT, in FACE MOMENT HEX, or rules MOMENT HEX HEX"
            ),
            Fault::Unbound { endpoint } => writeln!(
                f,
                "error: {endpoint} cannot be bound: give an address of this machine and a port that no other program uses"
            ),
            Fault::UnboundTcp { endpoint } => writeln!(
                f,
                "error: {endpoint} cannot be bound for TCP: give an address of this machine and a port that no other program uses"
            ),
            Fault::UnboundUnix { path } => writeln!(
                f,
                "error: the Unix socket {path} cannot be bound: give a path in a folder that you may write, at which there is no file, and no program listens"
            ),
            Fault::UnboundWebSocket { endpoint } => writeln!(
                f,
                "error: {endpoint} cannot be bound for WebSocket: give an address of this machine and a port that no other program uses"
            ),
            Fault::Unreceived => f.write_str("error: nothing can be received from the port\n"),
            Fault::Journal(JournalFault::Locked) => {
                f.write_str("error: the journal is in use by another program\n")
            }
            Fault::Journal(JournalFault::BadLine(line)) => writeln!(
                f,
                "journal:{line}: bad line\n  a journal is a script; restore a copy, or take off this line and those after it"
            ),
            Fault::Journal(JournalFault::Unwritten) => f.write_str(
                "error: the journal cannot be written; no packet of the last event was sent\n",
            ),
            Fault::Journal(JournalFault::LongRules) => f.write_str(
                "journal:0: TooLong\n  the rule file and the key file have more than 9985 octets together\n",
            ),
            Fault::Journal(JournalFault::NotJournalled(line)) => writeln!(
                f,
                "journal:{line}: not journalled\n  a node with this --repo does not write this line; give the --repo of the node that wrote it"
            ),
            Fault::Journal(JournalFault::ManyLines) => f.write_str(
                "journal:0: TooLong\n  a journal of more than 4294967294 lines cannot be shortened\n",
            ),
            Fault::Journal(JournalFault::Unshortened) => f.write_str(
                "error: the shorter journal cannot be written; the journal restores the same as before\n",
            ),
            Fault::Script(RunFault::Read) => {
                f.write_str("error: standard input cannot be read\n")
            }
            Fault::Script(RunFault::Write) => {
                f.write_str("error: standard output cannot be written\n")
            }
            Fault::Script(RunFault::Node(NodeFault::BadRepoPrefix)) => f.write_str(
                "error: the repository's prefix is empty or begins with /localhost: give a name such as /repo\n",
            ),
            Fault::Script(RunFault::Node(NodeFault::BadCapacity)) => f.write_str(
                "error: the cache's capacity is out of range: give a number from 1 to 65536\n",
            ),
            Fault::Script(RunFault::Node(NodeFault::Memory) | RunFault::Memory) => {
                f.write_str("error: out of memory\n")
            }
        }
    }
}

impl From<AllocError> for Fault {
    ghost use Rattle.std.specs.Prelude.{◌≡◌};
    ghost use Rattle.ndn_daemon.specs.declared.fault.Fault.TheVariants.{Script};
    ghost use Rattle.node_core.specs.declared.script.RunFault.TheVariants.{Memory};

    ghost from_gives = { λ _ fault. fault ≡ Script Memory };

    fn from(_error: AllocError) -> Fault {
        Fault::Script(RunFault::Memory)
    }
}
