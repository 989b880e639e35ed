//! Reads configuration files.

ghost use Rattle.std.specs.Prelude.{◌≡◌, ◌≤◌, ℕ, IfOk, List, Result, length};
ghost use Rattle.info_rules.specs.Shown.{keys_of};
ghost use Rattle.node_config.specs.declared.fault.ConfigFault.{ConfigFault as Fault};
ghost use Rattle.node_config.specs.File.{ConfigOf, EntriesOf, FileOf};
ghost use Rattle.node_config.specs.Plain.{PlainConfig, plain_config};
ghost use Rattle.node_config.specs.Reading.{Meets};

use crate::block::check_keys;
use crate::config::Config;
use crate::fault::{ConfigFault, ConfigFaultKind};
use crate::peers::read_peers;
use crate::sections::{read_files, read_limits, read_listen, read_log, read_repository};
use info_rules::{InfoTree, Keys};
use std::alloc::Global;
use std::str;

/// The keys of a configuration file.
const WORDS: [&str; 9] = [
    "listen",
    "peers",
    "rules",
    "keys",
    "journal",
    "repository",
    "cache",
    "limits",
    "log",
];

/// Reads the configuration from the keys of a file.
fn read_keys(alloc: Global, file: Keys<'_>) -> Result<Config, ConfigFault>
    ensures meets { Meets (ConfigOf (keys_of file.entry)) plain_config result }
    ensures few { IfOk result (λ config. length config.peers.items ≤ 64) }
{
    check_keys(&WORDS, file)?;
    let listen = read_listen(alloc, file)?;
    let files = read_files(alloc, file)?;
    let prefix = read_repository(alloc, file)?;
    let limits = read_limits(file)?;
    let log = read_log(file)?;
    let peers = read_peers(alloc, &listen.udp, file)?;
    Ok(Config {
        listen,
        files,
        prefix,
        limits,
        log,
        peers,
    })
}

/// Reads the entries of a text.
fn read_tree(alloc: Global, octets: &[u8]) -> Result<InfoTree, ConfigFault>
    ensures { Meets (EntriesOf octets.now) (λ tree. tree) result }
{
    let Ok(text) = str::from_utf8(octets) else {
        return Err(ConfigFaultKind::Syntax.at(0));
    };
    match InfoTree::read(alloc, text) {
        Ok(tree) => Ok(tree),
        Err(fault) => Err(ConfigFault::of_syntax(fault)),
    }
}

impl Config {
    /// Reads a configuration file: UTF-8 text of at most 65,536 octets, with entries as in a rule
    /// file (`InfoTree::read`). A key of the file has a block, or else a value:
    ///
    /// - `listen`, which must be there: `udp` (an endpoint, which must be there), `tcp` (an
    ///   endpoint), `unix` (a path) and `strangers` (`yes` or `no`; `no` if absent). An endpoint is
    ///   a port of 127.0.0.1, or an address and a port;
    /// - `rules`, `keys` and `journal`: the path of a file;
    /// - `repository`: `prefix` (the URI of a name; `/repo` if absent);
    /// - `cache`: `capacity` (1 to 65,536 Data; 1,024 if absent);
    /// - `limits`: `idle_timeout` (1 to 4,294,967,295 seconds; 600 if absent) and `turns` (a number
    ///   below 2^64; 2^64 - 1 if absent);
    /// - `log`: `level` (`none`, `events` or `all`; `none` if absent) and `answers` (`yes` or `no`;
    ///   `yes` if absent);
    /// - `peers`: for each peer its name, its FaceUri `udp4://ADDRESS:PORT` or
    ///   `udp6://[ADDRESS]:PORT`, and perhaps a block with `scope` (`local` or `far`; `far` if
    ///   absent).
    ///
    /// Each key is given at most once. If the file has faults, returns the first one in this order:
    /// the first fault of the text; the first key of the file that is unknown or given again; and
    /// then the faults of the blocks and keys, in the order above. In a block, the first key that is
    /// unknown or given again comes before the values, in the order above. The peers come in the
    /// order of the file. The faults of one peer come in the order of `ConfigFaultKind`, from
    /// `TooManyPeers` on, with `BadShape` before `BadFaceUri`, and the faults of its block before
    /// `UriTwice`. `Memory` may be returned for any file.
    pub fn read(alloc: Global, octets: &[u8]) -> Result<Config, ConfigFault>
        // The result is the configuration of the file, or the fault that is reported, or `Memory`.
        ensures meets { Meets (FileOf octets.now) plain_config result }
        ensures few { IfOk result (λ config. length config.peers.items ≤ 64) }
    {
        let tree = read_tree(alloc, octets)?;
        read_keys(alloc, tree.keys())
    }
}

/// Law: a file has at most one configuration, or else at most one fault that is reported, but not
/// both.
pub fn configurations_have_one_reading()
    ensures { (octets : List ℕ) (a b : Result PlainConfig Fault) → FileOf octets a
        → FileOf octets b → a ≡ b }
{}
