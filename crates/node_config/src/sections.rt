//! Reads the blocks and keys of the file, except the peers.

ghost use Rattle.std.specs.Prelude.{◌≡◌, codes, map};
ghost use Rattle.info_rules.specs.Shown.{keys_of};
ghost use Rattle.node_config.specs.Keys.{line_in};
ghost use Rattle.node_config.specs.Plain.{plain_files, plain_listen};
ghost use Rattle.node_config.specs.Reading.{Meets, seen_as};
ghost use Rattle.node_config.specs.Sections.{BlockOf, CacheOf, FilesOf, LimitsOf, ListenOf, LogOf, RepositoryOf, UdpOf};

use crate::block::{block_at, check_keys, line_at};
use crate::config::{Files, Limits, Listen, Log, LogLevel};
use crate::fault::{ConfigFault, ConfigFaultKind};
use crate::value::{path_at, prefix_at, value_at, value_or};
use crate::words::{Capacity, Consent, Seconds, Turns};
use info_rules::Keys;
use ndn_names::NameBuf;
use std::alloc::Global;
use std::net::SocketAddr;

/// The number of turns of a node without the key `turns`.
const MOST_TURNS: u64 = 18_446_744_073_709_551_615;

/// Returns the keys of the file's block `word`, or no keys if there is no such block. Each key of
/// the block is one of `words`, and is given once. `file` has the keys of the file.
fn block_with<'a>(file: Keys<'a>, word: &str, words: &[&str]) -> Result<Keys<'a>, ConfigFault>
    ensures { BlockOf word.now (map (λ word. word.now) words.now) (keys_of file.entry)
        (seen_as keys_of result) }
{
    let keys = block_at(file, word)?;
    check_keys(words, keys)?;
    Ok(keys)
}

/// Reads the endpoint for UDP from the keys of the block `listen`. `file` has the keys of the file.
fn read_udp(file: Keys<'_>, keys: Keys<'_>) -> Result<SocketAddr, ConfigFault>
    ensures { UdpOf (line_in (codes "listen") (keys_of file.entry)) (keys_of keys.entry) result }
{
    match value_at(keys, "udp", ConfigFaultKind::BadEndpoint)? {
        Some(endpoint) => Ok(endpoint),
        None => Err(ConfigFaultKind::Missing.at(line_at(file, "listen"))),
    }
}

/// Reads the block `listen`. `file` has the keys of the file.
pub fn read_listen(alloc: Global, file: Keys<'_>) -> Result<Listen, ConfigFault>
    ensures { Meets (ListenOf (keys_of file.entry)) plain_listen result }
{
    let keys = block_with(file, "listen", &["udp", "tcp", "unix", "strangers"])?;
    let udp = read_udp(file, keys)?;
    let tcp = value_at(keys, "tcp", ConfigFaultKind::BadEndpoint)?;
    let unix = path_at(alloc, keys, "unix")?;
    let strangers = value_or(keys, "strangers", ConfigFaultKind::BadWord, Consent(false))?;
    Ok(Listen {
        udp,
        tcp,
        unix,
        strangers: strangers.0,
    })
}

/// Reads the paths of the keys `rules`, `keys` and `journal`. `file` has the keys of the file.
pub fn read_files(alloc: Global, file: Keys<'_>) -> Result<Files, ConfigFault>
    ensures { Meets (FilesOf (keys_of file.entry)) plain_files result }
{
    let rules = path_at(alloc, file, "rules")?;
    let keys = path_at(alloc, file, "keys")?;
    let journal = path_at(alloc, file, "journal")?;
    Ok(Files {
        rules,
        keys,
        journal,
    })
}

/// Reads the block `repository`. `file` has the keys of the file.
pub fn read_repository(alloc: Global, file: Keys<'_>) -> Result<NameBuf, ConfigFault>
    ensures { Meets (RepositoryOf (keys_of file.entry)) (λ name. name) result }
{
    let keys = block_with(file, "repository", &["prefix"])?;
    prefix_at(alloc, keys, "prefix")
}

/// Reads the block `cache`. `file` has the keys of the file.
fn read_cache(file: Keys<'_>) -> Result<Capacity, ConfigFault>
    ensures { CacheOf (keys_of file.entry) result }
{
    let keys = block_with(file, "cache", &["capacity"])?;
    value_or(keys, "capacity", ConfigFaultKind::BadNumber, Capacity(1024))
}

/// Reads the blocks `cache` and `limits`. `file` has the keys of the file.
pub fn read_limits(file: Keys<'_>) -> Result<Limits, ConfigFault>
    ensures { LimitsOf (keys_of file.entry) result }
{
    let cache = read_cache(file)?;
    let keys = block_with(file, "limits", &["idle_timeout", "turns"])?;
    let idle = value_or(
        keys,
        "idle_timeout",
        ConfigFaultKind::BadNumber,
        Seconds(600),
    )?;
    let turns = value_or(keys, "turns", ConfigFaultKind::BadNumber, Turns(MOST_TURNS))?;
    Ok(Limits {
        cache: cache.0,
        idle: idle.0,
        turns: turns.0,
    })
}

/// Reads the block `log`. `file` has the keys of the file.
pub fn read_log(file: Keys<'_>) -> Result<Log, ConfigFault>
    ensures { LogOf (keys_of file.entry) result }
{
    let keys = block_with(file, "log", &["level", "answers"])?;
    let level = value_or(keys, "level", ConfigFaultKind::BadWord, LogLevel::None)?;
    let answers = value_or(keys, "answers", ConfigFaultKind::BadWord, Consent(true))?;
    Ok(Log {
        level,
        answers: answers.0,
    })
}
