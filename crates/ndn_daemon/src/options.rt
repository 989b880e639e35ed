//! The options: the values that are given for them, and the default values.
ghost use Rattle.std.specs.Prelude.{◌≡◌, option_map};
ghost use Rattle.ndn_names.specs.ReadsAs.{ReadsAs};
ghost use Rattle.ndn_daemon.specs.Options.{IsCapacity, IsOptions, IsShorteningOptions, MayBePath, Reads, ReadsInMemory, given_or, rows_in, value_at};

use crate::fault::Fault;
use clap::ArgMatches;
use ndn_names::{NameBuf, NameFault};
use node_core::RunFault;
use std::alloc::Global;

/// The options of a node.
#[derive(Debug, Drop)]
pub struct Options {
    /// The path of the rule file. Without a rule file, the node starts with no rules. A node with
    /// no rules allows no command and no Data.
    pub rules: Option<String>,
    /// The path of the key file. Without a key file, the node starts with no keys.
    pub keys: Option<String>,
    /// The repository's prefix.
    pub repo: NameBuf,
    /// The capacity of the cache, as a number of Data.
    pub cache: u32,
}

impl Options {
    /// Reads the options from the parsed command line.
    pub fn read(alloc: Global, found: &ArgMatches<'_>) -> Result<Options, Fault>
        ensures { ReadsInMemory (IsOptions (rows_in found.now)) result }
    {
        Ok(Options {
            rules: path_of(alloc, value(found, "rules"))?,
            keys: path_of(alloc, value(found, "keys"))?,
            repo: repo_of(alloc, given_or("/repo", value(found, "repo")))?,
            cache: cache_of(given_or("1024", value(found, "cache")))?,
        })
    }
}

/// The options of the shortening of a journal.
#[derive(Debug, Drop)]
pub struct ShorteningOptions {
    /// The path of the journal.
    pub journal: String,
    /// The prefix of the repository of the node that wrote the journal.
    pub repo: NameBuf,
}

impl ShorteningOptions {
    /// Reads the options from the parsed command line. The parser refuses a command line without
    /// the path of a journal.
    pub fn read(alloc: Global, found: &ArgMatches<'_>) -> Result<ShorteningOptions, Fault>
        ensures { ReadsInMemory (IsShorteningOptions (rows_in found.now)) result }
    {
        Ok(ShorteningOptions {
            journal: String::from_str(alloc, given_or("", value(found, "shorten")))?,
            repo: repo_of(alloc, given_or("/repo", value(found, "repo")))?,
        })
    }
}

/// Returns the value of an option, or `None` if the option is absent.
pub fn value<'a>(found: &ArgMatches<'a>, id: &str) -> Option<&'a str>
    ensures { option_map (λ value. value.now) result ≡ value_at (rows_in found.now) id.now }
{
    found.get_str(id)
}

/// Returns a copy of the path, or `None` if no path is given.
pub fn path_of(alloc: Global, path: Option<&str>) -> Result<Option<String>, Fault>
    ensures { ReadsInMemory (MayBePath (option_map (λ path. path.now) path.entry)) result }
{
    match path {
        Some(path) => Ok(Some(String::from_str(alloc, path)?)),
        None => Ok(None),
    }
}

/// Returns the text in `given`, or the default `text` if `given` is `None`.
pub fn given_or<'a>(text: &'a str, given: Option<&'a str>) -> &'a str
    ensures { result.now ≡ given_or text.entry.now (option_map (λ given. given.now) given.entry) }
{
    match given {
        Some(given) => given,
        None => text,
    }
}

/// Reads the name that the URI spells.
fn repo_of(alloc: Global, uri: &str) -> Result<NameBuf, Fault>
    ensures { ReadsInMemory (ReadsAs uri.now) result }
{
    match NameBuf::from_uri(alloc, uri) {
        Ok(name) => Ok(name),
        Err(fault) => match fault {
            NameFault::Memory => Err(Fault::Script(RunFault::Memory)),
            _ => Err(Fault::BadValue {
                place: "--repo",
                wanted: "the URI of a name, such as /repo",
            }),
        },
    }
}

/// Reads a number below 2^32 in decimal digits. Leading zeros are allowed.
fn cache_of(digits: &str) -> Result<u32, Fault>
    ensures { Reads (IsCapacity digits.now) result }
{
    // `parse` would accept a plus sign before the digits.
    if !digits.starts_with('+')
        && let Ok(capacity) = digits.parse::<u32>()
    {
        return Ok(capacity);
    }
    Err(Fault::BadValue {
        place: "--cache",
        wanted: "a decimal number from 1 to 65536",
    })
}
