//! Reads the rule file and the key file, and reports files that cannot be read.
ghost use Rattle.std.specs.Prelude.{IfOk, IfSome, MatchResult, codes};
ghost use Rattle.std.specs.IoError.{error_kind};
ghost use Rattle.key_files.specs.KeyReading.{AreKeys};
ghost use Rattle.node_core.specs.Files.{AreRules};
ghost use Rattle.ndn_daemon.specs.Files.{HasCause, IsKeyFault, IsRuleFault, AreKeysOfFile, IsKeyFileFault, IsRuleFileFault, IsUnread};

use crate::fault::Fault;
use info_rules::{Rules, RulesFault, RulesFaultKind};
use key_files::KeyBook;
use limited_reads::{MAX_KEY_FILE, read_within};
use node_core::RunFault;
use std::alloc::Global;
use std::io;
use std::io::{ErrorKind, Read};

/// The greatest length of a rule file, in octets.
const MAX_RULE_FILE: u32 = 65_536;

/// Parses a rule file. Octets that are not UTF-8 are reported as a Syntax fault at line 0.
pub fn read_rules(alloc: Global, octets: &[u8]) -> Result<Rules, Fault>
    ensures { MatchResult result (AreRules octets.now) (IsRuleFault octets.now) }
{
    node_core::read_rules(alloc, octets).map_err(Fault::Rules)
}

/// Parses a key file. Octets that are not UTF-8 are reported as a bad line with the number 0.
pub fn read_keys(alloc: Global, octets: &[u8]) -> Result<KeyBook, Fault>
    ensures { MatchResult result (AreKeys octets.now) (IsKeyFault octets.now) }
{
    KeyBook::read_octets(alloc, octets).map_err(Fault::Keys)
}

/// Reads an open rule file, and returns its rules and its octets. `path` is the path of the file. A
/// file of more than 65,536 octets has a TooLarge fault at line 0, even if it is not UTF-8.
pub fn read_rule_file<R: Read + Drop>(
    alloc: Global,
    path: &str,
    file: R,
) -> Result<(Rules, Vec<u8>), Fault>
    // This clause states the result if the content of the file is known.
    ensures known { IfSome (R.remaining file) (λ octets. MatchResult result
        (λ read. AreRules octets read.0) (IsRuleFileFault path.now octets)) }
    ensures rules { IfOk result (λ read. AreRules read.1.items read.0) }
{
    match read_within(alloc, file, MAX_RULE_FILE) {
        Ok(Some(octets)) => {
            let rules = read_rules(alloc, &octets)?;
            Ok((rules, octets))
        }
        Ok(None) => Err(Fault::Rules(RulesFault {
            line: 0,
            kind: RulesFaultKind::TooLarge,
        })),
        Err(error) => Err(unread_rules(alloc, path, &error)),
    }
}

/// Reads an open key file, and returns its keys and its octets. `path` is the path of the file. A
/// file of more than `MAX_KEY_FILE` octets has the fault `LargeKeys`, whatever its content.
pub fn read_key_file<R: Read + Drop>(
    alloc: Global,
    path: &str,
    file: R,
) -> Result<(KeyBook, Vec<u8>), Fault>
    // This clause states the result if the content of the file is known.
    ensures known { IfSome (R.remaining file) (λ octets. MatchResult result
        (λ read. AreKeysOfFile octets read.0) (IsKeyFileFault path.now octets)) }
    ensures keys { IfOk result (λ read. AreKeys read.1.items read.0) }
{
    match read_within(alloc, file, MAX_KEY_FILE) {
        Ok(Some(octets)) => {
            let keys = read_keys(alloc, &octets)?;
            Ok((keys, octets))
        }
        Ok(None) => Err(Fault::LargeKeys),
        Err(error) => Err(unread_keys(alloc, path, &error)),
    }
}

/// Returns the fault of a rule file that cannot be opened or read.
pub fn unread_rules(alloc: Global, path: &str, error: &io::Error) -> Fault
    ensures file { IsUnread (codes "rule file") path.now result }
    ensures cause { HasCause (error_kind error.now) result }
{
    unread(alloc, "rule file", path, error.kind())
}

/// Returns the fault of a key file that cannot be opened or read.
pub fn unread_keys(alloc: Global, path: &str, error: &io::Error) -> Fault
    ensures file { IsUnread (codes "key file") path.now result }
    ensures cause { HasCause (error_kind error.now) result }
{
    unread(alloc, "key file", path, error.kind())
}

/// Returns the fault of a configuration file that cannot be opened or read.
pub fn unread_config(alloc: Global, path: &str, error: &io::Error) -> Fault
    ensures file { IsUnread (codes "configuration file") path.now result }
    ensures cause { HasCause (error_kind error.now) result }
{
    unread(alloc, "configuration file", path, error.kind())
}

/// Returns the fault of a journal that cannot be opened, locked, read or truncated.
pub fn unread_journal(alloc: Global, path: &str, error: &io::Error) -> Fault
    ensures file { IsUnread (codes "journal") path.now result }
    ensures cause { HasCause (error_kind error.now) result }
{
    unread(alloc, "journal", path, error.kind())
}

/// Returns the fault of a file that cannot be opened or read. `file` says what the file is, such as
/// `rule file`, and `kind` is the cause. If `kind` is `OutOfMemory`, or memory runs out for a copy
/// of `path`, the fault is that memory ran out.
fn unread(alloc: Global, file: &'static str, path: &str, kind: ErrorKind) -> Fault
    ensures file { IsUnread file.now path.now result }
    ensures cause { HasCause kind result }
{
    if kind == ErrorKind::OutOfMemory {
        return Fault::Script(RunFault::Memory);
    }
    match String::from_str(alloc, path) {
        Ok(path) => Fault::Unread { file, path, kind },
        Err(_) => Fault::Script(RunFault::Memory),
    }
}
