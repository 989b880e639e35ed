//! The rule file and the key file of a node, which are read again when they change.
ghost use Rattle.std.specs.Prelude.{IfOk};
ghost use Rattle.key_files.specs.KeyReading.{AreKeys};
ghost use Rattle.node_core.specs.Files.{AreRules};

use crate::fault::{Fault, JournalFault};
use crate::fault_line::report_fault;
use crate::files::{
    read_key_file, read_keys, read_rule_file, read_rules, unread_keys, unread_rules,
};
use crate::machine_clock::MachineClock;
use crate::watched_ports::RuleSource;
use info_rules::Rules;
use key_files::KeyBook;
use node_ports::{FileOctets, Moments, Renewal};
use std::fs;
use std::fs::File;
use std::rt::Files;
use std::time::{Clock, SystemTime};

/// The greatest number of octets that a rule file and a key file may have together, so that one
/// line of a journal can hold both.
const MOST_JOURNALLED: usize = 9_985;

/// The modification time and the length of a file. If one of them changes, the file counts as
/// changed.
#[derive(Clone, Copy, PartialEq, Eq)]
struct Stamp {
    modified: SystemTime,
    len: u64,
}

/// The rule file at the path `rules` and the key file at the path `keys`, with the stamps of both
/// files at the last check. If `rules` is `None`, there are no rules. If `keys` is `None`, there
/// are no keys.
#[derive(Drop)]
pub struct RuleFiles<'a, R> {
    rt: &'a R,
    rules: Option<String>,
    keys: Option<String>,
    rules_stamp: Option<Stamp>,
    keys_stamp: Option<Stamp>,
    // Whether both files together must fit into one line of a journal.
    are_journalled: bool,
}

impl<'a, R: AllocGlobal + Files> RuleFiles<'a, R> {
    /// Returns the files at these paths, with the present stamps of the files.
    pub fn new(rt: &'a R, rules: Option<String>, keys: Option<String>) -> RuleFiles<'a, R> {
        let mut files = RuleFiles {
            rt,
            rules,
            keys,
            rules_stamp: None,
            keys_stamp: None,
            are_journalled: false,
        };
        files.look();
        files
    }

    /// Requires from now on that both files together fit into one line of a journal.
    pub fn journal(&mut self) {
        self.are_journalled = true;
    }

    /// Reads the rules and the keys from the files. If the method `journal` was called before,
    /// files that together do not fit into one line of a journal have the fault `LongRules`.
    pub fn read(&self) -> Result<Renewal, Fault> {
        let (rules, rule_octets) = self.read_rules()?;
        let (keys, key_octets) = self.read_keys()?;
        let renewal = Renewal::new(
            rules,
            keys,
            FileOctets {
                rules: rule_octets,
                keys: key_octets,
            },
        );
        if self.are_journalled && renewal.octets_len() > MOST_JOURNALLED {
            return Err(Fault::Journal(JournalFault::LongRules));
        }
        Ok(renewal)
    }

    fn read_rules(&self) -> Result<(Rules, Vec<u8>), Fault>
        ensures { IfOk result (λ read. AreRules read.1.items read.0) }
    {
        match &self.rules {
            Some(path) => rules_at(self.rt, path),
            None => {
                let none = Vec::new(self.rt.alloc());
                let rules = read_rules(self.rt.alloc(), &none)?;
                Ok((rules, none))
            }
        }
    }

    fn read_keys(&self) -> Result<(KeyBook, Vec<u8>), Fault>
        ensures { IfOk result (λ read. AreKeys read.1.items read.0) }
    {
        match &self.keys {
            Some(path) => keys_at(self.rt, path),
            None => {
                let none = Vec::new(self.rt.alloc());
                let keys = read_keys(self.rt.alloc(), &none)?;
                Ok((keys, none))
            }
        }
    }

    /// Returns whether at least one of the two files has changed since the last check. If a file is
    /// replaced while the node reads it, the file counts as changed at the next check, since each
    /// file is checked before it is read.
    fn look(&mut self) -> bool {
        let rules = stamp_of(self.rt, &self.rules);
        let keys = stamp_of(self.rt, &self.keys);
        let changed = rules != self.rules_stamp || keys != self.keys_stamp;
        self.rules_stamp = rules;
        self.keys_stamp = keys;
        changed
    }
}

impl<'a, R: AllocGlobal + Clock + Eprint + Files> RuleSource for RuleFiles<'a, R> {
    ghost use Rattle.std.specs.Prelude.{⊤};

    // What files have is not known to the contracts.
    ghost renews = { λ _ _ _. ⊤ };

    ghost present = { λ _ _. ⊤ };

    ghost rests = { λ _. tt };

    ghost goes_on = { λ _ _ _ _ _ _ _. tt };

    /// Reads the rules and the keys if a file has changed. A fault in a file is reported on
    /// standard error, with the time.
    fn renewed(&mut self) -> Option<Renewal> {
        if !self.look() {
            return None;
        }
        match self.read() {
            Ok(read) => Some(read),
            Err(fault) => {
                // The rules in force remain.
                report_fault(self.rt, MachineClock::new(self.rt).now(), &fault);
                None
            }
        }
    }

    fn current(&mut self) -> Result<Renewal, Fault> {
        self.journal();
        self.read()
    }
}

/// Returns the present stamp of the file at `path`, or `None` if `path` is `None` or the stamp
/// cannot be read.
fn stamp_of<R: Files>(rt: &R, path: &Option<String>) -> Option<Stamp> {
    let path = path.as_ref()?;
    let metadata = fs::metadata(rt, path.as_str()).ok()?;
    let modified = metadata.modified().ok()?;
    Some(Stamp {
        modified,
        len: metadata.len(),
    })
}

/// Reads the rule file at this path, and returns its rules and its octets.
fn rules_at<R: AllocGlobal + Files>(rt: &R, path: &str) -> Result<(Rules, Vec<u8>), Fault>
    ensures { IfOk result (λ read. AreRules read.1.items read.0) }
{
    match File::open(rt, path) {
        Ok(file) => read_rule_file(rt.alloc(), path, file),
        Err(error) => Err(unread_rules(rt.alloc(), path, &error)),
    }
}

/// Reads the key file at this path, and returns its keys and its octets.
fn keys_at<R: AllocGlobal + Files>(rt: &R, path: &str) -> Result<(KeyBook, Vec<u8>), Fault>
    ensures { IfOk result (λ read. AreKeys read.1.items read.0) }
{
    match File::open(rt, path) {
        Ok(file) => read_key_file(rt.alloc(), path, file),
        Err(error) => Err(unread_keys(rt.alloc(), path, &error)),
    }
}
