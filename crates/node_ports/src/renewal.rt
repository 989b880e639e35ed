//! Rules and keys that replace those in force.
ghost use Rattle.std.specs.Prelude.{◌≡◌};
ghost use Rattle.node_ports.specs.Renewal.{AreOfFiles};

use info_rules::Rules;
use key_files::KeyBook;
use std::marker::Model;

/// Rules and keys, with the octets of the rule file and of the key file that they were read from.
#[derive(Drop)]
pub struct Renewal {
    rules: Rules,
    keys: KeyBook,
    files: FileOctets,
}

/// The octets of a rule file and of a key file. Keys are secrets.
#[derive(Drop)]
pub struct FileOctets {
    pub rules: Vec<u8>,
    pub keys: Vec<u8>,
}

impl Model for Renewal {
    ghost use Rattle.node_ports.specs.Renewal.{AreOfFiles, RenewalValue};

    ghost Value = { RenewalValue };

    ghost view = { λ r. record {
      rules = r.rules;
      keys = r.keys;
      rule_octets = r.files.rules.items;
      key_octets = r.files.keys.items;
    } };

    ghost invariant = { λ r. AreOfFiles r.rules r.keys r.files.rules.items r.files.keys.items };
}

impl Renewal {
    /// Returns the rules and keys with the octets that they were read from.
    pub fn new(rules: Rules, keys: KeyBook, files: FileOctets) -> Renewal
        requires { AreOfFiles rules keys files.rules.items files.keys.items }
        ensures { result ≡ record {
          rules = rules;
          keys = keys;
          rule_octets = files.rules.items;
          key_octets = files.keys.items;
        } }
    {
        Renewal { rules, keys, files }
    }

    /// Returns the octets of the rule file.
    pub fn rule_octets(&self) -> &[u8]
        ensures { result.now ≡ self.now.rule_octets }
    {
        &self.files.rules
    }

    /// Returns the octets of the key file, which are secrets.
    pub fn key_octets(&self) -> &[u8]
        ensures { result.now ≡ self.now.key_octets }
    {
        &self.files.keys
    }

    /// Returns the total number of octets of the rule file and the key file.
    pub fn octets_len(&self) -> usize {
        self.files.rules.len().saturating_add(self.files.keys.len())
    }

    /// Returns the rules, the keys, and the octets of their files.
    pub fn into_parts(self) -> (Rules, KeyBook, FileOctets)
        ensures exact { self ≡ record {
          rules = result.0;
          keys = result.1;
          rule_octets = result.2.rules.items;
          key_octets = result.2.keys.items;
        } }
        ensures files { AreOfFiles result.0 result.1 result.2.rules.items result.2.keys.items }
    {
        (self.rules, self.keys, self.files)
    }
}
