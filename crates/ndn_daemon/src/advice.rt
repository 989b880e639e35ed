//! The texts that explain the faults of a rule file or a configuration file, and say how to correct
//! these faults.
ghost use Rattle.std.specs.Prelude.{◌≡◌};
ghost use Rattle.ndn_daemon.specs.Advice.{advice_on_config, advice_on_rules, is_config_memory, is_memory};

use info_rules::RulesFaultKind;
use node_config::ConfigFaultKind;

/// Returns the text that explains a fault of this kind at this line of a rule file.
#[tactic(auto, unfolding(crate::specs::Advice::advice_on_rules))]
pub fn advice_on_rules(line: u32, kind: RulesFaultKind) -> &'static str
    ensures { result.now ≡ advice_on_rules line kind }
{
    match kind {
        RulesFaultKind::Syntax => {
            if line == 0 {
                "the file is not UTF-8 text: write it in UTF-8 or ASCII"
            } else {
                "a word, quote or brace is wrong: lines are KEY, KEY VALUE, { or }; close each quote and each {"
            }
        }
        RulesFaultKind::TooDeep => "blocks may nest at most 8 deep",
        RulesFaultKind::TooLarge => {
            "at most 65536 octets, 256 rules, and 16 filters and 16 checkers in a rule are allowed"
        }
        RulesFaultKind::UnknownKey => {
            "a key of this name is not allowed in this block: docs/RULES.md lists the keys"
        }
        RulesFaultKind::Missing => {
            "this block lacks a key, such as the id or for of a rule, or the type of a checker: see docs/RULES.md"
        }
        RulesFaultKind::BadValue => {
            "the value or block of this key is wrong or missing, or the key is not allowed beside another key"
        }
        RulesFaultKind::TwiceNamed => {
            "this block already has this key, or an earlier rule has this id: give it once"
        }
        RulesFaultKind::Pattern => {
            "not a pattern, or not a template for its pattern: <lab> is a component, <> any one, <>* any number"
        }
        RulesFaultKind::AnyAnchor => {
            "a trust anchor of type any would allow packets without a rule: write rules in its place"
        }
        RulesFaultKind::Memory => "out of memory",
    }
}

/// Returns the text that explains a fault of this kind at this line of a configuration file.
#[tactic(auto, unfolding(crate::specs::Advice::advice_on_config))]
pub fn advice_on_config(line: u32, kind: ConfigFaultKind) -> &'static str
    ensures { result.now ≡ advice_on_config line kind }
{
    match kind {
        ConfigFaultKind::Syntax => {
            if line == 0 {
                "the file is not UTF-8 text: write it in UTF-8 or ASCII"
            } else {
                "a word, quote or brace is wrong: lines are KEY, KEY VALUE, { or }; close each quote and each {"
            }
        }
        ConfigFaultKind::TooDeep => "blocks may nest at most 8 deep",
        ConfigFaultKind::TooLarge => "at most 65536 octets are allowed",
        ConfigFaultKind::UnknownKey => {
            "a key of this name is not allowed here: docs/CONFIG.md lists the keys"
        }
        ConfigFaultKind::KeyTwice => "this key was given on an earlier line: give it once",
        ConfigFaultKind::Missing => {
            "the block listen must say where the node listens: udp ENDPOINT, such as udp 6363"
        }
        ConfigFaultKind::BadShape => {
            "this key must have a value and no block, or a block and no value: see docs/CONFIG.md"
        }
        ConfigFaultKind::BadEndpoint => {
            "an endpoint is a port from 1 to 65535, or an address and a port, such as 192.0.2.1:6363"
        }
        ConfigFaultKind::BadNumber => {
            "capacity is 1 to 65536, idle_timeout 1 to 4294967295, and turns below 2^64, in decimal digits"
        }
        ConfigFaultKind::BadWord => {
            "strangers and answers are yes or no, scope is local or far, and level is none, events or all"
        }
        ConfigFaultKind::BadPath => "a path must not be empty",
        ConfigFaultKind::BadPrefix => "the prefix must be the URI of a name, such as /repo",
        ConfigFaultKind::TooManyPeers => "at most 64 peers are allowed",
        ConfigFaultKind::BadPeerName => {
            "the name of a peer has 1 to 64 letters, digits, hyphens, underscores and dots"
        }
        ConfigFaultKind::NameTwice => "an earlier peer has this name: give each peer its own",
        ConfigFaultKind::BadFaceUri => {
            "a FaceUri is udp4://ADDRESS:PORT or udp6://[ADDRESS]:PORT, such as udp4://192.0.2.1:6363"
        }
        ConfigFaultKind::UriTwice => {
            "an earlier peer has this address and port: give each peer once"
        }
        ConfigFaultKind::OwnUri => "this is the endpoint of the node itself: give other peers",
        ConfigFaultKind::NoAddress => "0.0.0.0 and :: are not addresses of a machine",
        ConfigFaultKind::OtherFamily => {
            "give an address of the family of udp in the block listen: IPv4 and IPv6 cannot reach each other"
        }
        ConfigFaultKind::NotLoopback => {
            "a Local peer must be on this machine (127.0.0.0/8 or ::1), since it may send commands"
        }
        ConfigFaultKind::LocalAfterFar => "give the Local peers before the Far ones",
        ConfigFaultKind::Memory => "out of memory",
    }
}

/// Returns whether the fault is that memory ran out.
pub fn is_memory(kind: RulesFaultKind) -> bool
    ensures { result ≡ is_memory kind }
{
    matches!(kind, RulesFaultKind::Memory)
}

/// Returns whether the fault of a configuration file is that memory ran out.
pub fn is_config_memory(kind: ConfigFaultKind) -> bool
    ensures { result ≡ is_config_memory kind }
{
    matches!(kind, ConfigFaultKind::Memory)
}
