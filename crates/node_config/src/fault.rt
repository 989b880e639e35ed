//! The faults of a configuration file.

ghost use Rattle.std.specs.Prelude.{◌≡◌};
ghost use Rattle.node_config.specs.declared.fault.ConfigFaultKind.TheVariants as kinds;

use info_rules::{RulesFault, RulesFaultKind};
use std::alloc::{AllocError, AllocFailed};
use thiserror::Error;

/// The kinds of faults. `Config::read` says which fault is reported if a file has several.
#[derive(Clone, Copy, Debug, PartialEq, Eq, Error)]
pub enum ConfigFaultKind {
    /// A word or a brace where it is not allowed, a quote that is not closed on its line, or a
    /// block that is never closed. At line 0: the file is not UTF-8.
    #[error("Syntax: unexpected word or brace, a quote or block that is not closed, or not UTF-8")]
    Syntax,
    /// A block inside eight other open blocks.
    #[error("TooDeep: blocks nest more than 8 deep")]
    TooDeep,
    /// A file of more than 65,536 octets.
    #[error("TooLarge: more than 65536 octets")]
    TooLarge,
    /// A key that its block, or the file, does not have.
    #[error("UnknownKey: this key is not known here")]
    UnknownKey,
    /// A key that the same block, or the file, has on an earlier line.
    #[error("KeyTwice: this key was given before")]
    KeyTwice,
    /// No key `udp` in the block `listen`. The line is that of the key `listen`, or 0 if the file
    /// has no such key.
    #[error("Missing: the block listen needs the key udp")]
    Missing,
    /// A value where a block must be, a block where a value must be, or neither.
    #[error("BadShape: this key needs a value and no block, or a block and no value")]
    BadShape,
    /// A value that is not an endpoint.
    #[error("BadEndpoint: not a port, nor an address and a port")]
    BadEndpoint,
    /// A value that is not a decimal number in the range of its key.
    #[error("BadNumber: not a decimal number, or out of range")]
    BadNumber,
    /// A value that is none of the words that its key can have.
    #[error("BadWord: not one of the words that this key can have")]
    BadWord,
    /// A path that is empty.
    #[error("BadPath: the path is empty")]
    BadPath,
    /// A value that is not the URI of a name.
    #[error("BadPrefix: not the URI of a name")]
    BadPrefix,
    /// More than 64 peers. The line is that of the 65th peer.
    #[error("TooManyPeers: more than 64 peers")]
    TooManyPeers,
    /// A peer's name that has another character than letters, digits, `-`, `_` and `.`, or does not
    /// have 1 to 64 characters.
    #[error("BadPeerName: a peer's name has 1 to 64 letters, digits, - _ or .")]
    BadPeerName,
    /// A peer with the name of an earlier peer.
    #[error("NameTwice: an earlier peer has this name")]
    NameTwice,
    /// A peer whose value is not a FaceUri `udp4://ADDRESS:PORT` or `udp6://[ADDRESS]:PORT`.
    #[error("BadFaceUri: not udp4://ADDRESS:PORT or udp6://[ADDRESS]:PORT")]
    BadFaceUri,
    /// A peer with the FaceUri of an earlier peer, however it is spelled.
    #[error("UriTwice: an earlier peer has this FaceUri")]
    UriTwice,
    /// A peer that is the node itself.
    #[error("OwnUri: this is the node itself")]
    OwnUri,
    /// A peer with the address 0.0.0.0 or ::.
    #[error("NoAddress: 0.0.0.0 and :: are not addresses of a machine")]
    NoAddress,
    /// A peer whose address has another family than that of the node's UDP endpoint.
    #[error("OtherFamily: not the address family of the node's UDP endpoint")]
    OtherFamily,
    /// A Local peer whose address is not a loopback address.
    #[error("NotLoopback: a Local peer needs a loopback address")]
    NotLoopback,
    /// A Local peer after a Far one.
    #[error("LocalAfterFar: Local peers come before Far ones")]
    LocalAfterFar,
    /// Out of memory.
    #[error("Memory: out of memory")]
    Memory,
}

impl ConfigFaultKind {
    ghost use Rattle.node_config.specs.Faults.{fault_name};

    /// Returns the name of the kind, as it is printed.
    pub fn name(self) -> &'static str
        ensures { result.now ≡ fault_name self }
    {
        match self {
            ConfigFaultKind::Syntax => "Syntax",
            ConfigFaultKind::TooDeep => "TooDeep",
            ConfigFaultKind::TooLarge => "TooLarge",
            ConfigFaultKind::UnknownKey => "UnknownKey",
            ConfigFaultKind::KeyTwice => "KeyTwice",
            ConfigFaultKind::Missing => "Missing",
            ConfigFaultKind::BadShape => "BadShape",
            ConfigFaultKind::BadEndpoint => "BadEndpoint",
            ConfigFaultKind::BadNumber => "BadNumber",
            ConfigFaultKind::BadWord => "BadWord",
            ConfigFaultKind::BadPath => "BadPath",
            ConfigFaultKind::BadPrefix => "BadPrefix",
            ConfigFaultKind::TooManyPeers => "TooManyPeers",
            ConfigFaultKind::BadPeerName => "BadPeerName",
            ConfigFaultKind::NameTwice => "NameTwice",
            ConfigFaultKind::BadFaceUri => "BadFaceUri",
            ConfigFaultKind::UriTwice => "UriTwice",
            ConfigFaultKind::OwnUri => "OwnUri",
            ConfigFaultKind::NoAddress => "NoAddress",
            ConfigFaultKind::OtherFamily => "OtherFamily",
            ConfigFaultKind::NotLoopback => "NotLoopback",
            ConfigFaultKind::LocalAfterFar => "LocalAfterFar",
            ConfigFaultKind::Memory => "Memory",
        }
    }

    /// Returns a fault of this kind at `line`.
    pub(crate) fn at(self, line: u32) -> ConfigFault
        ensures { result ≡ record { line = line; kind = self } }
    {
        ConfigFault { line, kind: self }
    }
}

/// Why a configuration file is refused: the kind of the fault and its line. The first line is 1.
/// `TooLarge`, `Memory`, and a `Missing` key `listen` have line 0.
#[derive(Clone, Copy, Debug, PartialEq, Eq, Error)]
#[error("line {line}: {kind}")]
pub struct ConfigFault {
    pub line: u32,
    pub kind: ConfigFaultKind,
}

impl ConfigFault {
    ghost use Rattle.node_config.specs.Faults.{of_syntax};

    /// Returns the fault of a text that has this fault as a text of entries.
    #[tactic(auto, unfolding(crate::specs::Faults::of_syntax))]
    pub(crate) fn of_syntax(fault: RulesFault) -> ConfigFault
        ensures { result ≡ of_syntax fault }
    {
        let kind = match fault.kind {
            RulesFaultKind::TooDeep => ConfigFaultKind::TooDeep,
            RulesFaultKind::TooLarge => ConfigFaultKind::TooLarge,
            RulesFaultKind::Memory => ConfigFaultKind::Memory,
            _ => ConfigFaultKind::Syntax,
        };
        kind.at(fault.line)
    }
}

impl<T: Drop> From<AllocFailed<T>> for ConfigFault {
    ghost from_gives = { λ _ e. e ≡ record { line = 0; kind = kinds.Memory } };

    fn from(_error: AllocFailed<T>) -> ConfigFault {
        ConfigFaultKind::Memory.at(0)
    }
}

impl From<AllocError> for ConfigFault {
    ghost from_gives = { λ _ e. e ≡ record { line = 0; kind = kinds.Memory } };

    fn from(_error: AllocError) -> ConfigFault {
        ConfigFaultKind::Memory.at(0)
    }
}
