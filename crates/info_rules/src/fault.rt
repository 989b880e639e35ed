//! Faults of rule files.

ghost use Rattle.std.specs.Prelude.{◌≡◌};
ghost use Rattle.info_rules.specs.declared.fault.RulesFaultKind.TheVariants as kinds;

use std::alloc::{AllocError, AllocFailed};
use thiserror::Error;

/// The kinds of faults. If the line that is reported has several faults, the fault whose kind comes
/// first in this list is reported.
#[derive(Clone, Copy, Debug, PartialEq, Eq, Error)]
pub enum RulesFaultKind {
    /// A word or a brace where it is not allowed, a quote that is not closed on its line, or a
    /// block that is never closed.
    #[error("Syntax: unexpected word or brace, or a quote or block that is not closed")]
    Syntax,
    /// A block inside eight other open blocks.
    #[error("TooDeep: blocks nest more than 8 deep")]
    TooDeep,
    /// A text of more than 65,536 octets, more than 256 rules, or a rule of more than 16 filters or
    /// of more than 16 checkers.
    #[error("TooLarge: more than 65536 octets, 256 rules, or 16 filters or checkers in a rule")]
    TooLarge,
    /// A key that is unknown in its block.
    #[error("UnknownKey: this key is not known in this block")]
    UnknownKey,
    /// A block without a key that it needs.
    #[error("Missing: this block lacks a key that it needs")]
    Missing,
    /// A key whose value is missing or invalid, except an invalid pattern or template (`Pattern`)
    /// and a trust anchor of type `any` (`AnyAnchor`). A key without the block that it needs. A key
    /// with a value or a block that it cannot have. A key of a second form in a filter or a key
    /// locator. There are three forms: `name` and `relation`; `regex`; `hyper-relation`. An
    /// unverified checker in a rule for Interests, or with a signature type, a key locator or
    /// another checker beside it.
    #[error("BadValue: wrong or missing value or block, or a key that cannot stand with the others")]
    BadValue,
    /// A key is given more than once in a block that allows it once, or two rules have the same id.
    #[error("TwiceNamed: this key or id was given before")]
    TwiceNamed,
    /// A pattern or a template that is not valid.
    #[error("Pattern: not a valid pattern, or not a valid template for its pattern")]
    Pattern,
    /// A trust anchor that would accept any packet.
    #[error("AnyAnchor: a trust anchor of type any would allow packets without a rule")]
    AnyAnchor,
    /// Out of memory.
    #[error("Memory: out of memory")]
    Memory,
}

impl RulesFaultKind {
    ghost use Rattle.info_rules.specs.Names.{fault_name};

    /// Returns the name of the kind, as it is printed.
    pub fn name(self) -> &'static str
        ensures { result.now ≡ fault_name self }
    {
        match self {
            RulesFaultKind::Syntax => "Syntax",
            RulesFaultKind::TooDeep => "TooDeep",
            RulesFaultKind::TooLarge => "TooLarge",
            RulesFaultKind::UnknownKey => "UnknownKey",
            RulesFaultKind::Missing => "Missing",
            RulesFaultKind::BadValue => "BadValue",
            RulesFaultKind::TwiceNamed => "TwiceNamed",
            RulesFaultKind::Pattern => "Pattern",
            RulesFaultKind::AnyAnchor => "AnyAnchor",
            RulesFaultKind::Memory => "Memory",
        }
    }

    /// Returns a fault of this kind at `line`.
    pub(crate) fn at(self, line: u32) -> RulesFault
        ensures { result ≡ record { line = line; kind = self } }
    {
        RulesFault { line, kind: self }
    }
}

/// Why the reading of a rule file failed: the kind of the fault and its line. The first line is 1.
/// `TooLarge` and `Memory` are reported at line 0.
#[derive(Clone, Copy, Debug, PartialEq, Eq, Error)]
#[error("line {line}: {kind}")]
pub struct RulesFault {
    pub line: u32,
    pub kind: RulesFaultKind,
}

impl RulesFault {
    /// Returns the line of the fault, or 0 if the fault has no line. The first line is 1.
    pub fn line(self) -> u32
        ensures { result ≡ self.line }
    {
        self.line
    }
}

impl<T: Drop> From<AllocFailed<T>> for RulesFault {
    ghost from_gives = { λ _ e. e ≡ record { line = 0; kind = kinds.Memory } };

    fn from(_error: AllocFailed<T>) -> RulesFault {
        RulesFaultKind::Memory.at(0)
    }
}

impl From<AllocError> for RulesFault {
    ghost from_gives = { λ _ e. e ≡ record { line = 0; kind = kinds.Memory } };

    fn from(_error: AllocError) -> RulesFault {
        RulesFaultKind::Memory.at(0)
    }
}
