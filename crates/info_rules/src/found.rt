//! Values that were read from a rule file, or the fault that is reported.

ghost use Rattle.std.specs.Prelude.{◌≡◌, IfOk};
ghost use Rattle.info_rules.specs.Found as found;
ghost use Rattle.info_rules.specs.Found.{sooner_of, shown};
ghost use Rattle.info_rules.specs.Keys.{missing_unless};

use crate::fault::{RulesFault, RulesFaultKind};
use ndn_tlv::Memory;

/// A value that was read from a rule file, or the fault that is reported.
pub type Found<A> = Result<A, RulesFault>;

/// The outcome of reading a value. `Err` means that memory ran out.
pub type Read<A> = Result<Found<A>, Memory>;

impl RulesFaultKind {
    ghost use Rattle.std.specs.Prelude.{◌≡◌};
    ghost use Rattle.info_rules.specs.Faults.{kind_number};

    /// Returns the position of the kind in the list of kinds. The first position is 1.
    fn number(self) -> u8
        ensures { result ≡ kind_number self }
    {
        self as u8 + 1
    }
}

impl RulesFault {
    ghost use Rattle.std.specs.Prelude.{◌≡◌};
    ghost use Rattle.info_rules.specs.Faults.{sooner};
    ghost use Rattle.info_rules.specs.Found.{sooner_of};

    /// Returns whether this fault is reported before the fault `other`.
    pub fn is_sooner(self, other: RulesFault) -> bool
        ensures { result ≡ sooner self other }
    {
        self.line < other.line
            || self.line == other.line && self.kind.number() < other.kind.number()
    }

    /// Returns the one of two faults that is reported if both are present.
    pub fn sooner_of(self, other: RulesFault) -> RulesFault
        ensures { result ≡ sooner_of self other }
    {
        if other.is_sooner(self) { other } else { self }
    }
}

/// Returns both values, or the fault that is reported.
pub fn both<A: Drop, B: Drop>(first: Found<A>, second: Found<B>) -> Found<(A, B)>
    ensures { result ≡ found.both first second }
{
    match (first, second) {
        (Ok(a), Ok(b)) => Ok((a, b)),
        (Ok(_), Err(fault)) | (Err(fault), Ok(_)) => Err(fault),
        (Err(fault), Err(other)) => Err(fault.sooner_of(other)),
    }
}

/// Returns the value in `read`, if there is no fault. If `fault` is present or `read` is a fault,
/// returns the fault that is reported.
pub fn beside<A: Drop>(fault: Option<RulesFault>, read: Found<A>) -> Found<A>
    ensures { result ≡ found.beside fault read }
{
    match (fault, read) {
        (None, read) => read,
        (Some(fault), Ok(_)) => Err(fault),
        (Some(fault), Err(other)) => Err(fault.sooner_of(other)),
    }
}

/// Returns the value in `read`. If `read` is a fault, returns this fault. If the value is absent,
/// returns the fault `Missing` at `line`, the line of the key that has the block.
pub fn needed<A: Drop>(line: u32, read: Found<Option<A>>) -> Found<A>
    ensures { result ≡ found.needed line read }
{
    read?.ok_or(RulesFaultKind::Missing.at(line))
}

/// Appends the value in `read` to the list in `parts`. If `parts` or `read` is a fault, returns the
/// fault that is reported.
pub fn with_one<A: Drop>(parts: Found<Vec<A>>, read: Found<A>) -> Read<Vec<A>>
    ensures { IfOk result (λ all. shown (λ parts. parts.items) all
        ≡ found.and_one (shown (λ parts. parts.items) parts) read) }
{
    match both(parts, read) {
        Ok((mut all, part)) => {
            all.push(part)?;
            Ok(Ok(all))
        }
        Err(fault) => Ok(Err(fault)),
    }
}

/// Returns the fault `Missing` at `line` if `there` is false, otherwise `None`. `there` is true if
/// all needed keys are present.
pub fn missing_unless(there: bool, line: u32) -> Option<RulesFault>
    ensures { result ≡ missing_unless there line }
{
    (!there).then_some(RulesFaultKind::Missing.at(line))
}
