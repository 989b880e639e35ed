//! Selects the fault that is reported for a rule file.

ghost use Rattle.std.specs.Prelude.{◌≡◌, None, List, [], ◌∷◌, MatchOption};
ghost use Rattle.info_rules.specs.Faults.{after, IsAmong, NoneIsSooner};

use crate::fault::RulesFault;

/// The fault to report among the faults that were found so far, or `None` if no fault was found.
pub type Report = Option<RulesFault>;

/// Adds `fault` to the report, which keeps only the soonest fault in the order of `is_sooner`.
#[tactic(auto, unfolding(crate::specs::Faults::after))]
pub fn note(report: &mut Report, fault: RulesFault)
    ensures { report.new ≡ after report.old (fault ∷ []) }
{
    *report = Some(report.map_or(fault, |told| told.sooner_of(fault)));
}

/// Law: the fault that is reported for a list of faults is in the list, and no fault of the list is
/// sooner than the reported fault. No fault is reported if and only if the list is empty.
pub fn the_least_is_reported()
    ensures { (faults : List RulesFault)
        → MatchOption (after None faults) (faults ≡ [])
        (λ told. IsAmong told faults × NoneIsSooner told faults) }
{}
