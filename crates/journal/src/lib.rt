//! The journal of a node: the stored events from which the node restores its policy after a
//! restart.
#![tactic(auto)]

mod append;
mod file;
mod last_files;
mod law;
mod replaying;

pub use append::{AppendFault, append_event};
pub use file::{FileFault, JournalFile};
pub use last_files::{are_last_rules, last_rules};
pub use law::{
    crashes_leave_a_beginning, journal_texts_have_one_reading, journals_are_one,
    journals_grow_by_steps, journals_keep_policy, journals_survive_crashes,
    other_events_bring_their_moments, rules_at_the_start_are_the_first,
    verdicts_say_what_is_journalled,
};
pub use replaying::{ReplayFault, Replayed, replay};
