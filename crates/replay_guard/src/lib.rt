//! Which signed commands are fresh: a guard against replays.
#![tactic(auto)]

mod guard;
mod law;
mod row;
mod signer;

pub use guard::Guard;
pub use law::freshness_is_read_off_the_past;
pub use signer::Signer;
