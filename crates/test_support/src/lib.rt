//! What the tests of several crates share: helpers for rows of text, Data, sample rules and keys,
//! and random sequences.
#![tactic(auto)]

mod data;
mod rows;
mod samples;
mod sequences;

pub use data::{content_shown, data_of, digest_of};
pub use rows::{first_misshown, first_wrong, octets, typed};
pub use samples::{KEYS, SAMPLE};
pub use sequences::random;
