//! Verification of ECDSA signatures over the curve P-256 (FIPS 186-5).
//!
//! All values are public: the time of a call depends on them, so the crate is not for secrets.
#![tactic(auto)]

mod curve;
mod element;
mod fault;
mod field;
mod integer;
mod key;
mod law;
mod montgomery;
mod octets;
mod order;
mod point;
mod product;
mod scalar;
mod signature;
mod verify;
mod word;

pub use fault::PointFault;
pub use key::PublicKey;
pub use law::{base_point_has_the_order, combined_is_a_sum_of_multiples, signatures_have_one_form};
pub use signature::Signature;
