//! HMAC with SHA-256.
#![tactic(auto)]

mod hmac;
mod hmac_key;

pub use hmac::{hmac_sha256, tags_equal};
pub use hmac_key::HmacKey;
