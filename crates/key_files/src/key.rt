//! Keys.

use crate::ecdsa_key::EcdsaKey;
use hmac_keys::HmacKey;

/// A key of a key book. A key is for one algorithm.
#[derive(Drop)]
pub enum Key {
    /// A secret for HMAC with SHA-256.
    Hmac(HmacKey),
    /// A public key for ECDSA over P-256 with SHA-256.
    Ecdsa(EcdsaKey),
}
