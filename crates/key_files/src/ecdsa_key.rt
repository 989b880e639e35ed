//! Public keys for ECDSA over P-256.

ghost use Rattle.std.specs.Prelude.{◌≡◌, ◌++◌};
ghost use Rattle.sha2.specs.Sha256.{sha256};
ghost use Rattle.key_files.specs.PublicKey.{is_public_key};

use p256::{PointFault, PublicKey, Signature};
use sha2::{Digest, Sha256};
use std::marker::Model;

/// The SignatureType of SignatureSha256WithEcdsa (NDN Packet Format 0.3,
/// "SignatureSha256WithEcdsa").
pub const SHA256_WITH_ECDSA: u64 = 3;

/// A public key for ECDSA over the curve P-256 with SHA-256. It verifies signatures and cannot make
/// any.
#[derive(Drop)]
pub struct EcdsaKey {
    octets: Vec<u8>,
    point: PublicKey,
}

impl Model for EcdsaKey {
    ghost use Rattle.std.specs.Prelude.{List, ℕ};
    ghost use Rattle.p256.specs.Key.{IsKey};

    ghost Value = { List ℕ };

    ghost view = { λ key. key.octets.items };

    ghost invariant = { λ key. IsKey key.octets.items key.point };
}

impl EcdsaKey {
    ghost use Rattle.std.specs.Prelude.{◌≡◌, ◌++◌, ◌↔◌, IsTrue, MatchResult};
    ghost use Rattle.p256.specs.Key.{IsFaultOf};
    ghost use Rattle.key_files.specs.PublicKey.{IsPublicKey, IsEcdsaOf};

    /// Returns the key with these octets: the uncompressed form of a point of the curve (SEC 1,
    /// section 2.3.4), which has 65 octets. For other octets, returns the first fault. Nothing is
    /// allocated.
    pub fn new(octets: Vec<u8>) -> Result<EcdsaKey, PointFault>
        ensures { MatchResult result
            (λ key. (key ≡ octets.items) × IsPublicKey octets.items)
            (λ fault. IsFaultOf octets.items fault) }
    {
        let point = PublicKey::from_octets(&octets)?;
        Ok(EcdsaKey { octets, point })
    }

    /// Returns the 65 octets of the key.
    pub fn octets(&self) -> &[u8]
        ensures { result.now ≡ self.now }
    {
        &self.octets
    }

    /// Returns whether `value` is a signature under this key of one text, which is `first` followed
    /// by `second`. The value is the DER form of two numbers (RFC 3279, section 2.2.3), and they are
    /// an ECDSA signature of the text's SHA-256 hash (FIPS 186-5, section 6.4.2). Nothing is
    /// allocated.
    pub fn verifies(&self, first: &[u8], second: &[u8], value: &[u8]) -> bool
        ensures { IsTrue result ↔ IsEcdsaOf self.now (first.now ++ second.now) value.now }
    {
        let Some(signature) = Signature::from_der(value) else {
            return false;
        };
        self.point.verify(&sha256_of(first, second), &signature)
    }
}

/// Returns whether the octets are a public key.
pub(crate) fn is_public_key(octets: &[u8]) -> bool
    ensures { result ≡ is_public_key octets.now }
{
    PublicKey::from_octets(octets).is_ok()
}

/// Returns the SHA-256 hash of `first` followed by `second`.
fn sha256_of(first: &[u8], second: &[u8]) -> [u8; 32]
    ensures { result ≡ sha256 (first.now ++ second.now) }
{
    let mut hasher = Sha256::new();
    hasher.update(first);
    hasher.update(second);
    hasher.finalize()
}
