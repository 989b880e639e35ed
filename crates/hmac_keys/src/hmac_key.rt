//! Keys for HMAC with SHA-256.

use crate::hmac::Blocks;
use std::marker::Model;

/// A key for HMAC with SHA-256. When the key is made, the key's block is hashed once with the inner
/// pad and once with the outer pad. The block is not hashed again for the texts that the key signs
/// or checks.
#[derive(Drop)]
pub struct HmacKey {
    octets: Vec<u8>,
    blocks: Blocks,
}

impl Model for HmacKey {
    ghost use Rattle.std.specs.Prelude.{List, ℕ};
    ghost use Rattle.hmac_keys.specs.Started.{AreOf};

    ghost Value = { List ℕ };

    ghost view = { λ key. key.octets.items };

    ghost invariant = { λ key. AreOf key.blocks key.octets.items };
}

impl HmacKey {
    ghost use Rattle.std.specs.Prelude.{◌≡◌, ◌++◌};
    ghost use Rattle.hmac_keys.specs.Mac.{Mac};

    /// Returns the key with these octets. A key may have any number of octets. Nothing is
    /// allocated.
    pub fn new(octets: Vec<u8>) -> HmacKey
        ensures { result ≡ octets.items }
    {
        let blocks = Blocks::of(&octets);
        HmacKey { octets, blocks }
    }

    /// Returns the octets of the key.
    pub fn octets(&self) -> &[u8]
        ensures { result.now ≡ self.now }
    {
        &self.octets
    }

    /// Returns the HMAC with SHA-256 (RFC 2104) of one text, which is `first` followed by `second`,
    /// under this key. The HMAC is not truncated: it has 32 octets. The call never fails, and
    /// allocates nothing.
    pub fn tag(&self, first: &[u8], second: &[u8]) -> [u8; 32]
        ensures { result ≡ Mac self.now (first.now ++ second.now) }
    {
        self.blocks.copy().tag(first, second)
    }
}
