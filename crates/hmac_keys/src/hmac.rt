//! HMAC with SHA-256 (RFC 2104).

ghost use Rattle.std.specs.Prelude.{◌≡◌, ◌≤◌, ◌-◌, ◌++◌, ◌↔◌, length, replicate, IsTrue};
ghost use Rattle.hmac_keys.specs.Mac.{block_of, xor_each, Mac};

use sha2::{Digest, Sha256};

/// The length of a block of SHA-256, in octets.
const BLOCK_LEN: usize = 64;

/// The outer pad, which is one octet. For the outer hash, each octet of the key's block is combined
/// with the outer pad by XOR. For the inner hash, each octet of the key's block is combined with
/// the inner pad, `INNER_PAD`, by XOR.
const OUTER_PAD: u8 = 0x5c;

const INNER_PAD: u8 = 0x36;

/// The inner and the outer hash of a key. The inner hash has read the key's block, with each octet
/// combined with the inner pad by XOR. The outer hash has read the key's block, with each octet
/// combined with the outer pad by XOR.
#[derive(Drop)]
pub(crate) struct Blocks {
    inner: Sha256,
    outer: Sha256,
}

impl Blocks {
    ghost use Rattle.std.specs.Prelude.{◌≡◌, ◌++◌, ℕ, List};
    ghost use Rattle.hmac_keys.specs.Mac.{Mac};
    ghost use Rattle.hmac_keys.specs.Started.{AreOf};

    /// Returns the inner and the outer hash of `key`, which may have any length.
    pub fn of(key: &[u8]) -> Blocks
        ensures { AreOf result key.now }
    {
        let mut block = [0; BLOCK_LEN];
        put_key(&mut block, key);
        combine(&mut block, INNER_PAD);
        let mut inner = Sha256::new();
        inner.update(&block);
        // Combining with the XOR of both pads removes the inner pad and applies the outer pad.
        combine(&mut block, INNER_PAD ^ OUTER_PAD);
        let mut outer = Sha256::new();
        outer.update(&block);
        Blocks { inner, outer }
    }

    /// Returns a copy of the hashes, so that the HMAC of another text can be computed.
    pub fn copy(&self) -> Blocks
        ensures { result ≡ self.now }
    {
        let Ok(inner) = self.inner.clone() else {
            unreachable!()
        };
        let Ok(outer) = self.outer.clone() else {
            unreachable!()
        };
        Blocks { inner, outer }
    }

    /// Returns the HMAC of one text, which is `first` followed by `second`. The key is the key that
    /// the hashes were made from.
    pub fn tag(self, first: &[u8], second: &[u8]) -> [u8; 32]
        ensures { (key : List ℕ) → AreOf self key → result ≡ Mac key (first.now ++ second.now) }
    {
        let Blocks {
            mut inner,
            mut outer,
        } = self;
        inner.update(first);
        inner.update(second);
        outer.update(&inner.finalize());
        outer.finalize()
    }
}

/// Returns the HMAC with SHA-256 (RFC 2104) of one text, which is `first` followed by `second`. The
/// key may have any length. The HMAC is not truncated: it has 32 octets. The call never fails, and
/// allocates nothing.
pub fn hmac_sha256(key: &[u8], first: &[u8], second: &[u8]) -> [u8; 32]
    ensures { result ≡ Mac key.now (first.now ++ second.now) }
{
    Blocks::of(key).tag(first, second)
}

/// Puts the key at the front of a block of zeros. If the key is longer than the block, puts the
/// SHA-256 hash of the key there instead.
fn put_key(block: &mut [u8; BLOCK_LEN], key: &[u8])
    requires { block.old ≡ replicate 64 0 }
    ensures { block.new ≡ block_of key.now }
{
    if key.len() > BLOCK_LEN {
        put_short(block, &Sha256::digest(key));
    } else {
        put_short(block, key);
    }
}

/// Puts a key of at most 64 octets at the front of a block of zeros.
fn put_short(block: &mut [u8; BLOCK_LEN], key: &[u8])
    requires zeros { block.old ≡ replicate 64 0 }
    requires short { length key.now ≤ 64 }
    ensures { block.new ≡ key.now ++ replicate (64 - length key.now) 0 }
{
    block[..key.len()].copy_from_slice(key);
}

/// Combines each octet of the block with the pad by XOR.
fn combine(block: &mut [u8; BLOCK_LEN], pad: u8)
    ensures { block.new ≡ xor_each pad block.old }
{
    for i in 0..BLOCK_LEN {
        block[i] ^= pad;
    }
}

/// Returns whether a signature's value equals the tag. A value that is not 32 octets long never
/// equals the tag. All octets of a value of 32 octets are compared, wherever the first difference
/// is.
pub fn tags_equal(value: &[u8], tag: &[u8; 32]) -> bool
    ensures { IsTrue result ↔ (value.now ≡ tag.now) }
{
    if value.len() != tag.len() {
        return false;
    }
    let mut difference = 0;
    for i in 0..tag.len() {
        difference |= value[i] ^ tag[i];
    }
    difference == 0
}
