//! The public key of a certificate (RFC 5280, section 4.1.2.7; RFC 5480, section 2).

ghost use Rattle.std.specs.Prelude.{List, ℕ, MatchOption};
ghost use Rattle.certificates.specs.KeyInfo.{IsKeyInfo};

/// The octets before the point in the DER form of the SubjectPublicKeyInfo of a P-256 key with an
/// uncompressed point.
const BEFORE_POINT: [u8; 26] = [
    0x30, 0x59, 0x30, 0x13, 0x06, 0x07, 0x2a, 0x86, 0x48, 0xce, 0x3d, 0x02, 0x01, 0x06, 0x08, 0x2a,
    0x86, 0x48, 0xce, 0x3d, 0x03, 0x01, 0x07, 0x03, 0x42, 0x00,
];

/// The length of an uncompressed point, in octets.
const POINT_LEN: usize = 65;

/// Returns the octets of the point if `content` is the SubjectPublicKeyInfo of a P-256 key.
pub(crate) fn point_in(content: &[u8]) -> Option<&[u8]>
    ensures { MatchOption result
        ((point : List ℕ) → IsKeyInfo content.now point → ⊥)
        (λ point. IsKeyInfo content.now point.now) }
{
    let point = content.strip_prefix(&BEFORE_POINT)?;
    if point.len() != POINT_LEN {
        return None;
    }
    Some(point)
}
