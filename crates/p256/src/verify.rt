//! Verification of signatures (FIPS 186-5, section 6.4.2; SEC 1, section 4.1.4).
ghost use Rattle.std.specs.Prelude.{◌≡◌, ◌+◌, ◌*◌, ◌%◌, ◌<◌, ◌↔◌, IsTrue};
ghost use Rattle.p256.specs.Curve.{triple};
ghost use Rattle.p256.specs.Field.{number};
ghost use Rattle.p256.specs.Integer.{value};
ghost use Rattle.p256.specs.Key.{x_of, y_of};
ghost use Rattle.p256.specs.Octets.{big_endian};
ghost use Rattle.p256.specs.Order.{order};
ghost use Rattle.p256.specs.Prime.{prime};
ghost use Rattle.p256.specs.Signature.{HasX, IsInRange, IsSigned, compared, r_of, s_of};

use crate::curve::{ONE, combined, is_same};
use crate::element::FieldElement;
use crate::field::PRIME;
use crate::integer::{U256, ZERO, add, is_below, is_equal};
use crate::key::PublicKey;
use crate::octets::number_of;
use crate::order::ORDER;
use crate::point::Point;
use crate::scalar::Scalar;
use crate::signature::Signature;

/// Returns whether `x` is above 0 and below the order.
fn is_in_range(x: U256) -> bool
    ensures { IsTrue result ↔ IsInRange (value x) }
{
    is_below(ZERO, x) && is_below(x, ORDER.number)
}

/// Returns whether both numbers of a signature are above 0 and below the order.
fn are_in_range(signature: &Signature) -> bool
    ensures { IsTrue result ↔ (IsInRange (r_of signature.now) × IsInRange (s_of signature.now)) }
{
    is_in_range(signature.r) && is_in_range(signature.s)
}

/// Returns whether the affine first coordinate of `point` is `candidate`.
fn is_first(point: Point, candidate: U256) -> bool
    ensures { IsTrue result ↔ ((value candidate * number point.z) % prime ≡ number point.x) }
{
    let scaled = FieldElement::new(candidate).times(point.z);
    is_same(scaled, point.x)
}

/// Returns whether the affine first coordinate of `point` is `r` modulo the order. Returns false
/// for the point at infinity.
fn has_x(point: Point, r: U256) -> bool
    requires { value r < order }
    ensures { IsTrue result ↔ HasX (triple point) (value r) }
{
    if is_equal(point.z.to_words(), ZERO) {
        return false;
    }
    if is_first(point, r) {
        return true;
    }
    let (more, carry) = add(r, ORDER.number);
    carry == 0 && is_below(more, PRIME) && is_first(point, more)
}

/// The point whose first coordinate is compared with `r`: `hash / s` times the base point, plus
/// `r / s` times the public key.
fn compared(hash: U256, r: U256, s: U256, key: &PublicKey) -> Point
    requires { value s < order }
    ensures { triple result
        ≡ compared (value hash) (value r) (value s) (x_of key.now) (y_of key.now) }
{
    let inverse = Scalar::new(s).inverse();
    let by_hash = Scalar::new(hash).times(inverse).to_words();
    let by_r = Scalar::new(r).times(inverse).to_words();
    let point = Point {
        x: key.x,
        y: key.y,
        z: ONE,
    };
    combined(by_hash, by_r, point)
}

impl PublicKey {
    /// Returns true exactly if `signature` is an ECDSA signature under this key, where `digest` is
    /// the SHA-256 hash of the signed octets (FIPS 186-5, section 6.4.2). Both s and n - s are
    /// accepted, where n is the order of the curve. The call allocates nothing.
    pub fn verify(&self, digest: &[u8; 32], signature: &Signature) -> bool
        ensures { IsTrue result ↔ IsSigned (big_endian digest.now)
            (r_of signature.now) (s_of signature.now) (x_of self.now) (y_of self.now) }
    {
        if !are_in_range(signature) {
            return false;
        }
        let (r, s) = (signature.r, signature.s);
        has_x(compared(number_of(digest), r, s, self), r)
    }
}
