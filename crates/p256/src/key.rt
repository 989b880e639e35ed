//! Public keys.
ghost use Rattle.p256.specs.Field.{number};
ghost use Rattle.p256.specs.Curve.{IsOnCurve};

use crate::curve::is_on_curve;
use crate::element::FieldElement;
use crate::fault::PointFault;
use crate::field::PRIME;
use crate::integer::is_below;
use crate::octets::number_of;

/// A public key: a point of the curve P-256. The point is not the point at infinity.
#[derive(Clone, Copy, Debug, PartialEq, Eq)]
pub struct PublicKey {
    pub(crate) x: FieldElement,
    pub(crate) y: FieldElement,
    ghost on_curve: { IsOnCurve (number x) (number y) },
}

impl PublicKey {
    ghost use Rattle.std.specs.Prelude.{MatchResult};
    ghost use Rattle.p256.specs.Key.{IsFaultOf, IsKey};

    /// Reads a public key in the uncompressed form of SEC 1, section 2.3.4: the octet 04, and then
    /// the two coordinates of the point in 32 octets each, the most significant octet first. For
    /// other octets the first fault is reported, in the order of `PointFault`.
    pub fn from_octets(octets: &[u8]) -> Result<PublicKey, PointFault>
        ensures { MatchResult result
            (λ key. IsKey octets.now key)
            (λ fault. IsFaultOf octets.now fault) }
    {
        if octets.len() != 65 || octets[0] != 4 {
            return Err(PointFault::BadForm);
        }
        let x = number_of(&octets[1..33]);
        let y = number_of(&octets[33..65]);
        if !is_below(x, PRIME) || !is_below(y, PRIME) {
            return Err(PointFault::TooLarge);
        }
        let x = FieldElement::new(x);
        let y = FieldElement::new(y);
        if !is_on_curve(x, y) {
            return Err(PointFault::OffCurve);
        }
        Ok(PublicKey { x, y })
    }
}
