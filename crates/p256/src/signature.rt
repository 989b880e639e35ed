//! Signatures, and their DER form.
ghost use Rattle.std.specs.Prelude.{◌≡◌, ◌^◌, ◌<◌, ◌↔◌, ℕ, List, IsTrue, MatchOption};
ghost use Rattle.p256.specs.Der.{IsContents, IsElement, IsInteger, IsShortest};
ghost use Rattle.p256.specs.Integer.{value};

use crate::integer::U256;
use crate::octets::number_of;

/// The two numbers r and s of an ECDSA signature. Each is below 2^256. A number that is 0, or not
/// below the order of the curve, can be read too, but such a signature is never valid.
#[derive(Clone, Copy, Debug, PartialEq, Eq)]
pub struct Signature {
    pub(crate) r: U256,
    pub(crate) s: U256,
}

/// The tag of an INTEGER (X.690, section 8.3.1).
const INTEGER: u8 = 2;

/// The tag of a SEQUENCE (X.690, section 8.9.1).
const SEQUENCE: u8 = 0x30;

/// Splits the first element, which has the tag `tag`, from octets. Returns its contents and what
/// comes after the element.
fn first_element(octets: &[u8], tag: u8) -> Option<(&[u8], &[u8])>
    ensures { MatchOption result
        ((contents rest : List ℕ) → IsElement octets.now tag contents rest → ⊥)
        (λ parts. IsElement octets.now tag parts.0.now parts.1.now) }
{
    if octets.len() < 2 || octets[0] != tag {
        return None;
    }
    let size = usize::from(octets[1]);
    let after = &octets[2..];
    if after.len() < size {
        return None;
    }
    Some((&after[..size], &after[size..]))
}

/// Returns whether octets are the shortest contents of a non-negative INTEGER of at most 33 octets.
fn is_shortest(contents: &[u8]) -> bool
    ensures { IsTrue result ↔ IsShortest contents.now }
{
    match contents {
        [] => false,
        [first] => *first < 128,
        [first, second, ..] => {
            contents.len() <= 33 && *first < 128 && (*first != 0 || *second >= 128)
        }
    }
}

/// Returns the number that the contents of an INTEGER stand for, if it is below 2^256.
fn number_in(contents: &[u8]) -> Option<U256>
    ensures { MatchOption result
        ((n : ℕ) → n < 2 ^ 256 → IsContents contents.now n → ⊥)
        (λ n. IsContents contents.now (value n)) }
{
    if !is_shortest(contents) {
        return None;
    }
    if contents.len() <= 32 {
        return Some(number_of(contents));
    }
    if contents[0] != 0 {
        return None;
    }
    Some(number_of(&contents[1..]))
}

/// Splits the first INTEGER from octets. Returns its number, which is below 2^256, and what comes
/// after the INTEGER.
fn first_integer(octets: &[u8]) -> Option<(U256, &[u8])>
    ensures { MatchOption result
        ((n : ℕ) (rest : List ℕ) → n < 2 ^ 256 → IsInteger octets.now n rest → ⊥)
        (λ parts. IsInteger octets.now (value parts.0) parts.1.now) }
{
    let (contents, rest) = first_element(octets, INTEGER)?;
    let number = number_in(contents)?;
    Some((number, rest))
}

impl Signature {
    ghost use Rattle.p256.specs.Signature.{r_of, s_of};
    ghost use Rattle.p256.specs.Der.{IsDer};

    /// Reads a signature in its DER form, the Ecdsa-Sig-Value of RFC 3279, section 2.2.3. Returns
    /// `None` for all other octets, for example if a number is negative, not in its shortest form,
    /// or not below 2^256, or if octets come after the signature. By the law
    /// `signatures_have_one_form`, each signature has one form.
    pub fn from_der(octets: &[u8]) -> Option<Signature>
        ensures { MatchOption result
            ((r s : ℕ) → IsDer octets.now r s → ⊥)
            (λ signature. IsDer octets.now (r_of signature) (s_of signature)) }
    {
        let Some((body, end)) = first_element(octets, SEQUENCE) else {
            return None;
        };
        let Some((r, after_r)) = first_integer(body) else {
            return None;
        };
        let Some((s, after_s)) = first_integer(after_r) else {
            return None;
        };
        if !end.is_empty() || !after_s.is_empty() {
            return None;
        }
        Some(Signature { r, s })
    }
}
