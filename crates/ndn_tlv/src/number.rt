ghost use Rattle.std.specs.Prelude.{◌≡◌, ℕ, ◌+◌, ◌<◌, ◌≤◌, ◌^◌, ◌++◌, ◌∷◌, ◌↔◌, List, length, vec_len, IfOk, IfErr, OnOk, OnErr, IsOk, IsOkAnd, Ok, Err};
ghost use Rattle.std.specs.Vec.{vec_capacity};
ghost use Rattle.std.specs.Int.{w16, w32, w64};
ghost use Rattle.ndn_tlv.specs.Number.{Spells, spelling};
ghost use Rattle.ndn_tlv.specs.Reading.{number_at, long_number_at, NumberFault, on_result};

use crate::fault::TlvFault;
use crate::memory::Memory;

/// Reads the number in the first two octets of `octets`. The octet before `octets` is 253. Returns
/// the number and the octets after these two octets. Returns `Truncated` if `octets` has fewer than
/// two octets, and `NotShortest` if the number is below 253.
fn two_octets(octets: &[u8]) -> Result<(u64, &[u8]), TlvFault>
    ensures { on_result (λ x. Ok (x.0, x.1.now)) Err result ≡ long_number_at w16 253 octets.now }
{
    match octets {
        [a, b, rest @ ..] => {
            let number = u16::from_be_bytes([*a, *b]);
            if number < 253 {
                return Err(TlvFault::NotShortest);
            }
            Ok((u64::from(number), rest))
        }
        _ => Err(TlvFault::Truncated),
    }
}

fn four_octets(octets: &[u8]) -> Result<(u64, &[u8]), TlvFault>
    ensures { on_result (λ x. Ok (x.0, x.1.now)) Err result ≡ long_number_at w32 65536 octets.now }
{
    match octets {
        [a, b, c, d, rest @ ..] => {
            let number = u32::from_be_bytes([*a, *b, *c, *d]);
            if number < 65_536 {
                return Err(TlvFault::NotShortest);
            }
            Ok((u64::from(number), rest))
        }
        _ => Err(TlvFault::Truncated),
    }
}

fn eight_octets(octets: &[u8]) -> Result<(u64, &[u8]), TlvFault>
    ensures { on_result (λ x. Ok (x.0, x.1.now)) Err result
        ≡ long_number_at w64 4294967296 octets.now }
{
    match octets {
        [a, b, c, d, e, f, g, h, rest @ ..] => {
            let number = u64::from_be_bytes([*a, *b, *c, *d, *e, *f, *g, *h]);
            if number < 4_294_967_296 {
                return Err(TlvFault::NotShortest);
            }
            Ok((number, rest))
        }
        _ => Err(TlvFault::Truncated),
    }
}

#[tactic(auto, unfolding(crate::specs::Reading::number_at))]
#[inline(always)]
pub(crate) fn leading_number(octets: &[u8]) -> Result<(u64, &[u8]), TlvFault>
    ensures { on_result (λ x. Ok (x.0, x.1.now)) Err result ≡ number_at octets.now }
{
    match octets {
        [] => Err(TlvFault::Truncated),
        [253, rest @ ..] => two_octets(rest),
        [254, rest @ ..] => four_octets(rest),
        [255, rest @ ..] => eight_octets(rest),
        [octet, rest @ ..] => Ok((u64::from(*octet), rest)),
    }
}

/// Reads the VAR-NUMBER at the front of the octets. Returns the number and the octets after it (NDN
/// Packet Format 0.3, "Type-Length-Value (TLV) Encoding").
///
/// Returns `Truncated` if the octets are empty or end inside the number. Returns `NotShortest` if
/// the number has a shorter form.
pub fn number_of(octets: &[u8]) -> Result<(u64, &[u8]), TlvFault>
    // The octets are the shortest encoding of the returned number, followed by the returned
    // remaining octets.
    ensures found { IfOk result
        (λ x. (text : List ℕ) × Spells text x.0 × (octets.now ≡ text ++ x.1.now)) }
    // If the octets begin with the shortest encoding of a number, exactly this number is returned.
    ensures only { (n : ℕ) (text rest : List ℕ) → Spells text n → octets.now ≡ text ++ rest
        → IsOkAnd result (λ x. (x.0 ≡ n) × (x.1.now ≡ rest)) }
    // A returned fault says why no number can be read at the front of the octets.
    ensures fault { IfErr result (NumberFault octets.now) }
    ensures exact { on_result (λ x. Ok (x.0, x.1.now)) Err result ≡ number_at octets.now }
{
    leading_number(octets)
}

/// Law: the shortest encoding of a number is never a prefix of the shortest encoding of another
/// number.
pub fn no_spelling_begins_another()
    ensures { (a b x y : List ℕ) (m n : ℕ) → Spells a m → Spells b n → a ++ x ≡ b ++ y
        → (a ≡ b) × (m ≡ n) }
{}

/// Law: each number below 2^64 has exactly one shortest encoding, which `spelling` computes.
pub fn each_number_has_one_spelling()
    ensures { (text : List ℕ) (n : ℕ) → Spells text n ↔ ((n < 2 ^ 64) × (text ≡ spelling n)) }
{}

/// Appends the octet `first`, and then the octets `others`. If memory runs out, nothing is
/// appended.
#[inline(always)]
fn put_long(out: &mut Vec<u8>, first: u8, others: &[u8]) -> Result<(), Memory>
    requires { length others.now ≤ 8 }
    ensures ok { OnOk result (out.new.items ≡ out.old.items ++ first ∷ others.now) }
    ensures err { OnErr result (out.new.items ≡ out.old.items) }
    ensures room { vec_len out.old + length (first ∷ others.now) ≤ vec_capacity out.old
        → IsOk result }
    ensures capacity { vec_capacity out.old ≤ vec_capacity out.new }
{
    out.reserve(others.len() + 1)?;
    out.push(first)?;
    out.extend_from_slice(others)?;
    Ok(())
}

/// Appends the shortest VAR-NUMBER encoding of a number (NDN Packet Format 0.3, "Type-Length-Value
/// (TLV) Encoding"): 1, 3, 5 or 9 octets. If memory runs out, nothing is appended.
#[tactic(auto, unfolding(crate::specs::Number::spelling))]
#[inline(always)]
pub fn put_number(out: &mut Vec<u8>, number: u64) -> Result<(), Memory>
    ensures ok { OnOk result (out.new.items ≡ out.old.items ++ spelling number) }
    ensures err { OnErr result (out.new.items ≡ out.old.items) }
    ensures room { vec_len out.old + length (spelling number) ≤ vec_capacity out.old → IsOk result }
    ensures capacity { vec_capacity out.old ≤ vec_capacity out.new }
{
    if number < 253 {
        out.push(number as u8)?;
        Ok(())
    } else if number < 65_536 {
        put_long(out, 253, &(number as u16).to_be_bytes())
    } else if number < 4_294_967_296 {
        put_long(out, 254, &(number as u32).to_be_bytes())
    } else {
        put_long(out, 255, &number.to_be_bytes())
    }
}

/// Returns the length of the shortest VAR-NUMBER encoding of a number, in octets: 1, 3, 5 or 9 (NDN
/// Packet Format 0.3, "Type-Length-Value (TLV) Encoding").
#[tactic(auto, unfolding(crate::specs::Number::spelling))]
#[inline(always)]
pub fn number_len(number: u64) -> usize
    ensures { result ≡ length (spelling number) }
{
    if number < 253 {
        1
    } else if number < 65_536 {
        3
    } else if number < 4_294_967_296 {
        5
    } else {
        9
    }
}
