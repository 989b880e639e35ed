ghost use Rattle.std.specs.Prelude.{◌≡◌, ℕ, ◌+◌, ◌≤◌, ◌++◌, List, length, vec_len, IfOk, IfErr, OnOk, OnErr, IsOk, Ok};
ghost use Rattle.std.specs.Vec.{vec_capacity};
ghost use Rattle.ndn_tlv.specs.Number.{IsNni, shortest_nni};
ghost use Rattle.ndn_tlv.specs.Reading.{nni_at};

use crate::fault::TlvFault;
use crate::memory::Memory;

#[tactic(auto, unfolding(crate::specs::Reading::nni_at))]
fn integer_of(value: &[u8]) -> Result<u64, TlvFault>
    ensures { result ≡ nni_at value.now }
{
    match value {
        [a] => Ok(u64::from(*a)),
        [a, b] => Ok(u64::from(u16::from_be_bytes([*a, *b]))),
        [a, b, c, d] => Ok(u64::from(u32::from_be_bytes([*a, *b, *c, *d]))),
        [a, b, c, d, e, f, g, h] => Ok(u64::from_be_bytes([*a, *b, *c, *d, *e, *f, *g, *h])),
        _ => Err(TlvFault::BadInteger),
    }
}

/// Reads a whole TLV-VALUE as a NonNegativeInteger (NDN Packet Format 0.3, "Non-Negative Integer
/// Encoding"): 1, 2, 4 or 8 octets in network order, not necessarily the shortest encoding. Returns
/// `BadInteger` for a value of any other length.
pub fn nni_of(value: &[u8]) -> Result<u64, TlvFault>
    ensures found { IfOk result (IsNni value.now) }
    ensures only { (n : ℕ) → IsNni value.now n → result ≡ Ok n }
    ensures fault { IfErr result (λ e. e ≡ TlvFault.BadInteger) }
    ensures exact { result ≡ nni_at value.now }
{
    integer_of(value)
}

/// Appends the shortest NonNegativeInteger encoding of a number (NDN Packet Format 0.3,
/// "Non-Negative Integer Encoding"): 1, 2, 4 or 8 octets. If memory runs out, nothing is appended.
#[tactic(auto, unfolding(crate::specs::Number::shortest_nni))]
#[inline(always)]
pub fn put_nni(out: &mut Vec<u8>, number: u64) -> Result<(), Memory>
    ensures ok { OnOk result (out.new.items ≡ out.old.items ++ shortest_nni number) }
    ensures err { OnErr result (out.new.items ≡ out.old.items) }
    ensures room { vec_len out.old + length (shortest_nni number) ≤ vec_capacity out.old
        → IsOk result }
    ensures capacity { vec_capacity out.old ≤ vec_capacity out.new }
    ensures spelled { IsNni (shortest_nni number) number }
    ensures shortest { (text : List ℕ) → IsNni text number
        → length (shortest_nni number) ≤ length text }
{
    if number < 256 {
        out.push(number as u8)?;
    } else if number < 65_536 {
        out.extend_from_slice(&(number as u16).to_be_bytes())?;
    } else if number < 4_294_967_296 {
        out.extend_from_slice(&(number as u32).to_be_bytes())?;
    } else {
        out.extend_from_slice(&number.to_be_bytes())?;
    }
    Ok(())
}

/// Returns the length of the shortest NonNegativeInteger encoding of a number, in octets: 1, 2, 4
/// or 8 (NDN Packet Format 0.3, "Non-Negative Integer Encoding").
#[tactic(auto, unfolding(crate::specs::Number::shortest_nni))]
#[inline(always)]
pub fn nni_len(number: u64) -> usize
    ensures { result ≡ length (shortest_nni number) }
{
    if number < 256 {
        1
    } else if number < 65_536 {
        2
    } else if number < 4_294_967_296 {
        4
    } else {
        8
    }
}
