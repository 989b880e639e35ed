//! Appends headers of elements, appends numbers and flags as elements, and computes the lengths of
//! elements. A header is the type of an element and the length of its value.

ghost use Rattle.std.specs.Prelude.{◌≡◌, ◌++◌, ◌+◌, ◌≤◌, ◌<◌, ◌^◌, length};
ghost use Rattle.ndn_tlv.specs.Number.{shortest_nni, spelling};
ghost use Rattle.ndn_tlv.specs.Element.{element};
ghost use Rattle.ndn_tlv.specs.Writing.{octets, flag, number, Puts};

use crate::integer::{nni_len, put_nni};
use crate::memory::Memory;
use crate::number::{number_len, put_number};

/// Appends the type of an element and the length of its value. If memory runs out, some octets may
/// have been appended.
#[inline(always)]
pub fn put_header(out: &mut Vec<u8>, kind: u32, value_len: usize) -> Result<(), Memory>
    ensures { Puts out.old out.new result (spelling kind ++ spelling value_len) }
{
    put_number(out, u64::from(kind))?;
    put_number(out, value_len as u64)?;
    Ok(())
}

/// Appends an element whose value is the shortest NonNegativeInteger encoding of `number`. If
/// memory runs out, some octets may have been appended.
#[inline(always)]
pub fn put_nni_element(out: &mut Vec<u8>, kind: u32, number: u64) -> Result<(), Memory>
    ensures { Puts out.old out.new result (element (kind, shortest_nni number)) }
{
    put_header(out, kind, nni_len(number))?;
    put_nni(out, number)?;
    Ok(())
}

/// Appends an element whose value is the shortest NonNegativeInteger encoding of the number
/// `asked`. Appends nothing if `asked` is `None`. If memory runs out, some octets may have been
/// appended.
#[inline(always)]
pub fn put_number_field(out: &mut Vec<u8>, kind: u32, asked: Option<u64>) -> Result<(), Memory>
    ensures { Puts out.old out.new result (octets (number kind asked)) }
{
    match asked {
        None => Ok(()),
        Some(number) => put_nni_element(out, kind, number),
    }
}

/// Appends a flag if `set` is true. A flag is an element with an empty value. If memory runs out,
/// some octets may have been appended.
#[inline(always)]
pub fn put_flag(out: &mut Vec<u8>, kind: u32, set: bool) -> Result<(), Memory>
    requires { 1 ≤ kind }
    ensures { Puts out.old out.new result (octets (flag kind set)) }
{
    if set {
        return put_header(out, kind, 0);
    }
    Ok(())
}

#[tactic(auto, using(crate::proofs::Lengths::element_lengths))]
/// Returns the length of an element, in octets. The value of the element is the shortest
/// NonNegativeInteger encoding of `number`.
#[inline(always)]
pub fn nni_element_len(kind: u32, number: u64) -> usize
    ensures exact { result ≡ length (element (kind, shortest_nni number)) }
    ensures small { result ≤ 26 }
    // `number` is below 2^64. Proofs about the grammar of written packets use this fact.
    ensures sound { number < 2 ^ 64 }
{
    let value_len = nni_len(number);
    number_len(u64::from(kind)) + number_len(value_len as u64) + value_len
}

#[tactic(auto, using(crate::proofs::Lengths::element_lengths))]
/// Returns the length in octets of the element with the type `kind` and the value `value`.
pub fn element_len(kind: u32, value: &[u8]) -> usize
    ensures exact { result ≡ length (element (kind, value.now)) }
    ensures small { result < 2 ^ 63 + 18 }
{
    number_len(u64::from(kind)) + number_len(value.len() as u64) + value.len()
}
