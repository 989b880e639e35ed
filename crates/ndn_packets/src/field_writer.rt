//! Functions that the writers of packets share. Some functions compute lengths before anything is
//! written, and other functions write fields.

ghost use Rattle.std.specs.Prelude.{◌≡◌, ◌<◌, ◌≤◌, ◌+◌, ◌^◌, ◌++◌, ℕ, IfSome, List, drop, length, take, option_map};
ghost use Rattle.ndn_tlv.specs.Number.{spelling, shortest_nni};
ghost use Rattle.ndn_tlv.specs.Element.{element};
ghost use Rattle.ndn_names.specs.View.{components};
ghost use Rattle.ndn_tlv.specs.Writing.{octets, number, Puts, optional};
ghost use Rattle.ndn_packets.specs.Writing.{kind_of, locator_fields, info_fields, IsLength, AreOctets, IsU64, IsSoundSign};

use crate::signature::Sign;
use crate::types::{
    DIGEST_SHA256, HMAC_WITH_SHA256, KEY_LOCATOR, NAME, SIGNATURE_SEQ_NUM, SIGNATURE_TIME,
    SIGNATURE_TYPE,
};
use ndn_names::Name;
use ndn_tlv::{
    Memory, nni_element_len, number_len, put_element, put_header, put_nni_element, put_number_field,
};

/// The length of a SHA-256 digest, in octets.
pub const DIGEST_LEN: usize = 32;

/// The length of a digest component in octets, including the type and length of the component.
pub const DIGEST_COMPONENT_LEN: usize = 34;

/// Returns the length of `octets`.
#[inline(always)]
pub fn octets_len(octets: &[u8]) -> usize
    ensures len { IsLength result octets.now }
    // Proofs about the grammar of written packets use the fact that octets are below 256.
    ensures sound { AreOctets octets.now }
{
    octets.len()
}

#[tactic(auto, using(ndn_tlv::proofs::Lengths::header_lengths, crate::proofs::Lengths::element_is_long))]
/// Returns the length in octets of an element of type `kind` whose value has `value_len` octets, or
/// `usize::MAX` if the length of the element is greater.
#[inline(always)]
pub fn element_len(kind: u32, value_len: usize) -> usize
    ensures { (value : List ℕ) → IsLength value_len value
        → IsLength result (element (kind, value)) }
{
    let header_len = number_len(u64::from(kind)) + number_len(value_len as u64);
    header_len.saturating_add(value_len)
}

/// Returns the length of an optional field in octets, or 0 if `value` is `None`. If the length is
/// greater than `usize::MAX`, returns `usize::MAX`.
#[inline(always)]
pub fn optional_len(kind: u32, value: Option<&[u8]>) -> usize
    ensures len { IsLength result (octets (optional kind (option_map (λ v. v.now) value.entry))) }
    ensures sound { IfSome value.entry (λ v. AreOctets v.now) }
{
    match value {
        None => 0,
        Some(value) => element_len(kind, octets_len(value)),
    }
}

/// Returns the length of an optional NonNegativeInteger field in octets, or 0 if `asked` is `None`.
#[inline(always)]
pub fn number_field_len(kind: u32, asked: Option<u64>) -> usize
    ensures exact { result ≡ length (octets (number kind asked)) }
    ensures small { result ≤ 26 }
    ensures sound { IsU64 asked }
{
    match asked {
        None => 0,
        Some(number) => nni_element_len(kind, number),
    }
}

/// Returns the length of the Name element in octets, or `usize::MAX` if the length is greater.
pub fn name_element_len(name: Name<'_>) -> usize
    ensures len { IsLength result (element (NAME, octets (components name.entry))) }
    ensures sound { AreOctets (octets (components name.entry)) }
{
    element_len(NAME, octets_len(name.as_octets()))
}

/// Returns the SignatureType for `sign`.
#[inline(always)]
fn kind_of(sign: Sign<'_>) -> u64
    ensures { result ≡ kind_of sign.entry }
{
    match sign {
        Sign::Digest => DIGEST_SHA256,
        Sign::Hmac { .. } => HMAC_WITH_SHA256,
    }
}

/// Returns the length of the KeyLocator in octets, or 0 if there is no KeyLocator. If the length is
/// greater than `usize::MAX`, returns `usize::MAX`.
fn locator_len(sign: Sign<'_>) -> usize
    ensures len { IsLength result (octets (locator_fields sign.entry)) }
    ensures sound { IsSoundSign sign.entry }
{
    match sign {
        Sign::Digest => 0,
        Sign::Hmac { name, .. } => element_len(KEY_LOCATOR, name_element_len(name)),
    }
}

#[tactic(auto, using(crate::proofs::Lengths::info_is_long))]
/// Returns the length in octets of the value of a SignatureInfo or of an InterestSignatureInfo, or
/// `usize::MAX` if the length is greater.
pub fn info_len(sign: Sign<'_>, time: Option<u64>, seq: Option<u64>) -> usize
    ensures len { IsLength result (octets (info_fields sign.entry time seq)) }
    ensures time { IsU64 time }
    ensures seq { IsU64 seq }
    ensures sign { IsSoundSign sign.entry }
{
    let numbers_len = nni_element_len(SIGNATURE_TYPE, kind_of(sign))
        + number_field_len(SIGNATURE_TIME, time)
        + number_field_len(SIGNATURE_SEQ_NUM, seq);
    locator_len(sign).saturating_add(numbers_len)
}

/// Appends a field of type `kind` with the value in `value`, or nothing if `value` is `None`. If
/// memory runs out, some octets may have been appended.
#[inline(always)]
pub fn put_optional(out: &mut Vec<u8>, kind: u32, value: Option<&[u8]>) -> Result<(), Memory>
    requires { 1 ≤ kind }
    ensures { Puts out.old out.new result
        (octets (optional kind (option_map (λ v. v.now) value.entry))) }
{
    match value {
        None => Ok(()),
        Some(value) => put_element(out, kind, value),
    }
}

/// Appends the KeyLocator, if there is one. If memory runs out, some octets may have been appended.
fn put_locator(out: &mut Vec<u8>, sign: Sign<'_>) -> Result<(), Memory>
    ensures { Puts out.old out.new result (octets (locator_fields sign.entry)) }
{
    if let Sign::Hmac { name, .. } = sign {
        put_header(out, KEY_LOCATOR, name_element_len(name))?;
        put_element(out, NAME, name.as_octets())?;
    }
    Ok(())
}

/// Appends a SignatureInfo or an InterestSignatureInfo: the TLV-TYPE is `kind`. If memory runs out,
/// some octets may have been appended.
pub fn put_info(
    out: &mut Vec<u8>,
    kind: u32,
    sign: Sign<'_>,
    time: Option<u64>,
    seq: Option<u64>,
) -> Result<(), Memory>
    ensures { Puts out.old out.new result
        (element (kind, octets (info_fields sign.entry time seq))) }
{
    put_header(out, kind, info_len(sign, time, seq))?;
    put_nni_element(out, SIGNATURE_TYPE, kind_of(sign))?;
    put_locator(out, sign)?;
    put_number_field(out, SIGNATURE_TIME, time)?;
    put_number_field(out, SIGNATURE_SEQ_NUM, seq)?;
    Ok(())
}

/// Replaces `by.len()` octets in `octets`, from index `place` on, with the octets in `by`.
pub fn overwrite(octets: &mut [u8], place: usize, by: &[u8])
    requires { place + length by.now ≤ length octets.old }
    ensures { octets.new
        ≡ take place octets.old ++ (by.now ++ drop (place + length by.now) octets.old) }
{
    octets[place..place + by.len()].copy_from_slice(by);
}
