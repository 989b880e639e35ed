ghost use Rattle.std.specs.Vec.{vec_capacity};
ghost use Rattle.std.specs.Prelude.{◌≡◌, ◌-◌, ◌+◌, ◌<◌, ◌≤◌, ◌++◌, [], ◌∷◌, drop, length, take, vec_len, option_map, IsOk, OnOk, MatchOption, IfSome, true, false};
ghost use Rattle.sha2.specs.Sha256.{sha256};
ghost use Rattle.ndn_names.specs.View.{components};
ghost use Rattle.ndn_packets.specs.Packet.{digests_in};
ghost use Rattle.ndn_packets.specs.Reading.{is_nil};
ghost use Rattle.ndn_tlv.specs.Writing.{octets, Puts, optional, flag};
ghost use Rattle.ndn_packets.specs.Writing.{IsLength};

use crate::fault::WriteFault;
use crate::field_writer::{
    DIGEST_LEN, element_len, info_len, number_field_len, octets_len, optional_len, overwrite,
    put_info, put_optional,
};
use crate::frame::MAX_PACKET;
use crate::signature::Sign;
use crate::types::{
    APPLICATION_PARAMETERS, CAN_BE_PREFIX, HOP_LIMIT, INTEREST, INTEREST_LIFETIME,
    INTEREST_SIGNATURE_INFO, INTEREST_SIGNATURE_VALUE, MUST_BE_FRESH, NAME, NONCE,
};
use ndn_names::component_type::PARAMETERS_SHA256_DIGEST;
use ndn_names::{MAX_COMPONENTS, Name};
use ndn_tlv::{Memory, put_element, put_flag, put_header, put_number_field};
use sha2::{Digest, Sha256};

/// An Interest that is to be written (NDN Packet Format 0.3, "Interest Packet").
#[derive(Clone, Copy, Debug)]
pub struct InterestWriter<'a> {
    /// The name without the digest of parameters. The writer appends the digest if there are
    /// parameters or the Interest is signed.
    pub name: Name<'a>,
    pub can_be_prefix: bool,
    pub must_be_fresh: bool,
    /// The value of the Nonce: its 4 octets, in the order of the packet.
    pub nonce: [u8; 4],
    /// The InterestLifetime in milliseconds.
    pub lifetime: Option<u64>,
    /// The HopLimit, in hops.
    pub hop_limit: Option<u8>,
    /// The value of the ApplicationParameters. A signed Interest without parameters is written with
    /// empty ApplicationParameters.
    pub parameters: Option<&'a [u8]>,
    /// How the Interest is signed, if at all.
    pub sign: Option<Sign<'a>>,
    /// The SignatureTime, in milliseconds since 1970. The SignatureTime is written only if the
    /// Interest is signed.
    pub time: Option<u64>,
    /// The SignatureSeqNum. The SignatureSeqNum is written only if the Interest is signed.
    pub seq: Option<u64>,
}

/// The lengths of the name's value and of the Interest's value, in octets.
#[derive(Clone, Copy)]
struct Lengths {
    name: usize,
    value: usize,
}

impl InterestWriter<'_> {
    ghost use Rattle.std.specs.Vec.{vec_capacity};
    ghost use Rattle.std.specs.Prelude.{◌≡◌, ◌<◌, ◌≤◌, ◌+◌, ◌++◌, [], ◌∷◌, true, false, length, take, vec_len, IsOk, not, unwrap_or, option_map, None, OnOk, OnErr, Err, MatchOption, IfErr, IfSome, OnSome};
    ghost use Rattle.ndn_names.specs.View.{components};
    ghost use Rattle.ndn_packets.specs.Grammar.{IsInterest};
    ghost use Rattle.ndn_tlv.specs.Writing.{octets, Puts};
    ghost use Rattle.ndn_packets.specs.Writing.{is_bad_name, early_fields, later_fields, covered_fields, interest_value, interest_name, interest_fields, zeroed_name, interest_text, interest_asked, interest_refusal, IsLength, AreOctets, IsU64, IsSoundSign, SignsInterest, SoundInterest};
    ghost use Rattle.ndn_packets.specs.Reading.{is_nil};
    ghost use Rattle.ndn_tlv.specs.Element.{element};

    #[tactic(auto, using(crate::proofs::WrittenInterests::interest_reads_back))]
    /// Appends the Interest with only the requested fields and the fields that a signature needs.
    /// The fields are in the standard's order and in their shortest forms.
    ///
    /// If the Interest cannot be written, returns the first fault in the order of `WriteFault` and
    /// appends nothing.
    pub fn write(&self, out: &mut Vec<u8>) -> Result<(), WriteFault>
        ensures ok { OnOk result (out.new.items ≡ out.old.items ++ interest_text self.now) }
        ensures err { OnErr result (out.new.items ≡ out.old.items) }
        // If `interest_refusal` is a fault, this fault is returned. If `interest_refusal` is
        // `None`, the only possible fault is `Memory`.
        ensures fault { MatchOption (interest_refusal self.now)
            (IfErr result (λ fault. fault ≡ WriteFault.Memory))
            (λ fault. result ≡ Err fault) }
        // If the capacity of `out` suffices, memory does not run out.
        ensures room { interest_refusal self.now ≡ None
            → vec_len out.old + length (interest_text self.now) ≤ vec_capacity out.old
            → IsOk result }
        ensures capacity { vec_capacity out.old ≤ vec_capacity out.new }
        // The written octets are in the grammar, and are the requested Interest.
        ensures reads_back { interest_refusal self.now ≡ None
            → IsInterest (interest_text self.now) (interest_asked self.now) }
        // If the Interest is signed, the signature was computed over exactly the octets that
        // `Covered` defines.
        ensures signed { interest_refusal self.now ≡ None
            → IfSome self.now.sign (SignsInterest self.now) }
    {
        let lengths = self.lengths();
        if let Some(fault) = self.refusal(lengths) {
            return Err(fault);
        }
        let len = out.len();
        let done = self.put_parts(out, lengths);
        if done.is_err() {
            out.truncate(len);
        }
        Ok(done?)
    }

    /// Returns why the Interest is refused, or `None` if the Interest is not refused. A lack of
    /// memory is not considered.
    #[inline(always)]
    fn refusal(&self, lengths: Lengths) -> Option<WriteFault>
        requires { IsLength lengths.value (octets (interest_fields self.now)) }
        ensures { result ≡ interest_refusal self.now }
    {
        let Some(count) = self.component_count() else {
            return Some(WriteFault::BadName);
        };
        if count > MAX_COMPONENTS || element_len(INTEREST, lengths.value) > MAX_PACKET {
            return Some(WriteFault::TooLong);
        }
        None
    }

    /// Returns the number of components of the written name, including the digest of parameters, or
    /// `None` if `self.name` is empty or has a digest of parameters.
    #[inline(always)]
    fn component_count(&self) -> Option<usize>
        ensures { MatchOption result (is_bad_name (components self.now.name) ≡ true)
            (λ count. (is_bad_name (components self.now.name) ≡ false)
            × (count ≡ length (interest_name self.now))) }
    {
        let count = count_without_digest(self.name)?;
        if count == 0 {
            return None;
        }
        Some(count + usize::from(self.has_digest()))
    }

    /// Returns whether the written Interest has ApplicationParameters. If it has
    /// ApplicationParameters, its name has a digest of parameters.
    #[inline(always)]
    fn has_digest(&self) -> bool
        ensures { result ≡ not (is_nil (later_fields self.now self.now.sign)) }
    {
        self.parameters.is_some() || self.sign.is_some()
    }

    /// Returns the length of the name's value in octets, or `usize::MAX` if the length is greater.
    #[inline(always)]
    fn name_len(&self) -> usize
        ensures len { IsLength result (octets (interest_name self.now)) }
        ensures sound { AreOctets (octets (components self.now.name)) }
    {
        let len = octets_len(self.name.as_octets());
        if self.has_digest() {
            len.saturating_add(element_len(u32::from(PARAMETERS_SHA256_DIGEST), DIGEST_LEN))
        } else {
            len
        }
    }

    /// Returns the length in octets of the fields between the name and the ApplicationParameters,
    /// or `usize::MAX` if the length is greater.
    #[inline(always)]
    fn early_len(&self) -> usize
        ensures len { IsLength result (octets (early_fields self.now)) }
        ensures nonce { AreOctets self.now.nonce }
        ensures nonce_len { length self.now.nonce ≡ 4 }
        ensures lifetime { IsU64 self.now.lifetime }
        ensures hop_limit { IfSome self.now.hop_limit (λ n. n < 256) }
    {
        flag_len(CAN_BE_PREFIX, self.can_be_prefix)
            .saturating_add(flag_len(MUST_BE_FRESH, self.must_be_fresh))
            .saturating_add(element_len(NONCE, octets_len(&self.nonce)))
            .saturating_add(number_field_len(INTEREST_LIFETIME, self.lifetime))
            .saturating_add(octet_field_len(HOP_LIMIT, self.hop_limit))
    }

    /// Returns the length in octets of the fields from the ApplicationParameters on, or
    /// `usize::MAX` if the length is greater.
    #[inline(always)]
    fn later_len(&self) -> usize
        ensures len { IsLength result (octets (later_fields self.now self.now.sign)) }
        ensures parameters { IfSome self.now.parameters (λ p. AreOctets p.now) }
        ensures time { OnSome self.now.sign (IsU64 self.now.time) }
        ensures seq { OnSome self.now.sign (IsU64 self.now.seq) }
        ensures sign { IfSome self.now.sign IsSoundSign }
    {
        match self.sign {
            None => optional_len(APPLICATION_PARAMETERS, self.parameters),
            Some(sign) => element_len(APPLICATION_PARAMETERS, octets_len(self.parameter_octets()))
                .saturating_add(element_len(
                    INTEREST_SIGNATURE_INFO,
                    info_len(sign, self.time, self.seq),
                ))
                .saturating_add(element_len(INTEREST_SIGNATURE_VALUE, DIGEST_LEN)),
        }
    }

    /// Returns the value of the ApplicationParameters, which is empty if no parameters were
    /// requested.
    #[inline(always)]
    fn parameter_octets(&self) -> &[u8]
        ensures { result.now ≡ unwrap_or (option_map (λ p. p.now) self.now.parameters) [] }
    {
        match self.parameters {
            None => &[],
            Some(parameters) => parameters,
        }
    }

    /// Returns the lengths of the name's value and of the Interest's value in octets. A length
    /// greater than `usize::MAX` is returned as `usize::MAX`.
    #[inline(always)]
    fn lengths(&self) -> Lengths
        ensures name { IsLength result.name (octets (interest_name self.now)) }
        ensures value { IsLength result.value (octets (interest_fields self.now)) }
        // Proofs about the written Interest use the fact that the octets and numbers of the writer
        // are within the ranges of their types.
        ensures sound { SoundInterest self.now }
    {
        let name = self.name_len();
        let value = element_len(NAME, name)
            .saturating_add(self.early_len())
            .saturating_add(self.later_len());
        Lengths { name, value }
    }

    /// Appends the fields from the ApplicationParameters on. If memory runs out, some octets may
    /// have been appended.
    #[inline(always)]
    fn put_later(&self, out: &mut Vec<u8>) -> Result<(), Memory>
        ensures { Puts out.old out.new result (octets (later_fields self.now self.now.sign)) }
    {
        match self.sign {
            None => put_optional(out, APPLICATION_PARAMETERS, self.parameters),
            Some(sign) => {
                let start = out.len();
                self.put_covered(out, sign)?;
                let value = self.signature_value(sign, &out[start..]);
                put_element(out, INTEREST_SIGNATURE_VALUE, &value)
            }
        }
    }

    /// Appends the ApplicationParameters and the InterestSignatureInfo, which the signature covers.
    /// If memory runs out, some octets may have been appended.
    fn put_covered(&self, out: &mut Vec<u8>, sign: Sign<'_>) -> Result<(), Memory>
        ensures ok { OnOk result
            (out.new.items ≡ out.old.items ++ octets (covered_fields self.now sign.entry)) }
        ensures begins { take (vec_len out.old) out.new.items ≡ out.old.items }
        ensures room { vec_len out.old + length (octets (covered_fields self.now sign.entry))
            ≤ vec_capacity out.old → IsOk result }
        ensures capacity { vec_capacity out.old ≤ vec_capacity out.new }
    {
        put_element(out, APPLICATION_PARAMETERS, self.parameter_octets())?;
        put_info(out, INTEREST_SIGNATURE_INFO, sign, self.time, self.seq)
    }

    /// Returns the SignatureValue of the signature over the octets of the name's components
    /// followed by the octets `covered`.
    fn signature_value(&self, sign: Sign<'_>, covered: &[u8]) -> [u8; DIGEST_LEN]
        requires { covered.now ≡ octets (covered_fields self.now sign) }
        ensures { result ≡ interest_value self.now sign.entry }
    {
        sign.value(self.name.as_octets(), covered)
    }

    /// Appends the Name element. If memory runs out, some octets may have been appended. If the
    /// written name has a digest of parameters, 32 zeros are written in place of the digest, which
    /// is not yet known.
    #[inline(always)]
    fn put_name(&self, out: &mut Vec<u8>, name_len: usize) -> Result<(), Memory>
        requires len { IsLength name_len (octets (interest_name self.now)) }
        requires short { length (octets (interest_name self.now)) ≤ 8800 }
        ensures { Puts out.old out.new result (element (NAME, octets (zeroed_name self.now))) }
    {
        put_header(out, NAME, name_len)?;
        out.extend_from_slice(self.name.as_octets())?;
        if self.has_digest() {
            put_element(out, u32::from(PARAMETERS_SHA256_DIGEST), &[0; DIGEST_LEN])?;
        }
        Ok(())
    }

    /// Appends the fields between the name and the ApplicationParameters. If memory runs out, some
    /// octets may have been appended.
    #[inline(always)]
    fn put_early(&self, out: &mut Vec<u8>) -> Result<(), Memory>
        ensures { Puts out.old out.new result (octets (early_fields self.now)) }
    {
        put_flag(out, CAN_BE_PREFIX, self.can_be_prefix)?;
        put_flag(out, MUST_BE_FRESH, self.must_be_fresh)?;
        put_element(out, NONCE, &self.nonce)?;
        put_number_field(out, INTEREST_LIFETIME, self.lifetime)?;
        put_octet_field(out, HOP_LIMIT, self.hop_limit)?;
        Ok(())
    }

    /// Appends the fields of the Interest. If memory runs out, some octets may have been appended.
    #[inline(always)]
    fn put_fields(&self, out: &mut Vec<u8>, name_len: usize) -> Result<(), Memory>
        requires len { IsLength name_len (octets (interest_name self.now)) }
        requires short { length (octets (interest_name self.now)) ≤ 8800 }
        ensures { Puts out.old out.new result (octets (interest_fields self.now)) }
    {
        self.put_name(out, name_len)?;
        let digest_end = out.len();
        self.put_early(out)?;
        let start = out.len();
        self.put_later(out)?;
        if self.has_digest() {
            put_digest(out, digest_end, start);
        }
        Ok(())
    }

    /// Appends the Interest. If memory runs out, some octets may have been appended.
    #[inline(always)]
    fn put_parts(&self, out: &mut Vec<u8>, lengths: Lengths) -> Result<(), Memory>
        requires name { IsLength lengths.name (octets (interest_name self.now)) }
        requires value { IsLength lengths.value (octets (interest_fields self.now)) }
        requires short { length (interest_text self.now) ≤ 8800 }
        ensures ok { OnOk result (out.new.items ≡ out.old.items ++ interest_text self.now) }
        ensures begins { take (vec_len out.old) out.new.items ≡ out.old.items }
        ensures room { vec_len out.old + length (interest_text self.now) ≤ vec_capacity out.old
            → IsOk result }
        ensures capacity { vec_capacity out.old ≤ vec_capacity out.new }
    {
        out.reserve(element_len(INTEREST, lengths.value))?;
        put_header(out, INTEREST, lengths.value)?;
        self.put_fields(out, lengths.name)
    }
}

/// Overwrites the 32 octets before index `digest_end` with SHA-256 of the octets from index `start`
/// on.
fn put_digest(octets: &mut [u8], digest_end: usize, start: usize)
    requires after { 32 ≤ digest_end }
    requires before { digest_end ≤ start }
    requires inside { start ≤ length octets.old }
    ensures { octets.new
        ≡ take (digest_end - 32) octets.old
        ++ (sha256 (drop start octets.old) ++ drop digest_end octets.old) }
{
    let digest = Sha256::digest(&octets[start..]);
    overwrite(octets, digest_end - DIGEST_LEN, &digest);
}

/// Returns the number of a name's components, or `None` if a component is a digest of parameters.
#[inline(always)]
fn count_without_digest(name: Name<'_>) -> Option<usize>
    ensures exact { MatchOption result (is_nil (digests_in (components name.entry)) ≡ false)
        (λ count. (is_nil (digests_in (components name.entry)) ≡ true)
        × (count ≡ length (components name.entry))) }
    ensures small { IfSome result (λ count. count ≤ 64) }
{
    let mut count = 0;
    for component in name.iter() {
        if component.kind == PARAMETERS_SHA256_DIGEST {
            return None;
        }
        count += 1;
    }
    Some(count)
}

/// Returns the length of a flag in octets, or 0 if the flag is not set.
#[inline(always)]
fn flag_len(kind: u32, set: bool) -> usize
    ensures { IsLength result (octets (flag kind set)) }
{
    if set { element_len(kind, 0) } else { 0 }
}

/// Returns the length in octets of an optional field whose value is one octet, or 0 if `octet` is
/// `None`.
#[inline(always)]
fn octet_field_len(kind: u32, octet: Option<u8>) -> usize
    ensures len { IsLength result (octets (optional kind (option_map (λ n. n ∷ []) octet))) }
    ensures sound { IfSome octet (λ n. n < 256) }
{
    match octet {
        None => 0,
        Some(octet) => element_len(kind, octets_len(&[octet])),
    }
}

/// Appends an optional field whose value is one octet. If memory runs out, some octets may have
/// been appended.
#[inline(always)]
fn put_octet_field(out: &mut Vec<u8>, kind: u32, octet: Option<u8>) -> Result<(), Memory>
    requires { 1 ≤ kind }
    ensures { Puts out.old out.new result
        (octets (optional kind (option_map (λ n. n ∷ []) octet))) }
{
    match octet {
        None => Ok(()),
        Some(octet) => {
            put_header(out, kind, 1)?;
            out.push(octet)?;
            Ok(())
        }
    }
}
