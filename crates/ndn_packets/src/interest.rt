ghost use Rattle.std.specs.Prelude.{◌≡◌, ◌≤◌, Ok, Err, IfOk, OnSome, option_map, true, length, ◌==◌, if◌then◌else◌};
ghost use Rattle.ndn_packets.specs.Fields.{interest_schema, is_even_high};
ghost use Rattle.ndn_packets.specs.declared.fault.PacketFault.TheVariants.{BadField};
ghost use Rattle.ndn_tlv.specs.Reading.{elements_of, on_result};
ghost use Rattle.ndn_names.specs.View.{components};
ghost use Rattle.sha2.specs.Sha256.{sha256};
ghost use Rattle.ndn_packets.specs.Packet.{plain_signature};
ghost use Rattle.ndn_packets.specs.Grammar.{IsInterest};
ghost use Rattle.ndn_packets.specs.Covered.{HoldsSecond, IsSignedAt, second_part};
ghost use Rattle.ndn_packets.specs.Reading.{read_fields, take_interest_field, no_fields_yet, fields_from, octet_at, is_nil, parameters_on, octets_of_read, fault_by, signature_of};
ghost use Rattle.ndn_packets.specs.SoFar.{plain_info, interest_so_far};

use crate::covered::octets_before;
use crate::fault::PacketFault;
use crate::field_reader::{FieldReader, digested_name, number};
use crate::frame::is_too_long;
use crate::key::Key;
use crate::schema::Rules;
use crate::signature::{Signature, SignatureInfo, signature_info};
use crate::types::{
    APPLICATION_PARAMETERS, CAN_BE_PREFIX, FORWARDING_HINT, HOP_LIMIT, INTEREST_LIFETIME,
    INTEREST_SIGNATURE_INFO, INTEREST_SIGNATURE_VALUE, MUST_BE_FRESH, NONCE,
};
use ndn_names::component_type::PARAMETERS_SHA256_DIGEST;
use ndn_names::{FirstOfType, Name};
use ndn_tlv::Element;
use sha2::{Digest, Sha256};

/// An Interest, which borrows the octets that it was read from (NDN Packet Format 0.3, "Interest
/// Packet").
#[derive(Clone, Copy, Debug, PartialEq, Eq)]
pub struct Interest<'a> {
    /// The name, which is not empty.
    pub name: Name<'a>,
    /// Whether the packet has CanBePrefix.
    pub can_be_prefix: bool,
    /// Whether the packet has MustBeFresh.
    pub must_be_fresh: bool,
    /// The value of the Nonce: its 4 octets, in the order of the packet.
    pub nonce: [u8; 4],
    /// The InterestLifetime in milliseconds, 4000 if absent.
    pub lifetime: u64,
    /// The HopLimit, in hops.
    pub hop_limit: Option<u8>,
    /// The value of the ApplicationParameters. If there are ApplicationParameters, the name has a
    /// digest of them.
    pub parameters: Option<&'a [u8]>,
    /// The signature, if the Interest is signed. The signature is not verified.
    pub signature: Option<Signature<'a>>,
    /// The received octets of the whole packet, including the type and length of the packet. There
    /// are at most 8,800 of these octets.
    pub whole: &'a [u8],
    /// The second part of the octets that the signature covers. This part begins with the
    /// ApplicationParameters. `None` means that the Interest is not signed, or that the digest of
    /// parameters is not the last component of the name.
    pub(crate) covered: Option<&'a [u8]>,
    ghost covers: { ∥ HoldsSecond (components name) whole.now
        (option_map (λ c. c.now) covered) ∥₁ },
    ghost spelled: { ∥ IsInterest whole.now (record {
      name = components name;
      can_be_prefix = can_be_prefix;
      must_be_fresh = must_be_fresh;
      nonce = nonce;
      lifetime = lifetime;
      hop_limit = hop_limit;
      parameters = option_map (λ p. p.now) parameters;
      signature = option_map plain_signature signature;
    }) ∥₁ },
}

const FIELDS: [u32; 9] = [
    CAN_BE_PREFIX,
    MUST_BE_FRESH,
    FORWARDING_HINT,
    NONCE,
    INTEREST_LIFETIME,
    HOP_LIMIT,
    APPLICATION_PARAMETERS,
    INTEREST_SIGNATURE_INFO,
    INTEREST_SIGNATURE_VALUE,
];

/// The lifetime of an Interest without InterestLifetime, in milliseconds.
const DEFAULT_LIFETIME: u64 = 4000;

/// The fields of an Interest that have been read so far.
#[derive(Clone, Copy)]
struct InterestFields<'a> {
    can_be_prefix: bool,
    must_be_fresh: bool,
    nonce: Option<[u8; 4]>,
    lifetime: u64,
    hop_limit: Option<u8>,
    parameters: Option<&'a [u8]>,
    /// The octets from the ApplicationParameters on, once the ApplicationParameters have been read.
    from_parameters: &'a [u8],
    info: Option<SignatureInfo<'a>>,
    value: Option<&'a [u8]>,
    /// The octets from the InterestSignatureValue on, once this value has been read.
    from_value: &'a [u8],
}

impl<'a> Interest<'a> {
    ghost use Rattle.std.specs.Prelude.{◌≡◌, IfOk, Ok, Err};
    ghost use Rattle.ndn_packets.specs.Key.{plain_key, key_of};
    ghost use Rattle.ndn_tlv.specs.Reading.{on_result};
    ghost use Rattle.ndn_packets.specs.View.{plain_interest};
    ghost use Rattle.ndn_packets.specs.FrameReading.{interest_of};
    ghost use Rattle.ndn_packets.specs.declared.types.TheConstants.{INTEREST};

    /// Returns the key of the Interest: its name, CanBePrefix and MustBeFresh.
    pub fn key(&self) -> Key<'a>
        ensures { plain_key result ≡ key_of (plain_interest self.now) }
    {
        Key {
            name: self.name,
            can_be_prefix: self.can_be_prefix,
            must_be_fresh: self.must_be_fresh,
        }
    }

    #[tactic(auto, using(crate::proofs::Rules::nil_tests), unfolding(crate::specs::Reading::interest_at))]
    /// Reads the Interest in the element `outer`.
    #[inline(always)]
    pub(crate) fn read(outer: Element<'a>) -> Result<Interest<'a>, PacketFault>
        requires { outer.kind ≡ INTEREST }
        ensures exact { on_result (λ i. Ok (plain_interest i)) Err result
            ≡ interest_of outer.entry.whole.now outer.entry.value.now }
        ensures whole { IfOk result (λ i. i.whole.now ≡ outer.entry.whole.now) }
    {
        if is_too_long(outer.whole) {
            return Err(PacketFault::TooLong);
        }
        let (name, digest, rest) = digested_name(outer.value)?;
        if name.is_empty() {
            return Err(PacketFault::NoName);
        }
        let found = fields_of(rest)?;
        let Some(nonce) = found.nonce else {
            return Err(PacketFault::NoNonce);
        };
        if let Some(fault) = digest_fault(digest, found.parameters, found.from_parameters) {
            return Err(fault);
        }
        let signature = signature_of(found.info, found.value);
        Ok(Interest {
            name,
            can_be_prefix: found.can_be_prefix,
            must_be_fresh: found.must_be_fresh,
            nonce,
            lifetime: found.lifetime,
            hop_limit: found.hop_limit,
            parameters: found.parameters,
            signature,
            whole: outer.whole,
            covered: second_part(signature, digest, found.from_parameters, found.from_value),
        })
    }
}

/// Returns the fault of the digests of parameters in a name, or `None` if there is no such fault.
/// `digest` is the first digest of parameters in the name. `from_parameters` are the octets from
/// the ApplicationParameters on.
#[inline(always)]
fn digest_fault(
    digest: Option<FirstOfType<'_>>,
    parameters: Option<&[u8]>,
    from_parameters: &[u8],
) -> Option<PacketFault>
    ensures { result
        ≡ fault_by (option_map (λ p. p.now) parameters.entry) digest.entry
        (sha256 from_parameters.now) }
{
    match (parameters, digest) {
        (None, None) => None,
        (None, Some(_)) => Some(PacketFault::DigestWithout),
        (Some(_), None) => Some(PacketFault::DigestMissing),
        (Some(_), Some(digest)) => {
            if !digest.is_only {
                return Some(PacketFault::DigestWrong);
            }
            let right = Sha256::digest(from_parameters);
            (digest.value != right.as_slice()).then_some(PacketFault::DigestWrong)
        }
    }
}

/// Returns the covered octets from the ApplicationParameters up to, but not including, the
/// InterestSignatureValue. Returns `None` if there is no signature, if the name has no digest of
/// parameters, or if the first digest of parameters is not the name's last component.
#[inline(always)]
fn second_part<'a>(
    signature: Option<Signature<'_>>,
    digest: Option<FirstOfType<'_>>,
    from_parameters: &'a [u8],
    from_value: &'a [u8],
) -> Option<&'a [u8]>
    requires { OnSome signature (length from_value.now ≤ length from_parameters.now) }
    ensures { option_map (λ c. c.now) result
        ≡ second_part (option_map plain_signature signature.entry) digest.entry
        from_parameters.entry.now from_value.entry.now }
{
    let (Some(_), Some(digest)) = (signature, digest) else {
        return None;
    };
    if digest.is_last {
        Some(octets_before(from_parameters, from_value))
    } else {
        None
    }
}

/// Returns the signature, or `None` if the Interest does not have both an InterestSignatureInfo and
/// an InterestSignatureValue.
#[inline(always)]
fn signature_of<'a>(
    info: Option<SignatureInfo<'a>>,
    value: Option<&'a [u8]>,
) -> Option<Signature<'a>>
    ensures { option_map plain_signature result
        ≡ signature_of (option_map plain_info info.entry) (option_map (λ v. v.now) value.entry) }
{
    let (Some(info), Some(value)) = (info, value) else {
        return None;
    };
    Some(info.with_value(value))
}

#[tactic(auto, using(crate::proofs::Marks::interest_first, crate::proofs::Marks::interest_still, crate::proofs::Marks::interest_parameters, crate::proofs::Marks::interest_info, crate::proofs::Marks::interest_value))]
/// Reads the fields of an Interest from `rest`, the octets after the Name.
#[inline(always)]
fn fields_of(rest: &[u8]) -> Result<InterestFields<'_>, PacketFault>
    ensures walk { on_result (λ f. Ok (interest_so_far f)) Err result
        ≡ read_fields take_interest_field no_fields_yet
        (fields_from is_even_high interest_schema (elements_of rest.now)) }
    ensures parameters { IfOk result
        (λ f. OnSome f.parameters
        (f.from_parameters.now ≡ octets_of_read (parameters_on (elements_of rest.now)))) }
    ensures value { IfOk result
        (λ f. OnSome f.value (IsSignedAt rest.now f.from_parameters.now f.from_value.now)) }
{
    let mut fields = FieldReader::new(Rules::Packet, rest, &FIELDS);
    let mut found = InterestFields {
        can_be_prefix: false,
        must_be_fresh: false,
        nonce: None,
        lifetime: DEFAULT_LIFETIME,
        hop_limit: None,
        parameters: None,
        from_parameters: rest,
        info: None,
        value: None,
        from_value: rest,
    };
    while let Some(field) = fields.next()? {
        match field.kind {
            CAN_BE_PREFIX => found.can_be_prefix = is_set(field.value)?,
            MUST_BE_FRESH => found.must_be_fresh = is_set(field.value)?,
            NONCE => found.nonce = Some(nonce_of(field.value)?),
            INTEREST_LIFETIME => found.lifetime = number(field.value)?,
            HOP_LIMIT => found.hop_limit = Some(octet(field.value)?),
            APPLICATION_PARAMETERS => {
                found.parameters = Some(field.value);
                found.from_parameters = fields.here;
            }
            INTEREST_SIGNATURE_INFO => found.info = Some(signature_info(field.value)?),
            INTEREST_SIGNATURE_VALUE => {
                found.value = Some(field.value);
                found.from_value = fields.here;
            }
            _ => {}
        }
    }
    Ok(found)
}

/// Reads the value of a flag. Returns true if the value is empty, and otherwise `BadField`.
#[inline(always)]
fn is_set(value: &[u8]) -> Result<bool, PacketFault>
    ensures { result ≡ (if is_nil value.now then Ok true else Err BadField) }
{
    if value.is_empty() {
        Ok(true)
    } else {
        Err(PacketFault::BadField)
    }
}

/// Reads the value of a Nonce. The value must have 4 octets.
#[inline(always)]
fn nonce_of(value: &[u8]) -> Result<[u8; 4], PacketFault>
    ensures { result ≡ (if length value.now == 4 then Ok value.now else Err BadField) }
{
    match value {
        [a, b, c, d] => Ok([*a, *b, *c, *d]),
        _ => Err(PacketFault::BadField),
    }
}

/// Reads a value of one octet.
#[inline(always)]
fn octet(value: &[u8]) -> Result<u8, PacketFault>
    ensures { result ≡ octet_at value.now }
{
    match value {
        [octet] => Ok(*octet),
        _ => Err(PacketFault::BadField),
    }
}
