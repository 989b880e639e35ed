ghost use Rattle.std.specs.Prelude.{◌≡◌, Ok, Err};
ghost use Rattle.ndn_tlv.specs.Reading.{elements_of, on_result};
ghost use Rattle.ndn_packets.specs.Fields.{info_schema, is_ignored_in_signature_info};
ghost use Rattle.ndn_packets.specs.Packet.{plain_locator};
ghost use Rattle.ndn_packets.specs.Reading.{info_at, locator_at, no_info_yet, take_info_field, read_fields, fields_from};
ghost use Rattle.ndn_packets.specs.SoFar.{plain_info, info_so_far};

use crate::fault::PacketFault;
use crate::field_reader::{FieldReader, number};
use crate::schema::Rules;
use crate::types::{
    KEY_DIGEST, KEY_LOCATOR, NAME, SIGNATURE_NONCE, SIGNATURE_SEQ_NUM, SIGNATURE_TIME,
    SIGNATURE_TYPE,
};
use hmac_keys::hmac_sha256;
use ndn_names::Name;
use ndn_tlv::first_element;
use sha2::{Digest, Sha256};

/// The KeyLocator of a SignatureInfo, which identifies a key (NDN Packet Format 0.3, "KeyLocator").
#[derive(Clone, Copy, Debug, PartialEq, Eq)]
pub enum Locator<'a> {
    /// There is no KeyLocator.
    Missing,
    /// The value is exactly one Name. This Name is the name of the key, and may be empty.
    Name(Name<'a>),
    /// The value is exactly one KeyDigest, of any length.
    Digest,
    /// The value is neither exactly one Name nor exactly one KeyDigest, for example a malformed
    /// Name.
    Other,
}

/// The signature of a packet (NDN Packet Format 0.3, "Signature").
#[derive(Clone, Copy, Debug, PartialEq, Eq)]
pub struct Signature<'a> {
    /// The SignatureType, any number below 2^64. Unknown types are not refused.
    pub kind: u64,
    /// The KeyLocator.
    pub locator: Locator<'a>,
    /// The SignatureTime, in milliseconds since 1970.
    pub time: Option<u64>,
    /// The SignatureSeqNum.
    pub seq: Option<u64>,
    /// The value of the SignatureValue or of the InterestSignatureValue, of any length, possibly
    /// empty.
    pub value: &'a [u8],
}

/// How a written packet is signed.
#[derive(Clone, Copy, Debug)]
pub enum Sign<'a> {
    /// DigestSha256: the value of the signature is SHA-256 of the covered octets (NDN Packet Format
    /// 0.3, "DigestSha256").
    Digest,
    /// HmacWithSha256: the value of the signature is the HMAC-SHA-256 of the covered octets, under
    /// a key of any length. The KeyLocator is the key's name (NDN Packet Format 0.3,
    /// "SignatureHmacWithSha256").
    Hmac {
        /// The key's name.
        name: Name<'a>,
        /// The key's octets.
        key: &'a [u8],
    },
}

impl Sign<'_> {
    ghost use Rattle.std.specs.Prelude.{◌≡◌, ◌++◌};
    ghost use Rattle.ndn_packets.specs.Writing.{value_of};

    /// Returns the SignatureValue of a signature over the octets `first` followed by the octets
    /// `second`.
    pub(crate) fn value(self, first: &[u8], second: &[u8]) -> [u8; 32]
        ensures { result ≡ value_of self.entry (first.now ++ second.now) }
    {
        match self {
            Sign::Digest => {
                let mut hasher = Sha256::new();
                hasher.update(first);
                hasher.update(second);
                hasher.finalize()
            }
            Sign::Hmac { key, .. } => hmac_sha256(key, first, second),
        }
    }
}

/// The fields of a SignatureInfo or of an InterestSignatureInfo, except the SignatureNonce.
#[derive(Clone, Copy)]
pub struct SignatureInfo<'a> {
    pub kind: u64,
    pub locator: Locator<'a>,
    pub time: Option<u64>,
    pub seq: Option<u64>,
}

impl<'a> SignatureInfo<'a> {
    ghost use Rattle.std.specs.Prelude.{◌≡◌};
    ghost use Rattle.ndn_packets.specs.Packet.{plain_signature, signed_with};
    ghost use Rattle.ndn_packets.specs.SoFar.{plain_info};

    /// Returns the signature with this SignatureInfo and with the SignatureValue `value`.
    #[inline(always)]
    pub fn with_value(self, value: &'a [u8]) -> Signature<'a>
        ensures { plain_signature result ≡ signed_with (plain_info self.entry) value.entry.now }
    {
        Signature {
            kind: self.kind,
            locator: self.locator,
            time: self.time,
            seq: self.seq,
            value,
        }
    }
}

/// The fields of a SignatureInfo that have been read so far.
#[derive(Clone, Copy)]
struct InfoFields<'a> {
    kind: Option<u64>,
    locator: Locator<'a>,
    time: Option<u64>,
    seq: Option<u64>,
}

const FIELDS: [u32; 5] = [
    SIGNATURE_TYPE,
    KEY_LOCATOR,
    SIGNATURE_NONCE,
    SIGNATURE_TIME,
    SIGNATURE_SEQ_NUM,
];

#[tactic(auto, unfolding(crate::specs::Reading::locator_at))]
/// Reads the value of a KeyLocator.
fn locator_of(value: &[u8]) -> Locator<'_>
    ensures { plain_locator result ≡ locator_at value.now }
{
    let Ok((element, rest)) = first_element(value) else {
        return Locator::Other;
    };
    if !rest.is_empty() {
        return Locator::Other;
    }
    match element.kind {
        NAME => match Name::read(element.value) {
            Ok(name) => Locator::Name(name),
            Err(_) => Locator::Other,
        },
        KEY_DIGEST => Locator::Digest,
        _ => Locator::Other,
    }
}

#[tactic(auto, unfolding(crate::specs::Reading::info_at))]
/// Reads the value of a SignatureInfo.
pub(crate) fn signature_info(value: &[u8]) -> Result<SignatureInfo<'_>, PacketFault>
    ensures { on_result (λ s. Ok (plain_info s)) Err result ≡ info_at value.now }
{
    let found = fields_of(value)?;
    let Some(kind) = found.kind else {
        return Err(PacketFault::BadField);
    };
    Ok(SignatureInfo {
        kind,
        locator: found.locator,
        time: found.time,
        seq: found.seq,
    })
}

/// Reads the fields of a SignatureInfo.
fn fields_of(value: &[u8]) -> Result<InfoFields<'_>, PacketFault>
    ensures { on_result (λ f. Ok (info_so_far f)) Err result
        ≡ read_fields take_info_field no_info_yet
        (fields_from is_ignored_in_signature_info info_schema (elements_of value.now)) }
{
    let mut fields = FieldReader::new(Rules::SignatureInfo, value, &FIELDS);
    let mut found = InfoFields {
        kind: None,
        locator: Locator::Missing,
        time: None,
        seq: None,
    };
    while let Some(field) = fields.next()? {
        match field.kind {
            SIGNATURE_TYPE => found.kind = Some(number(field.value)?),
            KEY_LOCATOR => found.locator = locator_of(field.value),
            SIGNATURE_TIME => found.time = Some(number(field.value)?),
            SIGNATURE_SEQ_NUM => found.seq = Some(number(field.value)?),
            _ => {}
        }
    }
    Ok(found)
}
