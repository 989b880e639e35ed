//! Numbers that the standards assign: TLV-TYPEs, SignatureTypes and NackReasons.

ghost use Rattle.std.specs.Prelude.{◌≡◌};

/// The types of packets (NDN Packet Format 0.3, "TLV-TYPE Number Assignments").
pub const INTEREST: u32 = 5;

pub const DATA: u32 = 6;

/// The type of the Name of a packet or of a key.
pub const NAME: u32 = 7;

/// The types of the fields of an Interest after its Name, in order.
pub const CAN_BE_PREFIX: u32 = 33;

pub const MUST_BE_FRESH: u32 = 18;

pub const FORWARDING_HINT: u32 = 30;

pub const NONCE: u32 = 10;

pub const INTEREST_LIFETIME: u32 = 12;

pub const HOP_LIMIT: u32 = 34;

pub const APPLICATION_PARAMETERS: u32 = 36;

pub const INTEREST_SIGNATURE_INFO: u32 = 44;

pub const INTEREST_SIGNATURE_VALUE: u32 = 46;

/// The types of the fields of a Data after its Name, in order.
pub const META_INFO: u32 = 20;

pub const CONTENT: u32 = 21;

pub const SIGNATURE_INFO: u32 = 22;

pub const SIGNATURE_VALUE: u32 = 23;

/// The types of the fields of a MetaInfo, in order.
pub const CONTENT_TYPE: u32 = 24;

pub const FRESHNESS_PERIOD: u32 = 25;

pub const FINAL_BLOCK_ID: u32 = 26;

/// The types of the fields of a SignatureInfo, in order.
pub const SIGNATURE_TYPE: u32 = 27;

pub const KEY_LOCATOR: u32 = 28;

pub const SIGNATURE_NONCE: u32 = 38;

pub const SIGNATURE_TIME: u32 = 40;

pub const SIGNATURE_SEQ_NUM: u32 = 42;

/// The type of an element that is ignored in a SignatureInfo (NDN Certificate Format 2.0,
/// "ValidityPeriod").
pub const VALIDITY_PERIOD: u32 = 253;

/// The type of the element that a KeyLocator may have instead of a Name.
pub const KEY_DIGEST: u32 = 29;

/// The types of a link packet and of the fields that this crate knows (NDNLPv2, "Packet Format").
pub const LINK_PACKET: u32 = 100;

pub const FRAGMENT: u32 = 80;

pub const SEQUENCE: u32 = 81;

pub const FRAG_INDEX: u32 = 82;

pub const FRAG_COUNT: u32 = 83;

pub const PIT_TOKEN: u32 = 98;

pub const NACK: u32 = 800;

/// The type of the field of a Nack (NDNLPv2, "Network Nack").
pub const NACK_REASON: u32 = 801;

/// The SignatureType of DigestSha256 (NDN Packet Format 0.3, "DigestSha256").
pub const DIGEST_SHA256: u64 = 0;

/// The SignatureType of SignatureHmacWithSha256 (NDN Packet Format 0.3, "SignatureHmacWithSha256").
pub const HMAC_WITH_SHA256: u64 = 4;

/// The NackReasons (NDNLPv2, "Network Nack").
pub const CONGESTION: u64 = 50;

pub const DUPLICATE: u64 = 100;

pub const NO_ROUTE: u64 = 150;

/// Law: these constants are the numbers that the standards assign (NDN Packet Format 0.3, "TLV-TYPE
/// Number Assignments" and "Signature"; NDNLPv2, "Packet Format" and "Network Nack"; NDN
/// Certificate Format 2.0 for the ValidityPeriod).
pub fn packet_types_are_as_assigned()
    ensures packets { (INTEREST ≡ 5) × (DATA ≡ 6) × (NAME ≡ 7) }
    ensures interest { (CAN_BE_PREFIX ≡ 33) × (MUST_BE_FRESH ≡ 18) × (FORWARDING_HINT ≡ 30)
        × (NONCE ≡ 10) × (INTEREST_LIFETIME ≡ 12) × (HOP_LIMIT ≡ 34) }
    ensures parameters { (APPLICATION_PARAMETERS ≡ 36) × (INTEREST_SIGNATURE_INFO ≡ 44)
        × (INTEREST_SIGNATURE_VALUE ≡ 46) }
    ensures data_fields { (META_INFO ≡ 20) × (CONTENT ≡ 21) × (SIGNATURE_INFO ≡ 22)
        × (SIGNATURE_VALUE ≡ 23) }
    ensures meta_info { (CONTENT_TYPE ≡ 24) × (FRESHNESS_PERIOD ≡ 25) × (FINAL_BLOCK_ID ≡ 26) }
    ensures signature_info { (SIGNATURE_TYPE ≡ 27) × (KEY_LOCATOR ≡ 28) × (KEY_DIGEST ≡ 29)
        × (SIGNATURE_NONCE ≡ 38) × (SIGNATURE_TIME ≡ 40) × (SIGNATURE_SEQ_NUM ≡ 42)
        × (VALIDITY_PERIOD ≡ 253) }
    ensures signature_types { (DIGEST_SHA256 ≡ 0) × (HMAC_WITH_SHA256 ≡ 4) }
    ensures link { (LINK_PACKET ≡ 100) × (FRAGMENT ≡ 80) × (SEQUENCE ≡ 81) × (FRAG_INDEX ≡ 82)
        × (FRAG_COUNT ≡ 83) × (PIT_TOKEN ≡ 98) × (NACK ≡ 800) × (NACK_REASON ≡ 801) }
    ensures reasons { (CONGESTION ≡ 50) × (DUPLICATE ≡ 100) × (NO_ROUTE ≡ 150) }
{}
