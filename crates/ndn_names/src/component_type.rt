//! Types of name components (NDN Packet Format 0.3, "Name"; NDN Naming Conventions, revision 3).

ghost use Rattle.std.specs.Prelude.{◌≡◌};

/// ImplicitSha256DigestComponent: SHA-256 of a Data packet, 32 octets.
pub const IMPLICIT_SHA256_DIGEST: u16 = 1;

/// ParametersSha256DigestComponent: SHA-256 of an Interest's ApplicationParameters and all elements
/// after them, 32 octets. A component of type 1 or 2 is a digest.
pub const PARAMETERS_SHA256_DIGEST: u16 = 2;

/// GenericNameComponent: any octets.
pub const GENERIC: u16 = 8;

/// KeywordNameComponent: a word with a special meaning.
pub const KEYWORD: u16 = 32;

/// SegmentNameComponent: a segment number.
pub const SEGMENT: u16 = 50;

/// ByteOffsetNameComponent: the offset at which a segment begins, in octets.
pub const BYTE_OFFSET: u16 = 52;

/// VersionNameComponent: a version number.
pub const VERSION: u16 = 54;

/// TimestampNameComponent: microseconds since 1 January 1970, 00:00 UTC.
pub const TIMESTAMP: u16 = 56;

/// SequenceNumNameComponent: the sequence number of an item in a collection.
pub const SEQUENCE_NUM: u16 = 58;

/// Law: these constants are the numbers that the standards assign (NDN Packet Format 0.3, "Name",
/// for the first three; NDN Naming Conventions, revision 3, for the others).
pub fn component_types_are_as_assigned()
    ensures digests { (IMPLICIT_SHA256_DIGEST ≡ 1) × (PARAMETERS_SHA256_DIGEST ≡ 2) }
    ensures generic { GENERIC ≡ 8 }
    ensures keyword { KEYWORD ≡ 32 }
    ensures segment { (SEGMENT ≡ 50) × (BYTE_OFFSET ≡ 52) }
    ensures version { (VERSION ≡ 54) × (TIMESTAMP ≡ 56) × (SEQUENCE_NUM ≡ 58) }
{}
