use ndn_tlv::{Memory, TlvFault};
use thiserror::Error;

/// Why octets are not a frame that this crate accepts: the first fault from the left (NDN Packet
/// Format 0.3, "Interest Packet" and "Data Packet"; NDNLPv2, "Packet Format").
///
/// If several faults apply, the first in the following order is reported: `TooLong` for more than
/// 9,000 octets, a fault of the outer element, octets after the outer element, a wrong type of the
/// outer element, `TooLong` for more than 8,800 octets, a fault of the Name, the faults of the
/// later elements in order, a missing field, and last a fault of the digest of an Interest's
/// parameters. If several faults of one element apply, `Tlv` is reported before `CriticalUnknown`,
/// and `CriticalUnknown` before a fault in the element's value. `Tlv` never contains `BadInteger`.
/// In the value of a MetaInfo, a SignatureInfo or an InterestSignatureInfo, the first fault among
/// the elements of this value is reported. A missing SignatureType is reported after all other
/// faults of the same value. If several faults of one header field of a link packet apply, `Tlv` is
/// reported before `LpField`, and `LpField` before a fault in the field's value. In the value of a
/// Nack, the first fault among the elements of this value is reported. The packet in the value of a
/// Fragment has the same order of faults as any packet, from a fault of the outer element on.
#[derive(Clone, Copy, Debug, PartialEq, Eq, Error)]
pub enum PacketFault {
    /// An element cannot be read, whether or not this crate knows its type.
    #[error("{0}")]
    Tlv(TlvFault),
    /// A packet does not begin with a Name, or the Name of an Interest is empty.
    #[error("the packet does not begin with a name, or an Interest's name is empty")]
    NoName,
    /// An element with an odd type, or a type below 32, is unknown or out of order. Elements of the
    /// types 128 to 252 in a MetaInfo, and of type 253 in a SignatureInfo or an
    /// InterestSignatureInfo, are ignored and are no fault.
    #[error("an element is unknown or out of order, and may not be ignored")]
    CriticalUnknown,
    /// A required field other than the Name and the Nonce is missing, or the value of a field is
    /// malformed (the values of ForwardingHint, FinalBlockId, KeyLocator and SignatureNonce are not
    /// checked). `BadField` is also the fault of an outer element with a type other than 5, 6 or
    /// 100, and of octets after the outer element. A Nack without a Fragment has the fault
    /// `BadField`. A Fragment has the fault `BadField` if octets follow its first element, or if
    /// this element is neither an Interest nor a Data. With a Nack, a Fragment that contains a Data
    /// also has the fault `BadField`.
    #[error("a field is missing, or its value is malformed")]
    BadField,
    /// An Interest has no Nonce.
    #[error("the Interest has no Nonce")]
    NoNonce,
    /// An Interest has ApplicationParameters, but its name has no digest of them.
    #[error("the name has no digest of the ApplicationParameters")]
    DigestMissing,
    /// An Interest has ApplicationParameters, but its name has more than one digest of them, or the
    /// digest is not SHA-256 of the octets from the ApplicationParameters on.
    #[error("the digest in the name is not that of the ApplicationParameters")]
    DigestWrong,
    /// An Interest has no ApplicationParameters, but its name has a digest of parameters.
    #[error("the name has a digest of ApplicationParameters, but the Interest has none")]
    DigestWithout,
    /// A link packet is one of several fragments: its FragIndex is above 0, or its FragCount above
    /// 1.
    #[error("the packet is one of several fragments")]
    Fragmented,
    /// A header field that this crate knows comes twice in a link packet, or an element follows
    /// the Fragment, or a PitToken does not have 1 to 32 octets. `LpField` is also the fault of an
    /// unknown header field whose type is outside 800 to 959, or is not divisible by 4.
    #[error("the link packet has a header field that it may not have")]
    LpField,
    /// The frame has more than 9,000 octets, or a packet has more than 8,800 octets.
    #[error("the packet is longer than 8800 octets, or the link packet is longer than 9000")]
    TooLong,
}

impl PacketFault {
    ghost use Rattle.std.specs.Prelude.{◌≡◌};
    ghost use Rattle.ndn_packets.specs.FaultName.{packet_name};

    /// Returns the name of the fault, as the node and the client print it. For a fault `Tlv`, the
    /// result is `Tlv`, a space and the name of the contained `TlvFault`.
    pub fn name(self) -> &'static str
        ensures { result.now ≡ packet_name self }
    {
        match self {
            PacketFault::Tlv(TlvFault::Truncated) => "Tlv Truncated",
            PacketFault::Tlv(TlvFault::NotShortest) => "Tlv NotShortest",
            PacketFault::Tlv(TlvFault::TypeZero) => "Tlv TypeZero",
            PacketFault::Tlv(TlvFault::TypeTooLarge) => "Tlv TypeTooLarge",
            PacketFault::Tlv(TlvFault::BadInteger) => "Tlv BadInteger",
            PacketFault::NoName => "NoName",
            PacketFault::CriticalUnknown => "CriticalUnknown",
            PacketFault::BadField => "BadField",
            PacketFault::NoNonce => "NoNonce",
            PacketFault::DigestMissing => "DigestMissing",
            PacketFault::DigestWrong => "DigestWrong",
            PacketFault::DigestWithout => "DigestWithout",
            PacketFault::Fragmented => "Fragmented",
            PacketFault::LpField => "LpField",
            PacketFault::TooLong => "TooLong",
        }
    }
}

/// Why a packet is not written: the first of these faults that applies.
#[derive(Clone, Copy, Debug, PartialEq, Eq, Error)]
pub enum WriteFault {
    /// The name of an Interest is empty, or has a digest of parameters, which only the writer may
    /// add.
    #[error("the Interest's name is empty, or has a digest of ApplicationParameters")]
    BadName,
    /// The written name of an Interest would have more than 64 components, or the written packet
    /// would have more than 8,800 octets.
    #[error("the name has more than 64 components, or the packet has more than 8800 octets")]
    TooLong,
    /// Memory could not be allocated.
    #[error("out of memory")]
    Memory,
}

impl WriteFault {
    ghost use Rattle.std.specs.Prelude.{◌≡◌};
    ghost use Rattle.ndn_packets.specs.FaultName.{write_name};

    /// Returns the name of the fault, for example `BadName`.
    pub fn name(self) -> &'static str
        ensures { result.now ≡ write_name self }
    {
        match self {
            WriteFault::BadName => "BadName",
            WriteFault::TooLong => "TooLong",
            WriteFault::Memory => "Memory",
        }
    }
}

impl From<Memory> for WriteFault {
    ghost use Rattle.std.specs.Prelude.{◌≡◌};
    ghost use Rattle.ndn_packets.specs.declared.fault.WriteFault.TheVariants.{Memory};

    ghost from_gives = { λ _ fault. fault ≡ Memory };

    fn from(_memory: Memory) -> WriteFault {
        WriteFault::Memory
    }
}
