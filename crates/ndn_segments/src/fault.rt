use ndn_tlv::Memory;
use thiserror::Error;

/// Why a Data is not taken: the first of these faults that applies.
#[derive(Clone, Copy, Debug, PartialEq, Eq, Error)]
pub enum SegmentFault {
    /// The name is not the name of the file, with its version, and one further component.
    #[error("the Data does not belong to this version of the file")]
    OtherFile,
    /// The last component of the name is not a SegmentNameComponent with a number in its shortest
    /// encoding.
    #[error("the name of the Data has no segment number")]
    NoSegmentNumber,
    /// The Data has no FinalBlockId that is a SegmentNameComponent with a number below 2^64 - 1 in
    /// its shortest encoding.
    #[error("the segment does not tell the number of the last segment")]
    NoFinalBlockId,
    /// The FinalBlockId differs from that of the segments before.
    #[error("the segment tells another last segment than the segments before it")]
    OtherFinalBlockId,
    /// The number of the segment is above the number in its FinalBlockId.
    #[error("the number of the segment is above that of the last segment")]
    AboveLast,
    /// The Content has more octets than a segment may have.
    #[error("the content of the segment is too long")]
    ContentTooLong,
    /// The segment is too far after the first segment that is missing.
    #[error("the segment is beyond the window")]
    BeyondWindow,
    /// A segment with this number and another content is held.
    #[error("the segment has another content than the same segment before")]
    OtherContent,
    /// Memory could not be allocated.
    #[error("out of memory")]
    Memory,
}

impl From<Memory> for SegmentFault {
    ghost use Rattle.std.specs.Prelude.{◌≡◌};
    ghost use Rattle.ndn_segments.specs.declared.fault.SegmentFault.TheVariants.{Memory};

    ghost from_gives = { λ _ fault. fault ≡ Memory };

    fn from(_memory: Memory) -> SegmentFault {
        SegmentFault::Memory
    }
}
