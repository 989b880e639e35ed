//! Segments as they are received: the number, the number of the last segment, and the content.

ghost use Rattle.std.specs.Prelude.{◌≡◌, ◌≢◌, ◌<◌, ◌^◌, ◌-◌, ℕ, MatchResult, MatchOption, Some, option_map};
ghost use Rattle.ndn_tlv.specs.Number.{shortest_nni};
ghost use Rattle.ndn_names.specs.View.{components};
ghost use Rattle.ndn_segments.specs.Names.{segment_name, final_value};
ghost use Rattle.ndn_segments.specs.Segment.{IsNoName};

use crate::fault::SegmentFault;
use ndn_names::Name;
use ndn_names::component_type::SEGMENT;
use ndn_packets::Data;
use ndn_packets::types::{DATA, FINAL_BLOCK_ID, META_INFO};
use ndn_tlv::{first_field, nni_len, nni_of, single_element};

/// A segment of a file, which borrows its content.
#[derive(Clone, Copy, Debug)]
pub struct Segment<'a> {
    /// The number of the segment. The first segment has number 0.
    pub number: u64,
    /// The number of the last segment, from the FinalBlockId.
    pub last: u64,
    /// The octets of the file in this segment.
    pub content: &'a [u8],
}

impl<'a> Segment<'a> {
    ghost use Rattle.std.specs.Prelude.{MatchResult};
    ghost use Rattle.ndn_names.specs.View.{components};
    ghost use Rattle.ndn_packets.specs.View.{plain_data};
    ghost use Rattle.ndn_segments.specs.Segment.{IsSegmentOf, IsNoSegment, plain_segment};

    /// Reads a Data as a segment of the file with the name `stem`, which includes the version (NDN
    /// Naming Conventions, revision 3, "Segmentation"; NDN Packet Format 0.3, "MetaInfo"). A Data
    /// without a Content is a segment with an empty content.
    ///
    /// Returns `OtherFile`, `NoSegmentNumber` or `NoFinalBlockId`, the first that applies, if the
    /// Data is no segment of this file. The signature is not verified.
    pub fn read(stem: Name<'_>, packet: &Data<'a>) -> Result<Segment<'a>, SegmentFault>
        ensures { MatchResult result
            (λ s. IsSegmentOf (components stem.entry) packet.now.whole.now (plain_data packet.now)
            (plain_segment s))
            (IsNoSegment (components stem.entry) packet.now.whole.now (plain_data packet.now)) }
    {
        let number = number_after(stem, packet.name)?;
        let Some(last) = last_number(packet.whole) else {
            return Err(SegmentFault::NoFinalBlockId);
        };
        Ok(Segment {
            number,
            last,
            content: packet.content.unwrap_or(&[]),
        })
    }
}

/// Returns the number in the SegmentNameComponent that follows `stem` in `name`.
fn number_after(stem: Name<'_>, name: Name<'_>) -> Result<u64, SegmentFault>
    ensures { MatchResult result
        (λ n. (n < 2 ^ 64) × (components name.entry ≡ segment_name (components stem.entry) n))
        (IsNoName (components stem.entry) (components name.entry)) }
{
    let len = stem.len();
    if name.len() != len + 1 || !stem.is_prefix_of(name) {
        return Err(SegmentFault::OtherFile);
    }
    let Some(component) = name.component(len) else {
        return Err(SegmentFault::OtherFile);
    };
    if component.kind != SEGMENT {
        return Err(SegmentFault::NoSegmentNumber);
    }
    match number_in(component.value) {
        Some(number) => Ok(number),
        None => Err(SegmentFault::NoSegmentNumber),
    }
}

/// Returns the number in the FinalBlockId of the Data with the octets `whole`, or `None` if there
/// is no such number below 2^64 - 1.
fn last_number(whole: &[u8]) -> Option<u64>
    ensures { MatchOption result
        ((n : ℕ) → n < 2 ^ 64 - 1 → final_value whole.now ≢ Some (shortest_nni n))
        (λ n. (n < 2 ^ 64 - 1) × (final_value whole.now ≡ Some (shortest_nni n))) }
{
    let last = number_in(final_octets(whole)?)?;
    if last == u64::MAX {
        return None;
    }
    Some(last)
}

/// Returns the value of the SegmentNameComponent in the FinalBlockId of the Data with the octets
/// `whole`.
fn final_octets(whole: &[u8]) -> Option<&[u8]>
    ensures { option_map (λ v. v.now) result ≡ final_value whole.now }
{
    let fields = single_element(whole, DATA)?;
    let meta = first_field(fields, META_INFO)?;
    let last = first_field(meta, FINAL_BLOCK_ID)?;
    single_element(last, u32::from(SEGMENT))
}

/// Returns the number whose shortest encoding is `value`.
fn number_in(value: &[u8]) -> Option<u64>
    ensures { MatchOption result
        ((n : ℕ) → n < 2 ^ 64 → value.now ≢ shortest_nni n)
        (λ n. (n < 2 ^ 64) × (value.now ≡ shortest_nni n)) }
{
    let Ok(number) = nni_of(value) else {
        return None;
    };
    if nni_len(number) == value.len() {
        Some(number)
    } else {
        None
    }
}
