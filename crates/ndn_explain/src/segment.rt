//! The segment number of a Data, and the number of the last segment, as a line of text.

ghost use Rattle.std.specs.Prelude.{◌≡◌, ◌++◌, OnOk, Some};
ghost use Rattle.ndn_names.specs.View.{components};
ghost use Rattle.ndn_explain.specs.Segment.{number_in, segment_of, last_segment, segment_line, segment_lines};

use ndn_names::Name;
use ndn_names::component_type::SEGMENT;
use ndn_packets::types::{DATA, FINAL_BLOCK_ID, META_INFO};
use ndn_tlv::{Memory, first_field, nni_of, single_element};
use std::io::Write;

/// Appends the segment line of a Data with this name and these received octets, if the Data is a
/// segment and gives the number of the last segment. Otherwise appends nothing.
pub fn put_segment(text: &mut Vec<u8>, name: Name<'_>, whole: &[u8]) -> Result<(), Memory>
    ensures { OnOk result (text.new.items ≡ text.old.items
        ++ segment_lines (components name.entry) whole.now) }
{
    match (segment_of(name), last_segment(whole)) {
        (Some(segment), Some(last)) => put_numbers(text, segment, last),
        _ => Ok(()),
    }
}

fn put_numbers(text: &mut Vec<u8>, segment: u64, last: u64) -> Result<(), Memory>
    ensures { OnOk result (text.new.items ≡ text.old.items
        ++ segment_line (Some segment) (Some last)) }
{
    writeln!(text, "segment {segment} last {last}").map_err(|_| Memory)
}

/// Returns the number in the last component of the name. Returns `None` if this component is not a
/// segment component with a number.
pub fn segment_of(name: Name<'_>) -> Option<u64>
    ensures { result ≡ segment_of (components name.entry) }
{
    let last = name.component(name.len().saturating_sub(1))?;
    if last.kind != SEGMENT {
        return None;
    }
    number_in(last.value)
}

/// Returns the number of the last segment, from the component in the FinalBlockId of the MetaInfo.
/// Returns `None` if the octets are not a Data with such a number.
pub fn last_segment(whole: &[u8]) -> Option<u64>
    ensures { result ≡ last_segment whole.now }
{
    let fields = single_element(whole, DATA)?;
    let meta = first_field(fields, META_INFO)?;
    let last = first_field(meta, FINAL_BLOCK_ID)?;
    number_in(single_element(last, u32::from(SEGMENT))?)
}

fn number_in(value: &[u8]) -> Option<u64>
    ensures { result ≡ number_in value.now }
{
    nni_of(value).ok()
}
