//! Replies of any length, as nodes write them.

ghost use Rattle.std.specs.Prelude.{◌≡◌, ◌++◌, OnOk, IfOk, None, option_map};
ghost use Rattle.ndn_names.specs.View.{components};
ghost use Rattle.ndn_packets.specs.Packet.{AData};
ghost use Rattle.ndn_explain.specs.Explain.{explanation};
ghost use Rattle.ndn_explain.specs.Reply.{data_field, written_content, written_data};

use crate::explain::put_content;
use crate::segment::put_segment;
use crate::show::put_data;
use ndn_names::Name;
use ndn_packets::types::{CONTENT, DATA, SIGNATURE_VALUE};
use ndn_packets::{DIGEST_SHA256, Locator, Signature, put_reply};
use ndn_tlv::{Memory, first_field, single_element};
use std::alloc::Global;

/// Returns the Content in the octets, if the octets are exactly a reply that a node writes to the
/// command with this name. The reply is a Data that has no MetaInfo and is signed with
/// DigestSha256. The Data may have any length. Returns `None` for any other octets.
pub fn written_content<'a>(
    alloc: Global,
    name: Name<'_>,
    octets: &'a [u8],
) -> Result<Option<&'a [u8]>, Memory>
    ensures { IfOk result (λ content. option_map (λ c. c.now) content
        ≡ written_content (components name.entry) octets.now) }
{
    let Some(content) = data_field(octets, CONTENT) else {
        return Ok(None);
    };
    let mut written = Vec::new(alloc);
    put_reply(&mut written, name, content)?;
    if octets == written.as_slice() {
        Ok(Some(content))
    } else {
        Ok(None)
    }
}

/// Appends the explanation of a reply with this name, this Content and these octets. The reply may
/// have any length, and its signature is not checked. On `Memory`, some of the lines may have been
/// appended.
pub fn put_written(
    alloc: Global,
    text: &mut Vec<u8>,
    name: Name<'_>,
    content: &[u8],
    octets: &[u8],
) -> Result<(), Memory>
    ensures { OnOk result (text.new.items ≡ text.old.items
        ++ explanation
        (AData octets.now (written_data (components name.entry) content.now octets.now)) None) }
{
    let signature = Signature {
        kind: DIGEST_SHA256,
        locator: Locator::Missing,
        time: None,
        seq: None,
        value: data_field(octets, SIGNATURE_VALUE).unwrap_or(&[]),
    };
    put_data(alloc, text, name, 0, Some(content), signature)?;
    put_segment(text, name, octets)?;
    put_content(alloc, text, content)
}

/// Returns the value of the first field of type `kind` in a Data, or `None` if the octets are not a
/// Data with such a field.
fn data_field(octets: &[u8], kind: u32) -> Option<&[u8]>
    ensures { option_map (λ v. v.now) result ≡ data_field kind octets.now }
{
    first_field(single_element(octets, DATA)?, kind)
}
