//! Data that the tests of several crates write and read.

use crate::rows::octets;
use ndn_names::{Name, NameBuf};
use ndn_packets::{DataWriter, Frame, Sign, read_frame};
use std::alloc::Global;

/// Returns a Data that is signed with DigestSha256. `uri` is the URI of the Data's name. `content`
/// is the Data's Content, in hexadecimal words that `octets` reads. `freshness` is the
/// FreshnessPeriod in milliseconds. Returns `None` if `uri` or `content` is malformed, or if the
/// Data cannot be written.
pub fn data_of(alloc: Global, uri: &str, content: &str, freshness: Option<u64>) -> Option<Vec<u8>> {
    let name = NameBuf::from_uri(alloc, uri).ok()?;
    written_data(alloc, name.view(), &octets(alloc, content)?, freshness)
}

fn written_data<'a>(
    alloc: Global,
    name: Name<'a>,
    content: &'a [u8],
    freshness: Option<u64>,
) -> Option<Vec<u8>> {
    let writer = DataWriter {
        name,
        freshness,
        last: None,
        content: Some(content),
        sign: Sign::Digest,
    };
    let mut out = Vec::new(alloc);
    writer.write(&mut out).ok()?;
    Some(out)
}

/// Returns in hexadecimal the Content of the Data that `packet` encodes. Returns the text `none` if
/// `packet` is `None`. Returns `None` if the packet is not a Data with a Content, or if memory runs
/// out.
pub fn content_shown(alloc: Global, packet: Option<&[u8]>) -> Option<String> {
    let Some(packet) = packet else {
        return String::from_str(alloc, "none").ok();
    };
    match read_frame(packet).ok()? {
        Frame::Data(data) => hex::encode(alloc, data.content?).ok(),
        _ => None,
    }
}

/// Returns the implicit digest of a Data, or `None` if the packet is not a Data.
pub fn digest_of(packet: &[u8]) -> Option<[u8; 32]> {
    match read_frame(packet).ok()? {
        Frame::Data(data) => Some(data.digest()),
        _ => None,
    }
}
