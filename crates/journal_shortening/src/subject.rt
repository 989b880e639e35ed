//! The keys of subjects. A subject is what a line of a journal may set or remove, such as a route.

use mgmt_core::{Action, Command};
use ndn_packets::{DIGEST_SHA256, Data, FullName, Locator, Signature};
use ndn_tlv::Memory;
use std::alloc::Global;

/// A kind of subject. The number of the kind is the first octet of the subject's key.
#[derive(Clone, Copy, Debug, PartialEq, Eq)]
pub enum Kind {
    /// The greatest SignatureTime of a signer's commands.
    Signer = 1,
    /// The greatest SignatureSeqNum of a signer's commands.
    Numbered = 2,
    /// The next hop of a name through a face.
    Hop = 3,
    /// The route of a name through a face, with an origin.
    Route = 4,
    /// The strategy of a name.
    Strategy = 5,
    /// The stored Data with a given full name.
    Object = 6,
}

/// Returns the key of the subject of this kind with these numbers and these octets. The length of
/// `numbers` depends only on the kind, so different subjects have different keys.
pub fn key_of(
    alloc: Global,
    kind: Kind,
    numbers: &[u64],
    octets: &[u8],
) -> Result<Vec<u8>, Memory> {
    let mut key = Vec::new(alloc);
    key.push(kind as u8)?;
    for number in numbers {
        key.extend_from_slice(&number.to_be_bytes())?;
    }
    key.extend_from_slice(octets)?;
    Ok(key)
}

/// Returns the key of the next hop or the route that a command sets or removes. `face` is the face
/// of the next hop or route.
pub fn route_key(alloc: Global, command: &Command<'_>, face: u64) -> Result<Vec<u8>, Memory> {
    let name = command.name.as_octets();
    match command.action {
        Action::Register | Action::Unregister => {
            key_of(alloc, Kind::Route, &[face, command.origin], name)
        }
        _ => key_of(alloc, Kind::Hop, &[face], name),
    }
}

/// Returns the key of a signer's greatest time if `kind` is `Signer`, or of the signer's greatest
/// sequence number if `kind` is `Numbered`. All commands that are signed with DigestSha256 or have
/// no key name count as commands of one signer, as in the node's guard against replays.
pub fn signer_key(alloc: Global, kind: Kind, signature: &Signature<'_>) -> Result<Vec<u8>, Memory> {
    match signature.locator {
        Locator::Name(name) if signature.kind != DIGEST_SHA256 => {
            key_of(alloc, kind, &[1], name.as_octets())
        }
        _ => key_of(alloc, kind, &[0], b"".as_slice()),
    }
}

/// Returns the key of the object that a Data becomes when it is stored.
pub fn object_key(alloc: Global, data: &Data<'_>) -> Result<Vec<u8>, Memory> {
    let name = FullName::new(alloc, data)?;
    key_of(alloc, Kind::Object, &[], name.as_octets())
}

/// Returns the full name in the key of an object, or `None` for the key of another subject.
pub fn full_name_in(key: &[u8]) -> Option<&[u8]> {
    let (kind, name) = key.split_first()?;
    if *kind == Kind::Object as u8 {
        Some(name)
    } else {
        None
    }
}
