ghost use Rattle.std.specs.Prelude.{◌≡◌, ◌++◌, Ok, None, drop, slice_get};
ghost use Rattle.ndn_streams.specs.Reading.{front_of, size_of, size_with, long_size};
ghost use Rattle.ndn_streams.specs.Cutting.{FrontOf};

use crate::fault::StreamFault;

// The TLV-TYPEs of an Interest and of a Data (NDN Packet Format 0.3, "Interest Packet" and "Data
// Packet"), and of an LpPacket (NDNLPv2, "Packet Format").
const INTEREST: u8 = 5;

const DATA: u8 = 6;

const LINK_PACKET: u8 = 100;

/// The greatest size of a packet in a stream, in octets. An Interest or a Data has at most 8,800
/// octets, and the fields of an LpPacket around it take the others.
pub const MAX_FRAME: usize = 9000;

// The greatest TLV-LENGTH of a packet: type and length then take four octets.
const MAX_LONG: u16 = 8996;

/// Returns the octet at `index` of `front` followed by `back`.
#[inline(always)]
fn octet_at(front: &[u8], back: &[u8], index: usize) -> Option<u8>
    ensures { result ≡ slice_get (front.now ++ back.now) index }
{
    if index < front.len() {
        Some(front[index])
    } else {
        back.get(index - front.len()).copied()
    }
}

/// Returns the size of a packet whose TLV-LENGTH takes three octets.
#[inline(always)]
fn size_with_length(length: u16) -> Result<Option<usize>, StreamFault>
    ensures { result ≡ size_with length }
{
    if length < 253 {
        Err(StreamFault::NotShortest)
    } else if length > MAX_LONG {
        Err(StreamFault::TooLong)
    } else {
        Ok(Some(4 + usize::from(length)))
    }
}

/// Returns the size of the packet at the front of `front` followed by `back`, or `None` if more
/// octets are needed to tell it. Its first two octets are a type and 253.
#[inline(always)]
fn long_size_at(front: &[u8], back: &[u8]) -> Result<Option<usize>, StreamFault>
    ensures { result ≡ long_size (drop 2 (front.now ++ back.now)) }
{
    let Some(high) = octet_at(front, back, 2) else {
        return Ok(None);
    };
    if let Some(low) = octet_at(front, back, 3) {
        size_with_length(u16::from_be_bytes([high, low]))
    } else if u16::from(high) * 256 > MAX_LONG {
        Err(StreamFault::TooLong)
    } else {
        Ok(None)
    }
}

/// Returns the size of the packet at the front of `front` followed by `back`, or `None` if more
/// octets are needed to tell it.
#[tactic(auto, unfolding(crate::specs::Reading::size_of))]
#[inline(always)]
pub(crate) fn size_at(front: &[u8], back: &[u8]) -> Result<Option<usize>, StreamFault>
    ensures { result ≡ size_of (front.now ++ back.now) }
{
    let Some(kind) = octet_at(front, back, 0) else {
        return Ok(None);
    };
    if kind != INTEREST && kind != DATA && kind != LINK_PACKET {
        return Err(StreamFault::UnknownType);
    }
    match octet_at(front, back, 1) {
        None => Ok(None),
        Some(253) => long_size_at(front, back),
        Some(length) if length < 253 => Ok(Some(2 + usize::from(length))),
        Some(_) => Err(StreamFault::TooLong),
    }
}

#[tactic(auto, unfolding(crate::specs::Reading::front_of))]
#[inline(always)]
fn whole_size_at(front: &[u8], back: &[u8]) -> Result<Option<usize>, StreamFault>
    ensures { result ≡ front_of (front.now ++ back.now) }
{
    match size_at(front, back)? {
        Some(size) if size <= front.len() || size - front.len() <= back.len() => Ok(Some(size)),
        _ => Ok(None),
    }
}

/// Returns the size of the whole packet at the front of `front` followed by `back`, or `None` if
/// octets of it are missing.
#[inline(always)]
pub(crate) fn front_at(front: &[u8], back: &[u8]) -> Result<Option<usize>, StreamFault>
    ensures exact { result ≡ front_of (front.now ++ back.now) }
    ensures means { FrontOf (front.now ++ back.now) result }
{
    whole_size_at(front, back)
}

/// Returns the size of the packet at the front of the octets, or `None` if they are a beginning of a
/// packet. So octets are exactly one packet if this is their number, as in a message of WebSocket.
///
/// Returns a fault if the octets are the beginning of no packet.
pub fn packet_size(octets: &[u8]) -> Result<Option<usize>, StreamFault>
    ensures { FrontOf octets.now result }
{
    front_at(octets, &[])
}
