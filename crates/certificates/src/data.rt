//! The Data of a certificate.

ghost use Rattle.std.specs.Prelude.{◌≡◌, ◌≢◌, ◌↔◌, ℕ, List, IsTrue, MatchOption};
ghost use Rattle.ndn_packets.specs.Grammar.{IsData};
ghost use Rattle.ndn_packets.specs.Packet.{AData, PlainData};
ghost use Rattle.ndn_packets.specs.View.{plain_data, plain_frame};
ghost use Rattle.certificates.specs.File.{BeginsAsData};

use ndn_packets::{Data, Frame, read_frame};

/// The first octet of a Data: its TLV-TYPE.
const DATA: u8 = 6;

/// Returns whether octets begin with the type of a Data.
pub(crate) fn begins_as_data(octets: &[u8]) -> bool
    ensures { IsTrue result ↔ BeginsAsData octets.now }
{
    match octets.first() {
        Some(octet) => *octet == DATA,
        None => false,
    }
}

/// Returns the Data if octets are exactly one Data. A Data in a link packet is refused.
pub(crate) fn data_in(octets: &[u8]) -> Option<Data<'_>>
    ensures { MatchOption result
        ((packet : PlainData) → IsData octets.now packet → ⊥)
        (λ packet. IsData octets.now (plain_data packet)) }
{
    if !begins_as_data(octets) {
        return None;
    }
    match read_frame(octets) {
        Ok(frame) => packet_of(frame),
        Err(_) => None,
    }
}

/// Returns the Data that a frame is, if it is a Data.
fn packet_of(frame: Frame<'_>) -> Option<Data<'_>>
    ensures { MatchOption result
        ((whole : List ℕ) (packet : PlainData) → plain_frame frame.entry ≢ AData whole packet)
        (λ packet. plain_frame frame.entry ≡ AData packet.whole.now (plain_data packet)) }
{
    match frame {
        Frame::Data(packet) => Some(packet),
        Frame::Interest(_) | Frame::Nack { .. } | Frame::Idle => None,
    }
}
