ghost use Rattle.std.specs.Prelude.{◌≡◌, ◌↔◌, ◌<◌, ℕ, List, length, nat_lt, slice_index, Ok, Err, IfOk, IfErr, IfSome};
ghost use Rattle.std.specs.Option.{option_map};
ghost use Rattle.ndn_tlv.specs.Reading.{on_result};
ghost use Rattle.ndn_packets.specs.Packet.{PlainFrame, PlainFramed};
ghost use Rattle.ndn_packets.specs.View.{plain_frame, plain_framed, IsReadInterest, IsReadData};
ghost use Rattle.ndn_packets.specs.declared.interest.Interest.{Interest};
ghost use Rattle.ndn_packets.specs.declared.data.Data.{Data};
ghost use Rattle.ndn_packets.specs.Link.{IsFrame, IsFramed, IsToken};
ghost use Rattle.ndn_packets.specs.FrameReading.{only_element, packet_of, nacked_of, framed_at, frame_at, token_at};
ghost use Rattle.ndn_packets.specs.FrameFaults.{FaultOf};
ghost use Rattle.ndn_packets.specs.declared.fault.PacketFault.{PacketFault};

use crate::data::Data;
use crate::fault::PacketFault;
use crate::interest::Interest;
use crate::link::read_link;
use crate::types::{DATA, INTEREST, LINK_PACKET};
use ndn_tlv::{Element, first_element};

/// The content of a frame, which borrows the received octets (NDN Packet Format 0.3, "Interest
/// Packet" and "Data Packet"; NDNLPv2, "Network Nack"). Nothing is allocated.
#[derive(Clone, Copy, Debug, PartialEq, Eq)]
pub enum Frame<'a> {
    /// An Interest, an element of type 5.
    Interest(Interest<'a>),
    /// A Data, an element of type 6.
    Data(Data<'a>),
    /// A link packet with a Nack.
    Nack {
        /// The NackReason, 0 if absent: `CONGESTION`, `DUPLICATE`, `NO_ROUTE` or another number.
        reason: u64,
        /// The Interest that the Nack refuses.
        interest: Interest<'a>,
    },
    /// A link packet with neither a Fragment nor a Nack.
    Idle,
}

/// A frame with its PIT token. The frame and the token borrow the received octets, and nothing is
/// allocated.
#[derive(Clone, Copy, Debug, PartialEq, Eq)]
pub struct Framed<'a> {
    /// The PIT token of the link packet, 1 to 32 octets (NDNLPv2, "PIT Token").
    pub token: Option<&'a [u8]>,
    /// The content of the frame.
    pub frame: Frame<'a>,
}

/// The greatest length of a frame, in octets.
pub const MAX_FRAME: usize = 9000;

/// The greatest length of an Interest or a Data, in octets.
pub const MAX_PACKET: usize = 8800;

/// Reads a frame: one Interest, one Data, or a link packet (NDN Packet Format 0.3, "Interest
/// Packet" and "Data Packet"; NDNLPv2, "Packet Format"). The fields of an Interest or a Data must
/// be in the order of the standard. The header fields of a link packet may be in any order. Any
/// other element must have a type that is ignored. The digest of an Interest's
/// ApplicationParameters must be correct. A frame has at most 9,000 octets, and a packet at most
/// 8,800. The field `whole` of a packet has the packet's own element, without the link packet
/// around the element.
///
/// If the octets are not a frame, returns the first fault from the left: see `PacketFault`.
/// Signatures are not verified. A PIT token is checked but not returned: `read_lp` returns it.
pub fn read_frame(octets: &[u8]) -> Result<Frame<'_>, PacketFault>
    // If a frame is returned, the octets are this frame in the grammar.
    ensures found { IfOk result (λ frame. IsFrame octets.now (plain_frame frame)) }
    // If the octets are a frame in the grammar, this frame is returned.
    ensures only { (frame : PlainFrame) → IsFrame octets.now frame
        → on_result (λ f. Ok (plain_frame f)) Err result ≡ Ok frame }
    // A returned fault is the first fault of the octets.
    ensures fault { IfErr result (FaultOf octets.now) }
    ensures exact { on_result (λ f. Ok (plain_frame f)) Err result ≡ frame_at octets.now }
{
    frame_of(octets)
}

// A packet outside a link packet is constructed directly in the result, here and in `framed_of`: a
// call of `packet_of` would copy the packet.
#[tactic(auto, unfolding(crate::specs::FrameReading::frame_at, crate::specs::FrameReading::framed_at))]
#[inline(always)]
fn frame_of(octets: &[u8]) -> Result<Frame<'_>, PacketFault>
    ensures { on_result (λ f. Ok (plain_frame f)) Err result ≡ frame_at octets.now }
{
    if octets.len() > MAX_FRAME {
        return Err(PacketFault::TooLong);
    }
    let outer = only_element(octets)?;
    match outer.kind {
        INTEREST => Ok(Frame::Interest(Interest::read(outer)?)),
        DATA => Ok(Frame::Data(Data::read(outer)?)),
        LINK_PACKET => Ok(read_link(outer.value)?.frame),
        _ => Err(PacketFault::BadField),
    }
}

/// Reads a frame by the rules of `read_frame`, and returns the frame with its PIT token (NDNLPv2,
/// "PIT Token"). The token has 1 to 32 octets. A link packet has at most one token, at any position
/// among its header fields. A packet outside a link packet has no token. The token borrows the
/// octets, and nothing is allocated.
///
/// If the octets are not a frame, returns the first fault from the left: see `PacketFault`. A token
/// that does not have 1 to 32 octets, or a second token, has the fault `LpField`.
pub fn read_lp(octets: &[u8]) -> Result<Framed<'_>, PacketFault>
    // If a frame is returned, the octets are this frame in the grammar, with the returned PIT token
    // or, if no token is returned, without a PIT token.
    ensures found { IfOk result (λ framed. IsFramed octets.now (plain_framed framed)) }
    // If the octets are a frame in the grammar, this frame is returned with its token.
    ensures only { (framed : PlainFramed) → IsFramed octets.now framed
        → on_result (λ f. Ok (plain_framed f)) Err result ≡ Ok framed }
    // A returned fault is the first fault of the octets.
    ensures fault { IfErr result (FaultOf octets.now) }
    ensures exact { on_result (λ f. Ok (plain_framed f)) Err result ≡ framed_at octets.now }
    ensures frame { on_result (λ f. Ok (plain_frame f.frame)) Err result ≡ frame_at octets.now }
    ensures token { IfOk result (λ f. option_map (λ t. t.now) f.token ≡ token_at octets.now) }
    ensures sizes { IfOk result (λ f. IfSome f.token (λ t. IsToken t.now)) }
{
    framed_of(octets)
}

#[tactic(auto, unfolding(crate::specs::FrameReading::framed_at))]
#[inline(always)]
fn framed_of(octets: &[u8]) -> Result<Framed<'_>, PacketFault>
    ensures { on_result (λ f. Ok (plain_framed f)) Err result ≡ framed_at octets.now }
{
    if octets.len() > MAX_FRAME {
        return Err(PacketFault::TooLong);
    }
    let outer = only_element(octets)?;
    match outer.kind {
        INTEREST => Ok(Framed {
            token: None,
            frame: Frame::Interest(Interest::read(outer)?),
        }),
        DATA => Ok(Framed {
            token: None,
            frame: Frame::Data(Data::read(outer)?),
        }),
        LINK_PACKET => read_link(outer.value),
        _ => Err(PacketFault::BadField),
    }
}

/// Returns the element if the octets are exactly one element. Returns `Tlv` if the first element
/// cannot be read, and `BadField` if octets follow the first element.
#[inline(always)]
pub(crate) fn only_element(octets: &[u8]) -> Result<Element<'_>, PacketFault>
    ensures exact { on_result (λ e. Ok (e.kind, e.value.now)) Err result ≡ only_element octets.now }
    ensures whole { IfOk result (λ e. e.whole.now ≡ octets.now) }
{
    let (element, rest) = first_element(octets).map_err(PacketFault::Tlv)?;
    if !rest.is_empty() {
        return Err(PacketFault::BadField);
    }
    Ok(element)
}

/// Returns whether the octets `whole` are too long for a packet.
#[inline(always)]
pub(crate) fn is_too_long(whole: &[u8]) -> bool
    ensures exact { result ≡ nat_lt 8800 (length whole.now) }
    // The proof that every packet in memory was read uses the fact that octets are below 256.
    ensures octets { (i : ℕ) → slice_index whole.now i < 256 }
{
    whole.len() > MAX_PACKET
}

/// Reads the Interest or the Data in the element `outer`. Returns `BadField` if the element is
/// neither an Interest nor a Data.
#[inline(never)]
pub(crate) fn packet_of(outer: Element<'_>) -> Result<Frame<'_>, PacketFault>
    ensures { on_result (λ f. Ok (plain_frame f)) Err result
        ≡ packet_of outer.entry.whole.now (outer.entry.kind, outer.entry.value.now) }
{
    match outer.kind {
        INTEREST => Ok(Frame::Interest(Interest::read(outer)?)),
        DATA => Ok(Frame::Data(Data::read(outer)?)),
        _ => Err(PacketFault::BadField),
    }
}

/// Reads the Interest in the element `outer`, and returns a Nack with the reason `reason` for this
/// Interest. Returns `BadField` if the element is not an Interest.
pub(crate) fn nacked_of(reason: u64, outer: Element<'_>) -> Result<Frame<'_>, PacketFault>
    ensures { on_result (λ f. Ok (plain_frame f)) Err result
        ≡ nacked_of reason outer.entry.whole.now (outer.entry.kind, outer.entry.value.now) }
{
    if outer.kind != INTEREST {
        return Err(PacketFault::BadField);
    }
    let interest = Interest::read(outer)?;
    Ok(Frame::Nack { reason, interest })
}

/// Law: octets have at most one reading as a frame, and at most one reading as a frame with its PIT
/// token. `frame_at` reads the frame, and `framed_at` reads the frame with its token.
pub fn frames_have_one_reading()
    ensures one { (text : List ℕ) (a b : PlainFrame) → IsFrame text a → IsFrame text b → a ≡ b }
    ensures exact { (text : List ℕ) (frame : PlainFrame) → ((i : ℕ) → slice_index text i < 256)
        → ((frame_at text ≡ Ok frame) ↔ IsFrame text frame) }
    ensures one_framed { (text : List ℕ) (a b : PlainFramed) → IsFramed text a → IsFramed text b
        → a ≡ b }
    ensures exact_framed { (text : List ℕ) (framed : PlainFramed)
        → ((i : ℕ) → slice_index text i < 256)
        → ((framed_at text ≡ Ok framed) ↔ IsFramed text framed) }
{}

/// Law: if octets are not a frame, the first fault is reported. `TooLong` for more than 9,000
/// octets comes first, then a fault of the outer element, and then the first fault of the packet or
/// of the link packet.
pub fn frames_tell_the_first_fault()
    ensures { (text : List ℕ) (fault : PacketFault) → ((i : ℕ) → slice_index text i < 256)
        → ((frame_at text ≡ Err fault) ↔ FaultOf text fault) }
{}

/// Law: in the grammar, the received octets of an Interest in memory are this Interest, and the
/// received octets of a Data in memory are this Data. Both statements are also true of a packet
/// that came in a link packet. The reason is that only `read_frame` and `read_lp` create an
/// Interest or a Data in memory.
pub fn packets_in_hand_are_read()
    ensures interest { (i : Interest) → IsReadInterest i }
    ensures data { (d : Data) → IsReadData d }
{}
