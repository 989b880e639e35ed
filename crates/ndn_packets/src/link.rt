//! Link packets (NDNLPv2, "Packet Format", "Fragmentation", "Network Nack", "PIT Token").

ghost use Rattle.std.specs.Prelude.{◌≡◌, ◌+◌, ◌^◌, ◌<◌, ◌≤◌, ◌++◌, length, take, drop, vec_len, Option, None, Some, IfSome, Ok, Err, OnOk, OnErr, IsOk};
ghost use Rattle.std.specs.Option.{option_map};
ghost use Rattle.std.specs.Vec.{vec_capacity};
ghost use Rattle.ndn_tlv.specs.Reading.{on_result, elements_of};
ghost use Rattle.ndn_packets.specs.Packet.{PlainInterest, PlainData, PlainFramed, ANack, AData, framed_with, interest_frame};
ghost use Rattle.ndn_packets.specs.View.{plain_frame, plain_framed};
ghost use Rattle.ndn_packets.specs.Grammar.{IsInterest, IsData};
ghost use Rattle.ndn_packets.specs.Link.{IsFrame, IsFramed, IsToken, is_ignored_header};
ghost use Rattle.ndn_packets.specs.FrameReading.{LinkSoFar, at_most, nack_at, fragment_at, last_of, link_at};
ghost use Rattle.ndn_tlv.specs.Writing.{Puts, octets, optional};
ghost use Rattle.ndn_packets.specs.Writing.{nack_field, nack_text, nack_headers, lp_text, link_value, link_text, link_start, IsLength, AreOctets, IsU64};

use crate::fault::PacketFault;
use crate::field_reader::{FieldReader, number};
use crate::field_writer::{element_len, optional_len, put_optional};
use crate::frame::{Frame, Framed, nacked_of, only_element, packet_of};
use crate::schema::Rules;
use crate::types::{
    FRAG_COUNT, FRAG_INDEX, FRAGMENT, LINK_PACKET, NACK, NACK_REASON, PIT_TOKEN, SEQUENCE,
};
use ndn_tlv::{
    Element, Memory, element_len as tlv_len, first_element, nni_element_len, number_len,
    put_element, put_header, put_nni_element,
};

/// The upper limit for the TLV-TYPE of an unknown header field that is ignored.
const MAX_IGNORED: u32 = 959;

/// The greatest length of a PitToken, in octets.
const MAX_TOKEN: usize = 32;

/// The header fields that have been read so far. The values of the Sequence, the FragIndex and the
/// FragCount are not stored, only whether these fields have been read.
#[derive(Clone, Copy)]
struct Headers<'a> {
    sequence: bool,
    frag_index: bool,
    frag_count: bool,
    token: Option<&'a [u8]>,
    nack: Option<u64>,
}

impl<'a> Headers<'a> {
    ghost use Rattle.std.specs.Prelude.{◌≡◌, Ok, Err};
    ghost use Rattle.ndn_tlv.specs.Reading.{on_result};
    ghost use Rattle.ndn_packets.specs.FrameReading.{is_refused_header, with_header};
    ghost use Rattle.ndn_packets.specs.SoFar.{link_so_far};

    /// Returns whether `field` is not allowed after the header fields in `self`.
    fn refuse(self, field: Element<'_>) -> bool
        ensures { result
            ≡ is_refused_header (link_so_far self.entry) (field.entry.kind, field.entry.value.now) }
    {
        match field.kind {
            SEQUENCE => self.sequence,
            FRAG_INDEX => self.frag_index,
            FRAG_COUNT => self.frag_count,
            PIT_TOKEN => self.token.is_some() || !(1..=MAX_TOKEN).contains(&field.value.len()),
            NACK => self.nack.is_some(),
            kind => !is_ignored_header(kind),
        }
    }

    /// Returns the header fields in `self` with `field` added. The caller has checked with `refuse`
    /// that the field is allowed.
    fn with(self, field: Element<'a>) -> Result<Headers<'a>, PacketFault>
        ensures { on_result (λ h. Ok (link_so_far h)) Err result
            ≡ with_header (link_so_far self.entry) (field.entry.kind, field.entry.value.now) }
    {
        let mut headers = self;
        match field.kind {
            SEQUENCE => headers.sequence = true,
            FRAG_INDEX => {
                check_at_most(0, field.value)?;
                headers.frag_index = true;
            }
            FRAG_COUNT => {
                check_at_most(1, field.value)?;
                headers.frag_count = true;
            }
            PIT_TOKEN => headers.token = Some(field.value),
            NACK => headers.nack = Some(nack_reason(field.value)?),
            _ => {}
        }
        Ok(headers)
    }
}

/// Returns whether an unknown header field of type `kind` is ignored (NDNLPv2, "Packet Format").
fn is_ignored_header(kind: u32) -> bool
    ensures { result ≡ is_ignored_header kind }
{
    kind > NACK && kind <= MAX_IGNORED && kind % 4 == 0
}

/// Returns `BadField` if `value` is not a NonNegativeInteger. Returns `Fragmented` if the number is
/// above `limit`, because the link packet is then one of several fragments.
fn check_at_most(limit: u64, value: &[u8]) -> Result<(), PacketFault>
    ensures { (s : LinkSoFar) → on_result (λ _. Ok s) Err result ≡ at_most limit value.now s }
{
    if number(value)? > limit {
        return Err(PacketFault::Fragmented);
    }
    Ok(())
}

#[tactic(auto, unfolding(crate::specs::FrameReading::nack_at))]
/// Returns the reason in a Nack's value, or 0 if the value has no NackReason.
fn nack_reason(value: &[u8]) -> Result<u64, PacketFault>
    ensures { result ≡ nack_at value.now }
{
    let mut fields = FieldReader::new(Rules::Packet, value, &[NACK_REASON]);
    let mut reason = 0;
    while let Some(field) = fields.next()? {
        reason = number(field.value)?;
    }
    Ok(reason)
}

#[tactic(auto, using(crate::proofs::Rules::no_elements), unfolding(crate::specs::FrameReading::link_at))]
/// Reads the value of a link packet.
pub(crate) fn read_link(value: &[u8]) -> Result<Framed<'_>, PacketFault>
    ensures { on_result (λ f. Ok (plain_framed f)) Err result ≡ link_at value.now }
{
    let mut headers = Headers {
        sequence: false,
        frag_index: false,
        frag_count: false,
        token: None,
        nack: None,
    };
    let mut rest = value;
    while !rest.is_empty() {
        let (field, after) = first_element(rest).map_err(PacketFault::Tlv)?;
        if field.kind == FRAGMENT {
            let frame = fragment_of(headers.nack, field.value)?;
            check_last(after)?;
            return Ok(Framed {
                token: headers.token,
                frame,
            });
        }
        if headers.refuse(field) {
            return Err(PacketFault::LpField);
        }
        headers = headers.with(field)?;
        rest = after;
    }
    match headers.nack {
        None => Ok(Framed {
            token: headers.token,
            frame: Frame::Idle,
        }),
        Some(_) => Err(PacketFault::BadField),
    }
}

/// Reads the packet in a Fragment. If the link packet has a Nack, `nack` is the reason of this
/// Nack, and the packet must be an Interest.
fn fragment_of(nack: Option<u64>, fragment: &[u8]) -> Result<Frame<'_>, PacketFault>
    ensures { on_result (λ f. Ok (plain_frame f)) Err result ≡ fragment_at nack fragment.now }
{
    let outer = only_element(fragment)?;
    match nack {
        None => packet_of(outer),
        Some(reason) => nacked_of(reason, outer),
    }
}

#[tactic(auto, using(crate::proofs::Rules::no_elements))]
/// Checks that no octets follow a Fragment. The argument `after` is the octets that follow the
/// Fragment. If `after` is not empty, returns `Tlv` if the first element in `after` cannot be read,
/// and `LpField` otherwise.
fn check_last(after: &[u8]) -> Result<(), PacketFault>
    ensures { (framed : PlainFramed)
        → on_result (λ _. Ok framed) Err result ≡ last_of framed (elements_of after.now) }
{
    if after.is_empty() {
        return Ok(());
    }
    first_element(after).map_err(PacketFault::Tlv)?;
    Err(PacketFault::LpField)
}

/// Appends a link packet that contains `packet`, the PIT token if `token` is given, and a Nack if
/// the reason `nack` is given (NDNLPv2, "PIT Token", "Network Nack"). If neither `token` nor `nack`
/// is given, appends `packet` alone. The token must have 1 to 32 octets, and is written before the
/// Nack. The NackReason of a Nack is written even if it is 0. If memory runs out, nothing is
/// appended.
pub fn put_lp(
    out: &mut Vec<u8>,
    token: Option<&[u8]>,
    nack: Option<u64>,
    packet: &[u8],
) -> Result<(), Memory>
    requires { IfSome token (λ t. IsToken t.now) }
    ensures ok { OnOk result (out.new.items
        ≡ out.old.items ++ lp_text (option_map (λ t. t.now) token.entry) nack packet.now) }
    ensures err { OnErr result (out.new.items ≡ out.old.items) }
    // If the capacity of `out` suffices, memory does not run out.
    ensures room { vec_len out.old
        + length (lp_text (option_map (λ t. t.now) token.entry) nack packet.now)
        ≤ vec_capacity out.old → IsOk result }
    ensures capacity { vec_capacity out.old ≤ vec_capacity out.new }
    // If `packet` is one Interest, the appended octets are a frame with this Interest, and with the
    // token and the Nack if they are given.
    ensures reads_back { (i : PlainInterest) → IsInterest packet.now i
        → IsFramed (lp_text (option_map (λ t. t.now) token.entry) nack packet.now)
        (framed_with (option_map (λ t. t.now) token.entry) (interest_frame nack packet.now i)) }
    // If `packet` is one Data and no Nack is given, the appended octets are a frame with this Data,
    // and with the token if it is given.
    ensures reads_back_data { (d : PlainData) → IsData packet.now d → nack ≡ None
        → IsFramed (lp_text (option_map (λ t. t.now) token.entry) nack packet.now)
        (framed_with (option_map (λ t. t.now) token.entry) (AData packet.now d)) }
{
    let len = out.len();
    let done = put_lp_parts(out, token, nack, packet);
    if done.is_err() {
        out.truncate(len);
    }
    done
}

/// Puts a link packet with a PIT token of 1 to 32 octets around the packet at the end of `out`
/// (NDNLPv2, "PIT Token"). The packet begins at index `start`. Without a token, `out` stays
/// unchanged. If memory runs out, the octets in `out` stay unchanged.
pub fn wrap(out: &mut Vec<u8>, start: usize, token: Option<&[u8]>) -> Result<(), Memory>
    requires start { start ≤ vec_len out.old }
    requires is_token { IfSome token (λ t. IsToken t.now) }
    ensures ok { OnOk result (out.new.items ≡ take start out.old.items
        ++ lp_text (option_map (λ t. t.now) token.entry) None (drop start out.old.items)) }
    ensures err { OnErr result (out.new.items ≡ out.old.items) }
    // If the capacity of `out` suffices, memory does not run out.
    ensures room { start + length (lp_text (option_map (λ t. t.now) token.entry) None
        (drop start out.old.items)) ≤ vec_capacity out.old → IsOk result }
    ensures capacity { vec_capacity out.old ≤ vec_capacity out.new }
{
    match token {
        None => Ok(()),
        Some(token) => wrap_with(out, start, token),
    }
}

#[tactic(auto, using(crate::proofs::Wrapping::wrapped, crate::proofs::Wrapping::wrapped_len))]
/// Puts a link packet with a PIT token around the packet at the end of `out`. The packet begins at
/// index `start`.
fn wrap_with(out: &mut Vec<u8>, start: usize, token: &[u8]) -> Result<(), Memory>
    requires start { start ≤ vec_len out.old }
    requires is_token { IsToken token.now }
    ensures ok { OnOk result (out.new.items ≡ take start out.old.items
        ++ lp_text (Some token.now) None (drop start out.old.items)) }
    ensures err { OnErr result (out.new.items ≡ out.old.items) }
    ensures room { start + length (lp_text (Some token.now) None (drop start out.old.items))
        ≤ vec_capacity out.old → IsOk result }
    ensures capacity { vec_capacity out.old ≤ vec_capacity out.new }
{
    let len = out.len();
    let done = put_link_start(out, token, len - start);
    if done.is_err() {
        out.truncate(len);
        return done;
    }
    out[start..].rotate_left(len - start);
    done
}

#[tactic(auto, using(crate::proofs::Wrapping::start_lengths))]
/// Appends the octets that come before a packet of length `packet_len` in a link packet with a PIT
/// token. If memory runs out, some octets may have been appended.
fn put_link_start(out: &mut Vec<u8>, token: &[u8], packet_len: usize) -> Result<(), Memory>
    requires is_token { IsToken token.now }
    requires in_memory { packet_len < 2 ^ 63 }
    ensures { Puts out.old out.new result (link_start token.now packet_len) }
{
    let fragment_len = number_len(u64::from(FRAGMENT)) + number_len(packet_len as u64) + packet_len;
    put_header(out, LINK_PACKET, tlv_len(PIT_TOKEN, token) + fragment_len)?;
    put_element(out, PIT_TOKEN, token)?;
    put_header(out, FRAGMENT, packet_len)?;
    Ok(())
}

/// Appends a link packet that has two fields: a Nack with the reason `reason`, and a Fragment whose
/// value is the octets `interest` (NDNLPv2, "Network Nack"). The NackReason is always written, even
/// if it is 0. If memory runs out, nothing is appended.
pub fn put_nack(out: &mut Vec<u8>, reason: u64, interest: &[u8]) -> Result<(), Memory>
    ensures ok { OnOk result (out.new.items ≡ out.old.items ++ nack_text reason interest.now) }
    ensures err { OnErr result (out.new.items ≡ out.old.items) }
    // If the capacity of `out` suffices, memory does not run out.
    ensures room { vec_len out.old + length (nack_text reason interest.now) ≤ vec_capacity out.old
        → IsOk result }
    ensures capacity { vec_capacity out.old ≤ vec_capacity out.new }
    // If `interest` is one Interest, the appended octets are a frame that is a Nack with this
    // reason for this Interest.
    ensures reads_back { (i : PlainInterest) → IsInterest interest.now i
        → IsFrame (nack_text reason interest.now) (ANack reason interest.now i) }
{
    put_lp(out, None, Some(reason), interest)
}

/// Appends a packet, inside a link packet if a PIT token or a Nack is given. If memory runs out,
/// some octets may have been appended.
fn put_lp_parts(
    out: &mut Vec<u8>,
    token: Option<&[u8]>,
    nack: Option<u64>,
    packet: &[u8],
) -> Result<(), Memory>
    ensures puts { Puts out.old out.new result
        (lp_text (option_map (λ t. t.now) token.entry) nack packet.now) }
    ensures token { IfSome token.entry (λ t. AreOctets t.now) }
    ensures nack { IsU64 nack }
{
    if token.is_none() && nack.is_none() {
        out.extend_from_slice(packet)?;
        return Ok(());
    }
    put_link(out, token, nack, packet)
}

#[tactic(auto, using(crate::proofs::NackWriting::link_put, crate::proofs::NackWriting::link_parts))]
/// Appends a link packet. If memory runs out, some octets may have been appended. Capacity for the
/// whole link packet is reserved first, so a link packet that is longer than any memory gets the
/// fault `Memory` at once.
fn put_link(
    out: &mut Vec<u8>,
    token: Option<&[u8]>,
    nack: Option<u64>,
    packet: &[u8],
) -> Result<(), Memory>
    ensures ok { OnOk result (out.new.items
        ≡ out.old.items ++ link_text (option_map (λ t. t.now) token.entry) nack packet.now) }
    ensures begins { take (vec_len out.old) out.new.items ≡ out.old.items }
    ensures room { vec_len out.old
        + length (link_text (option_map (λ t. t.now) token.entry) nack packet.now)
        ≤ vec_capacity out.old → IsOk result }
    ensures capacity { vec_capacity out.old ≤ vec_capacity out.new }
    ensures token { IfSome token.entry (λ t. AreOctets t.now) }
    ensures nack { IsU64 nack }
{
    let value_len = link_value_len(token, nack, packet);
    out.reserve(element_len(LINK_PACKET, value_len))?;
    put_header(out, LINK_PACKET, value_len)?;
    put_headers(out, token, nack)?;
    put_element(out, FRAGMENT, packet)?;
    Ok(())
}

/// Returns the length of the value of a link packet in octets, or `usize::MAX` if the length is
/// greater.
fn link_value_len(token: Option<&[u8]>, nack: Option<u64>, packet: &[u8]) -> usize
    ensures len { IsLength result
        (link_value (option_map (λ t. t.now) token.entry) nack packet.now) }
    ensures token { IfSome token.entry (λ t. AreOctets t.now) }
    ensures nack { IsU64 nack }
{
    optional_len(PIT_TOKEN, token)
        .saturating_add(nack_header_len(nack))
        .saturating_add(element_len(FRAGMENT, packet.len()))
}

/// Returns the length of the Nack header field in octets, or 0 if `nack` is `None`.
fn nack_header_len(nack: Option<u64>) -> usize
    ensures len { IsLength result (octets (nack_headers nack)) }
    ensures sound { IsU64 nack }
{
    match nack {
        None => 0,
        Some(reason) => element_len(NACK, nni_element_len(NACK_REASON, reason)),
    }
}

/// Appends the header fields of a link packet. If memory runs out, some octets may have been
/// appended.
fn put_headers(out: &mut Vec<u8>, token: Option<&[u8]>, nack: Option<u64>) -> Result<(), Memory>
    ensures { Puts out.old out.new result
        (octets (optional PIT_TOKEN (option_map (λ t. t.now) token.entry))
        ++ octets (nack_headers nack)) }
{
    put_optional(out, PIT_TOKEN, token)?;
    if let Some(reason) = nack {
        put_reason(out, reason)?;
    }
    Ok(())
}

#[tactic(auto, using(ndn_tlv::proofs::Lengths::element_put))]
/// Appends a Nack header field with the reason `reason`. If memory runs out, some octets may have
/// been appended.
fn put_reason(out: &mut Vec<u8>, reason: u64) -> Result<(), Memory>
    ensures { Puts out.old out.new result (nack_field reason) }
{
    put_header(out, NACK, nni_element_len(NACK_REASON, reason))?;
    put_nni_element(out, NACK_REASON, reason)?;
    Ok(())
}
