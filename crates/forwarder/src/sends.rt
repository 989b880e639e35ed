ghost use Rattle.std.specs.Prelude.{◌≡◌, ◌≢◌, ◌↔◌, ◌+◌, ◌<◌, ◌≤◌, ℕ, List, [], ◌∷◌, ◌++◌, length, map, slice_get, vec_len, Some, None, IsTrue, IsOk, OnOk, OnErr, IfOk, IfSome, Err, is_ok};
ghost use Rattle.std.specs.Option.{option_map};
ghost use Rattle.std.specs.Vec.{vec_capacity};
ghost use Rattle.ndn_names.specs.View.{components};
ghost use Rattle.ndn_packets.specs.HopLimit.{HasHopLimit, with_octet};
ghost use Rattle.ndn_packets.specs.Link.{IsToken};
ghost use Rattle.ndn_packets.specs.Writing.{interest_refusal, interest_text, lp_text, reply_text};
ghost use Rattle.forwarder.specs.Event.{Send, nacked_back, sent_back, to_each};
ghost use Rattle.forwarder.specs.Handling.{token_of};
ghost use Rattle.forwarder.specs.NextHops.{sent_on};
ghost use Rattle.forwarder.specs.Outbox.{placed};
ghost use Rattle.forwarder.specs.SendSpace.{fetched};

use ndn_names::Name;
use ndn_packets::{Interest, InterestWriter, WriteFault, hop_limit_mut, put_lp, put_reply, wrap};
use ndn_tlv::Memory;
use pit_fib::{Faces, MAX_FACES};
use std::alloc::Global;
use std::marker::Model;

/// A link packet that the node sends is longer than the packet in it by at most this number of
/// octets. The link packet adds headers and, if present, a token of at most 32 octets and a Nack
/// with its reason.
pub const LINK_EXTRA: usize = 70;

/// One send: its face, and the range of its octets.
#[derive(Clone, Copy)]
struct Sent {
    face: u64,
    start: usize,
    end: usize,
}

/// The packets to send, in order, and the memory that is reserved for further sends. If a method
/// runs out of memory, the sends do not change.
#[derive(Drop)]
pub struct Sends {
    octets: Vec<u8>,
    places: Vec<Sent>,
}

impl Model for Sends {
    ghost use Rattle.std.specs.Prelude.{◌-◌, vec_len};
    ghost use Rattle.std.specs.Vec.{vec_capacity};
    ghost use Rattle.forwarder.specs.Outbox.{sends_of, AreOctetsOf};
    ghost use Rattle.forwarder.specs.SendSpace.{SendsState};

    ghost Value = { SendsState };

    ghost view = { λ o. record {
      sends = sends_of o.octets.items o.places.items;
      places = vec_capacity o.places - vec_len o.places;
      space = vec_capacity o.octets - vec_len o.octets;
    } };

    ghost invariant = { λ o. AreOctetsOf o.octets.items o.places.items };
}

impl Sends {
    /// Returns a `Sends` without sends.
    pub fn new(alloc: Global) -> Sends
        ensures { result.sends ≡ [] }
    {
        Sends {
            octets: Vec::new(alloc),
            places: Vec::new(alloc),
        }
    }

    /// Returns the number of sends.
    pub fn len(&self) -> usize
        ensures { result ≡ length self.now.sends }
    {
        self.places.len()
    }

    /// Returns whether there are no sends.
    pub fn is_empty(&self) -> bool
        ensures { IsTrue result ↔ (self.now.sends ≡ []) }
    {
        self.places.is_empty()
    }

    /// Returns the face and the octets of the send at index `i`, or `None` if there are `i` or
    /// fewer sends.
    pub fn sent(&self, i: usize) -> Option<(u64, &[u8])>
        ensures { option_map (λ sent. (sent.0, sent.1.now)) result ≡ slice_get self.now.sends i }
    {
        let sent = self.places.get(i)?;
        Some((sent.face, &self.octets[sent.start..sent.end]))
    }

    /// Removes all sends and their octets. Their memory stays reserved.
    pub fn clear(&mut self)
        ensures sends { self.new.sends ≡ [] }
        ensures places { self.old.places + length self.old.sends ≤ self.new.places }
        ensures space { self.old.space ≤ self.new.space }
    {
        self.places.clear();
        self.octets.clear();
    }

    /// Reserves memory for `places` more sends that have `space` octets in all.
    pub fn reserve(&mut self, places: usize, space: usize) -> Result<(), Memory>
        ensures sends { self.new.sends ≡ self.old.sends }
        ensures places { OnOk result (places ≤ self.new.places) }
        ensures space { OnOk result (space ≤ self.new.space) }
        // The memory that was reserved before stays reserved.
        ensures places_kept { self.old.places ≤ self.new.places }
        ensures space_kept { self.old.space ≤ self.new.space }
    {
        self.places.reserve(places)?;
        self.octets.reserve(space)?;
        Ok(())
    }

    /// Appends one send: these octets go to the face `face`.
    pub fn push(&mut self, face: u64, octets: &[u8]) -> Result<(), Memory>
        ensures ok { OnOk result (self.new.sends ≡ self.old.sends ++ (face, octets.now) ∷ []) }
        ensures err { OnErr result (self.new.sends ≡ self.old.sends) }
        // If enough memory is reserved, memory does not run out.
        ensures promised { 1 ≤ self.old.places → length octets.now ≤ self.old.space
            → IsOk result }
        // `push` uses up reserved memory for at most one send.
        ensures room { self.old.places ≤ self.new.places + 1 }
        ensures space { self.old.space ≤ self.new.space + length octets.now }
    {
        self.places.reserve(1)?;
        let start = self.octets.len();
        self.octets.extend_from_slice(octets)?;
        place(&mut self.places, face, start, self.octets.len())?;
        Ok(())
    }

    /// Appends one send: this packet goes back to the face `face`, from which an Interest came. The
    /// packet gets the token of that Interest, if there is one.
    pub fn push_back(
        &mut self,
        face: u64,
        token: Option<&[u8]>,
        packet: &[u8],
    ) -> Result<(), Memory>
        requires { IfSome (token_of token) IsToken }
        ensures ok { OnOk result (self.new.sends ≡ self.old.sends
            ++ sent_back face (token_of token.entry) packet.now ∷ []) }
        ensures err { OnErr result (self.new.sends ≡ self.old.sends) }
        // If enough memory is reserved, memory does not run out.
        ensures promised { 1 ≤ self.old.places → length packet.now + LINK_EXTRA ≤ self.old.space
            → IsOk result }
        // `push_back` uses up reserved memory for at most one send.
        ensures room { self.old.places ≤ self.new.places + 1 }
        ensures space { self.old.space ≤ self.new.space + (length packet.now + LINK_EXTRA) }
    {
        self.push_lp(face, token, None, packet)
    }

    /// Appends one send: a Nack with this reason goes to the face `face`. The Nack contains the
    /// octets of an Interest, and has the Interest's token, if there is one.
    pub fn push_nack(
        &mut self,
        face: u64,
        token: Option<&[u8]>,
        reason: u64,
        interest: &[u8],
    ) -> Result<(), Memory>
        requires { IfSome (token_of token) IsToken }
        ensures ok { OnOk result (self.new.sends ≡ self.old.sends
            ++ nacked_back face (token_of token.entry) reason interest.now ∷ []) }
        ensures err { OnErr result (self.new.sends ≡ self.old.sends) }
        // If enough memory is reserved, memory does not run out.
        ensures promised { 1 ≤ self.old.places → length interest.now + LINK_EXTRA ≤ self.old.space
            → IsOk result }
        // `push_nack` uses up reserved memory for at most one send.
        ensures room { self.old.places ≤ self.new.places + 1 }
        ensures space { self.old.space ≤ self.new.space + (length interest.now + LINK_EXTRA) }
    {
        self.push_lp(face, token, Some(reason), interest)
    }

    /// Appends one send: this packet goes to the face `face`. If there is a token or a Nack reason,
    /// the packet is sent in a link packet (NDNLPv2, "Packet Format"). The link packet has the
    /// token, if there is one, and a Nack with the reason, if there is one. If there is neither a
    /// token nor a reason, the packet is sent without a link packet.
    fn push_lp(
        &mut self,
        face: u64,
        token: Option<&[u8]>,
        nack: Option<u64>,
        packet: &[u8],
    ) -> Result<(), Memory>
        requires { IfSome (token_of token) IsToken }
        ensures ok { OnOk result (self.new.sends ≡ self.old.sends
            ++ (face, lp_text (token_of token.entry) nack packet.now) ∷ []) }
        ensures err { OnErr result (self.new.sends ≡ self.old.sends) }
        ensures promised { 1 ≤ self.old.places → length packet.now + LINK_EXTRA ≤ self.old.space
            → IsOk result }
        ensures room { self.old.places ≤ self.new.places + 1 }
        ensures space { self.old.space ≤ self.new.space + (length packet.now + LINK_EXTRA) }
    {
        self.places.reserve(1)?;
        let start = self.octets.len();
        put_lp(&mut self.octets, token, nack, packet)?;
        place(&mut self.places, face, start, self.octets.len())?;
        Ok(())
    }

    /// Appends one send: a reply goes to the face `face`. The reply is a Data with this name and
    /// Content, without MetaInfo, signed with DigestSha256. The reply gets the token of the
    /// Interest that it answers, if there is one.
    pub fn push_reply(
        &mut self,
        face: u64,
        token: Option<&[u8]>,
        name: Name<'_>,
        content: &[u8],
    ) -> Result<(), Memory>
        requires { IfSome (token_of token) IsToken }
        ensures ok { OnOk result (self.new.sends ≡ self.old.sends ++ sent_back face
            (token_of token.entry) (reply_text (components name.entry) content.now) ∷ []) }
        ensures err { OnErr result (self.new.sends ≡ self.old.sends) }
        // If enough memory is reserved, memory does not run out.
        ensures promised { 1 ≤ self.old.places
            → length (reply_text (components name.entry) content.now) + LINK_EXTRA
            ≤ self.old.space → IsOk result }
        // `push_reply` uses up reserved memory for at most one send.
        ensures room { self.old.places ≤ self.new.places + 1 }
        ensures space { self.old.space ≤ self.new.space
            + (length (reply_text (components name.entry) content.now) + LINK_EXTRA) }
    {
        self.places.reserve(1)?;
        let start = self.octets.len();
        put_reply_back(&mut self.octets, token, name, content)?;
        place(&mut self.places, face, start, self.octets.len())?;
        Ok(())
    }

    /// Appends one send for each face in `faces`: these octets go to the face. The octets are
    /// stored once, or not at all if there is no face.
    pub fn push_to_each(&mut self, faces: &Faces, octets: &[u8]) -> Result<(), Memory>
        ensures ok { OnOk result
            (self.new.sends ≡ self.old.sends ++ to_each faces.now octets.now) }
        ensures err { OnErr result (self.new.sends ≡ self.old.sends) }
        // If enough memory is reserved, memory does not run out.
        ensures promised { length faces.now ≤ self.old.places → length octets.now ≤ self.old.space
            → IsOk result }
    {
        let count = faces.len();
        if count == 0 {
            return Ok(());
        }
        self.places.reserve(count)?;
        let start = self.octets.len();
        self.octets.extend_from_slice(octets)?;
        place_each(&mut self.places, faces, start, self.octets.len())?;
        Ok(())
    }

    /// Appends one send for each face in `faces`: the Interest goes to the face. The HopLimit, if
    /// there is one, is decremented, and nothing else in the Interest changes. The octets are
    /// stored once, or not at all if there is no face.
    pub fn push_interest(&mut self, faces: &Faces, interest: &Interest<'_>) -> Result<(), Memory>
        requires hops { interest.now.hop_limit ≢ Some 0 }
        ensures ok { OnOk result (self.new.sends ≡ self.old.sends
            ++ to_each faces.now (sent_on interest.now.whole.now interest.now.hop_limit)) }
        ensures err { OnErr result (self.new.sends ≡ self.old.sends) }
        // If enough memory is reserved, memory does not run out.
        ensures promised { length faces.now ≤ self.old.places
            → length interest.now.whole.now ≤ self.old.space → IsOk result }
    {
        let count = faces.len();
        if count == 0 {
            return Ok(());
        }
        self.places.reserve(count)?;
        let start = self.octets.len();
        put_sent_on(&mut self.octets, interest)?;
        place_each(&mut self.places, faces, start, self.octets.len())?;
        Ok(())
    }

    /// Appends one send for each face in `faces`: the Interest, which the node itself makes, goes
    /// to the face. Appends nothing if the Interest cannot be encoded. The octets are stored once,
    /// or not at all if there is no face.
    pub fn push_fetch(&mut self, faces: &Faces, interest: &InterestWriter<'_>) -> Result<(), Memory>
        ensures ok { OnOk result
            (self.new.sends ≡ self.old.sends ++ fetched faces.now interest.now) }
        ensures err { OnErr result (self.new.sends ≡ self.old.sends) }
        // If enough memory is reserved, memory does not run out.
        ensures promised { length faces.now ≤ self.old.places
            → (interest_refusal interest.now ≡ None
            → length (interest_text interest.now) ≤ self.old.space) → IsOk result }
        // A list of faces has at most `MAX_FACES` faces.
        ensures few { length faces.now ≤ MAX_FACES }
    {
        let count = faces.len();
        if count == 0 {
            return Ok(());
        }
        self.places.reserve(count)?;
        let start = self.octets.len();
        if written(interest.write(&mut self.octets))? {
            place_each(&mut self.places, faces, start, self.octets.len())?;
        }
        Ok(())
    }
}

/// Appends one send: the octets from index `start` up to, but not including, index `end` go to the
/// face `face`. Memory for the send is already reserved.
fn place(places: &mut Vec<Sent>, face: u64, start: usize, end: usize) -> Result<(), Memory>
    requires { vec_len places.old < vec_capacity places.old }
    ensures ok { IsOk result }
    ensures items { places.new.items ≡ places.old.items ++ placed start end face ∷ [] }
    ensures len { vec_len places.new ≡ vec_len places.old + 1 }
    ensures capacity { vec_capacity places.old ≤ vec_capacity places.new }
{
    places.push(Sent { face, start, end })?;
    Ok(())
}

/// Appends one send for each face in `faces`: the octets from index `start` up to, but not
/// including, index `end` go to the face. Memory for these sends is already reserved.
fn place_each(places: &mut Vec<Sent>, faces: &Faces, start: usize, end: usize) -> Result<(), Memory>
    requires { vec_len places.old + length faces.now ≤ vec_capacity places.old }
    ensures ok { IsOk result }
    ensures items { places.new.items ≡ places.old.items ++ map (placed start end) faces.now }
    ensures len { vec_len places.new ≡ vec_len places.old + length faces.now }
    ensures capacity { vec_capacity places.old ≤ vec_capacity places.new }
{
    for i in 0..faces.len() {
        if let Some(face) = faces.get(i) {
            place(places, face, start, end)?;
        }
    }
    Ok(())
}

/// Appends to `out` a reply with this name and Content. The reply gets the token of the Interest
/// that it answers, if there is one. Appends nothing if memory runs out.
fn put_reply_back(
    out: &mut Vec<u8>,
    token: Option<&[u8]>,
    name: Name<'_>,
    content: &[u8],
) -> Result<(), Memory>
    requires { IfSome (token_of token) IsToken }
    ensures ok { OnOk result (out.new.items ≡ out.old.items
        ++ lp_text (token_of token.entry) None (reply_text (components name.entry) content.now)) }
    ensures err { OnErr result (out.new.items ≡ out.old.items) }
    ensures room { vec_len out.old
        + (length (reply_text (components name.entry) content.now) + LINK_EXTRA)
        ≤ vec_capacity out.old → IsOk result }
    ensures capacity { vec_capacity out.old ≤ vec_capacity out.new }
{
    let start = out.len();
    put_reply(out, name, content)?;
    let done = wrap(out, start, token);
    if done.is_err() {
        out.truncate(start);
    }
    done
}

/// Returns whether a packet was written, given the result of writing the packet. The fault `Memory`
/// is returned as an error, and each other fault gives false.
fn written(done: Result<(), WriteFault>) -> Result<bool, Memory>
    ensures ok { IfOk result (λ written. written ≡ is_ok done) }
    ensures other { OnOk result (done ≢ Err WriteFault.Memory) }
    ensures memory { OnErr result (done ≡ Err WriteFault.Memory) }
{
    match done {
        Ok(()) => Ok(true),
        Err(WriteFault::Memory) => Err(Memory),
        Err(_) => Ok(false),
    }
}

/// Appends an Interest to `out`. The HopLimit of the appended Interest, if there is one, is
/// decremented. Appends nothing if memory runs out.
fn put_sent_on(out: &mut Vec<u8>, interest: &Interest<'_>) -> Result<(), Memory>
    requires hops { interest.now.hop_limit ≢ Some 0 }
    ensures ok { OnOk result (out.new.items
        ≡ out.old.items ++ sent_on interest.now.whole.now interest.now.hop_limit) }
    ensures err { OnErr result (out.new.items ≡ out.old.items) }
    ensures room { vec_len out.old + length interest.now.whole.now ≤ vec_capacity out.old
        → IsOk result }
    ensures capacity { vec_capacity out.old ≤ vec_capacity out.new }
{
    let start = out.len();
    out.extend_from_slice(interest.whole)?;
    if let Some(limit) = interest.hop_limit {
        let (_, copy) = out.as_mut_slice().split_at_mut(start);
        set_hop_limit(copy, limit - 1);
    }
    Ok(())
}

/// Sets the HopLimit of the Interest in `octets` to `limit`. The Interest must have a HopLimit.
fn set_hop_limit(octets: &mut [u8], limit: u8)
    requires { ∥ ((old : ℕ) × HasHopLimit octets.old old) ∥₁ }
    ensures { octets.new ≡ with_octet octets.old limit }
{
    if let Some(place) = hop_limit_mut(octets) {
        *place = limit;
    }
}
