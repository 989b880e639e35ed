ghost use Rattle.std.specs.Prelude.{◌≡◌, ◌↔◌, List, [], ◌∷◌, ◌++◌, length, map, slice_get, IsTrue, OnOk, OnErr};
ghost use Rattle.std.specs.Option.{option_map};

use crate::sends::Sends;
use ndn_tlv::Memory;
use std::alloc::Global;
use std::marker::Model;

/// The packets to send, in order. Each packet has its octets and the number of the face that it is
/// sent to.
#[derive(Drop)]
pub struct Outbox {
    pub(crate) sends: Sends,
}

impl Model for Outbox {
    ghost use Rattle.std.specs.Prelude.{List};
    ghost use Rattle.forwarder.specs.Event.{Send};

    ghost Value = { List Send };

    ghost view = { λ o. o.sends.sends };
}

impl Outbox {
    /// Returns an outbox with no sends.
    pub fn new(alloc: Global) -> Outbox
        ensures { result ≡ [] }
    {
        Outbox {
            sends: Sends::new(alloc),
        }
    }

    /// Returns the number of sends.
    pub fn len(&self) -> usize
        ensures { result ≡ length self.now }
    {
        self.sends.len()
    }

    /// Returns whether there are no sends.
    pub fn is_empty(&self) -> bool
        ensures { IsTrue result ↔ (self.now ≡ []) }
    {
        self.sends.is_empty()
    }

    /// Returns the face and the octets of the send at index `i`, or `None` if there are `i` or
    /// fewer sends.
    pub fn sent(&self, i: usize) -> Option<(u64, &[u8])>
        ensures { option_map (λ sent. (sent.0, sent.1.now)) result ≡ slice_get self.now i }
    {
        self.sends.sent(i)
    }

    /// Appends one send: these octets go to the face `face`. If memory runs out, the sends do not
    /// change.
    pub fn push(&mut self, face: u64, octets: &[u8]) -> Result<(), Memory>
        ensures ok { OnOk result (self.new ≡ self.old ++ (face, octets.now) ∷ []) }
        ensures err { OnErr result (self.new ≡ self.old) }
    {
        self.sends.push(face, octets)
    }

    /// Removes all sends and their octets. Their memory stays reserved.
    pub fn clear(&mut self)
        ensures { self.new ≡ [] }
    {
        self.sends.clear();
    }
}
