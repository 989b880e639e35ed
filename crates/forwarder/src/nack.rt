ghost use Rattle.std.specs.Prelude.{◌≡◌, ◌+◌, ◌++◌, ◌≤◌, ℕ, true, Ok, IfOk, IsOk, IsSome};
ghost use Rattle.std.specs.FinMap as map;
ghost use Rattle.ndn_packets.specs.Key.{plain_key};
ghost use Rattle.ndn_packets.specs.Packet.{ANack};
ghost use Rattle.ndn_packets.specs.View.{plain_interest};
ghost use Rattle.forwarder.specs.OpenFaces.{is_open, numbers};
ghost use Rattle.forwarder.specs.Handling.{AwaitsPacket, HandlesPacket, token_of};
ghost use Rattle.forwarder.specs.NackRoom.{in_records_at, nack_room};
ghost use Rattle.forwarder.specs.Node.{NeedsNoMemory};
ghost use Rattle.forwarder.specs.Replies.{nacks_to};
ghost use Rattle.forwarder.specs.State.{policy_of};

use crate::arrived::Arrived;
use crate::sends::{LINK_EXTRA, Sends};
use crate::state::State;
use crate::verdict::{DropReason, Verdict};
use ndn_packets::{Interest, Key};
use ndn_tlv::Memory;
use pit_fib::{MAX_FACES, Nacked};

impl State {
    /// Handles a Nack (NFD Developer's Guide, "Incoming Nack Pipeline"). The key of a Nack is the
    /// key of the Interest in the Nack. Drops the Nack if the Nack is out of scope, or if the face
    /// that the Nack came on has no out-record with the key and Nonce of the Interest in the Nack.
    /// Otherwise records the Nack's reason in the out-record. If each out-record of the key now has
    /// the reason of a received Nack, sends a Nack with the least of these reasons to each face
    /// with an in-record of the key, and removes all records of the key.
    pub fn receive_nack(
        &mut self,
        reason: u64,
        arrived: &Arrived<'_, Interest<'_>>,
        out: &mut Sends,
    ) -> Result<Verdict, Memory>
        requires ready { AwaitsPacket self.old arrived.now.face (token_of arrived.now.token) }
        ensures handles { HandlesPacket self.old self.new out.old.sends out.new.sends
            arrived.now.face (token_of arrived.now.token) arrived.now.moment
            (ANack reason arrived.now.packet.now.whole.now
            (plain_interest arrived.now.packet.now)) result }
        ensures without_memory { NeedsNoMemory (policy_of self.old) arrived.now.face
            (Ok (ANack reason arrived.now.packet.now.whole.now
            (plain_interest arrived.now.packet.now))) → IsOk result }
    {
        let interest = arrived.packet;
        if self.is_out_of_scope(arrived.face, interest.name) {
            return Ok(self.drop_packet(arrived.moment, DropReason::Scope));
        }
        let key = interest.key();
        let room = self.nack_room(key)?;
        out.reserve(MAX_FACES, room)?;
        self.pass_time(arrived.moment);
        match self.pit.nacked(key, arrived.face, interest.nonce, reason) {
            Nacked::NoPending => Ok(Verdict::Dropped(DropReason::NoPending)),
            Nacked::Waiting => Ok(Verdict::Passed),
            Nacked::All(least) => {
                self.push_nacks(key, least, out)?;
                self.pit.remove(key);
                Ok(Verdict::Passed)
            }
        }
    }

    /// Returns a number of octets that is enough for the Nacks to all open faces with an in-record
    /// of the key `key`.
    fn nack_room(&self, key: Key<'_>) -> Result<usize, Memory>
        ensures { IfOk result (λ room. room
            ≡ nack_room (in_records_at self.entry.now.pit.pending (plain_key key.entry))
            (numbers self.entry.now.faces)) }
    {
        let mut room = 0usize;
        for i in 0..self.faces.len() {
            let Some(face) = self.faces.get(i) else {
                continue;
            };
            if let Some(octets) = self.pit.interest_of(key, face) {
                room = room_with(room, octets.len())?;
            }
        }
        Ok(room)
    }

    /// Sends a Nack with this reason to each face with an in-record of the key. Each Nack contains
    /// the Interest of the face's in-record, and has the token of this in-record, if there is one.
    /// Memory for the Nacks is already reserved.
    fn push_nacks(&self, key: Key<'_>, reason: u64, out: &mut Sends) -> Result<(), Memory>
        requires known { (f : ℕ)
            → IsSome (map.get (in_records_at self.now.pit.pending (plain_key key)) f)
            → is_open f self.now.faces ≡ true }
        requires places { MAX_FACES ≤ out.old.places }
        requires space { nack_room (in_records_at self.now.pit.pending (plain_key key))
            (numbers self.now.faces) ≤ out.old.space }
        ensures ok { IsOk result }
        ensures sends { out.new.sends ≡ out.old.sends
            ++ nacks_to (in_records_at self.entry.now.pit.pending (plain_key key.entry)) reason }
    {
        for i in 0..self.faces.len() {
            let Some(face) = self.faces.get(i) else {
                continue;
            };
            if let Some(octets) = self.pit.interest_of(key, face) {
                out.push_nack(face, self.pit.token_of(key, face), reason, octets)?;
            }
        }
        Ok(())
    }
}

/// Returns `room` plus a number of octets that is enough for one more Nack. The Interest in this
/// Nack has the length `octets`. Returns `Memory` if the sum overflows.
fn room_with(room: usize, octets: usize) -> Result<usize, Memory>
    ensures { IfOk result (λ sum. sum ≡ room + (octets + LINK_EXTRA)) }
{
    let more = octets.checked_add(LINK_EXTRA).ok_or(Memory)?;
    room.checked_add(more).ok_or(Memory)
}
