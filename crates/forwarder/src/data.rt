ghost use Rattle.std.specs.Prelude.{◌≡◌, ◌≤◌, ◌++◌, true, false, All, List, length, Ok, IfOk, IsOk};
ghost use Rattle.sha2.specs.Sha256.{sha256};
ghost use Rattle.ndn_names.specs.View.{components};
ghost use Rattle.ndn_packets.specs.View.{plain_data};
ghost use Rattle.info_rules.specs.declared.decision.Decision.TheVariants as said;
ghost use Rattle.pit_fib.specs.Cause.{Satisfied, Follows};
ghost use Rattle.pit_fib.specs.Records.{HoldsTheLiving, records_at};
ghost use Rattle.pit_fib.specs.Tokens.{HaveNoTokens, IsTokenFor};
ghost use Rattle.repo_core.specs.Repo.{IsOfferPrepared, after_offer};
ghost use Rattle.repo_core.specs.Wants.{is_wanted};
ghost use Rattle.forwarder.specs.Event.{Send};
ghost use Rattle.forwarder.specs.Handling.{AwaitsPacket, HandlesPacket, data_packet, seen_by, token_of};
ghost use Rattle.forwarder.specs.Cache.{CacheAfter, Inserts, held_from};
ghost use Rattle.forwarder.specs.Node.{NeedsNoMemory};
ghost use Rattle.forwarder.specs.Policy.{Policy};
ghost use Rattle.forwarder.specs.Replies.{Askers, IsSentToAskers, faces_of, sent_to};
ghost use Rattle.forwarder.specs.Request.{is_out_of_scope};
ghost use Rattle.forwarder.specs.Deciding.{IsDecidedAs};
ghost use Rattle.forwarder.specs.SendSpace.{room_for_data};
ghost use Rattle.forwarder.specs.State.{policy_of, state_of};

use crate::arrived::Arrived;
use crate::freshness::decide_data;
use crate::open_faces::without_face;
use crate::sends::{LINK_EXTRA, Sends};
use crate::state::State;
use crate::verdict::{DropReason, Verdict};
use info_rules::{Decision, Kind, RuleNo};
use ndn_packets::Data;
use ndn_tlv::Memory;
use pit_fib::{Faces, MAX_FACES};

impl State {
    /// Handles a Data (NFD Developer's Guide, "Incoming Data Pipeline"). A Data out of scope is
    /// dropped. Any other Data that the rules allow is sent, without changes, to each face with a
    /// pending Interest for the Data, except the incoming face. This Data is offered to the cache
    /// if at least one face, possibly the incoming face, has a pending Interest for the Data. The
    /// pending Interests that the Data answers are removed. If the repository wants the Data, the
    /// repository stores the Data and removes the pending inserts that the Data answers.
    pub fn receive_data(
        &mut self,
        arrived: &Arrived<'_, Data<'_>>,
        out: &mut Sends,
    ) -> Result<Verdict, Memory>
        requires ready { AwaitsPacket self.old arrived.now.face (token_of arrived.now.token) }
        ensures handles { HandlesPacket self.old self.new out.old.sends out.new.sends
            arrived.now.face (token_of arrived.now.token) arrived.now.moment
            (data_packet arrived.now.packet.now) result }
        ensures without_memory { NeedsNoMemory (policy_of self.old) arrived.now.face
            (Ok (data_packet arrived.now.packet.now)) → IsOk result }
    {
        if self.is_out_of_scope(arrived.face, arrived.packet.name) {
            return Ok(self.drop_packet(arrived.moment, DropReason::Scope));
        }
        match decide_data(self.alloc, &self.rules, &self.keys, arrived.packet)? {
            Decision::Allowed(rule) => self.receive_allowed(arrived, rule, out),
            Decision::Denied(rule, reason) => {
                self.pass_time(arrived.moment);
                Ok(Verdict::Denied(Kind::Data, rule, reason))
            }
            Decision::NoRule => {
                self.pass_time(arrived.moment);
                Ok(Verdict::NoRule(Kind::Data))
            }
        }
    }

    /// Reserves memory for the sends of an allowed Data, prepares the repository to store the Data,
    /// advances time, and delivers the Data.
    fn receive_allowed(
        &mut self,
        arrived: &Arrived<'_, Data<'_>>,
        rule: RuleNo,
        out: &mut Sends,
    ) -> Result<Verdict, Memory>
        requires scope { is_out_of_scope (policy_of self.old) arrived.now.face
            (components arrived.now.packet.now.name) ≡ false }
        requires allowed { (p : Policy) → p.rules ≡ self.old.rules → p.keys ≡ self.old.keys
            → IsDecidedAs p (data_packet arrived.now.packet.now) (said.Allowed rule) }
        ensures { HandlesPacket self.old self.new out.old.sends out.new.sends
            arrived.now.face (token_of arrived.now.token) arrived.now.moment
            (data_packet arrived.now.packet.now) result }
    {
        let with_tokens = self.pit.has_tokens();
        self.repo.prepare_offer(arrived.packet)?;
        out.reserve(MAX_FACES, data_room(arrived.packet, with_tokens))?;
        self.pass_time(arrived.moment);
        let stored = self.deliver(arrived.face, arrived.packet, with_tokens, out)?;
        Ok(Verdict::DataAllowed { rule, stored })
    }

    /// Sends an allowed Data to each face with a pending Interest for the Data, except `face`, from
    /// which the Data came. Removes all in-records and out-records of the keys that the Data
    /// answers. If at least one face had a pending Interest for the Data, offers the Data to the
    /// cache, which does not store the Data if memory runs out. Stores the Data in the repository
    /// if the repository wants the Data, and returns whether it does. `with_tokens` must be true if
    /// some pending Interest has a token. Never fails: memory for 64 sends and their octets is
    /// already reserved, and the offer to the repository is prepared.
    fn deliver(
        &mut self,
        face: u64,
        packet: &Data<'_>,
        with_tokens: bool,
        out: &mut Sends,
    ) -> Result<bool, Memory>
        requires tokens { with_tokens ≡ false → HaveNoTokens self.old.pit.pending }
        requires places { MAX_FACES ≤ out.old.places }
        requires space { room_for_data packet.now.whole.now with_tokens ≤ out.old.space }
        requires prepared { IsOfferPrepared self.old.repo (components packet.now.name)
            (sha256 packet.now.whole.now) packet.now.whole.now }
        ensures ok { IsOk result }
        ensures stored { IfOk result (λ stored. stored ≡ is_wanted (components packet.now.name)
            (sha256 packet.now.whole.now) self.old.repo.held.wants) }
        ensures sends { (sends : List Send) × (out.new.sends ≡ out.old.sends ++ sends)
            × IsSentToAskers (seen_by (state_of self.old)) face packet.now.whole.now
            (plain_data packet.now) sends }
        ensures policy { policy_of self.new ≡ record (policy_of self.old) {
          held = after_offer (components packet.now.name) (sha256 packet.now.whole.now)
              packet.now.whole.now self.old.repo.held;
        } }
        ensures pending { Follows (Satisfied (components packet.now.name)
            (sha256 packet.now.whole.now)) self.old.pit.pending self.new.pit.pending }
        ensures living { HoldsTheLiving self.new.pit.pending }
        ensures cache { CacheAfter self.old.now self.old.pit.pending
            (Inserts (held_from self.old.now packet.now.whole.now (plain_data packet.now)))
            self.old.tables.store self.new.tables.store }
    {
        if with_tokens {
            self.send_with_tokens(face, packet, out)?;
        }
        let askers = self.pit.satisfy(packet);
        if !with_tokens {
            out.push_to_each(&without_face(&askers, face), packet.whole)?;
        }
        if askers.len() > 0 {
            self.tables.store.put(packet, self.now);
        }
        self.repo.offer(packet)
    }

    /// Sends a Data to each face with a pending Interest for the Data, except `face`, from which
    /// the Data came. Each face gets the token of its Interest, if there is one. If the Data
    /// answers several Interests of a face, the face gets the token of the Interest with the latest
    /// deadline (see `Pit::token_for`).
    fn send_with_tokens(&self, face: u64, packet: &Data<'_>, out: &mut Sends) -> Result<(), Memory>
        requires places { MAX_FACES ≤ out.old.places }
        requires space { room_for_data packet.now.whole.now true ≤ out.old.space }
        ensures ok { IsOk result }
        ensures sends { (sends : List Send) × (out.new.sends ≡ out.old.sends ++ sends)
            × IsSentToAskers (seen_by (state_of self.entry.now)) face packet.now.whole.now
            (plain_data packet.now) sends }
    {
        let askers = self.pit.askers(packet);
        self.push_with_tokens(&without_face(&askers, face), packet, out)
    }

    /// Sends a Data to each of these faces. Each face gets the token of its Interest, if there is
    /// one. If the Data answers several Interests of a face, the face gets the token of the
    /// Interest with the latest deadline (see `Pit::token_for`).
    fn push_with_tokens(
        &self,
        faces: &Faces,
        packet: &Data<'_>,
        out: &mut Sends,
    ) -> Result<(), Memory>
        requires places { MAX_FACES ≤ out.old.places }
        requires space { room_for_data packet.now.whole.now true ≤ out.old.space }
        ensures ok { IsOk result }
        ensures sends { (askers : Askers) × (faces_of askers ≡ faces.now)
            × All (λ a. IsTokenFor (records_at self.entry.now.pit.pending)
            (components packet.now.name) (sha256 packet.now.whole.now) a.0 a.1) askers
            × (out.new.sends ≡ out.old.sends ++ sent_to askers packet.now.whole.now) }
    {
        for i in 0..faces.len() {
            if let Some(face) = faces.get(i) {
                let token = self.pit.token_for(packet, face);
                out.push_back(face, token, packet.whole)?;
            }
        }
        Ok(())
    }
}

/// Returns a number of octets that is enough to send a Data to all faces that asked for the Data.
/// With tokens, each face may need its own link packet. Without tokens, all faces share one copy.
fn data_room(packet: &Data<'_>, with_tokens: bool) -> usize
    ensures { result ≡ room_for_data packet.now.whole.now with_tokens }
{
    if with_tokens {
        MAX_FACES * (packet.whole.len() + LINK_EXTRA)
    } else {
        packet.whole.len()
    }
}
