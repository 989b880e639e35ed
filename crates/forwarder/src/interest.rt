ghost use Rattle.std.specs.Prelude.{◌≡◌, ◌≢◌, ◌+◌, ◌≤◌, ◌++◌, ◌∷◌, [], ℕ, true, false, length, max, All, None, Some, Ok, IfOk, IfSome, IsOk, IsSome};
ghost use Rattle.content_store.specs.Store.{CachedData, CanServe, IsLeast};
ghost use Rattle.ndn_packets.specs.Key.{key_of};
ghost use Rattle.ndn_packets.specs.Link.{IsToken};
ghost use Rattle.ndn_packets.specs.View.{plain_interest};
ghost use Rattle.ndn_packets.specs.Writing.{AreOctets};
ghost use Rattle.pit_fib.specs.Cause.{Arrives};
ghost use Rattle.pit_fib.specs.FaceSet.{has_face};
ghost use Rattle.pit_fib.specs.Pit.{loops, token_len};
ghost use Rattle.pit_fib.specs.Records.{HoldsTheLiving, is_alive, records_at};
ghost use Rattle.repo_core.specs.Objects.{served};
ghost use Rattle.strategies.specs.declared.strategy.Choice.TheVariants as choices;
ghost use Rattle.forwarder.specs.Causes.{sent_causes};
ghost use Rattle.forwarder.specs.Event.{nacked_back};
ghost use Rattle.forwarder.specs.OpenFaces.{is_open};
ghost use Rattle.forwarder.specs.Forwarding.{ForwardsBy, choice_from};
ghost use Rattle.forwarder.specs.Handling.{AwaitsPacket, HandlesPacket, interest_packet, token_of};
ghost use Rattle.forwarder.specs.Node.{FollowAll, NeedsNoMemory};
ghost use Rattle.forwarder.specs.Request.{ForData, request_of};
ghost use Rattle.forwarder.specs.State.{IsSound, policy_of, state_of};

use crate::arrived::Arrived;
use crate::request::{NamedRequest, has_no_hops, named_request};
use crate::sends::{LINK_EXTRA, Sends};
use crate::state::State;
use crate::verdict::{DropReason, Verdict};
use ndn_packets::{DUPLICATE, Interest, MAX_PACKET, NO_ROUTE};
use ndn_tlv::Memory;
use pit_fib::{Faces, MAX_FACES, PitFault};
use strategies::Choice;

impl State {
    /// Handles an Interest (NFD Developer's Guide, "Incoming Interest Pipeline").
    pub fn receive_interest(
        &mut self,
        arrived: &Arrived<'_, Interest<'_>>,
        out: &mut Sends,
    ) -> Result<Verdict, Memory>
        requires ready { AwaitsPacket self.old arrived.now.face (token_of arrived.now.token) }
        ensures handles { HandlesPacket self.old self.new out.old.sends out.new.sends
            arrived.now.face (token_of arrived.now.token) arrived.now.moment
            (interest_packet arrived.now.packet.now) result }
        ensures without_memory { NeedsNoMemory (policy_of self.old) arrived.now.face
            (Ok (interest_packet arrived.now.packet.now)) → IsOk result }
    {
        if has_no_hops(arrived.packet) {
            return Ok(self.drop_packet(arrived.moment, DropReason::HopLimit));
        }
        if self.is_out_of_scope(arrived.face, arrived.packet.name) {
            return Ok(self.drop_packet(arrived.moment, DropReason::Scope));
        }
        match named_request(&self.repo, arrived.packet) {
            NamedRequest::ForList(asked) => self.send_list(arrived, asked, out),
            NamedRequest::ForData => self.answer(arrived, out),
            command => self.receive_command(arrived, command, out),
        }
    }

    /// Handles an Interest for Data. If the Interest loops, sends a Nack back. Otherwise, if the
    /// cache or the repository has a Data for the Interest, sends this Data back. If neither has
    /// such a Data, handles the Interest as `miss` specifies. Looks for the Data in the cache and
    /// the repository before a PIT record is prepared, since an answer from the cache or the
    /// repository needs no PIT record.
    fn answer(
        &mut self,
        arrived: &Arrived<'_, Interest<'_>>,
        out: &mut Sends,
    ) -> Result<Verdict, Memory>
        requires ready { AwaitsPacket self.old arrived.now.face (token_of arrived.now.token) }
        requires for_data { request_of (policy_of self.old) arrived.now.face
            (plain_interest arrived.now.packet.now) ≡ ForData }
        requires hops { arrived.now.packet.now.hop_limit ≢ Some 0 }
        ensures { HandlesPacket self.old self.new out.old.sends out.new.sends
            arrived.now.face (token_of arrived.now.token) arrived.now.moment
            (interest_packet arrived.now.packet.now) result }
    {
        let interest = arrived.packet;
        let now = self.now.max(arrived.moment);
        if let Some(place) = self.tables.store.place_for(interest.key(), now) {
            return self.serve_cached(arrived, place, out);
        }
        if self.repo.serve(interest).is_some() {
            return self.serve_stored(arrived, out);
        }
        self.miss(arrived, out)
    }

    /// Answers an Interest with a Data from the cache (NFD Developer's Guide, "Content Store Hit
    /// Pipeline"), or with a Nack if the Interest loops. `place` is the position that
    /// `Store::place_for` returned for the Interest's key.
    fn serve_cached(
        &mut self,
        arrived: &Arrived<'_, Interest<'_>>,
        place: usize,
        out: &mut Sends,
    ) -> Result<Verdict, Memory>
        requires ready { AwaitsPacket self.old arrived.now.face (token_of arrived.now.token) }
        requires for_data { request_of (policy_of self.old) arrived.now.face
            (plain_interest arrived.now.packet.now) ≡ ForData }
        requires held { (c : CachedData)
            × IsLeast (CanServe (key_of (plain_interest arrived.now.packet.now))
            (max self.old.now arrived.now.moment)) self.old.tables.store.cached c }
        ensures { HandlesPacket self.old self.new out.old.sends out.new.sends
            arrived.now.face (token_of arrived.now.token) arrived.now.moment
            (interest_packet arrived.now.packet.now) result }
    {
        out.reserve(1, MAX_PACKET + LINK_EXTRA)?;
        self.pass_time(arrived.moment);
        if self.nack_loop(arrived, out)? {
            return Ok(Verdict::Dropped(DropReason::Loop));
        }
        let key = arrived.packet.key();
        let Some(octets) = self.tables.store.serve_at(place, key, self.now) else {
            unreachable!()
        };
        out.push_back(arrived.face, arrived.token, octets)?;
        Ok(Verdict::Passed)
    }

    /// Answers an Interest with an object of the repository, or with a Nack if the Interest loops.
    fn serve_stored(
        &mut self,
        arrived: &Arrived<'_, Interest<'_>>,
        out: &mut Sends,
    ) -> Result<Verdict, Memory>
        requires ready { AwaitsPacket self.old arrived.now.face (token_of arrived.now.token) }
        requires for_data { request_of (policy_of self.old) arrived.now.face
            (plain_interest arrived.now.packet.now) ≡ ForData }
        requires uncached { All (λ c. ¬ CanServe (key_of (plain_interest arrived.now.packet.now))
            (max self.old.now arrived.now.moment) c) self.old.tables.store.cached }
        requires stored { IsSome (served (plain_interest arrived.now.packet.now).name
            (plain_interest arrived.now.packet.now).can_be_prefix self.old.repo.held.objects) }
        ensures { HandlesPacket self.old self.new out.old.sends out.new.sends
            arrived.now.face (token_of arrived.now.token) arrived.now.moment
            (interest_packet arrived.now.packet.now) result }
    {
        out.reserve(1, MAX_PACKET + LINK_EXTRA)?;
        self.pass_time(arrived.moment);
        if self.nack_loop(arrived, out)? {
            return Ok(Verdict::Dropped(DropReason::Loop));
        }
        let Some(octets) = self.repo.serve(arrived.packet) else {
            unreachable!()
        };
        out.push_back(arrived.face, arrived.token, octets)?;
        Ok(Verdict::Passed)
    }

    /// Handles an Interest that neither the cache nor the repository answers (NFD Developer's
    /// Guide, "Content Store Miss Pipeline"). Sends a Nack back if the Interest loops, or if no
    /// next hop may get the Interest. Otherwise forwards the Interest, or drops it if its key is
    /// not in the PIT and the PIT is full.
    fn miss(
        &mut self,
        arrived: &Arrived<'_, Interest<'_>>,
        out: &mut Sends,
    ) -> Result<Verdict, Memory>
        requires ready { AwaitsPacket self.old arrived.now.face (token_of arrived.now.token) }
        requires for_data { request_of (policy_of self.old) arrived.now.face
            (plain_interest arrived.now.packet.now) ≡ ForData }
        requires hops { arrived.now.packet.now.hop_limit ≢ Some 0 }
        requires uncached { All (λ c. ¬ CanServe (key_of (plain_interest arrived.now.packet.now))
            (max self.old.now arrived.now.moment) c) self.old.tables.store.cached }
        requires unstored { served (plain_interest arrived.now.packet.now).name
            (plain_interest arrived.now.packet.now).can_be_prefix self.old.repo.held.objects
            ≡ None }
        ensures { HandlesPacket self.old self.new out.old.sends out.new.sends
            arrived.now.face (token_of arrived.now.token) arrived.now.moment
            (interest_packet arrived.now.packet.now) result }
    {
        let interest = arrived.packet;
        self.pit
            .prepare(interest.key(), kept_len(interest, arrived.token))?;
        out.reserve(MAX_FACES, MAX_PACKET + LINK_EXTRA)?;
        self.pass_time(arrived.moment);
        if self.nack_loop(arrived, out)? {
            return Ok(Verdict::Dropped(DropReason::Loop));
        }
        self.forward(arrived.face, arrived.token, interest, out)
    }

    /// Sends a Nack back if an Interest loops (NFD Developer's Guide, "Interest Loop Pipeline"),
    /// and returns whether the Interest loops. Memory for the Nack is already reserved.
    fn nack_loop(
        &self,
        arrived: &Arrived<'_, Interest<'_>>,
        out: &mut Sends,
    ) -> Result<bool, Memory>
        requires is_token { IfSome (token_of arrived.now.token) IsToken }
        requires places { 1 ≤ out.old.places }
        requires space { length arrived.now.packet.now.whole.now + LINK_EXTRA ≤ out.old.space }
        ensures ok { IsOk result }
        ensures found { IfOk result (λ is_loop. is_loop
            ≡ loops (records_at self.entry.now.pit.pending
            (key_of (plain_interest arrived.now.packet.now))) arrived.now.face
            (plain_interest arrived.now.packet.now).nonce) }
        ensures sent { result ≡ Ok true → out.new.sends ≡ out.old.sends
            ++ nacked_back arrived.now.face (token_of arrived.now.token) DUPLICATE
            arrived.now.packet.now.whole.now ∷ [] }
        ensures same { result ≡ Ok false → out.new ≡ out.old }
    {
        let interest = arrived.packet;
        if !self.pit.loops(interest.key(), arrived.face, interest.nonce) {
            return Ok(false);
        }
        out.push_nack(arrived.face, arrived.token, DUPLICATE, interest.whole)?;
        Ok(true)
    }

    /// Forwards an Interest, which neither the cache nor the repository answers, to the faces that
    /// the strategy of its name chooses. If no next hop may get the Interest, sends a Nack back,
    /// and removes the in-record of the incoming face `face` under the Interest's key, if there is
    /// one (and the key's out-records, if no in-record of the key is left). Otherwise drops the
    /// Interest if its key is not in the PIT and the PIT is full.
    fn forward(
        &mut self,
        face: u64,
        token: Option<&[u8]>,
        interest: &Interest<'_>,
        out: &mut Sends,
    ) -> Result<Verdict, Memory>
        requires sound { IsSound (state_of self.old) }
        requires from { is_open face self.old.faces ≡ true }
        requires hops { interest.now.hop_limit ≢ Some 0 }
        requires prepared { self.old.pit.prepared
            ≡ Some (
              key_of (plain_interest interest.now),
              Some (length interest.now.whole.now + token_len (token_of token)),
            ) }
        requires is_token { IfSome (token_of token) IsToken }
        requires octets { IfSome (token_of token) AreOctets }
        requires places { MAX_FACES ≤ out.old.places }
        requires space { length interest.now.whole.now + LINK_EXTRA ≤ out.old.space }
        ensures ok { IsOk result }
        ensures forwards { IfOk result (ForwardsBy self.old self.new out.old.sends out.new.sends
            face (token_of token.entry) interest.now.whole.now (plain_interest interest.now)
            (choice_from (state_of self.old) face (plain_interest interest.now))) }
    {
        let key = interest.key();
        let used = self.pit.used(key);
        match self.choose(interest.name, &used, self.ask_from(face, interest)) {
            Choice::NoRoute => {
                self.pit.withdraw(key, face);
                out.push_nack(face, token, NO_ROUTE, interest.whole)?;
                Ok(Verdict::Passed)
            }
            Choice::Send(faces) => self.send_on(face, token, interest, &faces, out),
        }
    }

    /// Drops the Interest if its key is not in the PIT and the PIT is full. Otherwise adds or
    /// replaces the in-record of the incoming face `face`, and forwards the Interest to `faces`.
    fn send_on(
        &mut self,
        face: u64,
        token: Option<&[u8]>,
        interest: &Interest<'_>,
        faces: &Faces,
        out: &mut Sends,
    ) -> Result<Verdict, Memory>
        requires sound { IsSound (state_of self.old) }
        requires from { is_open face self.old.faces ≡ true }
        requires hops { interest.now.hop_limit ≢ Some 0 }
        requires chosen { choice_from (state_of self.old) face (plain_interest interest.now)
            ≡ choices.Send faces.now }
        requires prepared { self.old.pit.prepared
            ≡ Some (
              key_of (plain_interest interest.now),
              Some (length interest.now.whole.now + token_len (token_of token)),
            ) }
        requires is_token { IfSome (token_of token) IsToken }
        requires places { MAX_FACES ≤ out.old.places }
        requires space { length interest.now.whole.now + LINK_EXTRA ≤ out.old.space }
        ensures ok { IsOk result }
        ensures forwards { IfOk result (ForwardsBy self.old self.new out.old.sends out.new.sends
            face (token_of token.entry) interest.now.whole.now (plain_interest interest.now)
            (choices.Send faces.now)) }
    {
        let key = interest.key();
        let deadline = self.now.saturating_add(interest.lifetime);
        match self
            .pit
            .arrive(key, face, interest.nonce, interest.whole, deadline, token)
        {
            Ok(()) => {}
            Err(PitFault::PitFull) => return Ok(Verdict::Dropped(DropReason::PitFull)),
            Err(PitFault::Memory) => return Err(Memory),
        }
        self.record_sent(interest, faces)?;
        out.push_interest(faces, interest)?;
        Ok(Verdict::Passed)
    }

    /// Records in the PIT that the Interest is sent to each of these faces at the moment
    /// `self.now`.
    fn record_sent(&mut self, interest: &Interest<'_>, faces: &Faces) -> Result<(), Memory>
        requires alive { is_alive (records_at self.old.pit.pending
            (key_of (plain_interest interest.now))) ≡ true }
        requires sound { IsSound (state_of self.old) }
        requires known { (f : ℕ) → has_face f faces.now ≡ true
            → is_open f self.old.faces ≡ true }
        requires prepared { self.old.pit.prepared
            ≡ Some (key_of (plain_interest interest.now), None) }
        ensures ok { IsOk result }
        ensures pending { FollowAll (sent_causes (key_of (plain_interest interest.now))
            (plain_interest interest.now).nonce self.old.now faces.now)
            self.old.pit.pending self.new.pit.pending }
        ensures living { HoldsTheLiving self.old.pit.pending → HoldsTheLiving self.new.pit.pending }
        ensures rest { self.new ≡ record self.old { pit = self.new.pit } }
    {
        for i in 0..faces.len() {
            if let Some(face) = faces.get(i) {
                self.pit
                    .sent(interest.key(), face, interest.nonce, self.now)?;
            }
        }
        Ok(())
    }
}

/// Returns the length of an Interest in octets, plus the length of its token, if there is one.
fn kept_len(interest: &Interest<'_>, token: Option<&[u8]>) -> usize
    requires { IfSome (token_of token) IsToken }
    ensures { result ≡ length interest.now.whole.now + token_len (token_of token.entry) }
{
    interest.whole.len() + token.map_or(0, |token| token.len())
}
