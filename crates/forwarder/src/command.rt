ghost use Rattle.std.specs.Prelude.{◌≡◌, ◌≤◌, ◌++◌, ◌∷◌, [], true, Some, Ok, Err, IfOk, IfSome, IsOk, OnErr, OnOk};
ghost use Rattle.ndn_names.specs.View.{components};
ghost use Rattle.ndn_packets.specs.Link.{IsToken};
ghost use Rattle.ndn_packets.specs.View.{plain_interest};
ghost use Rattle.mgmt_core.specs.Reading.{asked, command_at};
ghost use Rattle.replay_guard.specs.Guard.{IsPrepared};
ghost use Rattle.forwarder.specs.CommandStep.{IsCarriedOut};
ghost use Rattle.forwarder.specs.Commands.{fetch_sends, refused_content, replied};
ghost use Rattle.forwarder.specs.Handling.{AwaitsPacket, HandlesPacket, interest_packet, token_of};
ghost use Rattle.forwarder.specs.Request.{ForRepository, ForTables, is_command, request_named, request_of};
ghost use Rattle.forwarder.specs.Deciding.{recorded_of};
ghost use Rattle.forwarder.specs.State.{IsLater, IsSound, policy_of, state_of};

use crate::arrived::Arrived;
use crate::denial::{denial_text, put_refusal};
use crate::freshness::{decide_command, prepare_record, record};
use crate::reply::{put_repo_status, put_status, reply_room};
use crate::request::NamedRequest;
use crate::sends::Sends;
use crate::state::State;
use crate::verdict::Verdict;
use info_rules::{Decision, Kind, RuleNo};
use mgmt_core::{Command, apply};
use ndn_packets::{Interest, InterestWriter, MAX_PACKET};
use ndn_tlv::Memory;
use pit_fib::{MAX_FACES, Used};
use repo_core::{MAX_REPLY_LEN, RepoReply};
use strategies::Choice;

impl State {
    /// Handles a command on routes, strategies or the cache, or a command to the repository (NFD
    /// Management, "Control Command"). Every command is answered, unless memory runs out. A command
    /// takes effect only if it is fresh and the rules allow it.
    pub fn receive_command(
        &mut self,
        arrived: &Arrived<'_, Interest<'_>>,
        request: NamedRequest,
        out: &mut Sends,
    ) -> Result<Verdict, Memory>
        requires ready { AwaitsPacket self.old arrived.now.face (token_of arrived.now.token) }
        requires request { request_of (policy_of self.old) arrived.now.face
            (plain_interest arrived.now.packet.now) ≡ request_named request }
        requires command { is_command (request_named request) ≡ true }
        ensures { HandlesPacket self.old self.new out.old.sends out.new.sends
            arrived.now.face (token_of arrived.now.token) arrived.now.moment
            (interest_packet arrived.now.packet.now) result }
    {
        let moment = self.now.max(arrived.moment);
        match decide_command(
            self.alloc,
            &self.rules,
            &self.keys,
            &self.guard,
            arrived.packet,
            moment,
        )? {
            Decision::Allowed(rule) => {
                prepare_record(&mut self.guard, arrived.packet)?;
                let status = match request {
                    NamedRequest::ForTables => self.command_tables(arrived, out)?,
                    _ => self.command_repository(arrived, out)?,
                };
                Ok(Verdict::Allowed(rule, status))
            }
            Decision::Denied(rule, reason) => {
                let text = denial_text(self.alloc, &self.rules, rule, reason)?;
                self.refuse(arrived, request, &text, out)?;
                Ok(Verdict::Denied(Kind::Interest, rule, reason))
            }
            Decision::NoRule => {
                self.refuse(arrived, request, "no rule", out)?;
                Ok(Verdict::NoRule(Kind::Interest))
            }
        }
    }

    /// Answers a command that is not allowed, and advances time.
    fn refuse(
        &mut self,
        arrived: &Arrived<'_, Interest<'_>>,
        request: NamedRequest,
        text: &str,
        out: &mut Sends,
    ) -> Result<(), Memory>
        requires { IfSome (token_of arrived.now.token) IsToken }
        ensures later { OnOk result
            (IsLater (state_of self.old) arrived.now.moment (state_of self.new)) }
        ensures sends { OnOk result (out.new.sends ≡ out.old.sends ++ replied arrived.now.face
            (token_of arrived.now.token) (plain_interest arrived.now.packet.now)
            (refused_content (request_named request) text.now) ∷ []) }
        ensures memory { OnErr result ((state_of self.new ≡ state_of self.old)
            × (out.new.sends ≡ out.old.sends)) }
    {
        let mut content = Vec::new(self.alloc);
        put_refusal(&mut content, request, text)?;
        out.push_reply(arrived.face, arrived.token, arrived.packet.name, &content)?;
        self.pass_time(arrived.moment);
        Ok(())
    }

    /// Answers and records an allowed command on routes, strategies or the cache, and returns the
    /// status of the reply. The command is applied if its name and parameters can be read.
    fn command_tables(
        &mut self,
        arrived: &Arrived<'_, Interest<'_>>,
        out: &mut Sends,
    ) -> Result<u16, Memory>
        requires sound { IsSound (state_of self.old) }
        requires is_token { IfSome (token_of arrived.now.token) IsToken }
        requires prepared { IfSome (recorded_of (plain_interest arrived.now.packet.now))
            (λ r. IsPrepared self.old.guard r.signer) }
        ensures done { IfOk result (IsCarriedOut self.old self.new out.old.sends out.new.sends
            arrived.now.face (token_of arrived.now.token) arrived.now.moment
            (plain_interest arrived.now.packet.now) ForTables) }
        ensures memory { OnErr result ((state_of self.new ≡ state_of self.old)
            × (out.new.sends ≡ out.old.sends)) }
    {
        match Command::read(arrived.packet.name) {
            Ok(command) => self.command_read(arrived, &command, out),
            Err(status) => self.command_unread(arrived, status, out),
        }
    }

    /// Answers and records an allowed command whose name or parameters cannot be read. Advances
    /// time, and increases the version of the lists of routes and strategies by 1, up to the
    /// greatest u64.
    fn command_unread(
        &mut self,
        arrived: &Arrived<'_, Interest<'_>>,
        status: u16,
        out: &mut Sends,
    ) -> Result<u16, Memory>
        requires is_token { IfSome (token_of arrived.now.token) IsToken }
        requires prepared { IfSome (recorded_of (plain_interest arrived.now.packet.now))
            (λ r. IsPrepared self.old.guard r.signer) }
        requires unread { command_at (components arrived.now.packet.now.name) ≡ Err status }
        ensures done { IfOk result (IsCarriedOut self.old self.new out.old.sends out.new.sends
            arrived.now.face (token_of arrived.now.token) arrived.now.moment
            (plain_interest arrived.now.packet.now) ForTables) }
        ensures memory { OnErr result ((state_of self.new ≡ state_of self.old)
            × (out.new.sends ≡ out.old.sends)) }
    {
        let mut content = Vec::new(self.alloc);
        put_status(&mut content, status, &[])?;
        out.push_reply(arrived.face, arrived.token, arrived.packet.name, &content)?;
        self.pass_time(arrived.moment);
        record(&mut self.guard, arrived.packet)?;
        self.next_version();
        Ok(status)
    }

    /// Reserves the memory that the command may need, and advances time. Then applies, answers and
    /// records the command, and increases the version of the lists of routes and strategies by 1,
    /// up to the greatest u64. Returns the status of the reply.
    fn command_read(
        &mut self,
        arrived: &Arrived<'_, Interest<'_>>,
        command: &Command<'_>,
        out: &mut Sends,
    ) -> Result<u16, Memory>
        requires sound { IsSound (state_of self.old) }
        requires is_token { IfSome (token_of arrived.now.token) IsToken }
        requires prepared { IfSome (recorded_of (plain_interest arrived.now.packet.now))
            (λ r. IsPrepared self.old.guard r.signer) }
        requires read { command_at (components arrived.now.packet.now.name)
            ≡ Ok (asked command.now) }
        ensures done { IfOk result (IsCarriedOut self.old self.new out.old.sends out.new.sends
            arrived.now.face (token_of arrived.now.token) arrived.now.moment
            (plain_interest arrived.now.packet.now) ForTables) }
        ensures memory { OnErr result ((state_of self.new ≡ state_of self.old)
            × (out.new.sends ≡ out.old.sends)) }
    {
        let limit = command.reply_limit();
        let mut content = Vec::with_capacity(self.alloc, limit)?;
        out.reserve(1, reply_room(arrived.packet.name, limit)?)?;
        self.tables.prepare(command)?;
        self.pass_time(arrived.moment);
        let applied = apply(
            &mut self.tables,
            command,
            arrived.face,
            self.faces.numbers(),
            self.now,
        )?;
        put_status(&mut content, applied.status, applied.body.as_slice())?;
        out.push_reply(arrived.face, arrived.token, arrived.packet.name, &content)?;
        record(&mut self.guard, arrived.packet)?;
        self.next_version();
        Ok(applied.status)
    }

    /// Carries out an allowed command to the repository: applies, answers and records the command.
    /// If the command makes the repository want Data, sends an Interest for the Data, as `fetch`
    /// specifies. Returns the status of the reply.
    fn command_repository(
        &mut self,
        arrived: &Arrived<'_, Interest<'_>>,
        out: &mut Sends,
    ) -> Result<u16, Memory>
        requires is_token { IfSome (token_of arrived.now.token) IsToken }
        requires prepared { IfSome (recorded_of (plain_interest arrived.now.packet.now))
            (λ r. IsPrepared self.old.guard r.signer) }
        ensures done { IfOk result (IsCarriedOut self.old self.new out.old.sends out.new.sends
            arrived.now.face (token_of arrived.now.token) arrived.now.moment
            (plain_interest arrived.now.packet.now) ForRepository) }
        ensures memory { OnErr result ((state_of self.new ≡ state_of self.old)
            × (out.new.sends ≡ out.old.sends)) }
    {
        let interest = arrived.packet;
        let mut content = Vec::with_capacity(self.alloc, MAX_REPLY_LEN)?;
        let room = reply_room(interest.name, MAX_REPLY_LEN)?;
        out.reserve(1 + MAX_FACES, room.checked_add(MAX_PACKET).ok_or(Memory)?)?;
        self.repo.prepare_command(interest.name)?;
        self.pass_time(arrived.moment);
        let reply = self.repo.command(interest.name, self.now)?;
        put_repo_status(&mut content, &reply)?;
        out.push_reply(arrived.face, arrived.token, interest.name, &content)?;
        self.fetch(&reply, interest.nonce, out)?;
        record(&mut self.guard, interest)?;
        Ok(reply.status)
    }

    /// Sends the Interest that `reply.fetch` describes, if there is one, to the faces that the
    /// strategy chooses. The Interest gets the Nonce `nonce`. Sends nothing if the strategy finds
    /// no route, or if the Interest cannot be encoded.
    fn fetch(&self, reply: &RepoReply, nonce: [u8; 4], out: &mut Sends) -> Result<(), Memory>
        ensures ok { OnOk result (out.new.sends
            ≡ out.old.sends ++ fetch_sends (policy_of self.entry.now) nonce reply.now.fetch) }
        ensures err { OnErr result (out.new.sends ≡ out.old.sends) }
        ensures promised { MAX_FACES ≤ out.old.places → MAX_PACKET ≤ out.old.space
            → IsOk result }
    {
        let Some(want) = &reply.fetch else {
            return Ok(());
        };
        let name = want.name.view();
        let Choice::Send(faces) = self.choose(name, &Used::new(), self.ask_for(name)) else {
            return Ok(());
        };
        let interest = InterestWriter {
            name,
            can_be_prefix: want.can_be_prefix,
            must_be_fresh: false,
            nonce,
            lifetime: Some(want.lifetime),
            hop_limit: None,
            parameters: None,
            sign: None,
            time: None,
            seq: None,
        };
        out.push_fetch(&faces, &interest)
    }
}
