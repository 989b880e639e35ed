ghost use Rattle.std.specs.Prelude.{◌≡◌, ◌<◌, ◌≤◌, ◌+◌, ◌^◌, ◌++◌, length, vec_len, IsOk, IfOk, OnOk};
ghost use Rattle.std.specs.Vec.{vec_capacity};
ghost use Rattle.mgmt_core.specs.Reading.{asked};
ghost use Rattle.mgmt_core.specs.Steps.{about_fields, given_fields};
ghost use Rattle.mgmt_core.specs.Tables.{deadline_of, face_of, strategy_asked};
ghost use Rattle.ndn_tlv.specs.Writing.{octets, optional};
ghost use Rattle.mgmt_core.specs.Writing.{given, reply_body, reply_fields, reply_limit};
ghost use Rattle.mgmt_core.specs.Writing.{strategy_value};
ghost use Rattle.std.specs.Option.{option_map};
ghost use Rattle.mgmt_core.specs.Room.{HasRoomForReply};

use crate::command::Command;
use crate::outcome::Octets;
use crate::strategy_name::{strategy_named, strategy_value};
use ndn_packets::command_types::{
    CONTROL_PARAMETERS, COST, COUNT, EXPIRATION_PERIOD, FACE_ID, FLAGS, ORIGIN, STRATEGY,
};
use ndn_packets::types::NAME;
use ndn_tlv::{Memory, put_element, put_number_field};
use pit_fib::StrategyId;
use std::alloc::Global;
use std::mem;

/// An upper bound of the number of octets in a reply's body, not counting the value of the Name
/// field. A body that is not empty is a ControlParameters element: its header, the header of its
/// Name, and all fields after the Name are counted. The number of these octets can be greatest for
/// replies to `rib/register`.
pub const BODY_EXTRA: usize = 70;

/// An upper bound of the number of octets in a whole reply, not counting the value of the Name
/// field. The text of the reply must be the text that `status_text` returns for its status.
pub const REPLY_EXTRA: usize = 116;

/// The greatest length, in octets, of the header of an element whose type takes one octet.
const HEADER_LEN: usize = 10;

impl Command<'_> {
    /// Returns an upper bound of the length of a reply to the command, in octets. The bound holds
    /// for every face, and for every status with the text that `status_text` returns for it.
    pub fn reply_limit(&self) -> usize
        ensures { result ≡ reply_limit (asked self.now) }
    {
        self.name.as_octets().len() + REPLY_EXTRA
    }

    /// Returns the face that the command applies to, if the command came from `face`.
    pub(crate) fn face_from(&self, face: u64) -> u64
        ensures { result ≡ face_of (asked self.now) face }
    {
        if self.face == 0 { face } else { self.face }
    }

    /// Returns the deadline of a route that the command registers at `now`. The route expires at
    /// this deadline. Returns `None` if the route does not expire.
    pub(crate) fn deadline_from(&self, now: u64) -> Option<u64>
        ensures { result ≡ deadline_of now self.now.expires }
    {
        Some(now.saturating_add(self.expires?))
    }

    /// Returns the strategy that the command's Strategy field names, or `None` if the field is
    /// missing or does not name a strategy.
    pub(crate) fn strategy(&self) -> Option<StrategyId>
        ensures { result ≡ strategy_asked (asked self.now) }
    {
        strategy_named(self.strategy?)
    }

    /// Returns `number` if the command takes a field of type `kind`, otherwise `None`.
    fn given_number(&self, kind: u32, number: Option<u64>) -> Option<u64>
        ensures { result ≡ given (asked self.now) kind number }
    {
        if self.action.takes(kind) {
            number
        } else {
            None
        }
    }

    /// Returns the result of `strategy` if the command takes a Strategy field, otherwise `None`.
    fn given_strategy(&self) -> Option<StrategyId>
        ensures { result ≡ given (asked self.now) STRATEGY (strategy_asked (asked self.now)) }
    {
        if self.action.takes(STRATEGY) {
            self.strategy()
        } else {
            None
        }
    }

    /// Appends the fields of a reply to this command, which came from `face`. If memory runs out,
    /// some octets of the fields may be appended.
    fn put_fields(&self, out: &mut Vec<u8>, face: u64) -> Result<(), Memory>
        ensures ok { OnOk result
            (out.new.items ≡ out.old.items ++ octets (reply_fields (asked self.now) face)) }
        ensures room { vec_len out.old + length (octets (reply_fields (asked self.now) face))
            ≤ vec_capacity out.old → IsOk result }
    {
        self.put_about(out, face)?;
        self.put_given(out)
    }

    /// Appends the Name of the reply, then the FaceId if the command takes a FaceId, then the
    /// Origin if the command takes an Origin. If memory runs out, some octets of these fields may
    /// be appended.
    fn put_about(&self, out: &mut Vec<u8>, face: u64) -> Result<(), Memory>
        ensures ok { OnOk result
            (out.new.items ≡ out.old.items ++ octets (about_fields (asked self.now) face)) }
        ensures room { vec_len out.old + length (octets (about_fields (asked self.now) face))
            ≤ vec_capacity out.old → IsOk result }
        ensures capacity { vec_capacity out.old ≤ vec_capacity out.new }
    {
        let face = self.given_number(FACE_ID, Some(self.face_from(face)));
        let origin = self.given_number(ORIGIN, Some(self.origin));
        put_element(out, NAME, self.name.as_octets())?;
        put_number_field(out, FACE_ID, face)?;
        put_number_field(out, ORIGIN, origin)
    }

    /// Appends the fields of the reply that follow the Name, the FaceId and the Origin. If memory
    /// runs out, some octets of these fields may be appended.
    fn put_given(&self, out: &mut Vec<u8>) -> Result<(), Memory>
        ensures ok { OnOk result
            (out.new.items ≡ out.old.items ++ octets (given_fields (asked self.now))) }
        ensures room { vec_len out.old + length (octets (given_fields (asked self.now)))
            ≤ vec_capacity out.old → IsOk result }
    {
        let cost = self.given_number(COST, Some(self.cost));
        let flags = self.given_number(FLAGS, Some(self.flags));
        let expires = self.given_number(EXPIRATION_PERIOD, self.expires);
        let count = self.given_number(COUNT, self.count);
        put_number_field(out, COST, cost)?;
        put_number_field(out, FLAGS, flags)?;
        put_number_field(out, EXPIRATION_PERIOD, expires)?;
        put_number_field(out, COUNT, count)?;
        put_strategy(out, self.given_strategy())
    }
}

/// Appends a Strategy field if `strategy` is given. If memory runs out, some octets of the field
/// may be appended.
fn put_strategy(out: &mut Vec<u8>, strategy: Option<StrategyId>) -> Result<(), Memory>
    ensures ok { OnOk result (out.new.items
        ≡ out.old.items ++ octets (optional STRATEGY (option_map strategy_value strategy))) }
    ensures room { vec_len out.old
        + length (octets (optional STRATEGY (option_map strategy_value strategy)))
        ≤ vec_capacity out.old → IsOk result }
    ensures capacity { vec_capacity out.old ≤ vec_capacity out.new }
{
    match strategy {
        None => Ok(()),
        Some(strategy) => put_element(out, STRATEGY, strategy_value(strategy)),
    }
}

/// Memory that is reserved for the body of one reply.
#[derive(Drop)]
pub struct ReplyRoom {
    fields: Vec<u8>,
    body: Vec<u8>,
}

impl ReplyRoom {
    /// Returns a `ReplyRoom` without reserved memory.
    pub fn new(alloc: Global) -> ReplyRoom {
        ReplyRoom {
            fields: Vec::new(alloc),
            body: Vec::new(alloc),
        }
    }

    /// Reserves memory for the body of the reply to a command, whichever face the command comes
    /// from. The greatest face id gives the longest body.
    pub fn prepare(&mut self, command: &Command<'_>) -> Result<(), Memory>
        ensures { OnOk result (HasRoomForReply self.new (asked command.now)) }
    {
        self.fields.clear();
        self.body.clear();
        command.put_fields(&mut self.body, u64::MAX)?;
        self.fields.reserve(self.body.len())?;
        self.body.reserve(HEADER_LEN)?;
        Ok(())
    }

    /// Returns the body of a reply with status 200 to a command that came from this face. Uses up
    /// the reserved memory.
    pub fn body_of(
        &mut self,
        alloc: Global,
        command: &Command<'_>,
        face: u64,
    ) -> Result<Octets, Memory>
        ensures ok { IfOk result (λ body. body ≡ reply_body (asked command.now) face) }
        ensures promised { HasRoomForReply self.old (asked command.now) → IsOk result }
    {
        self.fields.clear();
        command.put_fields(&mut self.fields, face)?;
        let mut body = mem::replace(&mut self.body, Vec::new(alloc));
        body.clear();
        put_element(&mut body, CONTROL_PARAMETERS, &self.fields)?;
        Ok(Octets::of(body))
    }
}
