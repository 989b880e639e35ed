ghost use Rattle.std.specs.Prelude.{◌≡◌, ℕ, ◌≤◌, ◌++◌, ◌∷◌, [], IfOk, IfSome, OnOk, length};
ghost use Rattle.std.specs.Option.{option_map};
ghost use Rattle.ndn_tlv.specs.Number.{shortest_nni};
ghost use Rattle.ndn_names.specs.Name.{octets_of};
ghost use Rattle.ndn_names.specs.View.{components};
ghost use Rattle.ndn_packets.specs.View.{plain_interest};
ghost use Rattle.pit_fib.specs.Fib.{left_at};
ghost use Rattle.mgmt_core.specs.Writing.{segment_at};
ghost use Rattle.forwarder.specs.Datasets.{answered_with, dataset_text, is_present, list_answer, segment_data, segment_name};
ghost use Rattle.forwarder.specs.Event.{Token};
ghost use Rattle.forwarder.specs.Handling.{AwaitsPacket, HandlesPacket, interest_packet, token_of};
ghost use Rattle.forwarder.specs.Policy.{Policy};
ghost use Rattle.forwarder.specs.Request.{ForList, generic, list_name, request_of};
ghost use Rattle.forwarder.specs.State.{policy_of};

use crate::arrived::Arrived;
use crate::request::{ListAsked, ListKind};
use crate::sends::Sends;
use crate::state::State;
use crate::verdict::{DropReason, Verdict};
use mgmt_core::{Tables, fib_segment, strategy_segment};
use ndn_names::component_type::{GENERIC, SEGMENT, VERSION};
use ndn_names::{Name, NameBuf};
use ndn_packets::{DataWriter, Interest, Sign};
use ndn_tlv::{Memory, put_nni};
use std::alloc::Global;

/// The FreshnessPeriod of a segment, in milliseconds.
const FRESHNESS: u64 = 1000;

/// Returns the requested segment as an encoded Data (NFD Management, "Status Dataset").
/// `table_number` is the version of the lists of routes and strategies after the routes that expire
/// by `now` are removed. Returns `None` if a version other than `table_number` is requested, or if
/// the list has no segment with the requested number.
pub(crate) fn list_segment(
    alloc: Global,
    tables: &Tables,
    table_number: u64,
    now: u64,
    asked: ListAsked,
) -> Result<Option<Vec<u8>>, Memory>
    ensures answer { IfOk result (λ octets. (p : Policy) (face : ℕ) (token : Token)
        → p.now ≡ now → p.routes ≡ left_at now tables.now.fib.table
        → p.choices ≡ tables.now.strategies.table → p.table_number ≡ table_number
        → list_answer p face token asked
        ≡ answered_with face token (option_map (λ o. o.items) octets)) }
    // The Data has at most 8,800 octets, the limit for packets.
    ensures short { IfOk result (λ octets. IfSome octets (λ o. length o.items ≤ 8800)) }
{
    if !is_present(asked.version, table_number) {
        return Ok(None);
    }
    let Some((content, last)) = list_part(alloc, tables, now, asked)? else {
        return Ok(None);
    };
    let name = segment_name(alloc, asked.kind, table_number, asked.segment)?;
    let octets = segment_data(alloc, name.view(), &content, last)?;
    Ok(Some(octets))
}

/// Returns true if no version is requested or the requested version is the current version
/// `table_number`, and false otherwise.
fn is_present(asked: Option<u64>, table_number: u64) -> bool
    ensures { (p : Policy) → p.table_number ≡ table_number → result ≡ is_present p asked }
{
    match asked {
        Some(version) => version == table_number,
        None => true,
    }
}

/// Returns the content of the requested segment of a list at the moment `now`, and the number of
/// the list's last segment. Returns `None` if the list has no segment with the requested number.
fn list_part(
    alloc: Global,
    tables: &Tables,
    now: u64,
    asked: ListAsked,
) -> Result<Option<(Vec<u8>, u64)>, Memory>
    ensures part { IfOk result (λ part. (p : Policy) → p.now ≡ now
        → p.routes ≡ left_at now tables.now.fib.table
        → p.choices ≡ tables.now.strategies.table
        → option_map (λ s. (s.0.items, s.1)) part
        ≡ segment_at (dataset_text p asked.kind) asked.segment) }
    ensures short { IfOk result (λ part. IfSome part (λ s. length s.0.items ≤ 4096)) }
{
    match asked.kind {
        ListKind::RouteList => fib_segment(alloc, &tables.fib, now, asked.segment),
        ListKind::StrategyList => strategy_segment(alloc, &tables.strategies, asked.segment),
    }
}

/// Returns the name of a segment: the name of the list, the version of the list, and the number of
/// the segment.
fn segment_name(
    alloc: Global,
    kind: ListKind,
    version: u64,
    segment: u64,
) -> Result<NameBuf, Memory>
    ensures { IfOk result (λ name. name ≡ segment_name kind version segment) }
{
    let mut name = NameBuf::new(alloc);
    append_word(&mut name, b"localhost")?;
    append_word(&mut name, b"nfd")?;
    append_word(&mut name, kind.module())?;
    append_word(&mut name, b"list")?;
    append_number(alloc, &mut name, VERSION, version)?;
    append_number(alloc, &mut name, SEGMENT, segment)?;
    Ok(name)
}

/// Appends to `name` a GenericNameComponent with the value `word`.
fn append_word(name: &mut NameBuf, word: &[u8]) -> Result<(), Memory>
    ensures { OnOk result (name.new ≡ name.old ++ generic word.now ∷ []) }
{
    name.append(GENERIC, word).map_err(|_| Memory)
}

/// Appends to `name` a component that has the type `kind` and contains the number `number`.
fn append_number(alloc: Global, name: &mut NameBuf, kind: u16, number: u64) -> Result<(), Memory>
    ensures { OnOk result (name.new ≡ name.old ++ (kind, shortest_nni number) ∷ []) }
{
    let mut value = Vec::new(alloc);
    put_nni(&mut value, number)?;
    name.append(kind, &value).map_err(|_| Memory)
}

/// Returns an encoded Data with this name and content, signed with DigestSha256. The FinalBlockId
/// of the Data contains the number `last` of the last segment. Fails only if memory runs out, since
/// the Data is never too long to be encoded.
fn segment_data<'a>(
    alloc: Global,
    name: Name<'a>,
    content: &'a [u8],
    last: u64,
) -> Result<Vec<u8>, Memory>
    requires name { length (octets_of (components name)) ≤ 100 }
    requires content { length content.now ≤ 4096 }
    ensures ok { IfOk result
        (λ octets. octets.items ≡ segment_data (components name.entry) content.now last) }
    ensures short { length (segment_data (components name.entry) content.now last) ≤ 8800 }
{
    let data = DataWriter {
        name,
        freshness: Some(FRESHNESS),
        last: Some(last),
        content: Some(content),
        sign: Sign::Digest,
    };
    let mut octets = Vec::new(alloc);
    data.write(&mut octets).map_err(|_| Memory)?;
    Ok(octets)
}

impl State {
    /// Sends a segment of a list to the face that requests the segment. The segment shows the list
    /// after time has advanced to the moment of the Interest. Drops the Interest if the requested
    /// segment does not exist, or if a version other than the current version is requested. The
    /// segment is encoded before time advances, so nothing has changed if memory runs out.
    pub fn send_list(
        &mut self,
        arrived: &Arrived<'_, Interest<'_>>,
        asked: ListAsked,
        out: &mut Sends,
    ) -> Result<Verdict, Memory>
        requires ready { AwaitsPacket self.old arrived.now.face (token_of arrived.now.token) }
        requires for_list { request_of (policy_of self.old) arrived.now.face
            (plain_interest arrived.now.packet.now) ≡ ForList asked }
        ensures { HandlesPacket self.old self.new out.old.sends out.new.sends
            arrived.now.face (token_of arrived.now.token) arrived.now.moment
            (interest_packet arrived.now.packet.now) result }
    {
        let now = self.now.max(arrived.moment);
        let number = self.table_number.saturating_add(self.tables.fib.due(now));
        let Some(octets) = list_segment(self.alloc, &self.tables, number, now, asked)? else {
            return Ok(self.drop_packet(arrived.moment, DropReason::NoSegment));
        };
        out.push_back(arrived.face, arrived.token, &octets)?;
        self.pass_time(arrived.moment);
        Ok(Verdict::Passed)
    }
}
