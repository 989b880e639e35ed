//! An exchange of datagrams: what is sent, and the effect of each datagram that is received.

ghost use Rattle.std.specs.Prelude.{◌≡◌, ◌+◌, ◌<◌, ◌++◌, ◌^◌, [], IfOk, OnOk, MatchResult, option_map, unwrap_or};
ghost use Rattle.ndn_names.specs.View.{components};
ghost use Rattle.ndn_packets.specs.View.{plain_data, plain_frame};
ghost use Rattle.ndn_packets.specs.FrameReading.{frame_at};
ghost use Rattle.ndn_requests.specs.Lists.{in_turn, next_name, place_of, heading, table};
ghost use Rattle.ndn_requests.specs.Exchange.{IsRequest, IsNoRequest, IsForged, IsForgedFrame, content_in, forged_name, is_wrong, turn_of};

use crate::fault::Silence;
use crate::names::NodeList;
use crate::reply::{Outcome, judge, put_explained, silence_of};
use key_files::KeyBook;
use ndn_explain::{Layout, TagCheck, check_of, hex_line, last_segment, put_entries, segment_of};
use ndn_names::component_type::SEGMENT;
use ndn_names::{Name, NameBuf};
use ndn_packets::{Data, Frame, InterestWriter, WriteFault, read_frame};
use ndn_tlv::{Memory, put_nni};
use std::alloc::Global;
use std::net::SocketAddr;

/// What is printed of the answer to a request.
#[derive(Clone, Copy, Debug, PartialEq, Eq)]
pub enum View {
    /// The first datagram that arrives, as a line of hexadecimal, even if this datagram does not
    /// answer the request.
    Hexadecimal,
    /// The explanation of the answer, as `put_explained` appends it.
    Lines,
    /// Only the Content of the Data, unchanged. Nothing is printed for a Nack, for a Data without a
    /// Content, or for a reply that is too long to be read as a Data.
    Content,
    /// A table of the entries in all segments of a list. If the answer is a Nack, the explanation
    /// of the Nack.
    Table(NodeList),
}

/// A request to send, and the contents of the segments that have been received.
#[derive(Drop)]
pub struct Exchange {
    /// The packet to send.
    pub request: Vec<u8>,
    /// The destination.
    pub to: SocketAddr,
    /// The source port. `None` means that the system chooses a port.
    pub from: Option<u16>,
    /// What is printed of the answer.
    pub view: View,
    /// How long to wait for each answer, in milliseconds.
    pub wait: u64,
    /// Whether a Data with a wrong signature is printed.
    pub unverified: bool,
    /// The contents of the segments that have been received, joined in order.
    pub contents: Vec<u8>,
}

/// The effect of a received datagram.
#[derive(Drop)]
pub enum Progress {
    /// The datagram does not answer the request, or it is not the requested segment of a list.
    Ignored,
    /// The datagram is a segment, and the request for the next segment is to be sent.
    Next,
    /// The exchange is over. Holds the text to print, and the outcome of the request.
    Done(Vec<u8>, Outcome),
    /// The exchange is over. The answer is a Data of this name with a wrong signature, and is not
    /// printed.
    Forged(NameBuf),
    /// The exchange is over. The answer is a Data of this name with a wrong signature, and the text
    /// is printed nevertheless.
    Unverified(Vec<u8>, NameBuf),
}

/// The Nonce of a request, and whether the request asks for the first segment of a list.
#[derive(Clone, Copy)]
struct Turn {
    /// Whether the request asks for the first segment, whatever the version of the list.
    is_first: bool,
    nonce: [u8; 4],
}

impl Exchange {
    ghost use Rattle.std.specs.Prelude.{◌≡◌, ◌<◌, ◌++◌, IfOk, MatchResult, Option, Some, None, unwrap_or};
    ghost use Rattle.key_files.specs.KeyFile.{NamedKey};
    ghost use Rattle.ndn_names.specs.View.{components};
    ghost use Rattle.ndn_packets.specs.View.{plain_data};
    ghost use Rattle.ndn_packets.specs.Packet.{AData};
    ghost use Rattle.ndn_packets.specs.FrameReading.{frame_at};
    ghost use Rattle.ndn_requests.specs.Reply.{Outcome, IsJudged};
    ghost use Rattle.ndn_requests.specs.Lists.{next_name, place_of};
    ghost use Rattle.ndn_requests.specs.Exchange.{IsTaken, IsNextRefusal, IsSegment, IsListed, IsTurned, IsPlaced, IsProgress, IsVerified, printed, silence_in, turn_of};

    /// Handles a received datagram. After `Next`, `request` is the request for the next segment of
    /// the list.
    ///
    /// Returns `BadName` or `TooLong` if the request for the next segment cannot be written. The
    /// only other error is `Memory`.
    pub fn take(
        &mut self,
        alloc: Global,
        datagram: &[u8],
        book: &KeyBook,
    ) -> Result<Progress, WriteFault>
        ensures { MatchResult result
            (IsTaken self.old book.now datagram.now self.new)
            (λ why. IsNextRefusal why (frame_at datagram.now)) }
    {
        match self.view {
            View::Hexadecimal => Ok(Progress::Done(hex_line(alloc, datagram)?, Ok(()))),
            View::Table(list) => self.take_segment(alloc, list, datagram, book),
            View::Lines | View::Content => Ok(self.answered(alloc, datagram, book)?),
        }
    }

    /// Handles a datagram in an exchange with one answer.
    fn answered(&self, alloc: Global, datagram: &[u8], book: &KeyBook) -> Result<Progress, Memory>
        ensures { IfOk result (λ progress. (outcome : Option Outcome)
            × IsJudged self.now.request.items book.now datagram.now outcome
            × IsProgress self.now book.now datagram.now outcome progress) }
    {
        match judge(alloc, &self.request, datagram, book)? {
            None => Ok(Progress::Ignored),
            Some(outcome) => self.finished(alloc, datagram, book, outcome),
        }
    }

    /// Ends an exchange with one answer. `outcome` is the outcome that the answer `datagram` has if
    /// its signature is not wrong.
    fn finished(
        &self,
        alloc: Global,
        datagram: &[u8],
        book: &KeyBook,
        outcome: Outcome,
    ) -> Result<Progress, Memory>
        ensures { IfOk result (IsProgress self.now book.now datagram.now (Some outcome)) }
    {
        let forged = forged_in(alloc, datagram, book)?;
        self.verified(alloc, datagram, forged, outcome)
    }

    /// Ends an exchange with one answer. `forged` is the name of the answer if its signature is
    /// wrong.
    fn verified(
        &self,
        alloc: Global,
        datagram: &[u8],
        forged: Option<NameBuf>,
        outcome: Outcome,
    ) -> Result<Progress, Memory>
        ensures { IfOk result (IsVerified self.now.unverified
            (printed self.now.view self.now.request.items datagram.now) outcome forged) }
    {
        match forged {
            None => Ok(Progress::Done(self.printed(alloc, datagram)?, outcome)),
            Some(name) => {
                if self.unverified {
                    let text = self.printed(alloc, datagram)?;
                    Ok(Progress::Unverified(text, name))
                } else {
                    Ok(Progress::Forged(name))
                }
            }
        }
    }

    /// Returns what is printed of the answer `datagram`.
    fn printed(&self, alloc: Global, datagram: &[u8]) -> Result<Vec<u8>, Memory>
        ensures { IfOk result (λ text. text.items
            ≡ printed self.now.view self.now.request.items datagram.now) }
    {
        let mut text = Vec::new(alloc);
        match self.view {
            View::Content => text.extend_from_slice(content_in(datagram))?,
            _ => put_explained(alloc, &mut text, &self.request, datagram)?,
        }
        Ok(text)
    }

    /// Handles a datagram in an exchange for a list's segments.
    fn take_segment(
        &mut self,
        alloc: Global,
        list: NodeList,
        datagram: &[u8],
        book: &KeyBook,
    ) -> Result<Progress, WriteFault>
        requires { self.old.view ≡ View.Table list }
        ensures { MatchResult result
            (λ progress. (outcome : Option Outcome)
            × IsJudged self.old.request.items book.now datagram.now outcome
            × IsSegment outcome self.old list datagram.now self.new progress)
            (λ why. IsNextRefusal why (frame_at datagram.now)) }
    {
        match judge(alloc, &self.request, datagram, book)? {
            None => Ok(Progress::Ignored),
            Some(Err(failure)) => {
                let text = self.printed(alloc, datagram)?;
                Ok(Progress::Done(text, Err(failure)))
            }
            Some(Ok(())) => self.take_answer(alloc, list, datagram),
        }
    }

    /// Handles a datagram that answers the Interest for a segment.
    fn take_answer(
        &mut self,
        alloc: Global,
        list: NodeList,
        datagram: &[u8],
    ) -> Result<Progress, WriteFault>
        ensures { MatchResult result
            (IsTurned (turn_of (frame_at self.old.request.items)) self.old list datagram.now
            self.new)
            (λ why. IsNextRefusal why (frame_at datagram.now)) }
    {
        let Some(turn) = turn_of(&self.request) else {
            return Ok(Progress::Ignored);
        };
        match read_frame(datagram) {
            Ok(Frame::Data(packet)) => self.take_data(alloc, list, turn, &packet),
            _ => Ok(Progress::Ignored),
        }
    }

    fn take_data(
        &mut self,
        alloc: Global,
        list: NodeList,
        turn: Turn,
        packet: &Data<'_>,
    ) -> Result<Progress, WriteFault>
        ensures { MatchResult result
            (IsPlaced
            (place_of turn.is_first (components packet.now.name) packet.now.whole.now)
            self.old list turn.nonce (plain_data packet.now) self.new)
            (λ why. IsNextRefusal why
            (Ok (AData packet.now.whole.now (plain_data packet.now)))) }
    {
        match place_of(turn.is_first, packet) {
            None => Ok(Progress::Ignored),
            Some((segment, last)) => {
                self.take_place(alloc, list, turn.nonce, packet, segment, last)
            }
        }
    }

    /// Handles a segment. If `segment` is less than `last`, prepares the request for the next
    /// segment. Otherwise returns the table of the entries in all segments.
    fn take_place(
        &mut self,
        alloc: Global,
        list: NodeList,
        nonce: [u8; 4],
        packet: &Data<'_>,
        segment: u64,
        last: u64,
    ) -> Result<Progress, WriteFault>
        ensures { MatchResult result
            (IsPlaced (Some (segment, last)) self.old list nonce (plain_data packet.now)
            self.new)
            (λ why. IsNextRefusal why
            (Ok (AData packet.now.whole.now (plain_data packet.now)))) }
    {
        put_content(&mut self.contents, packet.content)?;
        if segment >= last {
            return Ok(Progress::Done(table(alloc, list, &self.contents)?, Ok(())));
        }
        let name = next_name(alloc, packet.name, segment)?;
        self.request = request_for(alloc, name.view(), nonce)?;
        Ok(Progress::Next)
    }

    /// Returns why no answer came. `is_closed` is true if no program listens at the destination.
    pub fn silence(&self, is_closed: bool) -> Silence
        ensures { result ≡ silence_in self.now is_closed }
    {
        if !is_closed && !self.contents.is_empty() {
            return Silence::Changed;
        }
        silence_of(&self.request, self.from, is_closed)
    }
}

fn put_content(contents: &mut Vec<u8>, content: Option<&[u8]>) -> Result<(), Memory>
    ensures { OnOk result (contents.new.items ≡ contents.old.items
        ++ unwrap_or (option_map (λ c. c.now) content.entry) []) }
{
    if let Some(content) = content {
        contents.extend_from_slice(content)?;
    }
    Ok(())
}

/// Returns the name of the Data in the datagram if the signature of the Data is wrong. Returns
/// `None` for any other datagram. A signature is checked if it is a DigestSha256, or an HMAC or an
/// ECDSA signature with a key of the book.
pub fn forged_in(alloc: Global, datagram: &[u8], book: &KeyBook) -> Result<Option<NameBuf>, Memory>
    ensures { IfOk result (IsForged book.now (frame_at datagram.now)) }
{
    match read_frame(datagram) {
        Ok(frame) => forged_frame(alloc, &frame, book),
        Err(_) => Ok(None),
    }
}

fn forged_frame(alloc: Global, frame: &Frame<'_>, book: &KeyBook) -> Result<Option<NameBuf>, Memory>
    ensures { IfOk result (IsForgedFrame book.now (plain_frame frame.now)) }
{
    let check = check_of(frame, Some(book));
    let name = forged_name(alloc, frame, check)?;
    Ok(name)
}

/// Returns the name of a Data whose signature is wrong, and `None` for any other frame.
fn forged_name(
    alloc: Global,
    frame: &Frame<'_>,
    check: Option<TagCheck>,
) -> Result<Option<NameBuf>, Memory>
    ensures { IfOk result (λ name. name ≡ forged_name (plain_frame frame.now) check) }
{
    match frame {
        Frame::Data(packet) => {
            if is_wrong(check) {
                Ok(Some(NameBuf::from_name(alloc, packet.name)?))
            } else {
                Ok(None)
            }
        }
        _ => Ok(None),
    }
}

fn is_wrong(check: Option<TagCheck>) -> bool
    ensures { result ≡ is_wrong check }
{
    matches!(&check, Some(TagCheck::Wrong))
}

/// Returns the Content of the Data in the datagram. Returns no octets if the datagram is not a
/// Data, or if the Data has no Content.
fn content_in(datagram: &[u8]) -> &[u8]
    ensures { result.now ≡ content_in (frame_at datagram.now) }
{
    match read_frame(datagram) {
        Ok(Frame::Data(packet)) => packet.content.unwrap_or(&[]),
        _ => &[],
    }
}

/// Returns the request's Nonce, and whether the request asks for the first segment of a list.
/// Returns `None` if the request is not an Interest.
fn turn_of(request: &[u8]) -> Option<Turn>
    ensures { result ≡ turn_of (frame_at request.now) }
{
    match read_frame(request) {
        Ok(Frame::Interest(asked)) => Some(Turn {
            is_first: asked.can_be_prefix,
            nonce: asked.nonce,
        }),
        _ => None,
    }
}

/// Returns the number of the segment in a Data, and the number of the last segment. Returns `None`
/// if the Data lacks one of these numbers, or if `is_first` is set and the Data is not the first
/// segment.
fn place_of(is_first: bool, packet: &Data<'_>) -> Option<(u64, u64)>
    ensures { result
        ≡ place_of is_first (components packet.now.name) packet.now.whole.now }
{
    let segment = segment_of(packet.name)?;
    let last = last_segment(packet.whole)?;
    if is_first && segment != 0 {
        return None;
    }
    Some((segment, last))
}

/// Returns the name of the next segment. `name` and `segment` are the name and the number of the
/// segment before it.
fn next_name(alloc: Global, name: Name<'_>, segment: u64) -> Result<NameBuf, Memory>
    requires { segment + 1 < 2 ^ 64 }
    ensures { IfOk result (λ next. next ≡ next_name (components name.entry) segment) }
{
    let mut number = Vec::new(alloc);
    put_nni(&mut number, segment + 1)?;
    let front = name.prefix(name.len().saturating_sub(1));
    let mut next = NameBuf::from_name(alloc, front)?;
    match next.append(SEGMENT, &number) {
        Ok(()) => Ok(next),
        Err(_) => Err(Memory),
    }
}

/// Returns the Interest with this name and Nonce, and with no other fields.
fn request_for(alloc: Global, name: Name<'_>, nonce: [u8; 4]) -> Result<Vec<u8>, WriteFault>
    ensures { MatchResult result
        (λ packet. IsRequest (components name.entry) nonce packet.items)
        (IsNoRequest (components name.entry) nonce) }
{
    let writer = InterestWriter {
        name,
        can_be_prefix: false,
        must_be_fresh: false,
        nonce,
        lifetime: None,
        hop_limit: None,
        parameters: None,
        sign: None,
        time: None,
        seq: None,
    };
    let mut packet = Vec::new(alloc);
    writer.write(&mut packet)?;
    Ok(packet)
}

/// Returns the table of a list, from the contents of all its segments.
fn table(alloc: Global, list: NodeList, contents: &[u8]) -> Result<Vec<u8>, Memory>
    ensures { IfOk result (λ text. text.items ≡ table list contents.now) }
{
    let mut text = Vec::new(alloc);
    text.extend_from_slice(heading(list).as_bytes())?;
    put_entries(alloc, &mut text, Layout::Table, contents)?;
    Ok(text)
}

fn heading(list: NodeList) -> &'static str
    ensures { result.now ≡ heading list }
{
    match list {
        NodeList::Routes => "name\tface\tcost\n",
        NodeList::Strategies => "name\tstrategy\n",
    }
}
