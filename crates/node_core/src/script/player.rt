ghost use Rattle.std.specs.Prelude.{◌≡◌, ◌+◌, ◌≤◌, List, [], ◌∷◌, ◌++◌, ℕ, Some, length, OnErr, OnOk, IfErr};
ghost use Rattle.std.specs.Io.KnownBytes.{Appends};
ghost use Rattle.forwarder.specs.Event.{plain_owned};
ghost use Rattle.node_core.specs.Script.Line.{Lacks};
ghost use Rattle.node_core.specs.Script.{joined};
ghost use Rattle.node_core.specs.Script.Ending.{Ends, Stops, ComesWithGoodParts};
ghost use Rattle.node_core.specs.Script.Play.{place_of, HasRoom, IsNear, IsStart, IsPending, PlaysEvent, Plays, LineFails, LineStops, AddStops, FeedStops};
ghost use Rattle.node_core.specs.declared.script.player.TheConstants.{CHUNK};

use crate::answer::put_answer;
use crate::script::RunFault;
use crate::script::input::read_some;
use crate::script::line::{LONGEST_LINE, Line, line_of};
use crate::script::output::put_all;
use crate::script::word::cut_line;
use forwarder::{Node, Outbox, OwnedEvent, lend};
use std::alloc::Global;
use std::io::{Read, Write};

/// The greatest number of octets in one read.
pub const CHUNK: usize = 65_536;

/// The state of running a script: the node, buffers for the packets that the node sends and for the
/// answers, and the numbers of lines and events that were handled.
#[derive(Drop)]
pub struct Player {
    pub alloc: Global,
    pub node: Node,
    pub outbox: Outbox,
    pub text: Vec<u8>,
    pub lines: u64,
    pub events: u64,
}

impl Player {
    /// Returns the state before the first line of a script.
    pub fn new(alloc: Global, node: Node) -> Player
        ensures node { result.node ≡ node }
        ensures lines { result.lines ≡ 0 }
        ensures events { result.events ≡ 0 }
    {
        Player {
            alloc,
            node,
            outbox: Outbox::new(alloc),
            text: Vec::new(alloc),
            lines: 0,
            events: 0,
        }
    }

    /// Runs a script from its start to the end of the input.
    pub fn run<R: Read, W: Write>(&mut self, reader: &mut R, writer: &mut W) -> Result<(), RunFault>
        requires { IsStart (place_of self.old) }
        ensures done { OnOk result
            (Ends self.old.node (R.remaining reader.old) (R.remaining reader.new)
            (W.contents writer.old) (W.contents writer.new)) }
        ensures stopped { IfErr result
            (λ fault. Stops self.old.node fault (R.remaining reader.old) (R.remaining reader.new)
            (W.contents writer.old) (W.contents writer.new)) }
        ensures parts { IfErr result ComesWithGoodParts }
    {
        let Ok(mut chunk) = vec![in self.alloc; 0u8; CHUNK] else {
            return Err(RunFault::Memory);
        };
        self.play(chunk.as_mut_slice(), reader, writer)
    }

    // Runs a script from its start to the end of the input, with `chunk` as the buffer for reading.
    fn play<R: Read, W: Write>(
        &mut self,
        chunk: &mut [u8],
        reader: &mut R,
        writer: &mut W,
    ) -> Result<(), RunFault>
        requires start { IsStart (place_of self.old) }
        requires size { length chunk.old ≡ CHUNK }
        ensures done { OnOk result
            (Ends self.old.node (R.remaining reader.old) (R.remaining reader.new)
            (W.contents writer.old) (W.contents writer.new)) }
        ensures stopped { IfErr result
            (λ fault. Stops self.old.node fault (R.remaining reader.old) (R.remaining reader.new)
            (W.contents writer.old) (W.contents writer.new)) }
        ensures parts { IfErr result ComesWithGoodParts }
    {
        let mut line = Vec::new(self.alloc);
        for _ in 0..u32::MAX {
            let Some(count) = read_some(reader, chunk)? else {
                return self.end(writer, line.as_slice());
            };
            self.feed(writer, &mut line, &chunk[..count])?;
        }
        Err(RunFault::Read)
    }

    // Handles the lines whose LF is in `chunk`, and writes the answers to these lines. The first of
    // these lines begins with the octets that `line` has before the call. Leaves the octets of the
    // unfinished line in `line`.
    fn feed<W: Write>(
        &mut self,
        writer: &mut W,
        line: &mut Vec<u8>,
        chunk: &[u8],
    ) -> Result<(), RunFault>
        requires room { HasRoom (place_of self.old) (length chunk.now + 1) }
        requires pending { IsPending line.old.items }
        ensures pending { OnOk result (IsPending line.new.items) }
        ensures near { OnOk result
            (IsNear (place_of self.old) (length chunk.now) (place_of self.new)) }
        ensures played { OnOk result ((lines : List (List ℕ)) × (text : List ℕ)
            × Plays lines (place_of self.old) (place_of self.new) text
            × Appends (W.contents writer.old) (W.contents writer.new) text
            × (line.old.items ++ chunk.now ≡ joined lines ++ line.new.items)) }
        ensures stopped { IfErr result
            (λ fault. FeedStops fault (line.old.items ++ chunk.now) (place_of self.old)
            (W.contents writer.old) (W.contents writer.new)) }
    {
        self.text.clear();
        let done = self.gather(line, chunk);
        put_all(writer, self.text.as_slice())?;
        done
    }

    // Handles the last line, which has no LF. If the line has an event, writes the answer to the
    // event.
    fn end<W: Write>(&mut self, writer: &mut W, line: &[u8]) -> Result<(), RunFault>
        requires room { HasRoom (place_of self.old) 1 }
        requires whole { Lacks 10 line.now }
        ensures played { OnOk result ((text : List ℕ)
            × Plays (line.now ∷ []) (place_of self.old) (place_of self.new) text
            × Appends (W.contents writer.old) (W.contents writer.new) text) }
        ensures stopped { IfErr result
            (λ fault. LineStops fault line.now (place_of self.old)
            (W.contents writer.old) (W.contents writer.new)) }
    {
        self.text.clear();
        self.answer_line(line)?;
        put_all(writer, self.text.as_slice())
    }

    // Handles the lines whose LF is in `chunk`, and appends to `self.text` the answers to these
    // lines. The first of these lines begins with the octets that `line` has before the call.
    // Leaves the octets of the unfinished line in `line`.
    fn gather(&mut self, line: &mut Vec<u8>, chunk: &[u8]) -> Result<(), RunFault>
        requires room { HasRoom (place_of self.old) (length chunk.now + 1) }
        requires pending { IsPending line.old.items }
        ensures pending { OnOk result (IsPending line.new.items) }
        ensures near { OnOk result
            (IsNear (place_of self.old) (length chunk.now) (place_of self.new)) }
        ensures played { OnOk result ((lines : List (List ℕ)) × (text : List ℕ)
            × Plays lines (place_of self.old) (place_of self.new) text
            × Appends (Some self.old.text.items) (Some self.new.text.items) text
            × (line.old.items ++ chunk.now ≡ joined lines ++ line.new.items)) }
        ensures stopped { IfErr result
            (λ fault. FeedStops fault (line.old.items ++ chunk.now) (place_of self.old)
            (Some self.old.text.items) (Some self.new.text.items)) }
    {
        let mut rest = chunk;
        while let Some((front, after)) = cut_line(rest) {
            self.end_line(line, front)?;
            rest = after;
        }
        self.add(line, rest)
    }

    // Appends octets to the unfinished line. If the line would have more than 20,000 octets, the
    // fault is `BadLine`. If memory runs out, the fault is `Memory`.
    fn add(&self, line: &mut Vec<u8>, octets: &[u8]) -> Result<(), RunFault>
        requires room { HasRoom (place_of self.now) 1 }
        requires short { length line.old.items ≤ 20000 }
        ensures ok { OnOk result (line.new.items ≡ line.old.items ++ octets.now) }
        ensures short { OnOk result (length line.new.items ≤ 20000) }
        ensures stopped { IfErr result
            (λ fault. AddStops fault (line.old.items ++ octets.now) (place_of self.now)) }
    {
        if octets.len() > LONGEST_LINE - line.len() {
            return Err(RunFault::BadLine(self.lines + 1));
        }
        line.extend_from_slice(octets).map_err(|_| RunFault::Memory)
    }

    // Handles the line that consists of `line` followed by `octets`. If this line has an event,
    // appends to `self.text` the answer to the event. Then leaves `line` empty.
    fn end_line(&mut self, line: &mut Vec<u8>, octets: &[u8]) -> Result<(), RunFault>
        requires room { HasRoom (place_of self.old) 1 }
        requires pending { IsPending line.old.items }
        requires whole { Lacks 10 octets.now }
        ensures empty { OnOk result (line.new.items ≡ []) }
        ensures near { OnOk result (IsNear (place_of self.old) 1 (place_of self.new)) }
        ensures played { OnOk result ((text : List ℕ)
            × Plays ((line.old.items ++ octets.now) ∷ []) (place_of self.old) (place_of self.new)
            text
            × (self.new.text.items ≡ self.old.text.items ++ text)) }
        ensures kept { OnErr result (self.new.text.items ≡ self.old.text.items) }
        ensures stopped { IfErr result
            (λ fault. LineFails fault (line.old.items ++ octets.now) (place_of self.old)) }
    {
        if line.is_empty() {
            return self.answer_line(octets);
        }
        self.add(line, octets)?;
        self.answer_line(line.as_slice())?;
        line.clear();
        Ok(())
    }

    // Handles a line. If the line has an event, appends to `self.text` the answer to the event.
    fn answer_line(&mut self, line: &[u8]) -> Result<(), RunFault>
        requires room { HasRoom (place_of self.old) 1 }
        requires whole { Lacks 10 line.now }
        ensures near { OnOk result (IsNear (place_of self.old) 1 (place_of self.new)) }
        ensures played { OnOk result ((text : List ℕ)
            × Plays (line.now ∷ []) (place_of self.old) (place_of self.new) text
            × (self.new.text.items ≡ self.old.text.items ++ text)) }
        ensures kept { OnErr result (self.new.text.items ≡ self.old.text.items) }
        ensures stopped { IfErr result
            (λ fault. LineFails fault line.now (place_of self.old)) }
    {
        let Ok(said) = line_of(self.alloc, line) else {
            return Err(RunFault::Memory);
        };
        match said {
            Line::Bad => return Err(RunFault::BadLine(self.lines + 1)),
            Line::Skipped => {}
            Line::Event(event) => self.answer(event)?,
        }
        self.lines += 1;
        Ok(())
    }

    // Passes the event to the node, and appends to `self.text` the node's answer.
    fn answer(&mut self, event: OwnedEvent) -> Result<(), RunFault>
        requires room { HasRoom (place_of self.old) 1 }
        ensures handled { OnOk result ((text : List ℕ)
            × PlaysEvent (plain_owned event) (place_of self.old) (place_of self.new) text
            × (self.new.text.items ≡ self.old.text.items ++ text)) }
        ensures kept { OnErr result (self.new.text.items ≡ self.old.text.items) }
        ensures fault { IfErr result (λ fault. fault ≡ RunFault.Memory) }
    {
        self.outbox.clear();
        let mut octets = Vec::new(self.alloc);
        let event = lend(event, &mut octets);
        let outcome = self.node.step(event, &mut self.outbox);
        self.events += 1;
        let put = put_answer(
            &mut self.text,
            self.events,
            self.node.rules(),
            &outcome,
            &self.outbox,
        );
        let Ok(()) = put else {
            return Err(RunFault::Memory);
        };
        Ok(())
    }
}
