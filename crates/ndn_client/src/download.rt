//! A file that is being fetched: which segments to ask for, and the octets that have come.

ghost use Rattle.std.specs.Prelude.{◌≡◌, ◌↔◌, List, IfOk, IsTrue, MatchOption};
ghost use Rattle.ndn_names.specs.View.{components};
ghost use Rattle.ndn_packets.specs.View.{plain_data};
ghost use Rattle.ndn_tlv.specs.Element.{Field};
ghost use Rattle.ndn_segments.specs.Assembling.{IsFinished, start};
ghost use Rattle.ndn_client.specs.Download.{IsSegmentUnder, IsStemOf, IsStep, IsTakenIn};

use crate::fault::Fault;
use interest_pipeline::{Pipeline, PipelineFault};
use key_files::KeyBook;
use ndn_explain::segment_of;
use ndn_jobs::ToolFault;
use ndn_names::component_type::SEGMENT;
use ndn_names::{Name, NameBuf};
use ndn_packets::{CONGESTION, DUPLICATE, Data, Frame, MAX_PACKET, read_frame};
use ndn_requests::{Failure, forged_in};
use ndn_segments::{Assembler, Segment, SegmentFault};
use std::alloc::Global;

/// The greatest number of Interests that have no answer yet. The answers to so many Interests fit in
/// the buffer that Linux gives to a socket.
const WINDOW: usize = 8;

/// A file that is being fetched.
#[derive(Drop)]
pub struct Download {
    /// The name of the file, with its version if it has one.
    stem: NameBuf,
    assembler: Assembler,
    pipeline: Pipeline,
}

impl Download {
    /// Returns the download of the file with the name `stem`, which includes the version. The
    /// Interest of a segment is sent at most `retries` + 1 times. The only error is `Memory`.
    pub fn new(alloc: Global, stem: NameBuf, retries: u32) -> Result<Download, Fault>
        ensures { IfOk result (λ download. download.assembler ≡ start stem MAX_PACKET WINDOW) }
    {
        let copy = NameBuf::from_name(alloc, stem.view())?;
        let Ok(pipeline) = Pipeline::new(alloc, WINDOW, retries) else {
            return Err(Fault::Tool(ToolFault::Memory));
        };
        Ok(Download {
            stem,
            assembler: Assembler::new(alloc, copy, MAX_PACKET, WINDOW),
            pipeline,
        })
    }

    /// Returns the name of the file, with its version if it has one.
    pub fn stem(&self) -> Name<'_>
        ensures { components result ≡ self.now.stem }
    {
        self.stem.view()
    }

    /// Returns whether the last segment has been appended to the text.
    pub fn is_finished(&self) -> bool
        ensures { IsTrue result ↔ IsFinished self.now.assembler }
    {
        self.assembler.is_finished()
    }

    /// Returns the segment whose Interest is to be sent at this moment, if there is one. Moments are
    /// in microseconds.
    pub fn next(&mut self, now: u64) -> Option<u64>
        ensures { self.new.assembler ≡ self.old.assembler }
    {
        self.pipeline.next(now)
    }

    /// Takes the losses of the Interests that have had no answer in time at this moment.
    pub fn expire(&mut self, now: u64)
        ensures { self.new.assembler ≡ self.old.assembler }
    {
        self.pipeline.expire(now);
    }

    /// Returns the moment at which `expire` is to be called if no answer comes before.
    pub fn deadline(&self) -> Option<u64> {
        self.pipeline.deadline()
    }

    /// Returns the segment that had no answer to its last Interest.
    pub fn gave_up(&self) -> Option<u64> {
        self.pipeline.gave_up()
    }

    /// Takes a datagram that came at this moment, and appends to `text` the octets of the file that
    /// follow those before. A datagram that brings neither a Data of the file nor a Nack for one of
    /// its segments changes nothing.
    ///
    /// # Errors
    ///
    /// `Forged` if the signature of a Data of the file is wrong, as far as it is checked,
    /// `NotSegment` if the Data is no segment of the file, and `NotDone` for a Nack, unless its reason
    /// is Congestion or Duplicate. Then, and if memory runs out, nothing is appended.
    pub fn take(
        &mut self,
        alloc: Global,
        datagram: &[u8],
        book: &KeyBook,
        now: u64,
        text: &mut Vec<u8>,
    ) -> Result<(), Fault>
        ensures { IsStep self.old.assembler self.new.assembler book.now datagram.now
            text.old.items text.new.items }
    {
        match read_frame(datagram) {
            Ok(Frame::Data(packet)) => {
                if !self.is_own(packet.name) {
                    return Ok(());
                }
                match forged_in(alloc, datagram, book)? {
                    None => self.take_data(alloc, &packet, now, text),
                    Some(name) => Err(Fault::Forged { name }),
                }
            }
            Ok(Frame::Nack { reason, interest }) => self.take_nack(reason, interest.name),
            _ => Ok(()),
        }
    }

    /// Returns whether the name is that of the file and one further component.
    fn is_own(&self, name: Name<'_>) -> bool {
        let stem = self.stem.view();
        name.len() == stem.len() + 1 && stem.is_prefix_of(name)
    }

    /// Takes a Data whose signature is right, or is not checked.
    fn take_data(
        &mut self,
        alloc: Global,
        packet: &Data<'_>,
        now: u64,
        text: &mut Vec<u8>,
    ) -> Result<(), Fault>
        ensures { IsTakenIn self.old.assembler self.new.assembler packet.now.whole.now
            (plain_data packet.now) text.old.items text.new.items }
    {
        let segment = match Segment::read(self.stem.view(), packet) {
            Ok(segment) => segment,
            Err(why) => return Err(not_segment(alloc, packet.name, why)),
        };
        match self.assembler.take(alloc, packet, text) {
            Ok(_) => {
                self.pipeline.answered(segment.number, now);
                self.pipeline.set_last(segment.last);
                Ok(())
            }
            // Nobody asked for this segment yet.
            Err(SegmentFault::BeyondWindow) => Ok(()),
            Err(why) => Err(not_segment(alloc, packet.name, why)),
        }
    }

    /// Takes a Nack for an Interest with this name.
    fn take_nack(&mut self, reason: u64, name: Name<'_>) -> Result<(), Fault>
        ensures { self.new.assembler ≡ self.old.assembler }
    {
        if !self.is_own(name) {
            return Ok(());
        }
        if reason != CONGESTION && reason != DUPLICATE {
            return Err(Fault::NotDone(Failure::Nack));
        }
        if let Some(number) = segment_of(name) {
            self.pipeline.lost(number);
        }
        Ok(())
    }
}

/// Returns the fault that the Data with this name is no segment of the file.
fn not_segment(alloc: Global, name: Name<'_>, why: SegmentFault) -> Fault {
    match NameBuf::from_name(alloc, name) {
        Ok(name) if why != SegmentFault::Memory => Fault::NotSegment { name, why },
        _ => Fault::Tool(ToolFault::Memory),
    }
}

/// Returns the name of the file, with its version if it has one, to which a Data belongs that was
/// found under the name `asked`: the Data's name without its last component, which must be a segment
/// component. Returns `None` if the Data belongs to no such file: if `asked` and one further
/// component, the version, are not enough.
pub fn stem_of<'a>(asked: Name<'_>, found: Name<'a>) -> Option<Name<'a>>
    ensures { MatchOption result
        ((stem : List Field) → IsStemOf (components asked.entry) (components found.entry) stem → ⊥)
        (λ stem. IsStemOf (components asked.entry) (components found.entry) (components stem)) }
{
    let stem = before_segment(found)?;
    if !asked.is_prefix_of(stem) {
        return None;
    }
    if stem.len() > asked.len() + 1 {
        return None;
    }
    Some(stem)
}

/// Returns the name without its last component, if this is a segment component.
fn before_segment(name: Name<'_>) -> Option<Name<'_>>
    ensures { MatchOption result
        ((stem : List Field) → IsSegmentUnder stem (components name.entry) → ⊥)
        (λ stem. IsSegmentUnder (components stem) (components name.entry)) }
{
    let len = name.len().checked_sub(1)?;
    let last = name.component(len)?;
    if last.kind != SEGMENT {
        return None;
    }
    Some(name.prefix(len))
}
