//! Putting a file together from segments that come in any order.

ghost use Rattle.std.specs.Prelude.{◌≡◌};
ghost use Rattle.ndn_names.specs.View.{components};
ghost use Rattle.ndn_segments.specs.Assembling.{Assembly};

use crate::fault::SegmentFault;
use crate::held::Held;
use crate::segment::Segment;
use ndn_names::NameBuf;
use ndn_packets::Data;
use ndn_tlv::Memory;
use std::alloc::Global;
use std::marker::Model;

/// What became of a segment that was not refused.
#[derive(Clone, Copy, Debug, PartialEq, Eq)]
pub enum Taken {
    /// The segment is new: it was written at once, or it is held until the segments before it come.
    Accepted,
    /// The segment had been accepted before, and nothing changed.
    Repeated,
}

/// Puts a file together from its segments. The assembler holds at most `window` segments: those
/// that came before a segment with a smaller number.
#[derive(Drop)]
pub struct Assembler {
    stem: NameBuf,
    limit: usize,
    window: usize,
    last: Option<u64>,
    next: u64,
    held: Held,
}

impl Model for Assembler {
    ghost use Rattle.ndn_segments.specs.Assembling.{Assembly, IsSound};

    ghost Value = { Assembly };

    ghost view = { λ a. record {
      stem = a.stem;
      limit = a.limit;
      window = a.window;
      last = a.last;
      next = a.next;
      held = a.held;
    } };

    ghost invariant = { λ a. IsSound a.last a.next a.held };
}

impl Assembler {
    ghost use Rattle.std.specs.Prelude.{◌≡◌, ◌↔◌, ◌≤◌, ◌<◌, ◌++◌, ◌-◌, ◌^◌, ℕ, IsTrue, MatchOption, Ok, Err, OnOk, OnErr};
    ghost use Rattle.ndn_names.specs.View.{components};
    ghost use Rattle.ndn_packets.specs.View.{plain_data};
    ghost use Rattle.ndn_segments.specs.Segment.{plain_segment};
    ghost use Rattle.ndn_segments.specs.Assembling.{start, answer_to, accepting, places_with, IsFinished, IsInReach, IsWanted, IsTaken, IsSegmentTaken};
    ghost use Rattle.ndn_segments.specs.Held.{in_order};
    ghost use Rattle.std.specs.List.{concat};

    /// Returns an assembler for the file with the name `stem`, which includes the version. Contents
    /// of more than `limit` octets are refused. `window` is the number of segments, from the next
    /// one to be written on, that are not refused as `BeyondWindow`. A window of 1 takes segments
    /// only in order, and a window of 0 takes none.
    pub fn new(alloc: Global, stem: NameBuf, limit: usize, window: usize) -> Assembler
        ensures { result ≡ start stem limit window }
    {
        Assembler {
            stem,
            limit,
            window,
            last: None,
            next: 0,
            held: Held::new(alloc),
        }
    }

    /// Takes a Data, and appends to `out` the octets of the file that follow those that were
    /// appended before.
    ///
    /// If the Data is refused, nothing changes. Returns the first fault that applies, in the order
    /// of `SegmentFault`. The signature is not verified.
    pub fn take(
        &mut self,
        alloc: Global,
        packet: &Data<'_>,
        out: &mut Vec<u8>,
    ) -> Result<Taken, SegmentFault>
        ensures { IsTaken self.old self.new packet.now.whole.now (plain_data packet.now)
            out.old.items out.new.items result }
    {
        let segment = Segment::read(self.stem.view(), packet)?;
        self.take_segment(alloc, segment, out)
    }

    /// Takes a segment of the file, as `take` takes a Data.
    fn take_segment(
        &mut self,
        alloc: Global,
        segment: Segment<'_>,
        out: &mut Vec<u8>,
    ) -> Result<Taken, SegmentFault>
        requires { segment.last < 2 ^ 64 - 1 }
        ensures { IsSegmentTaken self.old self.new (plain_segment segment.entry)
            out.old.items out.new.items result }
    {
        let taken = self.answer_to(segment)?;
        if let Taken::Accepted = taken {
            self.accept(alloc, segment, out)?;
        }
        Ok(taken)
    }

    /// Returns what becomes of a segment, if memory suffices.
    fn answer_to(&self, segment: Segment<'_>) -> Result<Taken, SegmentFault>
        ensures { result ≡ answer_to self.now (plain_segment segment.entry) }
    {
        if self.last.is_some_and(|last| last != segment.last) {
            return Err(SegmentFault::OtherFinalBlockId);
        }
        if segment.last < segment.number {
            return Err(SegmentFault::AboveLast);
        }
        if self.limit < segment.content.len() {
            return Err(SegmentFault::ContentTooLong);
        }
        if segment.number < self.next {
            return Ok(Taken::Repeated);
        }
        let index = segment.number - self.next;
        if self.window as u64 <= index {
            return Err(SegmentFault::BeyondWindow);
        }
        match self.held.content_at(index as usize) {
            None => Ok(Taken::Accepted),
            Some(held) if held == segment.content => Ok(Taken::Repeated),
            Some(_) => Err(SegmentFault::OtherContent),
        }
    }

    /// Writes or holds a segment that is accepted. If memory runs out, nothing changes.
    fn accept(
        &mut self,
        alloc: Global,
        segment: Segment<'_>,
        out: &mut Vec<u8>,
    ) -> Result<(), Memory>
        requires last { segment.last < 2 ^ 64 - 1 }
        requires accepted { answer_to self.old (plain_segment segment) ≡ Ok Taken.Accepted }
        ensures ok { OnOk result ((self.new ≡ accepting self.old (plain_segment segment.entry))
            × (out.new.items ≡ out.old.items
            ++ concat (in_order (places_with self.old (plain_segment segment.entry))))) }
        ensures err { OnErr result ((self.new ≡ self.old) × (out.new.items ≡ out.old.items)) }
    {
        let index = segment.number - self.next;
        if index == 0 {
            let count = self.held.put_first(segment.content, out)?;
            self.held.remove_first(count);
            self.next += count as u64;
        } else {
            self.held.place(alloc, index as usize, segment.content)?;
        }
        self.last = Some(segment.last);
        Ok(())
    }

    /// Returns the number of the last segment, or `None` if no segment has been accepted.
    pub fn last(&self) -> Option<u64>
        ensures { result ≡ self.now.last }
    {
        self.last
    }

    /// Returns the number of the first segment that has not been written, which is the number of
    /// segments that have been written.
    pub fn next(&self) -> u64
        ensures { result ≡ self.now.next }
    {
        self.next
    }

    /// Returns whether the last segment has been written.
    pub fn is_finished(&self) -> bool
        ensures { IsTrue result ↔ IsFinished self.now }
    {
        match self.last {
            None => false,
            Some(last) => last < self.next,
        }
    }

    /// Returns the least number that is at least `from` and is the number of a segment that would
    /// be accepted: it is neither written nor held, it is not above the last segment, and it is
    /// within the window. Returns `None` if there is no such number.
    pub fn next_wanted(&self, from: u64) -> Option<u64>
        ensures { MatchOption result
            ((n : ℕ) → from ≤ n → n < 2 ^ 64 → IsWanted self.now n → ⊥)
            (λ n. (from ≤ n) × IsWanted self.now n
            × ((m : ℕ) → from ≤ m → m < n → IsWanted self.now m → ⊥)) }
    {
        let mut number = from.max(self.next);
        while self.is_in_reach(number) {
            if self
                .held
                .content_at((number - self.next) as usize)
                .is_none()
            {
                return Some(number);
            }
            number += 1;
        }
        None
    }

    /// Returns whether a number that is not below the next segment is within the window and not
    /// above the last segment.
    fn is_in_reach(&self, number: u64) -> bool
        requires { self.now.next ≤ number }
        ensures exact { IsTrue result ↔ IsInReach self.now number }
        ensures small { IsTrue result → number < 2 ^ 64 - 1 }
    {
        if self.window as u64 <= number - self.next {
            return false;
        }
        match self.last {
            None => true,
            Some(last) => number <= last,
        }
    }
}
