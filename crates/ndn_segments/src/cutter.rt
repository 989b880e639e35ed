//! Cutting a file into segments.

ghost use Rattle.std.specs.Prelude.{◌≤◌};

use crate::names::{segment_name, version_name};
use ndn_names::{MAX_COMPONENTS, Name, NameFault};
use ndn_packets::{DataWriter, Sign, WriteFault};
use ndn_tlv::Memory;
use std::alloc::Global;
use std::io;
use std::io::Read;
use thiserror::Error;

/// The usual number of octets in a piece. A Data with a piece of this length, a short name and a
/// signature fits in a packet of 8,800 octets.
pub const USUAL_SIZE: usize = 8000;

/// Why a file is not cut, or a segment is not written: the first of these faults that applies.
#[derive(Clone, Copy, Debug, PartialEq, Eq, Error)]
pub enum CutFault {
    /// A piece would have no octets.
    #[error("a segment must have at least one octet")]
    EmptyPieces,
    /// The file has no piece with this number and this many octets.
    #[error("the file has no piece with this number and this length")]
    NoSuchPiece,
    /// The name of the segment would have more than 64 components, or the Data would have more than
    /// 8,800 octets.
    #[error("the name has more than 64 components, or the Data has more than 8800 octets")]
    TooLong,
    /// Memory could not be allocated.
    #[error("out of memory")]
    Memory,
}

impl From<NameFault> for CutFault {
    ghost use Rattle.std.specs.Prelude.{◌≡◌};
    ghost use Rattle.ndn_segments.specs.CutFaults.{of_name};

    ghost from_gives = { λ why fault. fault ≡ of_name why };

    fn from(fault: NameFault) -> CutFault {
        match fault {
            NameFault::TooManyComponents => CutFault::TooLong,
            _ => CutFault::Memory,
        }
    }
}

impl From<WriteFault> for CutFault {
    ghost use Rattle.std.specs.Prelude.{◌≡◌};
    ghost use Rattle.ndn_segments.specs.CutFaults.{of_write};

    ghost from_gives = { λ why fault. fault ≡ of_write why };

    fn from(fault: WriteFault) -> CutFault {
        match fault {
            WriteFault::TooLong => CutFault::TooLong,
            _ => CutFault::Memory,
        }
    }
}

/// How one version of a file is cut into segments.
#[derive(Clone, Copy, Debug)]
pub struct Cutter<'a> {
    name: Name<'a>,
    version: u64,
    len: u64,
    size: usize,
    freshness: Option<u64>,
    sign: Sign<'a>,
    ghost sized: { 1 ≤ size },
}

impl<'a> Cutter<'a> {
    ghost use Rattle.std.specs.Prelude.{◌≡◌, ◌≢◌, ◌≤◌, ◌<◌, ◌++◌, ◌-◌, ◌^◌, ◌↔◌, MatchResult, OnOk, OnErr, IfOk, IfErr, IfSome, IsTrue, length, take};
    ghost use Rattle.ndn_names.specs.View.{components};
    ghost use Rattle.ndn_segments.specs.Cut.{plan_of, last_of, piece_len, segment_text, writer_for, IsNotPut, IsNotWritten, IsSegment, IsShort, Fits};

    /// Returns how a file of `len` octets is cut into pieces of `size` octets. The last piece may
    /// be shorter. `name` is the name of the file without the version. Each Data is signed as
    /// `sign` says, and has `freshness` as its FreshnessPeriod, in milliseconds.
    ///
    /// Returns `EmptyPieces` if `size` is 0, which is the only error.
    pub fn new(
        name: Name<'a>,
        version: u64,
        len: u64,
        size: usize,
        freshness: Option<u64>,
        sign: Sign<'a>,
    ) -> Result<Cutter<'a>, CutFault>
        ensures { MatchResult result
            (λ c. (1 ≤ size) × (plan_of c ≡ record {
              name = components name.entry;
              version = version;
              len = len;
              size = size;
              freshness = freshness;
              sign = sign.entry;
            }))
            (λ fault. (size ≡ 0) × (fault ≡ CutFault.EmptyPieces)) }
    {
        if size == 0 {
            return Err(CutFault::EmptyPieces);
        }
        Ok(Cutter {
            name,
            version,
            len,
            size,
            freshness,
            sign,
        })
    }

    /// Returns the number of the last segment. The first segment has number 0.
    pub fn last(&self) -> u64
        ensures exact { result ≡ last_of (plan_of self.now) }
        ensures small { result < 2 ^ 64 - 1 }
    {
        self.len.saturating_sub(1) / self.size as u64
    }

    /// Returns the number of octets in the piece with the number `number`, which is 0 if the file
    /// has no such piece.
    pub fn piece_len(&self, number: u64) -> usize
        ensures { result ≡ piece_len (plan_of self.now) number }
    {
        let before = number.saturating_mul(self.size as u64);
        self.size.min(usize::try_from(self.len.saturating_sub(before)).unwrap_or(usize::MAX))
    }

    /// Reads the piece with the number `number` from a reader that has the file from this piece on.
    /// The octets replace those in `piece`. If the reader ends before, there are fewer octets, and
    /// `write` refuses them.
    ///
    /// Returns the error of the reader, or an error if memory runs out.
    pub fn read_piece<R: Read>(
        &self,
        reader: &mut R,
        number: u64,
        piece: &mut Vec<u8>,
    ) -> io::Result<()>
        // If the octets of the reader are known, the piece is the first of these octets.
        ensures { OnOk result (IfSome (R.remaining reader.old)
            (λ octets. piece.new.items ≡ take (piece_len (plan_of self.now) number) octets)) }
    {
        piece.clear();
        reader
            .take(self.piece_len(number) as u64)
            .read_to_end(piece)?;
        Ok(())
    }

    /// Appends the Data of the segment with the number `number`. `piece` is the piece of the file
    /// with this number: the octets from `number` times the length of a piece on. The number of the
    /// last segment is the FinalBlockId (NDN Packet Format 0.3, "MetaInfo").
    ///
    /// If the segment cannot be written, nothing is appended. Returns `NoSuchPiece`, `TooLong` or
    /// `Memory`, the first that applies.
    pub fn write(
        &self,
        alloc: Global,
        number: u64,
        piece: &[u8],
        out: &mut Vec<u8>,
    ) -> Result<(), CutFault>
        ensures ok { OnOk result
            (out.new.items ≡ out.old.items ++ segment_text (plan_of self.now) number piece.now) }
        ensures err { OnErr result (out.new.items ≡ out.old.items) }
        ensures fault { IfErr result (IsNotWritten (plan_of self.now) number piece.now) }
        // The appended Data is read as the segment with this number and this piece.
        ensures segment { OnOk result (IsSegment (plan_of self.now) number piece.now) }
        ensures piece { OnOk result ((number ≤ last_of (plan_of self.now))
            × (length piece.now ≡ piece_len (plan_of self.now) number)) }
    {
        if self.last() < number || piece.len() != self.piece_len(number) {
            return Err(CutFault::NoSuchPiece);
        }
        self.put(alloc, number, piece, out)
    }

    /// Returns whether each segment fits in a packet of 8,800 octets, and its name in 64
    /// components. Then `write` never returns `TooLong`.
    pub fn fits(&self, alloc: Global) -> Result<bool, Memory>
        ensures { IfOk result (λ fits. IsTrue fits ↔ Fits (plan_of self.now)) }
    {
        let piece = vec![in alloc; 0; self.piece_len(0)]?;
        let mut out = Vec::new(alloc);
        match self.put(alloc, self.last(), &piece, &mut out) {
            Ok(()) => Ok(true),
            Err(CutFault::TooLong) => Ok(false),
            Err(_) => Err(Memory),
        }
    }

    /// Appends the Data of a segment with any number and any piece. If the segment cannot be
    /// written, nothing is appended.
    fn put(
        &self,
        alloc: Global,
        number: u64,
        piece: &[u8],
        out: &mut Vec<u8>,
    ) -> Result<(), CutFault>
        ensures ok { OnOk result
            (out.new.items ≡ out.old.items ++ segment_text (plan_of self.now) number piece.now) }
        ensures err { OnErr result (out.new.items ≡ out.old.items) }
        ensures fault { IfErr result (IsNotPut (plan_of self.now) number piece.now) }
        ensures segment { OnOk result (IsSegment (plan_of self.now) number piece.now) }
        ensures short { OnOk result (IsShort (plan_of self.now) number piece.now) }
    {
        if MAX_COMPONENTS < self.name.len() + 2 {
            return Err(CutFault::TooLong);
        }
        let stem = version_name(alloc, self.name, self.version)?;
        let name = segment_name(alloc, stem.view(), number)?;
        self.data(name.view(), piece).write(out)?;
        Ok(())
    }

    /// Returns the writer of the Data with this name and this piece.
    fn data<'b>(&self, name: Name<'b>, piece: &'b [u8]) -> DataWriter<'b>
    where
        'a: 'b,
        ensures writer { result ≡ writer_for (plan_of self.now) name.entry piece.entry }
        ensures last { last_of (plan_of self.now) < 2 ^ 64 - 1 }
    {
        DataWriter {
            name,
            freshness: self.freshness,
            last: Some(self.last()),
            content: Some(piece),
            sign: self.sign,
        }
    }
}
