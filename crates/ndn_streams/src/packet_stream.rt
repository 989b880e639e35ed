ghost use Rattle.std.specs.Prelude.{◌≡◌, ◌≢◌, ◌↔◌, ℕ, ◌+◌, ◌<◌, ◌≤◌, [], ◌++◌, length, take, drop, min, IfOk, IfErr, OnErr, OnSome, IsTrue, Ok};
ghost use Rattle.std.specs.IoError.{error_kind};
ghost use Rattle.ndn_streams.specs.Cutting.{Gives, after_next, answer};
ghost use Rattle.ndn_streams.specs.Queue.{empty, pushed};
ghost use Rattle.ndn_streams.specs.PacketStream.{Reads, Writes, after_packet, copied, counts, filled};

use crate::cutter::Cutter;
use crate::fault::StreamFault;
use crate::queue::Queue;
use ndn_tlv::Memory;
use std::alloc::Global;
use std::io;
use std::io::{ErrorKind, Read, Write};
use std::marker::Model;

/// The greatest number of octets that `PacketStream::read_from` reads at once.
pub const INBOX: usize = 16_384;

/// One stream of packets in both directions, for a face over TCP or a Unix socket, as in NFD's
/// stream faces: a stream is its packets, one after another (NDN Packet Format 0.3,
/// "Type-Length-Value (TLV) Encoding"). It has no socket: the caller passes what is read from and
/// what is written to.
///
/// In clauses, a stream is a `StreamState`.
#[derive(Drop)]
pub struct PacketStream {
    inbox: Vec<u8>,
    // The octets of the inbox that came and were not cut yet.
    start: usize,
    end: usize,
    cutter: Cutter,
    queue: Queue,
}

impl Model for PacketStream {
    ghost use Rattle.std.specs.Prelude.{◌≡◌, ◌≤◌, length, slice_range};
    ghost use Rattle.ndn_streams.specs.PacketStream.{StreamState};
    ghost use Rattle.ndn_streams.specs.declared.packet_stream.TheConstants.{INBOX};

    ghost Value = { StreamState };

    ghost view = { λ s. record {
      left = s.cutter;
      came = slice_range s.inbox.items s.start s.end;
      queue = s.queue;
    } };

    ghost invariant = { λ s. (s.start ≤ s.end) × (s.end ≤ length s.inbox.items)
        × (length s.inbox.items ≡ INBOX) };
}

impl PacketStream {
    /// Returns a new stream, on which at most `limit` octets may wait to be written. This is the
    /// only call that takes memory: 16,384 octets for those that come, 9,000 octets for a packet
    /// that comes in parts, and twice `limit` octets for those that wait.
    pub fn new(alloc: Global, limit: usize) -> Result<PacketStream, Memory>
        ensures { IfOk result (λ s. s
            ≡ record { left = Ok []; came = []; queue = empty limit }) }
    {
        let inbox = vec![in alloc; 0; INBOX]?;
        let cutter = Cutter::new(alloc)?;
        let queue = Queue::new(alloc, limit)?;
        Ok(PacketStream {
            inbox,
            start: 0,
            end: 0,
            cutter,
            queue,
        })
    }

    /// Returns true if all octets that came were cut into packets, or are held as the beginning of
    /// a packet. Then `read_from` may be called.
    pub fn wants_octets(&self) -> bool
        ensures { IsTrue result ↔ (self.now.came ≡ []) }
    {
        self.start == self.end
    }

    /// Reads once from the source, at most 16,384 octets, and returns how many came. 0 octets come
    /// only at the end of the source. Returns each error of the source, also `WouldBlock` and
    /// `Interrupted`; then the stream is as it was.
    pub fn read_from<R: Read>(&mut self, source: &mut R) -> io::Result<usize>
        requires { self.old.came ≡ [] }
        ensures same { self.new ≡ record self.old { came = self.new.came } }
        ensures came { IfOk result (λ n. (length self.new.came ≡ n) × (n ≤ INBOX)) }
        ensures octets { Reads (R.remaining source.old) (R.remaining source.new)
            result self.new.came }
        ensures err { OnErr result (self.new ≡ self.old) }
    {
        let count = source.read(&mut self.inbox)?;
        self.start = 0;
        self.end = count;
        Ok(count)
    }

    /// Copies the next packet to the start of the buffer, and returns how many octets were copied.
    /// What does not fit in the buffer is cut off; a buffer of `MAX_FRAME` octets takes each packet
    /// whole. Returns `None` if more octets are needed.
    ///
    /// Returns a fault as soon as the octets are the beginning of no packet. Then each later call
    /// returns the same fault, and the octets that came stay.
    pub fn next_packet(&mut self, buffer: &mut [u8]) -> Result<Option<usize>, StreamFault>
        ensures state { self.new ≡ after_packet self.old }
        ensures exact { let given = answer self.old.left self.old.came in
            result ≡ copied (length buffer.old) given }
        ensures buffer { let given = answer self.old.left self.old.came in
            buffer.new ≡ filled buffer.old given }
        // What the answer says of the octets of the stream.
        ensures gives { Gives self.old.left self.old.came (answer self.old.left self.old.came) }
        // Fewer octets are left after a packet, so calls until no packet comes end.
        ensures fewer { IfOk result (λ found.
            OnSome found (length self.new.came < length self.old.came)) }
    {
        match cut(&mut self.cutter, &self.inbox[self.start..self.end], buffer)? {
            None => {
                self.start = self.end;
                Ok(None)
            }
            Some((count, after)) => {
                self.start = self.end - after;
                Ok(Some(count))
            }
        }
    }

    /// Returns true if the stream is between two packets: no octet of the next packet has come, and
    /// the stream has no fault. Otherwise a program may wait only so long for the rest of a packet.
    pub fn is_between_packets(&self) -> bool
        ensures { IsTrue result ↔ ((self.now.left ≡ Ok []) × (self.now.came ≡ [])) }
    {
        self.start == self.end && self.cutter.is_between_packets()
    }

    /// Appends a whole packet to those that wait to be written, and returns true. If more octets
    /// than the limit would wait, the packet is dropped and counted, and the stream returns false.
    pub fn push(&mut self, packet: &[u8]) -> bool
        ensures state { self.new ≡ record self.old { queue = pushed self.old.queue packet.now } }
        ensures fits { IsTrue result
            ↔ (length self.old.queue.waiting + length packet.now ≤ self.old.queue.limit) }
    {
        self.queue.push(packet)
    }

    /// Writes the octets that wait, until all are written or the sink answers `WouldBlock`. Returns
    /// true if all are written. A write that was `Interrupted` is tried again. After 2^64 - 1
    /// writes, the others are left to the next call.
    ///
    /// Returns the error `WriteZero` if the sink takes no octets, and each other error of the sink.
    /// Then the octets that were not written still wait.
    pub fn write_to<W: Write>(&mut self, sink: &mut W) -> io::Result<bool>
        ensures same { self.new ≡ record self.old { queue = self.new.queue } }
        ensures writes { Writes self.old.queue self.new.queue
            (W.contents sink.old) (W.contents sink.new) }
        ensures all { IfOk result (λ all. IsTrue all ↔ (self.new.queue.waiting ≡ [])) }
        ensures err { OnErr result (self.new.queue.waiting ≢ []) }
        ensures kind { IfErr result (λ e. (error_kind e ≢ ErrorKind.WouldBlock)
            × (error_kind e ≢ ErrorKind.Interrupted)) }
    {
        write_waiting(&mut self.queue, sink)
    }

    /// Returns how many octets wait to be written.
    pub fn waits(&self) -> usize
        ensures count { result ≡ length self.now.queue.waiting }
        ensures small { result ≤ self.now.queue.limit }
    {
        self.queue.len()
    }

    /// Returns how many packets were dropped. The count stops at 2^64 - 1.
    pub fn dropped(&self) -> u64
        ensures { result ≡ self.now.queue.dropped }
    {
        self.queue.dropped()
    }
}

/// Copies octets to the start of the buffer, as many as it takes, and returns how many.
#[inline(always)]
fn copy_front(packet: &[u8], buffer: &mut [u8]) -> usize
    ensures count { result ≡ min (length packet.now) (length buffer.old) }
    ensures octets { buffer.new
        ≡ take (length buffer.old) packet.now ++ drop (length packet.now) buffer.old }
{
    let count = packet.len().min(buffer.len());
    buffer[..count].copy_from_slice(&packet[..count]);
    count
}

/// Copies the next packet to the start of the buffer. Returns how many octets were copied, and how
/// many of those that came are left.
#[inline(always)]
fn cut(
    cutter: &mut Cutter,
    came: &[u8],
    buffer: &mut [u8],
) -> Result<Option<(usize, usize)>, StreamFault>
    ensures leaves { cutter.new ≡ after_next cutter.old came.now }
    ensures exact { result ≡ counts (length buffer.old) (answer cutter.old came.now) }
    ensures buffer { buffer.new ≡ filled buffer.old (answer cutter.old came.now) }
    ensures gives { Gives cutter.old came.now (answer cutter.old came.now) }
{
    match cutter.next(came)? {
        None => Ok(None),
        Some((packet, rest)) => Ok(Some((copy_front(packet, buffer), rest.len()))),
    }
}

/// Writes once. Returns false if the sink takes no octets for now.
fn write_once<W: Write>(queue: &mut Queue, sink: &mut W) -> io::Result<bool>
    requires { queue.old.waiting ≢ [] }
    ensures writes { Writes queue.old queue.new (W.contents sink.old) (W.contents sink.new) }
    ensures blocked { IfOk result (λ more. (queue.new.waiting ≡ []) → IsTrue more) }
    ensures err { OnErr result (queue.new.waiting ≢ []) }
    ensures kind { IfErr result (λ e. (error_kind e ≢ ErrorKind.WouldBlock)
        × (error_kind e ≢ ErrorKind.Interrupted)) }
{
    match sink.write(queue.front()) {
        Ok(0) => Err(io::Error::from(ErrorKind::WriteZero)),
        Ok(count) => {
            queue.written(count);
            Ok(true)
        }
        Err(error) if error.kind() == ErrorKind::WouldBlock => Ok(false),
        Err(error) if error.kind() == ErrorKind::Interrupted => Ok(true),
        Err(error) => Err(error),
    }
}

/// Writes until no octets wait, or the sink takes none for now. Returns whether none wait.
fn write_waiting<W: Write>(queue: &mut Queue, sink: &mut W) -> io::Result<bool>
    ensures writes { Writes queue.old queue.new (W.contents sink.old) (W.contents sink.new) }
    ensures all { IfOk result (λ all. IsTrue all ↔ (queue.new.waiting ≡ [])) }
    ensures err { OnErr result (queue.new.waiting ≢ []) }
    ensures kind { IfErr result (λ e. (error_kind e ≢ ErrorKind.WouldBlock)
        × (error_kind e ≢ ErrorKind.Interrupted)) }
{
    for _ in 0..u64::MAX {
        if queue.is_empty() {
            return Ok(true);
        }
        if !write_once(queue, sink)? {
            return Ok(false);
        }
    }
    Ok(queue.is_empty())
}
