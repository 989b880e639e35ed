ghost use Rattle.std.specs.Prelude.{◌≡◌, ◌↔◌, ◌+◌, ◌≤◌, [], ◌++◌, length, drop, vec_len, IfOk, IsTrue};
ghost use Rattle.std.specs.Vec.{vec_capacity};
ghost use Rattle.ndn_streams.specs.Queue.{pushed, written};

use crate::buffer::append;
use ndn_tlv::Memory;
use std::alloc::Global;
use std::marker::Model;

/// The packets that wait to be written to one stream, at most a stated number of octets. Only whole
/// packets are taken.
///
/// In clauses, a queue is a `QueueState`.
#[derive(Drop)]
pub struct Queue {
    buffer: Vec<u8>,
    // How many octets at the front of the buffer were written.
    done: usize,
    limit: usize,
    dropped: u64,
}

impl Model for Queue {
    ghost use Rattle.std.specs.Prelude.{◌+◌, ◌≤◌, drop, length};
    ghost use Rattle.std.specs.Vec.{vec_capacity};
    ghost use Rattle.ndn_streams.specs.Queue.{QueueState};

    ghost Value = { QueueState };

    ghost view = { λ q. record {
      limit = q.limit;
      waiting = drop q.done q.buffer.items;
      dropped = q.dropped;
    } };

    ghost invariant = { λ q. (q.done ≤ length q.buffer.items)
        × (length q.buffer.items ≤ q.done + q.limit) × (q.limit ≤ vec_capacity q.buffer) };
}

impl Queue {
    /// Returns a queue in which at most `limit` octets may wait. This is the only call that takes
    /// memory: twice so many octets.
    pub fn new(alloc: Global, limit: usize) -> Result<Queue, Memory>
        ensures { IfOk result (λ queue. queue
            ≡ record { limit = limit; waiting = []; dropped = 0 }) }
    {
        let buffer = Vec::with_capacity(alloc, limit.saturating_mul(2))?;
        Ok(Queue {
            buffer,
            done: 0,
            limit,
            dropped: 0,
        })
    }

    /// Appends a whole packet, and returns true. If more octets than the limit would wait, the
    /// packet is dropped and counted, and the queue returns false.
    ///
    /// A packet is copied once. If it does not fit behind the octets that wait, these are moved to
    /// the start of the buffer. Since their last move, more octets were written than wait, so on
    /// average each octet is moved at most once.
    pub fn push(&mut self, packet: &[u8]) -> bool
        ensures state { self.new ≡ pushed self.old packet.now }
        ensures fits { IsTrue result
            ↔ (length self.old.waiting + length packet.now ≤ self.old.limit) }
    {
        if packet.len() > self.limit - (self.buffer.len() - self.done) {
            self.dropped = self.dropped.saturating_add(1);
            return false;
        }
        self.done = make_room(&mut self.buffer, self.done, packet.len());
        append(&mut self.buffer, packet);
        true
    }

    /// Returns the octets to be written next: all that wait.
    pub fn front(&self) -> &[u8]
        ensures { result.now ≡ self.now.waiting }
    {
        &self.buffer[self.done..]
    }

    /// Removes the first `count` octets of `front`, which were written.
    pub fn written(&mut self, count: usize)
        requires { count ≤ length self.old.waiting }
        ensures { self.new ≡ written self.old count }
    {
        self.done += count;
        if self.done == self.buffer.len() {
            self.buffer.clear();
            self.done = 0;
        }
    }

    /// Returns how many octets wait.
    pub fn len(&self) -> usize
        ensures count { result ≡ length self.now.waiting }
        ensures small { result ≤ self.now.limit }
    {
        self.buffer.len() - self.done
    }

    /// Returns true if no octets wait.
    pub fn is_empty(&self) -> bool
        ensures { IsTrue result ↔ (self.now.waiting ≡ []) }
    {
        self.len() == 0
    }

    /// Returns how many packets were dropped. The count stops at 2^64 - 1.
    pub fn dropped(&self) -> u64
        ensures { result ≡ self.now.dropped }
    {
        self.dropped
    }
}

/// Returns where the octets that wait begin, after they were moved to the start of the buffer, if
/// otherwise there is no capacity for `count` more.
#[inline(always)]
fn make_room(buffer: &mut Vec<u8>, done: usize, count: usize) -> usize
    requires within { done ≤ vec_len buffer.old }
    requires fits { vec_len buffer.old + count ≤ done + vec_capacity buffer.old }
    ensures waiting { drop result buffer.new.items ≡ drop done buffer.old.items }
    ensures within { result ≤ vec_len buffer.new }
    ensures room { vec_len buffer.new + count ≤ vec_capacity buffer.new }
    ensures capacity { vec_capacity buffer.new ≡ vec_capacity buffer.old }
{
    if count <= buffer.capacity() - buffer.len() {
        return done;
    }
    buffer.drain(..done);
    0
}
