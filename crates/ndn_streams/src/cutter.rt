ghost use Rattle.std.specs.Prelude.{◌≡◌, ◌↔◌, ℕ, ◌+◌, ◌<◌, ◌≤◌, [], ◌++◌, length, take, drop, vec_len, IfOk, IfSome, Ok, IsTrue, ⊤, if◌then◌else◌};
ghost use Rattle.std.specs.Borrow.{follows_so, sem};
ghost use Rattle.std.specs.Vec.{vec_capacity};
ghost use mathlib.Core.Option.{none};
ghost use Rattle.ndn_streams.specs.Cutting.{Gives, after_next, answer};
ghost use Rattle.ndn_streams.specs.Found.{found_plain};
ghost use Rattle.ndn_streams.specs.contracts.cutter.Cutter.{the_row};

use crate::buffer::append;
use crate::fault::StreamFault;
use crate::size::{MAX_FRAME, front_at};
use ndn_tlv::Memory;
use std::alloc::Global;
use std::marker::Model;

/// Cuts one stream of octets into its packets (NDN Packet Format 0.3, "Type-Length-Value (TLV)
/// Encoding"). A packet that lies whole in the octets of one call is not copied. Of any other
/// packet, each octet is copied once, into a buffer of 9,000 octets.
///
/// In clauses, a cutter is `Ok held`, with the octets that it holds, a beginning of a packet, or it
/// is `Err fault`, with the fault of the stream.
#[derive(Drop)]
pub struct Cutter {
    buffer: Vec<u8>,
    // The buffer has a packet that was returned.
    given: bool,
    fault: Option<StreamFault>,
}

impl Model for Cutter {
    ghost use Rattle.std.specs.Prelude.{◌≤◌};
    ghost use Rattle.std.specs.Vec.{vec_capacity};
    ghost use Rattle.ndn_streams.specs.Stream.{Left};
    ghost use Rattle.ndn_streams.specs.Cutting.{IsHeld, seen};
    ghost use Rattle.ndn_streams.specs.declared.size.TheConstants.{MAX_FRAME};

    ghost Value = { Left };

    ghost view = { λ c. seen c.fault c.given c.buffer.items };

    ghost invariant = { λ c. (MAX_FRAME ≤ vec_capacity c.buffer)
        × IsHeld (seen c.fault c.given c.buffer.items) };
}

impl Cutter {
    /// Returns a cutter for a new stream. This is the only call that takes memory: 9,000 octets.
    pub fn new(alloc: Global) -> Result<Cutter, Memory>
        ensures { IfOk result (λ cutter. cutter ≡ Ok []) }
    {
        let buffer = Vec::with_capacity(alloc, MAX_FRAME)?;
        Ok(Cutter {
            buffer,
            given: false,
            fault: None,
        })
    }

    /// Returns the next packet, and the octets after it. `octets` are the octets that have come,
    /// and that no earlier call has taken: after a packet, pass the octets after it. Returns `None`
    /// if more octets are needed. Then all octets are taken, and the next call gets the octets that
    /// come next.
    ///
    /// Returns a fault as soon as the octets are the beginning of no packet. Then the stream cannot
    /// go on, and each later call returns the same fault.
    pub fn next<'a, 'b: 'a>(
        &'a mut self,
        octets: &'b [u8],
    ) -> Result<Option<(&'a [u8], &'b [u8])>, StreamFault>
        // What is held, once the packet is no longer used.
        ensures* leaves { sem 𝓛 (follows_so the_row the_row self.entry.ghost_name none (λ _ _. ⊤)
            (λ left. left ≡ after_next self.old octets.now)) }
        ensures exact { found_plain result ≡ answer self.old octets.now }
        ensures gives { Gives self.old octets.now (found_plain result) }
        // Fewer octets are left after a packet, so calls with the octets that are left end.
        ensures fewer { IfOk result (λ found. IfSome found
            (λ x. length x.1.now < length octets.now)) }
    {
        if let Some(fault) = self.fault {
            return Err(fault);
        }
        let_go(&mut self.buffer, self.given);
        self.given = false;
        match front_at(&self.buffer, octets) {
            Err(fault) => {
                self.fault = Some(fault);
                Err(fault)
            }
            Ok(None) => {
                append(&mut self.buffer, octets);
                Ok(None)
            }
            Ok(Some(size)) => {
                if self.buffer.is_empty() {
                    return Ok(Some(octets.split_at(size)));
                }
                let rest = complete(&mut self.buffer, octets, size);
                self.given = true;
                Ok(Some((&self.buffer, rest)))
            }
        }
    }

    /// Returns true if the stream is between two packets: no octet of the next packet has come, and
    /// the stream has no fault. Otherwise a program may wait only so long for the rest of a packet.
    pub fn is_between_packets(&self) -> bool
        ensures { IsTrue result ↔ (self.now ≡ Ok []) }
    {
        self.fault.is_none() && (self.given || self.buffer.is_empty())
    }
}

/// Empties the buffer if what it has was given.
#[inline(always)]
fn let_go(buffer: &mut Vec<u8>, given: bool)
    ensures items { buffer.new.items ≡ (if given then [] else buffer.old.items) }
    ensures capacity { vec_capacity buffer.new ≡ vec_capacity buffer.old }
{
    if given {
        buffer.clear();
    }
}

/// Appends octets up to a size, for which there is capacity, and returns the octets after them.
#[inline(always)]
fn complete<'a>(buffer: &mut Vec<u8>, octets: &'a [u8], size: usize) -> &'a [u8]
    requires begun { vec_len buffer.old ≤ size }
    requires whole { size ≤ vec_len buffer.old + length octets.now }
    requires fits { size ≤ vec_capacity buffer.old }
    ensures items { buffer.new.items ≡ take size (buffer.old.items ++ octets.now) }
    ensures rest { result.now ≡ drop size (buffer.old.items ++ octets.now) }
    ensures capacity { vec_capacity buffer.old ≤ vec_capacity buffer.new }
{
    let (missing, rest) = octets.split_at(size - buffer.len());
    append(buffer, missing);
    rest
}
