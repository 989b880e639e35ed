ghost use Rattle.std.specs.Prelude.{◌≡◌, ◌↔◌, ◌⊎◌, ℕ, ◌+◌, ◌≤◌, [], None, Ok, true, false, length, IfSome, IsOk, IsTrue, MatchOption};
ghost use Rattle.ndn_streams.specs.Connection.{GivesPacket, IsDone, IsPartial, KeepsTime, Passes, after_sending, partial_at};
ghost use Rattle.ndn_streams.specs.Queue.{pushed, written};

use crate::packet_stream::PacketStream;
use std::io::{ErrorKind, Read, Write};
use std::marker::Model;

/// How often a connection is read at most before other connections are.
const READS: usize = 8;

/// A connection, for a face over TCP or a Unix socket: a stream that is read from a socket, and
/// written to it. A socket that would wait answers `WouldBlock`.
///
/// In clauses, a connection is a `ConnectionState`.
#[derive(Drop)]
pub struct Connection<W> {
    socket: W,
    stream: PacketStream,
    is_ready: bool,
    is_open: bool,
    takes_octets: bool,
    is_over: bool,
    begun: Option<u64>,
}

impl<W> Model for Connection<W> {
    ghost use Rattle.std.specs.Prelude.{◌≡◌, false, IsOk};
    ghost use Rattle.ndn_streams.specs.Connection.{ConnectionState};

    ghost Value = { ConnectionState };

    ghost view = { λ c. record {
      stream = c.stream;
      is_ready = c.is_ready;
      is_open = c.is_open;
      takes_octets = c.takes_octets;
      is_over = c.is_over;
      begun = c.begun;
    } };

    ghost invariant = { λ c. c.is_over ≡ false → IsOk c.stream.left };
}

impl<W: Read + Write> Connection<W> {
    /// Returns the connection over this socket, with a new stream.
    pub fn new(socket: W, stream: PacketStream) -> Connection<W>
        requires { (stream.left ≡ Ok []) × (stream.came ≡ []) }
        ensures { result ≡ record {
          stream = stream;
          is_ready = true;
          is_open = true;
          takes_octets = true;
          is_over = false;
          begun = None;
        } }
    {
        Connection {
            socket,
            stream,
            is_ready: true,
            is_open: true,
            takes_octets: true,
            is_over: false,
            begun: None,
        }
    }

    /// Returns the socket.
    pub fn socket(&mut self) -> &mut W {
        &mut self.socket
    }

    /// Notes that the socket may have octets, or may take octets.
    pub fn wake(&mut self)
        ensures { self.new ≡ record self.old { is_ready = true } }
    {
        self.is_ready = true;
    }

    /// Returns whether `next_packet` may return a packet, or `is_done` may return true, without
    /// waiting. If not, the program waits for the socket, and then calls `wake`.
    pub fn may_go_on(&self) -> bool
        ensures { IsTrue result
            ↔ (IsTrue self.now.is_ready ⊎ (IsDone self.now ⊎ ¬ (self.now.stream.came ≡ []))) }
    {
        self.is_ready || self.is_done() || !self.stream.wants_octets()
    }

    /// Returns whether octets wait to be written.
    pub fn is_writing(&self) -> bool
        ensures { IsTrue result ↔ ¬ (self.now.stream.queue.waiting ≡ []) }
    {
        self.stream.waits() > 0
    }

    /// Returns whether the face of the connection must close: a read has failed, the octets are no
    /// packets, or the other end has ended its sending and nothing that waits will be written.
    pub fn is_done(&self) -> bool
        ensures { IsTrue result ↔ IsDone self.now }
    {
        self.is_over || (!self.is_open && (self.stream.waits() == 0 || !self.takes_octets))
    }

    /// Copies the next packet that has come to the start of the buffer, as far as the buffer is
    /// long enough, and returns how many octets were copied. Returns `None` if no whole packet has
    /// come, or if the connection is over. Also writes what the socket takes of the octets that
    /// wait. If a write fails, nothing more is written, and the packets that come are still given.
    pub fn next_packet(&mut self, buffer: &mut [u8]) -> Option<usize>
        ensures packet { IfSome result
            (GivesPacket self.old.stream self.new.stream buffer.new) }
        ensures none { result ≡ None
            → IsTrue self.new.is_over ⊎ Passes self.old.stream self.new.stream [] }
        ensures over { IsTrue self.old.is_over → (result ≡ None) × (self.new ≡ self.old) }
        // Of the octets that wait, the first ones are written.
        ensures writes { (n : ℕ) × (self.new.stream.queue ≡ written self.old.stream.queue n) }
        ensures begun { MatchOption result (KeepsTime self.old self.new)
            (λ len. self.new.begun ≡ None) }
    {
        if self.is_over {
            return None;
        }
        self.write();
        for _ in 0..READS {
            if let Some(len) = self.cut(buffer) {
                return Some(len);
            }
            if self.is_over {
                return None;
            }
            if !self.read() {
                return None;
            }
        }
        None
    }

    /// Copies the next packet of the octets that have come to the start of the buffer.
    fn cut(&mut self, buffer: &mut [u8]) -> Option<usize>
        ensures packet { IfSome result
            (GivesPacket self.old.stream self.new.stream buffer.new) }
        ensures none { result ≡ None → IsTrue self.new.is_over
            ⊎ (Passes self.old.stream self.new.stream [] × (self.new.stream.came ≡ [])) }
        ensures queue { self.new.stream.queue ≡ self.old.stream.queue }
        ensures open { self.new.is_open ≡ self.old.is_open }
        ensures begun { MatchOption result (self.new.begun ≡ self.old.begun)
            (λ len. self.new.begun ≡ None) }
    {
        match self.stream.next_packet(buffer) {
            Ok(Some(len)) => {
                self.begun = None;
                Some(len)
            }
            Ok(None) => None,
            Err(_) => {
                self.is_over = true;
                None
            }
        }
    }

    /// Reads once, if the socket may have octets. Returns whether octets came. The connection must
    /// not be over.
    fn read(&mut self) -> bool
        requires came { self.old.stream.came ≡ [] }
        requires going { self.old.is_over ≡ false }
        ensures passes { Passes self.old.stream self.new.stream [] }
        ensures queue { self.new.stream.queue ≡ self.old.stream.queue }
        ensures begun { KeepsTime self.old self.new }
        ensures more { IsTrue result
            → (self.new.begun ≡ self.old.begun) × (self.new.is_open ≡ self.old.is_open) }
    {
        if !self.is_ready || !self.is_open {
            self.is_ready = false;
            return false;
        }
        match read_once(&mut self.stream, &mut self.socket) {
            Reading::Octets => return true,
            Reading::Interrupted => return false,
            Reading::Nothing => {}
            Reading::End => {
                self.is_open = false;
                self.begun = None;
            }
            Reading::Failure => self.is_over = true,
        }
        self.is_ready = false;
        false
    }

    /// Queues a packet, and writes what the socket takes of the octets that wait. Returns false if
    /// the queue has no room for the packet, which is dropped; if a write has failed, also this
    /// one; or if the connection is over.
    pub fn send(&mut self, packet: &[u8]) -> bool
        ensures over { IsTrue self.old.is_over → (result ≡ false) × (self.new ≡ self.old) }
        ensures failed { self.old.takes_octets ≡ false → (result ≡ false) × (self.new ≡ self.old) }
        ensures full { result ≡ false → (self.old.is_over ≡ false) → (self.new.takes_octets ≡ false)
            ⊎ ((length self.old.stream.queue.waiting + length packet.now
            ≤ self.old.stream.queue.limit → ⊥)
            × (self.new ≡ record self.old {
              stream = record self.old.stream {
                queue = pushed self.old.stream.queue packet.now;
              };
            })) }
        ensures sent { IsTrue result
            → (length self.old.stream.queue.waiting + length packet.now
            ≤ self.old.stream.queue.limit)
            × ((n : ℕ) × (self.new.stream ≡ after_sending self.old.stream packet.now n)) }
        // What is sent never ends the connection, nor changes what comes.
        ensures comes { self.new ≡ record self.old {
          stream = record self.old.stream { queue = self.new.stream.queue };
          takes_octets = self.new.takes_octets;
        } }
    {
        if self.is_over || !self.takes_octets || !self.stream.push(packet) {
            return false;
        }
        self.write();
        self.takes_octets
    }

    /// Writes what the socket takes of the octets that wait, unless a write has failed.
    fn write(&mut self)
        ensures writes { (n : ℕ) × (self.new ≡ record self.old {
          stream = record self.old.stream { queue = written self.old.stream.queue n };
          takes_octets = self.new.takes_octets;
        }) }
    {
        if self.takes_octets
            && self.stream.waits() > 0
            && self.stream.write_to(&mut self.socket).is_err()
        {
            self.takes_octets = false;
        }
    }

    /// Ends the connection if it is in the middle of a packet, the other end has ended its sending
    /// and still has not got all that waits for it, or a write has failed, and was found so `limit`
    /// milliseconds before `now`. Call it from time to time. `now` is in milliseconds since 1970.
    pub fn check(&mut self, now: u64, limit: u64)
        ensures partial { IsPartial self.old → self.new ≡ partial_at now limit self.old }
        ensures whole { ¬ (IsPartial self.old) → self.new ≡ record self.old { begun = None } }
    {
        if self.is_open && self.takes_octets && self.stream.is_between_packets() {
            self.begun = None;
            return;
        }
        // A clock that was set back begins the time anew.
        let begun = self.begun.unwrap_or(now).min(now);
        self.begun = Some(begun);
        self.is_over = self.is_over || now - begun >= limit;
    }
}

/// What one read of a socket came to.
#[derive(Clone, Copy)]
enum Reading {
    Octets,
    /// The socket would wait.
    Nothing,
    /// A signal interrupted the read.
    Interrupted,
    /// The other end has ended its sending.
    End,
    Failure,
}

/// Reads once from the socket.
fn read_once<R: Read>(stream: &mut PacketStream, socket: &mut R) -> Reading
    requires came { stream.old.came ≡ [] }
    requires whole { IsOk stream.old.left }
    ensures passes { Passes stream.old stream.new [] }
    ensures queue { stream.new.queue ≡ stream.old.queue }
{
    match stream.read_from(socket) {
        Ok(0) => Reading::End,
        Ok(_) => Reading::Octets,
        Err(error) => match error.kind() {
            ErrorKind::WouldBlock => Reading::Nothing,
            ErrorKind::Interrupted => Reading::Interrupted,
            _ => Reading::Failure,
        },
    }
}
