//! Connections over WebSocket whose opening handshake is not done, and which have no face yet.
ghost use Rattle.std.specs.Prelude.{◌≤◌, ℕ, List, map, string_bytes, take, vec_len};
ghost use Rattle.net_ports.specs.Handshakes.{AnswersAllowed};

use crate::head_first::HeadFirst;
use crate::packet_socket::{PacketSocket, limits};
use crate::wire::Wire;
use face_table::Link;
use mio::net::TcpStream;
use std::alloc::Global;
use std::io::{ErrorKind, Read, Write};
use tungstenite::handshake::server;
use tungstenite::{HandshakeError, MidHandshake, NoCallback, ServerHandshake};
use websocket_requests::{MAX_HEAD, Progress, RequestFault, check};

/// How many opening handshakes go on at once. A further one ends the oldest.
pub const HANDSHAKES: usize = 16;

/// How often the socket of a handshake is read before other sockets are.
const READS: usize = 8;

type Answering = MidHandshake<ServerHandshake<HeadFirst, NoCallback>>;

/// How far a handshake has come.
#[derive(Drop)]
enum Stage {
    /// So many octets of the head of the request have come.
    Request(TcpStream, Vec<u8>, usize),
    /// The request is allowed, and is being answered.
    Answer(Answering),
    /// The handshake is done.
    Done(PacketSocket),
    /// The handshake has failed.
    Over,
}

/// The opening handshake of a connection over WebSocket (RFC 6455 section 4.2).
#[derive(Drop)]
pub struct Handshake {
    link: Link,
    number: u64,
    /// When the connection was accepted, in milliseconds since 1970.
    begun: u64,
    /// Whether the socket may have octets, or take octets.
    is_ready: bool,
    stage: Stage,
}

impl Handshake {
    /// Begins the handshake of the connection with this number. Returns `None` if memory runs out.
    pub fn new(
        alloc: Global,
        socket: TcpStream,
        number: u64,
        link: Link,
        now: u64,
    ) -> Option<Handshake> {
        let head = vec![in alloc; 0; MAX_HEAD].ok()?;
        Some(Handshake {
            link,
            number,
            begun: now,
            is_ready: true,
            stage: Stage::Request(socket, head, 0),
        })
    }

    /// Goes on as far as the socket allows.
    fn go_on(&mut self, alloc: Global, origins: &[String]) {
        if !self.is_ready {
            return;
        }
        let stage = match std::mem::replace(&mut self.stage, Stage::Over) {
            Stage::Request(socket, head, len) => self.read(alloc, socket, head, len, origins),
            stage => stage,
        };
        self.stage = match stage {
            Stage::Answer(answering) => self.answer(alloc, answering),
            stage => stage,
        };
    }

    /// Reads the head of the request, and decides on what has come.
    fn read(
        &mut self,
        alloc: Global,
        mut socket: TcpStream,
        mut head: Vec<u8>,
        mut len: usize,
        origins: &[String],
    ) -> Stage
        ensures { (octets : List ℕ) × AnswersAllowed (map string_bytes origins.now) octets result }
    {
        for _ in 0..READS {
            match read_behind(&mut socket, &mut head, len) {
                Reading::Octets(count) => len = count,
                Reading::Nothing => {
                    self.is_ready = false;
                    break;
                }
                Reading::Failure => return Stage::Over,
            }
        }
        decide(alloc, socket, head, len, origins)
    }

    /// Goes on with the answer.
    fn answer(&mut self, alloc: Global, answering: Answering) -> Stage {
        match answering.handshake() {
            Ok(socket) => Stage::Done(PacketSocket::new(alloc, socket)),
            Err(HandshakeError::Interrupted(rest)) => {
                self.is_ready = false;
                Stage::Answer(rest)
            }
            Err(HandshakeError::Failure(_)) => Stage::Over,
        }
    }
}

/// Decides on the first `len` octets of the head, which have come. A request is answered only if it
/// is allowed.
fn decide(
    alloc: Global,
    mut socket: TcpStream,
    mut head: Vec<u8>,
    len: usize,
    origins: &[String],
) -> Stage
    ensures { AnswersAllowed (map string_bytes origins.now) (take len head.items) result }
{
    let Some(octets) = head.get(..len) else {
        return Stage::Over;
    };
    match check(octets, origins) {
        Ok(Progress::Begun) => Stage::Request(socket, head, len),
        Ok(Progress::Allowed) => {
            head.truncate(len);
            let stream = HeadFirst {
                socket,
                head,
                given: 0,
            };
            Stage::Answer(server::start(alloc, stream, NoCallback, Some(limits())))
        }
        Err(fault) => {
            // If the answer cannot be written at once, the connection ends without it.
            let _written = socket.write(refusal_of(fault));
            Stage::Over
        }
    }
}

/// What one read of a head came to.
#[derive(Clone, Copy)]
enum Reading {
    /// So many octets have come in all.
    Octets(usize),
    Nothing,
    Failure,
}

/// Reads once behind the first `len` octets of the head.
fn read_behind(socket: &mut TcpStream, head: &mut [u8], len: usize) -> Reading {
    let Some((_, room)) = head.split_at_mut_checked(len) else {
        return Reading::Failure;
    };
    if room.is_empty() {
        return Reading::Octets(len);
    }
    match socket.read(room) {
        Ok(0) => Reading::Failure,
        Ok(count) => Reading::Octets(len.saturating_add(count)),
        Err(error) if error.kind() == ErrorKind::WouldBlock => Reading::Nothing,
        Err(error) if error.kind() == ErrorKind::Interrupted => Reading::Octets(len),
        Err(_) => Reading::Failure,
    }
}

/// Returns the answer to a request that is refused: status 403 for a wrong Origin (RFC 6455
/// section 10.2), and else 400.
fn refusal_of(fault: RequestFault) -> &'static [u8] {
    match fault {
        RequestFault::NoOrigin | RequestFault::TwoOrigins | RequestFault::OtherOrigin => {
            b"HTTP/1.1 403 Forbidden\r\nConnection: close\r\nContent-Length: 0\r\n\r\n"
        }
        RequestFault::TooLong | RequestFault::BadLine | RequestFault::OctetsAfter => {
            b"HTTP/1.1 400 Bad Request\r\nConnection: close\r\nContent-Length: 0\r\n\r\n"
        }
    }
}

/// Stores a handshake. If there are too many, the oldest ends.
pub fn add(handshakes: &mut Vec<Handshake>, handshake: Handshake)
    ensures { vec_len handshakes.old ≤ HANDSHAKES → vec_len handshakes.new ≤ HANDSHAKES }
{
    if handshakes.len() >= HANDSHAKES {
        let _oldest = handshakes.remove(0);
    }
    // If memory runs out, the connection is closed.
    let _stored = handshakes.push(handshake);
}

/// Goes on with all handshakes, and returns the connection of one that is done.
pub fn next_done(
    handshakes: &mut Vec<Handshake>,
    alloc: Global,
    origins: &[String],
) -> Option<(Wire, Link)> {
    for handshake in handshakes.iter_mut() {
        handshake.go_on(alloc, origins);
    }
    handshakes.retain(|handshake| !matches!(handshake.stage, Stage::Over));
    let place = handshakes
        .iter()
        .position(|handshake| matches!(handshake.stage, Stage::Done(_)))?;
    let Handshake { link, stage, .. } = handshakes.remove(place);
    match stage {
        Stage::Done(socket) => Some((Wire::WebSocket(socket), link)),
        _ => None,
    }
}

/// Notes that the socket of the handshake with this number may go on.
pub fn wake(handshakes: &mut [Handshake], number: u64) {
    for handshake in handshakes.iter_mut() {
        if handshake.number == number {
            handshake.is_ready = true;
        }
    }
}

/// Returns whether some handshake may go on.
pub fn may_go_on(handshakes: &[Handshake]) -> bool {
    handshakes.iter().any(|handshake| handshake.is_ready
        || matches!(handshake.stage, Stage::Done(_)))
}

/// Ends the handshakes that have gone on for `limit` milliseconds at the time `now`.
pub fn end_late(handshakes: &mut Vec<Handshake>, now: u64, limit: u64) {
    // A clock that was set back begins the time anew.
    for handshake in handshakes.iter_mut() {
        handshake.begun = handshake.begun.min(now);
    }
    handshakes.retain(|handshake| now.saturating_sub(handshake.begun) < limit);
}
