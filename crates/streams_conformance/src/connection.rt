//! What connections read from a socket and write to it, and when they end.

use crate::packet_stream::{Steps, count_of, put_got};
use crate::rows::check_rows;
use crate::words::{put_packet, put_word};
use ndn_streams::{Connection, MAX_FRAME, PacketStream};
use std::alloc::Global;
use std::io;
use std::io::{Read, Write};
use test_support::octets;

/// Each row has the limit of a connection's queue, how many octets a read of the socket gives at
/// most, and calls. `r0500` and `r00x9` give the socket octets that the other end has sent. Once
/// they are read, a read answers `WouldBlock`; after `e` it answers that the other end has ended
/// its sending, after `x` it fails, and after `i` the next one is `Interrupted`. `t2i0b` has the
/// socket take two octets at its next write, then answer `Interrupted`, then take none, and then
/// answer `WouldBlock`; `x` stands for another error. After these steps it takes all octets. These
/// calls show nothing, and do not tell the connection: `w` wakes it.
///
/// `n` shows the next packet, or `none`. `s0102` sends a packet, and shows `+` if it is taken and
/// `-` if it is dropped. `g` shows what the socket has taken since the last `g`, or `.` if nothing.
/// `?` shows `done` if the face must close, `go` if the connection may go on, and `wait` if it
/// waits for the socket. `!` shows `writes` if octets wait to be written, and `wrote` if not.
/// `c100` checks the connection at the time 100, with a limit of 10 milliseconds, and shows
/// nothing.
const CALLS: &str = "
# Packets that come together, in parts, and with the beginning of the next.
9 99 r050101060102 n n n ? -> 050101 060102 none wait
9 99 r05 n w r02 n w r01026400 n n n ? -> none none 05020102 6400 none wait
9 99 r05 n w r0101 r06 n n w r00 n n ? -> none 050101 none 0600 none wait
9 1 r050101 r06020102 n n n ? -> 050101 06020102 none wait
9 999 r06fd0190 r0708x200 r0500 n n n -> 06fd0190..404 0500 none
# More octets than one read gives; others get their turn after eight reads.
9 1 r050a r00x10 n ? n n ? -> none go 050a0000..12 none wait
9 9999 r05fd2324 r00x8996 r06fd2324 r00x8996 n n n -> 05fd2324..9000 06fd2324..9000 none
# After WouldBlock, nothing is read until the connection is woken.
9 99 ? n ? r0500 n ? w ? n n ? -> go none wait none wait go 0500 none wait
# An interrupted read is tried again at the next call.
9 99 i n ? r0500 n n ? -> none go 0500 none wait
9 99 r0502 i n ? r0102 n -> none go 05020102
# The other end has ended its sending: between packets, in a packet, and at once.
9 99 r05000600 e n ? n ? n ? n ? -> 0500 go 0600 go none done none done
9 99 r0502 e n ? -> none done
9 99 e n ? n ? -> none done none done
# What waits is still written then, and is all written before the connection is done.
9 99 t1bb s010203 e n ? g w ? n ? g -> + none wait 01 go none done 0203
9 99 t1bb1b s010203 e n ? w n ? s04 ? g -> + none wait none wait + done 01020304
9 99 ! t1b s010203 ! n ! g -> wrote + writes none wrote 010203
# A failed read ends the connection, after the packets before it.
9 99 r0500 x n ? n ? n s01 g -> 0500 go none done none - .
9 99 r0502 x n ? w r0102 n ? -> none done none done
# After a failed write nothing is written, nor to a socket that takes nothing; what comes is given.
9 99 tx s0102 ? r0500 w n s03 g e n ? -> - go 0500 - . none done
9 99 t1x s0102 ? s03 g n ? e w n ? -> - go - 01 none wait none done
9 99 tbx s0102 ? n ? n s03 g e w n ? -> + go none wait none - . none done
9 99 t0 s0102 ? n ? -> - go none wait
9 99 tx r05000600 s01 e n n ? n ? -> - 0500 0600 go none done
9 99 tbx s01 e n ? s02 g -> + none done - .
9 99 tbx r05 s01 e n ? -> + none done
# Octets that are no packets end the connection, after the packets before them.
9 99 r05000700 n ? n ? n s01 g -> 0500 go none done none - .
9 99 r07 n ? w r0500 n -> none done none
9 99 r05fd00 n ? w rfc n ? -> none wait none done
9 99 r05fd2325 n ? -> none done
# A packet is written in parts, when the connection is asked for packets.
9 99 t1b2b s0102030405 g n g w n g n g -> + 01 none 0203 none 0405 none .
9 99 tbb s0102 s0304 g r0500 n g -> + + . 0500 01020304
9 99 t1ii1 s010203 g -> + 010203
# A packet for which the queue has no room is dropped whole, and a later one that fits is taken.
3 99 tbb s0102 s0304 s05 g n g s060708 g ? -> + - + . none 010205 + 060708 wait
3 99 t1bb s0102 s030405 s0304 g n g -> + - + 01 none 020304
3 99 s01020304 g s01 g -> - . + 01
0 99 s01 ? r0500 n -> - go 0500
# A packet that is begun and not whole 10 milliseconds after it was found so.
9 99 r0502 n c100 ? c109 ? c110 ? n s01 -> none wait wait done none -
9 99 r0502 n c100 c110 w r0102 n ? -> none none done
9 99 r0502 n c100 w r01 n c109 ? c110 ? -> none none wait done
9 99 r0502 n c100 c50 ? c59 ? c60 ? -> none wait wait done
# A whole packet in between resets this, and so does a time between packets.
9 99 r0502 n c100 w r010205 n n c109 c118 ? c119 ? -> none 05020102 none wait done
9 99 r0502 n c100 w r0102 n n w r05 n c120 c129 ? c130 ? -> none 05020102 none none wait done
9 99 r0502 n c100 w r0102 n n c105 w r05 n c111 c120 ? c121 ? -> none 05020102 none none wait done
# A connection between packets never ends by it, also while octets wait to be written.
9 99 n c100 c110 c99999 ? r0500 w n -> none wait 0500
9 99 tbb s01 n c100 c110 c99999 ? n g -> + none wait none 01
# After a failed write, the other end has as long to end its sending.
9 99 tx s01 n c100 c109 ? c110 ? -> - none wait done
9 99 tx s01 r0500 n c100 w r0600 n n c105 c114 ? c115 ? -> - 0500 0600 none wait done
# What waits at the end of the other end's sending has as long.
9 99 tbbbb s01 e n c100 c109 ? c110 ? n g -> + none wait done none .
9 99 tbb s01 e n c100 w n ? g -> + none none done 01
";

/// A socket that does what the comment of `CALLS` says.
#[derive(Drop)]
struct Socket<'a> {
    sent: Vec<u8>,
    /// How many of these octets were read.
    done: usize,
    /// How many octets a read gives at most.
    size: usize,
    /// What a read answers after these octets, as a step of `Steps`.
    last: u8,
    sink: Steps<'a>,
}

impl Read for Socket<'_> {
    fn read(&mut self, buf: &mut [u8]) -> io::Result<usize> {
        let rest = self.sent.get(self.done..).unwrap_or_default();
        let count = self.size.min(rest.len()).min(buf.len());
        if count > 0 {
            buf[..count].copy_from_slice(&rest[..count]);
            self.done = self.done.saturating_add(count);
            return Ok(count);
        }
        let last = self.last;
        if last == b'i' {
            self.last = b'b';
        }
        count_of(last).map(|count| count.min(buf.len()))
    }
}

impl Write for Socket<'_> {
    fn write(&mut self, buf: &[u8]) -> io::Result<usize> {
        self.sink.write(buf)
    }

    fn flush(&mut self) -> io::Result<()> {
        Ok(())
    }
}

/// Appends the next packet, or `none`.
fn put_next(
    alloc: Global,
    connection: &mut Connection<Socket<'_>>,
    text: &mut String,
) -> Option<()> {
    let mut buffer = vec![in alloc; 0; MAX_FRAME].ok()?;
    match connection.next_packet(&mut buffer) {
        Some(count) => put_packet(alloc, text, buffer.get(..count)?),
        None => put_word(text, "none"),
    }
}

/// Returns the word for whether the connection may go on, and whether it is done.
fn state_word(may_go_on: bool, is_done: bool) -> &'static str {
    match (may_go_on, is_done) {
        (true, true) => "done",
        (true, false) => "go",
        (false, false) => "wait",
        (false, true) => "wrong",
    }
}

/// Changes what the socket does, if the word says so. Returns false otherwise.
fn change<'a>(alloc: Global, socket: &mut Socket<'a>, kind: &str, rest: &'a str) -> Option<bool> {
    match kind {
        "r" => socket.sent.extend_from_slice(&octets(alloc, rest)?).ok()?,
        "e" => socket.last = b'0',
        "x" => socket.last = b'x',
        "i" => socket.last = b'i',
        "t" => socket.sink.steps = rest.as_bytes(),
        _ => return Some(false),
    }
    Some(true)
}

/// Appends what the socket has taken.
fn put_taken(alloc: Global, socket: &mut Socket<'_>, text: &mut String) -> Option<()> {
    put_got(alloc, &socket.sink.got, text)?;
    socket.sink.got.clear();
    Some(())
}

/// Makes the call that a word spells.
fn call<'a>(
    alloc: Global,
    connection: &mut Connection<Socket<'a>>,
    word: &'a str,
    text: &mut String,
) -> Option<()> {
    let (kind, rest) = word.split_at_checked(1)?;
    if change(alloc, connection.socket(), kind, rest)? {
        return Some(());
    }
    match kind {
        "n" => put_next(alloc, connection, text)?,
        "s" if connection.send(&octets(alloc, rest)?) => put_word(text, "+")?,
        "s" => put_word(text, "-")?,
        "g" => put_taken(alloc, connection.socket(), text)?,
        "?" => put_word(
            text,
            state_word(connection.may_go_on(), connection.is_done()),
        )?,
        "!" if connection.is_writing() => put_word(text, "writes")?,
        "!" => put_word(text, "wrote")?,
        "w" => connection.wake(),
        "c" => connection.check(rest.parse().ok()?, 10),
        _ => return None,
    }
    Some(())
}

fn shown(alloc: Global, words: &str) -> Option<String> {
    let mut words = words.split_ascii_whitespace();
    let stream = PacketStream::new(alloc, words.next()?.parse().ok()?).ok()?;
    let socket = Socket {
        sent: Vec::new(alloc),
        done: 0,
        size: words.next()?.parse().ok()?,
        last: b'b',
        sink: Steps {
            steps: &[],
            got: Vec::new(alloc),
        },
    };
    let mut connection = Connection::new(socket, stream);
    let mut text = String::new(alloc);
    for word in words {
        call(alloc, &mut connection, word, &mut text)?;
    }
    Some(text)
}

#[test]
fn connections_at_calls(rt: HostRuntime) {
    check_rows(&rt, rt.alloc(), CALLS, shown);
}
