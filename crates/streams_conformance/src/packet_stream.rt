//! What streams in both directions read and write.

use crate::rows::check_rows;
use crate::words::{end_word, put_packet, put_word};
use ndn_streams::{INBOX, MAX_FRAME, PacketStream};
use std::alloc::Global;
use std::io;
use std::io::{ErrorKind, Read, Write};
use test_support::octets;

/// Each row has the octets of a stream. The text has its packets, and then `.` if the stream ends
/// between two packets, `~` if it ends in a packet, or the fault. It is the same however many
/// octets come at a time.
const STREAMS: &str = "
050101 06020102 6400 -> 050101 06020102 6400 .
0503616263 06fd0190 0708x200 6400 -> 0503616263 06fd0190..404 6400 .
05020102 0600 0502 -> 05020102 0600 ~
# More octets than come at a time.
05fd2324 00x8996 06fd2324 00x8996 64fd00fd 00x253 -> 05fd2324..9000 06fd2324..9000 64fd00fd..257 .
# The packets before a fault come first.
0500 06020102 05fd0001 0500 -> 0500 06020102 shortest
0500 0700 -> 0500 type
05fd2325 -> long
";

/// How many octets come at a time.
const SIZES: [usize; 12] = [1, 2, 3, 4, 5, 7, 100, 8999, 9001, 16_384, 16_385, 20_000];

/// Each row has the limit of a stream, and calls. `r0500` reads from a source with these octets,
/// and shows how many came, or `wait` if octets wait to be cut. `x` reads from a source that fails.
/// `n` shows the next packet, or what `STREAMS` shows at an end; `n2` copies it into two octets.
///
/// `p0102` pushes a packet, and shows `+` if it is taken and `-` if it is dropped. `l` shows how
/// many octets wait to be written, and `d` how many packets were dropped. `w` writes to a sink that
/// takes all octets. In `w2i0`, the sink takes two octets at its first call, then answers
/// `Interrupted`, and then takes none; `b` stands for `WouldBlock`, and `x` for another error. The
/// text has what the sink got, or `.` if nothing, and then `all` if all octets are written, `wait`
/// if some wait, or the error.
const CALLS: &str = "
# Packets that come together, in parts, and with the beginning of the next.
0 r050101060102 n n n -> 6 050101 060102 .
0 r05 n r02 n r0102 n n -> 1 ~ 1 ~ 2 05020102 .
0 r05010106 n n r0102 n n -> 4 050101 ~ 2 060102 .
# Nothing is read while octets wait to be cut.
0 r05000600 r6400 n r6400 n n r6400 n -> 4 wait 0500 wait 0600 . 2 6400
# The end of a source.
0 r n r0502 n r n r0102 n -> 0 . 2 ~ 0 ~ 2 05020102
# A source that fails changes nothing.
0 x n r0502 n x r0102 n x n -> BrokenPipe . 2 ~ BrokenPipe 2 05020102 BrokenPipe .
# A packet is cut off at the end of the buffer, and the next one is whole.
0 r050401020304060105 n2 n n r0500 n1 n -> 9 0504 060105 . 2 05 .
# A fault stays.
0 r050007000500 n n n r0500 n -> 6 0500 type type wait type
0 r05fd00 n rfc n n -> 3 ~ 1 shortest shortest
# What was pushed is written, in parts.
9 l w p0102 p030405 l w l -> 0 . all + + 5 0102030405 all 0
9 p0102 p030405 w1b w1b w111 l -> + + 01 wait 02 wait 030405 all 0
9 p0102 wb w1b p0304 wbi l w -> + . wait 01 wait + . wait 3 020304 all
# An interrupted write is tried again.
9 p01020304 wi1ii2b w -> + 010203 wait 04 all
# A sink that takes nothing, and one that fails.
9 p010203 w10 w -> + 01 WriteZero 0203 all
9 p010203 w1x wx l w -> + 01 BrokenPipe . BrokenPipe 2 0203 all
9 w0 wx wb -> . all . all . all
# A packet that does not fit is dropped whole, and a later one that fits is taken.
4 p0102 p030405 d w1b p030405 p06 d l w -> + - 1 01 wait + - 2 4 02030405 all
0 p01 p d w -> - + 1 . all
# Reading and writing do not change each other.
4 r0502 p0102 n w1b r0102 n w d -> 2 + ~ 01 wait 2 05020102 02 all 0
";

/// A source that gives at most `size` octets at a time.
#[derive(Drop)]
struct Parts<'a> {
    rest: &'a [u8],
    size: usize,
}

impl Read for Parts<'_> {
    fn read(&mut self, buf: &mut [u8]) -> io::Result<usize> {
        let count = self.size.min(self.rest.len()).min(buf.len());
        let (front, rest) = self.rest.split_at(count);
        buf[..count].copy_from_slice(front);
        self.rest = rest;
        Ok(count)
    }
}

/// A source that overwrites an octet of the buffer, and fails.
#[derive(Drop)]
struct Failing;

impl Read for Failing {
    fn read(&mut self, buf: &mut [u8]) -> io::Result<usize> {
        if let Some(first) = buf.first_mut() {
            *first = 0x06;
        }
        Err(io::Error::from(ErrorKind::BrokenPipe))
    }
}

/// A sink whose calls go by the steps that the comment of `CALLS` explains.
#[derive(Drop)]
pub struct Steps<'a> {
    pub steps: &'a [u8],
    pub got: Vec<u8>,
}

impl Write for Steps<'_> {
    fn write(&mut self, buf: &[u8]) -> io::Result<usize> {
        let mut count = buf.len();
        if let Some((step, rest)) = self.steps.split_first() {
            self.steps = rest;
            count = count.min(count_of(*step)?);
        }
        self.got.extend_from_slice(&buf[..count])?;
        Ok(count)
    }

    fn flush(&mut self) -> io::Result<()> {
        Ok(())
    }
}

/// Returns how many octets a sink takes at a step, or its error.
pub fn count_of(step: u8) -> io::Result<usize> {
    match step {
        b'b' => Err(io::Error::from(ErrorKind::WouldBlock)),
        b'i' => Err(io::Error::from(ErrorKind::Interrupted)),
        b'x' => Err(io::Error::from(ErrorKind::BrokenPipe)),
        digit => Ok(usize::from(digit.wrapping_sub(b'0'))),
    }
}

/// Appends the packets that have come. Returns false after a fault.
fn put_packets(
    alloc: Global,
    stream: &mut PacketStream,
    buffer: &mut [u8],
    text: &mut String,
) -> Option<bool> {
    for _ in 0..=INBOX {
        match stream.next_packet(buffer) {
            Ok(Some(count)) => put_packet(alloc, text, buffer.get(..count)?)?,
            Ok(None) => return Some(true),
            Err(fault) => {
                put_word(text, end_word(Some(fault), false))?;
                return Some(false);
            }
        }
    }
    None
}

/// Reads once, if no octets wait to be cut. Otherwise returns `None`.
fn read_once<R: Read>(stream: &mut PacketStream, source: &mut R) -> Option<io::Result<usize>> {
    if stream.wants_octets() {
        return Some(stream.read_from(source));
    }
    None
}

/// Returns the packets of a source, and how it ends.
fn packets_of(alloc: Global, source: &mut Parts<'_>, turns: usize) -> Option<String> {
    let mut stream = PacketStream::new(alloc, 0).ok()?;
    let mut buffer = vec![in alloc; 0; MAX_FRAME].ok()?;
    let mut text = String::new(alloc);
    for _ in 0..turns {
        if read_once(&mut stream, source)?.ok()? == 0 {
            put_word(&mut text, end_word(None, stream.is_between_packets()))?;
            return Some(text);
        }
        if !put_packets(alloc, &mut stream, &mut buffer, &mut text)? {
            return Some(text);
        }
    }
    None
}

/// Returns the packets of a stream, and how it ends, if this is the same however many octets come
/// at a time.
fn shown_in_parts(alloc: Global, stream: &str) -> Option<String> {
    let stream = octets(alloc, stream)?;
    let mut first = None;
    for size in SIZES {
        let mut source = Parts {
            rest: &stream,
            size,
        };
        let text = packets_of(alloc, &mut source, stream.len().saturating_add(1))?;
        match &first {
            None => first = Some(text),
            Some(other) if *other == text => {}
            Some(_) => return None,
        }
    }
    first
}

fn put_error(alloc: Global, text: &mut String, error: &io::Error) -> Option<()> {
    let kind = error.kind();
    put_word(text, &format!(in alloc; "{kind:?}").ok()?)
}

/// Reads from a source, and appends how many octets came, or the error.
fn put_read<R: Read>(
    alloc: Global,
    stream: &mut PacketStream,
    source: &mut R,
    text: &mut String,
) -> Option<()> {
    match read_once(stream, source) {
        None => put_word(text, "wait"),
        Some(Ok(count)) => put_word(text, &count.to_string(alloc).ok()?),
        Some(Err(error)) => put_error(alloc, text, &error),
    }
}

/// Appends the next packet, or what the octets that have come end with.
fn put_next(alloc: Global, stream: &mut PacketStream, size: &str, text: &mut String) -> Option<()> {
    let size = if size.is_empty() {
        MAX_FRAME
    } else {
        size.parse().ok()?
    };
    let mut buffer = vec![in alloc; 0; size].ok()?;
    match stream.next_packet(&mut buffer) {
        Ok(Some(count)) => put_packet(alloc, text, buffer.get(..count)?),
        Ok(None) => put_word(text, end_word(None, stream.is_between_packets())),
        Err(fault) => put_word(text, end_word(Some(fault), false)),
    }
}

/// Appends what the sink got, or `.`.
pub fn put_got(alloc: Global, got: &[u8], text: &mut String) -> Option<()> {
    if got.is_empty() {
        return put_word(text, ".");
    }
    put_word(text, &hex::encode(alloc, got).ok()?)
}

/// Writes to a sink with these steps, and appends what it got, and how the call ended.
fn put_written(
    alloc: Global,
    stream: &mut PacketStream,
    steps: &str,
    text: &mut String,
) -> Option<()> {
    let mut sink = Steps {
        steps: steps.as_bytes(),
        got: Vec::new(alloc),
    };
    let written = stream.write_to(&mut sink);
    put_got(alloc, &sink.got, text)?;
    match written {
        Ok(true) => put_word(text, "all"),
        Ok(false) => put_word(text, "wait"),
        Err(error) => put_error(alloc, text, &error),
    }
}

/// Makes the call that a word spells.
fn call(alloc: Global, stream: &mut PacketStream, word: &str, text: &mut String) -> Option<()> {
    let (kind, rest) = word.split_at_checked(1)?;
    match kind {
        "r" => put_read(alloc, stream, &mut octets(alloc, rest)?.as_slice(), text),
        "x" => put_read(alloc, stream, &mut Failing, text),
        "n" => put_next(alloc, stream, rest, text),
        "p" if stream.push(&octets(alloc, rest)?) => put_word(text, "+"),
        "p" => put_word(text, "-"),
        "w" => put_written(alloc, stream, rest, text),
        "l" => put_word(text, &stream.waits().to_string(alloc).ok()?),
        "d" => put_word(text, &stream.dropped().to_string(alloc).ok()?),
        _ => None,
    }
}

fn shown(alloc: Global, words: &str) -> Option<String> {
    let mut words = words.split_ascii_whitespace();
    let mut stream = PacketStream::new(alloc, words.next()?.parse().ok()?).ok()?;
    let mut text = String::new(alloc);
    for word in words {
        call(alloc, &mut stream, word, &mut text)?;
    }
    Some(text)
}

#[test]
fn packets_come_however_they_are_read(rt: HostRuntime) {
    check_rows(&rt, rt.alloc(), STREAMS, shown_in_parts);
}

#[test]
fn streams_at_calls(rt: HostRuntime) {
    check_rows(&rt, rt.alloc(), CALLS, shown);
}
