//! Standard error, which the node never waits for.

ghost use Rattle.std.specs.Prelude.{◌≤◌, None, length, vec_len};

use crate::event_log::LogSink;
use libc::net::{POLLOUT, poll};
use libc::types::pollfd;
use memchr::memchr;
use ndn_tlv::Memory;
use std::fs::{File, OpenOptions};
use std::io;
use std::io::{ErrorKind, Write};
use std::os::fd::AsRawFd;
use std::rt::Files;

/// The most octets that wait for the reader of standard error.
const MAX_WAITING: usize = 65_536;

/// The most octets that are written at once. A pipe that has room takes as many (`PIPE_BUF` of
/// Linux).
const PIECE: usize = 4_096;

/// Standard error, as a destination for the lines of a log. If its reader does not read, at most
/// 65,536 octets wait for it. Further lines are dropped and counted, and their number is told when
/// there is room.
#[derive(Drop)]
pub struct StandardError<'a, R> {
    rt: &'a R,
    // Standard error, opened once more, if it is a pipe or a terminal. This opening is not blocking,
    // and that of the process is left as it is, since other programs may share it.
    opened: Option<File>,
    // What was taken and is not yet written: whole lines, except for the first one.
    waiting: Vec<u8>,
    // The number of lines that were dropped and are not yet told.
    dropped: u64,
}

impl<'a, R: AllocGlobal + Eprint + Files<File = File>> StandardError<'a, R> {
    /// Returns the standard error of this program.
    pub fn new(rt: &'a R) -> StandardError<'a, R> {
        StandardError {
            rt,
            opened: opened_again(rt),
            waiting: Vec::new(rt.alloc()),
            dropped: 0,
        }
    }
}

impl<'a, R: Eprint> LogSink for StandardError<'a, R> {
    // The lines that were written to standard error are not known to the contracts.
    ghost given = { λ _. None };

    fn take(&mut self, lines: &[u8]) {
        self.write_waiting();
        let mut rest = lines;
        for _ in 0..lines.len() {
            let Some((line, after)) = first_line(rest) else {
                break;
            };
            self.put_line(line);
            rest = after;
        }
        self.write_waiting();
    }
}

impl<'a, R: Eprint> StandardError<'a, R> {
    /// Adds a line to those that wait. If there is no room, or lines were dropped before and their
    /// number cannot be told, the line is dropped and counted.
    fn put_line(&mut self, line: &[u8]) {
        if !self.has_room(line.len()) {
            self.write_waiting();
        }
        self.tell_dropped(line);
        let is_put = self.dropped == 0
            && self.has_room(line.len())
            && self.waiting.extend_from_slice(line).is_ok();
        if !is_put {
            self.dropped = self.dropped.saturating_add(1);
        }
    }

    /// If lines were dropped, and there is room for twice as many octets as a pipe takes at once,
    /// adds a line that tells their number. It has the time of the line `next`.
    fn tell_dropped(&mut self, next: &[u8]) {
        if self.dropped == 0 || !self.has_room(2 * PIECE) {
            return;
        }
        let len = self.waiting.len();
        if put_dropped(&mut self.waiting, next, self.dropped).is_ok() {
            self.dropped = 0;
        } else {
            self.waiting.truncate(len);
        }
    }

    /// Returns whether this number of octets can be added to those that wait.
    fn has_room(&self, len: usize) -> bool {
        len <= MAX_WAITING.saturating_sub(self.waiting.len())
    }

    /// Writes what waits, as far as standard error takes it without waiting.
    fn write_waiting(&mut self) {
        for _ in 0..=MAX_WAITING / PIECE {
            let count = self.write_piece();
            if count == 0 {
                return;
            }
            self.waiting.copy_within(count.., 0);
            self.waiting.truncate(self.waiting.len() - count);
        }
    }

    /// Writes the first octets of what waits, and returns how many of them need not wait any more:
    /// those that were written, or lost, since standard error cannot be written.
    fn write_piece(&mut self) -> usize
        ensures { result ≤ vec_len self.new.waiting }
    {
        let piece = &self.waiting[..self.waiting.len().min(PIECE)];
        match &mut self.opened {
            Some(file) => settled(file.write(piece), piece.len()),
            None => print_piece(self.rt, piece),
        }
    }
}

/// Returns the first line, with its LF, and what comes after it.
fn first_line(lines: &[u8]) -> Option<(&[u8], &[u8])> {
    let end = memchr(b'\n', lines)?;
    Some(lines.split_at(end + 1))
}

/// Returns how many of `len` octets need not be written any more after a write with this outcome: all
/// of them after an error that is not `WouldBlock`.
fn settled(written: io::Result<usize>, len: usize) -> usize
    ensures { result ≤ len }
{
    match written {
        Ok(count) => count.min(len),
        Err(error) if error.kind() == ErrorKind::WouldBlock => 0,
        Err(_) => len,
    }
}

/// Prints octets on standard error if it is ready, and returns their number, or 0 if it is not.
fn print_piece<R: Eprint>(rt: &R, piece: &[u8]) -> usize
    ensures { result ≤ length piece.now }
{
    if !is_ready() {
        return 0;
    }
    if let Ok(text) = str::from_utf8(piece) {
        let _printed = rt.eprint(text);
    }
    piece.len()
}

/// Returns whether standard error can be written now: it has room, and its reader was not closed.
fn is_ready() -> bool {
    let mut asked = [pollfd {
        fd: 2,
        events: POLLOUT,
        revents: 0,
    }];
    poll(&mut asked, 0) > 0 && asked[0].revents == POLLOUT
}

/// Opens standard error once more, without blocking. Returns `None` if it is a file, to which the
/// process itself writes, if it is a socket, which cannot be opened, or if it is not ready.
fn opened_again<R: Files<File = File>>(rt: &R) -> Option<File> {
    if !is_ready() {
        return None;
    }
    let opened = OpenOptions::new().append(true).open(rt, "/proc/self/fd/2");
    let file = opened.ok()?;
    if file.metadata().ok()?.is_file() || os::set_nonblocking(file.as_raw_fd(), true) < 0 {
        return None;
    }
    Some(file)
}

/// Appends a line with the time of the line `next`, which tells the number of dropped lines. If
/// memory runs out, some of the text may be appended.
fn put_dropped(text: &mut Vec<u8>, next: &[u8], dropped: u64) -> Result<(), Memory> {
    let (time, _) = next.split_at(memchr(b' ', next).unwrap_or(0));
    text.extend_from_slice(time)?;
    writeln!(text, " {dropped} lines lost, standard error was not read").map_err(|_| Memory)
}
