use super::parts;
use node_core::{RunFault, run_script};
use std::alloc::Global;
use std::io;
use std::io::{ErrorKind, Read, Write};
use std::process::Abort;

/// An input that delivers at most `size` octets at a time. After its last octet, the input fails
/// if `fails` is true, and ends otherwise.
#[derive(Drop)]
struct Pieces<'a> {
    rest: &'a [u8],
    size: usize,
    fails: bool,
}

impl Read for Pieces<'_> {
    fn read(&mut self, buf: &mut [u8]) -> io::Result<usize> {
        if self.rest.is_empty() && self.fails {
            return Err(io::Error::from(ErrorKind::Other));
        }
        let count = self.size.min(self.rest.len()).min(buf.len());
        let (front, rest) = self.rest.split_at(count);
        buf[..count].copy_from_slice(front);
        self.rest = rest;
        Ok(count)
    }
}

/// An output that accepts `left` more octets, at most `size` of them at a time, and then fails.
#[derive(Drop)]
pub struct Room {
    pub held: Vec<u8>,
    pub size: usize,
    pub left: usize,
}

impl Write for Room {
    fn write(&mut self, buf: &[u8]) -> io::Result<usize> {
        let count = self.size.min(self.left).min(buf.len());
        if count == 0 {
            return Err(io::Error::from(ErrorKind::Other));
        }
        self.held.extend_from_slice(&buf[..count])?;
        self.left -= count;
        Ok(count)
    }

    fn flush(&mut self) -> io::Result<()> {
        Ok(())
    }
}

/// Runs a script that is read in pieces. Writes the answers to `output`, and returns how the script
/// ends.
fn end_of(
    alloc: Global,
    input: &mut Pieces<'_>,
    output: &mut Vec<u8>,
) -> Option<Result<(), RunFault>> {
    Some(run_script(alloc, input, output, parts(alloc)?))
}

/// Returns whether a script that is read in pieces has these answers. If `fails` is true, the input
/// fails after the script, and the script must end with the fault `Read`. Otherwise the input ends,
/// and the script must end without a fault.
fn reads(alloc: Global, script: &str, size: usize, fails: bool, answers: &str) -> bool {
    let mut input = Pieces {
        rest: script.as_bytes(),
        size,
        fails,
    };
    let mut output = Vec::new(alloc);
    let end = end_of(alloc, &mut input, &mut output);
    let wanted = if fails { Err(RunFault::Read) } else { Ok(()) };
    end == Some(wanted) && output.as_slice() == answers.as_bytes()
}

/// Checks that `reads` returns true for each `size` from 1 to 100.
fn check_pieces(rt: &(impl Abort + AllocGlobal), script: &str, fails: bool, answers: &str) {
    for size in 1..101 {
        assert!(rt;
            reads(rt.alloc(), script, size, fails, answers),
            "pieces of {size} octets"
        );
    }
}

#[test]
fn read_in_pieces(rt: HostRuntime) {
    let script = "up 1 local 0\n#\ntick 1\ntick 2";
    let answers = "1 passed\n2 passed\n3 passed\n";
    check_pieces(&rt, script, false, answers);
    let answers = "1 passed\n2 passed\n";
    check_pieces(&rt, script, true, answers);
}

#[test]
fn a_reader_that_fails(rt: HostRuntime) {
    let script = "up 1 local 0\nup 2 far 0\ntick 7";
    let answers = "1 passed\n2 passed\n";
    check_pieces(&rt, script, true, answers);
}

/// Runs a script. Writes the answers to `output`, and returns how the script ends.
pub fn end_in(alloc: Global, script: &str, output: &mut Room) -> Option<Result<(), RunFault>> {
    Some(run_script(alloc, &mut script.as_bytes(), output, parts(alloc)?))
}

/// Returns whether `end` and `written` are right for an output that accepts `left` octets. If the
/// answers have more than `left` octets, exactly their first `left` octets must be written, and
/// then writing must fail. Otherwise all answers must be written, and the script must end without a
/// fault.
fn is_end(end: Option<Result<(), RunFault>>, written: &[u8], left: usize, answers: &[u8]) -> bool {
    let (wanted, len) = if left < answers.len() {
        (Err(RunFault::Write), left)
    } else {
        (Ok(()), answers.len())
    };
    end == Some(wanted) && written == &answers[..len]
}

/// Runs a script with an output that accepts `left` octets. Returns what `is_end` returns for the
/// end of the script and for the octets that were written.
fn writes(alloc: Global, script: &str, size: usize, left: usize, answers: &[u8]) -> bool {
    let held = Vec::new(alloc);
    let mut output = Room { held, size, left };
    let end = end_in(alloc, script, &mut output);
    is_end(end, output.held.as_slice(), left, answers)
}

/// Checks that `writes` returns true for each `left` from 0 to 40.
fn check_rooms(rt: &(impl Abort + AllocGlobal), script: &str, size: usize, answers: &[u8]) {
    for left in 0..41 {
        assert!(rt;
            writes(rt.alloc(), script, size, left, answers),
            "room for {left} octets"
        );
    }
}

#[test]
fn full_writers(rt: HostRuntime) {
    let answers = b"1 passed\n2 passed\n";
    check_rooms(&rt, "tick 1\ntick 2\n", 3, answers);
}

#[test]
fn a_writer_that_fails(rt: HostRuntime) {
    let script = "up 1 local 0\nup 2 far 0\ntick 7";
    let answers = b"1 passed\n2 passed\n3 passed\n";
    check_rooms(&rt, script, 100, answers);
}
