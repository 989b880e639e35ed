//! Gives damaged packets to `read_frame`, and prints the results.
//!
//! Each line of standard input is a packet in hexadecimal. For each packet, the program reads first
//! all proper prefixes, from the shortest to the longest, and then the packet itself. Then the
//! program reads the packet with one octet at a time set to 0, and finally with one octet at a time
//! set to 255. An octet that already has the value to set is skipped. For each packet, the program
//! prints an empty line, and then one line for each run of equal results. A line for a run has the
//! length of the run, the name of the fault or the kind of packet, the number of components of the
//! packet's name, and the packet's InterestLifetime, FreshnessPeriod or NackReason. The last two
//! numbers are 0 for a fault and for an idle link packet, which contains no packet.
#![tactic(auto)]

use limited_reads::read_line_within;
use ndn_packets::{Frame, MAX_FRAME, read_frame};
use std::alloc::Global;
use std::io;
use std::io::{BufReader, Input};

/// The greatest length of a line, in octets. A line of this length has the hexadecimal digits of
/// `MAX_FRAME + 1` octets, and an LF.
const MAX_LINE: u32 = 2 * (MAX_FRAME as u32 + 1) + 1;

/// The greatest number of packets that the program reads.
const MAX_PACKETS: u32 = 1000;

/// The result of reading some octets.
#[derive(Clone, Copy, PartialEq, Eq)]
struct Found {
    /// The name of the fault, or the kind of packet that was read.
    word: &'static str,
    /// The number of components of the packet's name, or 0 for a fault or an idle link packet.
    components: usize,
    /// The InterestLifetime, the FreshnessPeriod or the NackReason of the packet, or 0 for a fault
    /// or an idle link packet.
    number: u64,
}

/// A run of equal results.
#[derive(Drop)]
struct Run {
    found: Found,
    count: u64,
}

fn found_of(octets: &[u8]) -> Found {
    match read_frame(octets) {
        Ok(Frame::Interest(interest)) => Found {
            word: "Interest",
            components: interest.name.len(),
            number: interest.lifetime,
        },
        Ok(Frame::Data(data)) => Found {
            word: "Data",
            components: data.name.len(),
            number: data.freshness,
        },
        Ok(Frame::Nack { reason, interest }) => Found {
            word: "Nack",
            components: interest.name.len(),
            number: reason,
        },
        Ok(Frame::Idle) => Found {
            word: "Idle",
            components: 0,
            number: 0,
        },
        Err(fault) => Found {
            word: fault.name(),
            components: 0,
            number: 0,
        },
    }
}

/// Prints a run of equal results.
fn print_run<R: Print>(rt: &R, run: &Run) -> io::Result<()> {
    let Found {
        word,
        components,
        number,
    } = run.found;
    println!(rt; "{} {word} {components} {number}", run.count)
}

/// Reads octets, and adds the result to the run. If the result differs from the results of the run,
/// prints the run first and begins a new run.
fn read<R: Print>(rt: &R, octets: &[u8], run: &mut Run) -> io::Result<()> {
    let found = found_of(octets);
    if found != run.found {
        print_run(rt, run)?;
        run.found = found;
        run.count = 0;
    }
    run.count = run.count.saturating_add(1);
    Ok(())
}

/// Reads a packet with each octet in turn set to `value`, unless the octet has this value already.
fn read_with<R: Print>(rt: &R, packet: &mut [u8], value: u8, run: &mut Run) -> io::Result<()> {
    for at in 0..packet.len() {
        let right = packet[at];
        if right != value {
            packet[at] = value;
            read(rt, packet, run)?;
            packet[at] = right;
        }
    }
    Ok(())
}

/// Reads a packet and all its damaged forms, and prints the runs of equal results.
fn read_all<R: Print>(rt: &R, packet: &mut [u8]) -> io::Result<()> {
    let mut run = Run {
        found: found_of(&[]),
        count: 0,
    };
    for len in 0..packet.len() {
        read(rt, &packet[..len], &mut run)?;
    }
    read(rt, packet, &mut run)?;
    read_with(rt, packet, 0, &mut run)?;
    read_with(rt, packet, 255, &mut run)?;
    print_run(rt, &run)
}

/// Returns the packet whose hexadecimal digits are the line without its last octet, which must be
/// an LF. The error is `InvalidData` if the packet cannot be decoded.
fn packet_of(alloc: Global, line: &[u8]) -> io::Result<Vec<u8>> {
    match hex::decode(alloc, &line[..line.len().saturating_sub(1)]) {
        Ok(packet) => Ok(packet),
        Err(_) => Err(io::Error::from(io::ErrorKind::InvalidData)),
    }
}

fn main(rt: HostRuntime) -> io::Result<()> {
    let mut input = BufReader::new(rt.alloc(), rt.reader())?;
    for _ in 0..MAX_PACKETS {
        let Some(line) = read_line_within(rt.alloc(), &mut input, MAX_LINE)? else {
            return Err(io::Error::from(io::ErrorKind::InvalidData));
        };
        if line.is_empty() {
            return Ok(());
        }
        println!(rt; "")?;
        read_all(&rt, &mut packet_of(rt.alloc(), &line)?)?;
    }
    Ok(())
}
