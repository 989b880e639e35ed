//! Verifies signatures, and prints the results.
//!
//! Each line of standard input has a public key, a digest of 32 octets and a signature, all in
//! hexadecimal, with one space between two of them. For each line the program prints one line:
//! `valid` or `invalid`, or the name of the fault of the public key, or, if the signature is not in
//! its DER form, `NoSignature`.
#![tactic(auto)]

use limited_reads::read_line_within;
use p256::{PointFault, PublicKey, Signature};
use std::alloc::Global;
use std::io;
use std::io::{BufReader, Input};

/// The greatest length of a line, in octets.
const MAX_LINE: u32 = 1000;

/// The greatest number of lines that the program reads.
const MAX_LINES: u32 = 1_000_000;

/// Returns the word for a public key, a digest and a signature.
fn word_of(key: &[u8], digest: &[u8; 32], signature: &[u8]) -> &'static str {
    let key = match PublicKey::from_octets(key) {
        Ok(key) => key,
        Err(PointFault::BadForm) => return "BadForm",
        Err(PointFault::TooLarge) => return "TooLarge",
        Err(PointFault::OffCurve) => return "OffCurve",
    };
    match Signature::from_der(signature) {
        Some(signature) if key.verify(digest, &signature) => "valid",
        Some(_) => "invalid",
        None => "NoSignature",
    }
}

/// Returns the octets that hexadecimal digits stand for, or `None` if the text is not hexadecimal
/// or memory runs out.
fn octets(alloc: Global, digits: &str) -> Option<Vec<u8>> {
    hex::decode(alloc, digits).ok()
}

/// Returns the word for a line without its LF, or `None` if the line does not have three parts in
/// hexadecimal, the second of 32 octets.
fn word_of_line(alloc: Global, line: &str) -> Option<&'static str> {
    let (key, rest) = line.split_once(' ')?;
    let (digest, signature) = rest.split_once(' ')?;
    let digest = octets(alloc, digest)?;
    let digest = <[u8; 32]>::try_from(digest.as_slice()).ok()?;
    Some(word_of(&octets(alloc, key)?, &digest, &octets(alloc, signature)?))
}

/// Returns the word for a line, which must end with an LF. The error is `InvalidData` if the line
/// cannot be decoded.
fn word_in(alloc: Global, line: &[u8]) -> io::Result<&'static str> {
    let text = str::from_utf8(&line[..line.len().saturating_sub(1)]).unwrap_or("");
    match word_of_line(alloc, text) {
        Some(word) => Ok(word),
        None => Err(io::Error::from(io::ErrorKind::InvalidData)),
    }
}

fn main(rt: HostRuntime) -> io::Result<()> {
    let mut input = BufReader::new(rt.alloc(), rt.reader())?;
    for _ in 0..MAX_LINES {
        let Some(line) = read_line_within(rt.alloc(), &mut input, MAX_LINE)? else {
            return Err(io::Error::from(io::ErrorKind::InvalidData));
        };
        if line.is_empty() {
            return Ok(());
        }
        println!(rt; "{}", word_in(rt.alloc(), &line)?)?;
    }
    Ok(())
}
