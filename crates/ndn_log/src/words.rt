//! The texts for faces, counts and octets.

ghost use Rattle.std.specs.Prelude.{◌≡◌, ◌++◌, OnOk, take};
ghost use Rattle.ndn_log.specs.Words.{beginning_words, counted, face_words, more_words, octets_words, plural_of};

use ndn_packets::MAX_FRAME;
use ndn_tlv::Memory;
use std::alloc::Global;
use std::io::Write;
use std::net::SocketAddr;

/// A log line shows at most this many octets of a packet.
const SHOWN_OCTETS: usize = 32;

/// The length in octets to which a longer packet is truncated: one octet more than a frame may
/// have.
const CUT_OCTETS: usize = MAX_FRAME + 1;

/// Appends a word. If memory runs out, nothing is appended.
pub fn put_word(text: &mut Vec<u8>, word: &str) -> Result<(), Memory>
    ensures { OnOk result (text.new.items ≡ text.old.items ++ word.now) }
{
    text.extend_from_slice(word.as_bytes())?;
    Ok(())
}

/// Appends a face, with its endpoint if known. If memory runs out, some of the text may be
/// appended.
pub fn put_face(text: &mut Vec<u8>, face: u64, endpoint: Option<SocketAddr>) -> Result<(), Memory>
    ensures { OnOk result (text.new.items ≡ text.old.items ++ face_words face endpoint) }
{
    match endpoint {
        Some(endpoint) => write!(text, "face {face} {endpoint}").map_err(|_| Memory),
        None => write!(text, "face {face}").map_err(|_| Memory),
    }
}

/// Appends a count and its noun, with an `s` after the noun unless the count is 1. If memory runs
/// out, some of the text may be appended.
pub fn put_count(text: &mut Vec<u8>, count: u64, noun: &str) -> Result<(), Memory>
    ensures { OnOk result (text.new.items ≡ text.old.items ++ counted count noun.now) }
{
    write!(text, "{count} {noun}{}", plural_of(count)).map_err(|_| Memory)
}

fn plural_of(count: u64) -> &'static str
    ensures { result.now ≡ plural_of count }
{
    if count == 1 { "" } else { "s" }
}

/// Appends the number of octets and at most the first 32 octets. If there are 9,001 octets, the
/// text adds that there may be more, since a longer packet is truncated to 9,001 octets. If memory
/// runs out, some of the text may be appended.
pub fn put_octets(alloc: Global, text: &mut Vec<u8>, octets: &[u8]) -> Result<(), Memory>
    ensures { OnOk result (text.new.items ≡ text.old.items ++ octets_words octets.now) }
{
    put_count(text, octets.len() as u64, "octet")?;
    put_word(text, more_of(octets.len()))?;
    put_beginning(alloc, text, octets)
}

fn more_of(count: usize) -> &'static str
    ensures { result.now ≡ more_words count }
{
    if count == CUT_OCTETS { " or more" } else { "" }
}

fn put_beginning(alloc: Global, text: &mut Vec<u8>, octets: &[u8]) -> Result<(), Memory>
    ensures { OnOk result (text.new.items ≡ text.old.items ++ beginning_words octets.now) }
{
    if octets.is_empty() {
        return Ok(());
    }
    let digits = hex::encode(alloc, first_octets(octets))?;
    write!(text, " beginning {digits}").map_err(|_| Memory)
}

fn first_octets(octets: &[u8]) -> &[u8]
    ensures { result.now ≡ take SHOWN_OCTETS octets.now }
{
    if octets.len() > SHOWN_OCTETS {
        &octets[..SHOWN_OCTETS]
    } else {
        octets
    }
}
