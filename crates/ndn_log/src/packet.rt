//! The texts for packets.

ghost use Rattle.std.specs.Prelude.{◌≡◌, ◌≤◌, ◌++◌, drop, take, vec_len, OnOk, option_map};
ghost use Rattle.ndn_names.specs.View.{components};
ghost use Rattle.ndn_packets.specs.Packet.{plain_signature};
ghost use Rattle.ndn_packets.specs.View.{plain_frame};
ghost use Rattle.ndn_log.specs.Packet.{cut_text, frame_in, frame_words, key_of, key_words, nack_reason, nack_words, name_words, packet_words, signature_in};

use crate::words::put_word;
use ndn_names::Name;
use ndn_packets::{CONGESTION, DUPLICATE, Frame, Locator, NO_ROUTE, Signature, read_frame};
use ndn_tlv::Memory;
use std::io::Write;

/// A log line shows at most this many characters of a name.
const SHOWN_CHARACTERS: usize = 200;

/// Returns the frame that the octets encode, if they encode one.
pub fn frame_in(octets: &[u8]) -> Option<Frame<'_>>
    ensures { option_map plain_frame result ≡ frame_in octets.now }
{
    read_frame(octets).ok()
}

/// Appends the kind of a packet and the packet's name, which is cut at 200 characters. For a Nack,
/// the reason stands before the name. For an idle packet, appends the single word `idle`. If there
/// is no frame, appends the single word `packet`. If memory runs out, some of the text may be
/// appended.
pub fn put_packet(text: &mut Vec<u8>, frame: &Option<Frame<'_>>) -> Result<(), Memory>
    ensures { OnOk result (text.new.items ≡ text.old.items
        ++ packet_words (option_map plain_frame frame.now)) }
{
    match frame {
        None => put_word(text, "packet"),
        Some(frame) => put_frame(text, frame),
    }
}

fn put_frame(text: &mut Vec<u8>, frame: &Frame<'_>) -> Result<(), Memory>
    ensures { OnOk result (text.new.items ≡ text.old.items
        ++ frame_words (plain_frame frame.now)) }
{
    match frame {
        Frame::Interest(interest) => {
            put_word(text, "Interest ")?;
            put_name(text, interest.name)
        }
        Frame::Data(data) => {
            put_word(text, "Data ")?;
            put_name(text, data.name)
        }
        Frame::Nack { reason, interest } => put_nack(text, *reason, interest.name),
        Frame::Idle => put_word(text, "idle"),
    }
}

fn put_nack(text: &mut Vec<u8>, reason: u64, name: Name<'_>) -> Result<(), Memory>
    ensures { OnOk result (text.new.items ≡ text.old.items
        ++ nack_words reason (components name.entry)) }
{
    put_word(text, "Nack ")?;
    put_reason(text, reason)?;
    put_word(text, " ")?;
    put_name(text, name)
}

fn put_reason(text: &mut Vec<u8>, reason: u64) -> Result<(), Memory>
    ensures { OnOk result (text.new.items ≡ text.old.items ++ nack_reason reason) }
{
    match reason {
        CONGESTION => put_word(text, "Congestion"),
        DUPLICATE => put_word(text, "Duplicate"),
        NO_ROUTE => put_word(text, "NoRoute"),
        _ => write!(text, "{reason}").map_err(|_| Memory),
    }
}

/// Appends at most the first 200 characters of a name's URI, and `..` if the URI is longer. If
/// memory runs out, some of the text may be appended.
pub fn put_name(text: &mut Vec<u8>, name: Name<'_>) -> Result<(), Memory>
    ensures { OnOk result (text.new.items ≡ text.old.items ++ name_words (components name.entry)) }
{
    let start = text.len();
    write!(text, "{name}").map_err(|_| Memory)?;
    cut(text, start)
}

/// Cuts the text from `start` on to its first 200 octets, and appends `..` if it was longer. If
/// memory runs out, the text is cut, but no dots are appended.
fn cut(text: &mut Vec<u8>, start: usize) -> Result<(), Memory>
    requires { start ≤ vec_len text.old }
    ensures { OnOk result (text.new.items ≡ take start text.old.items
        ++ cut_text (drop start text.old.items)) }
{
    if text.len() - start <= SHOWN_CHARACTERS {
        return Ok(());
    }
    text.truncate(start + SHOWN_CHARACTERS);
    put_word(text, "..")
}

/// Appends `, key ` and the name in the packet's KeyLocator, cut at 200 characters. Appends nothing
/// if there is no such name. If memory runs out, some of the text may be appended.
pub fn put_key(text: &mut Vec<u8>, frame: &Option<Frame<'_>>) -> Result<(), Memory>
    ensures { OnOk result (text.new.items ≡ text.old.items
        ++ key_words (option_map plain_frame frame.now)) }
{
    match key_of(frame) {
        Some(name) => {
            put_word(text, ", key ")?;
            put_name(text, name)
        }
        None => Ok(()),
    }
}

fn key_of<'a>(frame: &Option<Frame<'a>>) -> Option<Name<'a>>
    ensures { option_map components result ≡ key_of (option_map plain_frame frame.now) }
{
    match signature_of(frame)?.locator {
        Locator::Name(name) => Some(name),
        _ => None,
    }
}

fn signature_of<'a>(frame: &Option<Frame<'a>>) -> Option<Signature<'a>>
    ensures { option_map plain_signature result
        ≡ signature_in (option_map plain_frame frame.now) }
{
    match frame {
        Some(Frame::Interest(interest)) => interest.signature,
        Some(Frame::Data(data)) => Some(data.signature),
        Some(Frame::Nack { interest, .. }) => interest.signature,
        Some(Frame::Idle) => None,
        None => None,
    }
}
