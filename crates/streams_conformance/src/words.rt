//! The words of which tests make their texts.

use ndn_streams::StreamFault;
use std::alloc::Global;

/// Appends a word, after a space if another word came before.
pub fn put_word(text: &mut String, word: &str) -> Option<()> {
    if !text.is_empty() {
        text.push(' ').ok()?;
    }
    text.push_str(word).ok()
}

/// Appends a packet. A packet of more than six octets is shown by its first four octets and its
/// size.
pub fn put_packet(alloc: Global, text: &mut String, packet: &[u8]) -> Option<()> {
    if packet.len() <= 6 {
        return put_word(text, &hex::encode(alloc, packet).ok()?);
    }
    put_word(text, &hex::encode(alloc, packet.get(..4)?).ok()?)?;
    let size = packet.len();
    write!(text, "..{size}").ok()
}

/// Returns the word for the end of a piece: the fault if there is one, and otherwise `.` between
/// two packets, and `~` in a packet.
pub fn end_word(fault: Option<StreamFault>, is_between_packets: bool) -> &'static str {
    match fault {
        Some(StreamFault::UnknownType) => "type",
        Some(StreamFault::NotShortest) => "shortest",
        Some(StreamFault::TooLong) => "long",
        None if is_between_packets => ".",
        None => "~",
    }
}
