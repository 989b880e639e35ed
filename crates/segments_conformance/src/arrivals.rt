//! Data that come to an assembler in any order, and what it makes of them. No cutter wrote these
//! Data.

use crate::rows::check_rows;
use ndn_names::{Name, NameBuf};
use ndn_packets::{Data, DataWriter, Frame, Sign, read_frame};
use ndn_segments::{Assembler, SegmentFault, Taken, version_name};
use std::alloc::Global;

/// Each row has the Data that come to an assembler, and what becomes of them. A Data is written as
/// the components of its name after `/f`, an `@`, the number in its FinalBlockId (`-` for none), a
/// colon, and its Content. The assembler waits for `/f/v=1`, takes at most 2 octets a segment, and
/// has a window of 3 segments. For each Data there are the octets that are written, `+` if it is
/// held, `=` if it had come before, or the fault. At the end there is `done`, or the number of the
/// first segment that is wanted.
const ARRIVALS: &str = "
# In order, and reordered.
v=1/seg=0@2:a v=1/seg=1@2:b v=1/seg=2@2:c -> a b c done
v=1/seg=2@2:c v=1/seg=1@2:b v=1/seg=0@2:a -> + + abc done
v=1/seg=1@3:b v=1/seg=0@3:a v=1/seg=3@3:d v=1/seg=2@3:c -> + ab + cd done
v=1/seg=0@0: -> . done
# Repeats of written and of held segments.
v=1/seg=0@2:a v=1/seg=0@2:a v=1/seg=2@2:c v=1/seg=2@2:c v=1/seg=1@2:b v=1/seg=2@2:c -> a = + = bc = done
# A segment is missing: the first, one in the middle, the last.
v=1/seg=1@2:b v=1/seg=2@2:c -> + + 0
v=1/seg=0@2:a v=1/seg=2@2:c -> a + 1
v=1/seg=0@2:a v=1/seg=1@2:b -> a b 2
# Segments beyond the window. It moves on with the first segment that is missing.
v=1/seg=3@4:d -> BeyondWindow 0
v=1/seg=2@4:c -> + 0
v=1/seg=3@4:d v=1/seg=0@4:a v=1/seg=3@4:d v=1/seg=4@4:e -> BeyondWindow a + BeyondWindow 1
# Another version, another file, the version alone, and a component after the segment number.
v=2/seg=0@1:x v=1/seg=0@1:a v=2/seg=1@1:x -> OtherFile a OtherFile 1
g/seg=0@0:x -> OtherFile 0
v=1@0:x -> OtherFile 0
v=1/seg=0/x@0:x -> OtherFile 0
seg=0@0:x -> OtherFile 0
# The version as a generic component, or in a longer encoding, is another name.
%01/seg=0@0:x -> OtherFile 0
54=%00%01/seg=0@0:x -> OtherFile 0
# No segment number: a generic component, another type, a longer encoding, no encoding.
v=1/0@0:x -> NoSegmentNumber 0
v=1/off=0@0:x -> NoSegmentNumber 0
v=1/50=%00%00@0:x -> NoSegmentNumber 0
v=1/50=%00%00%00@0:x -> NoSegmentNumber 0
v=1/50=...@0:x -> NoSegmentNumber 0
# No FinalBlockId, and the number 2^64 - 1.
v=1/seg=0@-:x -> NoFinalBlockId 0
v=1/seg=0@18446744073709551615:x -> NoFinalBlockId 0
v=1/seg=0@18446744073709551614:a -> a 1
# Another FinalBlockId than that of the first segment that was accepted.
v=1/seg=0@1:a v=1/seg=1@2:b v=1/seg=1@0:b v=1/seg=1@1:b -> a OtherFinalBlockId OtherFinalBlockId b done
v=1/seg=1@2:b v=1/seg=0@1:a v=1/seg=0@2:a -> + OtherFinalBlockId ab 2
v=1/seg=3@4:d v=1/seg=0@0:a -> BeyondWindow a done
# A number above the last one.
v=1/seg=1@0:b v=1/seg=0@0:a -> AboveLast a done
# A segment with three octets.
v=1/seg=0@0:abc v=1/seg=0@0:ab -> ContentTooLong ab done
# Another content of a held segment. A segment that has been written is not compared.
v=1/seg=1@1:b v=1/seg=1@1:x v=1/seg=0@1:a -> + OtherContent ab done
v=1/seg=0@1:a v=1/seg=0@1:x v=1/seg=1@1:b -> a = b done
";

/// Returns what becomes of the Data in `words`, as a row says it.
fn outcomes(alloc: Global, words: &str) -> Option<String> {
    let name = NameBuf::from_uri(alloc, "/f").ok()?;
    let mut assembler = Assembler::new(alloc, version_name(alloc, name.view(), 1).ok()?, 2, 3);
    let mut text = String::new(alloc);
    for word in words.split_ascii_whitespace() {
        text.push_str(&outcome(alloc, &mut assembler, word)?).ok()?;
        text.push(' ').ok()?;
    }
    text.push_str(&progress(alloc, &assembler)?).ok()?;
    Some(text)
}

fn progress(alloc: Global, assembler: &Assembler) -> Option<String> {
    if assembler.is_finished() {
        return String::from_str(alloc, "done").ok();
    }
    let number = assembler.next_wanted(0)?;
    format!(in alloc; "{number}").ok()
}

fn outcome(alloc: Global, assembler: &mut Assembler, word: &str) -> Option<String> {
    let packet = packet_of(alloc, word)?;
    match read_frame(&packet).ok()? {
        Frame::Data(data) => taken(alloc, assembler, &data),
        _ => None,
    }
}

fn taken(alloc: Global, assembler: &mut Assembler, packet: &Data<'_>) -> Option<String> {
    let mut out = Vec::new(alloc);
    match assembler.take(alloc, packet, &mut out) {
        Ok(Taken::Repeated) => String::from_str(alloc, "=").ok(),
        Ok(Taken::Accepted) => octets_shown(alloc, &out, packet),
        Err(fault) => String::from_str(alloc, fault_name(fault)).ok(),
    }
}

/// Returns the octets that were written. For no octets, returns a plus sign, or a dot if the Data
/// has an empty Content.
fn octets_shown(alloc: Global, out: &[u8], packet: &Data<'_>) -> Option<String> {
    if packet.content?.is_empty() {
        return String::from_str(alloc, ".").ok();
    }
    if out.is_empty() {
        return String::from_str(alloc, "+").ok();
    }
    String::from_str(alloc, std::str::from_utf8(out).ok()?).ok()
}

fn fault_name(fault: SegmentFault) -> &'static str {
    match fault {
        SegmentFault::OtherFile => "OtherFile",
        SegmentFault::NoSegmentNumber => "NoSegmentNumber",
        SegmentFault::NoFinalBlockId => "NoFinalBlockId",
        SegmentFault::OtherFinalBlockId => "OtherFinalBlockId",
        SegmentFault::AboveLast => "AboveLast",
        SegmentFault::ContentTooLong => "ContentTooLong",
        SegmentFault::BeyondWindow => "BeyondWindow",
        SegmentFault::OtherContent => "OtherContent",
        SegmentFault::Memory => "Memory",
    }
}

/// Returns the writer of a segment.
fn segment<'a>(name: Name<'a>, last: Option<u64>, content: &'a [u8]) -> DataWriter<'a> {
    DataWriter {
        name,
        freshness: None,
        last,
        content: Some(content),
        sign: Sign::Digest,
    }
}

/// Returns the Data with this name. Its FinalBlockId is absent if `last` is no number.
fn written(alloc: Global, uri: &str, last: &str, content: &[u8]) -> Option<Vec<u8>> {
    let name = NameBuf::from_uri(alloc, uri).ok()?;
    let mut out = Vec::new(alloc);
    segment(name.view(), last.parse().ok(), content)
        .write(&mut out)
        .ok()?;
    Some(out)
}

/// Returns the Data that a word spells: the end of its name, its last number and its content.
fn packet_of(alloc: Global, word: &str) -> Option<Vec<u8>> {
    let (path, rest) = word.split_once('@')?;
    let (last, content) = rest.split_once(':')?;
    let uri = format!(in alloc; "/f/{path}").ok()?;
    written(alloc, &uri, last, content.as_bytes())
}

#[test]
fn segments_in_any_order(rt: HostRuntime) {
    check_rows(&rt, rt.alloc(), ARRIVALS, outcomes);
}
