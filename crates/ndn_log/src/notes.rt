//! Log lines about a start, failed sends, closed faces, datagrams from endpoints that are not
//! peers, and lines that were left out or lost.

ghost use Rattle.std.specs.Prelude.{◌≡◌, ◌++◌, List, ℕ, drop, flat_map, vec_len, IfOk, OnErr, OnOk};
ghost use Rattle.ndn_log.specs.Line.{AreLogged, IsLogged, IsOneLine};
ghost use Rattle.ndn_log.specs.Words.{counted};
ghost use Rattle.ndn_log.specs.Notes.{cache_words, closed_words, failed_send_words, left_out_texts, left_texts, left_words, lines_words, listens_words, lost_words, others_texts, others_words, parts_words, replayed_words, start_words, stranger_words};

use crate::limits::{LineLimits, SECOND_LINES, ShownLine};
use crate::line::put_line;
use crate::words::{put_count, put_face, put_octets, put_word};
use ndn_tlv::Memory;
use std::alloc::Global;
use std::io::Write;
use std::net::SocketAddr;

/// The start of a node, as its log tells of it.
#[derive(Clone, Copy, Debug)]
pub struct Start {
    /// The time of the start in milliseconds since 1970.
    pub moment: u64,
    /// The version of the program.
    pub version: &'static str,
    /// The endpoint on which the node listens.
    pub endpoint: SocketAddr,
    pub peers: u64,
    /// The number of rules of the rule file.
    pub rules: u64,
    /// The number of keys of the key file.
    pub keys: u64,
    /// The number of Data that the cache can hold.
    pub cache: u64,
    /// The number of lines of the journal that were replayed, or `None` without a journal.
    pub replayed: Option<u64>,
}

/// Appends a line about the start of a node. If memory runs out, nothing is appended.
pub fn put_start(alloc: Global, text: &mut Vec<u8>, start: &Start) -> Result<(), Memory>
    ensures ok { OnOk result (IsLogged text.old.items text.new.items start.now.moment
        (start_words start.now)) }
    ensures one_line { OnOk result (IsOneLine (drop (vec_len text.old) text.new.items)) }
    ensures err { OnErr result (text.new.items ≡ text.old.items) }
{
    let words = start_words(alloc, start)?;
    put_line(alloc, text, start.moment, &words)
}

fn start_words(alloc: Global, start: &Start) -> Result<Vec<u8>, Memory>
    ensures { IfOk result (λ words. words.items ≡ start_words start.now) }
{
    let mut words = Vec::new(alloc);
    put_listens(&mut words, start)?;
    put_parts(&mut words, start)?;
    put_cache(&mut words, start.cache)?;
    put_replayed(&mut words, start.replayed)?;
    Ok(words)
}

/// Appends the version of the program and the endpoint on which the node listens. If memory runs
/// out, some of the text may be appended.
fn put_listens(text: &mut Vec<u8>, start: &Start) -> Result<(), Memory>
    ensures { OnOk result (text.new.items ≡ text.old.items ++ listens_words start.now) }
{
    let (version, endpoint) = (start.version, start.endpoint);
    write!(text, "started, version {version}, listens on {endpoint}: ").map_err(|_| Memory)
}

/// Appends the numbers of peers, rules and keys. If memory runs out, some of the text may be
/// appended.
fn put_parts(text: &mut Vec<u8>, start: &Start) -> Result<(), Memory>
    ensures { OnOk result (text.new.items ≡ text.old.items ++ parts_words start.now) }
{
    put_count(text, start.peers, "peer")?;
    put_word(text, ", ")?;
    put_count(text, start.rules, "rule")?;
    put_word(text, ", ")?;
    put_count(text, start.keys, "key")
}

fn put_cache(text: &mut Vec<u8>, capacity: u64) -> Result<(), Memory>
    ensures { OnOk result (text.new.items ≡ text.old.items ++ cache_words capacity) }
{
    write!(text, ", cache of {capacity} Data").map_err(|_| Memory)
}

/// Appends the number of lines of the journal that were replayed, if there is a journal. If memory
/// runs out, some of the text may be appended.
fn put_replayed(text: &mut Vec<u8>, replayed: Option<u64>) -> Result<(), Memory>
    ensures { OnOk result (text.new.items ≡ text.old.items ++ replayed_words replayed) }
{
    match replayed {
        Some(count) => put_lines(text, count),
        None => Ok(()),
    }
}

fn put_lines(text: &mut Vec<u8>, count: u64) -> Result<(), Memory>
    ensures { OnOk result (text.new.items ≡ text.old.items ++ lines_words count) }
{
    put_word(text, ", replayed ")?;
    put_count(text, count, "journal line")
}

/// Appends a line about a failed send: the face, its endpoint if known, the number of octets, and
/// at most the first 32 octets. If memory runs out, nothing is appended.
pub fn put_failed_send(
    alloc: Global,
    text: &mut Vec<u8>,
    moment: u64,
    face: u64,
    endpoint: Option<SocketAddr>,
    octets: &[u8],
) -> Result<(), Memory>
    ensures ok { OnOk result (IsLogged text.old.items text.new.items moment
        (failed_send_words face endpoint octets.now)) }
    ensures one_line { OnOk result (IsOneLine (drop (vec_len text.old) text.new.items)) }
    ensures err { OnErr result (text.new.items ≡ text.old.items) }
{
    let words = failed_send_words(alloc, face, endpoint, octets)?;
    put_line(alloc, text, moment, &words)
}

/// Appends a line with the number of faces that closed without a line of their own. If memory runs
/// out, nothing is appended.
pub fn put_closed(alloc: Global, text: &mut Vec<u8>, moment: u64, count: u64) -> Result<(), Memory>
    ensures ok { OnOk result (IsLogged text.old.items text.new.items moment
        (closed_words count)) }
    ensures one_line { OnOk result (IsOneLine (drop (vec_len text.old) text.new.items)) }
    ensures err { OnErr result (text.new.items ≡ text.old.items) }
{
    put_counted(alloc, text, moment, count, "face", " closed")
}

/// Appends a line that says how many times lines were lost because memory ran out. If memory runs
/// out, nothing is appended.
pub fn put_lost(alloc: Global, text: &mut Vec<u8>, moment: u64, count: u64) -> Result<(), Memory>
    ensures ok { OnOk result (IsLogged text.old.items text.new.items moment (lost_words count)) }
    ensures one_line { OnOk result (IsOneLine (drop (vec_len text.old) text.new.items)) }
    ensures err { OnErr result (text.new.items ≡ text.old.items) }
{
    put_counted(alloc, text, moment, count, "line", " lost, out of memory")
}

/// Appends a line with the number of dropped datagrams from strangers, which are endpoints that are
/// not peers. If memory runs out, nothing is appended.
pub fn put_strangers(
    alloc: Global,
    text: &mut Vec<u8>,
    moment: u64,
    count: u64,
) -> Result<(), Memory>
    ensures ok { OnOk result (IsLogged text.old.items text.new.items moment
        (stranger_words count)) }
    ensures one_line { OnOk result (IsOneLine (drop (vec_len text.old) text.new.items)) }
    ensures err { OnErr result (text.new.items ≡ text.old.items) }
{
    put_counted(alloc, text, moment, count, "datagram", " of strangers")
}

/// Appends a line with the count `count`, the noun `noun` (with an `s` unless the count is 1) and
/// the text `word`. If memory runs out, nothing is appended.
fn put_counted(
    alloc: Global,
    text: &mut Vec<u8>,
    moment: u64,
    count: u64,
    noun: &str,
    word: &str,
) -> Result<(), Memory>
    ensures ok { OnOk result (IsLogged text.old.items text.new.items moment
        (counted count noun.now ++ word.now)) }
    ensures one_line { OnOk result (IsOneLine (drop (vec_len text.old) text.new.items)) }
    ensures err { OnErr result (text.new.items ≡ text.old.items) }
{
    let mut words = Vec::new(alloc);
    put_count(&mut words, count, noun)?;
    put_word(&mut words, word)?;
    put_line(alloc, text, moment, &words)
}

fn failed_send_words(
    alloc: Global,
    face: u64,
    endpoint: Option<SocketAddr>,
    octets: &[u8],
) -> Result<Vec<u8>, Memory>
    ensures { IfOk result (λ words. words.items ≡ failed_send_words face endpoint octets.now) }
{
    let mut words = Vec::new(alloc);
    put_word(&mut words, "send to ")?;
    put_face(&mut words, face, endpoint)?;
    put_word(&mut words, " failed: ")?;
    put_octets(alloc, &mut words, octets)?;
    Ok(words)
}

/// Appends lines that tell how many lines were left out (`LineLimits`): a line for each face with
/// lines that were left out because of the limit on this face, and a line for those that were left
/// out only because of the limit on all faces. No line has the number 0. If memory runs out,
/// nothing is appended.
pub fn put_left_out(
    alloc: Global,
    text: &mut Vec<u8>,
    moment: u64,
    limits: &LineLimits,
) -> Result<(), Memory>
    ensures ok { OnOk result (AreLogged text.old.items text.new.items moment
        (left_out_texts limits.now)) }
    ensures err { OnErr result (text.new.items ≡ text.old.items) }
{
    let start = text.len();
    let put = put_all_left(alloc, text, moment, limits);
    if put.is_err() {
        text.truncate(start);
    }
    put
}

/// As `put_left_out`, but if memory runs out, some of the lines may be appended.
fn put_all_left(
    alloc: Global,
    text: &mut Vec<u8>,
    moment: u64,
    limits: &LineLimits,
) -> Result<(), Memory>
    ensures ok { OnOk result (AreLogged text.old.items text.new.items moment
        (left_out_texts limits.now)) }
    ensures err { OnErr result ((more : List ℕ) × (text.new.items ≡ text.old.items ++ more)) }
{
    put_faces_left(alloc, text, moment, limits.shown())?;
    put_others(alloc, text, moment, limits.others())
}

fn put_faces_left(
    alloc: Global,
    text: &mut Vec<u8>,
    moment: u64,
    shown: &[ShownLine],
) -> Result<(), Memory>
    ensures ok { OnOk result (AreLogged text.old.items text.new.items moment
        (flat_map left_texts shown.now)) }
    ensures err { OnErr result ((more : List ℕ) × (text.new.items ≡ text.old.items ++ more)) }
{
    for line in shown {
        put_face_left(alloc, text, moment, *line)?;
    }
    Ok(())
}

fn put_face_left(
    alloc: Global,
    text: &mut Vec<u8>,
    moment: u64,
    line: ShownLine,
) -> Result<(), Memory>
    ensures ok { OnOk result (AreLogged text.old.items text.new.items moment (left_texts line)) }
    ensures err { OnErr result (text.new.items ≡ text.old.items) }
{
    if line.left == 0 {
        return Ok(());
    }
    let words = left_words(alloc, line.face, line.left)?;
    put_line(alloc, text, moment, &words)
}

fn left_words(alloc: Global, face: u64, count: u64) -> Result<Vec<u8>, Memory>
    ensures { IfOk result (λ words. words.items ≡ left_words face count) }
{
    let mut words = Vec::new(alloc);
    put_face(&mut words, face, None)?;
    put_word(&mut words, ": ")?;
    put_count(&mut words, count, "more line")?;
    Ok(words)
}

fn put_others(alloc: Global, text: &mut Vec<u8>, moment: u64, count: u64) -> Result<(), Memory>
    ensures ok { OnOk result (AreLogged text.old.items text.new.items moment
        (others_texts count)) }
    ensures err { OnErr result (text.new.items ≡ text.old.items) }
{
    if count == 0 {
        return Ok(());
    }
    let words = others_words(alloc, count)?;
    put_line(alloc, text, moment, &words)
}

fn others_words(alloc: Global, count: u64) -> Result<Vec<u8>, Memory>
    ensures { IfOk result (λ words. words.items ≡ others_words count) }
{
    let mut words = Vec::new(alloc);
    put_word(&mut words, "above ")?;
    put_count(&mut words, SECOND_LINES as u64, "line")?;
    put_word(&mut words, " a second: ")?;
    put_count(&mut words, count, "more line")?;
    Ok(words)
}
