//! What queues take, drop and hand out.

use crate::rows::check_rows;
use crate::words::put_word;
use ndn_streams::Queue;
use std::alloc::Global;
use test_support::octets;

/// Each row has the limit of a queue, and calls. `p0102` pushes a packet, and shows `+` if it is
/// taken and `-` if it is dropped. `w2` writes two octets, and shows nothing. `f` shows the octets
/// that wait, or `.` if none do, `l` how many they are, and `d` how many packets were dropped.
const CALLS: &str = "
8 f l d -> . 0 0
8 p0102 p03 f l -> + + 010203 3
# Parts of packets are written.
8 p0102 p030405 w1 f w3 f w1 f l -> + + 02030405 05 . 0
# As many octets wait as the limit, and not one more.
4 p0102 p0304 p05 f d -> + + - 01020304 1
4 p0102030405 f d -> - . 1
0 p01 f d p f -> - . 1 + .
# A packet that does not fit is dropped whole, and a later one that fits is taken.
4 p0102 p030405 f d w1 p030405 f d -> + - 0102 1 + 02030405 1
4 p010203 p0405 p06 f d -> + - + 01020306 1
# The octets are moved to the start of the buffer while some wait.
3 p010203 w2 p0405 w2 p0607 w2 p0809 f w3 p0a0b0c f d -> + + + + 070809 + 0a0b0c 0
3 p010203 w1 p04 w1 p05 w1 p06 w1 p07 w1 p08 w1 f d -> + + + + + + 0708 0
";

/// Removes the octets that were written, or returns `None` if fewer wait.
fn write_some(queue: &mut Queue, count: usize) -> Option<()> {
    if count > queue.len() {
        return None;
    }
    queue.written(count);
    Some(())
}

fn front_of(alloc: Global, queue: &Queue) -> Option<String> {
    if queue.is_empty() {
        return String::from_str(alloc, ".").ok();
    }
    hex::encode(alloc, queue.front()).ok()
}

/// Makes the call that a word spells.
fn call(alloc: Global, queue: &mut Queue, word: &str, text: &mut String) -> Option<()> {
    let (kind, rest) = word.split_at_checked(1)?;
    match kind {
        "p" if queue.push(&octets(alloc, rest)?) => put_word(text, "+"),
        "p" => put_word(text, "-"),
        "w" => write_some(queue, rest.parse().ok()?),
        "f" => put_word(text, &front_of(alloc, queue)?),
        "l" => put_word(text, &queue.len().to_string(alloc).ok()?),
        "d" => put_word(text, &queue.dropped().to_string(alloc).ok()?),
        _ => None,
    }
}

fn shown(alloc: Global, words: &str) -> Option<String> {
    let mut words = words.split_ascii_whitespace();
    let mut queue = Queue::new(alloc, words.next()?.parse().ok()?).ok()?;
    let mut text = String::new(alloc);
    for word in words {
        call(alloc, &mut queue, word, &mut text)?;
    }
    Some(text)
}

/// Pushes the packet, and writes at most `most` octets. Returns whether they are those that were to
/// come next, which `next` counts.
fn turn(queue: &mut Queue, packet: &[u8], most: usize, next: &mut u8) -> bool {
    queue.push(packet);
    let count = queue.len().min(most);
    for octet in queue.front().iter().take(count) {
        if *octet != *next {
            return false;
        }
        *next = next.wrapping_add(1) & 3;
    }
    queue.written(count);
    true
}

/// Returns whether many packets of four octets come out in order, in parts of 0 to 6 octets, while
/// some are dropped.
fn comes_in_order(alloc: Global) -> Option<bool> {
    let mut queue = Queue::new(alloc, 11).ok()?;
    let mut next = 0;
    for round in 0..10_000usize {
        if !turn(&mut queue, &[0, 1, 2, 3], round % 7, &mut next) {
            return Some(false);
        }
    }
    Some(queue.dropped() > 1_000 && queue.dropped() < 9_000)
}

#[test]
fn queues_at_calls(rt: HostRuntime) {
    check_rows(&rt, rt.alloc(), CALLS, shown);
}

#[test]
fn packets_in_parts(rt: HostRuntime) {
    assert!(rt; comes_in_order(rt.alloc()) == Some(true));
}
