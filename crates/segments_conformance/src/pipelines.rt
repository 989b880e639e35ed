//! What a pipeline of Interests does at a list of calls.

use crate::rows::check_rows;
use interest_pipeline::{GREATEST_WINDOW, Pipeline, PipelineFault, RttEstimator};
use std::alloc::Global;
use std::collections::VecDeque;

/// Each row has round-trip times in microseconds, and the retransmission timeouts that follow from
/// them by RFC 6298, section 2, within 200 ms and 60 s. An `x` is a timeout.
const ROUND_TRIPS: &str = "
# SRTT = 100 ms, RTTVAR = 50 ms; then SRTT = 102.5 ms, RTTVAR = 42.5 ms.
100000 120000 -> 300000 272500
# The same sample again and again: RTTVAR falls by a quarter, and the least timeout is 200 ms.
100000 100000 100000 100000 100000 -> 300000 250000 212500 200000 200000
# SRTT = 1 s, RTTVAR = 500 ms; then SRTT = 7/8 s + 1/4 s, RTTVAR = 3/8 s + 1/4 s.
1000000 2000000 -> 3000000 3625000
# With SRTT = 102.5 ms and RTTVAR = 42.5 ms: RTTVAR = 31.875 + 20.625 ms, SRTT = 89.6875 + 2.5 ms.
100000 120000 20000 -> 300000 272500 302187
# Timeouts: before any sample, up to the greatest, and until the next sample.
x x x x x x x -> 2000000 4000000 8000000 16000000 32000000 60000000 60000000
100000 x x 120000 -> 300000 600000 1200000 272500
# No time at all, and more than the greatest timeout.
0 -> 200000
90000000 -> 60000000
";

/// Returns the timeout after each word.
fn timeouts(alloc: Global, words: &str) -> Option<String> {
    let mut estimator = RttEstimator::new();
    let mut text = String::new(alloc);
    for word in words.split_ascii_whitespace() {
        match word.parse() {
            Ok(time) => estimator.sample(time),
            Err(_) => estimator.back_off(),
        }
        put_number(&mut text, Some(estimator.rto()))?;
    }
    Some(text)
}

/// Appends a number, or a hyphen for `None`, and a space if another one came before.
fn put_number(text: &mut String, number: Option<u64>) -> Option<()> {
    if !text.is_empty() {
        text.push(' ').ok()?;
    }
    match number {
        Some(number) => write!(text, "{number}").ok(),
        None => text.push('-').ok(),
    }
}

/// Each row has a greatest window, a number of retries, and calls at moments in microseconds. `s@9`
/// sends at moment 9, and `a3@9` answers segment 3 then. `l3` loses segment 3, `x@9` expires at
/// moment 9, and `e3` says that segment 3 is the last one. These calls show nothing, but `s` shows
/// the number that is sent. `w` shows the window, `f` how many segments are in flight, `r` the
/// timeout, `d` the deadline, `g` the segment that was given up, and `q` 1 if all is done, or 0.
const CALLS: &str = "
# Two segments at the start. Slow start: one more for each answer (RFC 5681, section 3.1).
8 3 s@0 s@0 s@0 w f d -> 0 1 - 2 2 1000000
8 3 s@0 s@0 a0@100000 w r s@100000 s@100000 s@100000 a1@100000 w f -> 0 1 3 300000 2 3 - 4 2
# Answers that come twice, or to segments that were not asked for, change nothing.
8 3 s@0 s@0 a1@9 a1@9 a7@9 a2@9 w f -> 0 1 3 1
# No segment is farther from the least unanswered one than the greatest window.
3 3 s@0 s@0 a1@9 s@9 s@9 f a2@9 s@9 f a0@9 s@9 s@9 s@9 -> 0 1 2 - 2 - 1 3 4 5
# A loss halves the window, to two segments at least, and the segment is sent again first.
8 3 s@0 s@0 a0@9 a1@9 w s@9 s@9 s@9 s@9 l3 w f s@10 l2 w s@10 a4@11 s@11 s@11 a5@12 w s@12 s@12 s@12 -> 0 1 4 2 3 4 5 2 3 - 2 - 2 - 3 3 6 -
# The segments that were sent before the window was halved do not halve it again.
64 3 s@0 s@0 a0@1 a1@1 s@1 s@1 s@1 s@1 a2@2 a3@2 a4@2 a5@2 w s@2 s@2 s@2 s@2 s@2 s@2 l6 w l7 w l8 w s@3 l6 w -> 0 1 2 3 4 5 8 6 7 8 9 10 11 4 4 4 6 2
# Congestion avoidance: one more for a whole window of answers.
8 3 s@0 s@0 l0 w s@1 s@1 a0@2 w a1@2 w s@3 s@3 s@3 a2@4 a3@4 w a4@4 w -> 0 1 2 0 - 2 3 2 3 4 3 4
# A timeout: the segments are lost, the timeout is doubled once, and a segment that was sent again
# gives no sample (RFC 6298, section 3).
8 3 s@0 s@5 x@999999 f x@1000000 f r x@1000005 f r s@1000005 s@1000005 d a0@1100005 r -> 0 1 2 1 2000000 0 2000000 0 1 3000005 2000000
# A segment that was sent once gives a sample, even if its time was out.
8 3 s@0 x@1000000 f a0@1500000 r f s@1500000 -> 0 0 4500000 0 1
# A segment is given up after its last sending. Then nothing more is sent.
8 1 s@0 l0 g s@1 l0 g s@2 d -> 0 - 0 0 - -
8 0 s@0 s@0 x@1000000 g d -> 0 1 0 -
# An answer to it can still come, or it may be above the last one.
8 0 s@0 s@0 l1 g s@1 a1@5 g s@5 s@5 -> 0 1 1 - - 2 -
8 0 s@0 s@0 l1 g e0 g s@5 a0@5 q -> 0 1 1 - - 1
# The last segment: none above it is sent, and those in flight are forgotten.
8 3 e0 s@0 s@0 q a0@5 q s@5 d -> 0 - 0 1 - -
8 3 s@0 s@0 a0@5 e0 q f s@5 d l1 a1@6 -> 0 1 1 0 - -
8 3 s@0 s@0 a0@5 e2 e1 e9 s@5 s@5 a1@6 a2@6 q -> 0 1 2 - 1
# One segment at a time.
1 3 s@0 s@0 w a0@1 w s@1 l1 w s@1 s@1 -> 0 - 1 1 1 1 1 -
# The clock goes back.
8 3 s@500000 a0@3 r s@3 d -> 0 200000 1 200003
";

fn shown(alloc: Global, words: &str) -> Option<String> {
    let mut words = words.split_ascii_whitespace();
    let limit = words.next()?.parse().ok()?;
    let retries = words.next()?.parse().ok()?;
    let mut pipeline = Pipeline::new(alloc, limit, retries).ok()?;
    let mut text = String::new(alloc);
    for word in words {
        call(&mut pipeline, word, &mut text)?;
    }
    Some(text)
}

/// Makes the call that a word spells.
fn call(pipeline: &mut Pipeline, word: &str, text: &mut String) -> Option<()> {
    let (kind, rest) = word.split_at_checked(1)?;
    let (number, moment) = rest.split_once('@').unwrap_or((rest, ""));
    match kind {
        "s" => put_number(text, pipeline.next(moment.parse().ok()?)),
        "a" => Some(pipeline.answered(number.parse().ok()?, moment.parse().ok()?)),
        "l" => Some(pipeline.lost(number.parse().ok()?)),
        "x" => Some(pipeline.expire(moment.parse().ok()?)),
        "e" => Some(pipeline.set_last(number.parse().ok()?)),
        _ => put_number(text, state(pipeline, kind)),
    }
}

/// Returns what a word asks for.
fn state(pipeline: &Pipeline, kind: &str) -> Option<u64> {
    match kind {
        "w" => Some(pipeline.window() as u64),
        "f" => Some(pipeline.in_flight() as u64),
        "r" => Some(pipeline.rto()),
        "d" => pipeline.deadline(),
        "g" => pipeline.gave_up(),
        "q" => Some(u64::from(pipeline.is_done())),
        _ => None,
    }
}

/// Fetches the segments 0 to `last` over a link that answers after 20 ms, and that loses each
/// Interest whose number is divisible by `gap`. Returns how many Interests were sent, or `None` if
/// a segment was given up.
fn fetch(alloc: Global, last: u64, gap: u64) -> Option<u64> {
    let mut pipeline = Pipeline::new(alloc, 16, 3).ok()?;
    pipeline.set_last(last);
    let mut answers = VecDeque::new(alloc);
    let mut now: u64 = 0;
    let mut count: u64 = 0;
    for _ in 0..100_000 {
        if let Some(segment) = pipeline.next(now) {
            count = count.saturating_add(1);
            if count.checked_rem(gap) != Some(0) {
                answers
                    .push_back((now.saturating_add(20_000), segment))
                    .ok()?;
            }
        } else if let Some((moment, segment)) = answers.pop_front() {
            now = moment;
            pipeline.answered(segment, now);
            pipeline.expire(now);
        } else if pipeline.is_done() {
            return Some(count);
        } else {
            now = pipeline.deadline()?;
            pipeline.expire(now);
        }
    }
    None
}

/// Each row has the number of the last segment and the gap between lost Interests, and how many
/// Interests were sent: the least number such that, without the lost ones, there is one for each
/// segment. A gap of 0 loses none.
const FETCHES: &str = "
0 0 -> 1
9 0 -> 10
99 0 -> 100
1 2 -> 3
9 3 -> 14
99 10 -> 111
999 7 -> 1166
# All are lost: the first segment is given up.
9 1 -> -
";

fn fetched(alloc: Global, words: &str) -> Option<String> {
    let (last, gap) = words.split_once(' ')?;
    let mut text = String::new(alloc);
    put_number(
        &mut text,
        fetch(alloc, last.parse().ok()?, gap.parse().ok()?),
    )?;
    Some(text)
}

fn refused(alloc: Global, limit: usize) -> bool {
    match Pipeline::new(alloc, limit, 3) {
        Err(fault) => fault == PipelineFault::BadWindow,
        Ok(_) => false,
    }
}

#[test]
fn timeouts_from_round_trips(rt: HostRuntime) {
    check_rows(&rt, rt.alloc(), ROUND_TRIPS, timeouts);
}

#[test]
fn pipelines_at_calls(rt: HostRuntime) {
    check_rows(&rt, rt.alloc(), CALLS, shown);
}

#[test]
fn fetches_over_a_link(rt: HostRuntime) {
    check_rows(&rt, rt.alloc(), FETCHES, fetched);
}

#[test]
fn greatest_windows(rt: HostRuntime) {
    assert!(rt; refused(rt.alloc(), 0));
    assert!(rt; refused(rt.alloc(), GREATEST_WINDOW + 1));
    assert!(rt; Pipeline::new(rt.alloc(), GREATEST_WINDOW, 0).is_ok());
}
