//! Tests of management commands: names that no node reads as a command, statuses, and segments.

mod effects;
mod refused_memory;
mod same_tables;

use mgmt_core::{Command, segment_of, status_text};
use ndn_names::{Name, NameBuf};
use std::alloc::Global;
use test_support::first_wrong;

/// Names, each with the status of its refusal, or 200 if it is read as a command.
const NAMES: &str = "
# Names of commands.
/localhost/nfd/fib/add-nexthop/h%05%07%03%08%01A -> 200
/localhost/nfd/fib/add-nexthop/h%02%07%00 -> 200
/localhost/nfd/fib/remove-nexthop/h%08%07%03%08%01Ai%01%0A -> 200
/localhost/nfd/rib/register/h%05%07%03%08%01A -> 200
/localhost/nfd/rib/unregister/h%05%07%03%08%01A -> 200
/localhost/nfd/strategy-choice/set/h%09%07%03%08%01Ak%02%07%00 -> 200
/localhost/nfd/strategy-choice/unset/h%05%07%03%08%01A -> 200
/localhost/nfd/cs/erase/h%08%07%03%08%01A%84%01%02 -> 200
# Names without a module or without a verb.
/ -> 400
/localhost/nfd -> 400
/localhost/nfd/fib -> 400
# Commands that do not exist, with parameters and without.
/localhost/nfd/fib/list -> 501
/localhost/nfd/rib/list -> 501
/localhost/nfd/rib/list/h%05%07%03%08%01A -> 501
/localhost/nfd/rib/list/h%05%07%03%08%01Aj%01%00 -> 501
/localhost/nfd/rib/add-nexthop/h%05%07%03%08%01A -> 501
/localhost/nfd/fib/register/h%05%07%03%08%01A -> 501
/localhost/nfd/fib/add -> 501
/localhost/nfd/cs/add-nexthop -> 501
/localhost/nfd/strategy-choice/erase -> 501
/localhost/nfd/fib/32=add-nexthop/h%05%07%03%08%01A -> 501
/localhop/nfd/fib/add-nexthop/h%05%07%03%08%01A -> 501
/localhost/NFD/fib/add-nexthop/h%05%07%03%08%01A -> 501
# No parameters, two components of parameters, and a digest before the parameters.
/localhost/nfd/fib/add-nexthop -> 400
/localhost/nfd/rib/register -> 400
/localhost/nfd/fib/add-nexthop/h%05%07%03%08%01A/h%05%07%03%08%01A -> 400
/localhost/nfd/fib/add-nexthop/params-sha256=0000000000000000000000000000000000000000000000000000000000000000/h%05%07%03%08%01A -> 400
# Parameters in a component of another type or an element of another type, with an octet after them,
# cut short, and with a length that ends before the Cost.
/localhost/nfd/fib/add-nexthop/32=h%05%07%03%08%01A -> 400
/localhost/nfd/fib/add-nexthop/i%05%07%03%08%01A -> 400
/localhost/nfd/fib/add-nexthop/h%05%07%03%08%01A%00 -> 400
/localhost/nfd/fib/add-nexthop/h%05%07%03%08 -> 400
/localhost/nfd/rib/register/h%05%07%03%08%01Aj%01%00 -> 400
";

/// Returns whether a name is read as `row` says. The row is a URI, ` -> `, and a status.
fn is_read(alloc: Global, row: &str) -> bool {
    match row.split_once(" -> ") {
        Some((uri, status)) => has_status(alloc, uri, status.parse().ok()),
        None => false,
    }
}

/// Returns whether the name with this URI has this status.
fn has_status(alloc: Global, uri: &str, status: Option<u16>) -> bool {
    match NameBuf::from_uri(alloc, uri) {
        Ok(name) => Some(status_of(name.view())) == status,
        Err(_) => false,
    }
}

/// Returns 200 if a name is read as a command, and the status of its refusal otherwise.
fn status_of(name: Name<'_>) -> u16 {
    match Command::read(name) {
        Ok(_) => 200,
        Err(status) => status,
    }
}

/// No node reads these names as names of commands: the name of a command is under
/// `/localhost/nfd`, and a signed Interest has a digest at the end of its name.
#[test]
fn names_without_a_digest(rt: HostRuntime) {
    assert!(rt; first_wrong(rt.alloc(), NAMES, is_read) == 0);
}

#[test]
fn texts_of_statuses(rt: HostRuntime) {
    assert!(rt; status_text(503) == Some("table full"));
    assert!(rt; status_text(403).is_none());
}

/// Returns whether `expected` describes the segment with this number in a dataset of `len` octets.
/// `expected` is the length of the segment and the number of the last segment, or `None` if the
/// segment does not exist.
fn segment_is(alloc: Global, len: usize, number: u64, expected: Option<(usize, u64)>) -> bool {
    match vec![in alloc; 7; len] {
        Ok(text) => is_segment(&text, number, expected),
        Err(_) => false,
    }
}

/// Returns whether `expected` describes the segment with this number in the dataset `text`.
fn is_segment(text: &[u8], number: u64, expected: Option<(usize, u64)>) -> bool {
    match segment_of(text, number) {
        None => expected.is_none(),
        Some((segment, last)) => expected == Some((segment.len(), last)),
    }
}

/// Each segment but the last has 4,096 octets. A dataset of no octets has one segment of no octets.
/// There is no segment after the last one.
#[test]
fn segments_of_4096_octets(rt: HostRuntime) {
    assert!(rt; segment_is(rt.alloc(), 4097, 0, Some((4096, 1))));
    assert!(rt; segment_is(rt.alloc(), 4097, 1, Some((1, 1))));
    assert!(rt; segment_is(rt.alloc(), 4097, 2, None));
    assert!(rt; segment_is(rt.alloc(), 4096, 0, Some((4096, 0))));
    assert!(rt; segment_is(rt.alloc(), 4096, 1, None));
    assert!(rt; segment_is(rt.alloc(), 0, 0, Some((0, 0))));
    assert!(rt; segment_is(rt.alloc(), 0, 1, None));
    assert!(rt; segment_is(rt.alloc(), 4097, u64::MAX, None));
}
