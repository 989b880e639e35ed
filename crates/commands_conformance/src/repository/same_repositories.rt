//! Tests of comparisons of repositories.

use super::{data_in, empty_repo, repo_at, status_and_count};
use ndn_names::Name;
use repo_core::Repo;
use std::alloc::Global;

/// The name of a command about `/N` of the repository `/repo`. The verb has the six octets at index
/// 8, and N is the octet at index 22. The element after the Name, at index 23, has the unknown type
/// 240.
const COMMAND: [u8; 59] =
    *b"\x08\x04repo\x08\x06insert\x08\x09\xc9\x07\x07\x03\x08\x01N\xf0\x00\x02\x20\0\0\0\0\0\0\0\0\0\0\0\0\0\0\0\0\0\0\0\0\0\0\0\0\0\0\0\0\0\0\0\0";

/// The type of the CanBePrefix element.
const CAN_BE_PREFIX: u8 = 0x21;

/// The Data `/N` with the Content C, where N is the octet at index 6 and C the octet at index 9.
const DATA: [u8; 17] = *b"\x06\x0f\x07\x03\x08\x01N\x15\x01C\x16\x03\x1b\x01\x00\x17\x00";

/// A call about `/N`, where N is the first octet.
#[derive(Clone, Copy)]
enum Call {
    /// An insert at a moment.
    Insert(u8, u64),
    /// An insert with CanBePrefix, at the moment 0.
    InsertPrefix(u8),
    Delete(u8),
    /// An offer of a Data with a Content of one octet.
    Offer(u8, u8),
}

/// Applies the command with this name. Returns whether the command has an effect.
fn applies(repo: &mut Repo, octets: &[u8], now: u64) -> bool {
    match Name::read(octets) {
        Ok(name) => matches!(status_and_count(repo, name, now), Some((100 | 200, _))),
        Err(_) => false,
    }
}

/// Offers the Data that `packet` encodes. Returns whether the Data is stored.
fn stores(repo: &mut Repo, packet: &[u8]) -> bool {
    match data_in(packet) {
        Some(data) => matches!(repo.offer(&data), Ok(true)),
        None => false,
    }
}

/// Makes a call. Returns whether it has an effect.
fn makes(repo: &mut Repo, call: Call) -> bool {
    let mut command = COMMAND;
    match call {
        Call::Insert(name, now) => {
            command[22] = name;
            applies(repo, &command, now)
        }
        Call::InsertPrefix(name) => {
            command[22] = name;
            command[23] = CAN_BE_PREFIX;
            applies(repo, &command, 0)
        }
        Call::Delete(name) => {
            command[8..14].copy_from_slice(b"delete");
            command[22] = name;
            applies(repo, &command, 0)
        }
        Call::Offer(name, content) => {
            let mut data = DATA;
            data[6] = name;
            data[9] = content;
            stores(repo, &data)
        }
    }
}

/// Makes calls. Returns whether each of them has an effect.
fn makes_each(repo: &mut Repo, calls: &[Call]) -> bool {
    for call in calls {
        if !makes(repo, *call) {
            return false;
        }
    }
    true
}

/// Returns a repository with the prefix `/repo` after these calls. Returns `None` if a call has no
/// effect or memory runs out.
fn repo_after(alloc: Global, calls: &[Call]) -> Option<Repo> {
    let mut repo = empty_repo(alloc)?;
    if makes_each(&mut repo, calls) {
        Some(repo)
    } else {
        None
    }
}

/// Returns whether a repository has the same objects and wants as a repository after the calls
/// `others`.
fn holds_same_after(alloc: Global, repo: &Repo, others: &[Call]) -> Option<bool> {
    let other = repo_after(alloc, others)?;
    Some(repo.holds_same(&other))
}

/// Returns whether two repositories have the same objects and wants after these calls.
fn sameness(alloc: Global, calls: &[Call], others: &[Call]) -> Option<bool> {
    let repo = repo_after(alloc, calls)?;
    holds_same_after(alloc, &repo, others)
}

/// Calls in two orders, with the same objects and wants after them: the object `/B` and the want
/// `/A`.
const CALLS: &[Call] = &[
    Call::Insert(b'A', 0),
    Call::Insert(b'B', 0),
    Call::Offer(b'B', 1),
];

const OTHERS: &[Call] = &[
    Call::Insert(b'B', 0),
    Call::Offer(b'B', 1),
    Call::Insert(b'C', 0),
    Call::Delete(b'C'),
    Call::Insert(b'A', 0),
];

/// Calls with one want or one object after them.
const WANTS_A: &[Call] = &[Call::Insert(b'A', 0)];

const WANTS_A_LATER: &[Call] = &[Call::Insert(b'A', 1)];

const WANTS_PREFIX_A: &[Call] = &[Call::InsertPrefix(b'A')];

const WANTS_B: &[Call] = &[Call::Insert(b'B', 0)];

const HAS_A_1: &[Call] = &[Call::Insert(b'A', 0), Call::Offer(b'A', 1)];

const HAS_A_2: &[Call] = &[Call::Insert(b'A', 0), Call::Offer(b'A', 2)];

const HAS_B_1: &[Call] = &[Call::Insert(b'B', 0), Call::Offer(b'B', 1)];

#[test]
fn same_repositories(rt: HostRuntime) {
    assert!(rt; sameness(rt.alloc(), CALLS, OTHERS) == Some(true));
    assert!(rt; sameness(rt.alloc(), &[], &[]) == Some(true));
    assert!(rt; sameness(rt.alloc(), WANTS_A, WANTS_PREFIX_A) == Some(false));
    assert!(rt; sameness(rt.alloc(), WANTS_A, WANTS_B) == Some(false));
    assert!(rt; sameness(rt.alloc(), WANTS_A, WANTS_A_LATER) == Some(false));
    assert!(rt; sameness(rt.alloc(), WANTS_A, &[]) == Some(false));
    assert!(rt; sameness(rt.alloc(), HAS_A_1, HAS_A_2) == Some(false));
    assert!(rt; sameness(rt.alloc(), HAS_A_1, HAS_B_1) == Some(false));
    assert!(rt; sameness(rt.alloc(), HAS_A_1, &[]) == Some(false));
    assert!(rt; sameness(rt.alloc(), HAS_B_1, CALLS) == Some(false));
}

/// Returns whether a repository has the same prefix as a repository with the prefix `other`.
fn has_prefix(alloc: Global, repo: &Repo, other: &str) -> Option<bool> {
    let other = repo_at(alloc, other)?;
    Some(repo.has_same_prefix(&other))
}

/// Returns whether two repositories with these prefixes have the same prefix.
fn same_prefix(alloc: Global, prefix: &str, other: &str) -> Option<bool> {
    let repo = repo_at(alloc, prefix)?;
    has_prefix(alloc, &repo, other)
}

#[test]
fn same_prefixes(rt: HostRuntime) {
    assert!(rt; same_prefix(rt.alloc(), "/A/B", "/A/B") == Some(true));
    assert!(rt; same_prefix(rt.alloc(), "/A", "/A/B") == Some(false));
    assert!(rt; same_prefix(rt.alloc(), "/A/B", "/A") == Some(false));
    assert!(rt; same_prefix(rt.alloc(), "/A", "/B") == Some(false));
}
