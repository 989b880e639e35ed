//! Tests of commands and Data of the repository whose memory was prepared, and of calls to which
//! memory is refused. Each function that the tests call returns `None` if memory was refused and
//! nothing has changed. So with ample memory its result is true, and if any single request for
//! memory is refused, its result is not false (`rt try --test --fail-alloc N`).

use super::{data_in, empty_repo, status_and_count};
use ndn_names::Name;
use ndn_packets::Data;
use ndn_tlv::Memory;
use repo_core::{Repo, put_repo_reply};
use std::alloc::Global;

/// The names of an insert and of a check of `/A`.
const INSERT: &[u8] =
    b"\x08\x04repo\x08\x06insert\x08\x07\xc9\x05\x07\x03\x08\x01A\x02\x20\0\0\0\0\0\0\0\0\0\0\0\0\0\0\0\0\0\0\0\0\0\0\0\0\0\0\0\0\0\0\0\0";

const CHECK: &[u8] =
    b"\x08\x04repo\x08\x05check\x08\x07\xc9\x05\x07\x03\x08\x01A\x02\x20\0\0\0\0\0\0\0\0\0\0\0\0\0\0\0\0\0\0\0\0\0\0\0\0\0\0\0\0\0\0\0\0";

/// The Data `/A`.
const DATA: &[u8] = b"\x06\x0c\x07\x03\x08\x01A\x16\x03\x1b\x01\x00\x17\x00";

/// Returns `None` if a refused call left everything unchanged, and false otherwise.
fn refused(is_unchanged: bool) -> Option<bool> {
    if is_unchanged { None } else { Some(false) }
}

/// Applies a command at the moment 0. Returns its status, or 0 if memory runs out.
fn status(repo: &mut Repo, octets: &[u8]) -> u16 {
    let Ok(name) = Name::read(octets) else {
        return 0;
    };
    match status_and_count(repo, name, 0) {
        Some((status, _)) => status,
        None => 0,
    }
}

/// Offers the Data, which an insert waits for. Returns whether the Data is stored.
fn stores_or_leaves(repo: &mut Repo, data: &Data<'_>) -> Option<bool> {
    match repo.offer(data) {
        Ok(is_wanted) => Some(is_wanted && status(repo, CHECK) == 200),
        Err(Memory) => refused(status(repo, CHECK) == 100),
    }
}

/// Prepares the offer of the Data, which an insert waits for, and offers the Data. Returns whether
/// the Data is stored.
fn stores_what_is_prepared(repo: &mut Repo, data: &Data<'_>) -> Option<bool> {
    let is_prepared = repo.prepare_offer(data).is_ok();
    repo.expire(0);
    match stores_or_leaves(repo, data) {
        None if is_prepared => Some(false),
        stored => stored,
    }
}

/// Prepares an insert and applies it, and then prepares the offer of the Data and makes it. Returns
/// whether the Data is stored. A call that was prepared does not run out of memory, even after an
/// expiry of wants.
fn keeps_its_promises(repo: &mut Repo) -> Option<bool> {
    let insert = Name::read(INSERT).ok()?;
    if repo.prepare_command(insert).is_err() {
        return refused(status(repo, CHECK) == 404);
    }
    repo.expire(0);
    if status(repo, INSERT) != 100 {
        return Some(false);
    }
    stores_what_is_prepared(repo, &data_in(DATA)?)
}

/// Applies an insert and offers the Data, neither of which was prepared. Returns whether the Data
/// is stored. If the insert runs out of memory, the Data must not be wanted.
fn has_effects_or_none(repo: &mut Repo) -> Option<bool> {
    let data = data_in(DATA)?;
    let inserted = status(repo, INSERT);
    let before = status(repo, CHECK);
    if inserted == 100 && before == 100 {
        return stores_or_leaves(repo, &data);
    }
    let is_unwanted = matches!(repo.offer(&data), Ok(false));
    refused(inserted == 0 && before == 404 && is_unwanted && status(repo, CHECK) == 404)
}

/// Returns what `play` returns for an empty repository.
fn played(alloc: Global, play: fn(&mut Repo) -> Option<bool>) -> Option<bool>
    requires { IsAlwaysCallable play }
{
    let mut repo = empty_repo(alloc)?;
    play(&mut repo)
}

/// The octet 7, and this octet with a reply after it whose count is 1 or 256.
const SEVEN: &[u8] = b"\x07";

const ONE: &[u8] = b"\x07\xcf\x0a\xd0\x01\xc8\x67\x02OK\x84\x01\x01";

const MANY: &[u8] = b"\x07\xcf\x0b\xd0\x01\xc8\x67\x02OK\x84\x02\x01\x00";

/// Appends a reply to a buffer of one octet. Returns whether the buffer then has this octet and the
/// reply `expected`.
fn replies_or_leaves(alloc: Global, count: u64, expected: &[u8]) -> Option<bool> {
    let mut out = vec![in alloc; 7].ok()?;
    match put_repo_reply(&mut out, 200, "OK", count) {
        Ok(()) => Some(out.as_slice() == expected),
        Err(Memory) => refused(out.as_slice() == SEVEN),
    }
}

#[test]
fn repository_prepared(rt: HostRuntime) {
    assert!(rt; played(rt.alloc(), keeps_its_promises) == Some(true));
    assert!(rt; played(rt.alloc(), has_effects_or_none) == Some(true));
    assert!(rt; replies_or_leaves(rt.alloc(), 1, ONE) == Some(true));
    assert!(rt; replies_or_leaves(rt.alloc(), 256, MANY) == Some(true));
}

#[test]
fn repository_with_refused_memory(rt: HostRuntime) {
    assert!(rt; played(rt.alloc(), keeps_its_promises) != Some(false));
    assert!(rt; played(rt.alloc(), has_effects_or_none) != Some(false));
    assert!(rt; replies_or_leaves(rt.alloc(), 1, ONE) != Some(false));
    assert!(rt; replies_or_leaves(rt.alloc(), 256, MANY) != Some(false));
}
