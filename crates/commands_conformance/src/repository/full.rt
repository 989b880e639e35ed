//! Tests of a full repository.

use super::{data_in, empty_repo, status_and_count};
use ndn_names::Name;
use repo_core::Repo;
use std::alloc::Global;

/// The name of an insert of `/N` into the repository `/repo`. N has four octets, which begin at
/// index 22.
const INSERT: [u8; 60] =
    *b"\x08\x04repo\x08\x06insert\x08\x0a\xc9\x08\x07\x06\x08\x04NNNN\x02\x20\0\0\0\0\0\0\0\0\0\0\0\0\0\0\0\0\0\0\0\0\0\0\0\0\0\0\0\0\0\0\0\0";

/// The Data `/N`. N has four octets, which begin at index 6.
const DATA: [u8; 17] = *b"\x06\x0f\x07\x06\x08\x04NNNN\x16\x03\x1b\x01\x00\x17\x00";

/// Applies an insert of `/N`, where N is `number`, and returns whether the insert has this status.
fn inserts(repo: &mut Repo, number: u32, status: u16) -> bool {
    let mut octets = INSERT;
    octets[22..26].copy_from_slice(&number.to_be_bytes());
    match Name::read(&octets) {
        Ok(name) => matches!(status_and_count(repo, name, 0), Some((was, _)) if was == status),
        Err(_) => false,
    }
}

/// Offers the Data `/N`, where N is `number`, and returns whether the Data answers a want.
fn fills(repo: &mut Repo, number: u32) -> bool {
    let mut octets = DATA;
    octets[6..10].copy_from_slice(&number.to_be_bytes());
    match data_in(&octets) {
        Some(data) => matches!(repo.offer(&data), Ok(true)),
        None => false,
    }
}

/// Returns whether the repository accepts 65,536 objects and wants in total, and then refuses a
/// further want. A want that is equal to a pending want must be accepted, and so must an insert for
/// the name of a stored Data.
fn holds_so_many(repo: &mut Repo) -> bool {
    for number in 0..65_535 {
        if !inserts(repo, number, 100) || !fills(repo, number) {
            return false;
        }
    }
    inserts(repo, 65_535, 100)
        && inserts(repo, 65_536, 503)
        && inserts(repo, 65_535, 100)
        && fills(repo, 65_535)
        && inserts(repo, 65_536, 503)
        && inserts(repo, 65_535, 200)
}

fn is_filled(alloc: Global) -> bool {
    match empty_repo(alloc) {
        Some(mut repo) => holds_so_many(&mut repo),
        None => false,
    }
}

#[test]
fn full_repository(rt: HostRuntime) {
    assert!(rt; is_filled(rt.alloc()));
}
