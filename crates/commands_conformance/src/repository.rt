//! Tests of the repository that no scenario shows: names that no node reads as a command, a status
//! without a text, a full repository, comparisons, refused memory, and random calls.

mod full;
mod random_sequences;
mod refused_memory;
mod same_repositories;

use ndn_names::{Name, NameBuf};
use ndn_packets::{Data, Frame, read_frame};
use repo_core::{Repo, repo_status_text};
use std::alloc::Global;
use test_support::first_wrong;

/// Returns the Data that `packet` encodes.
fn data_in(packet: &[u8]) -> Option<Data<'_>> {
    match read_frame(packet) {
        Ok(Frame::Data(data)) => Some(data),
        _ => None,
    }
}

/// Returns an empty repository with this prefix.
fn repo_at(alloc: Global, prefix: &str) -> Option<Repo> {
    Repo::new(alloc, NameBuf::from_uri(alloc, prefix).ok()?).ok()
}

/// Returns an empty repository with the prefix `/repo`.
fn empty_repo(alloc: Global) -> Option<Repo> {
    repo_at(alloc, "/repo")
}

/// Applies a command, and returns its status and its count.
fn status_and_count(repo: &mut Repo, name: Name<'_>, now: u64) -> Option<(u16, u64)> {
    let reply = repo.command(name, now).ok()?;
    Some((reply.status, reply.count))
}

/// Returns the status and the count of the reply of an empty repository to a command.
fn first_reply(alloc: Global, name: Name<'_>) -> Option<(u16, u64)> {
    status_and_count(&mut empty_repo(alloc)?, name, 0)
}

/// Returns whether an empty repository answers the name with this URI with status 400.
fn is_refused(alloc: Global, uri: &str) -> bool {
    match NameBuf::from_uri(alloc, uri) {
        Ok(name) => first_reply(alloc, name.view()) == Some((400, 0)),
        Err(_) => false,
    }
}

const NAMES: &str = "
/
/repo
/repo/insert/%C9%05%07%03%08%01A
/repo/insert/%C9%05%07%03%08%01A/params-sha256=0000000000000000000000000000000000000000000000000000000000000000/params-sha256=0000000000000000000000000000000000000000000000000000000000000000
/repo/list/%C9%05%07%03%08%01A/params-sha256=0000000000000000000000000000000000000000000000000000000000000000
/other/insert/%C9%05%07%03%08%01A/params-sha256=0000000000000000000000000000000000000000000000000000000000000000
";

/// No node gives these names to its repository: they have another prefix or verb, no digest, or two
/// digests.
#[test]
fn names_of_no_command(rt: HostRuntime) {
    assert!(rt; first_wrong(rt.alloc(), NAMES, is_refused) == 0);
}

/// No command of the repository has status 403.
#[test]
fn texts_of_repository_statuses(rt: HostRuntime) {
    assert!(rt; repo_status_text(503) == Some("repository full"));
    assert!(rt; repo_status_text(403).is_none());
}
