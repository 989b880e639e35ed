//! Tests of random calls on a repository. The answers are compared with the answers of plain
//! arrays, which are searched from end to end. An independent program made the packets and the
//! names of the commands. The names are `/A`, `/A/B`, `/A/C`, `/B` and `/AA`, in canonical order.
//! The name numbered 0 is a prefix of the next two.

use super::{data_in, empty_repo, status_and_count};
use ndn_names::Name;
use ndn_packets::{Frame, Interest, read_frame};
use repo_core::Repo;
use std::alloc::Global;
use test_support::{octets, random};

/// Two Data for each name, in the canonical order of their full names.
const DATA: &str = "
0632070308014115040200000016031b010017204cf035030641ccb703951ac2e39f6d0dec5de99dd7b7dfbf9afac93172f8249e
0632070308014115040100000016031b010017201a14e8790b6614c4a432c2a01090dbbb7f720346f17c1a99b2c4ef1baeaba094
0632070608014108014215010216031b01001720de5e62be43cf6fd58295ab6aa9d987ec6c93d6fd9d6bfac31022764566ee3758
0632070608014108014215010116031b01001720141203f9456333d40bccb59bd63ae86d3be93c642f6ebaf69e123067c3e42cd4
0632070608014108014315010116031b01001720539d47605c06aa736ea7294fca14f84c61b6e194566bf40688e9bda4e1283192
0632070608014108014315010216031b01001720426b9c180a8b4cf1e24786edb1faca1109d4fa44e94784b272c8b73331433797
0632070308014215040200000016031b010017207e8284a56ddf091f2d3666bdaf602bebc9de33fc50b0c34c10f78fbdbd327bf8
0632070308014215040100000016031b0100172012f0c7cbb48412c492cff3c9e5d6695df8a74a13b16e5c038409bc6e51699077
0632070408024141150302000016031b01001720f19bbb6b8e7a32996ba181950fb127af99451afdcbe90118c0bb43231a8d9e4b
0632070408024141150301000016031b01001720546639b40dc3834367b2c2bcef0a21e2c2a2200c99a5bc27b4dedeb643d1b3e6
";

const DATA_LEN: usize = 52;

/// The names of commands: delete, check and insert, each for each name, without and with
/// CanBePrefix. An element of an unknown type fills the parameters, so that all have the same
/// length.
const COMMANDS: &str = "
08047265706f080664656c6574650811c90f0703080141f00500000000000c010002200000000000000000000000000000000000000000000000000000000000000000
08047265706f080664656c6574650811c90f07030801412100f0030000000c010002200000000000000000000000000000000000000000000000000000000000000000
08047265706f080664656c6574650811c90f0706080141080142f00200000c010002200000000000000000000000000000000000000000000000000000000000000000
08047265706f080664656c6574650811c90f07060801410801422100f0000c010002200000000000000000000000000000000000000000000000000000000000000000
08047265706f080664656c6574650811c90f0706080141080143f00200000c010002200000000000000000000000000000000000000000000000000000000000000000
08047265706f080664656c6574650811c90f07060801410801432100f0000c010002200000000000000000000000000000000000000000000000000000000000000000
08047265706f080664656c6574650811c90f0703080142f00500000000000c010002200000000000000000000000000000000000000000000000000000000000000000
08047265706f080664656c6574650811c90f07030801422100f0030000000c010002200000000000000000000000000000000000000000000000000000000000000000
08047265706f080664656c6574650811c90f070408024141f004000000000c010002200000000000000000000000000000000000000000000000000000000000000000
08047265706f080664656c6574650811c90f0704080241412100f00200000c010002200000000000000000000000000000000000000000000000000000000000000000
08047265706f0805636865636b0812c9100703080141f0060000000000000c010002200000000000000000000000000000000000000000000000000000000000000000
08047265706f0805636865636b0812c91007030801412100f004000000000c010002200000000000000000000000000000000000000000000000000000000000000000
08047265706f0805636865636b0812c9100706080141080142f0030000000c010002200000000000000000000000000000000000000000000000000000000000000000
08047265706f0805636865636b0812c91007060801410801422100f001000c010002200000000000000000000000000000000000000000000000000000000000000000
08047265706f0805636865636b0812c9100706080141080143f0030000000c010002200000000000000000000000000000000000000000000000000000000000000000
08047265706f0805636865636b0812c91007060801410801432100f001000c010002200000000000000000000000000000000000000000000000000000000000000000
08047265706f0805636865636b0812c9100703080142f0060000000000000c010002200000000000000000000000000000000000000000000000000000000000000000
08047265706f0805636865636b0812c91007030801422100f004000000000c010002200000000000000000000000000000000000000000000000000000000000000000
08047265706f0805636865636b0812c910070408024141f00500000000000c010002200000000000000000000000000000000000000000000000000000000000000000
08047265706f0805636865636b0812c9100704080241412100f0030000000c010002200000000000000000000000000000000000000000000000000000000000000000
08047265706f0806696e736572740811c90f0703080141f00500000000000c010002200000000000000000000000000000000000000000000000000000000000000000
08047265706f0806696e736572740811c90f07030801412100f0030000000c010002200000000000000000000000000000000000000000000000000000000000000000
08047265706f0806696e736572740811c90f0706080141080142f00200000c010002200000000000000000000000000000000000000000000000000000000000000000
08047265706f0806696e736572740811c90f07060801410801422100f0000c010002200000000000000000000000000000000000000000000000000000000000000000
08047265706f0806696e736572740811c90f0706080141080143f00200000c010002200000000000000000000000000000000000000000000000000000000000000000
08047265706f0806696e736572740811c90f07060801410801432100f0000c010002200000000000000000000000000000000000000000000000000000000000000000
08047265706f0806696e736572740811c90f0703080142f00500000000000c010002200000000000000000000000000000000000000000000000000000000000000000
08047265706f0806696e736572740811c90f07030801422100f0030000000c010002200000000000000000000000000000000000000000000000000000000000000000
08047265706f0806696e736572740811c90f070408024141f004000000000c010002200000000000000000000000000000000000000000000000000000000000000000
08047265706f0806696e736572740811c90f0704080241412100f00200000c010002200000000000000000000000000000000000000000000000000000000000000000
";

const COMMAND_LEN: usize = 67;

/// The place of the octet with the lifetime in the name of a command.
const LIFETIME: usize = 32;

/// Interests for each name, without and with CanBePrefix, and each of these without and with
/// MustBeFresh. An element of an unknown type fills each Interest.
const INTERESTS: &str = "
051407030801410a0400000000f00700000000000000
0514070308014112000a0400000000f0050000000000
0514070308014121000a0400000000f0050000000000
05140703080141210012000a0400000000f003000000
051407060801410801420a0400000000f00400000000
0514070608014108014212000a0400000000f0020000
0514070608014108014221000a0400000000f0020000
05140706080141080142210012000a0400000000f000
051407060801410801430a0400000000f00400000000
0514070608014108014312000a0400000000f0020000
0514070608014108014321000a0400000000f0020000
05140706080141080143210012000a0400000000f000
051407030801420a0400000000f00700000000000000
0514070308014212000a0400000000f0050000000000
0514070308014221000a0400000000f0050000000000
05140703080142210012000a0400000000f003000000
05140704080241410a0400000000f006000000000000
051407040802414112000a0400000000f00400000000
051407040802414121000a0400000000f00400000000
0514070408024141210012000a0400000000f0020000
";

const INTEREST_LEN: usize = 22;

/// The content of a repository: for each Data whether it is stored, and for each name, without and
/// with CanBePrefix, the deadline of the want, if there is one.
#[derive(Clone, Copy)]
struct Plain {
    objects: [bool; 10],
    wants: [Option<u64>; 10],
}

/// Returns whether a Data answers Interests of a want. The number of the want is twice the number
/// of its name, and one more with CanBePrefix.
fn answers(data: usize, want: usize) -> bool {
    let (of, name) = (data / 2, want / 2);
    of == name || (want == 1 && of < 3)
}

/// Returns the number of objects that answer the Interest of a want.
fn number(plain: &Plain, want: usize) -> u64 {
    let mut count: u64 = 0;
    for (data, is_held) in plain.objects.iter().enumerate() {
        count = count.saturating_add(u64::from(*is_held && answers(data, want)));
    }
    count
}

/// Returns the object with the least full name among those that answer the Interest of a want.
fn least(plain: &Plain, want: usize) -> Option<usize> {
    for (data, is_held) in plain.objects.iter().enumerate() {
        if *is_held && answers(data, want) {
            return Some(data);
        }
    }
    None
}

/// Replaces the deadline of a want. Returns whether there was a want.
fn set(plain: &mut Plain, want: usize, deadline: Option<u64>) -> bool {
    match plain.wants.get_mut(want) {
        Some(place) => {
            let was = place.is_some();
            *place = deadline;
            was
        }
        None => false,
    }
}

/// Removes the objects that answer the Interest of a want.
fn delete(plain: &mut Plain, want: usize) {
    for (data, is_held) in plain.objects.iter_mut().enumerate() {
        if answers(data, want) {
            *is_held = false;
        }
    }
}

/// Applies a command to the arrays: 0 is a delete, 1 a check, and 2 an insert. Returns the expected
/// status and count.
fn expected(plain: &mut Plain, verb: usize, want: usize, deadline: u64) -> (u16, u64) {
    let count = number(plain, want);
    let is_wanted = matches!(plain.wants.get(want), Some(Some(_)));
    match verb {
        0 => {
            set(plain, want, None);
            delete(plain, want);
            (if count > 0 || is_wanted { 200 } else { 404 }, count)
        }
        _ if count > 0 => (200, count),
        1 => (if is_wanted { 100 } else { 404 }, 0),
        _ => {
            set(plain, want, Some(deadline));
            (100, 0)
        }
    }
}

/// Applies a random command to the repository and to the arrays. Returns whether both give the same
/// status and the same count.
fn command_agrees(
    repo: &mut Repo,
    plain: &mut Plain,
    commands: &mut [u8],
    state: &mut u64,
) -> Option<bool> {
    let verb = random(state, 5).min(2) as usize;
    let want = random(state, 10) as usize;
    let (now, lifetime) = (random(state, 20), random(state, 20));
    let command = commands
        .chunks_exact_mut(COMMAND_LEN)
        .nth(verb.saturating_mul(10).saturating_add(want))?;
    *command.get_mut(LIFETIME)? = u8::try_from(lifetime).ok()?;
    let reply = status_and_count(repo, Name::read(command).ok()?, now)?;
    Some(reply == expected(plain, verb, want, now.saturating_add(lifetime)))
}

/// Removes the wants that a Data answers. If there are any, stores the Data. Returns whether there
/// are any.
fn fill(plain: &mut Plain, data: usize) -> bool {
    let mut is_filled = false;
    for (want, deadline) in plain.wants.iter_mut().enumerate() {
        if deadline.is_some() && answers(data, want) {
            *deadline = None;
            is_filled = true;
        }
    }
    if is_filled && let Some(is_held) = plain.objects.get_mut(data) {
        *is_held = true;
    }
    is_filled
}

/// Offers a random Data to the repository and to the arrays. Returns whether both agree on whether
/// the Data answers a want.
fn offer_agrees(repo: &mut Repo, plain: &mut Plain, data: &[u8], state: &mut u64) -> Option<bool> {
    let at = random(state, 10) as usize;
    let packet = data.chunks_exact(DATA_LEN).nth(at)?;
    let is_filled = fill(plain, at);
    Some(repo.offer(&data_in(packet)?).ok()? == is_filled)
}

/// Returns the Interest that `packet` encodes.
fn interest_in(packet: &[u8]) -> Option<Interest<'_>> {
    match read_frame(packet) {
        Ok(Frame::Interest(interest)) => Some(interest),
        _ => None,
    }
}

/// Returns whether the repository and the arrays agree on which Data is served for a random
/// Interest.
fn serve_agrees(
    repo: &Repo,
    plain: &Plain,
    data: &[u8],
    interests: &[u8],
    state: &mut u64,
) -> Option<bool> {
    let at = random(state, 20) as usize;
    let interest = interest_in(interests.chunks_exact(INTEREST_LEN).nth(at)?)?;
    let expected = match least(plain, at / 2) {
        Some(at) => data.chunks_exact(DATA_LEN).nth(at),
        None => None,
    };
    Some(repo.serve(&interest) == expected)
}

/// Removes the wants whose deadline has come.
fn expire(plain: &mut Plain, now: u64) {
    for deadline in plain.wants.iter_mut() {
        if let Some(moment) = *deadline
            && moment <= now
        {
            *deadline = None;
        }
    }
}

/// Returns whether the repository and the arrays agree on a random call.
fn call_agrees(
    repo: &mut Repo,
    plain: &mut Plain,
    data: &[u8],
    interests: &[u8],
    commands: &mut [u8],
    state: &mut u64,
) -> Option<bool> {
    match random(state, 8) {
        0 => serve_agrees(repo, plain, data, interests, state),
        1 => {
            let now = random(state, 30);
            expire(plain, now);
            repo.expire(now);
            Some(true)
        }
        2 | 3 => offer_agrees(repo, plain, data, state),
        _ => command_agrees(repo, plain, commands, state),
    }
}

/// Returns whether an empty repository and empty arrays agree on ten random calls.
fn sequence_agrees(
    repo: &mut Repo,
    data: &[u8],
    interests: &[u8],
    commands: &mut [u8],
    state: &mut u64,
) -> bool {
    let mut plain = Plain {
        objects: [false; 10],
        wants: [None; 10],
    };
    for _ in 0..10 {
        if call_agrees(repo, &mut plain, data, interests, commands, state) != Some(true) {
            return false;
        }
    }
    true
}

/// Returns whether an empty repository and empty arrays agree, or false if memory runs out.
fn repo_agrees(
    alloc: Global,
    data: &[u8],
    interests: &[u8],
    commands: &mut [u8],
    state: &mut u64,
) -> bool {
    match empty_repo(alloc) {
        Some(mut repo) => sequence_agrees(&mut repo, data, interests, commands, state),
        None => false,
    }
}

/// Returns whether ten thousand sequences of calls with these octets agree.
fn sequences_agree(alloc: Global, data: &[u8], interests: &[u8], commands: &mut [u8]) -> bool {
    let mut state = 0x2545_f491_4f6c_dd1d;
    for _ in 0..10_000 {
        if !repo_agrees(alloc, data, interests, commands, &mut state) {
            return false;
        }
    }
    true
}

/// Returns whether the repository and the arrays agree on ten thousand sequences of calls.
fn all_agree(alloc: Global) -> Option<bool> {
    let data = octets(alloc, DATA)?;
    let interests = octets(alloc, INTERESTS)?;
    let mut commands = octets(alloc, COMMANDS)?;
    Some(sequences_agree(alloc, &data, &interests, &mut commands))
}

#[test]
fn random_sequences(rt: HostRuntime) {
    assert!(rt; all_agree(rt.alloc()) == Some(true));
}
