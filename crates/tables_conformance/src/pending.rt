//! Tests of the limits of tables of pending Interests, of refused memory, and of random calls.
//! These tables have records only of faces below 64. Therefore no table exceeds its limit of 64
//! faces.

mod random_sequences;
mod refused_memory;

ghost use Rattle.std.specs.Prelude.{◌≡◌, ◌≤◌, length};

use ndn_names::Name;
use ndn_packets::*;
use pit_fib::*;
use std::alloc::Global;
use std::marker::Model;

/// A table that has records only of faces below 64.
#[derive(Drop)]
struct Table {
    pit: Pit,
}

impl Model for Table {
    ghost use Rattle.std.specs.Prelude.{ℕ, ◌<◌};
    ghost use Rattle.pit_fib.specs.Pit.{PitState, pit_code, HasRecord};

    ghost Value = { PitState };

    ghost coded = { pit_code };

    ghost view = { λ t. t.pit };

    ghost invariant = { λ t. (face : ℕ) → HasRecord t.pit.pending face → face < 64 };
}

impl Table {
    fn new(alloc: Global) -> Table {
        Table {
            pit: Pit::new(alloc),
        }
    }

    /// Records an Interest of the face `face % 64`. The octets of the Interest are its Nonce.
    /// Returns the fault if the table refuses the Interest.
    fn ask(&mut self, key: Key<'_>, face: u64, nonce: [u8; 4], deadline: u64) -> Option<PitFault> {
        self.pit
            .arrive(key, face % 64, nonce, &nonce, deadline, None)
            .err()
    }

    /// Records an Interest that has a PIT token and comes from the face `face % 64`. The octets of
    /// the Interest are its Nonce. Returns the fault if the table refuses the Interest.
    fn ask_with(
        &mut self,
        key: Key<'_>,
        face: u64,
        nonce: [u8; 4],
        deadline: u64,
        token: &[u8],
    ) -> Option<PitFault>
        requires { (1 ≤ length token.now) × (length token.now ≤ 32) }
    {
        self.pit
            .arrive(key, face % 64, nonce, &nonce, deadline, Some(token))
            .err()
    }

    /// Prepares an Interest under this key. The Interest and its PIT token may have `octets` octets
    /// together. Returns whether the Interest is prepared.
    fn prepare(&mut self, key: Key<'_>, octets: usize) -> bool {
        self.pit.prepare(key, octets).is_ok()
    }

    /// Records that an Interest under this key was sent to the face `face % 64`, if the face
    /// `asker` has a pending Interest under the key. Returns whether the sending was recorded.
    fn sent(&mut self, key: Key<'_>, asker: u64, face: u64, nonce: [u8; 4], now: u64) -> bool {
        if self.pit.interest_of(key, asker).is_none() {
            return false;
        }
        self.pit.sent(key, face % 64, nonce, now).is_ok()
    }

    fn satisfy(&mut self, packet: &Data<'_>) -> Faces {
        self.pit.satisfy(packet)
    }

    fn nacked(&mut self, key: Key<'_>, face: u64, nonce: [u8; 4], reason: u64) -> Nacked {
        self.pit.nacked(key, face, nonce, reason)
    }

    fn withdraw(&mut self, key: Key<'_>, face: u64) {
        self.pit.withdraw(key, face);
    }

    fn remove(&mut self, key: Key<'_>) {
        self.pit.remove(key);
    }

    fn expire(&mut self, now: u64) {
        self.pit.expire(now);
    }

    fn close_face(&mut self, face: u64) {
        self.pit.close_face(face);
    }
}

/// Returns the octets of the name with one component, which is `number` in two octets.
fn numbered(number: u16) -> [u8; 4] {
    let [high, low] = number.to_be_bytes();
    [8, 2, high, low]
}

/// Returns the key with the name in `octets` and with these flags: 1 for MustBeFresh, 2 for
/// CanBePrefix, and 3 for both.
fn key_of(octets: &[u8], flags: u16) -> Option<Key<'_>> {
    match Name::read(octets) {
        Ok(name) => Some(Key {
            name,
            can_be_prefix: flags >= 2,
            must_be_fresh: flags % 2 == 1,
        }),
        Err(_) => None,
    }
}

/// Records an Interest under the key with this number, and returns whether the Interest is
/// recorded. If `share_names` is set, each name is shared by four keys with different flags.
/// Otherwise each key has its own name.
fn asks(table: &mut Table, number: u16, face: u64, share_names: bool) -> bool {
    let (at, flags) = if share_names {
        (number / 4, number % 4)
    } else {
        (number, 0)
    };
    match key_of(&numbered(at), flags) {
        Some(key) => table.ask(key, face, [0; 4], 9).is_none(),
        None => false,
    }
}

/// Returns whether a table accepts Interests under 4,096 keys, then refuses an Interest under a
/// further key, but accepts a second Interest under one of the 4,096 keys.
fn fills(table: &mut Table, share_names: bool) -> bool {
    for number in 0..4096 {
        if !asks(table, number, 1, share_names) {
            return false;
        }
    }
    !asks(table, 4096, 1, share_names)
        && asks(table, 4095, 2, share_names)
        && table.pit.len() == 4096
}

fn is_filled(alloc: Global, share_names: bool) -> bool {
    let mut table = Table::new(alloc);
    fills(&mut table, share_names)
}

#[test]
fn full_pending_table(rt: HostRuntime) {
    assert!(rt; is_filled(rt.alloc(), false));
    assert!(rt; is_filled(rt.alloc(), true));
}

const ROUNDS: u32 = 100_000;

/// Removes the pending Interests under the key with this number. The key has its own name and no
/// flags.
fn remove(table: &mut Table, number: u16) {
    if let Some(key) = key_of(&numbered(number), 0) {
        table.remove(key);
    }
}

/// Runs many rounds. Each round records an Interest under one of 4,096 keys, and removes the
/// Interest, if any, that was recorded 64 rounds earlier. Returns whether each Interest is
/// recorded, and the table then has 64 keys. After an expiry at the deadline of the Interests, the
/// table must be empty.
fn runs_rounds(table: &mut Table) -> bool {
    for round in 0..ROUNDS {
        let Ok(number) = u16::try_from(round % 4096) else {
            return false;
        };
        if !asks(table, number, 1, false) {
            return false;
        }
        remove(table, (number + 4032) % 4096);
    }
    let stood = table.pit.len();
    table.expire(9);
    stood == 64 && table.pit.is_empty()
}

fn ends_empty(alloc: Global) -> bool {
    let mut table = Table::new(alloc);
    runs_rounds(&mut table)
}

#[test]
fn many_rounds_of_one_table(rt: HostRuntime) {
    assert!(rt; ends_empty(rt.alloc()));
}

/// Records Interests of 64 faces under the key. Returns whether an Interest under the key can then
/// be sent to 64 faces.
fn sends_to_64_faces(table: &mut Table, key: Key<'_>) -> bool {
    for face in 0..64 {
        table.ask(key, face, [0; 4], 9);
    }
    for face in 0..64 {
        if !table.sent(key, 0, face, [0; 4], 9) {
            return false;
        }
    }
    table.pit.used(key).len() == 64
}

/// Returns whether the greatest moment is recorded when an Interest with the greatest deadline is
/// sent, and the Interest is pending until that moment.
fn takes_the_last_moment(table: &mut Table, key: Key<'_>) -> bool {
    let end = u64::MAX;
    if table.ask(key, 1, [7; 4], end).is_some() || !table.sent(key, 1, 2, [7; 4], end) {
        return false;
    }
    table.expire(end - 1);
    let stands = table.pit.used(key).get(2) == Some(end) && table.pit.len() == 1;
    table.expire(end);
    stands && table.pit.is_empty()
}

fn ends_at_the_last_moment(alloc: Global) -> bool {
    let mut table = Table::new(alloc);
    match key_of(&numbered(0), 0) {
        Some(key) => takes_the_last_moment(&mut table, key),
        None => false,
    }
}

#[test]
fn greatest_moments(rt: HostRuntime) {
    assert!(rt; ends_at_the_last_moment(rt.alloc()));
}

/// Records an Interest for `/` with each combination of flags. The Interest with the flags F is on
/// face F, and its PIT token is F + 1. Returns whether all of them are recorded.
fn asks_for_root(table: &mut Table) -> bool {
    for flags in 0..4 {
        let token = [flags as u8 + 1];
        let is_recorded = match key_of(b"", flags) {
            Some(key) => table
                .ask_with(key, u64::from(flags), [7; 4], 9, &token)
                .is_none(),
            None => false,
        };
        if !is_recorded {
            return false;
        }
    }
    true
}

/// Returns whether each key of `/` has the PIT token of its own Interest, and of no other face.
fn has_tokens_of_root(table: &Table) -> bool {
    for flags in 0..4 {
        let Some(key) = key_of(b"", flags) else {
            return false;
        };
        for face in 0..4 {
            let token = [flags as u8 + 1];
            let expected = if face == flags {
                Some(token.as_slice())
            } else {
                None
            };
            if table.pit.token_of(key, u64::from(face)) != expected {
                return false;
            }
        }
    }
    true
}

/// Returns whether the four keys of `/` have records of their own. Of their Interests, only those
/// with CanBePrefix are answered by a Data with a longer name.
fn tells_keys_of_root(alloc: Global) -> bool {
    let mut table = Table::new(alloc);
    asks_for_root(&mut table)
        && has_tokens_of_root(&table)
        && table.pit.len() == 4
        && faces_of(&mut table, &DATA) == 2
        && table.pit.len() == 2
}

#[test]
fn keys_of_root(rt: HostRuntime) {
    assert!(rt; tells_keys_of_root(rt.alloc()));
}

/// The Data `/%00%00`, with no octets of Content.
const DATA: [u8; 49] =
    *b"\x06\x2f\x07\x04\x08\x02\x00\x00\x15\x00\x16\x03\x1b\x01\x00\x17\x20\xc3\x8d\xe7\xe5\x54\xf8\x78\x1c\xab\xd1\xa5\x0f\xb6\x97\x52\x66\x3e\x00\x43\x68\x6f\x85\x46\x3b\x98\xc4\x3e\xa2\x96\xfa\x3b\x4d";

/// Satisfies pending Interests with a Data, and returns the number of the faces to which the Data
/// is sent.
fn faces_of(table: &mut Table, packet: &[u8]) -> usize {
    match read_frame(packet) {
        Ok(Frame::Data(data)) => table.satisfy(&data).len(),
        _ => 0,
    }
}

/// Returns whether an Interest of 64 faces is sent to 64 faces, and its Data is then sent to 64
/// faces.
fn holds_64_faces(alloc: Global) -> bool {
    let mut table = Table::new(alloc);
    match key_of(&numbered(0), 0) {
        Some(key) => sends_to_64_faces(&mut table, key) && faces_of(&mut table, &DATA) == 64,
        None => false,
    }
}

#[test]
fn records_of_64_faces(rt: HostRuntime) {
    assert!(rt; holds_64_faces(rt.alloc()));
}

/// Returns whether a table knows that none of its Interests has a token.
fn knows_of_no_tokens(alloc: Global) -> bool {
    let mut table = Table::new(alloc);
    !table.pit.has_tokens() && asks(&mut table, 0, 1, false) && !table.pit.has_tokens()
}

#[test]
fn no_tokens(rt: HostRuntime) {
    assert!(rt; knows_of_no_tokens(rt.alloc()));
}
