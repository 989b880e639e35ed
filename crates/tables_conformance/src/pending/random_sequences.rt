//! Random calls on a table. The answers are compared with the answers of plain arrays of records.
//! For each answer, these arrays are searched from end to end. An independent program made the
//! Data.

use super::{Table, key_of};
use ndn_packets::*;
use pit_fib::*;
use std::alloc::Global;
use test_support::random;

/// Returns the octets of the name, and the flags, of the key with this number. The keys are `/A`,
/// `/A` with CanBePrefix, `/A` with MustBeFresh, `/A/B`, `/` with CanBePrefix, and the full name of
/// the Data `/A`.
fn key_at(at: usize) -> Option<Key<'static>> {
    match at {
        0 => key_of(b"\x08\x01\x41", 0),
        1 => key_of(b"\x08\x01\x41", 2),
        2 => key_of(b"\x08\x01\x41", 1),
        3 => key_of(b"\x08\x01\x41\x08\x01\x42", 0),
        4 => key_of(b"", 2),
        _ => key_of(
            b"\x08\x01\x41\x01\x20\x2d\x92\xa3\x83\x70\x6a\x61\x5f\xe6\x7c\x9a\x58\x5b\x00\xf2\x9c\x5c\x06\xd2\xab\xda\xec\x45\x6e\x9c\xdc\x02\x66\x79\xeb\x24\x79",
            0,
        ),
    }
}

/// Returns the Data with this number: `/A`, `/A/B` or `/B`.
fn data_at(at: u64) -> &'static [u8] {
    match at {
        0 =>
            b"\x06\x2e\x07\x03\x08\x01\x41\x15\x00\x16\x03\x1b\x01\x00\x17\x20\x5c\x43\x9a\xb8\x93\x8d\x3e\x9e\x25\x03\x16\xcb\xe5\x70\xd3\x6f\x87\x86\xba\x25\xbc\x6c\xc7\xb3\x76\x07\x30\x7c\x65\xe6\x22\x70",
        1 =>
            b"\x06\x31\x07\x06\x08\x01\x41\x08\x01\x42\x15\x00\x16\x03\x1b\x01\x00\x17\x20\xfd\xd1\xe1\xa7\x42\x29\x3a\xc0\x03\x73\xcd\x92\xbb\x46\x2e\x72\x11\xbe\xcd\x65\x46\x70\x8c\x43\xc9\x01\xac\xf8\xa9\xaf\x32\x65",
        _ =>
            b"\x06\x2e\x07\x03\x08\x01\x42\x15\x00\x16\x03\x1b\x01\x00\x17\x20\x7e\xc8\xe9\x39\x9f\x05\x3d\x41\xf4\xe9\x09\x64\x60\x5c\x56\x37\x3d\x14\xc5\x78\x7c\x26\xf3\xf5\xe1\xb2\x64\x3a\x05\xf7\x38\x3d",
    }
}

/// Returns whether the Data with the number `at` answers an Interest under the key with the number
/// `key`.
fn is_answered(at: u64, key: usize) -> bool {
    match at {
        0 => key != 3,
        1 => key == 1 || key == 3 || key == 4,
        _ => key == 4,
    }
}

/// An in-record.
#[derive(Clone, Copy)]
struct Ask {
    nonce: u64,
    deadline: u64,
}

/// An out-record.
#[derive(Clone, Copy)]
struct Sent {
    nonce: u64,
    moment: u64,
    reason: Option<u64>,
}

/// The in-records and the out-records of a key, by the numbers of three faces.
#[derive(Clone, Copy)]
struct Entry {
    asks: [Option<Ask>; 3],
    sent: [Option<Sent>; 3],
}

impl Entry {
    /// Returns an entry without records.
    fn new() -> Entry {
        Entry {
            asks: [None; 3],
            sent: [None; 3],
        }
    }

    fn ask_of(&self, face: usize) -> Option<Ask> {
        *self.asks.get(face)?
    }

    fn sent_to(&self, face: usize) -> Option<Sent> {
        *self.sent.get(face)?
    }

    fn set_ask(&mut self, face: usize, ask: Option<Ask>) {
        if let Some(place) = self.asks.get_mut(face) {
            *place = ask;
        }
    }

    fn set_sent(&mut self, face: usize, sent: Option<Sent>) {
        if let Some(place) = self.sent.get_mut(face) {
            *place = sent;
        }
    }

    /// Returns whether an Interest is pending.
    fn is_pending(&self) -> bool {
        for ask in &self.asks {
            if ask.is_some() {
                return true;
            }
        }
        false
    }

    /// Returns whether an out-record has this Nonce.
    fn was_sent(&self, nonce: u64) -> bool {
        for sent in &self.sent {
            if let Some(sent) = sent
                && sent.nonce == nonce
            {
                return true;
            }
        }
        false
    }

    /// Returns false if the Nonce is in the in-record of `face`. Otherwise returns whether the
    /// Nonce is in an out-record or in the in-record of another face.
    fn loops(&self, face: usize, nonce: u64) -> bool {
        let mut is_known = self.was_sent(nonce);
        for (asker, ask) in self.asks.iter().enumerate() {
            if let Some(ask) = ask
                && ask.nonce == nonce
            {
                if asker == face {
                    return false;
                }
                is_known = true;
            }
        }
        is_known
    }

    /// Removes the Interests whose deadline has come.
    fn expire(&mut self, now: u64) {
        for ask in self.asks.iter_mut() {
            if let Some(Ask { deadline, .. }) = *ask
                && deadline <= now
            {
                *ask = None;
            }
        }
    }

    /// Returns `Waiting` if some out-record has no reason of a Nack. Otherwise returns `All` with
    /// the least reason in the out-records.
    fn least_reason(&self) -> Nacked {
        let mut least = u64::MAX;
        for sent in &self.sent {
            if let Some(sent) = sent {
                let Some(reason) = sent.reason else {
                    return Nacked::Waiting;
                };
                least = least.min(reason);
            }
        }
        Nacked::All(least)
    }

    /// Records a Nack, and returns its expected result.
    fn nacked(&mut self, face: usize, nonce: u64, reason: u64) -> Nacked {
        match self.sent_to(face) {
            Some(sent) if sent.nonce == nonce => {
                let reason = Some(reason);
                self.set_sent(face, Some(Sent { reason, ..sent }));
                self.least_reason()
            }
            _ => Nacked::NoPending,
        }
    }
}

/// The entries of the six keys.
type Records = [Entry; 6];

fn octets_of(nonce: u64) -> [u8; 4] {
    u32::try_from(nonce).unwrap_or(0).to_be_bytes()
}

/// Removes the out-records of each key under which no Interest is pending.
fn settle(records: &mut Records) {
    for entry in records.iter_mut() {
        if !entry.is_pending() {
            *entry = Entry::new();
        }
    }
}

/// Returns whether the table and the entry have the same pending Interest of the face, and the same
/// moment at which an Interest was last sent to the face.
fn shows(table: &Table, entry: &Entry, key: Key<'_>, face: usize) -> bool {
    let is_asked = match (table.pit.interest_of(key, face as u64), entry.ask_of(face)) {
        (Some(octets), Some(ask)) => octets == octets_of(ask.nonce).as_slice(),
        (None, None) => true,
        _ => false,
    };
    let moment = match entry.sent_to(face) {
        Some(sent) => Some(sent.moment),
        None => None,
    };
    is_asked && table.pit.used(key).get(face as u64) == moment
}

/// Returns whether `shows` returns true for a key and all faces.
fn shows_faces(table: &Table, entry: &Entry, at: usize) -> bool {
    let Some(key) = key_at(at) else {
        return false;
    };
    shows(table, entry, key, 0) && shows(table, entry, key, 1) && shows(table, entry, key, 2)
}

/// Returns whether `shows` returns true for all keys and faces, and the table and the records have
/// pending Interests under the same number of keys.
fn shows_all(table: &Table, records: &Records) -> bool {
    let mut len: usize = 0;
    for (at, entry) in records.iter().enumerate() {
        if !shows_faces(table, entry, at) {
            return false;
        }
        len = len.saturating_add(usize::from(entry.is_pending()));
    }
    table.pit.len() == len && counts_all(table, records)
}

/// Returns whether the table counts the in-records of each face.
fn counts_all(table: &Table, records: &Records) -> bool {
    for face in 0..3 {
        let mut count = 0u64;
        for entry in records {
            count = count.saturating_add(u64::from(entry.ask_of(face).is_some()));
        }
        if table.pit.records_of(face as u64) != count {
            return false;
        }
    }
    true
}

/// Returns whether a face has a pending Interest that the Data answers.
fn is_asking(records: &Records, data: u64, face: usize) -> bool {
    for (key, entry) in records.iter().enumerate() {
        if is_answered(data, key) && entry.ask_of(face).is_some() {
            return true;
        }
    }
    false
}

/// Returns whether `faces` are exactly those of the three faces that have a pending Interest which
/// the Data answers.
fn are_asking(records: &Records, data: u64, faces: &Faces) -> bool {
    let mut asking: usize = 0;
    for face in 0..3 {
        let asks = is_asking(records, data, face);
        if faces.contains(face as u64) != asks {
            return false;
        }
        asking = asking.saturating_add(usize::from(asks));
    }
    faces.len() == asking
}

/// Removes the Interests that the Data answers.
fn satisfy(records: &mut Records, data: u64) {
    for (key, entry) in records.iter_mut().enumerate() {
        if is_answered(data, key) {
            entry.asks = [None; 3];
        }
    }
}

/// Returns whether the table and the records agree on the faces to which a Data is sent.
fn satisfy_agrees(table: &mut Table, records: &mut Records, at: u64) -> bool {
    let Ok(Frame::Data(data)) = read_frame(data_at(at)) else {
        return false;
    };
    let agrees = are_asking(records, at, &table.satisfy(&data));
    satisfy(records, at);
    agrees
}

/// How often a Nack had the result `Waiting`, how often it had the result `All`, and how often an
/// Interest looped.
#[derive(Clone, Copy)]
struct Seen {
    waiting: u64,
    all: u64,
    loops: u64,
}

/// A random call: a face, a Nonce, and a moment, a deadline or a reason.
#[derive(Clone, Copy)]
struct Call {
    face: usize,
    nonce: u64,
    moment: u64,
}

/// Returns whether the table and the entry agree on the result of a Nack.
fn nack_agrees(
    table: &mut Table,
    entry: &mut Entry,
    seen: &mut Seen,
    key: Key<'_>,
    call: Call,
) -> bool {
    let answer = entry.nacked(call.face, call.nonce, call.moment);
    match answer {
        Nacked::NoPending => {}
        Nacked::Waiting => seen.waiting = seen.waiting.saturating_add(1),
        Nacked::All(_) => seen.all = seen.all.saturating_add(1),
    }
    table.nacked(key, call.face as u64, octets_of(call.nonce), call.moment) == answer
}

/// Compares the table and the entry on whether an Interest loops, and then records the Interest in
/// both. Returns whether the table and the entry agree, and the table accepts the Interest.
fn ask_agrees(
    table: &mut Table,
    entry: &mut Entry,
    seen: &mut Seen,
    key: Key<'_>,
    call: Call,
) -> bool {
    let (face, nonce) = (call.face as u64, octets_of(call.nonce));
    let loops = entry.loops(call.face, call.nonce);
    seen.loops = seen.loops.saturating_add(u64::from(loops));
    let agrees = table.pit.loops(key, face, nonce) == loops;
    entry.set_ask(
        call.face,
        Some(Ask {
            nonce: call.nonce,
            deadline: call.moment,
        }),
    );
    agrees && table.ask(key, face, nonce, call.moment).is_none()
}

/// Runs a `sent` call, and returns whether the table and the entry agree. The table must record the
/// sending exactly if the entry has a pending Interest of the face `asker`.
fn sent_agrees(
    table: &mut Table,
    entry: &mut Entry,
    key: Key<'_>,
    asker: usize,
    call: Call,
) -> bool {
    let asks = entry.ask_of(asker).is_some();
    if asks {
        entry.set_sent(
            call.face,
            Some(Sent {
                nonce: call.nonce,
                moment: call.moment,
                reason: None,
            }),
        );
    }
    let (face, nonce) = (call.face as u64, octets_of(call.nonce));
    table.sent(key, asker as u64, face, nonce, call.moment) == asks
}

/// Makes the same removal in the table and in the records. The number `removal` selects the kind of
/// removal.
fn remove(
    table: &mut Table,
    records: &mut Records,
    at: usize,
    key: Key<'_>,
    removal: u64,
    call: Call,
) {
    let face = call.face as u64;
    match removal {
        0 => {
            table.withdraw(key, face);
            change(records, at, call.face, false);
        }
        1 => {
            table.remove(key);
            if let Some(entry) = records.get_mut(at) {
                *entry = Entry::new();
            }
        }
        2 => {
            table.expire(call.moment);
            for entry in records.iter_mut() {
                entry.expire(call.moment);
            }
        }
        _ => {
            table.close_face(face);
            for at in 0..6 {
                change(records, at, call.face, true);
            }
        }
    }
}

/// Removes the in-record of a face under a key. If `both` is set, removes the out-record too.
fn change(records: &mut Records, at: usize, face: usize, both: bool) {
    if let Some(entry) = records.get_mut(at) {
        entry.set_ask(face, None);
        if both {
            entry.set_sent(face, None);
        }
    }
}

/// Runs a random call on the table and on the records. Returns whether their answers agree, and
/// `shows` then returns true for the face and the key of the call. The key has the number `first`
/// or the next number.
fn call_agrees(
    table: &mut Table,
    records: &mut Records,
    seen: &mut Seen,
    first: u64,
    state: &mut u64,
) -> Option<bool> {
    let at = first.saturating_add(random(state, 2)) as usize;
    let (face, nonce, moment) = (
        random(state, 3) as usize,
        random(state, 2),
        random(state, 20),
    );
    let call = Call {
        face,
        nonce,
        moment,
    };
    let key = key_at(at)?;
    let entry = records.get_mut(at)?;
    let agrees = match random(state, 21) {
        0..=4 => nack_agrees(table, entry, seen, key, call),
        5..=9 => ask_agrees(table, entry, seen, key, call),
        10..=15 => sent_agrees(table, entry, key, random(state, 3) as usize, call),
        16 => satisfy_agrees(table, records, random(state, 3)),
        removal => {
            remove(table, records, at, key, removal.saturating_sub(17), call);
            true
        }
    };
    settle(records);
    Some(agrees && shows(table, records.get(at)?, key, face))
}

/// Returns whether 24 random calls on an empty table and on empty records agree, and `shows_all`
/// then returns true.
fn calls_agree(table: &mut Table, seen: &mut Seen, state: &mut u64) -> bool {
    let mut records = [Entry::new(); 6];
    let first = random(state, 5);
    for _ in 0..24 {
        if call_agrees(table, &mut records, seen, first, state) != Some(true) {
            return false;
        }
    }
    shows_all(table, &records)
}

fn sequence_agrees(alloc: Global, seen: &mut Seen, state: &mut u64) -> bool {
    let mut table = Table::new(alloc);
    calls_agree(&mut table, seen, state)
}

/// Returns whether ten thousand sequences agree with the records. Over all sequences, more than 100
/// Nacks must have had the result `Waiting`, and more than 100 Nacks the result `All`. More than
/// 100 Interests must have looped.
fn all_agree(alloc: Global) -> bool {
    let mut state = 0x2545_f491_4f6c_dd1d;
    let mut seen = Seen {
        waiting: 0,
        all: 0,
        loops: 0,
    };
    for _ in 0..10_000 {
        if !sequence_agrees(alloc, &mut seen, &mut state) {
            return false;
        }
    }
    seen.waiting > 100 && seen.all > 100 && seen.loops > 100
}

#[test]
fn random_sequences(rt: HostRuntime) {
    assert!(rt; all_agree(rt.alloc()));
}
