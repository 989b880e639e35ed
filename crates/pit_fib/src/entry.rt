ghost use Rattle.std.specs.Prelude.{◌≡◌, ◌+◌, ◌<◌, ◌≤◌, ◌^◌, ℕ, ◌||◌, ◌&&◌, ◌==◌, IfSome, length, not, min};
ghost use Rattle.std.specs.List.{list_any};
ghost use Rattle.std.specs.Option.{option_map, option_and_then};
ghost use Rattle.std.specs.FinMap as map;
ghost use Rattle.pit_fib.specs.declared.face_set.TheConstants.{MAX_FACES};
ghost use Rattle.pit_fib.specs.declared.room.TheConstants.{FEW};
ghost use Rattle.pit_fib.specs.FaceSet.{AtMost64};
ghost use Rattle.pit_fib.specs.Faced.{has_place};
ghost use Rattle.pit_fib.specs.Records.{is_alive, same_nonce};
ghost use Rattle.pit_fib.specs.Cause.{sent_at, nacked_with, with_reason};
ghost use Rattle.pit_fib.specs.Kept.{with_in_record, deadline, expired, interest_in, lesser, living, nacked, new_in, kept_out_records, sent_in, token_in, with_faces_of, with_asking, withdrawn, without_face};
ghost use Rattle.pit_fib.specs.Pit.{all_nacked, least_reason, loops as loops_in, moments as moments_of, was_sent};
ghost use Rattle.pit_fib.specs.Last.{ask_in, later};
ghost use Rattle.pit_fib.specs.RecordTally.{ArePositive, asks_once, number};
ghost use Rattle.name_trie.specs.Least.{least};

use crate::by_face::Used;
use crate::face_map::FaceMap;
use crate::face_set::Faces;
use crate::nacked::Nacked;
use crate::record_tally::{lower_each, raise_each};
use crate::room::Room;
use std::marker::Model;

/// The last Interest from a face, as it was received.
#[derive(Drop)]
pub struct InRecord {
    // The octets of the Interest, followed by the octets of its PIT token.
    octets: Vec<u8>,
    nonce: [u8; 4],
    // The length in octets of the token at the end of `octets`; 0 if there is no token.
    token_len: u8,
    deadline: u64,
}

impl Model for InRecord {
    ghost use Rattle.std.specs.Prelude.{◌≤◌, vec_len};
    ghost use Rattle.pit_fib.specs.Records.{InRecord as PlainInRecord, in_record_code};
    ghost use Rattle.pit_fib.specs.Kept.{interest_in, token_in};

    ghost Value = { PlainInRecord };

    ghost coded = { in_record_code };

    ghost view = { λ a. record {
      interest = interest_in a.token_len a.octets.items;
      nonce = a.nonce;
      deadline = a.deadline;
      token = token_in a.token_len a.octets.items;
    } };

    ghost invariant = { λ a. (a.token_len ≤ vec_len a.octets) × (a.token_len ≤ 32) };
}

impl InRecord {
    /// Returns the in-record of an Interest. The last `token_len` octets of `octets` are the
    /// Interest's PIT token, and the octets before the token are the Interest. If `token_len` is 0,
    /// the Interest has no token.
    pub fn new(octets: Vec<u8>, token_len: u8, nonce: [u8; 4], deadline: u64) -> InRecord
        requires { (token_len ≤ length octets.items) × (token_len ≤ 32) }
        ensures { result ≡ record {
          interest = interest_in token_len octets.items;
          nonce = nonce;
          deadline = deadline;
          token = token_in token_len octets.items;
        } }
    {
        InRecord {
            octets,
            nonce,
            token_len,
            deadline,
        }
    }

    /// Returns the octets of the Interest.
    fn interest(&self) -> &[u8]
        ensures { result.now ≡ self.now.interest }
    {
        &self.octets[..self.octets.len() - usize::from(self.token_len)]
    }

    /// Returns the PIT token of the Interest, or `None` if the Interest has no token.
    pub fn token(&self) -> Option<&[u8]>
        ensures token { option_map (λ t. t.now) result ≡ self.now.token }
        ensures sizes { IfSome result (λ t. (1 ≤ length t.now) × (length t.now ≤ 32)) }
    {
        if self.token_len == 0 {
            return None;
        }
        Some(&self.octets[self.octets.len() - usize::from(self.token_len)..])
    }

    /// Returns the deadline of the Interest, in milliseconds since 1970.
    pub fn deadline(&self) -> u64
        ensures { result ≡ self.now.deadline }
    {
        self.deadline
    }
}

/// The last Interest that was sent to a face.
#[derive(Clone, Copy)]
pub struct OutRecord {
    nonce: [u8; 4],
    // When the Interest was sent, in milliseconds since 1970.
    moment: u64,
    // The reason of the last Nack that came back with the Nonce `nonce`, or `None` if no such Nack
    // came.
    reason: Option<u64>,
}

impl Model for OutRecord {
    ghost use Rattle.pit_fib.specs.Records.{OutRecord as PlainOutRecord, out_record_code};

    ghost Value = { PlainOutRecord };

    ghost coded = { out_record_code };

    ghost view = { λ s. record { nonce = s.nonce; moment = s.moment; reason = s.reason } };

    ghost inverse = { λ s. record { nonce = s.nonce; moment = s.moment; reason = s.reason } };
}

impl OutRecord {
    /// Returns the out-record of an Interest that is sent at the moment `now`, in milliseconds
    /// since 1970. The new out-record has no Nack reason.
    pub fn new(nonce: [u8; 4], now: u64) -> OutRecord
        ensures { result ≡ sent_at nonce now }
    {
        OutRecord {
            nonce,
            moment: now,
            reason: None,
        }
    }

    /// If the Nack has the Nonce of this out-record, returns the out-record with the reason of the
    /// Nack. If the Nack has another Nonce, returns the out-record unchanged.
    fn nacked_with(self, nonce: [u8; 4], reason: u64) -> OutRecord
        ensures { result ≡ nacked_with nonce reason self }
    {
        if self.nonce != nonce {
            return self;
        }
        OutRecord {
            reason: Some(reason),
            ..self
        }
    }
}

impl FaceMap<OutRecord> {
    /// Returns whether the face has an out-record with this Nonce.
    fn was_sent(&self, face: u64, nonce: [u8; 4]) -> bool
        ensures { result ≡ was_sent (map.get self.now.values face) nonce }
    {
        match self.get(face) {
            Some(out_record) => out_record.nonce == nonce,
            None => false,
        }
    }

    /// Stores the reason of a Nack in the face's out-record, if this out-record has the Nack's
    /// Nonce.
    fn nacked(&mut self, face: u64, nonce: [u8; 4], reason: u64)
        ensures { self.new ≡ record self.old {
          values = with_reason face nonce reason
              self.old.values (map.get self.old.values face);
        } }
    {
        if let Some(out_record) = self.get(face).copied() {
            self.replace(face, out_record.nacked_with(nonce, reason));
        }
    }

    /// Returns the least number among `reason` and the reasons in the out-records. Returns `None`
    /// if some out-record has no reason.
    fn least_reason(&self, reason: u64) -> Option<u64>
        ensures { result ≡ least_reason reason (map.entries self.now.values) }
    {
        let mut least = reason;
        for row in self.rows() {
            least = least.min(row.1.reason?);
        }
        Some(least)
    }
}

impl FaceMap<InRecord> {
    /// Returns the least deadline of the in-records, in milliseconds since 1970, or 0 if there are
    /// no in-records.
    fn deadline(&self) -> u64
        ensures { result ≡ least (λ r. r.deadline) (map.entries self.now.values) }
    {
        let mut least = None;
        for row in self.rows() {
            least = lesser(least, Some(row.1.deadline));
        }
        least.unwrap_or(0)
    }
}

/// Returns the lesser of two moments. If one of them is `None`, returns the other one.
pub fn lesser(a: Option<u64>, b: Option<u64>) -> Option<u64>
    ensures { result ≡ lesser a b }
{
    match (a, b) {
        (Some(a), Some(b)) => Some(a.min(b)),
        (Some(a), None) => Some(a),
        (None, b) => b,
    }
}

/// The records of a key.
#[derive(Drop)]
pub struct Entry {
    in_records: FaceMap<InRecord>,
    out_records: FaceMap<OutRecord>,
}

impl Model for Entry {
    ghost use Rattle.pit_fib.specs.Kept.{Kept, kept_code};

    ghost Value = { Kept };

    ghost coded = { kept_code };

    ghost view = { λ e. record {
      records = record { in_records = e.in_records.values; out_records = e.out_records.values };
      is_wide = e.out_records.is_wide;
    } };
}

impl Entry {
    /// Returns an entry without records. The entry uses the memory `in_records` and `out_records`.
    pub fn new(in_records: Room<InRecord>, out_records: Room<OutRecord>) -> Entry
        requires in_records { FEW ≤ in_records }
        requires out_records { FEW ≤ out_records }
        ensures { result ≡ new_in out_records }
    {
        Entry {
            in_records: FaceMap::new(in_records),
            out_records: FaceMap::new(out_records),
        }
    }

    /// Returns whether the entry has an in-record.
    fn is_alive(&self) -> bool
        ensures { result ≡ is_alive self.now.records }
    {
        !self.in_records.is_empty()
    }

    /// Returns the entry if it has an in-record, and `None` otherwise.
    pub fn living(self) -> Option<Entry>
        ensures { result ≡ living self }
    {
        if self.is_alive() { Some(self) } else { None }
    }

    /// Returns the least deadline of the in-records, in milliseconds since 1970, or 0 if there are
    /// no in-records.
    pub fn deadline(&self) -> u64
        ensures { result ≡ deadline self.now }
    {
        self.in_records.deadline()
    }

    /// Adds or replaces the in-record of a face. Changes nothing if the face has no in-record and
    /// 64 other faces have in-records. Otherwise, if the face has no in-record and the entry's own
    /// memory is full, the in-records move into the memory `room`.
    pub fn arrive(&mut self, face: u64, in_record: InRecord, room: Room<InRecord>)
        requires { MAX_FACES ≤ room }
        ensures { self.new ≡ with_in_record face in_record self.old }
    {
        self.in_records.set(face, in_record, room);
    }

    /// Returns whether the entry's own memory suffices for an out-record of this face. If 64 other
    /// faces have out-records, the result is true, although no place is left.
    pub fn has_place_for(&self, face: u64) -> bool
        ensures { result ≡ (map.contains_key self.now.records.out_records face
            || has_place (kept_out_records self.now)) }
    {
        self.out_records.get(face).is_some() || self.out_records.has_place()
    }

    /// Adds or replaces the out-record of a face. Changes nothing if the face has no out-record and
    /// there is no place for a new one: 64 faces have out-records, or the entry's own memory is
    /// full and `room` lacks capacity for 64 out-records. Otherwise, if the face has no out-record
    /// and the entry's own memory is full, the out-records move into the memory `room`.
    pub fn sent(&mut self, face: u64, out_record: OutRecord, room: Room<OutRecord>)
        ensures { self.new ≡ sent_in room face out_record self.old }
    {
        self.out_records.set(face, out_record, room);
    }

    /// Returns whether an Interest of the key loops if it comes from this face and has this Nonce.
    pub fn loops(&self, face: u64, nonce: [u8; 4]) -> bool
        ensures { result ≡ loops_in self.now.records face nonce }
    {
        let asks_with = match self.in_records.get(face) {
            Some(in_record) => in_record.nonce == nonce,
            None => false,
        };
        !asks_with && (self.others_ask_with(face, nonce) || self.was_any_sent(nonce))
    }

    fn others_ask_with(&self, face: u64, nonce: [u8; 4]) -> bool
        ensures { result ≡ list_any (λ e. not (e.0 == face) && same_nonce e.1.nonce nonce)
            (map.entries self.now.records.in_records) }
    {
        self.in_records
            .rows()
            .iter()
            .any(|row| row.0 != face && row.1.nonce == nonce)
    }

    fn was_any_sent(&self, nonce: [u8; 4]) -> bool
        ensures { result ≡ list_any (λ e. same_nonce e.1.nonce nonce)
            (map.entries self.now.records.out_records) }
    {
        self.out_records
            .rows()
            .iter()
            .any(|row| row.1.nonce == nonce)
    }

    /// Returns, for each face with an out-record, the moment at which the last Interest of the key
    /// was sent to the face, in milliseconds since 1970.
    pub fn moments(&self) -> Used
        ensures { result ≡ moments_of self.now.records.out_records }
    {
        let mut moments = Used::new();
        for row in self.out_records.rows() {
            moments.insert(row.0, row.1.moment);
        }
        moments
    }

    /// Returns the octets of the Interest in the face's in-record, or `None` if the face has no
    /// in-record.
    pub fn interest_of(&self, face: u64) -> Option<&[u8]>
        ensures { option_map (λ o. o.now) result
            ≡ option_map (λ r. r.interest) (map.get self.now.records.in_records face) }
    {
        let in_record = self.in_records.get(face)?;
        Some(in_record.interest())
    }

    /// Returns the PIT token in the face's in-record. Returns `None` if the face has no in-record,
    /// or if the in-record has no token.
    pub fn token_of(&self, face: u64) -> Option<&[u8]>
        ensures token { option_map (λ t. t.now) result ≡ option_and_then (λ r. r.token)
            (map.get self.now.records.in_records face) }
        ensures sizes { IfSome result (λ t. (1 ≤ length t.now) × (length t.now ≤ 32)) }
    {
        self.in_records.get(face)?.token()
    }

    /// Returns the in-record of the face, or `None` if the face has no in-record.
    fn in_record_of(&self, face: u64) -> Option<&InRecord>
        ensures { option_map (λ r. r.now) result ≡ map.get self.now.records.in_records face }
    {
        self.in_records.get(face)
    }

    /// Returns whether the face has an out-record with this Nonce.
    pub fn was_sent(&self, face: u64, nonce: [u8; 4]) -> bool
        ensures { result ≡ was_sent (map.get self.now.records.out_records face) nonce }
    {
        self.out_records.was_sent(face, nonce)
    }

    /// Stores the reason of a Nack in the face's out-record, if this out-record has the Nack's
    /// Nonce.
    pub fn nacked(&mut self, face: u64, nonce: [u8; 4], reason: u64)
        ensures { self.new ≡ nacked face nonce reason self.old }
    {
        self.out_records.nacked(face, nonce, reason);
    }

    /// Returns `Waiting` if some out-record has no reason. Otherwise returns `All` with the least
    /// number among `reason` and the reasons in the out-records.
    pub fn answer(&self, reason: u64) -> Nacked
        ensures { result
            ≡ all_nacked (least_reason reason (map.entries self.now.records.out_records)) }
    {
        match self.out_records.least_reason(reason) {
            Some(least) => Nacked::All(least),
            None => Nacked::Waiting,
        }
    }

    /// Removes the in-record of a face.
    pub fn withdraw(&mut self, face: u64)
        ensures { self.new ≡ withdrawn face self.old }
    {
        self.in_records.remove(face);
    }

    /// Removes the in-records whose deadline is `now` or earlier.
    pub fn expire(&mut self, now: u64)
        ensures { self.new ≡ expired now self.old }
    {
        self.in_records.expire(now);
    }

    /// Removes the in-record and the out-record of a face.
    pub fn close_face(&mut self, face: u64)
        ensures { self.new ≡ without_face face self.old }
    {
        self.in_records.remove(face);
        self.out_records.remove(face);
    }
}

/// Returns the in-record with the later deadline, or `b` if the deadlines are the same. If one of
/// `a` and `b` is `None`, returns the other one.
pub fn later<'a>(a: Option<&'a InRecord>, b: Option<&'a InRecord>) -> Option<&'a InRecord>
    ensures { option_map (λ r. r.now) result
        ≡ later (option_map (λ r. r.now) a.entry) (option_map (λ r. r.now) b.entry) }
{
    match (a, b) {
        (Some(a), Some(b)) => {
            if b.deadline < a.deadline {
                Some(a)
            } else {
                Some(b)
            }
        }
        (Some(a), None) => Some(a),
        (None, b) => b,
    }
}

/// Returns the in-record that a face has in the entry. Returns `None` if there is no entry, or if
/// the face has no in-record.
pub fn in_record_of(entry: &Option<Entry>, face: u64) -> Option<&InRecord>
    ensures { option_map (λ r. r.now) result ≡ ask_in face entry.now }
{
    match entry {
        Some(entry) => entry.in_record_of(face),
        None => None,
    }
}

/// Adds to `faces` the faces that have an in-record in the entry. Adds no face if there is no
/// entry. Once `faces` has 64 faces, no other face is added.
pub fn add_faces(entry: &Option<Entry>, faces: &mut Faces)
    ensures { faces.new ≡ with_asking entry.now faces.old }
{
    if let Some(entry) = entry {
        add_faces_of(entry.in_records.rows(), faces);
    }
}

/// Adds to `faces` the faces of the in-records `rows`. Once `faces` has 64 faces, no other face is
/// added.
fn add_faces_of(rows: &[(u64, InRecord)], faces: &mut Faces)
    ensures { faces.new ≡ with_faces_of rows.now faces.old }
{
    for row in rows {
        faces.insert(row.0);
    }
}

/// Adds 1 to the number of each face that has an in-record in the entry, if there is an entry.
pub fn raise_faces(entry: &Option<Entry>, faces: &mut Used)
    requires positive { ArePositive faces.old }
    requires small { (f : ℕ) → number faces.old f + asks_once entry.now f < 2 ^ 64 }
    requires room { AtMost64 (λ f. 0 < number faces.old f + asks_once entry.now f) }
    ensures positive { ArePositive faces.new }
    ensures raised { (f : ℕ) → number faces.new f ≡ number faces.old f + asks_once entry.now f }
{
    if let Some(entry) = entry {
        raise_each(entry.in_records.rows(), faces);
    }
}

/// Subtracts 1 from the number of each face that has an in-record in the entry, if there is an
/// entry. These numbers must not be 0.
pub fn lower_faces(entry: &Option<Entry>, faces: &mut Used)
    requires positive { ArePositive faces.old }
    requires some { (f : ℕ) → asks_once entry.now f ≤ number faces.old f }
    ensures positive { ArePositive faces.new }
    ensures lowered { (f : ℕ) → number faces.new f + asks_once entry.now f ≡ number faces.old f }
{
    if let Some(entry) = entry {
        lower_each(entry.in_records.rows(), faces);
    }
}
