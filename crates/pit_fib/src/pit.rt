ghost use Rattle.std.specs.Prelude.{◌≡◌, ◌≢◌, ◌↔◌, ◌+◌, ◌<◌, ◌≤◌, ◌⊎◌, ℕ, true, false, None, Some, Err, IsOk, IsTrue, IfErr, IfOk, IfSome, OnOk, OnErr, [], length};
ghost use Rattle.std.specs.Option.{option_map, option_and_then};
ghost use Rattle.std.specs.FinMap as map;
ghost use Rattle.sha2.specs.Sha256.{sha256};
ghost use Rattle.ndn_names.specs.View.{components};
ghost use Rattle.ndn_packets.specs.Key.{plain_key};
ghost use Rattle.name_trie.specs.Taken.{taken, taken_along};
ghost use Rattle.pit_fib.specs.declared.fault.PitFault.TheVariants as faults;
ghost use Rattle.pit_fib.specs.declared.face_set.TheConstants.{MAX_FACES};
ghost use Rattle.pit_fib.specs.FaceSet.{AtMost64, IsRising, has_face};
ghost use Rattle.pit_fib.specs.Records.{HoldsTheLiving, is_alive, records_at};
ghost use Rattle.pit_fib.specs.Cause.{Expires, Arrives, SentTo, Satisfied, NackCame, Withdrawn, Removed, Closed, Follows};
ghost use Rattle.pit_fib.specs.Kept.{answer_in, has_place_in, kept_at, was_sent_in, with_answered};
ghost use Rattle.pit_fib.specs.Pit.{HasRecord, HasRoomFor, WaitsFor, loops as loops_in, moments, nacked_answer, record_count, token_len};
ghost use Rattle.pit_fib.specs.Tokens.{HaveNoTokens, IsTokenFor};

use crate::arrival::{Arrival, Departure};
use crate::by_face::Used;
use crate::entry::{Entry, InRecord, OutRecord};
use crate::face_set::{Faces, MAX_FACES};
use crate::fault::PitFault;
use crate::fib::MAX_ENTRIES;
use crate::flags::Flags;
use crate::last::last_for;
use crate::nacked::Nacked;
use crate::prepared::{Prepared, after_sending, arriving, in_record_and_room};
use crate::record_tally::Rows;
use crate::revisions::{Closing, Expiry, NackOf, Removal, Withdrawal};
use crate::room::Room;
use crate::row::{Row, RowRevision};
use ndn_names::component_type::IMPLICIT_SHA256_DIGEST;
use ndn_names::{Component, Name};
use ndn_packets::{Data, Key};
use ndn_tlv::Memory;
use std::alloc::Global;
use std::marker::Model;
use std::mem;

/// The greatest number of keys with pending Interests in a table.
pub const MAX_PENDING: usize = MAX_ENTRIES;

/// The pending Interest table (NFD Developer's Guide, "Pending Interest Table"). Under each key,
/// the table has an in-record for each face with a pending Interest, and an out-record for each
/// face to which an Interest was sent. Each key in the table has an in-record. The table has at
/// most 4,096 keys, and records of at most 64 different faces.
#[derive(Drop)]
pub struct Pit {
    alloc: Global,
    // The rows by name, also kept in order of their least deadlines.
    rows: Rows,
    prepared: Option<Prepared>,
    // Spare memory for the out-records of an entry whose own memory is full.
    spare: Room<OutRecord>,
    // Whether any Interest that was ever recorded had a PIT token. While `has_tokens` is false, no
    // search looks for a token.
    has_tokens: bool,
}

impl Model for Pit {
    ghost use Rattle.pit_fib.specs.Kept.{pending_of};
    ghost use Rattle.pit_fib.specs.Pit.{PitState, pit_code};
    ghost use Rattle.pit_fib.specs.Prepared.{HasMemory, IsWithin, calls_of};
    ghost use Rattle.pit_fib.specs.Last.{KnowsTokens};

    ghost Value = { PitState };

    ghost coded = { pit_code };

    ghost view = { λ p. record {
      pending = pending_of p.rows.table;
      prepared = calls_of p.prepared;
    } };

    ghost invariant = { λ p. IsWithin p.rows.table × HasMemory p.rows p.spare p.prepared
        × KnowsTokens p.has_tokens p.rows.table };
}

impl Pit {
    /// Returns a table without Interests.
    pub fn new(alloc: Global) -> Pit
        ensures pending { result.pending ≡ map.empty }
        ensures prepared { result.prepared ≡ None }
    {
        Pit {
            alloc,
            rows: Rows::new(alloc),
            prepared: None,
            spare: Room::none(alloc),
            has_tokens: false,
        }
    }

    /// Returns the number of keys with pending Interests. The contract clause `exact` gives this
    /// number. Each of the other contract clauses states a property that every table has.
    pub fn len(&self) -> usize
        ensures exact { result ≡ map.len self.now.pending }
        ensures living { HoldsTheLiving self.now.pending }
        ensures few { AtMost64 (HasRecord self.now.pending) }
        ensures bounded { map.len self.now.pending ≤ MAX_PENDING }
    {
        self.rows.tally().keys()
    }

    /// Returns the number of keys under which a face has an in-record.
    pub fn records_of(&self, face: u64) -> u64
        ensures exact { result ≡ record_count self.now.pending face }
        ensures bounded { result ≤ MAX_PENDING }
    {
        self.rows.tally().records_of(face)
    }

    /// Returns whether no Interest is pending.
    pub fn is_empty(&self) -> bool
        ensures { IsTrue result ↔ (self.now.pending ≡ map.empty) }
    {
        self.len() == 0
    }

    /// Returns whether an Interest with this key and Nonce loops if it comes from the face `face`.
    /// An Interest loops if the records of its key meet two conditions. First, the Interest's Nonce
    /// is in the in-record of another face, or in any out-record. Second, the Interest's Nonce is
    /// not in the in-record of the Interest's own face (NFD Developer's Guide, "Incoming Interest
    /// Pipeline").
    pub fn loops(&self, key: Key<'_>, face: u64, nonce: [u8; 4]) -> bool
        ensures { result
            ≡ loops_in (records_at self.now.pending (plain_key key.entry)) face nonce }
    {
        match entry_of(&self.rows, key) {
            Some(entry) => entry.loops(face, nonce),
            None => false,
        }
    }

    /// Prepares one `arrive` of this key, and the `sent` calls of this key after this `arrive`. The
    /// Interest and the PIT token of the `arrive` may have at most `octets` octets together. The
    /// prepared calls cannot run out of memory if, after `prepare`, only calls that read or remove
    /// records come before or between the prepared calls. `prepare` fails only if memory runs out;
    /// then no call is prepared.
    pub fn prepare(&mut self, key: Key<'_>, octets: usize) -> Result<(), Memory>
        ensures pending { self.new.pending ≡ self.old.pending }
        ensures ok { OnOk result (self.new.prepared
            ≡ Some (plain_key key.entry, Some octets)) }
        ensures err { OnErr result (self.new.prepared ≡ None) }
        ensures living { HoldsTheLiving self.new.pending }
    {
        self.prepared = None;
        widen(self.alloc, &mut self.spare)?;
        let prepared = Prepared::new(self.alloc, key, octets)?;
        self.rows.prepare(key.name)?;
        self.prepared = Some(prepared);
        Ok(())
    }

    /// Records an Interest that arrived on a face. The in-record expires at `deadline`, in
    /// milliseconds since 1970. `interest` has the octets of the Interest, and `token` is its PIT
    /// token, of 1 to 32 octets (NDNLPv2, "PIT Token"). The new in-record replaces an older
    /// in-record of the face under this key. At most 64 different faces may have records, with
    /// `face` counted among them.
    ///
    /// On failure, the records are unchanged. An `arrive` that fails, or that is not the prepared
    /// one, ends the preparation. If the key is new and there are 4,096 keys, `arrive` fails with
    /// `PitFull`. Every other failure is `Memory`.
    pub fn arrive(
        &mut self,
        key: Key<'_>,
        face: u64,
        nonce: [u8; 4],
        interest: &[u8],
        deadline: u64,
        token: Option<&[u8]>,
    ) -> Result<(), PitFault>
        requires room { HasRoomFor self.old.pending face }
        requires token { IfSome token (λ t. (1 ≤ length t.now) × (length t.now ≤ 32)) }
        ensures ok { OnOk result (Follows (Arrives (plain_key key.entry) face
            (record {
              interest = interest.now;
              nonce = nonce;
              deadline = deadline;
              token = option_map (λ t. t.now) token.entry;
            }))
            self.old.pending self.new.pending) }
        ensures err { OnErr result (self.new.pending ≡ self.old.pending) }
        ensures next { (octets : ℕ)
            → self.old.prepared ≡ Some (plain_key key.entry, Some octets)
            → OnOk result (self.new.prepared ≡ Some (plain_key key.entry, None)) }
        ensures ended { OnErr result (self.new.prepared ≡ None) }
        ensures unprepared { ((octets : ℕ)
            → self.old.prepared ≢ Some (plain_key key.entry, Some octets))
            → self.new.prepared ≡ None }
        ensures full { (result ≡ Err faults.PitFull)
            ↔ ((is_alive (records_at self.old.pending (plain_key key.entry)) ≡ false)
            × (MAX_PENDING ≤ map.len self.old.pending)) }
        ensures promised { (octets : ℕ)
            → self.old.prepared ≡ Some (plain_key key.entry, Some octets)
            → length interest.now + token_len (option_map (λ t. t.now) token.entry) ≤ octets
            → IfErr result (λ fault. fault ≢ faults.Memory) }
        ensures living { HoldsTheLiving self.new.pending }
    {
        if self.is_full_for(key) {
            self.prepared = None;
            return Err(PitFault::PitFull);
        }
        self.keep(key, face, nonce, interest, deadline, token)?;
        Ok(())
    }

    /// Returns whether the key is new, and the table has 4,096 other keys.
    fn is_full_for(&self, key: Key<'_>) -> bool
        ensures { IsTrue result
            ↔ ((is_alive (records_at self.now.pending (plain_key key.entry)) ≡ false)
            × (MAX_PENDING ≤ map.len self.now.pending)) }
    {
        self.rows.tally().keys() >= MAX_PENDING && entry_of(&self.rows, key).is_none()
    }

    /// Records the Interest of a face. The key must be in the table, or the table must have fewer
    /// than 4,096 keys.
    fn keep(
        &mut self,
        key: Key<'_>,
        face: u64,
        nonce: [u8; 4],
        interest: &[u8],
        deadline: u64,
        token: Option<&[u8]>,
    ) -> Result<(), Memory>
        requires room { HasRoomFor self.old.pending face }
        requires token { IfSome token (λ t. (1 ≤ length t.now) × (length t.now ≤ 32)) }
        requires place { (is_alive (records_at self.old.pending (plain_key key)) ≡ true)
            ⊎ (map.len self.old.pending < MAX_PENDING) }
        ensures ok { OnOk result (Follows (Arrives (plain_key key.entry) face
            (record {
              interest = interest.now;
              nonce = nonce;
              deadline = deadline;
              token = option_map (λ t. t.now) token.entry;
            }))
            self.old.pending self.new.pending) }
        ensures err { OnErr result (self.new.pending ≡ self.old.pending) }
        ensures next { (octets : ℕ)
            → self.old.prepared ≡ Some (plain_key key.entry, Some octets)
            → OnOk result (self.new.prepared ≡ Some (plain_key key.entry, None)) }
        ensures ended { OnErr result (self.new.prepared ≡ None) }
        ensures unprepared { ((octets : ℕ)
            → self.old.prepared ≢ Some (plain_key key.entry, Some octets))
            → self.new.prepared ≡ None }
        ensures promised { (octets : ℕ)
            → self.old.prepared ≡ Some (plain_key key.entry, Some octets)
            → length interest.now + token_len (option_map (λ t. t.now) token.entry) ≤ octets
            → IsOk result }
        ensures living { HoldsTheLiving self.new.pending }
    {
        let (ready, after) = arriving(self.prepared.take(), key);
        let (in_record, room) = in_record_and_room(
            self.alloc, ready, interest, nonce, deadline, token,
        )?;
        let arrival = Arrival {
            flags: Flags::of(key),
            face,
            in_record,
            room,
        };
        self.rows.put_with(key.name, arrival)?;
        self.has_tokens |= token.is_some();
        self.prepared = after;
        Ok(())
    }

    /// Records that an Interest with this key and Nonce was sent to a face at the moment `now`, in
    /// milliseconds since 1970. The new out-record replaces an older out-record of the face under
    /// this key. The key must have an in-record, and at most 64 different faces may have records,
    /// with `face` counted among them. A call that is not prepared ends the preparation, and may
    /// run out of memory. If `sent` fails with `Memory`, the records are unchanged.
    pub fn sent(&mut self, key: Key<'_>, face: u64, nonce: [u8; 4], now: u64) -> Result<(), Memory>
        requires stands { is_alive (records_at self.old.pending (plain_key key)) ≡ true }
        requires room { HasRoomFor self.old.pending face }
        ensures ok { OnOk result (Follows (SentTo (plain_key key.entry) face nonce now)
            self.old.pending self.new.pending) }
        ensures err { OnErr result (self.new.pending ≡ self.old.pending) }
        ensures promised { self.old.prepared ≡ Some (plain_key key.entry, None) → IsOk result }
        ensures next { self.old.prepared ≡ Some (plain_key key.entry, None)
            → self.new.prepared ≡ self.old.prepared }
        ensures ended { (self.old.prepared ≢ Some (plain_key key.entry, None))
            → self.new.prepared ≡ None }
        ensures living { HoldsTheLiving self.new.pending }
    {
        let has_place = has_place_for(&self.rows, key, face);
        let after = after_sending(self.prepared.take(), key);
        let room = room_for(self.alloc, &mut self.spare, has_place)?;
        let departure = Departure {
            flags: Flags::of(key),
            face,
            out_record: OutRecord::new(nonce, now),
            room,
        };
        self.rows.put_with(key.name, departure)?;
        self.prepared = after;
        Ok(())
    }

    /// Returns the faces that have an out-record under this key. Each face comes with the moment at
    /// which the last Interest of the key was sent to the face, in milliseconds since 1970.
    pub fn used(&self, key: Key<'_>) -> Used
        ensures { result
            ≡ moments (records_at self.now.pending (plain_key key.entry)).out_records }
    {
        match entry_of(&self.rows, key) {
            Some(entry) => entry.moments(),
            None => Used::new(),
        }
    }

    /// Returns the octets of the last Interest of a face under this key, as they were received.
    /// Returns `None` if the face has no in-record under this key.
    pub fn interest_of(&self, key: Key<'_>, face: u64) -> Option<&[u8]>
        ensures { option_map (λ o. o.now) result ≡ option_map (λ r. r.interest)
            (map.get (records_at self.now.pending (plain_key key.entry)).in_records face) }
    {
        entry_of(&self.rows, key)?.interest_of(face)
    }

    /// Returns whether some pending Interest may have a PIT token (NDNLPv2, "PIT Token"). If the
    /// result is false, no pending Interest has a token. Once an Interest with a token has been
    /// recorded, the result stays true.
    pub fn has_tokens(&self) -> bool
        ensures { result ≡ false → HaveNoTokens self.now.pending }
    {
        self.has_tokens
    }

    /// Returns the PIT token that came with the last Interest of a face under this key (NDNLPv2,
    /// "PIT Token"). Returns `None` if the face has no in-record under this key, or if this
    /// Interest has no token.
    pub fn token_of(&self, key: Key<'_>, face: u64) -> Option<&[u8]>
        ensures token { option_map (λ t. t.now) result ≡ option_and_then (λ r. r.token)
            (map.get (records_at self.now.pending (plain_key key.entry)).in_records face) }
        ensures sizes { IfSome result (λ t. (1 ≤ length t.now) × (length t.now ≤ 32)) }
    {
        entry_of(&self.rows, key)?.token_of(face)
    }

    /// Returns the PIT token that is sent with a Data to a face (NDNLPv2, "PIT Token"). The token
    /// comes from the last of the face's Interests that the Data answers. The Data answers an
    /// Interest whether or not the Interest has MustBeFresh. The last Interest is the one with the
    /// latest deadline. If several Interests have the latest deadline, the last Interest is the one
    /// with the greatest key. Keys are ordered by name in canonical order, then by CanBePrefix,
    /// then by MustBeFresh. Returns `None` if the last Interest has no token, or if the Data
    /// answers no Interest of the face.
    pub fn token_for(&self, packet: &Data<'_>, face: u64) -> Option<&[u8]>
        ensures token { IsTokenFor (records_at self.now.pending) (components packet.now.name)
            (sha256 packet.now.whole.now) face (option_map (λ t. t.now) result) }
        ensures sizes { IfSome result (λ t. (1 ≤ length t.now) × (length t.now ≤ 32)) }
    {
        if !self.has_tokens {
            return None;
        }
        last_for(&self.rows, packet, face)?.token()
    }

    /// Removes all Interests that a Data answers, and the out-records of their keys. Returns the
    /// faces of the removed Interests. The Data answers an Interest whether or not the Interest has
    /// MustBeFresh.
    pub fn satisfy(&mut self, packet: &Data<'_>) -> Faces
        ensures pending { Follows (Satisfied (components packet.now.name)
            (sha256 packet.now.whole.now)) self.old.pending self.new.pending }
        ensures prepared { self.new.prepared ≡ self.old.prepared }
        ensures rising { IsRising result }
        ensures faces { (face : ℕ) → IsTrue (has_face face result)
            ↔ WaitsFor self.old.pending (components packet.now.name)
            (sha256 packet.now.whole.now) face }
        ensures bare { HaveNoTokens self.old.pending → (face : ℕ)
            → IsTokenFor (records_at self.old.pending) (components packet.now.name)
            (sha256 packet.now.whole.now) face None }
        ensures living { HoldsTheLiving self.new.pending }
    {
        let mut faces = Faces::new();
        let asks_digest = self
            .rows
            .take_along(packet.name, IMPLICIT_SHA256_DIGEST, &mut faces);
        if asks_digest {
            let digest = packet.digest();
            let component = Component {
                kind: IMPLICIT_SHA256_DIGEST,
                value: &digest,
            };
            self.rows.take_below(packet.name, component, &mut faces);
        }
        faces
    }

    /// Returns the faces with a pending Interest that a Data answers: the faces that `satisfy`
    /// would return.
    pub fn askers(&self, packet: &Data<'_>) -> Faces
        ensures rising { IsRising result }
        ensures faces { (face : ℕ) → IsTrue (has_face face result)
            ↔ WaitsFor self.now.pending (components packet.now.name)
            (sha256 packet.now.whole.now) face }
    {
        let mut faces = Faces::new();
        self.rows.look_along(packet.name, &mut faces);
        if !self.rows.has_below(packet.name, IMPLICIT_SHA256_DIGEST) {
            return faces;
        }
        let digest = packet.digest();
        let component = Component {
            kind: IMPLICIT_SHA256_DIGEST,
            value: &digest,
        };
        add_of(
            self.rows.get_below(packet.name, component),
            true,
            &mut faces,
        );
        faces
    }

    /// Stores the reason of a Nack in the out-record of the face from which the Nack came, if this
    /// out-record has the Nack's Nonce. Returns the result of the Nack. No record is removed, even
    /// if each out-record has the reason of a Nack. The call ends the preparation.
    pub fn nacked(&mut self, key: Key<'_>, face: u64, nonce: [u8; 4], reason: u64) -> Nacked
        ensures answer { result ≡ nacked_answer
            (records_at self.old.pending (plain_key key.entry)) face nonce reason }
        ensures pending { Follows (NackCame (plain_key key.entry) face nonce reason)
            self.old.pending self.new.pending }
        ensures ended { self.new.prepared ≡ None }
        ensures living { HoldsTheLiving self.new.pending }
    {
        self.prepared = None;
        let was_sent = was_sent(&self.rows, key, face, nonce);
        let nack = NackOf {
            flags: Flags::of(key),
            face,
            nonce,
            reason,
        };
        self.rows.change(key.name, &RowRevision(nack));
        if !was_sent {
            return Nacked::NoPending;
        }
        answer_of(&self.rows, key, reason)
    }

    /// Removes the in-record of a face under this key, if there is one. If the key then has no
    /// in-record, the key's out-records are removed too.
    pub fn withdraw(&mut self, key: Key<'_>, face: u64)
        ensures pending { Follows (Withdrawn (plain_key key.entry) face)
            self.old.pending self.new.pending }
        ensures prepared { self.new.prepared ≡ self.old.prepared }
        ensures living { HoldsTheLiving self.new.pending }
    {
        let flags = Flags::of(key);
        self.rows
            .change(key.name, &RowRevision(Withdrawal { flags, face }));
    }

    /// Removes all records of a key.
    pub fn remove(&mut self, key: Key<'_>)
        ensures pending { Follows (Removed (plain_key key.entry))
            self.old.pending self.new.pending }
        ensures prepared { self.new.prepared ≡ self.old.prepared }
        ensures living { HoldsTheLiving self.new.pending }
    {
        let flags = Flags::of(key);
        self.rows.change(key.name, &RowRevision(Removal { flags }));
    }

    /// Removes the Interests whose deadline is `now` or earlier, in milliseconds since 1970. If a
    /// key then has no in-record, the key's out-records are removed too.
    pub fn expire(&mut self, now: u64)
        ensures pending { Follows (Expires now) self.old.pending self.new.pending }
        ensures prepared { self.new.prepared ≡ self.old.prepared }
        ensures living { HoldsTheLiving self.new.pending }
    {
        self.rows.expire(now, &RowRevision(Expiry { now }));
    }

    /// Removes the in-records and the out-records of a face. If a key then has no in-record, the
    /// key's other out-records are removed too.
    pub fn close_face(&mut self, face: u64)
        ensures pending { Follows (Closed face) self.old.pending self.new.pending }
        ensures prepared { self.new.prepared ≡ self.old.prepared }
        ensures living { HoldsTheLiving self.new.pending }
    {
        self.rows.change_all(&RowRevision(Closing { face }));
    }
}

/// Returns the entry of a key, or `None` if the key has no entry.
fn entry_of<'a>(rows: &'a Rows, key: Key<'_>) -> Option<&'a Entry>
    ensures { option_map (λ e. e.now) result ≡ kept_at rows.now.table (plain_key key.entry) }
{
    rows.get(key.name)?.get(Flags::of(key))
}

/// Adds to `faces` each face that has an in-record under a key of the row, if a Data answers this
/// key. Adds no face if there is no row. Once `faces` has 64 faces, no other face is added. If the
/// name of the row is the Data's name or full name (`is_own`), the Data answers all keys of the
/// row. If the name of the row is a proper prefix of the Data's name, the Data answers only the
/// keys with CanBePrefix.
fn add_of(row: Option<&Row>, is_own: bool, faces: &mut Faces)
    ensures { faces.new
        ≡ taken (with_answered is_own) faces.old (option_map (λ r. r.now) row.entry) }
{
    if let Some(row) = row {
        row.add_answered(is_own, faces);
    }
}

/// Returns whether the face has an out-record with this Nonce under this key.
fn was_sent(rows: &Rows, key: Key<'_>, face: u64, nonce: [u8; 4]) -> bool
    ensures { result ≡ was_sent_in (kept_at rows.now.table (plain_key key.entry)) face nonce }
{
    match entry_of(rows, key) {
        Some(entry) => entry.was_sent(face, nonce),
        None => false,
    }
}

/// Returns whether the own memory of the key's entry suffices for an out-record of this face
/// (`Entry::has_place_for`), or true if the key has no entry.
fn has_place_for(rows: &Rows, key: Key<'_>, face: u64) -> bool
    ensures { result ≡ has_place_in (kept_at rows.now.table (plain_key key.entry)) face }
{
    match entry_of(rows, key) {
        Some(entry) => entry.has_place_for(face),
        None => true,
    }
}

/// Returns `NoPending` if the key has no entry, and `Waiting` if some out-record of the key has no
/// reason. Otherwise returns `All` with the least number among `reason` and the reasons in the
/// key's out-records.
fn answer_of(rows: &Rows, key: Key<'_>, reason: u64) -> Nacked
    ensures { result ≡ answer_in (kept_at rows.now.table (plain_key key.entry)) reason }
{
    match entry_of(rows, key) {
        Some(entry) => entry.answer(reason),
        None => Nacked::NoPending,
    }
}

/// Makes `spare` large enough for 64 out-records.
fn widen(alloc: Global, spare: &mut Room<OutRecord>) -> Result<(), Memory>
    ensures { OnOk result (MAX_FACES ≤ spare.new) }
{
    if spare.count() < MAX_FACES {
        *spare = Room::new(alloc, MAX_FACES)?;
    }
    Ok(())
}

/// Returns memory for an entry's out-records. If `has_place` is true, returns memory with capacity
/// for no out-records, and leaves `spare` unchanged. If `has_place` is false, returns memory for 64
/// out-records, which is taken from `spare` or is newly allocated.
fn room_for(
    alloc: Global,
    spare: &mut Room<OutRecord>,
    has_place: bool,
) -> Result<Room<OutRecord>, Memory>
    ensures ok { IfOk result (λ room. has_place ≡ false → MAX_FACES ≤ room) }
    ensures same { has_place ≡ true → spare.new ≡ spare.old }
    ensures promised { (has_place ≡ true) ⊎ (MAX_FACES ≤ spare.old) → IsOk result }
{
    if has_place {
        return Ok(Room::none(alloc));
    }
    if spare.count() < MAX_FACES {
        return Room::new(alloc, MAX_FACES);
    }
    Ok(mem::replace(spare, Room::none(alloc)))
}
