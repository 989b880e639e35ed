ghost use Rattle.std.specs.Prelude.{◌≡◌, ◌≢◌, ◌+◌, ◌≤◌, ◌⊎◌, ◌++◌, ℕ, None, Some, IfOk, IfSome, IsOk, length};
ghost use Rattle.std.specs.Option.{option_map};
ghost use Rattle.ndn_packets.specs.Key.{plain_key};
ghost use Rattle.pit_fib.specs.Pit.{token_len, token_octets};
ghost use Rattle.pit_fib.specs.Prepared.{HasNoArrival, IsReady, calls_of, room_of};

use crate::arrival::RecordRoom;
use crate::entry::InRecord;
use crate::key_buf::KeyBuf;
use ndn_packets::Key;
use ndn_tlv::Memory;
use std::alloc::Global;

/// Memory for one `arrive`: for the octets of the Interest and its token, and for the records.
#[derive(Drop)]
pub struct Ready {
    size: usize,
    octets: Vec<u8>,
    records: RecordRoom,
}

/// The prepared calls of a key: either one `arrive` (with its memory) and the `sent` calls after
/// this `arrive`, or only `sent` calls.
#[derive(Drop)]
pub struct Prepared {
    key: KeyBuf,
    arrival: Option<Ready>,
}

impl Ready {
    fn new(alloc: Global, size: usize) -> Result<Ready, Memory>
        ensures { IfOk result (λ ready. (ready.size ≡ size) × IsReady ready) }
    {
        let octets = Vec::with_capacity(alloc, size)?;
        let records = RecordRoom::new(alloc)?;
        Ok(Ready {
            size,
            octets,
            records,
        })
    }
}

impl Prepared {
    /// Returns the prepared calls of this key: one `arrive`, with newly allocated memory, and the
    /// `sent` calls after this `arrive`. The Interest and the token of the `arrive` may have at
    /// most `size` octets together.
    pub fn new(alloc: Global, key: Key<'_>, size: usize) -> Result<Prepared, Memory>
        ensures { IfOk result (λ made. (made.key ≡ plain_key key.entry)
            × (room_of made.arrival ≡ Some size) × IfSome made.arrival IsReady) }
    {
        let ready = Ready::new(alloc, size)?;
        let key = KeyBuf::from_key(alloc, key)?;
        Ok(Prepared {
            key,
            arrival: Some(ready),
        })
    }
}

/// Returns the memory of the prepared `arrive` of this key, and the calls that are still prepared
/// after this `arrive`. Returns `None` for both if no `arrive` of this key is prepared.
pub fn arriving(prepared: Option<Prepared>, key: Key<'_>) -> (Option<Ready>, Option<Prepared>)
    requires { IfSome prepared (λ p. IfSome p.arrival IsReady) }
    ensures ready { IfSome result.0 IsReady }
    ensures next { (size : ℕ) → calls_of prepared ≡ Some (plain_key key.entry, Some size)
        → (room_of result.0 ≡ Some size)
        × (calls_of result.1 ≡ Some (plain_key key.entry, None)) }
    ensures ended { ((size : ℕ) → calls_of prepared ≢ Some (plain_key key.entry, Some size))
        → calls_of result.1 ≡ None }
    ensures left { HasNoArrival result.1 }
{
    let Some(Prepared { key: own, arrival }) = prepared else {
        return (None, None);
    };
    if arrival.is_none() || !own.is(key) {
        return (None, None);
    }
    let after = Prepared {
        key: own,
        arrival: None,
    };
    (arrival, Some(after))
}

/// Returns the memory `ready` if this memory has capacity for `size` octets, and new memory
/// otherwise.
fn ready_for(alloc: Global, ready: Option<Ready>, size: usize) -> Result<Ready, Memory>
    requires { IfSome ready IsReady }
    ensures ok { IfOk result (λ ready. (size ≤ ready.size) × IsReady ready) }
    ensures promised { (room : ℕ) → room_of ready ≡ Some room → size ≤ room → IsOk result }
{
    match ready {
        Some(ready) if size <= ready.size => Ok(ready),
        _ => Ready::new(alloc, size),
    }
}

/// Returns the octets of a token, or an empty slice if there is no token.
fn octets_of(token: Option<&[u8]>) -> &[u8]
    ensures { result.now ≡ token_octets (option_map (λ t. t.now) token.entry) }
{
    match token {
        Some(token) => token,
        None => &[],
    }
}

/// Returns a vector with the octets of an Interest followed by those of its token, and memory for
/// the Interest's records. The vector and the memory are taken from `ready` if `ready` is large
/// enough, and are newly allocated otherwise.
fn octets_and_room(
    alloc: Global,
    ready: Option<Ready>,
    interest: &[u8],
    token: &[u8],
) -> Result<(Vec<u8>, RecordRoom), Memory>
    requires { IfSome ready IsReady }
    ensures ok { IfOk result (λ made. made.0.items ≡ interest.now ++ token.now) }
    ensures promised { (room : ℕ) → room_of ready ≡ Some room
        → length interest.now + length token.now ≤ room → IsOk result }
{
    let mut ready = ready_for(alloc, ready, interest.len() + token.len())?;
    ready.octets.extend_from_slice(interest)?;
    ready.octets.extend_from_slice(token)?;
    Ok((ready.octets, ready.records))
}

/// Returns an in-record with the Interest and its token (if any), and memory for the Interest's
/// records. All memory is taken from `ready` if `ready` is large enough, and is newly allocated
/// otherwise.
pub fn in_record_and_room(
    alloc: Global,
    ready: Option<Ready>,
    interest: &[u8],
    nonce: [u8; 4],
    deadline: u64,
    token: Option<&[u8]>,
) -> Result<(InRecord, RecordRoom), Memory>
    requires ready { IfSome ready IsReady }
    requires token { IfSome token (λ t. (1 ≤ length t.now) × (length t.now ≤ 32)) }
    ensures ok { IfOk result (λ made. made.0 ≡ record {
      interest = interest.now;
      nonce = nonce;
      deadline = deadline;
      token = option_map (λ t. t.now) token.entry;
    }) }
    ensures promised { (room : ℕ) → room_of ready ≡ Some room
        → length interest.now + token_len (option_map (λ t. t.now) token.entry) ≤ room
        → IsOk result }
{
    let token = octets_of(token);
    let (octets, room) = octets_and_room(alloc, ready, interest, token)?;
    let in_record = InRecord::new(octets, token.len() as u8, nonce, deadline);
    Ok((in_record, room))
}

/// Returns the calls that are still prepared after a `sent` of this key.
pub fn after_sending(prepared: Option<Prepared>, key: Key<'_>) -> Option<Prepared>
    ensures next { calls_of prepared ≡ Some (plain_key key.entry, None)
        → calls_of result ≡ calls_of prepared }
    ensures ended { (calls_of prepared ≢ Some (plain_key key.entry, None))
        → calls_of result ≡ None }
    ensures either { (calls_of result ≡ None)
        ⊎ ((calls_of prepared ≡ Some (plain_key key.entry, None))
        × (calls_of result ≡ Some (plain_key key.entry, None))) }
    ensures left { HasNoArrival result }
{
    let prepared = prepared?;
    if prepared.arrival.is_none() && prepared.key.is(key) {
        Some(prepared)
    } else {
        None
    }
}
