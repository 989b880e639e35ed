//! How the calls `arrive` and `sent` of the pending Interest table change the row of a name. Before
//! the change, the call obtains the memory that the change may need, and puts this memory into the
//! field `room` of `Arrival` or `Departure`.

ghost use Rattle.std.specs.Prelude.{◌≡◌, ◌≤◌, Option, None, Some, unwrap_or};
ghost use Rattle.std.specs.Option.{option_map};
ghost use Rattle.std.specs.FinMap as map;
ghost use Rattle.pit_fib.specs.declared.face_set.TheConstants.{MAX_FACES};
ghost use Rattle.pit_fib.specs.Kept.{new_in};
ghost use Rattle.pit_fib.specs.declared.room.TheConstants.{FEW};

use crate::entry::{Entry, InRecord, OutRecord};
use crate::face_set::MAX_FACES;
use crate::flags::Flags;
use crate::room::{FEW, Room};
use crate::row::Row;
use crate::slots::Slots;
use name_trie::Becomes;
use ndn_tlv::Memory;
use std::alloc::Global;

/// Memory for the records of one arriving Interest: for the records of a new entry, or for the
/// in-records of an entry whose own memory is full. This memory also contains empty slots, for a
/// name without entries.
#[derive(Drop)]
pub struct RecordRoom {
    in_records: Room<InRecord>,
    out_records: Room<OutRecord>,
    more: Room<InRecord>,
    slots: Box<Slots>,
    ghost has_asks: { FEW ≤ in_records },
    ghost has_asked: { FEW ≤ out_records },
    ghost has_more: { MAX_FACES ≤ more },
    ghost has_slots: { slots.value ≡ map.empty },
}

impl RecordRoom {
    pub fn new(alloc: Global) -> Result<RecordRoom, Memory> {
        let in_records = Room::new(alloc, FEW)?;
        let out_records = Room::new(alloc, FEW)?;
        let more = Room::new(alloc, MAX_FACES)?;
        let slots = Box::new(alloc, Slots::new())?;
        Ok(RecordRoom {
            in_records,
            out_records,
            more,
            slots,
        })
    }
}

/// The change of a row when an Interest arrives from a face.
#[derive(Drop)]
pub struct Arrival {
    pub flags: Flags,
    pub face: u64,
    pub in_record: InRecord,
    pub room: RecordRoom,
}

impl Becomes<Row> for Arrival {
    ghost use Rattle.pit_fib.specs.Kept.{row_arrived};

    ghost becomes = { λ how. row_arrived how.flags how.face how.in_record how.room.out_records };

    fn apply(self, row: Option<Row>) -> Row
        ensures { result
            ≡ row_arrived self.flags self.face self.in_record self.room.out_records row }
    {
        let Arrival {
            flags,
            face,
            in_record,
            room,
        } = self;
        let RecordRoom {
            in_records,
            out_records,
            more,
            slots,
        } = room;
        let mut slots = slots_of(row).unwrap_or(slots);
        let mut entry = entry_or_new(slots.take(flags), in_records, out_records);
        entry.arrive(face, in_record, more);
        slots.set(flags, entry);
        Row::from_slots(slots)
    }
}

/// The change of a row when an Interest is sent to a face.
#[derive(Drop)]
pub struct Departure {
    pub flags: Flags,
    pub face: u64,
    pub out_record: OutRecord,
    pub room: Room<OutRecord>,
}

impl Becomes<Row> for Departure {
    ghost use Rattle.pit_fib.specs.Kept.{row_sent};

    ghost becomes = { λ how. row_sent how.flags how.face how.out_record how.room };

    fn apply(self, row: Option<Row>) -> Row
        ensures { result ≡ row_sent self.flags self.face self.out_record self.room row }
    {
        let Departure {
            flags,
            face,
            out_record,
            room,
        } = self;
        let Some(mut slots) = slots_of(row) else {
            return Row::new();
        };
        if let Some(mut entry) = slots.take(flags) {
            entry.sent(face, out_record, room);
            slots.set(flags, entry);
        }
        Row::from_slots(slots)
    }
}

/// Returns the slots of a row, or `None` if there is no row or the row has no memory for slots.
fn slots_of(row: Option<Row>) -> Option<Box<Slots>>
    ensures { unwrap_or (option_map (λ s. s.value) result) map.empty ≡ unwrap_or row map.empty }
{
    row?.into_slots()
}

/// Returns `entry`, or a new entry in the memory `in_records` and `out_records` if `entry` is
/// `None`.
fn entry_or_new(
    entry: Option<Entry>,
    in_records: Room<InRecord>,
    out_records: Room<OutRecord>,
) -> Entry
    requires in_records { FEW ≤ in_records }
    requires out_records { FEW ≤ out_records }
    ensures { result ≡ unwrap_or entry (new_in out_records) }
{
    match entry {
        Some(entry) => entry,
        None => Entry::new(in_records, out_records),
    }
}
