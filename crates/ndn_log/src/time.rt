//! Times in the format of RFC 3339.

ghost use Rattle.std.specs.Prelude.{◌≡◌, ◌<◌, ◌≤◌, ◌*ℤ◌, pos, OnOk, MatchOption};
ghost use Rattle.ndn_log.specs.Time.{IsDatePut, IsTimePut};

use jiff::Timestamp;
use jiff::fmt::temporal::DateTimePrinter;
use ndn_tlv::Memory;
use std::io::Write;

/// The greatest time of a `Timestamp`, 9999-12-30T22:00:00.999Z, in whole milliseconds since 1970.
const LAST_DATED: u64 = 253_402_207_200_999;

/// Appends a time. `moment` is in milliseconds since 1970. The time is in UTC with three digits of
/// the fraction of a second (RFC 3339, "Internet Date/Time Format"). A time after `LAST_DATED` is
/// appended as the number `moment` in decimal digits. If memory runs out, some of the text may be
/// appended.
pub fn put_time(text: &mut Vec<u8>, moment: u64) -> Result<(), Memory>
    ensures { OnOk result (IsTimePut moment text.old.items text.new.items) }
{
    match time_of(moment) {
        Some(time) => put_date(text, time),
        None => write!(text, "{moment}").map_err(|_| Memory),
    }
}

/// Returns the timestamp for a time, or `None` for a time after `LAST_DATED`.
fn time_of(moment: u64) -> Option<Timestamp>
    ensures { MatchOption result (LAST_DATED < moment)
        (λ time. (moment ≤ LAST_DATED) × (time.nanosecond ≡ pos moment *ℤ pos 1_000_000)) }
{
    if moment > LAST_DATED {
        return None;
    }
    Timestamp::from_millisecond(moment as i64).ok()
}

fn put_date(text: &mut Vec<u8>, time: Timestamp) -> Result<(), Memory>
    ensures { OnOk result (IsDatePut time.nanosecond text.old.items text.new.items) }
{
    let printer = DateTimePrinter::new().precision(Some(3));
    let date = printer.timestamp_text(time.to_plain());
    text.extend_from_slice(date.as_str().as_bytes())?;
    Ok(())
}
