ghost use Rattle.std.specs.Prelude.{◌≡◌, IfOk};
ghost use Rattle.std.specs.Option.{option_map};
ghost use Rattle.mgmt_core.specs.Writing.{fib_text, segment_at, strategy_text};

use crate::window::{ListText, ListWriter};
use ndn_tlv::Memory;
use pit_fib::{Fib, StrategyTable};
use std::alloc::Global;

/// The greatest length of a segment of a dataset, in octets.
pub const SEGMENT_LEN: usize = 4096;

/// Law: a segment of a dataset has at most 4,096 octets.
pub fn segment_limit_is_as_promised()
    ensures { SEGMENT_LEN ≡ 4096 }
{}

/// Returns the dataset of routes (NFD Management, "FIB Dataset") without the routes that expire by
/// `now`. Entries are ordered by name in canonical order. The effective next hops of an entry are
/// ordered by cost and then by face.
pub fn fib_dataset(alloc: Global, fib: &Fib, now: u64) -> Result<Vec<u8>, Memory>
    ensures { IfOk result (λ text. text.items ≡ fib_text now fib.now.table) }
{
    let list = fib.show_all(now, ListText::new(alloc))?;
    Ok(list.into_octets())
}

/// Returns the dataset of strategies (NFD Management, "Strategy Choice Dataset"), ordered by name
/// in canonical order.
pub fn strategy_dataset(alloc: Global, strategies: &StrategyTable) -> Result<Vec<u8>, Memory>
    ensures { IfOk result (λ text. text.items ≡ strategy_text strategies.now.table) }
{
    let mut list = ListText::new(alloc);
    strategies.show_all(&mut list)?;
    Ok(list.into_octets())
}

/// Returns segment `number` of the text, and the number of the text's last segment. Returns `None`
/// if the text has no segment `number`. The first segment has number 0. Each segment except the
/// last has 4,096 octets. An empty text has one segment, which is empty.
pub fn segment_of(text: &[u8], number: u64) -> Option<(&[u8], u64)>
    ensures { option_map (λ s. (s.0.now, s.1)) result ≡ segment_at text.now number }
{
    let last = (text.len().saturating_sub(1) / SEGMENT_LEN) as u64;
    if number > last {
        return None;
    }
    let (_, rest) = text.split_at(number as usize * SEGMENT_LEN);
    Some((&rest[..rest.len().min(SEGMENT_LEN)], last))
}

/// Returns what `segment_of` returns for the dataset of routes. Reads all names in order. Of the
/// dataset, only the segment and one entry are stored at any time. The walk over the names also
/// stores one name, and a state for each prefix of this name that has an entry.
pub fn fib_segment(
    alloc: Global,
    fib: &Fib,
    now: u64,
    number: u64,
) -> Result<Option<(Vec<u8>, u64)>, Memory>
    ensures { IfOk result (λ segment. option_map (λ s. (s.0.items, s.1)) segment
        ≡ segment_at (fib_text now fib.now.table) number) }
{
    let written = fib.show_all(now, ListWriter::new(alloc, number))?;
    Ok(written.segment(number))
}

/// Returns what `segment_of` returns for the dataset of strategies. As in `fib_segment`, only the
/// segment and one entry of the dataset are stored at any time.
pub fn strategy_segment(
    alloc: Global,
    strategies: &StrategyTable,
    number: u64,
) -> Result<Option<(Vec<u8>, u64)>, Memory>
    ensures { IfOk result (λ segment. option_map (λ s. (s.0.items, s.1)) segment
        ≡ segment_at (strategy_text strategies.now.table) number) }
{
    let mut writer = ListWriter::new(alloc, number);
    strategies.show_all(&mut writer)?;
    Ok(writer.segment(number))
}
