ghost use Rattle.std.specs.Prelude.{◌≡◌, ◌++◌, ◌≤◌, [], List, ℕ, Some, OnErr, OnOk, flat_map, length, take};
ghost use Rattle.std.specs.Option.{option_map};
ghost use Rattle.mgmt_core.specs.Writing.{hop_text, segment_at};
ghost use Rattle.mgmt_core.specs.Windows.{choice_octets, kept_of, route_octets, start_of, with_more};

use crate::dataset::SEGMENT_LEN;
use crate::strategy_name::strategy_value;
use name_trie::Show;
use ndn_packets::command_types::{COST, ENTRY, FACE_ID, NEXT_HOP, STRATEGY};
use ndn_packets::types::NAME;
use ndn_tlv::{Memory, nni_element_len, put_element, put_header, put_nni_element};
use pit_fib::{Hop, Hops, StrategyId};
use std::alloc::Global;
use std::marker::Model;

/// One segment of a text. Only this segment is stored while the text is written.
#[derive(Drop)]
struct Window {
    // The number of octets before the segment.
    from: usize,
    // The number of octets written, including those outside the segment.
    len: usize,
    segment: Vec<u8>,
}

impl Model for Window {
    ghost use Rattle.std.specs.Prelude.{◌≤◌, length};
    ghost use Rattle.mgmt_core.specs.declared.dataset.TheConstants.{SEGMENT_LEN};
    ghost use Rattle.mgmt_core.specs.Windows.{Kept};

    ghost Value = { Kept };

    ghost view = { λ w. record { from = w.from; len = w.len; segment = w.segment.items } };

    ghost invariant = { λ w. length w.segment.items ≤ SEGMENT_LEN };
}

impl Window {
    /// Returns an empty window for segment `number`. The first segment has number 0.
    fn new(alloc: Global, number: u64) -> Window
        ensures { result ≡ kept_of (start_of number) [] }
    {
        Window {
            from: (number as usize).saturating_mul(SEGMENT_LEN),
            len: 0,
            segment: Vec::new(alloc),
        }
    }

    /// Appends the octets `more` to the text. Returns `Memory` if memory runs out or the text would
    /// have 2^64 octets or more.
    fn put(&mut self, more: &[u8]) -> Result<(), Memory>
        ensures { OnOk result (self.new ≡ with_more self.old more.now) }
    {
        let Some(len) = self.len.checked_add(more.len()) else {
            return Err(Memory);
        };
        let before = self.from.saturating_sub(self.len);
        let (_, rest) = more.split_at(before.min(more.len()));
        put_up_to(&mut self.segment, rest)?;
        self.len = len;
        Ok(())
    }

    /// Returns segment `number` and the number of the last segment, or `None` if the text has no
    /// segment `number`. `number` must be the number that was given to `new`.
    fn segment(self, number: u64) -> Option<(Vec<u8>, u64)>
        ensures { (text : List ℕ) → self ≡ kept_of (start_of number) text
            → option_map (λ s. (s.0.items, s.1)) result ≡ segment_at text number }
    {
        let last = (self.len.saturating_sub(1) / SEGMENT_LEN) as u64;
        if number > last {
            return None;
        }
        Some((self.segment, last))
    }
}

/// Appends the octets `more` to the segment until the segment has `SEGMENT_LEN` octets. Ignores the
/// remaining octets.
fn put_up_to(segment: &mut Vec<u8>, more: &[u8]) -> Result<(), Memory>
    requires { length segment.old.items ≤ SEGMENT_LEN }
    ensures ok { OnOk result
        (segment.new.items ≡ take SEGMENT_LEN (segment.old.items ++ more.now)) }
    ensures err { OnErr result (segment.new.items ≡ segment.old.items) }
{
    let room = SEGMENT_LEN - segment.len();
    segment.extend_from_slice(&more[..more.len().min(room)])?;
    Ok(())
}

/// A dataset of which only one segment is stored while the dataset is written.
#[derive(Drop)]
pub struct ListWriter {
    window: Window,
    // Buffers for an entry and for the fields of an entry.
    entry: Vec<u8>,
    fields: Vec<u8>,
}

impl Model for ListWriter {
    ghost use Rattle.mgmt_core.specs.Windows.{Kept};

    ghost Value = { Kept };

    ghost view = { λ w. w.window };
}

impl ListWriter {
    /// Returns a writer for segment `number`. The first segment has number 0.
    pub fn new(alloc: Global, number: u64) -> ListWriter
        ensures { result ≡ kept_of (start_of number) [] }
    {
        ListWriter {
            window: Window::new(alloc, number),
            entry: Vec::new(alloc),
            fields: Vec::new(alloc),
        }
    }

    /// Returns segment `number` and the number of the last segment, or `None` if the dataset has no
    /// segment `number`. `number` must be the number that was given to `new`.
    pub fn segment(self, number: u64) -> Option<(Vec<u8>, u64)>
        ensures { (text : List ℕ) → self ≡ kept_of (start_of number) text
            → option_map (λ s. (s.0.items, s.1)) result ≡ segment_at text number }
    {
        self.window.segment(number)
    }
}

/// A dataset that is stored whole.
#[derive(Drop)]
pub struct ListText {
    text: Vec<u8>,
    // A buffer for the fields of an entry.
    fields: Vec<u8>,
}

impl Model for ListText {
    ghost use Rattle.std.specs.Prelude.{List, ℕ};

    ghost Value = { List ℕ };

    ghost view = { λ w. w.text.items };
}

impl ListText {
    /// Returns an empty dataset.
    pub fn new(alloc: Global) -> ListText
        ensures { result ≡ [] }
    {
        ListText {
            text: Vec::new(alloc),
            fields: Vec::new(alloc),
        }
    }

    /// Returns the octets of the dataset.
    pub fn into_octets(self) -> Vec<u8>
        ensures { result.items ≡ self }
    {
        self.text
    }
}

impl Show<Hops> for ListText {
    ghost use Rattle.mgmt_core.specs.Windows.{text_with_route};

    ghost shown = { text_with_route };

    fn show(&mut self, name: &[u8], hops: &Hops) -> Result<(), Memory> {
        put_route(&mut self.fields, &mut self.text, name, hops)
    }
}

impl Show<StrategyId> for ListText {
    ghost use Rattle.mgmt_core.specs.Windows.{text_with_choice};

    ghost shown = { text_with_choice };

    fn show(&mut self, name: &[u8], strategy: &StrategyId) -> Result<(), Memory> {
        put_choice(&mut self.fields, &mut self.text, name, *strategy)
    }
}

impl Show<Hops> for ListWriter {
    ghost use Rattle.mgmt_core.specs.Windows.{with_route};

    ghost shown = { with_route };

    fn show(&mut self, name: &[u8], hops: &Hops) -> Result<(), Memory> {
        self.entry.clear();
        put_route(&mut self.fields, &mut self.entry, name, hops)?;
        self.window.put(&self.entry)
    }
}

impl Show<StrategyId> for ListWriter {
    ghost use Rattle.mgmt_core.specs.Windows.{with_choice};

    ghost shown = { with_choice };

    fn show(&mut self, name: &[u8], strategy: &StrategyId) -> Result<(), Memory> {
        self.entry.clear();
        put_choice(&mut self.fields, &mut self.entry, name, *strategy)?;
        self.window.put(&self.entry)
    }
}

/// Appends an entry to the dataset of routes, using `fields` as a buffer for the entry's content.
/// If memory runs out, some octets of the entry may be appended.
fn put_route(
    fields: &mut Vec<u8>,
    text: &mut Vec<u8>,
    name: &[u8],
    hops: &Hops,
) -> Result<(), Memory>
    ensures { OnOk result
        (text.new.items ≡ text.old.items ++ route_octets name.now hops.now) }
{
    fields.clear();
    put_element(fields, NAME, name)?;
    put_hops(fields, hops)?;
    put_element(text, ENTRY, fields)
}

/// Appends next hops. If memory runs out, some octets of the next hops may be appended.
fn put_hops(text: &mut Vec<u8>, hops: &Hops) -> Result<(), Memory>
    ensures { OnOk result (text.new.items ≡ text.old.items ++ flat_map hop_text hops.now) }
{
    for at in 0..hops.len() {
        if let Some(hop) = hops.get(at) {
            put_hop(text, hop)?;
        }
    }
    Ok(())
}

/// Appends a next hop. If memory runs out, some octets of the next hop may be appended.
fn put_hop(text: &mut Vec<u8>, hop: Hop) -> Result<(), Memory>
    ensures { OnOk result (text.new.items ≡ text.old.items ++ hop_text hop) }
{
    let len = nni_element_len(FACE_ID, hop.face) + nni_element_len(COST, hop.cost);
    put_header(text, NEXT_HOP, len)?;
    put_nni_element(text, FACE_ID, hop.face)?;
    put_nni_element(text, COST, hop.cost)
}

/// Appends an entry to the dataset of strategies, using `fields` as a buffer for the entry's
/// content. If memory runs out, some octets of the entry may be appended.
fn put_choice(
    fields: &mut Vec<u8>,
    text: &mut Vec<u8>,
    name: &[u8],
    strategy: StrategyId,
) -> Result<(), Memory>
    ensures { OnOk result
        (text.new.items ≡ text.old.items ++ choice_octets name.now strategy) }
{
    fields.clear();
    put_element(fields, NAME, name)?;
    put_element(fields, STRATEGY, strategy_value(strategy))?;
    put_element(text, ENTRY, fields)
}
