ghost use Rattle.std.specs.Prelude.{◌≡◌, ◌≢◌, ◌<◌, ◌≤◌, ℕ, None, Some, Option, List, length, insert, slice_set, slice_index_or, IfOk, IfErr, IfSome, OnErr, OnOk, option_and_then, nat_eq, ◌==◌, IsSome, IsTrue, false};
ghost use Rattle.std.specs.List.{All, AllWithin, HoldsAt};
ghost use lib.Dec.{T};
ghost use Rattle.std.specs.FinMap as map;
ghost use Rattle.ndn_tlv.specs.Element.{Field};
ghost use Rattle.ndn_names.specs.Order.{component_cmp};
ghost use Rattle.ndn_names.specs.View.{field_of};
ghost use Rattle.name_trie.specs.ByName.{revise};
ghost use Rattle.name_trie.specs.Links.{unless_is};
ghost use Rattle.name_trie.specs.Hint.{IsPlace};

use crate::component_buf::{ComponentBuf, Hint, head_of};
use crate::rows::Rows;
use ndn_names::Component;
use ndn_tlv::Memory;
use std::alloc::Global;
use std::cmp::Ordering;
use std::marker::Model;

/// The indexes of a node's children, in canonical order of the children's components.
#[derive(Drop)]
pub struct Children {
    rows: Rows<(ComponentBuf, usize)>,
}

impl Model for Children {
    ghost use lib.Dec.{T};
    ghost use Rattle.std.specs.Coded.{coded_ℕ, coded_list, coded×};
    ghost use Rattle.std.specs.FinMap as map;
    ghost use Rattle.ndn_names.specs.Order.{component_cmp};
    ghost use Rattle.name_trie.specs.Links.{Links};
    ghost use Rattle.name_trie.specs.Rows.{items_of};

    ghost Value = { Links };

    ghost coded = { map.code (coded× coded_ℕ (coded_list coded_ℕ)) coded_ℕ };

    ghost view = { λ m. map.from_sorted (items_of m.rows) };

    ghost invariant = { λ m. T (map.is_sorted component_cmp (items_of m.rows)) };
}

impl Children {
    pub fn new() -> Children
        ensures { result ≡ map.empty }
    {
        Children { rows: Rows::Empty }
    }

    pub fn is_empty(&self) -> bool
        ensures { result ≡ (map.len self.now == 0) }
    {
        self.rows.as_slice().is_empty()
    }

    /// Returns whether some child's component has a type number of at most `kind`.
    pub fn has_up_to(&self, kind: u16) -> bool
        ensures yes { IsTrue result
            → (c : Field) × (c.0 ≤ kind) × IsSome (map.get self.now c) }
        ensures no { result ≡ false
            → (c : Field) → c.0 ≤ kind → map.get self.now c ≡ None }
    {
        match self.rows.as_slice().first() {
            Some(row) => row.0.view().kind <= kind,
            None => false,
        }
    }

    /// Returns the component and the index of each child, in canonical order of the components.
    pub fn rows(&self) -> &[(ComponentBuf, usize)]
        ensures { result.now ≡ map.entries self.now }
    {
        self.rows.as_slice()
    }

    /// Returns the index of the child for `component`, or `None` if there is no such child.
    pub fn get(&self, component: Component<'_>) -> Option<usize>
        ensures { result ≡ map.get self.now (field_of component.entry) }
    {
        let rows = self.rows.as_slice();
        match place_of(rows, component) {
            Ok(at) => Some(rows[at].1),
            Err(_) => None,
        }
    }

    /// Adds the child with the index `child` for `component`. There must be no child for
    /// `component` yet.
    pub fn insert(
        &mut self,
        alloc: Global,
        component: ComponentBuf,
        child: usize,
    ) -> Result<(), Memory>
        requires { map.get self.old component ≡ None }
        ensures ok { OnOk result (self.new ≡ map.insert self.old component child) }
        ensures err { OnErr result (self.new ≡ self.old) }
    {
        match place_of(self.rows.as_slice(), component.view()) {
            Ok(_) => unreachable!(),
            Err(at) => self.rows.insert(alloc, at, (component, child))?,
        }
        Ok(())
    }

    /// Removes the row of `child`, if there is such a row. At most one row may have this child. The
    /// search for the row begins at the position that `hint` gives.
    pub fn forget(&mut self, child: usize, hint: &Hint)
        requires { (c d : Field) → map.get self.old c ≡ Some child → map.get self.old d ≡ Some child
            → c ≡ d }
        ensures { self.new ≡ revise (unless_is child) self.old }
    {
        if let Some(at) = row_of(self.rows.as_slice(), child, hint) {
            self.rows.remove(at);
        }
    }
}

/// Returns the index of the first row that is not before `hint`, or the number of rows if all rows
/// are before `hint`. Exception: returns 0 if there are fewer than two rows.
fn start_of(rows: &[(ComponentBuf, usize)], hint: &Hint) -> usize
    ensures within { result ≤ length rows.now }
    ensures few { length rows.now < 2 → result ≡ 0 }
    ensures place { 2 ≤ length rows.now → IsPlace hint.now rows.now result }
{
    if rows.len() < 2 {
        return 0;
    }
    let mut low = 0;
    let mut high = rows.len();
    while low < high {
        let mid = low + (high - low) / 2;
        if rows[mid].0.is_before(hint) {
            low = mid + 1;
        } else {
            high = mid;
        }
    }
    low
}

/// Searches `rows[from..to]` for the row of `child`. Returns the index of this row in `rows`, or
/// `None` if no row in `rows[from..to]` has this child.
fn row_within(rows: &[(ComponentBuf, usize)], child: usize, from: usize, to: usize) -> Option<usize>
    requires { to ≤ length rows.now }
    ensures found { IfSome result (λ at. (at < length rows.now)
        × HoldsAt (λ row. row.1 ≡ child) rows.now at) }
    ensures absent { result ≡ None → AllWithin (λ row. row.1 ≢ child) rows.now from to }
{
    for at in from..to {
        if rows[at].1 == child {
            return Some(at);
        }
    }
    None
}

/// Returns the index of the row of `child`, or `None` if there is no such row. The search begins at
/// the position that `hint` gives, and runs to the end of `rows`. Then the search covers the rows
/// before this position.
fn row_of(rows: &[(ComponentBuf, usize)], child: usize, hint: &Hint) -> Option<usize>
    ensures found { IfSome result (λ at. (at < length rows.now)
        × HoldsAt (λ row. row.1 ≡ child) rows.now at) }
    ensures absent { result ≡ None → All (λ row. row.1 ≢ child) rows.now }
{
    let start = start_of(rows, hint);
    match row_within(rows, child, start, rows.len()) {
        Some(at) => Some(at),
        None => row_within(rows, child, 0, start),
    }
}

/// Returns `Ok` with the index of the row of `component`. If there is no such row, returns `Err`
/// with the index at which a row for `component` belongs.
#[inline(always)]
fn place_of(rows: &[(ComponentBuf, usize)], component: Component<'_>) -> Result<usize, usize>
    requires { T (map.is_sorted component_cmp rows.now) }
    ensures found { IfOk result (λ at. (at < length rows.now)
        × ((k : ℕ) → map.put component_cmp (field_of component.entry) k rows.now
        ≡ slice_set rows.now at (field_of component.entry, k))
        × ((row : Field × ℕ) → row ≡ slice_index_or rows.now at row
        → (row.0 ≡ field_of component.entry)
        × (map.find component_cmp (field_of component.entry) rows.now ≡ Some row.1))) }
    ensures absent { IfErr result (λ at. (at ≤ length rows.now)
        × ((k : ℕ) → map.put component_cmp (field_of component.entry) k rows.now
        ≡ insert rows.now at (field_of component.entry, k))
        × (map.find component_cmp (field_of component.entry) rows.now ≡ None)) }
{
    if rows.is_empty() {
        return Err(0);
    }
    let head = head_of(component.value);
    let mut low = 0;
    let mut high = rows.len();
    while low < high {
        let mid = low + (high - low) / 2;
        match rows[mid].0.order_of(component, head) {
            Ordering::Greater => low = mid + 1,
            Ordering::Equal => return Ok(mid),
            Ordering::Less => high = mid,
        }
    }
    Err(low)
}
