//! The search for the greatest split of a name.

ghost use Rattle.std.specs.Prelude.{◌≡◌, ◌+◌, ◌*◌, ◌<◌, ◌≤◌, ◌^◌, ◌≢◌, ◌∷◌, ℕ, true, false, List, length, drop, map, slice_get, Some, None, IfSome, IfNone, MatchOption, IsSomeAnd};
ghost use Rattle.ndn_tlv.specs.Element.{Field};
ghost use Rattle.ndn_names.specs.View.{components, components_left};
ghost use Rattle.name_patterns.specs.Pattern.{PlainTest, PlainAtom};
ghost use Rattle.name_patterns.specs.Greedy.{at_most, run_of, greatest, first_count, greedy, has_place, ArePassed, AreSplit, IsTable, AreStarts, AreTaken};
ghost use Rattle.name_patterns.specs.Shown.{test_of, bounds_of, atom_of};

use crate::atom::Atom;
use crate::component_test::Test;
use crate::repeat::{MAX_COUNT, Repeat};
use ndn_names::{Components, Name};

/// The greatest number of positions in a split: one for each of at most 32 written atoms, one for
/// each of at most two implied atoms, and one for the end.
const MAX_STARTS: usize = 35;

/// The positions in a name before each atom, and after the last atom.
pub type Starts = [usize; MAX_STARTS];

/// A set of positions in a name, with one bit for each position. The end of the name, after its
/// last component, also counts as a position.
type Places = u128;

/// What the search knows about an atom or about the end.
#[derive(Clone, Copy)]
struct Row {
    /// The positions of the components that pass the atom's test.
    passed: Places,
    /// The positions from which this atom and the later atoms can match all remaining components.
    split: Places,
}

/// One row for each atom, and then one row for the end. Later rows are not used.
type Table = [Row; MAX_STARTS];

/// Returns the set `places`, with `place` added if `is_there` is true.
#[inline(always)]
fn with_place(places: Places, place: usize, is_there: bool) -> Places
    requires { place ≤ 64 }
    ensures there { has_place places place ≡ false → has_place result place ≡ is_there }
    ensures others { (other : ℕ) → other ≢ place
        → has_place result other ≡ has_place places other }
    ensures small { places < 2 ^ place → place < 64 → result < 2 ^ (place + 1) }
{
    if is_there {
        places | 1 << place
    } else {
        places
    }
}

/// Returns the positions of those components of `name` that pass the test. `name` has `len`
/// components.
fn passed(test: &Test, name: Name<'_>, len: usize, tests: &mut u64) -> Places
    requires len { (len ≡ length (components name)) × (len ≤ 64) }
    requires room { tests.old + 64 < 2 ^ 64 }
    ensures exact { ArePassed (test_of test.now) (components name.entry) result }
    ensures small { result < 2 ^ 64 }
    ensures counted { tests.old ≤ tests.new }
    ensures cost { tests.new ≤ tests.old + length (components name.entry) }
{
    if test.is_anything() {
        return (1 << len) - 1;
    }
    let mut passed = 0;
    let mut place = 0;
    for component in name.iter() {
        passed = with_place(passed, place, test.passes(component, tests));
        place += 1;
    }
    passed
}

/// Returns how many consecutive positions from `place` on are in `passed`.
#[inline(always)]
fn run_at(passed: Places, place: usize) -> u8
    requires { (passed < 2 ^ 64) × (place ≤ 64) }
    ensures exact { (test : PlainTest) → (cs : List Field) → ArePassed test cs passed
        → place ≤ length cs → result ≡ run_of test (drop place cs) }
    ensures small { result + place ≤ 64 }
{
    (passed >> place).trailing_ones() as u8
}

/// Returns the greatest number of components that an atom may match, if `run` consecutive
/// components pass the test of the atom.
#[inline(always)]
fn most_of(repeat: Repeat, run: u8) -> u8
    ensures { result ≡ at_most repeat.most run }
{
    match repeat.most {
        Some(most) => most.min(run),
        None => run,
    }
}

/// Returns the greatest `count` from `least` to `most` for which the position `place + count` is in
/// `after`, or `None` if there is no such `count`.
#[inline(always)]
fn greatest(least: u8, most: u8, after: Places, place: usize) -> Option<u8>
    requires { most + place ≤ 64 }
    ensures { result ≡ greatest (λ count. has_place after (place + count)) least most }
{
    let end = place + usize::from(most);
    let skipped = (after << (127 - end)).leading_zeros() as u8;
    if skipped <= most && least <= most - skipped {
        return Some(most - skipped);
    }
    None
}

/// Returns the greatest number of components that an atom can match from position `place` on, so
/// that the later atoms can match all remaining components. Returns `None` if there is no such
/// number. `passed` are the positions of the components that pass the atom's test. `after` are the
/// positions from which the later atoms can match all remaining components.
#[inline(always)]
fn first_count(repeat: Repeat, passed: Places, after: Places, place: usize) -> Option<u8>
    requires { (passed < 2 ^ 64) × (place ≤ 64) }
    ensures { (atom : PlainAtom) → (atoms : List PlainAtom) → (cs : List Field)
        → bounds_of repeat ≡ atom.bounds → ArePassed atom.test cs passed → AreSplit atoms cs after
        → place ≤ length cs → result ≡ first_count (atom ∷ atoms) (drop place cs) }
{
    let most = most_of(repeat, run_at(passed, place));
    greatest(repeat.least, most, after, place)
}

/// Returns the positions from which an atom and the later atoms can match all remaining components.
/// `passed` and `after` are as in `first_count`.
fn split_before(repeat: Repeat, passed: Places, after: Places) -> Places
    ensures { (atom : PlainAtom) → (atoms : List PlainAtom) → (cs : List Field)
        → bounds_of repeat ≡ atom.bounds → ArePassed atom.test cs passed → AreSplit atoms cs after
        → length cs ≤ 64 → AreSplit (atom ∷ atoms) cs result }
{
    let most = most_of(repeat, MAX_COUNT);
    // `begins` are the positions from which `count` components pass, such that the later atoms can
    // match all components after these `count` components.
    let mut begins = after;
    let mut split = 0;
    for count in 0..most + 1 {
        if repeat.least <= count {
            split |= begins;
        }
        begins = passed & begins >> 1;
        // If the count `count + 1` is not possible from any position, no greater count is possible.
        if begins == 0 {
            return split;
        }
    }
    split
}

/// Fills the table from the row of the end back to the row of the atom at index `first`. The name
/// has `len` components. Suppose that, for some atom at index `first` or later, there is no
/// position from which this atom and the later atoms can match all remaining components. The name
/// then has no split, so the function stops and returns false. For each atom, each component is
/// tested at most once.
fn fill(
    atoms: &[Atom],
    first: usize,
    name: Name<'_>,
    len: usize,
    tests: &mut u64,
    table: &mut Table,
) -> bool
    requires len { (len ≡ length (components name)) × (len ≤ 64) }
    requires few { (first ≤ length atoms.now) × (length atoms.now ≤ 34) }
    requires room { tests.old + 10000 < 2 ^ 64 }
    ensures filled { result ≡ true
        → IsTable first (map atom_of atoms.now) (components name.entry) table.new }
    ensures none { result ≡ false
        → AreSplit (drop first (map atom_of atoms.now)) (components name.entry) 0 }
    ensures counted { tests.old ≤ tests.new }
    ensures cost { tests.new + first * length (components name.entry)
        ≤ tests.old + length atoms.now * length (components name.entry) }
{
    let mut split = 1 << len;
    table[atoms.len()] = Row { passed: 0, split };
    for i in (first..atoms.len()).rev() {
        let atom = &atoms[i];
        let passed = passed(&atom.test, name, len, tests);
        split = split_before(atom.repeat, passed, split);
        if split == 0 {
            return false;
        }
        table[i] = Row { passed, split };
    }
    true
}

/// Matches the leading atoms that match exactly one component each. Stops before the first atom
/// that may match another number of components. Atoms that match exactly one component need no
/// table, because their counts are fixed. Returns the number of matched atoms, or `None` if the
/// component for one of these atoms is missing or fails the test of the atom.
fn take_singles(
    atoms: &[Atom],
    components: &mut Components<'_>,
    starts: &mut Starts,
    tests: &mut u64,
) -> Option<usize>
    requires few { length atoms.now ≤ 34 }
    requires room { tests.old + 34 < 2 ^ 64 }
    requires start { slice_get starts.old 0 ≡ Some 0 }
    ensures taken { IfSome result (λ i. (i ≤ length atoms.now)
        × AreTaken (map atom_of atoms.now) (components_left components.old) i i starts.new) }
    ensures left { IfSome result (λ i. components_left components.new
        ≡ drop i (components_left components.old)) }
    ensures none { IfNone result
        (greedy (map atom_of atoms.now) (components_left components.old) ≡ None) }
    ensures counted { tests.old ≤ tests.new }
    ensures cost { MatchOption result
        (tests.new ≤ tests.old + length atoms.now * length (components_left components.old))
        (λ i. tests.new ≤ tests.old + i) }
{
    for i in 0..atoms.len() {
        let atom = &atoms[i];
        if !atom.repeat.is_once() {
            return Some(i);
        }
        let component = components.next()?;
        if !atom.test.passes(component, tests) {
            return None;
        }
        starts[i + 1] = i + 1;
    }
    Some(atoms.len())
}

/// Matches the atoms from index `first` on with the components from position `first` on, by means
/// of a table. The name has `len` components. Returns the position after the last matched
/// component, or `None` if there is no split.
fn take_others(
    atoms: &[Atom],
    first: usize,
    name: Name<'_>,
    len: usize,
    starts: &mut Starts,
    tests: &mut u64,
) -> Option<usize>
    requires len { (len ≡ length (components name)) × (len ≤ 64) }
    requires few { (first ≤ length atoms.now) × (length atoms.now ≤ 34) }
    requires room { tests.old + 10000 < 2 ^ 64 }
    requires taken { AreTaken (map atom_of atoms.now) (components name) first first starts.old }
    ensures taken { IfSome result (λ place. AreTaken (map atom_of atoms.now)
        (components name.entry) (length atoms.now) place starts.new) }
    ensures none { IfNone result (greedy (map atom_of atoms.now) (components name.entry) ≡ None) }
    ensures counted { tests.old ≤ tests.new }
    ensures cost { tests.new + first * length (components name.entry)
        ≤ tests.old + length atoms.now * length (components name.entry) }
{
    let mut table = [Row {
        passed: 0,
        split: 0,
    }; MAX_STARTS];
    if !fill(atoms, first, name, len, tests, &mut table) {
        return None;
    }
    let mut place = first;
    for i in first..atoms.len() {
        let after = table[i + 1].split;
        let count = first_count(atoms[i].repeat, table[i].passed, after, place)?;
        place += usize::from(count);
        starts[i + 1] = place;
    }
    Some(place)
}

/// Returns the number of remaining components.
#[inline(always)]
fn count_left(components: Components<'_>) -> usize
    ensures { result ≡ length (components_left components.entry) }
{
    components.count()
}

/// Finds the greatest split of a name. In this split, each atom, from left to right, matches as
/// many components as possible. Returns the positions before each atom and after the last atom,
/// together with the number of components. Returns `None` if there is no split. For each atom, each
/// component is tested at most once.
pub fn first_split(atoms: &[Atom], name: Name<'_>, tests: &mut u64) -> Option<(Starts, usize)>
    requires few { length atoms.now ≤ 34 }
    requires room { tests.old + 100000 < 2 ^ 64 }
    ensures found { IfSome result
        (λ found. IsSomeAnd (greedy (map atom_of atoms.now) (components name.entry))
        (λ counts. AreStarts (map atom_of atoms.now) counts found.0)) }
    ensures len { IfSome result (λ found. found.1 ≡ length (components name.entry)) }
    ensures none { IfNone result (greedy (map atom_of atoms.now) (components name.entry) ≡ None) }
    ensures counted { tests.old ≤ tests.new }
    ensures cost { tests.new ≤ tests.old + length atoms.now * length (components name.entry) }
{
    let mut starts = [0; MAX_STARTS];
    let mut components = name.iter();
    let first = take_singles(atoms, &mut components, &mut starts, tests)?;
    let len = first + count_left(components);
    let mut place = first;
    if first < atoms.len() {
        place = take_others(atoms, first, name, len, &mut starts, tests)?;
    }
    if place < len {
        return None;
    }
    Some((starts, len))
}
