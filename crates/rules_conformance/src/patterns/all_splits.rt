//! Tests that compare the matching of patterns with a simple program. The simple program tries all
//! ways to split the components of a name among the atoms of a pattern. Each split is a list of
//! counts, one for each atom: the number of components that the atom gets. The lists are tried in
//! descending lexicographic order, until each atom matches its components.

use name_patterns::Pattern;
use ndn_names::{Name, NameBuf};
use std::alloc::Global;

/// The greatest number of atoms in a pattern of these tests, including two implied atoms.
const ATOMS: usize = 6;

/// The component tests. For each test: its text in a pattern, and the letters that pass the test.
const TESTS: [(&str, &[u8]); 6] = [
    ("<>", b"abc"),
    ("<a>", b"a"),
    ("<b>", b"b"),
    ("[<a><b>]", b"ab"),
    ("[^<a>]", b"bc"),
    ("[^<b><a>]", b"c"),
];

/// The repeats. For each repeat: its text in a pattern, its least count, and its greatest count if
/// there is a greatest count.
const REPEATS: [(&str, usize, Option<usize>); 10] = [
    ("", 1, Some(1)),
    ("*", 0, None),
    ("+", 1, None),
    ("?", 0, Some(1)),
    ("{2}", 2, Some(2)),
    ("{1,}", 1, None),
    ("{,2}", 0, Some(2)),
    ("{1,2}", 1, Some(2)),
    ("{0}", 0, Some(0)),
    ("{0,3}", 0, Some(3)),
];

/// An atom: the letters that pass its component test, and the least and greatest count of its
/// repeat.
#[derive(Clone, Copy)]
struct Spelled {
    letters: &'static [u8],
    least: usize,
    most: Option<usize>,
}

/// The atom that matches zero components.
const NOTHING: Spelled = Spelled {
    letters: b"",
    least: 0,
    most: Some(0),
};

/// The atom that matches any number of any components.
const ANYTHING: Spelled = Spelled {
    letters: b"abc",
    least: 0,
    most: None,
};

/// A pattern: its text, its atoms, and its group. The group is given as the number of atoms before
/// its start and the number of atoms before its end.
#[derive(Drop)]
struct Sample {
    text: String,
    atoms: [Spelled; ATOMS],
    group: Option<(usize, usize)>,
}

/// A fixed sequence of pseudo-random numbers.
#[derive(Drop)]
struct Numbers(u64);

impl Numbers {
    /// Returns the next number below `limit`, which must not be 0.
    fn below(&mut self, limit: usize) -> usize {
        self.0 = self
            .0
            .wrapping_mul(6364136223846793005)
            .wrapping_add(1442695040888963407);
        ((self.0 >> 33) as usize).checked_rem(limit).unwrap_or(0)
    }
}

/// Returns a pattern of up to four written atoms, some of which may be in a group.
fn next_sample(alloc: Global, numbers: &mut Numbers) -> Option<Sample> {
    let mut sample = Sample {
        text: String::new(alloc),
        atoms: [NOTHING; ATOMS],
        group: None,
    };
    spell_next(numbers, &mut sample)?;
    Some(sample)
}

/// Puts the text, the atoms and the group of the next pattern into the empty sample `sample`.
fn spell_next(numbers: &mut Numbers, sample: &mut Sample) -> Option<()> {
    let written = numbers.below(5);
    let first = numbers.below(5);
    let end = first.saturating_add(numbers.below(3));
    sample.put_end(numbers, 0, "^")?;
    for i in 0..4 {
        if i == first && i < written {
            sample.open_group(i + 1)?;
        }
        if i < written {
            sample.put_atom(numbers, i + 1)?;
        }
        if i == end || (i == 3 && end > 3) {
            sample.close_group(i + 2)?;
        }
    }
    sample.put_end(numbers, 5, "$")
}

impl Sample {
    /// Decides at random whether to append the anchor to the pattern. Without the anchor, the atom
    /// with this number is an implied atom, which matches any components.
    fn put_end(&mut self, numbers: &mut Numbers, number: usize, anchor: &str) -> Option<()> {
        if numbers.below(2) == 0 {
            *self.atoms.get_mut(number)? = ANYTHING;
            return Some(());
        }
        self.text.push_str(anchor).ok()
    }

    /// Opens the group before the atom with this number.
    fn open_group(&mut self, number: usize) -> Option<()> {
        self.group = Some((number, number));
        self.text.push_str("(").ok()
    }

    /// Appends a random atom to the pattern, as the atom with this number.
    fn put_atom(&mut self, numbers: &mut Numbers, number: usize) -> Option<()> {
        let (test, letters) = *TESTS.get(numbers.below(6))?;
        let (repeat, least, most) = *REPEATS.get(numbers.below(10))?;
        *self.atoms.get_mut(number)? = Spelled {
            letters,
            least,
            most,
        };
        self.text.push_str(test).ok()?;
        self.text.push_str(repeat).ok()
    }

    /// Closes the group, if there is one, before the atom with this number.
    fn close_group(&mut self, number: usize) -> Option<()> {
        let Some((start, _)) = self.group else {
            return Some(());
        };
        self.group = Some((start, number));
        self.text.push_str(")").ok()
    }
}

/// Returns up to four random letters.
fn next_letters(alloc: Global, numbers: &mut Numbers) -> Option<Vec<u8>> {
    let mut letters = Vec::new(alloc);
    for _ in 0..numbers.below(5) {
        letters.push(*b"aabc".get(numbers.below(4))?).ok()?;
    }
    Some(letters)
}

/// Returns the name with one component for each letter.
fn name_of(alloc: Global, letters: &[u8]) -> Option<NameBuf> {
    let mut name = NameBuf::new(alloc);
    for letter in letters {
        name.append(8, &[*letter]).ok()?;
    }
    Some(name)
}

impl Spelled {
    /// Returns whether the atom matches these letters.
    fn can_take(&self, letters: &[u8]) -> bool {
        self.least <= letters.len()
            && self.most.is_none_or(|most| letters.len() <= most)
            && letters.iter().all(|letter| self.letters.contains(letter))
    }
}

/// Returns the lexicographically greatest list of counts that splits the letters among the atoms,
/// or `None` if there is no split. Tries the counts of the first atom from the greatest to the
/// least, and takes the first count for which the first atom matches its letters and the other
/// atoms have a split.
fn greatest_split(atoms: &[Spelled], letters: &[u8]) -> Option<[usize; ATOMS]> {
    let Some((atom, others)) = atoms.split_first() else {
        return letters.is_empty().then_some([0; ATOMS]);
    };
    for count in (0..letters.len() + 1).rev() {
        let (taken, rest) = letters.split_at(count);
        if atom.can_take(taken) {
            if let Some(mut counts) = greatest_split(others, rest) {
                *counts.get_mut(ATOMS.checked_sub(atoms.len())?)? = count;
                return Some(counts);
            }
        }
    }
    None
}

/// Returns the sum of the first `end` counts.
fn place_of(counts: &[usize; ATOMS], end: usize) -> usize {
    counts
        .iter()
        .take(end)
        .fold(0usize, |sum, count| sum.saturating_add(*count))
}

/// Returns whether the pattern matches the letters, or `None` if the pattern and the simple program
/// disagree about the match or its group.
fn agreed(
    alloc: Global,
    text: &str,
    atoms: &[Spelled],
    group: Option<(usize, usize)>,
    letters: &[u8],
) -> Option<bool> {
    let name = name_of(alloc, letters)?;
    let pattern = Pattern::read(alloc, text).ok()?;
    agreed_on(&pattern, name.view(), atoms, group, letters)
}

/// Returns the result of `agreed`. `pattern` is the pattern that `agreed` has read, and `name` is
/// the name with one component for each letter.
fn agreed_on(
    pattern: &Pattern,
    name: Name<'_>,
    atoms: &[Spelled],
    group: Option<(usize, usize)>,
    letters: &[u8],
) -> Option<bool> {
    let Some(counts) = greatest_split(atoms, letters) else {
        return pattern.matches(name).is_none().then_some(false);
    };
    let captures = pattern.matches(name)?;
    let group = group.map(|(first, end)| (place_of(&counts, first), place_of(&counts, end)));
    let agrees = captures.group(0) == Some((0, letters.len())) && captures.group(1) == group;
    agrees.then_some(true)
}

/// Returns whether the next pattern matches the next letters, or `None` if the simple program
/// disagrees.
fn next_agreed(alloc: Global, numbers: &mut Numbers) -> Option<bool> {
    let Sample { text, atoms, group } = next_sample(alloc, numbers)?;
    let letters = next_letters(alloc, numbers)?;
    agreed(alloc, text.as_str(), &atoms, group, &letters)
}

/// Tries 3000 random patterns, each with its own random name, and returns how many patterns match.
/// If the simple program disagrees on a pattern, returns the number of the first such pattern.
fn matches_of_3000(alloc: Global) -> Result<u32, u32> {
    let mut numbers = Numbers(2014);
    let mut matched = 0u32;
    for number in 0..3000u32 {
        match next_agreed(alloc, &mut numbers) {
            Some(true) => matched = matched.saturating_add(1),
            Some(false) => {}
            None => return Err(number),
        }
    }
    Ok(matched)
}

#[test]
fn agrees_with_all_splits(rt: HostRuntime) {
    let matched = matches_of_3000(rt.alloc());
    assert!(rt;
        matched.is_ok_and(|matched| (500..2500).contains(&matched)),
        "{matched:?}"
    );
}
