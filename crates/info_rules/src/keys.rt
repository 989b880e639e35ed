//! The keys of a block.

use crate::entry::Entry;
use crate::fault::{RulesFault, RulesFaultKind};

/// A key together with the entries of its block.
#[derive(Clone, Copy)]
pub struct Key<'a> {
    pub own: &'a Entry,
    pub inner: &'a [Entry],
}

impl<'a> Key<'a> {
    ghost use Rattle.std.specs.Prelude.{◌≡◌};
    ghost use Rattle.std.specs.Option.{option_map};
    ghost use Rattle.info_rules.specs.Tree.{blocks_of};
    ghost use Rattle.info_rules.specs.Keys.{is_word, value_of, shape_fault};
    ghost use Rattle.info_rules.specs.Shown.{key_of, keys_of};

    /// Returns whether the key is `word`.
    pub fn is(self, word: &str) -> bool
        ensures { result ≡ is_word word.now (key_of self.entry) }
    {
        self.own.key.as_str() == word
    }

    /// Returns the key's value, or `None` if the key has a block or no value.
    pub fn value(self) -> Option<&'a str>
        ensures { option_map (λ text. text.now) result ≡ value_of (key_of self.entry) }
    {
        if self.own.has_block {
            return None;
        }
        self.own.value.as_deref()
    }

    /// Returns the keys of this key's block. `depth` is the depth of the keys in that block.
    pub fn keys(self, depth: usize) -> Keys<'a>
        ensures { keys_of result ≡ blocks_of depth (key_of self.entry).1 }
    {
        Keys {
            depth,
            entries: self.inner,
        }
    }

    /// Returns the fault `BadValue` if the key has a value or has no block, otherwise `None`.
    pub fn shape_fault(self) -> Option<RulesFault>
        ensures { result ≡ shape_fault (key_of self.entry) }
    {
        let is_wrong = self.own.value.is_some() || !self.own.has_block;
        is_wrong.then_some(RulesFaultKind::BadValue.at(self.own.line))
    }
}

/// The keys of one block: those entries that are at `depth`.
#[derive(Clone, Copy)]
pub struct Keys<'a> {
    pub depth: usize,
    pub entries: &'a [Entry],
}

impl<'a> Keys<'a> {
    ghost use Rattle.std.specs.Prelude.{◌≡◌, ◌≤◌, ◌<◌, [], ◌∷◌, map, length, MatchOption};
    ghost use Rattle.std.specs.Option.{option_map};
    ghost use Rattle.info_rules.specs.Tree.{parted};
    ghost use Rattle.info_rules.specs.Keys.{first_of, others_of, named, is_there, says};
    ghost use Rattle.info_rules.specs.Shown.{entry_of, key_of, keys_of};

    /// Returns the entries before the first key, and the entries from the first key on. If there is
    /// no key, the first list has all entries.
    fn parted(self) -> (&'a [Entry], &'a [Entry])
        ensures parted { parted self.entry.depth (map entry_of self.entry.entries.now)
            ≡ (map entry_of result.0.now, (parted self.entry.depth (map entry_of result.1.now)).1) }
        ensures front { (parted self.entry.depth (map entry_of result.1.now)).0 ≡ [] }
        ensures shorter { length result.1.now ≤ length self.entry.entries.now }
    {
        for (i, entry) in self.entries.iter().enumerate() {
            if entry.depth == self.depth {
                return self.entries.split_at(i);
            }
        }
        (self.entries, &[])
    }

    /// Returns the first key and the keys after it, or `None` if there are no keys.
    pub fn split_first(self) -> Option<(Key<'a>, Keys<'a>)>
        ensures { MatchOption result (keys_of self.entry ≡ [])
            (λ parts. (keys_of self.entry ≡ key_of parts.0 ∷ keys_of parts.1)
            × (length parts.1.entries.now < length self.entry.entries.now)) }
    {
        let (_, entries) = self.parted();
        let (own, entries) = entries.split_first()?;
        let (inner, entries) = Keys { entries, ..self }.parted();
        Some((Key { own, inner }, Keys { entries, ..self }))
    }

    /// Returns the first key that is `word` and all keys after it, or `None` if no key is `word`.
    pub fn find(self, word: &str) -> Option<(Key<'a>, Keys<'a>)>
        ensures first { option_map (λ parts. key_of parts.0) result
            ≡ first_of (named word.now (keys_of self.entry)) }
        ensures others { MatchOption result (others_of (named word.now (keys_of self.entry)) ≡ [])
            (λ parts. named word.now (keys_of parts.1)
            ≡ others_of (named word.now (keys_of self.entry))) }
    {
        let mut keys = self;
        while let Some((key, others)) = keys.split_first() {
            if key.is(word) {
                return Some((key, others));
            }
            keys = others;
        }
        None
    }

    /// Returns the first key that is `word`, or `None` if no key is `word`.
    pub fn first_named(self, word: &str) -> Option<Key<'a>>
        ensures { option_map key_of result ≡ first_of (named word.now (keys_of self.entry)) }
    {
        Some(self.find(word)?.0)
    }

    /// Returns whether a key is `word`.
    pub fn has(self, word: &str) -> bool
        ensures { result ≡ is_there word.now (keys_of self.entry) }
    {
        self.first_named(word).is_some()
    }

    /// Returns whether the first key that is `word` has the value `text`.
    pub fn says(self, word: &str, text: &str) -> bool
        ensures { result ≡ says word.now text.now (keys_of self.entry) }
    {
        match self.first_named(word) {
            None => false,
            Some(key) => key.value() == Some(text),
        }
    }

    /// Returns the number of keys that are `word`.
    pub fn count(self, word: &str) -> usize
        ensures { result ≡ length (named word.now (keys_of self.entry)) }
    {
        let mut keys = self;
        let mut count = 0;
        while let Some((key, others)) = keys.split_first() {
            if key.is(word) {
                count += 1;
            }
            keys = others;
        }
        count
    }
}
