//! Key books: collections of named keys.

ghost use Rattle.std.specs.Prelude.{◌≡◌, ◌↔◌, ℕ, List, Ok, Err, true, false, MatchOption, MatchResult};
ghost use Rattle.ndn_names.specs.View.{components};
ghost use Rattle.key_files.specs.declared.fault.KeyFault.{KeyFault};
ghost use Rattle.key_files.specs.FirstFault.{FirstFault};
ghost use Rattle.key_files.specs.KeyFile.{AreApart, IsAmong, NamedKey, KeysOf};
ghost use Rattle.key_files.specs.Shown.{named_keys};
ghost use Rattle.key_files.specs.KeyReading.{is_usable, key_of, keys_in, AreKeys, IsFaultBeforeMemory, IsFaultOfOctets};

use crate::ecdsa_key::{EcdsaKey, is_public_key};
use crate::fault::KeyFault;
use crate::key::Key;
use crate::key_check::check_keys;
use crate::key_line::{Algorithm, first_line, is_skipped, name_of, octets_of, parts_of};
use hmac_keys::HmacKey;
use ndn_names::{Name, NameBuf};
use std::alloc::Global;
use std::marker::Model;
use std::str;

/// The greatest number of keys in a book.
pub(crate) const MAX_KEYS: usize = 256;

/// A key with its name.
#[derive(Drop)]
struct Entry {
    name: NameBuf,
    key: Key,
}

/// Returns the key with these octets, which are in line `number`. Returns `BadKey` if the octets
/// are not a key for the algorithm.
fn key_with(number: u64, algorithm: Algorithm, octets: Vec<u8>) -> Result<Key, KeyFault>
    ensures { let key = key_of algorithm octets.items in MatchResult result
        (λ made. (made ≡ key) × (is_usable key ≡ true))
        (λ fault. (is_usable key ≡ false) × (fault ≡ KeyFault.BadKey number)) }
{
    match algorithm {
        Algorithm::Hmac if is_public_key(&octets) => Err(KeyFault::BadKey(number)),
        Algorithm::Hmac => Ok(Key::Hmac(HmacKey::new(octets))),
        Algorithm::Ecdsa => match EcdsaKey::new(octets) {
            Ok(key) => Ok(Key::Ecdsa(key)),
            Err(_) => Err(KeyFault::BadKey(number)),
        },
    }
}

impl Entry {
    ghost use Rattle.std.specs.Prelude.{◌≡◌, Ok, MatchResult};
    ghost use Rattle.key_files.specs.KeyReading.{line_key, IsFaultOf};

    /// Reads the key in line `number`, which is not skipped. Returns the fault of the line if it
    /// has one, and `Memory` if memory runs out.
    fn read(alloc: Global, number: u64, line: &str) -> Result<Entry, KeyFault>
        ensures { MatchResult result
            (λ entry. line_key number line.now ≡ Ok (entry.name, entry.key))
            (IsFaultOf (line_key number line.now)) }
    {
        let Some(((algorithm, uri), digits)) = parts_of(line) else {
            return Err(KeyFault::BadLine(number));
        };
        let name = name_of(alloc, number, uri)?;
        let octets = octets_of(alloc, number, digits)?;
        let key = key_with(number, algorithm, octets)?;
        Ok(Entry { name, key })
    }
}

/// A collection of at most 256 keys. No two of them have the same name.
#[derive(Drop)]
pub struct KeyBook {
    keys: Vec<Entry>,
}

impl Model for KeyBook {
    ghost use Rattle.std.specs.Prelude.{List, length, ◌≤◌};
    ghost use Rattle.key_files.specs.KeyFile.{NamedKey, AreApart};

    ghost Value = { List NamedKey };

    ghost use Rattle.key_files.specs.Shown.{named_keys};

    ghost view = { λ book. named_keys book.keys.items };

    ghost invariant = { λ book. AreApart (named_keys book.keys.items)
        × (length (named_keys book.keys.items) ≤ 256) };
}

impl KeyBook {
    ghost use Rattle.std.specs.Prelude.{◌≡◌, ◌⊎◌, ℕ, Ok, IfOk, IfErr, IsErrOf, MatchOption, MatchResult, IsTrue, ◌↔◌, List, [], length};
    ghost use Rattle.ndn_names.specs.View.{components};
    ghost use Rattle.key_files.specs.KeyFile.{NamedKey, KeysOf, IsAmong};
    ghost use Rattle.key_files.specs.KeyReading.{keys_in, after_line, with_key, IsFaultOf};

    /// Returns a book without keys.
    pub fn new(alloc: Global) -> KeyBook
        ensures { result ≡ [] }
    {
        KeyBook {
            keys: Vec::new(alloc),
        }
    }

    /// Reads a key file of at most 256 keys. The lines of the file are separated by LF. The line of
    /// a secret for HMAC is the URI of a nonempty name, a space, and 1 to 256 octets in hexadecimal
    /// digits of either case. In the line of a public key for ECDSA, a space and the word
    /// `ecdsa-p256` come after the URI, and the octets are those of `EcdsaKey::new`. The last space
    /// of the line comes before the digits, and the URI is read as by `NameBuf::from_uri`. A CR is
    /// an ordinary character of a line, and does not end the line. Empty lines, and lines that begin
    /// with `;`, are skipped, but line numbers count them.
    ///
    /// If the file has a fault, returns the fault of the first faulty line, and no keys: see
    /// `KeyFault`. Two names are the same if their components are the same, even if the spellings
    /// of their URIs differ. `Memory` is returned only if the text has no fault.
    pub fn read(alloc: Global, text: &str) -> Result<KeyBook, KeyFault>
        // The text is a key file with exactly the returned keys.
        ensures found { IfOk result (KeysOf text.now) }
        // If the text is a key file, its keys are returned, unless memory runs out.
        ensures only { (keys : List NamedKey) → KeysOf text.now keys
            → (result ≡ Ok keys) ⊎ IsErrOf result KeyFault.Memory }
        // A returned fault is the first fault of the text, or `Memory`.
        ensures fault { IfErr result (IsFaultOf (keys_in text.now)) }
        // `Memory` is returned only if the whole text is valid.
        ensures memory { IfErr result (λ fault. fault ≡ KeyFault.Memory
            → (keys : List NamedKey) × KeysOf text.now keys) }
    {
        read_keys(alloc, text)
    }

    /// Reads the keys in the octets of a key file. Returns `BadLine(0)` if the octets are not
    /// UTF-8. `Memory` is returned only if the text has no fault.
    #[tactic(auto, using(crate::proofs::Files::found))]
    pub fn read_octets(alloc: Global, octets: &[u8]) -> Result<KeyBook, KeyFault>
        ensures { MatchResult result (AreKeys octets.now) (IsFaultOfOctets octets.now) }
    {
        let Ok(text) = str::from_utf8(octets) else {
            return Err(KeyFault::BadLine(0));
        };
        read_keys(alloc, text)
    }

    /// Returns the keys in the lines of `text`, or the first fault of the lines, or `Memory` if
    /// memory runs out first.
    fn read_lines(alloc: Global, text: &str) -> Result<KeyBook, KeyFault>
        ensures { MatchResult result (λ book. keys_in text.now ≡ Ok book)
            (IsFaultOf (keys_in text.now)) }
    {
        let mut book = KeyBook::new(alloc);
        let mut rest = text;
        let mut number = 0;
        while !rest.is_empty() {
            let (line, after) = first_line(rest);
            number += 1;
            book.add_line(alloc, number, line)?;
            rest = after;
        }
        Ok(book)
    }

    /// Adds the key of line `number`, if the line is not skipped. Returns the line's fault if the
    /// line is faulty, and `Memory` if memory runs out.
    fn add_line(&mut self, alloc: Global, number: u64, line: &str) -> Result<(), KeyFault>
        ensures { MatchResult result (λ _. after_line number self.old line.now ≡ Ok self.new)
            (IsFaultOf (after_line number self.old line.now)) }
    {
        if is_skipped(line) {
            return Ok(());
        }
        let entry = Entry::read(alloc, number, line)?;
        self.add(number, entry)
    }

    /// Adds the key of line `number`. Returns `TwiceNamed` if the book has a key with the same
    /// name, `TooMany` if the book already has 256 other keys, and `Memory` if memory runs out.
    fn add(&mut self, number: u64, entry: Entry) -> Result<(), KeyFault>
        ensures { let next = with_key number self.old (entry.name, entry.key) in
            MatchResult result (λ _. next ≡ Ok self.new) (IsFaultOf next) }
    {
        if self.key(entry.name.view()).is_some() {
            return Err(KeyFault::TwiceNamed(number));
        }
        if self.len() == MAX_KEYS {
            return Err(KeyFault::TooMany);
        }
        self.keys.push(entry)?;
        Ok(())
    }

    /// Returns the octets of the secret with exactly this name. Returns `None` if the book has no
    /// such key, or if this key is public. Nothing is allocated.
    pub fn find(&self, name: Name<'_>) -> Option<&[u8]>
        ensures { MatchOption result
            ((octets : List ℕ) → IsAmong (components name.entry, Key.Hmac octets) self.now → ⊥)
            (λ octets. IsAmong (components name.entry, Key.Hmac octets.now) self.now) }
    {
        match key_named(&self.keys, name) {
            Some(Key::Hmac(key)) => Some(key.octets()),
            Some(Key::Ecdsa(_)) => None,
            None => None,
        }
    }

    /// Returns the public key with exactly this name. Returns `None` if the book has no such key, or
    /// if this key is a secret. Nothing is allocated.
    pub fn find_ecdsa(&self, name: Name<'_>) -> Option<&EcdsaKey>
        ensures { MatchOption result
            ((octets : List ℕ) → IsAmong (components name.entry, Key.Ecdsa octets) self.now → ⊥)
            (λ key. IsAmong (components name.entry, Key.Ecdsa key.now) self.now) }
    {
        match key_named(&self.keys, name) {
            Some(Key::Ecdsa(key)) => Some(key),
            Some(Key::Hmac(_)) => None,
            None => None,
        }
    }

    /// Returns the key with exactly this name, or `None` if the book has no such key. Nothing is
    /// allocated.
    pub fn key(&self, name: Name<'_>) -> Option<&Key>
        ensures { MatchOption result
            ((key : Key) → IsAmong (components name.entry, key) self.now → ⊥)
            (λ key. IsAmong (components name.entry, key.now) self.now) }
    {
        key_named(&self.keys, name)
    }

    /// Returns the number of keys, at most 256. The clause `apart` of the contract states that no
    /// two keys of the book have the same name.
    pub fn len(&self) -> usize
        ensures exact { result ≡ length self.now }
        ensures apart { AreApart self.now }
    {
        self.keys.len()
    }

    /// Returns whether the book has no keys.
    pub fn is_empty(&self) -> bool
        ensures { IsTrue result ↔ (self.now ≡ []) }
    {
        self.keys.is_empty()
    }
}

/// Returns the first key with exactly this name, or `None` if there is none.
fn key_named<'a>(entries: &'a [Entry], name: Name<'_>) -> Option<&'a Key>
    ensures { MatchOption result
        ((key : Key) → IsAmong (components name.entry, key) (named_keys entries.now) → ⊥)
        (λ key. IsAmong (components name.entry, key.now) (named_keys entries.now)) }
{
    for entry in entries {
        if entry.name.view().compare(name).is_eq() {
            return Some(&entry.key);
        }
    }
    None
}

/// Reads the keys in the lines of `text`. If memory runs out, the lines are read once more without
/// allocation, so that a fault in the lines is reported instead of `Memory`.
fn read_keys(alloc: Global, text: &str) -> Result<KeyBook, KeyFault>
    ensures { MatchResult result (λ book. keys_in text.now ≡ Ok book)
        (IsFaultBeforeMemory (keys_in text.now)) }
{
    match KeyBook::read_lines(alloc, text) {
        Ok(book) => Ok(book),
        Err(KeyFault::Memory) => {
            check_keys(text)?;
            Err(KeyFault::Memory)
        }
        Err(fault) => Err(fault),
    }
}

/// Law: a text is a key file of at most one list of keys. For a key file, `keys_in` returns the
/// keys. For any other text, `keys_in` returns the fault of the first faulty line.
pub fn key_files_have_one_reading()
    ensures exact { (text : List ℕ) (keys : List NamedKey) → (keys_in text ≡ Ok keys)
        ↔ KeysOf text keys }
    ensures one { (text : List ℕ) (a b : List NamedKey) → KeysOf text a → KeysOf text b → a ≡ b }
    ensures fault { (text : List ℕ) (fault : KeyFault) → (keys_in text ≡ Err fault)
        ↔ FirstFault text fault }
{}
