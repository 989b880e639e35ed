//! The entries of a text while it is being read.

ghost use Rattle.std.specs.Prelude.{◌≡◌};
ghost use Rattle.info_rules.specs.TreeReading as read;

use crate::entry::Entry;
use crate::fault::{RulesFault, RulesFaultKind};
use crate::unescape::unescaped;
use crate::words::Token;
use std::alloc::Global;

/// The greatest number of blocks that may be open at once.
const MAX_DEPTH: usize = 8;

/// The outcome of adding a token. `Err` is the first fault of the text, or `Memory`.
type Added = Result<(), RulesFault>;

/// Returns the fault of the block that is inside eight others. `deep` is the line of the block's
/// opening brace, or `None` if there is no such block. Returns `None` if `deep` is `None`, or if
/// the opening brace is on `line`.
fn deep_before(deep: Option<u32>, line: u32) -> Option<RulesFault>
    ensures { result ≡ read.deep_before deep line }
{
    match deep {
        Some(deep) if deep != line => Some(RulesFaultKind::TooDeep.at(deep)),
        _ => None,
    }
}

/// The state after reading the first tokens of a text.
#[derive(Drop)]
pub struct Draft {
    /// The finished entries.
    pub ended: Vec<Entry>,
    /// The entry whose key or value is the last token that was read, if this token is a word.
    pub pending: Option<Entry>,
    /// The number of open blocks.
    pub depth: usize,
    /// The line of the last brace that closed a block, if no block was opened after this brace.
    pub closed: Option<u32>,
    /// The line of the brace that opened a block inside eight others, if there is such a block.
    pub deep: Option<u32>,
}

impl Draft {
    ghost use Rattle.std.specs.Prelude.{◌≡◌, ◌+◌, ◌<◌, ◌≤◌, ◌^◌, Ok, Err, MatchOption, MatchResult, map, string_bytes};
    ghost use Rattle.std.specs.Option.{option_map};
    ghost use Rattle.info_rules.specs.TreeReading as read;
    ghost use Rattle.info_rules.specs.TreeReading.{IsTreeFaultOf};
    ghost use Rattle.info_rules.specs.Faults.{memory_fault};
    ghost use Rattle.info_rules.specs.Shown.{entry_of, token_of, draft_of};

    /// Returns a draft without entries.
    pub fn new(alloc: Global) -> Draft
        ensures { draft_of result ≡ read.begun }
    {
        Draft {
            ended: Vec::new(alloc),
            pending: None,
            depth: 0,
            closed: None,
            deep: None,
        }
    }

    /// Moves the pending entry, if there is one, to the end of the finished entries.
    fn end_entry(&mut self) -> Added
        ensures { MatchResult result (λ _. draft_of self.new ≡ read.with_ended (draft_of self.old))
            (λ fault. fault ≡ memory_fault) }
    {
        if let Some(entry) = self.pending.take() {
            self.ended.push(entry)?;
        }
        Ok(())
    }

    /// Adds a word as the key of a new entry.
    fn add_key(&mut self, alloc: Global, line: u32, word: &str) -> Added
        ensures { MatchResult result
            (λ _. draft_of self.new ≡ read.with_key (draft_of self.old) line word.now)
            (λ fault. fault ≡ memory_fault) }
    {
        self.end_entry()?;
        let key = unescaped(alloc, word)?;
        self.pending = Some(Entry {
            depth: self.depth,
            line,
            key,
            value: None,
            has_block: false,
        });
        Ok(())
    }

    /// Adds a word as the value of `entry`, the pending entry, whose key is on the same line.
    fn add_value(&mut self, alloc: Global, line: u32, word: &str, entry: Entry) -> Added
        ensures { let next = read.with_value (draft_of self.old) line word.now (entry_of entry)
            (option_map string_bytes entry.value) in
            MatchResult result (λ _. next ≡ Ok (draft_of self.new)) (IsTreeFaultOf next) }
    {
        if entry.value.is_some() {
            return Err(RulesFaultKind::Syntax.at(line));
        }
        let mut entry = entry;
        entry.value = Some(unescaped(alloc, word)?);
        self.pending = Some(entry);
        Ok(())
    }

    /// Adds a word. If the key of the pending entry is on the same line, the word is the value of
    /// that entry; a second value is a syntax fault. Otherwise the word is the key of a new entry;
    /// a key that follows a closing brace on the same line is a syntax fault.
    fn add_word(&mut self, alloc: Global, line: u32, word: &str) -> Added
        ensures { let next = read.with_word (draft_of self.old) line word.now
            (option_map entry_of self.old.pending) in
            MatchResult result (λ _. next ≡ Ok (draft_of self.new)) (IsTreeFaultOf next) }
    {
        match self.pending.take() {
            Some(entry) if entry.line == line => return self.add_value(alloc, line, word, entry),
            Some(entry) => self.ended.push(entry)?,
            None if self.closed == Some(line) => return Err(RulesFaultKind::Syntax.at(line)),
            None => {}
        }
        self.add_key(alloc, line, word)
    }

    /// Opens a block in the pending entry.
    fn open_block(&mut self, line: u32) -> Added
        requires { self.old.depth + 1 < 2 ^ 64 }
        ensures { let next = read.with_open (draft_of self.old) line
            (option_map entry_of self.old.pending) in
            MatchResult result (λ _. next ≡ Ok (draft_of self.new)) (IsTreeFaultOf next) }
    {
        let Some(mut entry) = self.pending.take() else {
            return Err(RulesFaultKind::Syntax.at(line));
        };
        entry.has_block = true;
        self.ended.push(entry)?;
        if self.depth >= MAX_DEPTH {
            self.deep = Some(line);
        }
        self.depth += 1;
        self.closed = None;
        Ok(())
    }

    /// Closes the innermost block.
    fn close_block(&mut self, line: u32) -> Added
        ensures { let next = read.with_close (draft_of self.old) line in
            MatchResult result (λ _. next ≡ Ok (draft_of self.new)) (IsTreeFaultOf next) }
    {
        if self.depth == 0 {
            return Err(RulesFaultKind::Syntax.at(line));
        }
        self.end_entry()?;
        self.depth -= 1;
        self.closed = Some(line);
        Ok(())
    }

    /// Adds the next token, which is on `line`.
    pub fn add_token(&mut self, alloc: Global, line: u32, token: Token<'_>) -> Added
        requires { self.old.depth + 1 < 2 ^ 64 }
        ensures { let next = read.with_token (draft_of self.old) line (token_of token.entry) in
            MatchResult result (λ _. next ≡ Ok (draft_of self.new)) (IsTreeFaultOf next) }
    {
        if let Some(fault) = deep_before(self.deep, line) {
            return Err(fault);
        }
        match token {
            Token::Word(word) => self.add_word(alloc, line, word),
            Token::Open => self.open_block(line),
            Token::Close => self.close_block(line),
            Token::Broken => Err(RulesFaultKind::Syntax.at(line)),
        }
    }

    /// Returns the fault, if any, of a text that ends on `line` after the tokens of this draft.
    fn end_fault(&self, line: u32) -> Option<RulesFault>
        ensures { let whole = read.whole_of line (draft_of self.now) in
            MatchOption result (whole ≡ Ok (read.entries_of (draft_of self.now)))
            (λ fault. whole ≡ Err fault) }
    {
        match self.deep {
            Some(deep) if deep != line || self.depth == 0 => {
                Some(RulesFaultKind::TooDeep.at(deep))
            }
            _ => (self.depth > 0).then_some(RulesFaultKind::Syntax.at(line)),
        }
    }

    /// Returns the entries of a text that ends on `line` after the tokens of this draft.
    pub fn finish(self, line: u32) -> Result<Vec<Entry>, RulesFault>
        ensures { let whole = read.whole_of line (draft_of self) in
            MatchResult result (λ entries. whole ≡ Ok (map entry_of entries.items))
            (IsTreeFaultOf whole) }
    {
        if let Some(fault) = self.end_fault(line) {
            return Err(fault);
        }
        let mut draft = self;
        draft.end_entry()?;
        Ok(draft.ended)
    }
}
