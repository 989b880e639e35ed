//! Reads the entries of a text.

ghost use Rattle.std.specs.Prelude.{◌≡◌, ◌≢◌, ◌≤◌, ◌↔◌, ℕ, List, Ok, Err, IfOk, MatchResult, length, map};
ghost use Rattle.info_rules.specs.Tree.{PlainEntry, blocks_of};
ghost use Rattle.info_rules.specs.TreeGrammar.{Nodes, TreeOf, keyed, outline};
ghost use Rattle.info_rules.specs.TreeReading.{IsTreeFaultOf, entries_in, tree_in};
ghost use Rattle.info_rules.specs.FaultPlace.{StandsAt};
ghost use Rattle.info_rules.specs.Faults.{memory_fault};
ghost use Rattle.info_rules.specs.Shown.{entry_of};

use crate::entry::Entry;
use crate::fault::{RulesFault, RulesFaultKind};
use crate::tree::InfoTree;
use crate::tree_draft::Draft;
use crate::words::{end_line, first_token};
use std::alloc::Global;

/// The greatest length of a text, in octets.
const MAX_LEN: usize = 65536;

/// Reads the entries of a text of at most 65,536 octets.
fn read_entries(alloc: Global, text: &str) -> Result<Vec<Entry>, RulesFault>
    requires { length text.now ≤ 65536 }
    ensures { MatchResult result (λ entries. entries_in text.now ≡ Ok (map entry_of entries.items))
        (IsTreeFaultOf (entries_in text.now)) }
{
    let mut draft = Draft::new(alloc);
    let mut line = 1;
    let mut rest = text;
    while let Some(found) = first_token(line, rest) {
        draft.add_token(alloc, found.line, found.token)?;
        line = found.line;
        rest = found.rest;
    }
    draft.finish(end_line(text))
}

/// Reads the entries of a text.
#[tactic(auto, unfolding(crate::specs::TreeReading::tree_in))]
fn read_tree(alloc: Global, text: &str) -> Result<InfoTree, RulesFault>
    ensures { MatchResult result (λ tree. tree_in text.now ≡ Ok tree)
        (IsTreeFaultOf (tree_in text.now)) }
{
    if text.len() > MAX_LEN {
        return Err(RulesFaultKind::TooLarge.at(0));
    }
    let entries = read_entries(alloc, text)?;
    Ok(InfoTree { entries })
}

impl InfoTree {
    /// Reads the entries of a rule file. The text must have at most 65,536 octets, and must be in
    /// the validator configuration format of ndn-cxx (boost's INFO format without directives).
    ///
    /// An unquoted word ends before a space, a tab, a CR, an LF or a semicolon, or at the end of
    /// the text. An unquoted word that is only `{` or only `}` is a brace. Outside quotes, a
    /// semicolon begins a comment that ends with its line. A word that begins with `"` is quoted:
    /// it ends at the next `"` that has no backslash directly before it. This closing quote must be
    /// on the line of the opening quote. In words, quoted or not, `\\` means a backslash and `\"` a
    /// quote. An entry is a key, at most one value on the key's line, and at most one block of
    /// entries between braces. The opening brace may be on a later line. On the line where an entry
    /// ends, only a comment or the closing brace of the enclosing block may follow the entry.
    ///
    /// On failure, returns the first fault of the text. A word or a brace at a place where it is
    /// not allowed has the fault `Syntax`. A quote that is not closed on its line also has the
    /// fault `Syntax`. A block that is not closed has the fault `Syntax` at the line where the text
    /// ends. A block inside eight others has the fault `TooDeep`, or `Syntax` if the line of the
    /// block's opening brace also has a `Syntax` fault. A text of more than 65,536 octets has the
    /// fault `TooLarge`, whatever other faults the text has. `Memory` may be returned for any text.
    pub fn read(alloc: Global, text: &str) -> Result<InfoTree, RulesFault>
        // The text spells the entries that are returned.
        ensures found { IfOk result (TreeOf text.now) }
        // If the text spells entries, those entries are returned, unless memory runs out.
        ensures only { (entries : List PlainEntry) → TreeOf text.now entries
            → MatchResult result (λ tree. tree ≡ entries) (λ fault. fault ≡ memory_fault) }
        // The returned fault is the one that `tree_in` returns, or `Memory`.
        ensures exact { MatchResult result (λ tree. tree_in text.now ≡ Ok tree)
            (IsTreeFaultOf (tree_in text.now)) }
    {
        read_tree(alloc, text)
    }
}

/// Law: a text spells at most one list of entries, the one that `tree_in` returns.
pub fn trees_have_one_reading()
    ensures exact { (text : List ℕ) (entries : List PlainEntry) → (tree_in text ≡ Ok entries)
        ↔ TreeOf text entries }
    ensures one { (text : List ℕ) (a b : List PlainEntry) → TreeOf text a → TreeOf text b → a ≡ b }
{}

/// Law: `outline` lists the entries of a block, with the entries of all blocks inside this block.
/// From that list, `blocks_of` returns the keys of the block, each with the entries of the key's
/// own block.
pub fn outlines_keep_blocks()
    ensures { (depth : ℕ) (nodes : Nodes) → blocks_of depth (outline depth nodes)
        ≡ keyed depth nodes }
{}

/// Law: every fault that `tree_in` returns, except `TooLarge`, is on a line of the text. The lines
/// before the line of the fault are a prefix of some text, of any length, that spells entries. If
/// the line of the fault ends with an LF, the text up to and including this LF is not a prefix of
/// any text that spells entries.
pub fn faults_stand_at_their_line()
    ensures { (text : List ℕ) (fault : RulesFault) → tree_in text ≡ Err fault
        → fault.kind ≢ RulesFaultKind.TooLarge → StandsAt text fault.line }
{}
