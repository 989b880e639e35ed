ghost use Rattle.std.specs.Prelude.{IfOk, IfSome, IsTrue};
ghost use Rattle.journal_shortening.specs.Comparing.{HaveSameLastRules};
ghost use Rattle.journal_shortening.specs.Shortened.{AreEmptyParts, IsEmptyNode, AgreeOnEmptyNodes, AgreesWithEmptyNode, Shortens};

use crate::comparing::{have_same_last_rules, restores_same_tables};
use crate::fault::ShortenFault;
use crate::needed::{Needed, needed_lines, put_needed};
use forwarder::{Node, NodeFault, NodeParts};
use key_files::KeyBook;
use ndn_names::NameBuf;
use node_core::read_rules;
use std::alloc::Global;

/// The capacity of the cache of a node that only replays a journal, as a number of Data. The tables
/// that the journal restores do not depend on this capacity.
const CACHE: u32 = 1;

/// A shorter journal.
#[derive(Debug, Drop)]
pub struct ShorterJournal {
    /// The octets of the shorter journal.
    pub text: Vec<u8>,
    /// The number of whole lines of the original journal.
    pub lines: usize,
    /// The number of lines of the original journal that the shorter journal keeps.
    pub kept: usize,
}

/// Shortens the journal of a node whose repository has the prefix `repo`. Returns `None` if the
/// needed lines and a line `tick` together are not shorter than the whole journal, or do not
/// restore the same tables, rules and keys. Octets after the last LF are left out.
pub fn shortened(
    alloc: Global,
    repo: &NameBuf,
    journal: &[u8],
) -> Result<Option<ShorterJournal>, ShortenFault>
    ensures { IfOk result
        (λ made. IfSome made (λ shorter. Shortens repo.now journal.now shorter.text.items)) }
{
    let needed = needed_of(alloc, repo, journal)?;
    let mut text = Vec::new(alloc);
    put_needed(&mut text, journal, &needed)?;
    if text.len() >= journal.len() || !restores_same(alloc, repo, journal, &text)? {
        return Ok(None);
    }
    Ok(Some(ShorterJournal {
        text,
        lines: needed.lines.len(),
        kept: needed.lines.iter().filter(|is_needed| **is_needed).count(),
    }))
}

/// Returns whether two journals restore the same tables, rules and keys.
fn restores_same(
    alloc: Global,
    repo: &NameBuf,
    old: &[u8],
    new: &[u8],
) -> Result<bool, ShortenFault>
    ensures tables { IfOk result (λ same. IsTrue same → AgreeOnEmptyNodes repo.now old.now new.now) }
    ensures rules { IfOk result (λ same. IsTrue same → HaveSameLastRules old.now new.now) }
{
    if have_same_last_rules(alloc, old, new)? {
        restores_same_on_empty(alloc, repo, old, new)
    } else {
        Ok(false)
    }
}

// Each of the next three functions makes a node, lends it to one call, and returns the result of
// this call, so that the node is dropped in only one place.

/// Returns which lines of a journal, according to a survey, are needed to restore, on an empty
/// node, the tables that the whole journal restores, and the node's time after the replay
/// (`needed_lines`).
fn needed_of(alloc: Global, repo: &NameBuf, journal: &[u8]) -> Result<Needed, ShortenFault> {
    let mut node = empty_node(alloc, repo)?;
    needed_lines(alloc, &mut node, journal)
}

/// Returns whether two journals, each replayed on an empty node of its own, restore the same
/// tables.
fn restores_same_on_empty(
    alloc: Global,
    repo: &NameBuf,
    old: &[u8],
    new: &[u8],
) -> Result<bool, ShortenFault>
    ensures { IfOk result (λ same. IsTrue same → AgreeOnEmptyNodes repo.now old.now new.now) }
{
    let mut node = empty_node(alloc, repo)?;
    restores_same_on(alloc, repo, &mut node, old, new)
}

/// Returns whether the journal `new` restores on an empty node the tables that the journal `old`
/// restores on `node`.
fn restores_same_on(
    alloc: Global,
    repo: &NameBuf,
    node: &mut Node,
    old: &[u8],
    new: &[u8],
) -> Result<bool, ShortenFault>
    ensures { IfOk result (λ same. IsTrue same
        → AgreesWithEmptyNode repo.now old.now node.old node.new new.now) }
{
    let mut other = empty_node(alloc, repo)?;
    restores_same_tables(alloc, node, &mut other, old, new)
}

/// Returns an empty node: it has handled no event, and has no rules and no keys. The node gets its
/// rules and keys when the lines of a journal are replayed.
fn empty_node(alloc: Global, repo: &NameBuf) -> Result<Node, ShortenFault>
    ensures { IfOk result (λ node. IsEmptyNode repo.now node) }
{
    match Node::new(alloc, parts_of(alloc, repo)?) {
        Ok(node) => Ok(node),
        Err(NodeFault::BadRepoPrefix) => Err(ShortenFault::BadRepoPrefix),
        Err(_) => Err(ShortenFault::Memory),
    }
}

/// Returns the parts of an empty node. Since the empty rule file has no fault, the function fails
/// only if memory runs out.
fn parts_of(alloc: Global, repo: &NameBuf) -> Result<NodeParts, ShortenFault>
    ensures { IfOk result (λ parts. AreEmptyParts repo.now parts) }
{
    let Ok(rules) = read_rules(alloc, b"") else {
        return Err(ShortenFault::Memory);
    };
    Ok(NodeParts {
        rules,
        keys: KeyBook::new(alloc),
        repo: repo.try_clone(alloc)?,
        cache: CACHE,
    })
}
