//! A scenario: the parts of a node, a script, and the answers that the node must give.
ghost use Rattle.std.specs.Prelude.{◌≡◌, [], ◌∷◌, ◌++◌, codes, IfOk, OnOk};
ghost use Rattle.scenarios.specs.Words.{spelled};
ghost use Rattle.scenarios.specs.Lines.{answer_part, script_part, is_answer as is_answer_line};

use crate::words::{Word, put_spelled};
use ndn_tlv::Memory;
use std::alloc::Global;

/// A scenario. `section` names the section of the standard. `rules` has the octets of the rule file
/// and `keys` those of the key file. `repo` is the URI of the repository's prefix, and `cache` is
/// the capacity of the cache. `script` has the lines of the script, and `answers` has the lines of
/// the expected answers, each with its LF.
#[derive(Drop)]
pub struct Scenario {
    pub name: Vec<u8>,
    pub section: Vec<u8>,
    pub rules: Vec<u8>,
    pub keys: Vec<u8>,
    pub repo: Vec<u8>,
    pub cache: u32,
    pub script: Vec<u8>,
    pub answers: Vec<u8>,
}

/// Returns whether a line of a scenario is the line of an answer: whether it begins with a digit,
/// with `>` or with `!`.
pub fn is_answer(line: &[u8]) -> bool
    ensures { result ≡ is_answer_line line.now }
{
    match line.first() {
        Some(octet) => matches!(*octet, b'0'..=b'9' | b'>' | b'!'),
        None => false,
    }
}

impl Scenario {
    /// Returns a scenario without section, rules, keys, lines and answers. Its repository has the
    /// prefix `/repo`, and its cache holds 1,024 Data.
    pub fn new(alloc: Global, name: &[u8]) -> Result<Scenario, Memory>
        ensures name { IfOk result (λ s. s.name.items ≡ name.now) }
        ensures section { IfOk result (λ s. s.section.items ≡ []) }
        ensures node { IfOk result (λ s. (s.rules.items ≡ []) × (s.keys.items ≡ [])
            × (s.repo.items ≡ codes "/repo") × (s.cache ≡ 1024)) }
        ensures lines { IfOk result (λ s. (s.script.items ≡ []) × (s.answers.items ≡ [])) }
    {
        Ok(Scenario {
            name: Vec::from_slice(alloc, name)?,
            section: Vec::new(alloc),
            rules: Vec::new(alloc),
            keys: Vec::new(alloc),
            repo: Vec::from_slice(alloc, b"/repo")?,
            cache: 1024,
            script: Vec::new(alloc),
            answers: Vec::new(alloc),
        })
    }

    /// Adds a line of the script or of the answers, with each word replaced by its digits. If
    /// memory runs out, nothing is stated about the script and the answers.
    pub fn add_line(&mut self, words: &[Word], line: &[u8]) -> Result<(), Memory>
        ensures script { OnOk result (self.new.script.items
            ≡ self.old.script.items ++ script_part words.now line.now) }
        ensures answers { OnOk result (self.new.answers.items
            ≡ self.old.answers.items ++ answer_part words.now line.now) }
        ensures same { self.new ≡ record self.old
            { script = self.new.script; answers = self.new.answers } }
    {
        if is_answer(line) {
            put_line(&mut self.answers, words, line)
        } else {
            put_line(&mut self.script, words, line)
        }
    }
}

/// Appends a line with its LF, with each word replaced by its digits.
fn put_line(text: &mut Vec<u8>, words: &[Word], line: &[u8]) -> Result<(), Memory>
    ensures { OnOk result
        (text.new.items ≡ text.old.items ++ (spelled words.now line.now ++ (10 ∷ []))) }
{
    put_spelled(text, words, line)?;
    text.push(b'\n')?;
    Ok(())
}
