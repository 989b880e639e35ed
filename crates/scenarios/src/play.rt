//! Plays the script of a scenario on a new node.
ghost use Rattle.std.specs.Prelude.{◌≡◌, ◌++◌, IfOk, IfSome, OnOk};
ghost use Rattle.key_files.specs.KeyReading.{AreKeys};
ghost use Rattle.ndn_names.specs.ReadsAs.{ReadsAs};
ghost use Rattle.forwarder.specs.Parts.{first_node, parts_fault};
ghost use Rattle.node_core.specs.Files.{AreRules};
ghost use Rattle.scenarios.specs.Outcome.{AreAnswers, AreAnswersTo, bad_line};

use crate::scenario::Scenario;
use itoa::Buffer;
use key_files::KeyBook;
use ndn_names::NameBuf;
use ndn_tlv::Memory;
use node_core::{NodeParts, RunFault, read_rules, run_script};
use std::alloc::Global;
use std::str;
use thiserror::Error;

/// Why a scenario could not be played.
#[derive(Clone, Copy, Debug, PartialEq, Eq, Error)]
pub enum PlayFault {
    #[error("a node cannot be made from the rules, keys, prefix and capacity of a scenario")]
    Parts,
    #[error("out of memory")]
    Memory,
}

/// Appends the line for a script whose line `number` is the first bad line.
fn put_bad_line(text: &mut Vec<u8>, number: u64) -> Result<(), Memory>
    ensures { OnOk result (text.new.items ≡ text.old.items ++ bad_line number) }
{
    text.extend_from_slice(b"! script:")?;
    text.extend_from_slice(Buffer::new().format(number).as_bytes())?;
    text.extend_from_slice(b": bad line\n")?;
    Ok(())
}

/// Plays a script on a new node with these parts, and returns the answers.
fn answers_to(alloc: Global, parts: NodeParts, script: &[u8]) -> Result<Vec<u8>, PlayFault>
    ensures answers { IfOk result (λ answers.
        AreAnswers (first_node parts.rules parts.keys parts.repo parts.cache)
        script.now answers.items) }
    ensures valid { OnOk result (parts_fault parts.repo parts.cache ≡ None) }
{
    let mut answers = Vec::new(alloc);
    let mut unread = script;
    match run_script(alloc, &mut unread, &mut answers, parts) {
        Ok(()) => Ok(answers),
        Err(RunFault::BadLine(number)) => match put_bad_line(&mut answers, number) {
            Ok(()) => Ok(answers),
            Err(Memory) => Err(PlayFault::Memory),
        },
        Err(RunFault::Node(_)) => Err(PlayFault::Parts),
        Err(_) => Err(PlayFault::Memory),
    }
}

/// Returns the parts of a scenario's node.
fn parts_of(alloc: Global, scenario: &Scenario) -> Option<NodeParts>
    ensures rules { IfSome result (λ parts. AreRules scenario.now.rules.items parts.rules) }
    ensures keys { IfSome result (λ parts. AreKeys scenario.now.keys.items parts.keys) }
    ensures repo { IfSome result (λ parts. ReadsAs scenario.now.repo.items parts.repo) }
    ensures cache { IfSome result (λ parts. parts.cache ≡ scenario.now.cache) }
{
    let rules = read_rules(alloc, scenario.rules.as_slice()).ok()?;
    let keys = KeyBook::read_octets(alloc, scenario.keys.as_slice()).ok()?;
    let repo = str::from_utf8(scenario.repo.as_slice()).ok()?;
    let repo = NameBuf::from_uri(alloc, repo).ok()?;
    Some(NodeParts {
        rules,
        keys,
        repo,
        cache: scenario.cache,
    })
}

/// Plays the script of a scenario on a new node, and returns the answers.
pub fn played(alloc: Global, scenario: &Scenario) -> Result<Vec<u8>, PlayFault>
    ensures { IfOk result (λ answers. AreAnswersTo scenario.now answers.items) }
{
    let Some(parts) = parts_of(alloc, scenario) else {
        return Err(PlayFault::Parts);
    };
    answers_to(alloc, parts, scenario.script.as_slice())
}
