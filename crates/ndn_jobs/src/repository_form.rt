//! The short forms of a repository's commands.

ghost use Rattle.std.specs.Prelude.{◌≡◌, ℕ, List, MatchResult, codes};
ghost use Rattle.ndn_jobs.specs.Value.{IsUsage, ReadsInMemory};
ghost use Rattle.ndn_jobs.specs.Options.{rows_in, value_at, Has};
ghost use Rattle.ndn_jobs.specs.RepositoryForm.{is_repository_verb, IsRepositoryVerb, IsRepositoryName};

use crate::fault::{ToolFault, refusal};
use crate::options;
use clap::ArgMatches;
use ndn_names::component_type::GENERIC;
use ndn_names::{NameBuf, NameFault};
use std::alloc::Global;

/// Returns the name of the command: the repository's prefix, followed by the verb as one component.
pub fn repository_name(alloc: Global, options: &ArgMatches<'_>) -> Result<NameBuf, ToolFault>
    ensures { ReadsInMemory (IsRepositoryName (rows_in options.now)) result }
{
    let verb = verb_in(options)?;
    let mut name = options::required_name(alloc, options, "PREFIX")?;
    match name.append(GENERIC, verb.as_bytes()) {
        Ok(()) => Ok(name),
        Err(fault) => match fault {
            NameFault::Memory => Err(ToolFault::Memory),
            _ => Err(refusal("PREFIX", "a name of at most 63 components")),
        },
    }
}

/// Returns the verb that the options spell: `insert`, `delete` or `check`. Any other verb is
/// refused.
fn verb_in<'a>(options: &ArgMatches<'a>) -> Result<&'a str, ToolFault>
    ensures { let said = value_at (rows_in options.now) (codes "VERB") in MatchResult result
        (λ verb. Has said IsRepositoryVerb verb.now)
        (λ why. IsUsage why × ((verb : List ℕ) → Has said IsRepositoryVerb verb → ⊥)) }
{
    let verb = options::required(options, "VERB")?;
    if !is_repository_verb(verb) {
        return Err(refusal("VERB", "insert, delete or check"));
    }
    Ok(verb)
}

fn is_repository_verb(word: &str) -> bool
    ensures { result ≡ is_repository_verb word.now }
{
    word == "insert" || word == "delete" || word == "check"
}
