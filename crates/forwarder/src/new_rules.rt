//! The replacement of rules and keys.
ghost use Rattle.std.specs.Prelude.{[]};
ghost use Rattle.key_files.specs.KeyFile.{AreApart};
ghost use Rattle.forwarder.specs.Event.{NewRules};
ghost use Rattle.forwarder.specs.Node.{IsStep};
ghost use Rattle.forwarder.specs.State.{state_of};
ghost use Rattle.forwarder.specs.Verdict.{verdict_of};

use crate::state::State;
use crate::verdict::Verdict;
use info_rules::Rules;
use key_files::KeyBook;

impl State {
    /// Advances time to the moment `now`, and then puts these rules and keys in force. Nothing else
    /// changes.
    pub fn replace_rules(&mut self, rules: Rules, keys: KeyBook, now: u64) -> Verdict
        ensures step { IsStep (state_of self.old) (NewRules rules keys now)
            (record { verdict = verdict_of result; sends = [] }) (state_of self.new) }
        // No two keys have the same name; this is true of every key book.
        ensures apart { AreApart keys }
    {
        self.pass_time(now);
        self.rules = rules;
        self.keys = keys;
        // The call of `KeyBook::len` makes its clauses, which are true of every key book, available
        // to the proof.
        prove!(self.keys.len() <= usize::MAX);
        Verdict::Passed
    }
}
