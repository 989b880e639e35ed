ghost use Rattle.std.specs.Prelude.{◌↔◌, ℕ, List, Option};
ghost use Rattle.replay_guard.specs.Freshness.{Signer, Recorded, Fresh};
ghost use Rattle.replay_guard.specs.Guard.{table_of, IsFresh};

/// Law: a command is fresh according to the recorded state of its signer exactly if the command is
/// fresh according to the list of all recorded commands.
pub fn freshness_is_read_off_the_past()
    ensures { (past : List Recorded) (signer : Signer) (time : ℕ) (number : Option ℕ) (now : ℕ)
        → IsFresh (table_of past) signer time number now ↔ Fresh past signer time number now }
{}
