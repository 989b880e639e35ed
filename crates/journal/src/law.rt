ghost use Rattle.std.specs.Prelude.{◌≡◌, ◌≤◌, ◌∷◌, ◌++◌, ℕ, List, Bool, false};
ghost use Rattle.key_files.specs.KeyFile.{AreApart, NamedKey};
ghost use Rattle.info_rules.specs.Rule.{PlainRule};
ghost use Rattle.forwarder.specs.Event.{PlainEvent, NewRules, Send, moment};
ghost use Rattle.forwarder.specs.Policy.{Policy, at_moment, with_rules};
ghost use Rattle.forwarder.specs.Effects.{IsAfter};
ghost use Rattle.forwarder.specs.Node.{NodeState, IsStep};
ghost use Rattle.forwarder.specs.Verdict.{Answer, Verdict};
ghost use Rattle.forwarder.specs.Runs.{Run, Then, IsPolicyOf, KeysAreApart, Stands};
ghost use Rattle.node_core.specs.Script.{IsScriptSoFar};
ghost use Rattle.journal.specs.Journalled.{is_journalled_by};
ghost use Rattle.journal.specs.Appending.{Steps};
ghost use Rattle.journal.specs.Text.{IsCutTextOf, IsTextOf, Survives};
ghost use Rattle.journal.specs.Journal.{AreOneFrom, IsJournalled, IsJournalOf, KeepsBeginning, events_of, with_event, with_moment};

/// Law: suppose that the keys of a policy have different names. Then the policy and the next event
/// determine whether the event is journalled. If the event is not journalled, its only effect on
/// the policy is the passage of time (`at_moment`).
pub fn other_events_bring_their_moments()
    ensures decided { (old : Policy) (event : PlainEvent) (a b : Bool) → AreApart old.keys
        → IsJournalled old event a → IsJournalled old event b → a ≡ b }
    ensures nothing { (old new : Policy) (event : PlainEvent) → AreApart old.keys
        → IsJournalled old event false → IsAfter old event new
        → new ≡ at_moment old (moment event) }
{}

/// Law: whether a step journals its event depends only on the kind of the event and on the verdict.
pub fn verdicts_say_what_is_journalled()
    ensures { (old new : NodeState) (event : PlainEvent) (answer : Answer)
        → IsStep old event answer new
        → IsJournalled old.policy event (is_journalled_by event answer.verdict) }
{}

/// Law: if a node agrees (`Stands`) with a run, and the event of the node's next step is
/// journalled, the step appends the event to the run's journal and the event's line to the
/// journal's text. The time of the appended event is the greater of the node's time and the event's
/// time. If the event is not journalled, the step appends nothing.
pub fn journals_grow_by_steps()
    ensures journal { (first : Policy) (past : Run) (old new : NodeState) (event : PlainEvent)
        (answer : Answer) (journal : List PlainEvent) → Stands first past old
        → IsStep old event answer new → IsJournalOf first past journal
        → let p = at_moment old.policy (moment event) in
        IsJournalOf first (Then past event answer)
        (with_event (is_journalled_by event answer.verdict)
        (with_moment p.now event) journal) }
    ensures text { (journal added : List PlainEvent) (text more : List ℕ) → IsTextOf journal text
        → IsTextOf added more → IsTextOf (journal ++ added) (text ++ more) }
    // Let a step extend a run. The text of the run's journal, followed by the text that the step
    // appends, is the text of the extended run's journal.
    ensures both { (first : Policy) (past : Run) (old new : NodeState) (event : PlainEvent)
        (verdict : Verdict) (sends : List Send) (journal : List PlainEvent) (text added : List ℕ)
        → Stands first past old → IsJournalOf first past journal → IsTextOf journal text
        → Steps old event verdict sends new added
        → (longer : List PlainEvent)
        × IsJournalOf first
        (Then past event (record { verdict = verdict; sends = sends })) longer
        × IsTextOf longer (text ++ added) }
{}

/// Law: a run that leads to a policy has a journal. If the keys of each key book in the run have
/// different names, the run has only one journal.
pub fn journals_are_one()
    ensures some { (first p : Policy) (past : Run) → IsPolicyOf first past p
        → (journal : List PlainEvent) × IsJournalOf first past journal }
    ensures one { (first : Policy) (past : Run) (a b : List PlainEvent) → KeysAreApart first past
        → IsJournalOf first past a → IsJournalOf first past b → a ≡ b }
{}

/// Law: let the events of the journal of a run `past` be replayed from the first policy of `past`.
/// From the latest time of `past` on, the policy after the replay is the same as the policy after
/// `past`. The replay is a run with the same journal, so this journal can be continued after the
/// replay. The keys of each key book in `past` must have different names.
pub fn journals_keep_policy()
    ensures policy { (first p q : Policy) (past again : Run) (journal : List PlainEvent)
        → KeysAreApart first past → IsPolicyOf first past p → IsJournalOf first past journal
        → events_of again ≡ journal → IsPolicyOf first again q → AreOneFrom p.now q p }
    ensures journal { (first p : Policy) (past again : Run) (journal : List PlainEvent)
        → KeysAreApart first past → IsPolicyOf first past p → IsJournalOf first past journal
        → events_of again ≡ journal → IsJournalOf first again journal }
    // The replay leads to a policy.
    ensures some { (first p : Policy) (past again : Run) (journal : List PlainEvent)
        → KeysAreApart first past → IsPolicyOf first past p → IsJournalOf first past journal
        → events_of again ≡ journal → (q : Policy) × IsPolicyOf first again q }
    // The next event has the same effect after the replay as after the run, if the event's time is
    // not before the run's latest time.
    ensures next { (p q r : Policy) (event : PlainEvent) → AreOneFrom p.now q p
        → p.now ≤ moment event → IsAfter p event r → IsAfter q event r }
{}

/// Law: if the first event of a run brings new rules and keys, the policy after the run does not
/// depend on the rules and keys before this event. The replay of a journal that begins with new
/// rules therefore does not depend on the rules and keys that the node was created with. The node
/// that replays the journal must have the same repository prefix as the node that wrote the
/// journal.
pub fn rules_at_the_start_are_the_first()
    ensures { (first q : Policy) (r rules : List PlainRule) (k keys : List NamedKey) (now : ℕ)
        (again : Run) (rest : List PlainEvent) → events_of again ≡ NewRules rules keys now ∷ rest
        → IsPolicyOf (with_rules first r k) again q → IsPolicyOf first again q }
{}

/// Law: if a crash leaves a prefix of the events of a run's journal, the events that are left are
/// the journal of a prefix `part` of the run. From the latest time of `part` on, a replay of the
/// events that are left leads to the policy after `part`. If the whole journal of a prefix of the
/// run is left, that prefix of the run is also a prefix of `part`. The keys of each key book in the
/// run must have different names.
pub fn crashes_leave_a_beginning()
    ensures { (first p : Policy) (past : Run) (journal left lost : List PlainEvent)
        → KeysAreApart first past → IsPolicyOf first past p → IsJournalOf first past journal
        → journal ≡ left ++ lost → KeepsBeginning first past left }
{}

/// Law: let a text consist of the lines of some events and then octets without an LF. A crash may
/// leave such a text in a journal. As lines of a script, the whole lines of the text spell exactly
/// these events, and no other list of events.
pub fn journal_texts_have_one_reading()
    ensures script { (text : List ℕ) (events : List PlainEvent) → IsCutTextOf events text
        → IsScriptSoFar text events }
    ensures one { (text : List ℕ) (a b : List PlainEvent) → IsCutTextOf a text
        → IsScriptSoFar text b → a ≡ b }
{}

/// Law: if a crash leaves a prefix of the text of a run's journal, the whole lines that are left
/// spell the journal of a prefix of the run. The keys of each key book in the run must have
/// different names. If `synced` of a `JournalFile` is `None`, as for a file of the operating
/// system, the content after a crash is not specified.
pub fn journals_survive_crashes()
    ensures { (first p : Policy) (past : Run) (journal : List PlainEvent) (text left lost : List ℕ)
        → KeysAreApart first past → IsPolicyOf first past p → IsJournalOf first past journal
        → IsTextOf journal text → text ≡ left ++ lost → Survives first past left }
{}
