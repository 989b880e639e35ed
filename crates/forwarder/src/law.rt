ghost use Rattle.std.specs.Prelude.{◌≡◌, ◌≢◌, ◌⊎◌, ◌↔◌, ◌<◌, ℕ, List, [], true, Some, All, Contains, Ok, max};
ghost use Rattle.std.specs.FinMap as map;
ghost use Rattle.key_files.specs.KeyFile.{AreApart, NamedKey};
ghost use Rattle.info_rules.specs.Rule.{PlainRule};
ghost use Rattle.forwarder.specs.Event.{PlainEvent};
ghost use Rattle.forwarder.specs.Headline.{Headline, IsNodeRun};
ghost use Rattle.forwarder.specs.Policy.{Policy, at_moment, first_policy};
ghost use Rattle.forwarder.specs.Event.{moment, token_in};
ghost use Rattle.forwarder.specs.Verdict.{Answer};
ghost use Rattle.forwarder.specs.Effects.{IsAfter, decided_packet, face_in};
ghost use Rattle.info_rules.specs.declared.decision.Decision.TheVariants as decided;
ghost use Rattle.info_rules.specs.declared.decision.Reason.{Reason};
ghost use Rattle.info_rules.specs.declared.rule.Kind.{Kind};
ghost use Rattle.info_rules.specs.declared.rules.RuleNo.{RuleNo};
ghost use Rattle.forwarder.specs.Deciding.{IsFreshCommand, IsDecidedAs, recorded_of};
ghost use Rattle.forwarder.specs.Verdict as verdicts;
ghost use Rattle.forwarder.specs.DataSends.{BringsOctets, EachIsExplained, is_data};
ghost use Rattle.forwarder.specs.Allowed.{AllowedAt, AllowedIn, Allows};
ghost use Rattle.forwarder.specs.AskedFor.{AnswersItself, WasAskedFor};
ghost use Rattle.forwarder.specs.Commands.{IsDenial};
ghost use Rattle.ndn_packets.specs.FrameReading.{frame_at};
ghost use Rattle.ndn_packets.specs.Packet.{PlainData, PlainFrame, PlainInterest, AData, AnInterest};
ghost use Rattle.ndn_packets.specs.Answers.{full_name};
ghost use Rattle.content_store.specs.Store.{CachedData, IsStore};
ghost use Rattle.ndn_packets.specs.Key.{PlainKey, key_of};
ghost use Rattle.ndn_tlv.specs.Element.{Field};
ghost use Rattle.pit_fib.specs.Cause.{Arrives};
ghost use Rattle.pit_fib.specs.Fib.{costs_at, registered_at};
ghost use Rattle.pit_fib.specs.Past.{in_record_of, out_record_of};
ghost use Rattle.pit_fib.specs.Records.{InRecord};
ghost use Rattle.sha2.specs.Sha256.{sha256};
ghost use Rattle.replay_guard.specs.Freshness.{AreNear, NumberRises, Recorded};
ghost use Rattle.replay_guard.specs.Guard.{table_of};
ghost use Rattle.forwarder.specs.State.{IsSound};
ghost use Rattle.forwarder.specs.Node.{NodeState, IsStep};
ghost use Rattle.forwarder.specs.Causes.{in_record_for, causes_of};
ghost use Rattle.forwarder.specs.Hops.{cost_of};
ghost use Rattle.forwarder.specs.RouteReading.{route_of};
ghost use Rattle.forwarder.specs.Kept.{IsSentBack, IsKept, IsPassed, IsSentOn};
ghost use Rattle.forwarder.specs.Runs.{Run, Start, Then, AreLastRules, BringsData, BringsKeysApart, BringsRequest, HasNoNewRules, HasTicksForDenied, HaveOneHistory, IsPolicyOf, IsRun, KeysAreApart, MayHold, MayReply, Stands, now_of, past_causes, events_back, records_of, seen_after};

/// Law: the policy after an event is a function of the event and of the policy before the event, if
/// no two keys of the policy before the event have the same name.
pub fn events_have_one_effect()
    ensures { (old new other : Policy) (event : PlainEvent) → AreApart old.keys
        → IsAfter old event new → IsAfter old event other → new ≡ other }
{}

/// Law: if two steps start from the same node and handle the same event, both steps lead to the
/// same policy, even if the answers of the two steps differ. The law requires that no two keys of
/// the node's key book have the same name. The nodes after the two steps differ at most in pending
/// Interests and the cache.
pub fn steps_have_one_effect()
    ensures { (old new other : NodeState) (event : PlainEvent) (answer another : Answer)
        → AreApart old.policy.keys → IsStep old event answer new → IsStep old event another other
        → new.policy ≡ other.policy }
{}

/// Law: advancing time to two moments, one after the other, has the same effect as advancing time
/// once, to the greater of these moments. Either way, each route that expires adds 1 to the version
/// of the lists of routes and strategies, up to the greatest u64.
pub fn moments_in_a_row_are_as_the_later()
    ensures { (p : Policy) (m n : ℕ) → at_moment (at_moment p m) n ≡ at_moment p (max m n) }
{}

/// Law: a step leaves a sound node sound. In a sound node each face with a record, a next hop or a
/// route is open, at most 64 faces are open, and the list of open faces is in rising order of the
/// faces' numbers.
pub fn steps_keep_nodes_sound()
    ensures { (old new : NodeState) (event : PlainEvent) (answer : Answer) → IsSound old
        → IsStep old event answer new → IsSound new }
{}

/// Law: a step keeps the cache a content store: within its capacity, with no two Data of the same
/// full name, and with each Data as it was received. The law requires that the octets of the event's
/// packet are numbers below 256, which is true of every event of a node.
pub fn steps_keep_stores()
    ensures { (old new : NodeState) (event : PlainEvent) (answer : Answer)
        → BringsOctets event → IsStore old.cache → IsStep old event answer new
        → IsStore new.cache }
{}

/// Law: let a node agree (`Stands`) with a valid run (`IsRun`) that starts from a policy with the
/// time 0. If the event and the answer of a step of this node are appended to the run, the longer
/// run is valid, and the node after the step agrees with the longer run.
pub fn steps_go_on_with_runs()
    ensures { (first : Policy) (past : Run) (old new : NodeState) (event : PlainEvent)
        (answer : Answer) → first.now ≡ 0 → IsRun first past → Stands first past old
        → IsStep old event answer new
        → IsRun first (Then past event answer) × Stands first (Then past event answer) new }
{}

/// Law: a node without pending Interests and with an empty cache agrees with the empty run that
/// starts from the node's policy.
pub fn new_nodes_stand_in_the_empty_run()
    ensures { (first : Policy) (capacity : ℕ) → IsRun first Start × Stands first Start (record {
      policy = first;
      pending = map.empty;
      cache = record { cached = []; capacity = capacity };
    }) }
{}

/// Law: let two runs start from the same policy and have the same events, and let no key book of
/// the runs have two keys of the same name. Then both runs lead to the same policy. Let the same
/// event follow both runs. If the event brings a command, a request for a segment of a list, or an
/// Interest that is dropped because of its HopLimit or scope, each valid answer after one run
/// equals each valid answer after the other run. If the event brings a Data, each valid answer
/// after one run has the same verdict as each valid answer after the other run. If the same number
/// of events is removed from the end of each of the two runs, the two shorter runs have the same
/// events. So this law applies at each event of the two runs.
pub fn histories_decide()
    ensures policy { (first p q : Policy) (past other : Run) → KeysAreApart first past
        → HaveOneHistory past other → IsPolicyOf first past p → IsPolicyOf first other q → p ≡ q }
    ensures answers { (first p : Policy) (past other : Run) (event : PlainEvent) (a b : Answer)
        → KeysAreApart first past → HaveOneHistory past other → IsPolicyOf first past p
        → BringsRequest (at_moment p (moment event)) event
        → MayReply first past event a → MayReply first other event b → a ≡ b }
    ensures verdicts { (first : Policy) (past other : Run) (event : PlainEvent) (a b : Answer)
        → KeysAreApart first past → HaveOneHistory past other → BringsData event
        → MayReply first past event a → MayReply first other event b → a.verdict ≡ b.verdict }
{}

/// Law: let no key book of a valid run have two keys of the same name. In this run, let some denied
/// events be replaced by ticks at the moments of these events, and let the answers to these events
/// be replaced by answers with the verdict `Passed` and no sends. Then the resulting run is valid,
/// and leads to the same policy as the original run.
pub fn denied_events_change_nothing()
    ensures run { (first : Policy) (past other : Run) → KeysAreApart first past → IsRun first past
        → HasTicksForDenied past other → IsRun first other }
    ensures policy { (first p : Policy) (past other : Run) → KeysAreApart first past
        → IsRun first past → HasTicksForDenied past other → IsPolicyOf first past p
        → IsPolicyOf first other p }
{}

/// Law: each send of a valid answer to an event is of one of three kinds. In the first kind, the
/// event brings an allowed Data, and the Data is sent to a face that has a pending Interest for the
/// Data and is not the face on which the Data came. In the second kind, the event brings an
/// Interest. A Data that answers this Interest is sent back to the Interest's face. This Data comes
/// from the cache or the repository, or is made by the node itself. In the third kind, the octets
/// that are sent are neither a Data nor a link packet that carries a Data. The law requires that
/// the octets of the event's packet are numbers below 256, which is true of every event of a node.
pub fn each_send_is_explained()
    ensures { (first : Policy) (past : Run) (event : PlainEvent) (answer : Answer)
        (reply : MayReply first past event answer) → BringsOctets event
        → EachIsExplained (seen_after past (at_moment reply.was (moment event)) reply.waiting)
        event answer }
{}

/// Law: let no two keys of the key book in force before a run have the same name, and let no event
/// of the run bring two keys of the same name. Then no key book of the run has two keys of the same
/// name. The key book in force after the run has no two keys of the same name either.
pub fn keys_stay_apart()
    ensures books { (first : Policy) (past : Run) → AreApart first.keys
        → All BringsKeysApart (events_back past) → KeysAreApart first past }
    ensures in_force { (first p : Policy) (past : Run) → KeysAreApart first past
        → IsPolicyOf first past p → AreApart p.keys }
{}

/// Law: the rules and keys in force after a run are those of the last event of the run that brought
/// rules and keys. If no event of the run brought rules and keys, the rules and keys from before
/// the run are still in force. The clauses of this law do not mention the event after the run. If
/// that event brings a Data or a command, and this packet is not dropped, `IsDecidedAs` states how
/// the rules and keys in force after the run decide the packet. By `IsDecidedAs`, a command that is
/// not fresh is denied even if the rules allow it.
pub fn rules_in_force()
    ensures last { (first p : Policy) (past : Run) (rules : List PlainRule) (keys : List NamedKey)
        → IsPolicyOf first past p → AreLastRules past rules keys
        → (p.rules ≡ rules) × (p.keys ≡ keys) }
    ensures first { (first p : Policy) (past : Run) → IsPolicyOf first past p → HasNoNewRules past
        → (p.rules ≡ first.rules) × (p.keys ≡ first.keys) }
    // In each run, either no event brings rules and keys, or some event is the last that brings
    // rules and keys.
    ensures either { (past : Run) → HasNoNewRules past
        ⊎ ((rules : List PlainRule) × (keys : List NamedKey) × AreLastRules past rules keys) }
{}

/// Law: let the repository store no objects before a valid run. Then each Data in a valid answer to
/// the event after the run was asked for by the face that the Data is sent to. There are two cases.
/// In the first case, the event brings the Data, the first rule that applies allows the Data, and
/// the Data answers an Interest that is pending on the face. In the second case, the event brings
/// an Interest on the face, the Data answers the Interest by its name, and it is sent with the
/// Interest's token. It was allowed in an event of the run, or it is the node's own answer: a
/// segment of a list, or the reply to a command. The law requires that the octets of the event's
/// packet are numbers below 256, which is true of every event of a node.
pub fn every_data_sent_was_asked_for()
    ensures read { (first : Policy) (past : Run) (event : PlainEvent) (answer : Answer) (face : ℕ)
        (octets whole : List ℕ) (d : PlainData) (reply : MayReply first past event answer)
        → first.held.objects ≡ map.empty → IsRun first past → BringsOctets event
        → Contains answer.sends (face, octets) → frame_at octets ≡ Ok (AData whole d)
        → WasAskedFor first past reply.was event (face, octets) whole d }
    // If a Data that the node sends cannot be read as a packet, for example because it is too long,
    // this Data is the node's own answer.
    ensures unread { (first : Policy) (past : Run) (event : PlainEvent) (answer : Answer) (face : ℕ)
        (octets : List ℕ) (reply : MayReply first past event answer)
        → first.held.objects ≡ map.empty → IsRun first past → BringsOctets event
        → Contains answer.sends (face, octets) → is_data octets ≡ true
        → ((whole : List ℕ) (d : PlainData) → frame_at octets ≢ Ok (AData whole d))
        → AnswersItself reply.was event (face, octets) }
{}

/// Law: let no key book of a run have two keys of the same name. Then each allowed command has a
/// greater SignatureTime than each earlier allowed command of its signer and, if both commands have
/// a SignatureSeqNum, a greater SignatureSeqNum. So no two allowed commands have the same
/// signature, whatever else their Interests contain.
pub fn commands_are_allowed_once()
    ensures newer { (first was : Policy) (past : Run) (event : PlainEvent) (whole other : List ℕ)
        (i j : PlainInterest) (r s : Recorded) → KeysAreApart first past
        → AllowedIn first past (AnInterest whole i) → IsPolicyOf first past was
        → Allows was event (AnInterest other j) → recorded_of i ≡ Some r → recorded_of j ≡ Some s
        → r.signer ≡ s.signer → (r.time < s.time) × NumberRises r.number s.number }
    ensures once { (first was : Policy) (past : Run) (event : PlainEvent) (whole other : List ℕ)
        (i j : PlainInterest) → KeysAreApart first past → AllowedIn first past (AnInterest whole i)
        → IsPolicyOf first past was → Allows was event (AnInterest other j)
        → i.signature ≡ j.signature → ⊥ }
    // Conversely, let no command be recorded before the run. Then a command with a SignatureTime is
    // fresh if this time differs from the node's time at the command by at most 120,000
    // milliseconds, and the command is newer, as in the clause `newer`, than each command of its
    // signer that was allowed in the run.
    ensures fresh { (first was : Policy) (past : Run) (now : ℕ) (i : PlainInterest) (r : Recorded)
        → first.guard ≡ map.empty → IsPolicyOf first past was → recorded_of i ≡ Some r
        → AreNear r.time (at_moment was now).now
        → ((whole : List ℕ) (j : PlainInterest) (s : Recorded)
        → AllowedIn first past (AnInterest whole j) → recorded_of j ≡ Some s → s.signer ≡ r.signer
        → (s.time < r.time) × NumberRises s.number r.number)
        → IsFreshCommand (at_moment was now) i }
{}

/// Law: if the replay guard is empty before a run, the guard after the run records only signers,
/// SignatureTimes and SignatureSeqNums of commands that were allowed in the run.
pub fn guards_hold_allowed_commands()
    ensures { (first p : Policy) (past : Run) → first.guard ≡ map.empty → IsPolicyOf first past p
        → (records : List Recorded) × (p.guard ≡ table_of records)
        × All (λ r. (whole : List ℕ) × (i : PlainInterest)
        × AllowedIn first past (AnInterest whole i) × (recorded_of i ≡ Some r)) records }
{}

/// Law: if the repository stores no objects before a run, each object that the repository stores
/// after the run is a Data that was allowed in an event of the run. The object is stored under the
/// Data's full name.
pub fn objects_were_allowed()
    ensures { (first p : Policy) (past : Run) (name : List Field) (octets : List ℕ)
        → first.held.objects ≡ map.empty → IsPolicyOf first past p
        → map.get p.held.objects name ≡ Some octets
        → (d : PlainData) × AllowedIn first past (AData octets d)
        × (name ≡ full_name d.name (sha256 octets)) }
{}

/// Law: each Data that a cache may hold after a valid run was allowed in an event of the run. The
/// arrival that the cache records for the Data is the greatest moment of the run's events, up to
/// and including that event. The recorded implicit digest is the SHA-256 hash of the Data's octets,
/// and the recorded name and FreshnessPeriod are those of the Data.
pub fn cached_data_were_allowed()
    ensures { (first : Policy) (past : Run) (c : CachedData) → IsRun first past → MayHold past c
        → (d : PlainData) × AllowedAt first past (AData c.octets d) c.arrival × (c.name ≡ d.name)
        × (c.digest ≡ sha256 c.octets) × (c.freshness ≡ d.freshness) }
{}

/// Law: the causes in a run (`past_causes`) determine the records of each key, face by face. The
/// in-record of a face under a key is that of the latest Interest of the key that came from the
/// face and became pending. The out-record of a face under a key is that of the latest Interest of
/// the key that was forwarded to the face; the node's own Interests are not recorded. A Nack that
/// comes later from the face can set the reason in the out-record. If a later cause has ended a
/// record, the record no longer exists.
pub fn records_are_read_off_the_run()
    ensures in_records { (past : Run) (key : PlainKey) (face : ℕ)
        → map.get (records_of past key).in_records face
        ≡ in_record_of (past_causes past) key face }
    ensures out_records { (past : Run) (key : PlainKey) (face : ℕ)
        → map.get (records_of past key).out_records face
        ≡ out_record_of (past_causes past) key face }
{}

/// Law: an Interest becomes pending exactly if it was passed, nothing was sent back to its face,
/// and no Nack was sent. An in-record that exists after an event comes from that event's Interest,
/// or existed before the event. For a passed Interest with a valid answer, there are two cases.
/// Either the Interest becomes pending and is forwarded to other faces, possibly to none. Or one
/// packet is sent back to the Interest's face: a Nack, or a Data from the cache, the repository or
/// the node. The clause `answers` states the two cases. The clause requires that the octets of the
/// event's packet are numbers below 256, which is true of every event of a node.
pub fn unanswered_interests_wait()
    ensures arrives { (now : ℕ) (event : PlainEvent) (answer : Answer) (key : PlainKey) (face : ℕ)
        (in_record : InRecord) → Contains (causes_of now event answer) (Arrives key face in_record)
        ↔ IsKept now event answer key face in_record }
    ensures waits { (past : Run) (event : PlainEvent) (answer : Answer) (key : PlainKey) (face : ℕ)
        (in_record : InRecord)
        → IsKept (max (now_of past) (moment event)) event answer key face in_record
        → map.get (records_of (Then past event answer) key).in_records face ≡ Some in_record }
    ensures others { (past : Run) (event : PlainEvent) (answer : Answer) (key : PlainKey) (face : ℕ)
        (in_record : InRecord)
        → map.get (records_of (Then past event answer) key).in_records face ≡ Some in_record
        → IsKept (max (now_of past) (moment event)) event answer key face in_record
        ⊎ (map.get (records_of past key).in_records face ≡ Some in_record) }
    ensures answers { (first : Policy) (past : Run) (event : PlainEvent) (answer : Answer)
        (face : ℕ) (whole : List ℕ) (i : PlainInterest) (reply : MayReply first past event answer)
        → BringsOctets event → IsPassed event answer face whole i
        → let now = max (now_of past) (moment event) in
        let seen = seen_after past (at_moment reply.was (moment event)) reply.waiting in
        (IsKept now event answer (key_of i) face (in_record_for now (token_in event) whole i)
        × IsSentOn face whole i answer.sends)
        ⊎ IsSentBack seen face (token_in event) whole i answer.sends }
{}

/// Law: let a valid run begin without next hops and routes, and let no key book of the run have two
/// keys of the same name. A next hop is removed when a remove-nexthop of its name and face is
/// answered with status 200, or when its face is closed. After the run, a next hop exists exactly
/// if an add-nexthop of its name and face was answered with status 200, and the next hop was not
/// removed since the latest such add-nexthop. The cost of a next hop was set by the latest
/// add-nexthop of its name and face that was answered with status 200.
pub fn routes_are_read_off_the_run()
    ensures { (first p : Policy) (past : Run) (name : List Field) (face : ℕ)
        → KeysAreApart first past
        → first.routes ≡ map.empty → IsRun first past → IsPolicyOf first past p
        → map.get (costs_at p.routes name) face ≡ cost_of past name face }
{}

/// Law: let a valid run start from a policy that has the time 0, no next hops and no routes, and
/// let no key book of the run have two keys of the same name. A registered route ends when an
/// unregister of its name, face and origin is answered with status 200, when its face is closed, or
/// when the node's time at a later event is at or after the route's deadline. After the run, a
/// registered route exists exactly if a register of its name, face and origin was answered with
/// status 200, and the route has not ended since the latest such register. The cost and flags of
/// the route are those of the latest register of its name, face and origin that was answered with
/// status 200. The deadline of the route is the node's time at that register plus the register's
/// period, at most the greatest u64. A register without a period gives no deadline.
pub fn registered_routes_are_read_off_the_run()
    ensures { (first p : Policy) (past : Run) (name : List Field) (face origin : ℕ)
        → KeysAreApart first past → first.now ≡ 0
        → first.routes ≡ map.empty → IsRun first past → IsPolicyOf first past p
        → map.get (registered_at p.routes name) (record { face = face; origin = origin })
        ≡ route_of past name face origin }
{}

/// Law: if the verdict of a valid answer is a denial, the denial is the decision on the event's
/// packet. The denial gives the reason and the first rule that applies, or states that no rule
/// applies. A denied command gets a reply with status 403. The reply gives the reason and the rule,
/// or says that no rule applies. For a denied Data, nothing is sent. The kind in the verdict,
/// Interest or Data, is the kind of the packet.
pub fn denials_name_their_rule()
    ensures denied { (first : Policy) (past : Run) (event : PlainEvent) (answer : Answer)
        (kind : Kind) (rule : ℕ) (reason : Reason) (reply : MayReply first past event answer)
        → answer.verdict ≡ verdicts.Denied kind rule reason
        → (packet : PlainFrame) × (n : RuleNo)
        × (decided_packet (at_moment reply.was (moment event)) event ≡ Some packet)
        × IsDecidedAs (at_moment reply.was (moment event)) packet (decided.Denied n reason)
        × (rule ≡ n.0) × IsDenial (at_moment reply.was (moment event)) (face_in event)
        (token_in event) packet
        (decided.Denied n reason) answer }
    ensures no_rule { (first : Policy) (past : Run) (event : PlainEvent) (answer : Answer)
        (kind : Kind) (reply : MayReply first past event answer)
        → answer.verdict ≡ verdicts.NoRule kind
        → (packet : PlainFrame)
        × (decided_packet (at_moment reply.was (moment event)) event ≡ Some packet)
        × IsDecidedAs (at_moment reply.was (moment event)) packet decided.NoRule
        × IsDenial (at_moment reply.was (moment event)) (face_in event)
        (token_in event) packet decided.NoRule
        answer }
{}

/// Law: the headline (`specs/Headline.antt`) is true of each run of a node. At each event, a
/// command or Data that rules decide gets the verdict of the first matching rule, or the verdict
/// that no rule matched. Routes, strategies and the repository are the fold of the commands and
/// Data that were allowed, of the faces that closed, and of time. No command is allowed twice. Each
/// Data that is sent was asked for. A PIT token goes only to the face that brought it. An object is
/// stored only if it was wanted and allowed, and is removed only by an allowed delete.
pub fn headline()
    ensures { (rules : List PlainRule) (keys : List NamedKey) (repo : List Field) (run : Run)
        (p : Policy) → IsNodeRun (first_policy rules keys repo) run
        → IsPolicyOf (first_policy rules keys repo) run p
        → Headline (first_policy rules keys repo) run p }
{}

/// Law: after each valid run, each event has a valid answer, and some policy follows. So a run does
/// not end for want of an answer, and the headline is not true for want of runs. The law says that
/// this is not impossible (`¬ (¬ ..)`), and not which answer it is: that each packet has a decision
/// of the rules is proved without a procedure that finds it.
pub fn some_answer_follows()
    ensures run { (first : Policy) (past : Run) (event : PlainEvent) → IsRun first past
        → ¬ (¬ ((answer : Answer) × (p : Policy) × IsRun first (Then past event answer)
        × IsPolicyOf first (Then past event answer) p)) }
    // The same is true of the runs of a node, if the event has octets below 256, and keys that have
    // different names.
    ensures node { (first : Policy) (past : Run) (event : PlainEvent) → IsNodeRun first past
        → BringsOctets event → BringsKeysApart event
        → ¬ (¬ ((answer : Answer) × (p : Policy) × IsNodeRun first (Then past event answer)
        × IsPolicyOf first (Then past event answer) p)) }
{}
