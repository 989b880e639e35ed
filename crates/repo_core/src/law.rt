//! Laws on the definitions that contracts use. Each law is a function that does nothing at run
//! time.

ghost use Rattle.std.specs.Prelude.{◌≡◌, ◌↔◌, ◌+◌, ◌≤◌, ◌++◌, ◌∷◌, [], ℕ, List, Bool, Option, Some, IsSome, length, true};
ghost use Rattle.std.specs.FinMap as map;
ghost use Rattle.sha2.specs.Sha256.{sha256};
ghost use Rattle.ndn_tlv.specs.Element.{Field};
ghost use Rattle.ndn_names.specs.declared.component_type.TheConstants.{GENERIC};
ghost use Rattle.ndn_packets.specs.Answers.{answers, begins_with, full_name};
ghost use Rattle.ndn_packets.specs.Grammar.{IsData};
ghost use Rattle.ndn_packets.specs.Packet.{PlainData};
ghost use Rattle.repo_core.specs.declared.verb.Verb.{Verb};
ghost use Rattle.repo_core.specs.Commands.{repo_text_of, verb_row};
ghost use Rattle.repo_core.specs.Objects.{AreObjects, Objects, full_name_answers, if_kept, kept};
ghost use Rattle.repo_core.specs.Reading.{RepoCommand, verb_at};
ghost use Rattle.repo_core.specs.Repo.{Held, IsWithinLimits, after_command, after_delete, after_offer, after_time, reply_to};
ghost use Rattle.repo_core.specs.Wants.{WantKey, Wants, is_wanted, wants_after};
ghost use Rattle.repo_core.specs.Writing.{repo_response};

use crate::reply::MAX_REPLY_LEN;

/// Law: a Data answers an Interest if and only if `full_name_answers` is true for the full name of
/// the Data.
pub fn full_names_answer_as_data()
    ensures { (name asked : List Field) (digest : List ℕ) (can_be_prefix : Bool)
        → full_name_answers asked can_be_prefix (full_name name digest)
        ≡ answers name digest asked can_be_prefix }
{}

/// Law: a Data that is not wanted remains unwanted when wants expire or are deleted. So an offer
/// that cannot run out of memory (`IsOfferPrepared`) still cannot run out of memory after wants
/// expire or are deleted.
pub fn removals_keep_preparations()
    ensures expiry { (now : ℕ) (name : List Field) (digest : List ℕ) (wants : Wants)
        → is_wanted name digest (wants_after now wants) ≡ true
        → is_wanted name digest wants ≡ true }
    ensures delete { (c : RepoCommand) (name : List Field) (digest : List ℕ) (s : Held)
        → is_wanted name digest (after_delete c s).wants ≡ true
        → is_wanted name digest s.wants ≡ true }
{}

/// Law: a name has a given verb if and only if the name begins with the prefix, followed by the
/// GenericNameComponent with the word of this verb.
pub fn verbs_follow_the_prefix()
    ensures { (start name : List Field) (verb : Verb)
        → (verb_at start name ≡ Some verb)
        ↔ (begins_with (start ++ (GENERIC, (verb_row verb).word) ∷ []) name ≡ true) }
{}

/// Law: every status of a reply has a text.
pub fn repo_statuses_have_texts()
    ensures { (s : Held) (c : Option RepoCommand)
        → IsSome (repo_text_of (reply_to s c).status) }
{}

/// Law: the length of replies is bounded, so memory for a reply can be reserved before the status
/// of the reply is known.
pub fn repo_replies_are_bounded()
    ensures known { (status count : ℕ) (text : List ℕ) → repo_text_of status ≡ Some text
        → length (repo_response status text count) ≤ MAX_REPLY_LEN }
    // This bound holds for every text, and not only for the texts that `repo_text_of` gives. For
    // example, `repo_text_of` does not give the text of the reply to a command that no access rule
    // allows.
    ensures any { (status count : ℕ) (text : List ℕ)
        → length (repo_response status text count) ≤ length text + 40 }
{}

/// Law: the limits of 64 wants, and of 65,536 objects and wants together, hold after every step if
/// these limits held before the step.
pub fn limits_are_kept()
    ensures command { (start name : List Field) (now : ℕ) (s : Held)
        → IsWithinLimits s → IsWithinLimits (after_command start name now s) }
    ensures offer { (name : List Field) (digest octets : List ℕ) (s : Held)
        → IsWithinLimits s → IsWithinLimits (after_offer name digest octets s) }
    ensures time { (now : ℕ) (s : Held) → IsWithinLimits s → IsWithinLimits (after_time now s) }
{}

/// Law: if, before a step, each object is a Data stored under its full name, then each object is a
/// Data stored under its full name after the step too.
pub fn objects_stay_data()
    ensures command { (start name : List Field) (now : ℕ) (s : Held)
        → AreObjects s.objects → AreObjects (after_command start name now s).objects }
    ensures offer { (packet : PlainData) (octets : List ℕ) (s : Held) → IsData octets packet
        → AreObjects s.objects
        → AreObjects (after_offer packet.name (sha256 octets) octets s).objects }
    ensures time { (now : ℕ) (s : Held)
        → AreObjects s.objects → AreObjects (after_time now s).objects }
{}

/// Law: after all entries that fail a test are removed from a map of objects or wants, a lookup of
/// a key finds an entry if and only if the map had this entry before and the entry passes the test.
pub fn kept_entries_by_key()
    ensures objects { (test : List Field × List ℕ → Bool) (objects : Objects) (name : List Field)
        → map.get (kept test objects) name ≡ if_kept test name (map.get objects name) }
    ensures wants { (test : WantKey × ℕ → Bool) (wants : Wants) (key : WantKey)
        → map.get (kept test wants) key ≡ if_kept test key (map.get wants key) }
{}
