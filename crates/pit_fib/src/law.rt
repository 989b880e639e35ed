ghost use Rattle.std.specs.Prelude.{◌≡◌, ◌≤◌, ◌↔◌, ℕ, List, Option, None, Some, IsSome, IsTrue, true, false, filter, length, option_and_then, take};
ghost use Rattle.std.specs.Ordering.{nat_cmp};
ghost use Rattle.std.specs.FinMap as map;
ghost use Rattle.ndn_tlv.specs.Element.{Field};
ghost use Rattle.ndn_packets.specs.Key.{PlainKey};
ghost use Rattle.name_trie.specs.ByName.{ByName, IsLongest, longest, revise};
ghost use Rattle.pit_fib.specs.Tables.{ByFace};
ghost use Rattle.pit_fib.specs.declared.hops.Hop.{Hop};
ghost use Rattle.pit_fib.specs.Effective.{effective, IsEffective, longest_hops};
ghost use Rattle.pit_fib.specs.Fib.{Entry, Routes, due_count};
ghost use Rattle.pit_fib.specs.Route.{is_due};
ghost use Rattle.name_trie.specs.Flat.{total};
ghost use Rattle.pit_fib.specs.Hops.{AreInOrder, AreHopsOf, hops_of};
ghost use Rattle.pit_fib.specs.Records.{Records, Pending, HoldsTheLiving, is_alive, records_at};
ghost use Rattle.pit_fib.specs.Cause.{Cause, Expires, records_after, with_reason};
ghost use Rattle.pit_fib.specs.Pit.{IsLeastReason, was_sent, nacked_answer};
ghost use Rattle.pit_fib.specs.declared.nacked.Nacked.TheVariants as answers;
ghost use Rattle.pit_fib.specs.Tokens.{IsTokenFor};
ghost use Rattle.pit_fib.specs.Past.{records_after_all, in_record_of, out_record_of};

use crate::face_set::MAX_FACES;
use crate::fib::{MAX_DEPTH, MAX_ENTRIES, MAX_ROUTES};
use crate::pit::MAX_PENDING;

/// Law: in a map of values by name, `longest` is the value of one prefix of a name: the longest
/// prefix that has a value. `longest` is None if no prefix of the name has a value.
pub fn longest_is_the_longest_prefix<V>()
    ensures found { (table : ByName V) (name : List Field) (n : ℕ) → IsLongest table name n
        → longest table name ≡ map.get table (take n name) }
    ensures none { (table : ByName V) (name : List Field)
        → ((n : ℕ) → n ≤ length name → map.get table (take n name) ≡ None)
        → longest table name ≡ None }
{}

/// Law: `hops_of costs` is the only list of next hops that is ordered by cost and then by face, and
/// that has exactly the faces in `costs`, each with its cost and with `local` false.
pub fn hops_are_in_order()
    ensures sorted { (costs : ByFace) → AreInOrder (hops_of costs) }
    ensures same { (costs : ByFace) → AreHopsOf costs (hops_of costs) }
    ensures only { (costs : ByFace) (hops : List Hop) → AreInOrder hops → AreHopsOf costs hops
        → hops ≡ hops_of costs }
{}

/// Law: the effective next hops of a name have the costs of the name's own next hops, of its own
/// routes, and of the routes that it inherits, and no others. For a face with a next hop of the
/// name, the cost is the cost of this next hop. For a face with routes of the name but no next hop,
/// the cost is the least cost of these routes. Every other face has a cost exactly if the name has
/// routes, none of these routes is a capture route, and the name inherits a cost for the face. The
/// face then has the inherited cost.
pub fn effective_hops_are_as_defined()
    ensures { (routes : Routes) (name : List Field) (face cost : ℕ)
        → (map.get (effective routes name) face ≡ Some cost) ↔ IsEffective routes name face cost }
{}

/// Law: the next hops for an Interest are the effective next hops of one prefix of its name: the
/// longest prefix that has an entry. An Interest has no next hops if no prefix of its name has an
/// entry.
pub fn routes_are_those_of_the_longest_prefix()
    ensures found { (routes : Routes) (name : List Field) (n : ℕ) → IsLongest routes name n
        → longest_hops routes name ≡ hops_of (effective routes (take n name)) }
    ensures none { (routes : Routes) (name : List Field)
        → ((n : ℕ) → n ≤ length name → map.get routes (take n name) ≡ None)
        → longest_hops routes name ≡ hops_of map.empty }
{}

/// Law: `due_count` is the number of routes that expire by a moment: the routes whose deadline is
/// that moment or earlier.
pub fn routes_that_end_are_counted()
    ensures { (now : ℕ) (routes : Routes) → due_count now routes ≡ total
        (λ (e : Entry). length (filter (λ r. is_due now r.1) (map.entries e.registered)))
        (map.entries routes) }
{}

/// Law: when a change is applied to each value of a map from faces to values, each value is
/// replaced by the changed value, or is removed if the change gives None. A face without a value
/// stays without a value.
pub fn revising_changes_each_value<V, W>()
    ensures { (change : V → Option W) (m : map.FinMap nat_cmp V) (face : ℕ)
        → map.get (revise change m) face ≡ option_and_then change (map.get m face) }
{}

/// Law: the records of each face under a key follow from the list of past causes, in which the
/// latest cause comes first. The in-record of a face is the last Interest that arrived on the face,
/// unless a later cause has removed this in-record. The out-record of a face is the last Interest
/// that was sent to that face. The out-record is removed when the face closes, and when the key has
/// no in-record any more. The key has an in-record exactly if `in_record_of` is not None for some
/// face.
pub fn records_are_the_past()
    ensures in_records { (causes : List Cause) (key : PlainKey) (face : ℕ)
        → map.get (records_after_all causes key).in_records face ≡ in_record_of causes key face }
    ensures out_records { (causes : List Cause) (key : PlainKey) (face : ℕ)
        → map.get (records_after_all causes key).out_records face ≡ out_record_of causes key face }
    ensures alive { (causes : List Cause) (key : PlainKey)
        → IsTrue (is_alive (records_after_all causes key))
        ↔ ((face : ℕ) × IsSome (in_record_of causes key face)) }
{}

/// Law: the result of a Nack is `NoPending` exactly if the face from which the Nack came has no
/// out-record with the Nack's Nonce. If this face has such an out-record, the result is `All`
/// exactly if, after the Nack's reason is stored, each out-record has a reason. The number in `All`
/// is the least of these reasons.
pub fn nacks_tell_the_least_reason()
    ensures pending { (r : Records) (face : ℕ) (nonce : List ℕ) (reason : ℕ)
        → (nacked_answer r face nonce reason ≡ answers.NoPending)
        ↔ (was_sent (map.get r.out_records face) nonce ≡ false) }
    ensures all { (r : Records) (face : ℕ) (nonce : List ℕ) (reason least : ℕ)
        → was_sent (map.get r.out_records face) nonce ≡ true
        → (nacked_answer r face nonce reason ≡ answers.All least)
        ↔ IsLeastReason (with_reason face nonce reason r.out_records
        (map.get r.out_records face)) least }
{}

/// Law: for each Data and face, `IsTokenFor` holds for at most one value: one PIT token, or None.
pub fn tokens_for_data_are_one()
    ensures { (records : PlainKey → Records) (name : List Field) (digest : List ℕ) (face : ℕ)
        (a b : Option (List ℕ)) → IsTokenFor records name digest face a
        → IsTokenFor records name digest face b → a ≡ b }
{}

/// Law: two tables in which each key has an in-record are equal if they have the same records for
/// each key.
pub fn records_tell_the_table()
    ensures { (a b : Pending) → HoldsTheLiving a → HoldsTheLiving b
        → ((key : PlainKey) → records_at a key ≡ records_at b key) → a ≡ b }
{}

/// Law: the records after an expiry are the same, whether or not another expiry, at the same or an
/// earlier moment, came directly before it.
pub fn expiry_may_come_twice()
    ensures { (m n : ℕ) (key : PlainKey) (r : Records) → m ≤ n
        → records_after (Expires n) key (records_after (Expires m) key r)
        ≡ records_after (Expires n) key r }
{}

/// Law: the limits are 4,096 names or keys in a table, 32 components in the name of a route or
/// strategy, 64 faces in a set or a table, and 16,384 registered routes.
pub fn table_limits_are_as_promised()
    ensures { (MAX_FACES ≡ 64) × (MAX_ENTRIES ≡ 4096) × (MAX_DEPTH ≡ 32) × (MAX_ROUTES ≡ 16384)
        × (MAX_PENDING ≡ 4096) }
{}
