//! Tests of the rule files in `docs/RULES.md` and `examples`, and of their decisions.

use super::decisions::{first_wrong_under, told_of};
use super::reading::rules_of;
use crate::rows::assert_right;
use info_rules::RuleNo;
use std::alloc::Global;
use test_support::{KEYS, SAMPLE};

/// The complete rule file of `docs/RULES.md`.
const WHOLE: &str = r#"; Changes of routes, strategies and the cache: signed by the key /ops/KEY/1.
rule
{
  id operators
  for interest
  filter
  {
    type name
    name /localhost/nfd
    relation is-prefix-of
  }
  checker
  {
    type customized
    sig-type hmac-sha256
    key-locator
    {
      type name
      name /ops/KEY/1
      relation equal
    }
  }
}

; Deletions from the repository: one key. This rule has to come before the next one.
rule
{
  id archive-delete
  for interest
  filter
  {
    type name
    name /repo/delete
    relation is-prefix-of
  }
  checker
  {
    type customized
    sig-type hmac-sha256
    key-locator
    {
      type name
      name /archive/KEY/1
      relation equal
    }
  }
}

; The other commands of the repository: any key of the laboratory.
rule
{
  id archive-use
  for interest
  filter
  {
    type name
    name /repo
    relation is-prefix-of
  }
  checker
  {
    type customized
    sig-type hmac-sha256
    key-locator
    {
      type name
      regex ^<lab><>*<KEY><>$
    }
  }
}

; Data of the rooms: the key /keys/roof/KEY/7 signs Data under /lab/roof.
rule
{
  id rooms
  for data
  filter
  {
    type name
    regex ^<lab><>+$
  }
  checker
  {
    type customized
    key-locator
    {
      type name
      hyper-relation
      {
        k-regex ^<keys>(<>*)<KEY><>$
        k-expand \1
        h-relation is-prefix-of
        p-regex ^<lab>(<>*)$
        p-expand \1
      }
    }
  }
}

; Data of producers: the key /sensors/roof/KEY/7 signs Data under /sensors/roof.
rule
{
  id producers
  for data
  filter
  {
    type name
    name /sensors
    relation is-prefix-of
  }
  filter
  {
    type name
    name /cameras
    relation is-strict-prefix-of
  }
  checker
  {
    type hierarchical
    sig-type hmac-sha256
  }
}

; Data of other networks: passed on and not verified, whoever signed it.
rule
{
  id transit
  for data
  filter
  {
    type name
    name /ndn
    relation is-prefix-of
  }
  checker
  {
    type unverified
  }
}

; All other Data: a digest. ECDSA is not verified, so no packet passes the second checker.
rule
{
  id others
  for data
  checker
  {
    type customized
    sig-type sha256
  }
  checker
  {
    type hierarchical
    sig-type ecdsa-sha256
  }
}

; Trust anchors, which files of ndn-cxx have, are skipped.
trust-anchor
{
  type file
  file-name "certificates/lab root.ndncert"   ; quoted, as it has a space
}
"#;

const OF_WHOLE: &str = r"
interest /localhost/nfd/fib/add-nexthop/P by /ops/KEY/1 key → allowed 0
interest /localhost/nfd/fib/add-nexthop/P by digest → denied 0 SigType
interest /localhost/nfd/fib/add-nexthop/P by /archive/KEY/1 key → denied 0 KeyLocator
interest /repo/delete/P by /archive/KEY/1 key → allowed 1
interest /repo/delete/P by /lab/roof/KEY/7 key → denied 1 KeyLocator
interest /repo/insert/P by /lab/roof/KEY/7 key → allowed 2
interest /elsewhere by /ops/KEY/1 key → no rule
data /lab/roof/wind by /keys/roof/KEY/7 key → allowed 3
data /lab/cellar/wind by /keys/roof/KEY/7 key → denied 3 KeyLocator
data /lab by digest → allowed 6
data /sensors/roof/1 by /sensors/roof/KEY/7 key → allowed 4
data /sensors/roof/1 by digest → denied 4 SigType
data /cameras by digest → allowed 6
data /A by digest → allowed 6
data /ndn/x by /other/KEY/1 key → allowed 5
";

#[test]
fn a_whole_file(rt: HostRuntime) {
    assert_right(&rt, first_wrong_under(rt.alloc(), WHOLE, OF_WHOLE));
}

/// The rule `operators` of `docs/RULES.md`.
const OPERATORS: &str = r"rule
{
  id operators
  for interest
  filter
  {
    type name
    name /localhost/nfd
    relation is-prefix-of
  }
  checker
  {
    type customized
    sig-type hmac-sha256
    key-locator
    {
      type name
      name /ops/KEY/1
      relation equal
    }
  }
}
";

const OF_OPERATORS: &str = r"
interest /localhost/nfd/fib/add-nexthop/P by /ops/KEY/1 key → allowed 0
interest /localhost/nfd/fib/add-nexthop/P by /archive/KEY/1 key → denied 0 KeyLocator
interest /repo/insert/P by /ops/KEY/1 key → no rule
";

#[test]
fn only_operators_change_routes(rt: HostRuntime) {
    assert_right(&rt, first_wrong_under(rt.alloc(), OPERATORS, OF_OPERATORS));
}

/// The rules of the repository in `docs/RULES.md`.
const ARCHIVE: &str = r"rule
{
  id archive-delete
  for interest
  filter
  {
    type name
    name /repo/delete
    relation is-prefix-of
  }
  checker
  {
    type customized
    sig-type hmac-sha256
    key-locator
    {
      type name
      name /archive/KEY/1
      relation equal
    }
  }
}

rule
{
  id archive-use
  for interest
  filter
  {
    type name
    name /repo
    relation is-prefix-of
  }
  checker
  {
    type customized
    sig-type hmac-sha256
    key-locator
    {
      type name
      regex ^<lab><>*<KEY><>$
    }
  }
}
";

const OF_ARCHIVE: &str = r"
interest /repo/delete/P by /archive/KEY/1 key → allowed 0
interest /repo/delete/P by /lab/roof/KEY/7 key → denied 0 KeyLocator
interest /repo/insert/P by /lab/roof/KEY/7 key → allowed 1
interest /repo/insert/P by /archive/KEY/1 key → denied 1 KeyLocator
interest /repo/check/P by /lab/cellar/KEY/1 key → denied 1 KeyUnknown
";

#[test]
fn one_key_deletes(rt: HostRuntime) {
    assert_right(&rt, first_wrong_under(rt.alloc(), ARCHIVE, OF_ARCHIVE));
}

/// The rules `producers` and `others` of `docs/RULES.md`: `producers` with only its first filter,
/// and `others` with only its first checker.
const PRODUCERS: &str = r"rule
{
  id producers
  for data
  filter
  {
    type name
    name /sensors
    relation is-prefix-of
  }
  checker
  {
    type hierarchical
    sig-type hmac-sha256
  }
}

rule
{
  id others
  for data
  checker
  {
    type customized
    sig-type sha256
  }
}
";

const OF_PRODUCERS: &str = r"
data /sensors/roof/wind/v=1 by /sensors/roof/KEY/7 key → allowed 0
data /sensors/cellar/wind/v=1 by /sensors/roof/KEY/7 key → denied 0 KeyLocator
data /sensors/roof/wind/v=1 by digest → denied 0 SigType
data /A by digest → allowed 1
";

#[test]
fn producers_sign_below_their_names(rt: HostRuntime) {
    assert_right(&rt, first_wrong_under(rt.alloc(), PRODUCERS, OF_PRODUCERS));
}

/// Two rules that accept digests. The checker of the first rule also has a key locator, and the
/// checker of the second rule is hierarchical.
const DIGESTS: &str = r"
rule {␊ id customized␊ for data␊ filter {␊ type name␊ name /A␊ relation equal }␊ checker {␊ type customized␊ sig-type sha256␊ key-locator {␊ type name␊ name /nobody␊ relation equal } } }
rule {␊ id hierarchical␊ for data␊ checker {␊ type hierarchical␊ sig-type sha256 } }
";

const OF_DIGESTS: &str = r"
data /A by digest → allowed 0
data /B by digest → allowed 1
";

/// A checker for DigestSha256 needs no key, even if the checker has a key locator or is
/// hierarchical.
#[test]
fn digests_need_no_key(rt: HostRuntime) {
    assert_right(&rt, first_wrong_under(rt.alloc(), DIGESTS, OF_DIGESTS));
}

/// The rule `rooms` of `docs/RULES.md`, without its filter.
const SHARED_PART: &str = r"rule
{
  id rooms
  for data
  checker
  {
    type customized
    key-locator
    {
      type name
      hyper-relation
      {
        k-regex ^<keys>(<>*)<KEY><>$
        k-expand \1
        h-relation is-prefix-of
        p-regex ^<lab>(<>*)$
        p-expand \1
      }
    }
  }
}
";

const OF_SHARED_PART: &str = r"
data /lab/roof/wind by /keys/roof/KEY/7 key → allowed 0
data /lab/cellar/wind by /keys/roof/KEY/7 key → denied 0 KeyLocator
data /roof/wind by /keys/roof/KEY/7 key → denied 0 KeyLocator
";

#[test]
fn a_shared_part_of_two_names(rt: HostRuntime) {
    assert_right(
        &rt,
        first_wrong_under(rt.alloc(), SHARED_PART, OF_SHARED_PART),
    );
}

const OF_SAMPLE: &str = r"
interest /localhost/nfd/fib/add-nexthop/P by /ops/KEY/1 key → allowed 0
interest /localhost/nfd/fib/add-nexthop/P by /archive/KEY/1 key → denied 0 KeyLocator
interest /repo/insert/P by /ops/KEY/1 key → allowed 1
interest /repo/insert/P by digest → denied 1 SigType
data /A by digest → allowed 2
data /A by /ops/KEY/1 key → denied 2 SigType
";

/// For each packet, the first rule in `SAMPLE` that applies to the packet.
const FOR_SAMPLE: &str = r"
any interest /localhost/nfd → rule 0
any interest /repo → rule 1
any interest /A → no rule
any data /localhost/nfd → rule 2
any data /repo → rule 2
any data / → rule 2
";

/// Returns `true` if `SAMPLE` has three rules and the rule with this number has this id.
fn has_id(alloc: Global, number: usize, id: &str) -> bool {
    let Ok(rules) = rules_of(alloc, SAMPLE) else {
        return false;
    };
    rules.len() == 3 && number < 3 && rules.id(RuleNo(number)) == id
}

#[test]
fn ids_of_the_sample_rules(rt: HostRuntime) {
    assert!(rt; has_id(rt.alloc(), 0, "ops"));
    assert!(rt; has_id(rt.alloc(), 1, "repo-ops"));
    assert!(rt; has_id(rt.alloc(), 2, "any-data"));
}

#[test]
fn what_the_sample_rules_decide(rt: HostRuntime) {
    assert_right(&rt, first_wrong_under(rt.alloc(), SAMPLE, OF_SAMPLE));
}

#[test]
fn first_rules_of_the_sample(rt: HostRuntime) {
    assert_right(&rt, first_wrong_under(rt.alloc(), SAMPLE, FOR_SAMPLE));
}

const OTHER_SIGNATURES: &str = r"
octets 060c070308014116031b01011700 → denied 0 SigType
octets 060c070308014116031b01031700 → denied 0 SigType
octets 060c070308014116031b01051700 → denied 0 SigType
";

const OTHER_SIGNATURES_NO_RULE: &str = r"
octets 060c070308014116031b01011700 → no rule
octets 060c070308014116031b01031700 → no rule
octets 060c070308014116031b01051700 → no rule
";

/// Data with RSA, ECDSA and Ed25519 signatures can be read. The rule in `SHARED_PART` denies these
/// Data. The rule in `OPERATORS` does not apply to Data, since this rule is for Interests.
#[test]
fn other_signatures(rt: HostRuntime) {
    assert_right(
        &rt,
        first_wrong_under(rt.alloc(), SHARED_PART, OTHER_SIGNATURES),
    );
    assert_right(
        &rt,
        first_wrong_under(rt.alloc(), OPERATORS, OTHER_SIGNATURES_NO_RULE),
    );
}

/// Returns whether the rule in `SHARED_PART` allows a Data. Also returns true if memory runs out
/// before or during the decision.
fn is_allowed_unless_memory(alloc: Global) -> bool {
    let packet = "data /lab/roof/wind by /keys/roof/KEY/7 key";
    told_of(alloc, SHARED_PART, KEYS, packet).is_none_or(|told| told.as_str() == "allowed 0")
}

/// If an allocation of memory fails, no wrong decision is returned.
#[test]
fn decision_with_refused_memory(rt: HostRuntime) {
    assert!(rt; is_allowed_unless_memory(rt.alloc()));
}
