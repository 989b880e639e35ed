//! Tests of the decisions of rules on packets.

use super::reading::rules_of;
use crate::rows::assert_right;
use info_rules::{Decision, Kind, Packet, RuleNo, Rules};
use key_files::KeyBook;
use ndn_names::{Name, NameBuf};
use ndn_packets::{DataWriter, Frame, InterestWriter, Sign, read_frame};
use std::alloc::Global;
use test_support::{KEYS, first_wrong, typed};

/// Returns the octets of a packet. If `kind` is `data`, the packet is a Data. If `kind` is
/// `interest`, the packet is a signed Interest with the SignatureTime 1.
fn written<'a>(alloc: Global, kind: &str, name: Name<'a>, sign: Sign<'a>) -> Option<Vec<u8>> {
    let mut octets = Vec::new(alloc);
    put_packet(&mut octets, kind, name, sign)?;
    Some(octets)
}

/// Appends a packet. If `kind` is `data`, the packet is a Data. If `kind` is `interest`, the packet
/// is a signed Interest with the SignatureTime 1.
fn put_packet<'a>(octets: &mut Vec<u8>, kind: &str, name: Name<'a>, sign: Sign<'a>) -> Option<()> {
    match kind {
        "data" => put_data(octets, name, sign),
        "interest" => put_interest(octets, name, sign),
        _ => None,
    }
}

/// Appends a Data.
fn put_data<'a>(octets: &mut Vec<u8>, name: Name<'a>, sign: Sign<'a>) -> Option<()> {
    let writer = DataWriter {
        name,
        freshness: None,
        last: None,
        content: Some(b"x"),
        sign,
    };
    writer.write(octets).ok()
}

/// Appends a signed Interest with the SignatureTime 1.
fn put_interest<'a>(octets: &mut Vec<u8>, name: Name<'a>, sign: Sign<'a>) -> Option<()> {
    let writer = InterestWriter {
        name,
        can_be_prefix: false,
        must_be_fresh: false,
        nonce: [1, 2, 3, 4],
        lifetime: None,
        hop_limit: None,
        parameters: None,
        sign: Some(sign),
        time: Some(1),
        seq: None,
    };
    writer.write(octets).ok()
}

fn sign_by<'a>(name: Name<'a>, key: &'a [u8]) -> Sign<'a> {
    Sign::Hmac { name, key }
}

/// Returns the octets of a packet. The packet is given as `octets 0605..`, as
/// `KIND NAME by digest`, or as `KIND NAME by KEYNAME TEXT`. The octets of `TEXT` are the octets of
/// the key.
fn octets_of(alloc: Global, packet: &str) -> Option<Vec<u8>> {
    let (kind, rest) = packet.split_once(' ')?;
    if kind == "octets" {
        return hex::decode(alloc, rest).ok();
    }
    let (name, signer) = rest.split_once(" by ")?;
    let name = NameBuf::from_uri(alloc, name).ok()?;
    signed_octets(alloc, kind, name.view(), signer)
}

/// Returns the octets of a packet with this kind, name and signer.
fn signed_octets(alloc: Global, kind: &str, name: Name<'_>, signer: &str) -> Option<Vec<u8>> {
    if signer == "digest" {
        return written(alloc, kind, name, Sign::Digest);
    }
    let (key_name, key) = signer.split_once(' ')?;
    let key_name = NameBuf::from_uri(alloc, key_name).ok()?;
    written(alloc, kind, name, sign_by(key_name.view(), key.as_bytes()))
}

/// Returns the Interest or the Data that a frame consists of, or `None` for any other frame.
fn packet_of<'a>(frame: &'a Frame<'a>) -> Option<Packet<'a>> {
    match frame {
        Frame::Interest(interest) => Some(Packet::Interest(interest)),
        Frame::Data(data) => Some(Packet::Data(data)),
        _ => None,
    }
}

/// Returns the decision of the rules on a packet with these octets.
fn decided(alloc: Global, rules: &Rules, keys: &str, octets: &[u8]) -> Option<Decision> {
    let frame = read_frame(octets).ok()?;
    let packet = packet_of(&frame)?;
    let keys = KeyBook::read(alloc, keys).ok()?;
    rules.decide(alloc, &keys, packet).ok()
}

/// Returns the decision of a rule file on a packet, as `allowed 0`, `denied 0 Tag` or `no rule`. If
/// `packet` is `any KIND NAME`, returns the first rule that applies to packets of this kind and
/// name, as `rule 0` or `no rule`. Returns `None` if an input is not valid or memory runs out.
pub fn told_of(alloc: Global, file: &str, keys: &str, packet: &str) -> Option<String> {
    let rules = typed_rules(alloc, file)?;
    match packet.strip_prefix("any ") {
        Some(named) => told_first(alloc, &rules, named),
        None => told_decision(alloc, &rules, keys, packet),
    }
}

/// Replaces each symbol in a file, such as `␊`, by the character for which the symbol stands, and
/// then reads the rules of the file.
fn typed_rules(alloc: Global, file: &str) -> Option<Rules> {
    let text = typed(alloc, file)?;
    rules_of(alloc, text.as_str()).ok()
}

/// Returns the decision of the rules on a packet.
fn told_decision(alloc: Global, rules: &Rules, keys: &str, packet: &str) -> Option<String> {
    let octets = octets_of(alloc, packet)?;
    let decision = decided(alloc, rules, keys, &octets)?;
    decision_shown(alloc, decision)
}

/// Shows a decision.
fn decision_shown(alloc: Global, decision: Decision) -> Option<String> {
    match decision {
        Decision::Allowed(rule) => format!(in alloc; "allowed {}", rule.0).ok(),
        Decision::Denied(rule, reason) => format!(in alloc; "denied {} {reason:?}", rule.0).ok(),
        Decision::NoRule => String::from_str(alloc, "no rule").ok(),
    }
}

/// Returns the first rule that applies to packets of the kind and name in `named`, as `rule 0` or
/// `no rule`.
fn told_first(alloc: Global, rules: &Rules, named: &str) -> Option<String> {
    let (kind, name) = named.split_once(' ')?;
    let kind = match kind {
        "data" => Kind::Data,
        "interest" => Kind::Interest,
        _ => return None,
    };
    let name = NameBuf::from_uri(alloc, name).ok()?;
    rule_shown(alloc, rules.first_match(kind, name.view()))
}

/// Shows the number of the rule, as in `rule 0`, or `no rule` if `rule` is `None`.
fn rule_shown(alloc: Global, rule: Option<RuleNo>) -> Option<String> {
    match rule {
        Some(rule) => format!(in alloc; "rule {}", rule.0).ok(),
        None => String::from_str(alloc, "no rule").ok(),
    }
}

/// Returns whether a row `PACKET → DECISION` is correct under this rule file and the key file
/// `KEYS`.
fn is_decided_so(alloc: Global, file: &str, row: &str) -> bool {
    let Some((packet, wanted)) = row.split_once(" → ") else {
        return false;
    };
    told_of(alloc, file, KEYS, packet).is_some_and(|told| told.as_str() == wanted)
}

/// Returns the line of the first row that is wrong for this rule file. Returns 0 if there are rows
/// and no row is wrong, and 1 if there are no rows.
pub fn first_wrong_under(alloc: Global, file: &str, rows: &str) -> usize {
    first_wrong(alloc, rows, |alloc, row| is_decided_so(alloc, file, row))
}

/// Returns the line of the first wrong row in a text of one or more rule files, or 0 if no row is
/// wrong. A file without rows counts as a wrong row. Each file is one line, followed by its rows.
/// An empty line separates two files. The text begins with an empty line, which is line 1.
fn first_wrong_of(alloc: Global, files: &str) -> usize {
    let mut lines = 1usize;
    for file in files.trim_matches('\n').split("\n\n") {
        let Some((file, rows)) = file.split_once('\n') else {
            return lines.saturating_add(1);
        };
        let wrong = first_wrong_under(alloc, file, rows);
        if wrong != 0 {
            return lines.saturating_add(1).saturating_add(wrong);
        }
        lines = lines.saturating_add(rows.lines().count()).saturating_add(2);
    }
    0
}

const FIRST_RULE: &str = r"
rule {␊ id first␊ for data␊ filter {␊ type name␊ name /A␊ relation is-prefix-of }␊ checker {␊ type customized␊ sig-type hmac-sha256␊ key-locator {␊ type name␊ name /ops/KEY/1␊ relation equal } } }␊ rule {␊ id second␊ for data␊ checker {␊ type customized␊ sig-type sha256 } }
data /A/x by /ops/KEY/1 key → allowed 0
data /A/x by digest → denied 0 SigType
data /B/x by /ops/KEY/1 key → denied 1 SigType
data /B/x by digest → allowed 1
";

/// The decision on a packet comes only from the first rule that applies to the packet, even if a
/// later rule would allow the packet.
#[test]
fn the_first_rule_decides(rt: HostRuntime) {
    assert_right(&rt, first_wrong_of(rt.alloc(), FIRST_RULE));
}

const OTHER_KIND: &str = r"
rule {␊ id first␊ for data␊ filter {␊ type name␊ name /A␊ relation is-prefix-of }␊ checker {␊ type customized␊ sig-type hmac-sha256␊ key-locator {␊ type name␊ name /ops/KEY/1␊ relation equal } } }␊ rule {␊ id second␊ for data␊ checker {␊ type customized␊ sig-type sha256 } }
interest /A/x by /ops/KEY/1 key → no rule
any data /A/x → rule 0
any interest /A/x → no rule
";

/// If all rules are for Data, no rule applies to an Interest.
#[test]
fn rules_of_another_kind(rt: HostRuntime) {
    assert_right(&rt, first_wrong_of(rt.alloc(), OTHER_KIND));
}

const FILTERS: &str = r"
rule {␊ id a␊ for interest␊ filter {␊ type name␊ name /A␊ relation equal }␊ filter {␊ type name␊ name /B␊ relation is-strict-prefix-of }␊ filter {␊ type name␊ name /C/d␊ relation is-prefix-of }␊ filter {␊ type name␊ regex ^<D><>{2}$ } }
any interest /A → rule 0
any interest /A/x → no rule
any interest /B → no rule
any interest /B/x → rule 0
any interest /B/x/y → rule 0
any interest /C → no rule
any interest /C/d → rule 0
any interest /C/d/e → rule 0
any interest /D/x → no rule
any interest /D/x/y → rule 0
any interest / → no rule
";

/// A rule with filters applies to a packet of its kind exactly if the packet's name passes at least
/// one of the filters.
#[test]
fn filters(rt: HostRuntime) {
    assert_right(&rt, first_wrong_of(rt.alloc(), FILTERS));
}

const REASONS_OF_KEYS: &str = r"
rule {␊ id a␊ for data␊ checker {␊ type customized␊ sig-type hmac-sha256␊ key-locator {␊ type name␊ name /ops/KEY␊ relation is-strict-prefix-of } } }
data /A by /ops/KEY/1 key → allowed 0
data /A by /ops/KEX/1 key → denied 0 KeyLocator
data /A by /ops/KEY/2 key → denied 0 KeyUnknown
data /A by /ops/KEY/1 kez → denied 0 Tag
data /A by digest → denied 0 SigType

rule {␊ id a␊ for interest␊ checker {␊ type customized␊ sig-type hmac-sha256␊ key-locator {␊ type name␊ name /ops/KEY␊ relation is-strict-prefix-of } } }
interest /A by /ops/KEY/1 key → allowed 0
interest /A by /ops/KEX/1 key → denied 0 KeyLocator
interest /A by /ops/KEY/2 key → denied 0 KeyUnknown
interest /A by /ops/KEY/1 kez → denied 0 Tag
interest /A by digest → denied 0 SigType
";

/// A checker for HmacWithSha256 refuses a Data or an Interest if the signature type, the KeyLocator
/// or the tag is wrong, or if the key is unknown.
#[test]
fn reasons_of_keys(rt: HostRuntime) {
    assert_right(&rt, first_wrong_of(rt.alloc(), REASONS_OF_KEYS));
}

const REASONS_OF_DIGESTS: &str = r"
rule {␊ id a␊ for interest␊ checker {␊ type customized␊ sig-type sha256 } }
interest /A by digest → allowed 0
interest /A by /ops/KEY/1 key → denied 0 SigType

rule {␊ id a␊ for data␊ checker {␊ type customized␊ sig-type sha256 } }
data /A by digest → allowed 0
# The last octet of the digest is another one.
octets 062f070308014115017816031b01001720e4f0b5aed03446e702356a360c7194c208b8b6a28ff30de430f1baa08ba29267 → denied 0 Tag
";

/// A checker for DigestSha256 refuses a packet if the signature type or the digest is wrong.
#[test]
fn reasons_of_digests(rt: HostRuntime) {
    assert_right(&rt, first_wrong_of(rt.alloc(), REASONS_OF_DIGESTS));
}

const NO_NAMES: &str = r"
rule {␊ id a␊ for data␊ checker {␊ type customized␊ sig-type hmac-sha256␊ key-locator {␊ type name␊ name /ops/KEY/1␊ relation equal } } }
octets 060c070308014116031b01041700 → denied 0 KeyLocator
octets 0610070308014116071b01041c021d001700 → denied 0 KeyLocator
octets 0610070308014116071b01041c0206001700 → denied 0 KeyLocator
";

/// A checker for HmacWithSha256 refuses a signature without a KeyLocator, and a signature whose
/// KeyLocator has a KeyDigest or another element instead of a Name.
#[test]
fn key_locators_that_are_no_names(rt: HostRuntime) {
    assert_right(&rt, first_wrong_of(rt.alloc(), NO_NAMES));
}

const UNSUPPORTED: &str = r"
rule {␊ id a␊ for data␊ checker {␊ type customized␊ sig-type rsa-sha256␊ key-locator {␊ type name␊ name /A␊ relation equal } } }
# A signature of type 1, SignatureSha256WithRsa.
octets 060c070308014116031b01011700 → denied 0 SigType
data /A by /ops/KEY/1 key → denied 0 SigType

rule {␊ id a␊ for data␊ checker {␊ type customized␊ sig-type ecdsa-sha256␊ key-locator {␊ type name␊ name /A␊ relation equal } } }
# A signature of type 1, SignatureSha256WithRsa.
octets 060c070308014116031b01011700 → denied 0 SigType
data /A by /ops/KEY/1 key → denied 0 SigType
";

/// A checker for RSA refuses every signature. A checker for ECDSA refuses RSA signatures and HMAC
/// signatures.
#[test]
fn unsupported_signatures(rt: HostRuntime) {
    assert_right(&rt, first_wrong_of(rt.alloc(), UNSUPPORTED));
}

const UNVERIFIED: &str = r"
rule {␊ id a␊ for data␊ filter {␊ type name␊ name /A␊ relation is-prefix-of }␊ checker {␊ type unverified } }
# SignatureTypes 0, 1, 3, 4, 5 and 200, each with an empty SignatureValue and no KeyLocator.
octets 060c070308014116031b01001700 → allowed 0
octets 060c070308014116031b01011700 → allowed 0
octets 060c070308014116031b01031700 → allowed 0
octets 060c070308014116031b01041700 → allowed 0
octets 060c070308014116031b01051700 → allowed 0
octets 060c070308014116031b01c81700 → allowed 0
data /A/x by /none/KEY/1 key → allowed 0
data /B by digest → no rule
interest /A by digest → no rule
";

/// An unverified checker passes each Data of its rule's names, whatever its signature.
#[test]
fn unverified_data(rt: HostRuntime) {
    assert_right(&rt, first_wrong_of(rt.alloc(), UNVERIFIED));
}

const GREATEST_REASON: &str = r"
rule {␊ id a␊ for data␊ checker {␊ type customized␊ sig-type sha256 }␊ checker {␊ type customized␊ sig-type hmac-sha256␊ key-locator {␊ type name␊ name /ops/KEY/2␊ relation equal } }␊ checker {␊ type customized␊ sig-type hmac-sha256␊ key-locator {␊ type name␊ name /ops/KEY/1␊ relation equal } } }
data /A by /ops/KEY/1 kez → denied 0 Tag

rule {␊ id a␊ for data␊ checker {␊ type customized␊ sig-type hmac-sha256␊ key-locator {␊ type name␊ name /ops/KEY/1␊ relation equal } }␊ checker {␊ type customized␊ sig-type hmac-sha256␊ key-locator {␊ type name␊ name /ops/KEY/2␊ relation equal } }␊ checker {␊ type customized␊ sig-type rsa-sha256␊ key-locator {␊ type name␊ name /A␊ relation equal } } }
data /A by /ops/KEY/1 kez → denied 0 Tag
";

/// If several checkers refuse a packet, their reasons may differ. Of these reasons, the decision
/// reports the one that comes last in the enum `Reason`.
#[test]
fn the_greatest_reason(rt: HostRuntime) {
    assert_right(&rt, first_wrong_of(rt.alloc(), GREATEST_REASON));
}

const NO_CHECKER_OF_THE_TYPE: &str = r"
rule {␊ id a␊ for data␊ checker {␊ type customized␊ sig-type sha256 }␊ checker {␊ type customized␊ sig-type rsa-sha256␊ key-locator {␊ type name␊ name /A␊ relation equal } } }
data /A by /ops/KEY/1 kez → denied 0 SigType

rule {␊ id a␊ for data }
data /A by /ops/KEY/1 kez → denied 0 KeyLocator
";

/// If a rule has checkers, but none for the signature type of a Data, the Data is denied with the
/// reason `SigType`. If a rule has no checkers, a Data is denied with the reason `KeyLocator`.
#[test]
fn no_checker_of_the_type(rt: HostRuntime) {
    assert_right(&rt, first_wrong_of(rt.alloc(), NO_CHECKER_OF_THE_TYPE));
}

const ONE_CHECKER: &str = r"
rule {␊ id a␊ for data␊ checker {␊ type customized␊ sig-type rsa-sha256␊ key-locator {␊ type name␊ name /A␊ relation equal } }␊ checker {␊ type customized␊ sig-type hmac-sha256␊ key-locator {␊ type name␊ name /ops/KEY/1␊ relation equal } }␊ checker {␊ type customized␊ sig-type sha256 } }
data /A by /ops/KEY/1 key → allowed 0
";

/// A Data is allowed if the first rule that applies to the Data has at least one checker that
/// accepts the Data.
#[test]
fn one_checker_passes(rt: HostRuntime) {
    assert_right(&rt, first_wrong_of(rt.alloc(), ONE_CHECKER));
}

const NOT_SIGNED: &str = r"
rule {␊ id a␊ for interest␊ filter {␊ type name␊ name /A␊ relation equal } }
octets 050b07030801410a0401020304 → denied 0 NotSigned
# With the parameter p.
octets 053007250801410220620e59c59d04596b40d4cbe11e875a127f928accec817bec4519ae74d661f47a0a0401020304240170 → denied 0 NotSigned
# Of the name /A/B.
octets 053307280801410801420220620e59c59d04596b40d4cbe11e875a127f928accec817bec4519ae74d661f47a0a0401020304240170 → no rule
";

/// If a rule applies to an Interest without a signature, the rule denies the Interest. A filter
/// tests the Interest's name without a parameters digest at its end.
#[test]
fn interests_that_are_not_signed(rt: HostRuntime) {
    assert_right(&rt, first_wrong_of(rt.alloc(), NOT_SIGNED));
}

const SIGNED_INTERESTS: &str = r"
rule {␊ id a␊ for interest␊ filter {␊ type name␊ name /A␊ relation equal } }
# Without a SignatureTime.
octets 0567072508014102204b517d4208fcf6ccf88fa54794a0898bf87bd1bd363776b41a1ffc21de2c45e40a040102030424002c141b01041c0f070d08036f707308034b45590801312e2053e19b46871ffce8148f2fb6e1f8f68051928febaf46a966ae4de3357c0525a4 → denied 0 Shape
interest /A by /ops/KEY/1 key → denied 0 KeyLocator
";

/// A rule without checkers denies every signed Interest to which it applies. The reason is `Shape`
/// if the Interest has no SignatureTime or if the parameters digest is not last in its name, and
/// `KeyLocator` otherwise.
#[test]
fn signed_interests(rt: HostRuntime) {
    assert_right(&rt, first_wrong_of(rt.alloc(), SIGNED_INTERESTS));
}

const DIGEST_INSIDE: &str = r"
rule {␊ id a␊ for interest␊ filter {␊ type name␊ regex ^<A><><B>$ }␊ checker {␊ type customized␊ sig-type sha256 } }
# The name is /A, the digest of the parameters and /B.
octets 053c0728080141022041269ed42c4350afd5f68d9befb49e040be485700083988d7704c7e1ad57baaf0801420a040102030424002c061b01002801012e00 → denied 0 Shape

rule {␊ id a␊ for interest␊ filter {␊ type name␊ regex ^<A><>$ }␊ checker {␊ type customized␊ sig-type sha256 } }
octets 053c0728080141022041269ed42c4350afd5f68d9befb49e040be485700083988d7704c7e1ad57baaf0801420a040102030424002c061b01002801012e00 → no rule

rule {␊ id a␊ for interest␊ filter {␊ type name␊ regex ^<A>$ }␊ checker {␊ type customized␊ sig-type sha256 } }
octets 053c0728080141022041269ed42c4350afd5f68d9befb49e040be485700083988d7704c7e1ad57baaf0801420a040102030424002c061b01002801012e00 → no rule
";

/// If the parameters digest is not the last component of an Interest's name, filters are matched
/// with the whole name.
#[test]
fn a_digest_inside_a_name(rt: HostRuntime) {
    assert_right(&rt, first_wrong_of(rt.alloc(), DIGEST_INSIDE));
}

const IGNORED_ELEMENTS: &str = r"
rule {␊ id a␊ for data␊ checker {␊ type customized␊ sig-type sha256 } }
# An element of type 240, which is ignored, stands before the SignatureInfo.
octets 062f0703080141f0010916031b010017207f4cf50ddc2aa108ac334034089f197d91c4e8956f89fd14bcc64d05ae511a93 → allowed 0
# The digest of the other octets.
octets 062f0703080141f0010916031b010017204dc3687307ff540517001990590b74ae07d1065ea72fb5d58aa0e03d56bb1d1c → denied 0 Tag
";

/// The signature covers elements that are otherwise ignored.
#[test]
fn ignored_elements_are_covered(rt: HostRuntime) {
    assert_right(&rt, first_wrong_of(rt.alloc(), IGNORED_ELEMENTS));
}

const HIERARCHICAL_KEYS: &str = r"
rule {␊ id a␊ for data␊ checker {␊ type hierarchical } }
data /ops by /ops/KEY/1 key → allowed 0
data /ops/x by /ops/KEY/1 key → allowed 0
data / by /ops/KEY/1 key → denied 0 KeyLocator
data /opt/x by /ops/KEY/1 key → denied 0 KeyLocator
data /ops/x by /ops/KEY/1/2 key → allowed 0
data /ops/x by /ops/KEY/1/2/3 key → allowed 0
data /ops/x by /ops/KEY/1/2/3/4 key → denied 0 KeyLocator
data /ops/x by /ops/KEY key → denied 0 KeyLocator
data /ops/x by /ops/1 key → denied 0 KeyLocator
data /ops/x by / key → denied 0 KeyLocator
data /ops/x by /KEY/1 key → allowed 0
data / by /KEY/1 key → allowed 0
# Another type, another text.
data /ops/x by /ops/9=KEY/1 key → denied 0 KeyLocator
data /ops/x by /ops/KE/1 key → denied 0 KeyLocator
# The last KEY that has one to three components after it.
data /a/x by /a/KEY/b/KEY/c key → denied 0 KeyLocator
data /a/KEY/b/x by /a/KEY/b/KEY/c key → allowed 0
data /a/x by /a/KEY/b/KEY key → allowed 0
data /a/x by /a/KEY/KEY/1 key → denied 0 KeyLocator
data /a/KEY by /a/KEY/KEY/1 key → allowed 0
data /a/x by /a/KEY/KEY key → allowed 0
";

#[test]
fn hierarchical_keys(rt: HostRuntime) {
    assert_right(&rt, first_wrong_of(rt.alloc(), HIERARCHICAL_KEYS));
}

const HYPER_RELATIONS: &str = r#"
rule {␊ id a␊ for data␊ checker {␊ type customized␊ sig-type hmac-sha256␊ key-locator {␊ type name␊ hyper-relation {␊ k-regex ^(<>*)<KEY><>$␊ k-expand \1␊ h-relation equal␊ p-regex ""␊ p-expand \0 } } } }
data /a/b by /a/b/KEY/1 key → allowed 0
data /a/b/c by /a/b/KEY/1 key → denied 0 KeyLocator
data /a by /a/b/KEY/1 key → denied 0 KeyLocator

rule {␊ id a␊ for data␊ checker {␊ type customized␊ sig-type hmac-sha256␊ key-locator {␊ type name␊ hyper-relation {␊ k-regex ^(<>*)<KEY><>$␊ k-expand \1␊ h-relation is-prefix-of␊ p-regex ""␊ p-expand \0 } } } }
data /a/b by /a/b/KEY/1 key → allowed 0
data /a/b/c by /a/b/KEY/1 key → allowed 0
data /a by /a/b/KEY/1 key → denied 0 KeyLocator

rule {␊ id a␊ for data␊ checker {␊ type customized␊ sig-type hmac-sha256␊ key-locator {␊ type name␊ hyper-relation {␊ k-regex ^(<>*)<KEY><>$␊ k-expand \1␊ h-relation is-strict-prefix-of␊ p-regex ""␊ p-expand \0 } } } }
data /a/b by /a/b/KEY/1 key → denied 0 KeyLocator
data /a/b/c by /a/b/KEY/1 key → allowed 0
data /a by /a/b/KEY/1 key → denied 0 KeyLocator

rule {␊ id a␊ for data␊ checker {␊ type customized␊ sig-type hmac-sha256␊ key-locator {␊ type name␊ hyper-relation {␊ k-regex ^(<>*)<KEY><>$␊ k-expand \1␊ h-relation is-prefix-of␊ p-regex ^<z>␊ p-expand \0 } } } }
data /a/b/c by /a/b/KEY/1 key → denied 0 KeyLocator
"#;

/// A hyper-relation compares two expanded names. The first name is expanded from the key's name,
/// and the second name is expanded from the packet's name. With `is-prefix-of`, the first name must
/// be a prefix of the second name.
#[test]
fn hyper_relations(rt: HostRuntime) {
    assert_right(&rt, first_wrong_of(rt.alloc(), HYPER_RELATIONS));
}

const TEMPLATES: &str = r"
rule {␊ id a␊ for data␊ checker {␊ type customized␊ sig-type hmac-sha256␊ key-locator {␊ type name␊ hyper-relation {␊ k-regex ^<k>(<>)$␊ k-expand <a>\1␊ h-relation equal␊ p-regex ^(<>)<>(<>)$␊ p-expand \1\2 } } } }
data /a/x/b by /k/b key → allowed 0
data /a/b/x by /k/b key → denied 0 KeyLocator
data /a/x/b by /l/b key → denied 0 KeyLocator
";

/// The templates of a hyper-relation may have components and several groups. A key is refused if
/// its name does not match the regular expression for keys.
#[test]
fn templates(rt: HostRuntime) {
    assert_right(&rt, first_wrong_of(rt.alloc(), TEMPLATES));
}

const LONG_EXPANSIONS: &str = r#"
rule {␊ id a␊ for data␊ checker {␊ type customized␊ sig-type hmac-sha256␊ key-locator {␊ type name␊ hyper-relation {␊ k-regex ""␊ k-expand \0\0\0\0\0\0\0\0␊ h-relation equal␊ p-regex ""␊ p-expand \0\0\0\0\0\0\0\0 } } } }
data /1/2/3/4/5/6/7/8 by /1/2/3/4/5/6/7/8 key → allowed 0

rule {␊ id a␊ for data␊ checker {␊ type customized␊ sig-type hmac-sha256␊ key-locator {␊ type name␊ hyper-relation {␊ k-regex ""␊ k-expand \0\0\0\0\0\0\0\0<a>␊ h-relation equal␊ p-regex ""␊ p-expand \0\0\0\0\0\0\0\0<a> } } } }
data /1/2/3/4/5/6/7/8 by /1/2/3/4/5/6/7/8 key → denied 0 KeyLocator
"#;

/// If both expanded names have more than 64 components, the packet is denied, even if the two names
/// are equal.
#[test]
fn expansions_that_are_too_long(rt: HostRuntime) {
    assert_right(&rt, first_wrong_of(rt.alloc(), LONG_EXPANSIONS));
}

const HYPER_OF_INTERESTS: &str = r#"
rule {␊ id a␊ for interest␊ checker {␊ type customized␊ sig-type hmac-sha256␊ key-locator {␊ type name␊ hyper-relation {␊ k-regex ^(<>*)<KEY><>$␊ k-expand \1␊ h-relation equal␊ p-regex ""␊ p-expand \0 } } } }
interest /ops by /ops/KEY/1 key → allowed 0
"#;

/// A hyper-relation leaves out the parameters digest of an Interest's name.
#[test]
fn hyper_relations_of_interests(rt: HostRuntime) {
    assert_right(&rt, first_wrong_of(rt.alloc(), HYPER_OF_INTERESTS));
}

const KEY_OF_NAME_OPS_KEY: &str = r"
rule {␊ id a␊ for interest␊ checker {␊ type customized␊ sig-type hmac-sha256␊ key-locator {␊ type name␊ name /ops/KEY␊ relation equal } } }
";

/// Returns whether an Interest for /A, signed by the key /ops/KEY, gets the decision `wanted` if
/// the key file is `keys`.
fn is_ops_decided(alloc: Global, keys: &str, wanted: &str) -> bool {
    let packet =
        "octets 05670725080141022052d80660e71c995e200e90fca82774055b6c5240685cab9cef7cdb476c5d1c240a040102030424002c141b01041c0c070a08036f707308034b45592801012e200e161f3e3217de961e12f02dca786e191af9e5a29166ddb8293582ab256106cd";
    told_of(alloc, KEY_OF_NAME_OPS_KEY, keys, packet).is_some_and(|told| told.as_str() == wanted)
}

/// An Interest's signature covers the name before the parameters digest, and the octets from the
/// start of the ApplicationParameters to the start of the InterestSignatureValue. If the key file
/// has other octets for the key, the tag is wrong. If the key file has no line for the key, the key
/// is unknown.
#[test]
fn both_parts_are_covered(rt: HostRuntime) {
    assert!(rt; is_ops_decided(rt.alloc(), "/ops/KEY 6b6579", "allowed 0"));
    assert!(rt; is_ops_decided(rt.alloc(), "/ops/KEY 6b657a", "denied 0 Tag"));
    assert!(rt; is_ops_decided(rt.alloc(), "", "denied 0 KeyUnknown"));
}
