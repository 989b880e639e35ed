//! Tests of the writers of packets.

use crate::packets::outcome_of;
use crate::rows::check_rows;
use ndn_names::Name;
use ndn_packets::*;
use std::alloc::Global;
use std::test::*;
use test_support::octets;

/// Returns the octets that a writer appended to `out`, or the writer's fault. Before the writer
/// ran, `out` held only the octet 9. If the writer failed but appended octets, returns a text that
/// says so. If the writer succeeded and appended more than 1,000 octets, returns the number of
/// these octets and the outcome of reading them.
fn appended(alloc: Global, fault: Option<&str>, out: &[u8]) -> Option<String> {
    let written = out.strip_prefix(&[9])?;
    match fault {
        Some(_) if !written.is_empty() => String::from_str(alloc, "some octets of it").ok(),
        Some(fault) => String::from_str(alloc, fault).ok(),
        None if written.len() > 1000 => {
            format!(in alloc; "{} octets: {}", written.len(), outcome_of(written)).ok()
        }
        None => hex::encode(alloc, written).ok(),
    }
}

/// Reads how to sign. `-` means no signature, `digest` means a digest, and every other text means
/// HMAC under the key "key". The key has the name `key_name`.
fn sign<'a>(asked: &str, key_name: &'a [u8]) -> Option<Option<Sign<'a>>> {
    match asked {
        "-" => Some(None),
        "digest" => Some(Some(Sign::Digest)),
        _ => {
            let name = Name::read(key_name).ok()?;
            Some(Some(Sign::Hmac { name, key: b"key" }))
        }
    }
}

/// Returns what is written for an Interest, or the fault.
fn written_interest(alloc: Global, writer: &InterestWriter<'_>) -> Option<String> {
    let mut out = vec![in alloc; 9].ok()?;
    let fault = writer.write(&mut out).err().map(|fault| fault.name());
    appended(alloc, fault, &out)
}

/// The octets that a row gives for a packet: the name, a value, and the name of a key. The value is
/// the ApplicationParameters of an Interest or the Content of a Data.
#[derive(Drop)]
struct Octets {
    name: Vec<u8>,
    value: Option<Vec<u8>>,
    key_name: Option<Vec<u8>>,
}

/// Returns the octets in three columns: the name in the first column, the value at index `value`,
/// and the name of a key at index `key`.
fn octets_in(alloc: Global, columns: &[&str], value: usize, key: usize) -> Option<Octets> {
    let (name, value, key) = (columns.first()?, columns.get(value)?, columns.get(key)?);
    let name = octets(alloc, name)?;
    Some(Octets {
        name,
        value: octets(alloc, value),
        key_name: octets(alloc, key),
    })
}

/// Returns what is written for an Interest with these columns and their octets, or the fault.
fn interest_of(alloc: Global, columns: &[&str], octets: &Octets) -> Option<String> {
    let [_, prefix, fresh, lifetime, hops, _, key, time, seq] = columns else {
        return None;
    };
    let writer = InterestWriter {
        name: Name::read(&octets.name).ok()?,
        can_be_prefix: *prefix == "true",
        must_be_fresh: *fresh == "true",
        nonce: [1, 2, 3, 4],
        lifetime: lifetime.parse().ok(),
        hop_limit: hops.parse().ok(),
        parameters: octets.value.as_deref(),
        sign: sign(key, octets.key_name.as_deref().unwrap_or(&[]))?,
        time: time.parse().ok(),
        seq: seq.parse().ok(),
    };
    written_interest(alloc, &writer)
}

/// Returns what is written for an Interest with the fields in `columns`, or the fault.
fn interest_in(alloc: Global, columns: &[&str]) -> Option<String> {
    let octets = octets_in(alloc, columns, 5, 6)?;
    interest_of(alloc, columns, &octets)
}

/// Reads the fields of an Interest from a row. Returns what is written for the Interest, or the
/// fault.
fn interest(alloc: Global, input: &str) -> Option<String> {
    let columns: Vec<&str> = input.split(", ").collect(alloc).ok()?;
    interest_in(alloc, columns.as_slice())
}

/// Returns what is written for a Data, or the fault.
fn written(alloc: Global, writer: &DataWriter<'_>) -> Option<String> {
    let mut out = vec![in alloc; 9].ok()?;
    let fault = writer.write(&mut out).err().map(|fault| fault.name());
    appended(alloc, fault, &out)
}

/// Returns what is written for a Data with these columns and their octets, or the fault.
fn data_of(alloc: Global, columns: &[&str], octets: &Octets) -> Option<String> {
    let [_, freshness, last, _, key] = columns else {
        return None;
    };
    let writer = DataWriter {
        name: Name::read(&octets.name).ok()?,
        freshness: freshness.parse().ok(),
        last: last.parse().ok(),
        content: octets.value.as_deref(),
        sign: sign(key, octets.key_name.as_deref().unwrap_or(&[]))??,
    };
    written(alloc, &writer)
}

/// Returns what is written for a Data with the fields in `columns`, or the fault.
fn data_in(alloc: Global, columns: &[&str]) -> Option<String> {
    let octets = octets_in(alloc, columns, 3, 4)?;
    data_of(alloc, columns, &octets)
}

/// Reads the fields of a Data from a row. Returns what is written for the Data, or the fault.
fn data(alloc: Global, input: &str) -> Option<String> {
    let columns: Vec<&str> = input.split(", ").collect(alloc).ok()?;
    data_in(alloc, columns.as_slice())
}

/// Returns what is written for a reply with this name and this Content, or the fault.
fn written_reply(alloc: Global, name: &[u8], content: &[u8]) -> Option<String> {
    let name = Name::read(name).ok()?;
    let mut out = vec![in alloc; 9].ok()?;
    let done = put_reply(&mut out, name, content);
    appended(alloc, done.err().map(|_| "Memory"), &out)
}

/// Reads the name and the Content of a reply from a row. Returns what is written for the reply, or
/// the fault.
fn reply(alloc: Global, input: &str) -> Option<String> {
    let (name, content) = input.split_once(", ")?;
    let name = octets(alloc, name)?;
    let content = octets(alloc, content)?;
    written_reply(alloc, &name, &content)
}

/// Returns what is written for a Nack, or the fault.
fn written_nack_of(alloc: Global, reason: u64, interest: &[u8]) -> Option<String> {
    let mut out = vec![in alloc; 9].ok()?;
    let done = put_nack(&mut out, reason, interest);
    appended(alloc, done.err().map(|_| "Memory"), &out)
}

/// Reads the reason and the Interest of a Nack from a row. Returns what is written for the Nack, or
/// the fault.
fn nack(alloc: Global, input: &str) -> Option<String> {
    let (reason, interest) = input.split_once(", ")?;
    let reason = reason.parse().ok()?;
    let interest = octets(alloc, interest)?;
    written_nack_of(alloc, reason, &interest)
}

#[test]
fn written_interests(rt: HostRuntime) {
    let rows = "
# The name, CanBePrefix, MustBeFresh, InterestLifetime, HopLimit, parameters, signature or the name of its key, time, number.
080141, false, false, -, -, -, -, -, - -> 050b07030801410a0401020304
080141, true, true, 70000, 3, 78797a, digest, 1700000000000, 300 -> 057407250801410220433733651c22f9081b88f8a1ccb85813234798c8ec21eb61e05ef829a8bcaac5210012000a04010203040c0400011170220103240378797a2c111b010028080000018bcfe568002a02012c2e20393bff8b35c0fe61f677c386441a16f3757d03f4cd16c2c078b0412ed8d1aa3e
";
    check_rows(&rt, rt.alloc(), rows, interest);
}

#[test]
fn refused_interests(rt: HostRuntime) {
    let rows = "
# No component, and a digest of parameters.
00x0, false, false, -, -, -, -, -, - -> BadName
0801410220561abdfddbd70e7224b440f9b482af5e1abb750a267ccfd77b4d23a0d1d41649, false, false, -, -, -, -, -, - -> BadName
# 64 components, with parameters and without.
0800x64, false, false, -, -, 00x0, -, -, - -> TooLong
0800x64, false, false, -, -, -, -, -, - -> 0588078008000800080008000800080008000800080008000800080008000800080008000800080008000800080008000800080008000800080008000800080008000800080008000800080008000800080008000800080008000800080008000800080008000800080008000800080008000800080008000800080008000800080008000a0401020304
# 8,800 octets, and one more.
080141, false, false, -, -, 00x8747, -, -, - -> 8800 octets: read
080141, false, false, -, -, 00x8748, -, -, - -> TooLong
";
    check_rows(&rt, rt.alloc(), rows, interest);
}

/// The writer and another program give the same octets for a management command. The command is
/// signed with an HMAC key.
#[test]
fn command_signed_by_a_key(rt: HostRuntime) {
    let rows = "
08096c6f63616c686f737408036e66640803666962080b6164642d6e657874686f70080a68080703080141690102, false, false, -, -, -, 08036f707308034b4559080131, 1000000, - -> 0598075008096c6f63616c686f737408036e66640803666962080b6164642d6e657874686f70080a680807030801416901020220b3efe71974da9dc26e88d0c074c8f0ff34ea85c38b109d9e9c6400b87694f2f20a040102030424002c1a1b01041c0f070d08036f707308034b45590801312804000f42402e20d113cf38056af9bbbec876471f4b51934978ef69345464b05cb762148eaa5dbb
";
    check_rows(&rt, rt.alloc(), rows, interest);
}

#[test]
fn written_nack(rt: HostRuntime) {
    let rows = "
150, 050b07030801410a0401020304 -> 6418fd032005fd03210196500d050b07030801410a0401020304
";
    check_rows(&rt, rt.alloc(), rows, nack);
}

#[test]
fn written_data(rt: HostRuntime) {
    let rows = "
# The name, FreshnessPeriod, last segment, Content, signature or the name of its key.
080141, -, -, 78, digest -> 062f070308014115017816031b01001720e4f0b5aed03446e702356a360c7194c208b8b6a28ff30de430f1baa08ba29266
# A MetaInfo, and no Content.
080141, 1000, 256, -, digest -> 06380703080141140a190203e81a043202010016031b01001720bc41b50dc0671b5f2b860ff747491d5deb49c1df9f140c0349c0005244cc483c
# The HMAC with the key \"key\" was computed apart from this library.
080141, -, -, 78, 08036f707308034b4559080131 -> 0640070308014115017816141b01041c0f070d08036f707308034b455908013117209da68165d14c74abf0d3f4f40da0924777657490283d0bd394af1f64855c8b00
";
    check_rows(&rt, rt.alloc(), rows, data);
    let rows = "
080141, 78 -> 062f070308014115017816031b01001720e4f0b5aed03446e702356a360c7194c208b8b6a28ff30de430f1baa08ba29266
";
    check_rows(&rt, rt.alloc(), rows, reply);
}

#[test]
fn lengths_of_data(rt: HostRuntime) {
    let rows = "
# 8,800 octets, and one more.
080141, -, -, 00x8748, digest -> 8800 octets: read
080141, -, -, 00x8749, digest -> TooLong
# The name of a key so long that the Data has 8,800 octets, and one more.
080141, -, -, 78, 08fd221f 00x8735 -> 8800 octets: read
080141, -, -, 78, 08fd2220 00x8736 -> TooLong
";
    check_rows(&rt, rt.alloc(), rows, data);
    let rows = "
080141, 00x8748 -> 8800 octets: read
# A reply has no limit.
080141, 00x8749 -> 8801 octets: TooLong
";
    check_rows(&rt, rt.alloc(), rows, reply);
    let rows = "
080141, false, false, -, -, -, 08fd221f 00x8735, -, - -> TooLong
080141, false, false, -, -, -, 08fd2220 00x8736, -, - -> TooLong
";
    check_rows(&rt, rt.alloc(), rows, interest);
}

/// Returns whether `show` gives a text that begins with `begin` for this input. If memory runs out,
/// the result is true as well.
fn begins_or_memory(
    alloc: Global,
    show: fn(Global, &str) -> Option<String>,
    input: &str,
    begin: &str,
) -> bool
    requires { IsAlwaysCallable show }
{
    match show(alloc, input) {
        None => true,
        Some(shown) => shown.starts_with(begin) || shown.as_str() == "Memory",
    }
}

/// A writer appends nothing if memory runs out.
#[test]
fn refused_memory(rt: HostRuntime) {
    let signed = "080141, false, false, -, -, -, digest, -, -";
    assert!(rt; begins_or_memory(rt.alloc(), interest, signed, "05"));
    assert!(rt; begins_or_memory(rt.alloc(), data, "080141, -, -, 78, digest", "06"));
    assert!(rt; begins_or_memory(rt.alloc(), reply, "080141, 78", "06"));
    assert!(rt; begins_or_memory(rt.alloc(), nack, "150, 050b07030801410a0401020304", "64"));
}

/// An Interest with the Name /A.
const PLAIN: &[u8] = b"\x05\x0b\x07\x03\x08\x01A\x0a\x04\x01\x02\x03\x04";

/// A Nack of the Interest `PLAIN`. The reason of the Nack is NoRoute.
const NACK: &[u8] =
    b"\x64\x18\xfd\x03\x20\x05\xfd\x03\x21\x01\x96\x50\x0d\x05\x0b\x07\x03\x08\x01A\x0a\x04\x01\x02\x03\x04";

/// Appends an Interest and a Data with this name.
fn put_both(out: &mut Vec<u8>, name: Name<'_>) -> Option<()> {
    let interest = InterestWriter {
        name,
        can_be_prefix: false,
        must_be_fresh: false,
        nonce: [1, 2, 3, 4],
        lifetime: None,
        hop_limit: None,
        parameters: None,
        sign: None,
        time: None,
        seq: None,
    };
    interest.write(out).ok()?;
    let data = DataWriter {
        name,
        freshness: None,
        last: None,
        content: Some(b"x"),
        sign: Sign::Digest,
    };
    data.write(out).ok()
}

/// Appends an Interest, a Data, a reply and a Nack to an empty output. Returns the length and the
/// capacity of the output, if the output begins with `PLAIN` and ends with `NACK`.
fn fill(out: &mut Vec<u8>) -> Option<(usize, usize)> {
    let name = Name::read(b"\x08\x01A").ok()?;
    put_both(out, name)?;
    put_reply(out, name, b"x").ok()?;
    put_nack(out, 150, PLAIN).ok()?;
    (out.starts_with(PLAIN) && out.ends_with(NACK)).then_some((out.len(), out.capacity()))
}

/// Calls `fill` with an empty output that has a capacity of 200 octets. Returns the length and the
/// capacity of the output after this call.
fn filled_room(alloc: Global) -> Option<(usize, usize)> {
    let mut out = Vec::with_capacity(alloc, 200).ok()?;
    fill(&mut out)
}

/// The writers leave the first packet of an output unchanged. An output with enough capacity keeps
/// this capacity.
#[test]
fn room_is_used(rt: HostRuntime) {
    assert!(rt; filled_room(rt.alloc()) == Some((13 + 49 + 49 + 26, 200)));
}
