//! Names: components, canonical order, URI text (NDN Packet Format 0.3, "Name", "NDN URI Scheme").

use crate::rows::check_rows;
use ndn_names::*;
use std::alloc::Global;
use std::cmp::Ordering;
use std::hash::{DefaultHasher, Hash, Hasher};
use std::test::*;
use test_support::octets;

fn fault_text(alloc: Global, fault: NameFault) -> Option<String> {
    format!(in alloc; "{fault:?}").ok()
}

/// Reads a name from octets. Returns the number of the name's components and the last component, or
/// the fault if the octets are not a name.
fn components(alloc: Global, input: &str) -> Option<String> {
    let octets = octets(alloc, input)?;
    match Name::read(&octets) {
        Ok(name) => number_and_last(alloc, name),
        Err(fault) => fault_text(alloc, fault),
    }
}

/// Returns the number of a name's components, and the last component if there is one. Returns
/// `None` if the name's iterator returns another number of components, or if `Name::component`
/// returns a component for the index after the last one.
fn number_and_last(alloc: Global, name: Name<'_>) -> Option<String> {
    let len = name.len();
    if name.iter().count() != len || name.component(len).is_some() {
        return None;
    }
    if name.is_empty() {
        return len.to_string(alloc).ok();
    }
    last_shown(alloc, len, name.component(len - 1)?)
}

fn last_shown(alloc: Global, len: usize, last: Component<'_>) -> Option<String> {
    let value = hex::encode(alloc, last.value).ok()?;
    format!(in alloc; "{len}, the last {}:{value}", last.kind).ok()
}

#[test]
fn components_of_names(rt: HostRuntime) {
    let rows = "
 -> 0
08014108024141 -> 2, the last 8:4141
fdffff00 -> 1, the last 65535:
0000 -> BadComponent
fe0001000000 -> BadComponent
08 -> BadComponent
080241 -> BadComponent
fd000800 -> BadComponent
080008 -> BadComponent
";
    check_rows(&rt, rt.alloc(), rows, components);
}

#[test]
fn at_most_64_components(rt: HostRuntime) {
    let rows = "
080141x64 -> 64, the last 8:41
080141x64 0800 -> TooManyComponents
# The 65th component is not read.
080141x64 08 -> TooManyComponents
080141x64 0000 -> TooManyComponents
080141x64 0100 -> TooManyComponents
080141x64 080008 -> TooManyComponents
080141x65 08 -> TooManyComponents
";
    check_rows(&rt, rt.alloc(), rows, components);
}

#[test]
fn digest_lengths(rt: HostRuntime) {
    let rows = "
011f 07x31 -> BadDigestLength
0120 07x32 -> 1, the last 1:0707070707070707070707070707070707070707070707070707070707070707
0121 07x33 -> BadDigestLength
021f 07x31 -> BadDigestLength
0220 07x32 -> 1, the last 2:0707070707070707070707070707070707070707070707070707070707070707
0221 07x33 -> BadDigestLength
";
    check_rows(&rt, rt.alloc(), rows, components);
}

/// Returns the name with the components in `input`. Each component is a type and a value.
fn name_of(alloc: Global, input: &str) -> Option<NameBuf> {
    let mut name = NameBuf::new(alloc);
    for component in input.split_ascii_whitespace() {
        append(alloc, &mut name, component)?;
    }
    Some(name)
}

fn append(alloc: Global, name: &mut NameBuf, component: &str) -> Option<()> {
    let (kind, value) = component.split_once(':')?;
    let kind = kind.parse().ok()?;
    name.append(kind, &octets(alloc, value)?).ok()
}

/// Appends a component to a name. Returns the octets of the longer name, or the fault if the append
/// fails. Returns `None` if the append fails but changes the name.
fn appended(alloc: Global, input: &str) -> Option<String> {
    let (start, component) = input.split_once("+ ")?;
    let (kind, value) = component.split_once(':')?;
    let kind = kind.parse().ok()?;
    let start = octets(alloc, start)?;
    let value = octets(alloc, value)?;
    appended_to(alloc, &start, kind, &value)
}

fn appended_to(alloc: Global, start: &[u8], kind: u16, value: &[u8]) -> Option<String> {
    let mut name = NameBuf::from_name(alloc, Name::read(start).ok()?).ok()?;
    let fault = name.append(kind, value).err();
    name_or_fault(alloc, start, name.view(), fault)
}

fn name_or_fault(
    alloc: Global,
    start: &[u8],
    name: Name<'_>,
    fault: Option<NameFault>,
) -> Option<String> {
    match fault {
        None => hex::encode(alloc, name.as_octets()).ok(),
        Some(fault) if name.as_octets() == start => fault_text(alloc, fault),
        Some(_) => None,
    }
}

#[test]
fn appended_components(rt: HostRuntime) {
    let rows = "
+ 8:41 -> 080141
080141 + 0:41 -> BadComponent
080141 + 2:41 -> BadDigestLength
080141 + 8:4141 -> 08014108024141
# 64 components are the most.
0800x63 + 8: -> 0800080008000800080008000800080008000800080008000800080008000800080008000800080008000800080008000800080008000800080008000800080008000800080008000800080008000800080008000800080008000800080008000800080008000800080008000800080008000800080008000800080008000800
0800x64 + 0: -> TooManyComponents
";
    check_rows(&rt, rt.alloc(), rows, appended);
}

/// Returns the URI text of the name with these components. Returns `None` if reading the text does
/// not give the same name.
fn uri_of(alloc: Global, input: &str) -> Option<String> {
    let name = name_of(alloc, input)?;
    let text = name.to_uri(alloc).ok()?;
    reads_as(alloc, &text, &name).then_some(text)
}

/// Returns whether reading a URI text gives this name.
fn reads_as(alloc: Global, text: &str, name: &NameBuf) -> bool {
    NameBuf::from_uri(alloc, text).is_ok_and(|read| read == *name)
}

#[test]
fn name_order_and_uri(rt: HostRuntime) {
    let rows = "
8:612062 -> /a%20b
8:2e -> /....
8: -> /...
50:05 -> /seg=5
50:0005 -> /50=%00%05
";
    check_rows(&rt, rt.alloc(), rows, uri_of);
    let rows = "
/A /A/sha256digest=0000000000000000000000000000000000000000000000000000000000000000 -> Less, a prefix
/A/sha256digest=0000000000000000000000000000000000000000000000000000000000000000 /A/... -> Less
/A/... /A/B -> Less
/A/B /A/AA -> Less
";
    check_rows(&rt, rt.alloc(), rows, relation);
}

/// In a URI, every octet except letters, digits, `-`, `.`, `_` and `~` is percent-encoded. The test
/// has each octet in a component of its own, and all octets in one component.
#[test]
fn every_octet(rt: HostRuntime) {
    let rows = "
8:00 8:01 8:02 8:03 8:04 8:05 8:06 8:07 8:08 8:09 8:0a 8:0b 8:0c 8:0d 8:0e 8:0f -> /%00/%01/%02/%03/%04/%05/%06/%07/%08/%09/%0A/%0B/%0C/%0D/%0E/%0F
8:10 8:11 8:12 8:13 8:14 8:15 8:16 8:17 8:18 8:19 8:1a 8:1b 8:1c 8:1d 8:1e 8:1f -> /%10/%11/%12/%13/%14/%15/%16/%17/%18/%19/%1A/%1B/%1C/%1D/%1E/%1F
8:20 8:21 8:22 8:23 8:24 8:25 8:26 8:27 8:28 8:29 8:2a 8:2b 8:2c 8:2d 8:2e 8:2f -> /%20/%21/%22/%23/%24/%25/%26/%27/%28/%29/%2A/%2B/%2C/-/..../%2F
8:30 8:31 8:32 8:33 8:34 8:35 8:36 8:37 8:38 8:39 8:3a 8:3b 8:3c 8:3d 8:3e 8:3f -> /0/1/2/3/4/5/6/7/8/9/%3A/%3B/%3C/%3D/%3E/%3F
8:40 8:41 8:42 8:43 8:44 8:45 8:46 8:47 8:48 8:49 8:4a 8:4b 8:4c 8:4d 8:4e 8:4f -> /%40/A/B/C/D/E/F/G/H/I/J/K/L/M/N/O
8:50 8:51 8:52 8:53 8:54 8:55 8:56 8:57 8:58 8:59 8:5a 8:5b 8:5c 8:5d 8:5e 8:5f -> /P/Q/R/S/T/U/V/W/X/Y/Z/%5B/%5C/%5D/%5E/_
8:60 8:61 8:62 8:63 8:64 8:65 8:66 8:67 8:68 8:69 8:6a 8:6b 8:6c 8:6d 8:6e 8:6f -> /%60/a/b/c/d/e/f/g/h/i/j/k/l/m/n/o
8:70 8:71 8:72 8:73 8:74 8:75 8:76 8:77 8:78 8:79 8:7a 8:7b 8:7c 8:7d 8:7e 8:7f -> /p/q/r/s/t/u/v/w/x/y/z/%7B/%7C/%7D/~/%7F
8:80 8:81 8:82 8:83 8:84 8:85 8:86 8:87 8:88 8:89 8:8a 8:8b 8:8c 8:8d 8:8e 8:8f -> /%80/%81/%82/%83/%84/%85/%86/%87/%88/%89/%8A/%8B/%8C/%8D/%8E/%8F
8:90 8:91 8:92 8:93 8:94 8:95 8:96 8:97 8:98 8:99 8:9a 8:9b 8:9c 8:9d 8:9e 8:9f -> /%90/%91/%92/%93/%94/%95/%96/%97/%98/%99/%9A/%9B/%9C/%9D/%9E/%9F
8:a0 8:a1 8:a2 8:a3 8:a4 8:a5 8:a6 8:a7 8:a8 8:a9 8:aa 8:ab 8:ac 8:ad 8:ae 8:af -> /%A0/%A1/%A2/%A3/%A4/%A5/%A6/%A7/%A8/%A9/%AA/%AB/%AC/%AD/%AE/%AF
8:b0 8:b1 8:b2 8:b3 8:b4 8:b5 8:b6 8:b7 8:b8 8:b9 8:ba 8:bb 8:bc 8:bd 8:be 8:bf -> /%B0/%B1/%B2/%B3/%B4/%B5/%B6/%B7/%B8/%B9/%BA/%BB/%BC/%BD/%BE/%BF
8:c0 8:c1 8:c2 8:c3 8:c4 8:c5 8:c6 8:c7 8:c8 8:c9 8:ca 8:cb 8:cc 8:cd 8:ce 8:cf -> /%C0/%C1/%C2/%C3/%C4/%C5/%C6/%C7/%C8/%C9/%CA/%CB/%CC/%CD/%CE/%CF
8:d0 8:d1 8:d2 8:d3 8:d4 8:d5 8:d6 8:d7 8:d8 8:d9 8:da 8:db 8:dc 8:dd 8:de 8:df -> /%D0/%D1/%D2/%D3/%D4/%D5/%D6/%D7/%D8/%D9/%DA/%DB/%DC/%DD/%DE/%DF
8:e0 8:e1 8:e2 8:e3 8:e4 8:e5 8:e6 8:e7 8:e8 8:e9 8:ea 8:eb 8:ec 8:ed 8:ee 8:ef -> /%E0/%E1/%E2/%E3/%E4/%E5/%E6/%E7/%E8/%E9/%EA/%EB/%EC/%ED/%EE/%EF
8:f0 8:f1 8:f2 8:f3 8:f4 8:f5 8:f6 8:f7 8:f8 8:f9 8:fa 8:fb 8:fc 8:fd 8:fe 8:ff -> /%F0/%F1/%F2/%F3/%F4/%F5/%F6/%F7/%F8/%F9/%FA/%FB/%FC/%FD/%FE/%FF
8:000102030405060708090a0b0c0d0e0f101112131415161718191a1b1c1d1e1f202122232425262728292a2b2c2d2e2f303132333435363738393a3b3c3d3e3f404142434445464748494a4b4c4d4e4f505152535455565758595a5b5c5d5e5f606162636465666768696a6b6c6d6e6f707172737475767778797a7b7c7d7e7f808182838485868788898a8b8c8d8e8f909192939495969798999a9b9c9d9e9fa0a1a2a3a4a5a6a7a8a9aaabacadaeafb0b1b2b3b4b5b6b7b8b9babbbcbdbebfc0c1c2c3c4c5c6c7c8c9cacbcccdcecfd0d1d2d3d4d5d6d7d8d9dadbdcdddedfe0e1e2e3e4e5e6e7e8e9eaebecedeeeff0f1f2f3f4f5f6f7f8f9fafbfcfdfeff -> /%00%01%02%03%04%05%06%07%08%09%0A%0B%0C%0D%0E%0F%10%11%12%13%14%15%16%17%18%19%1A%1B%1C%1D%1E%1F%20%21%22%23%24%25%26%27%28%29%2A%2B%2C-.%2F0123456789%3A%3B%3C%3D%3E%3F%40ABCDEFGHIJKLMNOPQRSTUVWXYZ%5B%5C%5D%5E_%60abcdefghijklmnopqrstuvwxyz%7B%7C%7D~%7F%80%81%82%83%84%85%86%87%88%89%8A%8B%8C%8D%8E%8F%90%91%92%93%94%95%96%97%98%99%9A%9B%9C%9D%9E%9F%A0%A1%A2%A3%A4%A5%A6%A7%A8%A9%AA%AB%AC%AD%AE%AF%B0%B1%B2%B3%B4%B5%B6%B7%B8%B9%BA%BB%BC%BD%BE%BF%C0%C1%C2%C3%C4%C5%C6%C7%C8%C9%CA%CB%CC%CD%CE%CF%D0%D1%D2%D3%D4%D5%D6%D7%D8%D9%DA%DB%DC%DD%DE%DF%E0%E1%E2%E3%E4%E5%E6%E7%E8%E9%EA%EB%EC%ED%EE%EF%F0%F1%F2%F3%F4%F5%F6%F7%F8%F9%FA%FB%FC%FD%FE%FF
";
    check_rows(&rt, rt.alloc(), rows, uri_of);
}

#[test]
fn words_of_numbers(rt: HostRuntime) {
    let rows = "
50:00 -> /seg=0
50:fc -> /seg=252
50:fd -> /seg=253
50:ffff -> /seg=65535
50:00010000 -> /seg=65536
50:ffffffffffffffff -> /seg=18446744073709551615
50: -> /50=...
50:00fc -> /50=%00%FC
50:00004141 -> /50=%00%00AA
50:010203 -> /50=%01%02%03
52:00 -> /off=0
52:fc -> /off=252
52:fd -> /off=253
52:ffff -> /off=65535
52:00010000 -> /off=65536
52:ffffffffffffffff -> /off=18446744073709551615
52: -> /52=...
52:00fc -> /52=%00%FC
52:00004141 -> /52=%00%00AA
52:010203 -> /52=%01%02%03
54:00 -> /v=0
54:fc -> /v=252
54:fd -> /v=253
54:ffff -> /v=65535
54:00010000 -> /v=65536
54:ffffffffffffffff -> /v=18446744073709551615
54: -> /54=...
54:00fc -> /54=%00%FC
54:00004141 -> /54=%00%00AA
54:010203 -> /54=%01%02%03
56:00 -> /t=0
56:fc -> /t=252
56:fd -> /t=253
56:ffff -> /t=65535
56:00010000 -> /t=65536
56:ffffffffffffffff -> /t=18446744073709551615
56: -> /56=...
56:00fc -> /56=%00%FC
56:00004141 -> /56=%00%00AA
56:010203 -> /56=%01%02%03
58:00 -> /seq=0
58:fc -> /seq=252
58:fd -> /seq=253
58:ffff -> /seq=65535
58:00010000 -> /seq=65536
58:ffffffffffffffff -> /seq=18446744073709551615
58: -> /58=...
58:00fc -> /58=%00%FC
58:00004141 -> /58=%00%00AA
58:010203 -> /58=%01%02%03
";
    check_rows(&rt, rt.alloc(), rows, uri_of);
    let rows = "
/seg=0000000000000000000000005 -> 320105
/off=0000000000000000000000005 -> 340105
/v=0000000000000000000000005 -> 360105
/t=0000000000000000000000005 -> 380105
/seq=0000000000000000000000005 -> 3a0105
";
    check_rows(&rt, rt.alloc(), rows, octets_of);
}

/// Reads a URI text as a name. Returns the octets of the name, or the fault. Returns `None` if the
/// result of `uri_len` disagrees with the number of the name's components or with the fault.
fn octets_of(alloc: Global, input: &str) -> Option<String> {
    match NameBuf::from_uri(alloc, input) {
        Ok(name) => octets_counted(alloc, name.view(), uri_len(input)),
        Err(fault) => fault_counted(alloc, fault, uri_len(input)),
    }
}

/// Returns the octets of a name, or `None` if `counted` is not the number of the name's components.
fn octets_counted(
    alloc: Global,
    name: Name<'_>,
    counted: Result<usize, NameFault>,
) -> Option<String> {
    if counted != Ok(name.len()) {
        return None;
    }
    hex::encode(alloc, name.as_octets()).ok()
}

/// Returns `fault` as text, or `None` if `counted` is not this fault.
fn fault_counted(
    alloc: Global,
    fault: NameFault,
    counted: Result<usize, NameFault>,
) -> Option<String> {
    if counted != Err(fault) {
        return None;
    }
    fault_text(alloc, fault)
}

/// Returns whether two URI texts read as the same name, or `None` if swapping the texts changes the
/// result.
fn are_equal(alloc: Global, input: &str) -> Option<String> {
    let (a, b) = input.split_once(' ')?;
    let equal = uris_are_equal(a, b);
    if equal != uris_are_equal(b, a) {
        return None;
    }
    equal.to_string(alloc).ok()
}

#[test]
fn equal_uris(rt: HostRuntime) {
    let rows = "
/A /A -> true
/A ndn:/%41/ -> true
/A/B /8=A/B -> true
/ ndn:// -> true
/... /%2e.%2E -> true
/seg=5 /50=%05 -> true
/seg=256 /50=%01%00 -> true
/v=65536 /54=%00%01%00%00 -> true
/t=4294967296 /56=%00%00%00%01%00%00%00%00 -> true
/seq=18446744073709551615 /58=%ff%ff%ff%ff%ff%ff%ff%ff -> true
/seg=5 /seg=0005 -> true
/sha256digest=6162636465666768696A6b6c6d6e6f707172737475767778797a303132333435 /1=abcdefghijklmnopqrstuvwxyz01234%35 -> true
/A /B -> false
/A /a -> false
/A /A/B -> false
/A/B /A/C -> false
/A /AA -> false
/A /9=A -> false
/seg=5 /seg=6 -> false
/seg=5 /off=5 -> false
/seg=5 /50=%00%05 -> false
/seg=256 /50=%01%01 -> false
# A text that reads as no name.
/% /% -> false
/A/% /A/% -> false
A A -> false
";
    check_rows(&rt, rt.alloc(), rows, are_equal);
}

#[test]
fn digests(rt: HostRuntime) {
    let rows = "
1:a5a5a5a5a5a5a5a5a5a5a5a5a5a5a5a5a5a5a5a5a5a5a5a5a5a5a5a5a5a5a50f -> /sha256digest=a5a5a5a5a5a5a5a5a5a5a5a5a5a5a5a5a5a5a5a5a5a5a5a5a5a5a5a5a5a5a50f
2:a5a5a5a5a5a5a5a5a5a5a5a5a5a5a5a5a5a5a5a5a5a5a5a5a5a5a5a5a5a5a50f -> /params-sha256=a5a5a5a5a5a5a5a5a5a5a5a5a5a5a5a5a5a5a5a5a5a5a5a5a5a5a5a5a5a5a50f
";
    check_rows(&rt, rt.alloc(), rows, uri_of);
    let rows = "
/sha256digest=A5A5A5A5A5A5A5A5A5A5A5A5A5A5A5A5A5A5A5A5A5A5A5A5A5A5A5A5A5A5A50F -> 0120a5a5a5a5a5a5a5a5a5a5a5a5a5a5a5a5a5a5a5a5a5a5a5a5a5a5a5a5a5a5a50f
/sha256digest=5a5a5a5a5a5a5a5a5a5a5a5a5a5a5a5a5a5a5a5a5a5a5a5a5a5a5a5a5a5a50f -> BadUri
/sha256digest=5a5a5a5a5a5a5a5a5a5a5a5a5a5a5a5a5a5a5a5a5a5a5a5a5a5a5a5a5a5a50fzz -> BadUri
/sha256digest=a5a5a5a5a5a5a5a5a5a5a5a5a5a5a5a5a5a5a5a5a5a5a5a5a5a5a5a5a5a50f -> BadUri
/sha256digest=a5a5a5a5a5a5a5a5a5a5a5a5a5a5a5a5a5a5a5a5a5a5a5a5a5a5a5a5a5a50fzz -> BadUri
/sha256digest= -> BadUri
/sha256digest=zz -> BadUri
/1=abcdefghijklmnopqrstuvwxyz012345 -> 01206162636465666768696a6b6c6d6e6f707172737475767778797a303132333435
/1=abcdefghijklmnopqrstuvwxyz01234 -> BadDigestLength
/1=abcdefghijklmnopqrstuvwxyz0123456 -> BadDigestLength
/params-sha256=A5A5A5A5A5A5A5A5A5A5A5A5A5A5A5A5A5A5A5A5A5A5A5A5A5A5A5A5A5A5A50F -> 0220a5a5a5a5a5a5a5a5a5a5a5a5a5a5a5a5a5a5a5a5a5a5a5a5a5a5a5a5a5a5a50f
/params-sha256=5a5a5a5a5a5a5a5a5a5a5a5a5a5a5a5a5a5a5a5a5a5a5a5a5a5a5a5a5a5a50f -> BadUri
/params-sha256=5a5a5a5a5a5a5a5a5a5a5a5a5a5a5a5a5a5a5a5a5a5a5a5a5a5a5a5a5a5a50fzz -> BadUri
/params-sha256=a5a5a5a5a5a5a5a5a5a5a5a5a5a5a5a5a5a5a5a5a5a5a5a5a5a5a5a5a5a50f -> BadUri
/params-sha256=a5a5a5a5a5a5a5a5a5a5a5a5a5a5a5a5a5a5a5a5a5a5a5a5a5a5a5a5a5a50fzz -> BadUri
/params-sha256= -> BadUri
/params-sha256=zz -> BadUri
/2=abcdefghijklmnopqrstuvwxyz012345 -> 02206162636465666768696a6b6c6d6e6f707172737475767778797a303132333435
/2=abcdefghijklmnopqrstuvwxyz01234 -> BadDigestLength
/2=abcdefghijklmnopqrstuvwxyz0123456 -> BadDigestLength
";
    check_rows(&rt, rt.alloc(), rows, octets_of);
}

#[test]
fn readings(rt: HostRuntime) {
    let rows = "
/ -> 
// -> 
ndn:/ -> 
/A -> 080141
/A/ -> 080141
ndn:/A -> 080141
ndn:/A/ -> 080141
/8=A -> 080141
/9=A -> 090141
/9=... -> 0900
/9=.... -> 09012e
/253=A -> fd00fd0141
/65535=A -> fdffff0141
/%2e%2E%2e -> 0800
/%3D%2f%25 -> 08033d2f25
/9=a=b?#é -> 0907613d623f23c3a9
";
    check_rows(&rt, rt.alloc(), rows, octets_of);
}

#[test]
fn bad_uris(rt: HostRuntime) {
    let rows = "
 -> BadUri
A -> BadUri
ndn: -> BadUri
ndn:A -> BadUri
NDN:/A -> BadUri
ndn:ndn:/A -> BadUri
/// -> BadUri
/A// -> BadUri
//A -> BadUri
/. -> BadUri
/.. -> BadUri
/A/./B -> BadUri
/9= -> BadUri
/9=. -> BadUri
/9=.. -> BadUri
/% -> BadUri
/%4 -> BadUri
/%4g -> BadUri
/%g4 -> BadUri
/%%41 -> BadUri
/A=B -> BadUri
/=A -> BadUri
/= -> BadUri
/0=A -> BadUri
/08=A -> BadUri
/65536=A -> BadUri
/+8=A -> BadUri
/-8=A -> BadUri
/Seg=1 -> BadUri
# Numbers have digits only, and are below 2^64.
/seg= -> BadUri
/seg=+5 -> BadUri
/seg=-5 -> BadUri
/seg=5a -> BadUri
/seg= 5 -> BadUri
/seg=%35 -> BadUri
/seg=18446744073709551616 -> BadUri
/off= -> BadUri
/off=+5 -> BadUri
/off=-5 -> BadUri
/off=5a -> BadUri
/off= 5 -> BadUri
/off=%35 -> BadUri
/off=18446744073709551616 -> BadUri
/v= -> BadUri
/v=+5 -> BadUri
/v=-5 -> BadUri
/v=5a -> BadUri
/v= 5 -> BadUri
/v=%35 -> BadUri
/v=18446744073709551616 -> BadUri
/t= -> BadUri
/t=+5 -> BadUri
/t=-5 -> BadUri
/t=5a -> BadUri
/t= 5 -> BadUri
/t=%35 -> BadUri
/t=18446744073709551616 -> BadUri
/seq= -> BadUri
/seq=+5 -> BadUri
/seq=-5 -> BadUri
/seq=5a -> BadUri
/seq= 5 -> BadUri
/seq=%35 -> BadUri
/seq=18446744073709551616 -> BadUri
";
    check_rows(&rt, rt.alloc(), rows, octets_of);
}

/// Appends the input to a text of 64 components, and reads the whole text as a name. Returns the
/// number of the name's components, or the fault.
fn after_64_components(alloc: Global, input: &str) -> Option<String> {
    let mut text = String::new(alloc);
    put_64_components(&mut text)?;
    text.push_str(input).ok()?;
    number_or_fault(alloc, &text)
}

/// Appends 64 components to a text.
fn put_64_components(text: &mut String) -> Option<()> {
    for _ in 0..64 {
        text.push_str("/A").ok()?;
    }
    Some(())
}

/// Reads a text as a name. Returns the number of the name's components, or the fault.
fn number_or_fault(alloc: Global, text: &str) -> Option<String> {
    match NameBuf::from_uri(alloc, text) {
        Ok(name) => name.view().len().to_string(alloc).ok(),
        Err(fault) => fault_text(alloc, fault),
    }
}

#[test]
fn sixty_four_components(rt: HostRuntime) {
    let rows = "
 -> 64
/ -> 64
/A -> TooManyComponents
// -> TooManyComponents
/. -> TooManyComponents
/% -> TooManyComponents
/1=A -> TooManyComponents
";
    check_rows(&rt, rt.alloc(), rows, after_64_components);
}

/// Returns the prefixes of a name, from the empty prefix to the whole name.
fn prefixes(alloc: Global, input: &str) -> Option<String> {
    let name = NameBuf::from_uri(alloc, input).ok()?;
    prefixes_of(alloc, name.view())
}

/// Returns the prefixes of this name.
fn prefixes_of(alloc: Global, name: Name<'_>) -> Option<String> {
    let mut text = String::new(alloc);
    put_prefixes(&mut text, name)?;
    Some(text)
}

/// Appends the prefixes of this name.
fn put_prefixes(text: &mut String, name: Name<'_>) -> Option<()> {
    let len = name.len();
    for n in 0..=len {
        let prefix = name.prefix(n);
        if prefix.len() != n {
            return None;
        }
        write!(text, "({prefix})").ok()?;
    }
    Some(())
}

#[test]
fn prefixes_of_names(rt: HostRuntime) {
    let rows = "
/A/BB/seg=5 -> (/)(/A)(/A/BB)(/A/BB/seg=5)
";
    check_rows(&rt, rt.alloc(), rows, prefixes);
    let rows = "
/ /A/BB/seg=5 -> Less, a prefix
/A /A/BB/seg=5 -> Less, a prefix
/A/BB /A/BB/seg=5 -> Less, a prefix
/A/BB/seg=5 /A/BB/seg=5 -> Equal, a prefix
/A/BB/seg=5 /A/BB -> Greater
/A/BB/seg=5 /A -> Greater
/A/BB/seg=5 / -> Greater
/A/B /A/BB/seg=5 -> Less
/ /A/B -> Less, a prefix
";
    check_rows(&rt, rt.alloc(), rows, relation);
}

fn hash_of<T: Hash>(value: &T) -> u64 {
    let mut state = DefaultHasher::new();
    value.hash(&mut state);
    state.finish()
}

/// Compares two owned names and their views, and returns the order of the names. Returns `None` if
/// a reverse comparison, a test for equality or a hash disagrees with this order.
fn order_of(left: &NameBuf, right: &NameBuf) -> Option<Ordering> {
    let order = left.cmp(right);
    let is_equal = order.is_eq();
    let agree = right.view().compare(left.view()) == order.reverse()
        && (left == right) == is_equal
        && (hash_of(left) == hash_of(right)) == is_equal
        && right.view().cmp(&left.view()) == order.reverse()
        && (left.view() == right.view()) == is_equal
        && hash_of(&left.view()) == hash_of(left);
    agree.then_some(order)
}

/// Returns the order of two names, and whether the first name is a prefix of the second.
fn relation(alloc: Global, input: &str) -> Option<String> {
    let (left, right) = input.split_once(' ')?;
    let left = NameBuf::from_uri(alloc, left).ok()?;
    let right = NameBuf::from_uri(alloc, right).ok()?;
    relation_of(alloc, &left, &right)
}

/// Returns the order of these names, and whether the first is a prefix of the second.
fn relation_of(alloc: Global, left: &NameBuf, right: &NameBuf) -> Option<String> {
    let order = order_of(left, right)?;
    let prefix = if left.view().is_prefix_of(right.view()) {
        ", a prefix"
    } else {
        ""
    };
    format!(in alloc; "{order:?}{prefix}").ok()
}

#[test]
fn name_order(rt: HostRuntime) {
    let rows = "
/ / -> Equal, a prefix
/ /sha256digest=ffffffffffffffffffffffffffffffffffffffffffffffffffffffffffffffff -> Less, a prefix
/ /A -> Less, a prefix
/ /A/B -> Less, a prefix
/ /A/AA -> Less, a prefix
/ /9=... -> Less, a prefix
/sha256digest=ffffffffffffffffffffffffffffffffffffffffffffffffffffffffffffffff /sha256digest=ffffffffffffffffffffffffffffffffffffffffffffffffffffffffffffffff -> Equal, a prefix
/sha256digest=ffffffffffffffffffffffffffffffffffffffffffffffffffffffffffffffff /A -> Less
/sha256digest=ffffffffffffffffffffffffffffffffffffffffffffffffffffffffffffffff /A/B -> Less
/sha256digest=ffffffffffffffffffffffffffffffffffffffffffffffffffffffffffffffff /A/AA -> Less
/sha256digest=ffffffffffffffffffffffffffffffffffffffffffffffffffffffffffffffff /9=... -> Less
/A /A -> Equal, a prefix
/A /A/B -> Less, a prefix
/A /A/AA -> Less, a prefix
/A /9=... -> Less
/A/B /A/B -> Equal, a prefix
/A/B /A/AA -> Less
/A/B /9=... -> Less
/A/AA /A/AA -> Equal, a prefix
/A/AA /9=... -> Less
/9=... /9=... -> Equal, a prefix
";
    check_rows(&rt, rt.alloc(), rows, relation);
}

/// Returns the order of two components. Returns `None` if their reverse comparison, equality or
/// hashes disagree with this order.
fn order_of_components(left: &Component<'_>, right: &Component<'_>) -> Option<Ordering> {
    let order = left.cmp(right);
    let is_equal = order.is_eq();
    let agree = right.cmp(left) == order.reverse()
        && (left == right) == is_equal
        && (hash_of(left) == hash_of(right)) == is_equal;
    agree.then_some(order)
}

/// Returns the order of the first components of two names.
fn first_components(alloc: Global, input: &str) -> Option<String> {
    let (left, right) = input.split_once(' ')?;
    let left = NameBuf::from_uri(alloc, left).ok()?;
    let right = NameBuf::from_uri(alloc, right).ok()?;
    order_of_first(alloc, left.view(), right.view())
}

/// Returns the order of the first components of these names.
fn order_of_first(alloc: Global, left: Name<'_>, right: Name<'_>) -> Option<String> {
    let order = order_of_components(&left.component(0)?, &right.component(0)?)?;
    format!(in alloc; "{order:?}").ok()
}

#[test]
fn component_order(rt: HostRuntime) {
    let rows = "
/A /8=%41 -> Equal
/A /B -> Less
/B /AA -> Less
/AA /9=... -> Less
/... /A -> Less
/sha256digest=ffffffffffffffffffffffffffffffffffffffffffffffffffffffffffffffff /... -> Less
";
    check_rows(&rt, rt.alloc(), rows, first_components);
}

/// Takes the first component from the name's iterator. Returns the number of components that
/// follow. Returns `None` if a copy of the iterator returns another number of components than the
/// iterator.
fn count_after_first(name: Name<'_>) -> Option<usize> {
    let mut after_first = name.into_iter();
    after_first.next();
    let count = after_first.clone().ok()?.count();
    (after_first.count() == count).then_some(count)
}

fn components_shown(alloc: Global, name: Name<'_>) -> Option<String> {
    let mut text = String::new(alloc);
    for component in &name {
        write!(text, "({component})").ok()?;
    }
    Some(text)
}

/// Returns the components of a name, and the number of components after the first one.
fn in_turn(alloc: Global, input: &str) -> Option<String> {
    let name = copy_of(alloc, input)?;
    in_turn_of(alloc, name.view())
}

/// Reads a URI text as a name, and returns a copy of the name.
fn copy_of(alloc: Global, uri: &str) -> Option<NameBuf> {
    let name = NameBuf::from_uri(alloc, uri).ok()?;
    name.try_clone(alloc).ok()
}

/// Returns the components of this name, and the number of components after the first one.
fn in_turn_of(alloc: Global, name: Name<'_>) -> Option<String> {
    let count = count_after_first(name)?;
    let components = components_shown(alloc, name)?;
    format!(in alloc; "{components}, {count} after the first").ok()
}

#[test]
fn components_in_turn(rt: HostRuntime) {
    let rows = "
/A/BB/seg=5 -> (A)(BB)(seg=5), 2 after the first
";
    check_rows(&rt, rt.alloc(), rows, in_turn);
}

/// Returns the message of a fault.
fn text_of_fault(alloc: Global, fault: &str) -> Option<String> {
    let fault = match fault {
        "BadComponent" => NameFault::BadComponent,
        "BadDigestLength" => NameFault::BadDigestLength,
        "TooManyComponents" => NameFault::TooManyComponents,
        "BadUri" => NameFault::BadUri,
        "Memory" => NameFault::Memory,
        _ => return None,
    };
    fault.to_string(alloc).ok()
}

#[test]
fn texts_of_faults(rt: HostRuntime) {
    let rows = "
BadComponent -> a component must be a complete element with a type from 1 to 65535
BadDigestLength -> the value of a digest component, which has type 1 or 2, must have 32 octets
TooManyComponents -> a name has at most 64 components
BadUri -> the text is not the URI of a name, such as /A/seg=5
Memory -> out of memory
";
    check_rows(&rt, rt.alloc(), rows, text_of_fault);
}

#[test]
fn keys(rt: HostRuntime) {
    let rows = "
/A/v=7 ndn:/8=%41/54=%07/ -> Equal, a prefix
/A/v=7 /A/v=8 -> Less
";
    check_rows(&rt, rt.alloc(), rows, relation);
}

/// Reads a URI text as a component. Returns the type and the value of the component, or the fault.
fn component(alloc: Global, input: &str) -> Option<String> {
    match component_from_uri(alloc, input) {
        Ok((kind, value)) => {
            let value = hex::encode(alloc, value).ok()?;
            format!(in alloc; "{kind}:{value}").ok()
        }
        Err(fault) => fault_text(alloc, fault),
    }
}

#[test]
fn components_of_uris(rt: HostRuntime) {
    let rows = "
A -> 8:41
8=A -> 8:41
seg=5 -> 50:05
54=%00%05 -> 54:0005
... -> 8:
a%2Fb -> 8:612f62
 -> BadUri
. -> BadUri
A/B -> BadUri
A/ -> BadUri
seg=x -> BadUri
1=A -> BadDigestLength
sha256digest=00 -> BadUri
";
    check_rows(&rt, rt.alloc(), rows, component);
}

/// Reads a name from a URI text, writes the name as a URI text, copies the name, and appends a
/// component to the name. Returns whether each of these steps succeeds, or fails only because
/// memory runs out.
fn give_all_or_memory(alloc: Global, text: &str) -> bool {
    match NameBuf::from_uri(alloc, text) {
        Ok(mut name) => name_gives_all_or_memory(alloc, &mut name, text),
        Err(fault) => fault == NameFault::Memory,
    }
}

/// Writes this name as a URI text, copies the name, and appends a component to the name. Returns
/// whether each of these steps succeeds, or fails only because memory runs out.
fn name_gives_all_or_memory(alloc: Global, name: &mut NameBuf, text: &str) -> bool {
    is_written_or_memory(alloc, name, text)
        && is_copied_or_memory(alloc, name)
        && appends_or_memory(name)
}

/// Returns whether the name is written as this text. Also returns true if memory runs out.
fn is_written_or_memory(alloc: Global, name: &NameBuf, text: &str) -> bool {
    match name.to_uri(alloc) {
        Ok(printed) => printed.as_str() == text,
        Err(_) => true,
    }
}

/// Returns whether a copy of the name is equal to the name. Also returns true if memory runs out.
fn is_copied_or_memory(alloc: Global, name: &NameBuf) -> bool {
    match NameBuf::from_name(alloc, name.view()) {
        Ok(copy) => copy == *name,
        Err(_) => true,
    }
}

/// Returns whether a sixth component is appended to a name, or memory runs out and the name keeps
/// its five components.
fn appends_or_memory(name: &mut NameBuf) -> bool {
    match name.append(8, &[0; 300]) {
        Ok(()) => name.view().len() == 6,
        Err(fault) => fault == NameFault::Memory && name.view().len() == 5,
    }
}

/// Returns whether a URI text is refused with exactly the fault `fault`.
fn is_refused(alloc: Global, text: &str, fault: NameFault) -> bool {
    NameBuf::from_uri(alloc, text).err() == Some(fault)
}

/// If a text is not the URI of a name or of a component, the fault in the text is reported, even if
/// memory runs out.
#[test]
fn faults_come_before_memory(rt: HostRuntime) {
    assert!(rt; is_refused(rt.alloc(), "/A/%4", NameFault::BadUri));
    assert!(rt; is_refused(rt.alloc(), "/A/1=00", NameFault::BadDigestLength));
    assert!(rt; component_from_uri(rt.alloc(), "seg=x").err() == Some(NameFault::BadUri));
}

#[test]
fn refused_memory(rt: HostRuntime) {
    let text = "/A/%00/seg=5/.../9=a%20long%20value%20of%20a%20component%20with%20a%20type";
    assert!(rt; give_all_or_memory(rt.alloc(), text));
}
