//! HMAC (RFC 2104) and key books.

use crate::rows::check_rows;
use hmac_keys::*;
use key_files::*;
use ndn_names::NameBuf;
use std::alloc::Global;
use std::test::*;
use test_support::octets;

/// Returns the HMAC of a text under a key. The HMAC, the text and the key are in hexadecimal.
/// Returns `None` if hashing the text in two parts, or with an `HmacKey`, gives a different HMAC.
fn tag(alloc: Global, input: &str) -> Option<String> {
    let (key, text) = input.split_once(" | ")?;
    let tag = tag_of_both(alloc, key, text)?;
    hex::encode(alloc, tag.as_slice()).ok()
}

/// Returns the HMAC of a text under a key. The key and the text are given in hexadecimal. Returns
/// `None` if hashing the text in two parts, or with an `HmacKey`, gives a different HMAC.
fn tag_of_both(alloc: Global, key: &str, text: &str) -> Option<[u8; 32]> {
    let text = octets(alloc, text)?;
    let key = octets(alloc, key)?;
    tag_under(key, &text)
}

/// Returns the HMAC of a text under a key. Returns `None` if hashing the text in two parts, or with
/// an `HmacKey`, gives a different HMAC.
fn tag_under(key: Vec<u8>, text: &[u8]) -> Option<[u8; 32]> {
    let tag = tag_of_any_parts(&key, text)?;
    (HmacKey::new(key).tag(text, &[]) == tag).then_some(tag)
}

/// Returns the HMAC of a text under a key. Returns `None` if hashing the text in two parts gives a
/// different HMAC.
fn tag_of_any_parts(key: &[u8], text: &[u8]) -> Option<[u8; 32]> {
    let tag = hmac_sha256(key, text, &[]);
    for place in 0..text.len() {
        if hmac_sha256(key, &text[..place], &text[place..]) != tag {
            return None;
        }
    }
    Some(tag)
}

/// The HMAC is correct for the test cases 1, 2, 3, 4, 6 and 7 of RFC 4231.
#[test]
fn hmac_vectors(rt: HostRuntime) {
    let rows = "
# Hi There
0bx20 | 4869205468657265 -> b0344c61d8db38535ca8afceaf0bf12b881dc200c9833da726e9376c2e32cff7
# Jefe: what do ya want for nothing?
4a656665 | 7768617420646f2079612077616e7420666f72206e6f7468696e673f -> 5bdcc146bf60754e6a042426089575c75a003f089d2739839dec58b964ec3843
aax20 | ddx50 -> 773ea91e36800e46854db8ebd09181a72959098b3ef8c122d9635514ced565fe
0102030405060708090a0b0c0d0e0f10111213141516171819 | cdx50 -> 82558a389a443c0ea4cc819899f2083a85f0faa3e578f8077a2e3ff46729665b
# Test Using Larger Than Block-Size Key - Hash Key First
aax131 | 54657374205573696e67204c6172676572205468616e20426c6f636b2d53697a65204b6579202d2048617368204b6579204669727374 -> 60e431591ee0b67f0d8a26aacbf5b77f8e0bc6213728c5140546040f0ee37f54
# This is a test using a larger than block-size key and a larger than block-size data. The key needs to be hashed before being used by the HMAC algorithm.
aax131 | 5468697320697320612074657374207573696e672061206c6172676572207468616e20626c6f636b2d73697a65206b657920616e642061206c6172676572207468616e20626c6f636b2d73697a6520646174612e20546865206b6579206e6565647320746f20626520686173686564206265666f7265206265696e6720757365642062792074686520484d414320616c676f726974686d2e -> 9b09ffa71b942fcb27635fbcd5b0e944bfdc63644f0713938a7f51535c3a35e2
";
    check_rows(&rt, rt.alloc(), rows, tag);
}

/// The HMAC is correct for an empty key, and for keys with lengths near 64 octets, the block length
/// of SHA-256. The octets of these keys are 0, 1, 2 and so on.
#[test]
fn keys_around_a_block(rt: HostRuntime) {
    let rows = "
 | 74657874 -> 0611b704abab473f956257a09cc2fc2c867211d077bdffc5a91bd8a5047826ff
000102030405060708090a0b0c0d0e0f101112131415161718191a1b1c1d1e1f202122232425262728292a2b2c2d2e2f303132333435363738393a3b3c3d3e | 74657874 -> 031e7f31fa690d4d7e39698aa240b66d3c8705b13c107f23e26c46845e06e921
000102030405060708090a0b0c0d0e0f101112131415161718191a1b1c1d1e1f202122232425262728292a2b2c2d2e2f303132333435363738393a3b3c3d3e3f | 74657874 -> 641d21a27db22a6a1e8bc28f948eee3c9e7c855f3e74f1fdf67f026e0e4fe70e
000102030405060708090a0b0c0d0e0f101112131415161718191a1b1c1d1e1f202122232425262728292a2b2c2d2e2f303132333435363738393a3b3c3d3e3f40 | 74657874 -> 03b31bdc10d1463cc050380fe3b8ddbc053dfb2f31c33564cefadfed4badba01
";
    check_rows(&rt, rt.alloc(), rows, tag);
}

/// Shows whether `tags_equal` returns true for the value and the tag in `input`. The value may have
/// any length, and the tag has 32 octets.
fn is_tag(alloc: Global, input: &str) -> Option<String> {
    let (value, tag) = input.split_once(" | ")?;
    let tag = tag_in(alloc, tag)?;
    let value = octets(alloc, value)?;
    tags_equal(&value, &tag).to_string(alloc).ok()
}

/// Reads a tag of 32 octets from hexadecimal.
fn tag_in(alloc: Global, text: &str) -> Option<[u8; 32]> {
    let octets = octets(alloc, text)?;
    <[u8; 32]>::try_from(octets.as_slice()).ok()
}

#[test]
fn equal_tags(rt: HostRuntime) {
    let rows = "
5ax32 | 5ax32 -> true
5b 5ax31 | 5ax32 -> false
5ax32 | 5b 5ax31 -> false
5ax15 5b 5ax16 | 5ax32 -> false
5ax32 | 5ax15 5b 5ax16 -> false
5ax16 5b 5ax15 | 5ax32 -> false
5ax32 | 5ax16 5b 5ax15 -> false
5ax31 5b | 5ax32 -> false
5ax32 | 5ax31 5b -> false
5ax32 00 | 5ax32 -> false
5ax31 | 5ax32 -> false
 | 5ax32 -> false
";
    check_rows(&rt, rt.alloc(), rows, is_tag);
}

/// Returns the number of keys in a key file. If the file has a key with the name `uri`, this key
/// follows the number. Returns the fault if the file is refused.
fn found(alloc: Global, file: &str, uri: &str) -> Option<String> {
    match KeyBook::read(alloc, file) {
        Ok(book) => found_in(alloc, &book, uri),
        Err(fault) => format!(in alloc; "{fault:?}").ok(),
    }
}

fn found_in(alloc: Global, book: &KeyBook, uri: &str) -> Option<String> {
    if book.is_empty() != (book.len() == 0) {
        return None;
    }
    let name = NameBuf::from_uri(alloc, uri).ok()?;
    let (word, octets) = key_with_word(book.key(name.view()));
    if book.find(name.view()).is_some() != (word == "secret") {
        return None;
    }
    key_shown(alloc, book.len(), word, octets)
}

/// Returns the octets of a key, and a word for what the key is for.
fn key_with_word(key: Option<&Key>) -> (&'static str, &[u8]) {
    match key {
        None => ("none", &[]),
        Some(Key::Hmac(key)) => ("secret", key.octets()),
        Some(Key::Ecdsa(key)) => ("public", key.octets()),
    }
}

/// Returns the number of keys, and what `key_with_word` returned for one of them.
fn key_shown(alloc: Global, len: usize, word: &str, octets: &[u8]) -> Option<String> {
    let key = hex::encode(alloc, octets).ok()?;
    match word {
        "none" => len.to_string(alloc).ok(),
        "secret" => format!(in alloc; "{len}: {key}").ok(),
        _ => format!(in alloc; "{len}: {word} {key}").ok(),
    }
}

/// Returns what `found` returns for the key file and the name in a row. A row has the form
/// `COUNT|LINES ? NAME`. The file has `COUNT` keys with the names /0, /1 and so on, followed by
/// `LINES`. If the row has no `COUNT`, the file has only `LINES`. If the row has no `NAME`, the
/// name is `/`.
fn key_file(alloc: Global, input: &str) -> Option<String> {
    let (count, rest) = input.split_once('|').unwrap_or(("0", input));
    let (end, uri) = rest.split_once(" ? ").unwrap_or((rest, "/"));
    let count = count.parse().ok()?;
    let mut file = String::new(alloc);
    put_keys(&mut file, count)?;
    put_lines(&mut file, end)?;
    found(alloc, &file, uri)
}

/// Appends `count` lines. Each line gives a key, and the names of the keys are /0, /1 and so on.
fn put_keys(file: &mut String, count: u16) -> Option<()> {
    for i in 0..count {
        write!(file, "/{i} 00\n").ok()?;
    }
    Some(())
}

/// Appends `lines` to `file`, with an LF in place of each `↵` and a CR in place of each `␍`.
fn put_lines(file: &mut String, lines: &str) -> Option<()> {
    for character in lines.chars() {
        file.push(match character {
            '↵' => '\n',
            '␍' => '\r',
            other => other,
        })
        .ok()?;
    }
    Some(())
}

#[test]
fn key_files(rt: HostRuntime) {
    assert!(rt; KeyBook::new(rt.alloc()).is_empty());
    let rows = "
/ops/KEY/1 6b6579 ? /ops/KEY/1 -> 1: 6b6579
/ops/KEY/1 6b6579↵ ? /ops/KEY/1 -> 1: 6b6579
/A 6B6a4C ? /A -> 1: 6b6a4c
ndn:/A/ 00 ? /A -> 1: 00
/a b c 01 ? /a%20b%20c -> 1: 01
↵↵;↵; /A↵/A ff↵;/B 00 ? /A -> 1: ff
/; 10 ? /%3B -> 1: 10
# A CR is part of its line, and in a line that is skipped it is of no account.
;␍↵/A␍ 00 ? /A%0D -> 1: 00
# No key.
 -> 0
↵ -> 0
; -> 0
↵;↵↵ -> 0
";
    check_rows(&rt, rt.alloc(), rows, key_file);
}

/// Lines of public keys. The second key is the base point of the curve.
#[test]
fn public_keys(rt: HostRuntime) {
    let rows = "
/lab/KEY/1 ecdsa-p256 043f55a11ac5ad16b0250e8bd36df3cc1c694cc798543699c4a7554c93e78f1f3ac0337d6268aa54dcaaf5ac391f7599f78284f75f7e4ee5c741784fbcd8ea7514 ? /lab/KEY/1 -> 1: public 043f55a11ac5ad16b0250e8bd36df3cc1c694cc798543699c4a7554c93e78f1f3ac0337d6268aa54dcaaf5ac391f7599f78284f75f7e4ee5c741784fbcd8ea7514
/A 01↵/B ecdsa-p256 046B17D1F2E12C4247F8BCE6E563A440F277037D812DEB33A0F4A13945D898C2964FE342E2FE1A7F9B8EE7EB4A7C0F9E162BCE33576B315ECECBB6406837BF51F5 ? /B -> 2: public 046b17d1f2e12c4247f8bce6e563a440f277037d812deb33a0f4a13945d898c2964fe342e2fe1a7f9b8ee7eb4a7c0f9e162bce33576b315ececbb6406837bf51f5
/A 01↵/B ecdsa-p256 046b17d1f2e12c4247f8bce6e563a440f277037d812deb33a0f4a13945d898c2964fe342e2fe1a7f9b8ee7eb4a7c0f9e162bce33576b315ececbb6406837bf51f5 ? /A -> 2: 01
# The last octet is another, so the point is not on the curve.
/B ecdsa-p256 046b17d1f2e12c4247f8bce6e563a440f277037d812deb33a0f4a13945d898c2964fe342e2fe1a7f9b8ee7eb4a7c0f9e162bce33576b315ececbb6406837bf51f4 -> BadKey(1)
# The compressed form.
/B ecdsa-p256 036b17d1f2e12c4247f8bce6e563a440f277037d812deb33a0f4a13945d898c296 -> BadKey(1)
# Without the word, spelled in another way, and with two spaces after it.
/B 046b17d1f2e12c4247f8bce6e563a440f277037d812deb33a0f4a13945d898c2964fe342e2fe1a7f9b8ee7eb4a7c0f9e162bce33576b315ececbb6406837bf51f5 -> BadKey(1)
/B ecdsa-P256 046b17d1f2e12c4247f8bce6e563a440f277037d812deb33a0f4a13945d898c2964fe342e2fe1a7f9b8ee7eb4a7c0f9e162bce33576b315ececbb6406837bf51f5 -> BadKey(1)
/B ecdsa-p256  046b17d1f2e12c4247f8bce6e563a440f277037d812deb33a0f4a13945d898c2964fe342e2fe1a7f9b8ee7eb4a7c0f9e162bce33576b315ececbb6406837bf51f5 -> BadKey(1)
/A 00↵/B ecdsa-p256 00 -> BadKey(2)
/A 00↵/A ecdsa-p256 00 -> BadKey(2)
/B ecdsa-p256  -> BadLine(1)
/B ecdsa-p256 0 -> BadLine(1)
 ecdsa-p256 00 -> BadLine(1)
/ ecdsa-p256 00 -> BadLine(1)
/A 00↵/A ecdsa-p256 046b17d1f2e12c4247f8bce6e563a440f277037d812deb33a0f4a13945d898c2964fe342e2fe1a7f9b8ee7eb4a7c0f9e162bce33576b315ececbb6406837bf51f5 -> TwiceNamed(2)
# The word is a part of the URI if another word comes after it.
/A ecdsa-p256 x 01 ? /A%20ecdsa-p256%20x -> 1: 01
/ecdsa-p256 01 ? /ecdsa-p256 -> 1: 01
";
    check_rows(&rt, rt.alloc(), rows, key_file);
}

#[test]
fn faulty_lines(rt: HostRuntime) {
    let rows = "
/A 00␍↵/B 01 -> BadLine(1)
/A 00↵␍↵ -> BadLine(2)
/A -> BadLine(1)
↵; one↵↵00 -> BadLine(4)
/A 0 -> BadLine(1)
/A 00000 -> BadLine(1)
/A 0g -> BadLine(1)
/A  -> BadLine(1)
/A  00  -> BadLine(1)
/A 00 ; one -> BadLine(1)
 00 -> BadLine(1)
 ; -> BadLine(1)
/ 00 -> BadLine(1)
ndn:/ 00 -> BadLine(1)
A 00 -> BadLine(1)
/%4 00 -> BadLine(1)
/1=00 00 -> BadLine(1)
/A 00↵/%41 01 -> TwiceNamed(2)
/A 00↵↵;↵/8=A/ 00↵ -> TwiceNamed(4)
/seg=256 00↵/50=%01%00 00 -> TwiceNamed(2)
# Of two faulty lines the first is reported.
/A 00↵/A 01↵/B -> TwiceNamed(2)
/A 00↵/B↵/A 01 -> BadLine(2)
/A 00↵/A 0↵/A 00 -> BadLine(2)
";
    check_rows(&rt, rt.alloc(), rows, key_file);
}

/// Returns what `found` returns for a key file and the name `/A`. In this file, the key of `/A` has
/// the octets that the row gives. If the result ends with the key's hexadecimal digits, these
/// digits are left out.
fn file_of_key(alloc: Global, input: &str) -> Option<String> {
    let digits = digits_of(alloc, input)?;
    let found = found_with(alloc, &digits)?;
    let front = found.strip_suffix(digits.as_str()).unwrap_or(&found);
    String::from_str(alloc, front.trim_end()).ok()
}

/// Returns the hexadecimal digits of the octets in `words`, where `5ax256` stands for 256 octets
/// `5a`.
fn digits_of(alloc: Global, words: &str) -> Option<String> {
    let octets = octets(alloc, words)?;
    hex::encode(alloc, &octets).ok()
}

/// Returns what `found` returns for a key file and the name `/A`. In this file, the key of `/A` has
/// these hexadecimal digits.
fn found_with(alloc: Global, digits: &str) -> Option<String> {
    let file = format!(in alloc; "/A {digits}\n").ok()?;
    found(alloc, &file, "/A")
}

/// A key in a key file may have from 1 to 256 octets.
#[test]
fn lengths_of_keys(rt: HostRuntime) {
    let rows = "
 -> BadLine(1)
5a -> 1:
5ax256 -> 1:
5ax257 -> BadLine(1)
";
    check_rows(&rt, rt.alloc(), rows, file_of_key);
}

#[test]
fn full_books(rt: HostRuntime) {
    let rows = "
256| -> 256
256|↵; -> 256
256|/256 00 -> TooMany
256|/256 0 -> BadLine(257)
256|/%32%35%35 01 -> TwiceNamed(257)
256|/0 00↵/256 00 -> TwiceNamed(257)
256| ? /255 -> 256: 00
255|/256 01 ? /256 -> 256: 01
";
    check_rows(&rt, rt.alloc(), rows, key_file);
}

#[test]
fn keys_by_names(rt: HostRuntime) {
    let rows = "
/A/B 01↵/A/B/C 02↵/B 0304↵ -> 3
/A/B 01↵/A/B/C 02↵/B 0304↵ ? /A/B -> 3: 01
/A/B 01↵/A/B/C 02↵/B 0304↵ ? /%41/8=B/ -> 3: 01
/A/B 01↵/A/B/C 02↵/B 0304↵ ? /A/B/C -> 3: 02
/A/B 01↵/A/B/C 02↵/B 0304↵ ? /B -> 3: 0304
/A/B 01↵/A/B/C 02↵/B 0304↵ ? /A -> 3
/A/B 01↵/A/B/C 02↵/B 0304↵ ? /A/B/C/D -> 3
/A/B 01↵/A/B/C 02↵/B 0304↵ ? /C -> 3
/A/B 01↵/A/B/C 02↵/B 0304↵ ? / -> 3
";
    check_rows(&rt, rt.alloc(), rows, key_file);
}

/// Returns the name, the line and the message of a fault. The line is 0 if the fault has no line.
fn fault_text(alloc: Global, fault: &str) -> Option<String> {
    let fault = match fault {
        "BadLine 7" => KeyFault::BadLine(7),
        "BadKey 7" => KeyFault::BadKey(7),
        "TwiceNamed 8" => KeyFault::TwiceNamed(8),
        "TooMany" => KeyFault::TooMany,
        "Memory" => KeyFault::Memory,
        _ => return None,
    };
    let line = fault.line().unwrap_or(0);
    format!(in alloc; "{} {line}: {fault}", fault.name()).ok()
}

#[test]
fn texts_of_faults(rt: HostRuntime) {
    let rows = "
BadLine 7 -> BadLine 7: line 7 does not have a name and the octets of a key, such as /ops/KEY/1 6b6579
BadKey 7 -> BadKey 7: line 7: ecdsa-p256 and a public key of P-256, 130 digits that begin with 04, go together
TwiceNamed 8 -> TwiceNamed 8: line 8 has the name of an earlier key, but each key needs its own name
TooMany -> TooMany 0: a file has at most 256 keys
Memory -> Memory 0: out of memory
";
    check_rows(&rt, rt.alloc(), rows, fault_text);
}

/// Returns whether `file` is a key file with `len` keys. Also returns true if memory runs out.
fn reads_or_memory(alloc: Global, file: &str, len: usize) -> bool {
    match KeyBook::read(alloc, file) {
        Ok(book) => book.len() == len,
        Err(fault) => fault == KeyFault::Memory,
    }
}

#[test]
fn refused_memory(rt: HostRuntime) {
    let file = "/A/KEY/1 6b6579\n; another\n\n/A/KEY/a%20name%20of%20a%20key 00\n/B ff";
    assert!(rt; reads_or_memory(rt.alloc(), file, 3));
}

/// Returns whether a key file is refused with exactly the fault `fault`.
fn is_refused(alloc: Global, file: &str, fault: KeyFault) -> bool {
    KeyBook::read(alloc, file).err() == Some(fault)
}

/// If a key file is not valid, the fault in the file is reported, even if memory runs out.
#[test]
fn faults_come_before_memory(rt: HostRuntime) {
    let file = "/A 00\n/seg=5 00\n; another\n/50=%05 00";
    assert!(rt; is_refused(rt.alloc(), file, KeyFault::TwiceNamed(4)));
    assert!(rt; is_refused(rt.alloc(), "/A 00\n/A/B 0", KeyFault::BadLine(2)));
    assert!(rt; is_refused(rt.alloc(), "/A 00\n/A/B", KeyFault::BadLine(2)));
}
