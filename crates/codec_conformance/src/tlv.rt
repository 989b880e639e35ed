//! Numbers and elements (NDN Packet Format 0.3, "Type-Length-Value (TLV) Encoding").

use crate::rows::check_rows;
use ndn_tlv::*;
use std::alloc::Global;
use std::test::*;
use test_support::octets;

/// Returns the encoding of a number. Returns `None` if reading the encoding does not give the
/// number, or if `number_len` returns another length.
fn spelling(alloc: Global, number: &str) -> Option<String> {
    let number = number.parse().ok()?;
    let mut out = Vec::new(alloc);
    put_number(&mut out, number).ok()?;
    spelling_shown(alloc, number, &out)
}

/// Returns the octets in hexadecimal. Returns `None` if reading the octets does not give `number`,
/// or if `number_len` returns another length for `number`.
fn spelling_shown(alloc: Global, number: u64, octets: &[u8]) -> Option<String> {
    let (read, rest) = number_of(octets).ok()?;
    if read != number || !rest.is_empty() || number_len(number) != octets.len() {
        return None;
    }
    hex::encode(alloc, octets).ok()
}

#[test]
fn number_spellings(rt: HostRuntime) {
    let rows = "
252 -> fc
253 -> fd00fd
65535 -> fdffff
65536 -> fe00010000
";
    check_rows(&rt, rt.alloc(), rows, spelling);
}

/// Reads the first element in some octets. Returns the type of the element, the length of its
/// value, the length of the whole element, and the number of octets after the element. Returns the
/// fault if no element can be read.
fn first(alloc: Global, input: &str) -> Option<String> {
    let octets = octets(alloc, input)?;
    first_in(alloc, &octets)
}

/// Returns the result of `first` for these octets.
fn first_in(alloc: Global, octets: &[u8]) -> Option<String> {
    match first_element(octets) {
        Ok((element, rest)) => {
            let (kind, value_len) = (element.kind, element.value.len());
            let (len, rest_len) = (element.whole.len(), rest.len());
            format!(in alloc; "type {kind}, {value_len} of {len} octets, and {rest_len}").ok()
        }
        Err(fault) => format!(in alloc; "{fault:?}").ok(),
    }
}

/// Returns the element with this type and value.
fn written(alloc: Global, input: &str) -> Option<String> {
    let (kind, value) = input.split_once(' ')?;
    let kind = kind.parse().ok()?;
    let value = octets(alloc, value)?;
    element_shown(alloc, kind, &value)
}

/// Returns the octets of an element in hexadecimal, or `None` for the type 0.
fn element_shown(alloc: Global, kind: u32, value: &[u8]) -> Option<String> {
    if kind == 0 {
        return None;
    }
    let mut out = Vec::new(alloc);
    put_element(&mut out, kind, value).ok()?;
    hex::encode(alloc, &out).ok()
}

/// An element of type 5 whose value has 11 octets is read, and is written as the same octets.
#[test]
fn smallest_interest(rt: HostRuntime) {
    let rows = "
050b07030141410a0401020304 -> type 5, 11 of 13 octets, and 0
";
    check_rows(&rt, rt.alloc(), rows, first);
    let rows = "
5 07030141410a0401020304 -> 050b07030141410a0401020304
";
    check_rows(&rt, rt.alloc(), rows, written);
}

#[test]
fn refused_spellings(rt: HostRuntime) {
    let rows = "
# The length 11 in three octets, and the type 5.
05fd000b07030141410a0401020304 -> NotShortest
fd000500 -> NotShortest
0000 -> TypeZero
ff0000000100000000 -> TypeTooLarge
# Octets are missing.
 -> Truncated
05 -> Truncated
050b -> Truncated
050b07 -> Truncated
050b0703 -> Truncated
050b070301 -> Truncated
050b07030141 -> Truncated
050b0703014141 -> Truncated
050b07030141410a -> Truncated
050b07030141410a04 -> Truncated
050b07030141410a0401 -> Truncated
050b07030141410a040102 -> Truncated
050b07030141410a04010203 -> Truncated
# The length is 2^64 - 1.
05ffffffffffffffffff -> Truncated
";
    check_rows(&rt, rt.alloc(), rows, first);
}

/// Returns the message of a fault.
fn fault_text(alloc: Global, fault: &str) -> Option<String> {
    let fault = match fault {
        "Truncated" => TlvFault::Truncated,
        "NotShortest" => TlvFault::NotShortest,
        "TypeZero" => TlvFault::TypeZero,
        "TypeTooLarge" => TlvFault::TypeTooLarge,
        "BadInteger" => TlvFault::BadInteger,
        "Memory" => return Memory.to_string(alloc).ok(),
        _ => return None,
    };
    fault.to_string(alloc).ok()
}

#[test]
fn texts_of_faults(rt: HostRuntime) {
    let rows = "
Truncated -> the octets end inside a number or an element
NotShortest -> a number is not in its shortest form, such as fd000b in place of 0b
TypeZero -> a type is 0, but must be from 1 to 4294967295
TypeTooLarge -> a type is above the limit of 4294967295
BadInteger -> a NonNegativeInteger must have 1, 2, 4 or 8 octets
Memory -> out of memory
";
    check_rows(&rt, rt.alloc(), rows, fault_text);
}

/// Reads a value, given in hexadecimal, as a NonNegativeInteger. Returns the number or the fault.
fn integer(alloc: Global, input: &str) -> Option<String> {
    match nni_of(&octets(alloc, input)?) {
        Ok(number) => number.to_string(alloc).ok(),
        Err(fault) => format!(in alloc; "{fault:?}").ok(),
    }
}

/// Returns the shortest NonNegativeInteger encoding of a number. Returns `None` if `nni_len`
/// returns another length.
fn shortest_integer(alloc: Global, number: &str) -> Option<String> {
    let number = number.parse().ok()?;
    let mut out = Vec::new(alloc);
    put_nni(&mut out, number).ok()?;
    integer_shown(alloc, number, &out)
}

/// Returns the octets in hexadecimal. Returns `None` if `nni_len` returns another length for
/// `number`.
fn integer_shown(alloc: Global, number: u64, octets: &[u8]) -> Option<String> {
    if nni_len(number) != octets.len() {
        return None;
    }
    hex::encode(alloc, octets).ok()
}

#[test]
fn integers(rt: HostRuntime) {
    let rows = "
 -> BadInteger
01 -> 1
0102 -> 258
010203 -> BadInteger
01020304 -> 16909060
0102030405060708 -> 72623859790382856
010203040506070809 -> BadInteger
";
    check_rows(&rt, rt.alloc(), rows, integer);
    let rows = "
255 -> ff
256 -> 0100
65536 -> 00010000
4294967296 -> 0000000100000000
";
    check_rows(&rt, rt.alloc(), rows, shortest_integer);
}

/// Reads the elements in some octets. Returns the type and the value length of each element. If an
/// element cannot be read, its fault comes last.
fn elements(alloc: Global, input: &str) -> Option<String> {
    let octets = octets(alloc, input)?;
    elements_in(alloc, &octets)
}

/// Returns the result of `elements` for these octets.
fn elements_in(alloc: Global, octets: &[u8]) -> Option<String> {
    let mut text = String::new(alloc);
    put_elements(&mut text, octets)?;
    Some(text)
}

/// Appends the result of `elements` for these octets to `text`.
fn put_elements(text: &mut String, octets: &[u8]) -> Option<()> {
    for element in Elements::new(octets) {
        match element {
            Ok(element) => write!(text, "({} {})", element.kind, element.value.len()).ok()?,
            Err(fault) => write!(text, "({fault:?})").ok()?,
        }
    }
    Some(())
}

#[test]
fn elements_end_with_the_octets_or_a_fault(rt: HostRuntime) {
    let rows = "
0801410a00 -> (8 1)(10 0)
0801410a0201 -> (8 1)(Truncated)
";
    check_rows(&rt, rt.alloc(), rows, elements);
}

/// Returns whether writing a number appends octets, or appends nothing if memory runs out.
fn appends_number(alloc: Global) -> bool {
    let mut out = Vec::new(alloc);
    put_number(&mut out, 65_536).is_ok() != out.is_empty()
}

/// Returns whether writing an integer appends octets, or appends nothing if memory runs out.
fn appends_integer(alloc: Global) -> bool {
    let mut out = Vec::new(alloc);
    put_nni(&mut out, 65_536).is_ok() != out.is_empty()
}

/// Returns whether writing an element appends octets, or appends nothing if memory runs out.
fn appends_element(alloc: Global) -> bool {
    let mut out = Vec::new(alloc);
    put_element(&mut out, 8, &[1; 13]).is_ok() != out.is_empty()
}

#[test]
fn refused_memory_appends_nothing(rt: HostRuntime) {
    assert!(rt; appends_number(rt.alloc()));
    assert!(rt; appends_integer(rt.alloc()));
    assert!(rt; appends_element(rt.alloc()));
}
