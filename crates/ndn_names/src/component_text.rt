//! Components in URI text, read without allocation (NDN Packet Format 0.3, "NDN URI Scheme").

ghost use Rattle.std.specs.Prelude.{◌≡◌, ◌<◌, ◌≤◌, ◌∷◌, ◌++◌, ℕ, List, length, take, Ok, Err, IfOk, OnOk, IfErr, MatchResult};
ghost use Rattle.ndn_tlv.specs.Element.{Field};
ghost use Rattle.ndn_names.specs.TypeName.{kind_of};
ghost use Rattle.ndn_names.specs.Uri.{is_periods};
ghost use Rattle.ndn_names.specs.ComponentText.{value_in, IsTextOf};
ghost use Rattle.ndn_names.specs.UriReading as read;

use crate::component::{SHA256_LEN, kind_by_len};
use crate::component_type::{GENERIC, PARAMETERS_SHA256_DIGEST};
use crate::fault::NameFault;
use crate::type_name::kind_of;
use ndn_tlv::{nni_len, put_nni};

/// The text of a value, before this text is decoded.
#[derive(Clone, Copy)]
pub enum ValueText<'a> {
    /// The octets of the value themselves.
    Plain(&'a [u8]),
    /// A text that may have percent escapes. The octets that this text encodes begin with the
    /// value.
    Escaped(&'a [u8]),
    /// Two hexadecimal digits for each octet of the value.
    Hexadecimal(&'a [u8]),
    /// A number whose shortest NonNegativeInteger encoding is the value.
    Number(u64),
}

/// A component in text form: its type, and the text that encodes its value. The value is the first
/// `len` octets that this text encodes.
#[derive(Clone, Copy)]
pub struct ComponentText<'a> {
    pub kind: u16,
    pub len: usize,
    pub value: ValueText<'a>,
}

/// Returns the octet that two hexadecimal digits encode, or `BadUri` if `high` or `low` is not a
/// hexadecimal digit.
pub fn octet_of(high: u8, low: u8) -> Result<u8, NameFault>
    ensures { result ≡ read.pair_in high low }
{
    match ((high as char).to_digit(16), (low as char).to_digit(16)) {
        (Some(high), Some(low)) => Ok((16 * high + low) as u8),
        _ => Err(NameFault::BadUri),
    }
}

/// Reads the first octet that a text with percent escapes encodes. The text is `first` followed by
/// `after`. Returns the octet and the text after its encoding, or `BadUri` if the text begins with
/// an invalid escape.
#[inline(always)]
pub fn first_octet<'a>(first: u8, after: &'a [u8]) -> Result<(u8, &'a [u8]), NameFault>
    ensures read { MatchResult result
        (λ x. read.octets_in (first ∷ after.now) ≡ read.before x.0 (read.octets_in x.1.now))
        (λ fault. read.octets_in (first ∷ after.now) ≡ Err fault) }
    ensures shorter { IfOk result (λ x. length x.1.now ≤ length after.now) }
{
    if first != b'%' {
        return Ok((first, after));
    }
    match after {
        [high, low, rest @ ..] => Ok((octet_of(*high, *low)?, rest)),
        _ => Err(NameFault::BadUri),
    }
}

/// Returns the number of octets that a text with percent escapes encodes, and whether all of these
/// octets are periods. Returns `BadUri` if an escape of the text is invalid.
fn count_octets(text: &[u8]) -> Result<(usize, bool), NameFault>
    ensures { MatchResult result (read.AreCounted (read.octets_in text.now))
        (λ fault. read.octets_in text.now ≡ Err fault) }
{
    let mut rest = text;
    let mut count = 0;
    let mut has_periods_only = true;
    while let Some((first, after)) = rest.split_first() {
        let (octet, after) = first_octet(*first, after)?;
        has_periods_only &= octet == b'.';
        count += 1;
        rest = after;
    }
    Ok((count, has_periods_only))
}

/// Returns the number of octets in a value whose text encodes `count` octets. The result is
/// `count - 3` if all encoded octets are periods (`has_periods_only`), otherwise `count`. Returns
/// `BadUri` if the text encodes fewer than three octets and all of them are periods.
fn unpadded_len(count: usize, has_periods_only: bool) -> Result<usize, NameFault>
    ensures shorter { IfOk result (λ len. len ≤ count) }
    ensures read { (octets : List ℕ) → count ≡ length octets
        → has_periods_only ≡ is_periods octets
        → MatchResult result (read.AreLeft octets) (λ fault. read.unpadded octets ≡ Err fault) }
{
    if !has_periods_only {
        return Ok(count);
    }
    if count < 3 {
        return Err(NameFault::BadUri);
    }
    Ok(count - 3)
}

/// Returns the number that `text` represents in decimal digits, or `BadUri` if `text` is not a
/// number below 2^64 in decimal digits without a sign.
fn decimal_number(text: &str) -> Result<u64, NameFault>
    ensures { result ≡ read.number_in text.now }
{
    if text.starts_with('+') {
        return Err(NameFault::BadUri);
    }
    match text.parse::<u64>() {
        Ok(n) => Ok(n),
        Err(_) => Err(NameFault::BadUri),
    }
}

/// Returns the type number from 1 to 65535 that `type_name` represents in decimal digits without
/// leading zeros. Returns `BadUri` if `type_name` represents no such number.
fn type_of(type_name: &str) -> Result<u16, NameFault>
    ensures { result ≡ read.type_in type_name.now }
{
    if type_name.starts_with('0') {
        return Err(NameFault::BadUri);
    }
    match u16::try_from(decimal_number(type_name)?) {
        Ok(kind) => Ok(kind),
        Err(_) => Err(NameFault::BadUri),
    }
}

/// Returns the component that has the type `kind` and the value that `text` encodes. `text` may
/// have percent escapes. If there is no such component, returns `BadUri` for an invalid text, and
/// otherwise the fault that `kind_by_len` returns.
fn plain_text(kind: u16, text: &[u8]) -> Result<ComponentText<'_>, NameFault>
    ensures { MatchResult result
        (λ c. (field : Field) × (read.plain_in kind text.now ≡ Ok field) × IsTextOf field c)
        (λ fault. read.plain_in kind text.now ≡ Err fault) }
{
    let (count, has_periods_only) = count_octets(text)?;
    let len = unpadded_len(count, has_periods_only)?;
    let kind = kind_by_len(u32::from(kind), len)?;
    let value = value_text(text, count, len);
    Ok(ComponentText { kind, len, value })
}

/// Returns the text of a value. The value is the first `len` of the `count` octets that `text`
/// encodes.
fn value_text(text: &[u8], count: usize, len: usize) -> ValueText<'_>
    requires { len ≤ count }
    ensures { (octets : List ℕ) → read.octets_in text.now ≡ Ok octets → count ≡ length octets
        → value_in len result ≡ Ok (take len octets) }
{
    if count == text.len() {
        return ValueText::Plain(&text[..len]);
    }
    ValueText::Escaped(text)
}

/// Returns the digest component that has the type `kind` and the value that the hexadecimal digits
/// in `text` encode. Returns `BadUri` if `text` does not consist of 64 hexadecimal digits.
fn digest_text(kind: u16, text: &[u8]) -> Result<ComponentText<'_>, NameFault>
    ensures { MatchResult result
        (λ c. (field : Field) × (read.digest_in kind text.now ≡ Ok field) × IsTextOf field c)
        (λ fault. read.digest_in kind text.now ≡ Err fault) }
{
    if text.len() != 2 * SHA256_LEN {
        return Err(NameFault::BadUri);
    }
    for i in 0..SHA256_LEN {
        octet_of(text[2 * i], text[2 * i + 1])?;
    }
    let value = ValueText::Hexadecimal(text);
    Ok(ComponentText {
        kind,
        len: SHA256_LEN,
        value,
    })
}

/// Returns the component that has the type `kind` and whose value encodes the number that `text`
/// represents. Returns `BadUri` if `text` is not a number below 2^64 in decimal digits without a
/// sign.
fn number_text(kind: u16, text: &str) -> Result<ComponentText<'_>, NameFault>
    ensures { MatchResult result
        (λ c. (field : Field) × (read.numbered_in kind text.now ≡ Ok field) × IsTextOf field c)
        (λ fault. read.numbered_in kind text.now ≡ Err fault) }
{
    let number = decimal_number(text)?;
    let value = ValueText::Number(number);
    Ok(ComponentText {
        kind,
        len: nni_len(number),
        value,
    })
}

/// Returns the component whose text consists of `type_name`, an equals sign and `text`.
/// `type_name` has no equals sign. Returns the same faults as `component_text` if there is no such
/// component.
fn typed_text<'a>(type_name: &str, text: &'a str) -> Result<ComponentText<'a>, NameFault>
    ensures { let typed = read.typed_in type_name.now text.now (kind_of type_name.now) in
        MatchResult result (λ c. (field : Field) × (typed ≡ Ok field) × IsTextOf field c)
        (λ fault. typed ≡ Err fault) }
{
    match kind_of(type_name) {
        None => plain_text(type_of(type_name)?, text.as_bytes()),
        Some(kind) if kind <= PARAMETERS_SHA256_DIGEST => digest_text(kind, text.as_bytes()),
        Some(kind) => number_text(kind, text),
    }
}

/// Returns the component that `piece`, a text without slashes, reads as. Returns `BadUri` or
/// `BadDigestLength` if there is no such component.
pub fn component_text(piece: &str) -> Result<ComponentText<'_>, NameFault>
    ensures { MatchResult result
        (λ c. (field : Field) × (read.component_in piece.now ≡ Ok field) × IsTextOf field c)
        (λ fault. read.component_in piece.now ≡ Err fault) }
{
    match piece.split_once('=') {
        Some((type_name, text)) => typed_text(type_name, text),
        None => plain_text(GENERIC, piece.as_bytes()),
    }
}

/// Appends the octets that a text with percent escapes encodes. Returns `BadUri` if an escape is
/// invalid, and `Memory` if memory runs out. After a fault, some octets may have been appended.
fn put_escaped(out: &mut Vec<u8>, text: &[u8]) -> Result<(), NameFault>
    ensures { let found = read.octets_in text.now in
        MatchResult result (λ _. read.Adds (λ octets. octets) found out.old.items out.new.items)
        (read.IsFaultOf found) }
{
    let mut rest = text;
    while let Some((first, after)) = rest.split_first() {
        let (octet, after) = first_octet(*first, after)?;
        out.push(octet)?;
        rest = after;
    }
    Ok(())
}

/// Appends the octets that the hexadecimal digits in `text` encode. Returns `BadUri` if `text` has
/// a character that is not such a digit, or an odd number of digits. Returns `Memory` if memory
/// runs out. After a fault, some octets may have been appended.
fn put_hexadecimal(out: &mut Vec<u8>, text: &[u8]) -> Result<(), NameFault>
    ensures { let found = read.hex_in text.now in
        MatchResult result (λ _. read.Adds (λ octets. octets) found out.old.items out.new.items)
        (read.IsFaultOf found) }
{
    let mut rest = text;
    while let Some((high, after)) = rest.split_first() {
        let Some((low, after)) = after.split_first() else {
            return Err(NameFault::BadUri);
        };
        out.push(octet_of(*high, *low)?)?;
        rest = after;
    }
    Ok(())
}

/// Appends the value of a component. If memory runs out, some octets may have been appended.
pub fn put_value(out: &mut Vec<u8>, component: ComponentText<'_>) -> Result<(), NameFault>
    ensures ok { (c : Field) → IsTextOf c component.entry
        → OnOk result (out.new.items ≡ out.old.items ++ c.1) }
    ensures err { (c : Field) → IsTextOf c component.entry
        → IfErr result (λ fault. fault ≡ NameFault.Memory) }
{
    match component.value {
        ValueText::Plain(octets) => out.extend_from_slice(octets)?,
        ValueText::Hexadecimal(text) => put_hexadecimal(out, text)?,
        ValueText::Number(number) => put_nni(out, number)?,
        ValueText::Escaped(text) => {
            let end = out.len().saturating_add(component.len);
            put_escaped(out, text)?;
            out.truncate(end);
        }
    }
    Ok(())
}
