//! Reading names from URI text (NDN Packet Format 0.3, "NDN URI Scheme").

ghost use Rattle.std.specs.Prelude.{◌≡◌, ◌↔◌, ◌≢◌, ◌<◌, ◌∷◌, ◌++◌, ℕ, List, [], length, Ok, Err, IfOk, IfErr, MatchResult};
ghost use Rattle.ndn_tlv.specs.Element.{Field, element};
ghost use Rattle.ndn_names.specs.Name.{IsComponent, octets_of};
ghost use Rattle.ndn_names.specs.ReadsAs.{ReadsAs, ReadsComponent};
ghost use Rattle.ndn_names.specs.UriReading as read;

use crate::component_text::{component_text, put_value};
use crate::fault::NameFault;
use crate::name::MAX_COMPONENTS;
use crate::name_buf::NameBuf;
use ndn_tlv::put_number;
use std::alloc::Global;

/// Spare capacity for a name, in octets. The TLV-VALUE of a name may be longer than its URI text:
/// in the TLV-VALUE, a component usually has two octets in addition to its value, for type and
/// length; in the text, a component may have only one additional octet, the slash.
const SPARE: usize = 16;

/// Reads the URI text of one component, for example `A` or `seg=5`. Returns the type and the value
/// of the component.
///
/// Returns `BadUri` for a text with a slash. Without a slash, the fault is `BadDigestLength` if the
/// text after `1=` or `2=` encodes a value that does not have 32 octets. Every other fault of the
/// text is `BadUri`. Returns `Memory` only if the text reads as a component.
pub fn component_from_uri(alloc: Global, text: &str) -> Result<(u16, Vec<u8>), NameFault>
    // The text reads as the returned component.
    ensures found { IfOk result
        (λ c. ReadsComponent text.now (c.0, c.1.items) × IsComponent (c.0, c.1.items)) }
    // If the text reads as a component, this component is returned, unless memory runs out.
    ensures only { (c : Field) → ReadsComponent text.now c → IsComponent c
        → MatchResult result (λ component. (component.0, component.1.items) ≡ c)
        (λ fault. fault ≡ NameFault.Memory) }
    // A returned fault is the first fault of the text, or `Memory`.
    ensures exact { MatchResult result (λ c. read.piece_in text.now ≡ Ok (c.0, c.1.items))
        (λ fault. read.IsFaultOf (read.piece_in text.now) fault) }
    // `Memory` is returned only if the whole text is valid.
    ensures memory { IfErr result (λ fault. fault ≡ NameFault.Memory
        → (c : Field) × ReadsComponent text.now c × IsComponent c) }
{
    read_component(alloc, text)
}

fn read_component(alloc: Global, text: &str) -> Result<(u16, Vec<u8>), NameFault>
    ensures { MatchResult result (λ c. read.piece_in text.now ≡ Ok (c.0, c.1.items))
        (read.IsFaultBeforeMemory (read.piece_in text.now)) }
{
    if text.as_bytes().contains(&b'/') {
        return Err(NameFault::BadUri);
    }
    let component = component_text(text)?;
    let mut value = Vec::with_capacity(alloc, component.len)?;
    put_value(&mut value, component)?;
    Ok((component.kind, value))
}

/// Returns the text without the scheme `ndn:` at its start. A text that does not begin with this
/// scheme is returned unchanged.
fn without_scheme(text: &str) -> &str
    ensures { result.now ≡ read.without_scheme text.now }
{
    text.strip_prefix("ndn:").unwrap_or(text)
}

/// Returns the text before the first slash, and the text after this slash. Without a slash, returns
/// the whole text and an empty text.
pub(crate) fn first_piece(text: &str) -> (&str, &str)
    requires { text.now ≢ [] }
    ensures pieces { read.pieces_of text.now ≡ result.0.now ∷ read.pieces_of result.1.now }
    ensures shorter { length result.1.now < length text.now }
{
    match text.split_once('/') {
        Some(parts) => parts,
        None => (text, ""),
    }
}

/// Reads each piece of `text` as one component of a name, and returns the number of components. A
/// piece ends before a slash or at the end of `text`. After a slash at the end there is no piece.
/// Returns the first fault if the pieces are not the components of a name.
fn count_pieces(text: &str) -> Result<usize, NameFault>
    ensures { let name_in = read.components_in 0 (read.pieces_of text.now) in
        MatchResult result (λ n. (cs : List Field) × (name_in ≡ Ok cs) × (n ≡ length cs))
        (λ fault. name_in ≡ Err fault) }
{
    let mut rest = text;
    let mut count = 0;
    while !rest.is_empty() {
        if count == MAX_COMPONENTS {
            return Err(NameFault::TooManyComponents);
        }
        let (piece, after) = first_piece(rest);
        component_text(piece)?;
        rest = after;
        count += 1;
    }
    Ok(count)
}

/// Reads each piece of `text` as one component of a name, and appends the TLV-VALUE of this name.
/// The pieces are those that `count_pieces` reads.
fn put_pieces(out: &mut Vec<u8>, text: &str) -> Result<(), NameFault>
    ensures { let name_in = read.components_in 0 (read.pieces_of text.now) in
        MatchResult result (λ _. read.Adds octets_of name_in out.old.items out.new.items)
        (read.IsFaultOf name_in) }
{
    let mut rest = text;
    let mut count = 0;
    while !rest.is_empty() {
        if count == MAX_COMPONENTS {
            return Err(NameFault::TooManyComponents);
        }
        let (piece, after) = first_piece(rest);
        put_component(out, piece)?;
        rest = after;
        count += 1;
    }
    Ok(())
}

/// Appends the component that `piece` reads as, including the type and length of the component.
fn put_component(out: &mut Vec<u8>, piece: &str) -> Result<(), NameFault>
    ensures { let found = read.component_in piece.now in
        MatchResult result (λ _. read.Adds element found out.old.items out.new.items)
        (read.IsFaultOf found) }
{
    let component = component_text(piece)?;
    put_number(out, u64::from(component.kind))?;
    put_number(out, component.len as u64)?;
    put_value(out, component)
}

/// Returns the path without its first slash, where the path is the text after the optional scheme.
/// Returns an empty text if the path is `//`, and `BadUri` if the path does not begin with a slash.
pub(crate) fn pieces_text(text: &str) -> Result<&str, NameFault>
    ensures { MatchResult result
        (λ rest. read.name_in text.now ≡ read.components_in 0 (read.pieces_of rest.now))
        (λ fault. read.name_in text.now ≡ Err fault) }
{
    match without_scheme(text).strip_prefix('/') {
        None => Err(NameFault::BadUri),
        Some("/") => Ok(""),
        Some(rest) => Ok(rest),
    }
}

/// Returns the name that the text reads as, or the first fault of the text, or `Memory` if memory
/// runs out first.
fn put_name(alloc: Global, text: &str) -> Result<NameBuf, NameFault>
    ensures { MatchResult result (λ name. read.name_in text.now ≡ Ok name)
        (read.IsFaultOf (read.name_in text.now)) }
{
    let pieces = pieces_text(text)?;
    let mut octets = Vec::with_capacity(alloc, pieces.len().saturating_add(SPARE))?;
    put_pieces(&mut octets, pieces)?;
    Ok(NameBuf::from_octets(octets))
}

/// Returns the name that the text reads as, or the first fault of the text. If memory runs out, the
/// text is read once more without allocation, so that a fault of the text is reported instead of
/// `Memory`.
fn read_name(alloc: Global, text: &str) -> Result<NameBuf, NameFault>
    ensures { MatchResult result (λ name. read.name_in text.now ≡ Ok name)
        (read.IsFaultBeforeMemory (read.name_in text.now)) }
{
    match put_name(alloc, text) {
        Ok(name) => Ok(name),
        Err(NameFault::Memory) => {
            uri_len(text)?;
            Err(NameFault::Memory)
        }
        Err(fault) => Err(fault),
    }
}

/// Returns the number of components in the name that a URI text reads as. Nothing is allocated.
///
/// Returns the first fault if the text is not a name, as `NameBuf::from_uri` does.
pub fn uri_len(text: &str) -> Result<usize, NameFault>
    // The text reads as a name with the returned number of components.
    ensures found { IfOk result
        (λ n. (cs : List Field) × ReadsAs text.now cs × (n ≡ length cs)) }
    // If the text reads as a name, the number of its components is returned.
    ensures only { (cs : List Field) → ReadsAs text.now cs → result ≡ Ok (length cs) }
    // A returned fault is the first fault of the text.
    ensures fault { IfErr result (λ fault. read.name_in text.now ≡ Err fault) }
{
    let pieces = pieces_text(text)?;
    count_pieces(pieces)
}

impl NameBuf {
    /// Reads URI text, for example `/A/seg=5`, from left to right. The text may begin with the
    /// scheme `ndn:` and end with a slash.
    ///
    /// Returns the first fault in text order. The fault of the 65th component is always
    /// `TooManyComponents`. The fault of an earlier component is `BadDigestLength` if the
    /// component's text after `1=` or `2=` encodes a value that does not have 32 octets. Every
    /// other fault of the text is `BadUri`. Returns `Memory` only if the text reads as a name.
    pub fn from_uri(alloc: Global, text: &str) -> Result<NameBuf, NameFault>
        // The text reads as the returned name.
        ensures found { IfOk result (λ name. ReadsAs text.now name) }
        // If the text reads as a name, this name is returned, unless memory runs out.
        ensures only { (cs : List Field) → ReadsAs text.now cs
            → MatchResult result (λ name. name ≡ cs) (λ fault. fault ≡ NameFault.Memory) }
        // A returned fault is the first fault of the text, or `Memory`.
        ensures exact { MatchResult result (λ name. read.name_in text.now ≡ Ok name)
            (λ fault. read.IsFaultOf (read.name_in text.now) fault) }
        // `Memory` is returned only if the whole text is valid.
        ensures memory { IfErr result (λ fault. fault ≡ NameFault.Memory
            → (cs : List Field) × ReadsAs text.now cs) }
    {
        read_name(alloc, text)
    }
}

/// Law: a text reads as at most one name, and `name_in` returns this name. A text reads as at most
/// one component, and `piece_in` returns this component.
pub fn texts_have_one_reading()
    ensures component { (text : List ℕ) (c : Field) → (read.piece_in text ≡ Ok c)
        ↔ (ReadsComponent text c × IsComponent c) }
    ensures exact { (text : List ℕ) (cs : List Field) → (read.name_in text ≡ Ok cs)
        ↔ ReadsAs text cs }
    ensures one { (text : List ℕ) (a b : List Field) → ReadsAs text a → ReadsAs text b → a ≡ b }
{}
