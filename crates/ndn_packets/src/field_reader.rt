ghost use Rattle.std.specs.Prelude.{◌≡◌, ◌↔◌, ◌<◌, ℕ, List, length, Ok, Err, IfOk, IfSome, OnSome, option_map};
ghost use Rattle.ndn_tlv.specs.Reading.{elements_of, on_result};
ghost use Rattle.ndn_names.specs.View.{components};
ghost use Rattle.ndn_names.specs.FirstOfType.{FindsFirst};
ghost use Rattle.ndn_packets.specs.Fields.{is_even_high, is_ignored_in_meta_info, is_ignored_in_signature_info, interest_schema, data_schema, meta_schema, info_schema};
ghost use Rattle.ndn_packets.specs.Link.{nack_schema};
ghost use Rattle.ndn_packets.specs.declared.fault.PacketFault.{PacketFault};
ghost use Rattle.ndn_packets.specs.FirstFault.{TellsFirstFault};
ghost use Rattle.ndn_packets.specs.PacketFaults.{InfoFault, InterestFault, DataFault};
ghost use Rattle.ndn_packets.specs.FrameReading.{take_nack_field};
ghost use Rattle.ndn_packets.specs.Reading.{schema_after, fields_from, name_first, leading_name_at, nni_value_at, interest_at, data_at, info_at, take_interest_field, take_data_field, take_meta_field, take_info_field, no_fields_yet, nothing_yet, no_info_yet};
ghost use Rattle.ndn_packets.specs.FieldReader.{ignored_by, fields_left, IsNextField, StandsHere, OthersAfter};

use crate::fault::PacketFault;
use crate::schema::{Rules, needs_previous_field};
use crate::types::NAME;
use ndn_names::component_type::PARAMETERS_SHA256_DIGEST;
use ndn_names::{FirstOfType, Name};
use ndn_tlv::{Element, first_element, nni_of};

/// Iterates over the elements of a value and returns the fields of a schema, in the schema's order.
#[derive(Drop)]
pub struct FieldReader<'a> {
    rules: Rules,
    /// If `next` has just returned a field, `here` is the octets from the start of this field to
    /// the end of the value.
    pub here: &'a [u8],
    rest: &'a [u8],
    schema: &'a [u32],
}

impl<'a> FieldReader<'a> {
    #[inline(always)]
    pub fn new(rules: Rules, value: &'a [u8], schema: &'a [u32]) -> FieldReader<'a>
        ensures fields { fields_left result
            ≡ fields_from (ignored_by rules) schema.entry.now (elements_of value.entry.now) }
        ensures schema { result.schema.now ≡ schema.entry.now }
        ensures rest { result.rest.now ≡ value.entry.now }
    {
        FieldReader {
            rules,
            here: value,
            rest: value,
            schema,
        }
    }

    /// Returns the next field, or `None` if no field is left. An element that is not a field is
    /// ignored if `self.rules` ignores the element's type, and otherwise has the fault
    /// `CriticalUnknown`. An element that cannot be read has the fault `Tlv`.
    #[inline(always)]
    pub fn next(&mut self) -> Result<Option<Element<'a>>, PacketFault>
        ensures walk { IsNextField self.old self.new result }
        ensures place { IfOk result (λ next. IfSome next (λ e. StandsHere self.old self.new e)) }
        ensures progress { IfOk result
            (λ next. OnSome next (length self.new.rest.now < length self.old.rest.now)) }
    {
        while !self.rest.is_empty() {
            let (element, rest) = first_element(self.rest).map_err(PacketFault::Tlv)?;
            self.here = self.rest;
            self.rest = rest;
            if let Some(schema) = rest_of_schema(self.schema, element.kind) {
                self.schema = schema;
                return Ok(Some(element));
            }
            if !self.rules.ignores(element.kind) {
                return Err(PacketFault::CriticalUnknown);
            }
        }
        Ok(None)
    }
}

/// Returns the types of `schema` after the type `kind`, or `None` if a field of type `kind` may not
/// come next.
#[inline(always)]
fn rest_of_schema(schema: &[u32], kind: u32) -> Option<&[u32]>
    ensures { option_map (λ s. s.now) result ≡ schema_after kind schema.now }
{
    for (i, first) in schema.iter().enumerate() {
        if *first == kind {
            return Some(&schema[i + 1..]);
        }
        if needs_previous_field(kind) {
            return None;
        }
    }
    None
}

/// Returns the value of the first element, which must be a Name, and the octets after this element.
#[inline(always)]
fn leading_value(value: &[u8]) -> Result<(&[u8], &[u8]), PacketFault>
    ensures exact { on_result (λ x. Ok (x.0.now, elements_of x.1.now)) Err result
        ≡ name_first (elements_of value.now) }
    ensures place { IfOk result (λ x. OthersAfter value.now x.1.now) }
{
    if value.is_empty() {
        return Err(PacketFault::NoName);
    }
    let (first, rest) = first_element(value).map_err(PacketFault::Tlv)?;
    if first.kind != NAME {
        return Err(PacketFault::NoName);
    }
    Ok((first.value, rest))
}

/// Returns the name in the first element, which must be a Name, and the octets after this element.
/// Returns `NoName` if the first element is missing or has another type, `Tlv` if the first element
/// cannot be read, and `BadField` if the value of the Name is not a name.
#[inline(always)]
pub fn leading_name(value: &[u8]) -> Result<(Name<'_>, &[u8]), PacketFault>
    ensures exact { on_result (λ x. Ok (components x.0, elements_of x.1.now)) Err result
        ≡ leading_name_at (elements_of value.now) }
    ensures place { IfOk result (λ x. OthersAfter value.now x.1.now) }
{
    let (first, rest) = leading_value(value)?;
    match Name::read(first) {
        Ok(name) => Ok((name, rest)),
        Err(_) => Err(PacketFault::BadField),
    }
}

/// Returns the name in the first element, which must be a Name. Also returns the first digest of
/// parameters in the name, if there is one, and the octets after the Name. Returns the same faults
/// as `leading_name`.
#[inline(always)]
pub fn digested_name(
    value: &[u8],
) -> Result<(Name<'_>, Option<FirstOfType<'_>>, &[u8]), PacketFault>
    ensures exact { on_result (λ x. Ok (components x.0, elements_of x.2.now)) Err result
        ≡ leading_name_at (elements_of value.now) }
    ensures digest { IfOk result
        (λ x. FindsFirst PARAMETERS_SHA256_DIGEST (components x.0) x.1) }
    ensures place { IfOk result (λ x. OthersAfter value.now x.2.now) }
{
    let (first, rest) = leading_value(value)?;
    match Name::read_finding(first, PARAMETERS_SHA256_DIGEST) {
        Ok((name, digest)) => Ok((name, digest, rest)),
        Err(_) => Err(PacketFault::BadField),
    }
}

/// Returns the number that a value encodes as a NonNegativeInteger, or `BadField` if the value is
/// not a NonNegativeInteger.
#[inline(always)]
pub fn number(value: &[u8]) -> Result<u64, PacketFault>
    ensures { result ≡ nni_value_at value.now }
{
    nni_of(value).map_err(|_| PacketFault::BadField)
}

/// Law: the readers of the fields of an Interest, a Data, a MetaInfo, a SignatureInfo and a Nack
/// report the first fault among the elements. All elements before the faulty element are valid
/// fields or are ignored.
pub fn fields_tell_the_first_fault()
    ensures interest { TellsFirstFault take_interest_field is_even_high interest_schema
        no_fields_yet }
    ensures packet { TellsFirstFault take_data_field is_even_high data_schema nothing_yet }
    ensures meta_info { TellsFirstFault take_meta_field is_ignored_in_meta_info meta_schema 0 }
    ensures signature_info { TellsFirstFault take_info_field is_ignored_in_signature_info
        info_schema no_info_yet }
    ensures nack { TellsFirstFault take_nack_field is_even_high nack_schema 0 }
{}

/// Law: the readers of a packet's value and of a SignatureInfo report the first fault. In an
/// Interest or a Data, a fault of the Name comes first, then the first fault among the elements
/// after the Name, then a missing field. In an Interest, a fault of the digest of its parameters
/// comes last.
pub fn packets_tell_the_first_fault()
    ensures interest { (value : List ℕ) (fault : PacketFault) → (interest_at value ≡ Err fault)
        ↔ InterestFault (elements_of value) fault }
    ensures packet { (value : List ℕ) (fault : PacketFault) → (data_at value ≡ Err fault)
        ↔ DataFault (elements_of value) fault }
    ensures signature_info { (value : List ℕ) (fault : PacketFault) → (info_at value ≡ Err fault)
        ↔ InfoFault (elements_of value) fault }
{}
