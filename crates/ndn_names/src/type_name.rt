//! Names of component types in URI text (NDN Packet Format 0.3, "NDN URI Scheme"; NDN
//! Naming Conventions, revision 3).

ghost use Rattle.std.specs.Prelude.{◌≡◌, option_map};
ghost use Rattle.ndn_names.specs.TypeName as spec;

use crate::component_type::{
    BYTE_OFFSET, IMPLICIT_SHA256_DIGEST, PARAMETERS_SHA256_DIGEST, SEGMENT, SEQUENCE_NUM,
    TIMESTAMP, VERSION,
};
use ndn_tlv::nni_of;

/// Returns the URI type name of a component type, for example `seg`, or `None` if the type has no
/// name.
pub fn type_name_of(kind: u16) -> Option<&'static str>
    ensures { option_map (λ type_name. type_name.now) result ≡ spec.type_name_of kind }
{
    match kind {
        IMPLICIT_SHA256_DIGEST => Some("sha256digest"),
        PARAMETERS_SHA256_DIGEST => Some("params-sha256"),
        SEGMENT => Some("seg"),
        BYTE_OFFSET => Some("off"),
        VERSION => Some("v"),
        TIMESTAMP => Some("t"),
        SEQUENCE_NUM => Some("seq"),
        _ => None,
    }
}

/// Returns the component type with this URI type name, or `None` if no type has this name.
pub fn kind_of(type_name: &str) -> Option<u16>
    ensures { result ≡ spec.kind_of type_name.now }
{
    match type_name {
        "sha256digest" => Some(IMPLICIT_SHA256_DIGEST),
        "params-sha256" => Some(PARAMETERS_SHA256_DIGEST),
        "seg" => Some(SEGMENT),
        "off" => Some(BYTE_OFFSET),
        "v" => Some(VERSION),
        "t" => Some(TIMESTAMP),
        "seq" => Some(SEQUENCE_NUM),
        _ => None,
    }
}

/// Returns the number whose shortest NonNegativeInteger encoding is `value`, or `None` if there is
/// no such number.
pub fn shortest_number(value: &[u8]) -> Option<u64>
    ensures { result ≡ spec.shortest_number value.now }
{
    let n = nni_of(value).ok()?;
    let least = match value.len() {
        1 => 0,
        2 => 1 << 8,
        4 => 1 << 16,
        _ => 1 << 32,
    };
    (n >= least).then_some(n)
}
