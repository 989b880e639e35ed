//! Names as URI text (NDN Packet Format 0.3, "NDN URI Scheme").

ghost use Rattle.std.specs.Prelude.{◌≡◌, List, Some, IfOk, flat_map, string_bytes, false};
ghost use Rattle.ndn_tlv.specs.Element.{Field};
ghost use Rattle.ndn_names.specs.Name.{IsName};
ghost use Rattle.ndn_names.specs.Uri.{escaped, hexadecimal, value_text, component_text, AreOctets, uri_of};
ghost use Rattle.ndn_names.specs.ReadsAs.{ReadsAs};
ghost use Rattle.ndn_names.specs.View.{field_of, components};

use crate::component::Component;
use crate::component_type::{GENERIC, PARAMETERS_SHA256_DIGEST};
use crate::name::Name;
use crate::name_buf::NameBuf;
use crate::type_name::{shortest_number, type_name_of};
use ndn_tlv::Memory;
use std::alloc::Global;
use std::fmt;

/// Prints an octet of a value as text.
#[derive(Clone, Copy)]
struct Octet(u8);

impl fmt::Display for Octet {
    ghost output = { λ octet. Some (escaped octet.0) };

    fn fmt<W: fmt::Write>(&self, f: &mut fmt::Formatter<W>) -> fmt::Result {
        let octet = self.0;
        if octet.is_ascii_alphanumeric() || matches!(octet, b'-' | b'.' | b'_' | b'~') {
            f.write_char(octet as char)
        } else {
            write!(f, "%{octet:02X}")
        }
    }
}

/// Prints a value as text.
#[derive(Clone, Copy)]
struct Value<'a>(&'a [u8]);

impl fmt::Display for Value<'_> {
    ghost output = { λ value. Some (value_text value.0.now) };

    fn fmt<W: fmt::Write>(&self, f: &mut fmt::Formatter<W>) -> fmt::Result {
        let mut is_periods = true;
        for octet in self.0 {
            is_periods = is_periods && *octet == b'.';
            f.write(Octet(*octet))?;
        }
        if is_periods {
            f.write_str("...")
        } else {
            Ok(())
        }
    }
}

/// Prints a digest in hexadecimal digits.
#[derive(Clone, Copy)]
struct Hexadecimal<'a>(&'a [u8]);

impl fmt::Display for Hexadecimal<'_> {
    ghost output = { λ digest. Some (flat_map (hexadecimal false) digest.0.now) };

    fn fmt<W: fmt::Write>(&self, f: &mut fmt::Formatter<W>) -> fmt::Result {
        for &octet in self.0 {
            write!(f, "{octet:02x}")?;
        }
        Ok(())
    }
}

impl fmt::Display for Component<'_> {
    ghost output = { λ component. Some (component_text (field_of component)) };

    fn fmt<W: fmt::Write>(&self, f: &mut fmt::Formatter<W>) -> fmt::Result {
        let kind = self.kind;
        if let Some(type_name) = type_name_of(kind) {
            if kind <= PARAMETERS_SHA256_DIGEST {
                return write!(f, "{type_name}={}", Hexadecimal(self.value));
            }
            if let Some(n) = shortest_number(self.value) {
                return write!(f, "{type_name}={n}");
            }
        }
        if kind != GENERIC {
            write!(f, "{kind}=")?;
        }
        f.write(Value(self.value))
    }
}

impl fmt::Display for Name<'_> {
    ghost output = { λ name. Some (uri_of (components name)) };

    fn fmt<W: fmt::Write>(&self, f: &mut fmt::Formatter<W>) -> fmt::Result {
        if self.is_empty() {
            return f.write_str("/");
        }
        for component in self.iter() {
            write!(f, "/{component}")?;
        }
        Ok(())
    }
}

impl fmt::Display for NameBuf {
    ghost output = { λ name. Some (uri_of name) };

    fn fmt<W: fmt::Write>(&self, f: &mut fmt::Formatter<W>) -> fmt::Result {
        f.write(self.view())
    }
}

impl NameBuf {
    /// Returns the URI text of the name, as `{}` prints it: digests in lower case, percent escapes
    /// in upper case.
    pub fn to_uri(&self, alloc: Global) -> Result<String, Memory>
        ensures exact { IfOk result (λ text. string_bytes text ≡ uri_of self.now) }
        ensures reads_back { IfOk result (λ text. ReadsAs (string_bytes text) self.now) }
    {
        // The proof of `reads_back` uses the contract of `as_octets`: the returned octets are the
        // TLV-VALUE of the name. These octets are below 256, so the octets in the values of all
        // components are below 256.
        let octets = self.view().as_octets();
        Ok(Name { octets }.to_string(alloc)?)
    }
}

/// Law: the text of a name reads as that name.
pub fn names_read_back()
    ensures { (cs : List Field) → IsName cs → AreOctets cs → ReadsAs (uri_of cs) cs }
{}
