ghost use Rattle.std.specs.Prelude.{◌≡◌};
ghost use Rattle.ndn_packets.specs.Fields.{needs_previous_field, is_even_high};
ghost use Rattle.ndn_packets.specs.FieldReader.{ignored_by};

use crate::types::{INTEREST_SIGNATURE_INFO, INTEREST_SIGNATURE_VALUE, VALIDITY_PERIOD};

/// The kind of a value that contains elements. This kind decides which elements are ignored (NDN
/// Packet Format 0.3, "Considerations for Evolvability of TLV-Based Encoding").
#[derive(Clone, Copy)]
pub enum Rules {
    /// The value of a packet after its Name, or the value of a Nack: even types from 32 on are
    /// ignored.
    Packet,
    /// The value of a MetaInfo: even types from 32 on and the types 128 to 252 are ignored.
    MetaInfo,
    /// The value of a SignatureInfo: even types from 32 on and the ValidityPeriod are ignored.
    SignatureInfo,
}

impl Rules {
    /// Returns whether an element of type `kind` is ignored if the element is not a field.
    #[inline(always)]
    pub fn ignores(self, kind: u32) -> bool
        ensures { result ≡ ignored_by self kind }
    {
        let is_even_high = kind >= 32 && kind % 2 == 0;
        match self {
            Rules::Packet => is_even_high,
            Rules::MetaInfo => is_even_high || (128..=252).contains(&kind),
            Rules::SignatureInfo => is_even_high || kind == VALIDITY_PERIOD,
        }
    }
}

/// Returns whether the type `kind` needs the previous field. An element of such a type is a field
/// only if the last field before this element has the type that directly precedes `kind` in the
/// schema. Ignored elements may come between that field and this element.
#[inline(always)]
pub fn needs_previous_field(kind: u32) -> bool
    ensures { result ≡ needs_previous_field kind }
{
    kind == INTEREST_SIGNATURE_INFO || kind == INTEREST_SIGNATURE_VALUE
}
