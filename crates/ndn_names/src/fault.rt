ghost use Rattle.std.specs.Prelude.{◌≡◌};
ghost use Rattle.ndn_names.specs.declared.fault.NameFault.TheVariants as faults;

use ndn_tlv::Memory as NoMemory;
use std::alloc::{AllocError, AllocFailed};
use thiserror::Error;

/// Why octets or a text are not a name, or why a component cannot be appended to a name (NDN Packet
/// Format 0.3, "Name"). Components are read from left to right. The fault of the 65th component is
/// always `TooManyComponents`. If several faults apply to one of the first 64 components of a
/// TLV-VALUE, the first of these faults in the order of this enum is reported. `NameBuf::from_uri`
/// documents the faults of a text.
#[derive(Clone, Copy, Debug, PartialEq, Eq, Error)]
pub enum NameFault {
    /// The type of a component is 0 or above 65535, or an element cannot be read.
    #[error("a component must be a complete element with a type from 1 to 65535")]
    BadComponent,
    /// The value of a digest is not 32 octets long. A digest is a component of type 1 or 2.
    #[error("the value of a digest component, which has type 1 or 2, must have 32 octets")]
    BadDigestLength,
    /// A name has more than 64 components.
    #[error("a name has at most 64 components")]
    TooManyComponents,
    /// A text is not the URI of a name.
    #[error("the text is not the URI of a name, such as /A/seg=5")]
    BadUri,
    /// Memory could not be allocated.
    #[error("out of memory")]
    Memory,
}

impl From<NoMemory> for NameFault {
    ghost from_gives = { λ _ e. e ≡ faults.Memory };

    fn from(_error: NoMemory) -> NameFault {
        NameFault::Memory
    }
}

impl From<AllocError> for NameFault {
    ghost from_gives = { λ _ e. e ≡ faults.Memory };

    fn from(_error: AllocError) -> NameFault {
        NameFault::from(NoMemory)
    }
}

impl<T: Drop> From<AllocFailed<T>> for NameFault {
    ghost from_gives = { λ _ e. e ≡ faults.Memory };

    fn from(_error: AllocFailed<T>) -> NameFault {
        NameFault::from(NoMemory)
    }
}
