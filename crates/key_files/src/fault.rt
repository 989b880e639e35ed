ghost use Rattle.std.specs.Prelude.{◌≡◌};
ghost use Rattle.key_files.specs.declared.fault.KeyFault.TheVariants as faults;

use std::alloc::AllocFailed;
use thiserror::Error;

/// Why a key file is refused: `BadLine(0)` if the file is not UTF-8, otherwise the fault of its
/// first faulty line. Line numbers count all lines from 1, including skipped lines. If a line has
/// several faults, the first one in the order of this enum is reported. `Memory` is returned only
/// if the file has no fault.
#[derive(Clone, Copy, Debug, PartialEq, Eq, Error)]
pub enum KeyFault {
    /// The line does not consist of the URI of a nonempty name, for a public key a space and the
    /// word `ecdsa-p256`, then a space, and 1 to 256 octets in hexadecimal. The line number 0 means
    /// that the file is not UTF-8.
    #[error("line {0} does not have a name and the octets of a key, such as /ops/KEY/1 6b6579")]
    BadLine(u64),
    /// The public key of the line is not the uncompressed form of a point of the curve P-256: 65
    /// octets, of which the first is 04. Or the secret of the line is such a form: the word
    /// `ecdsa-p256` is missing, or is spelled in another way.
    #[error("line {0}: ecdsa-p256 and a public key of P-256, 130 digits that begin with 04, go together")]
    BadKey(u64),
    /// The key of the line has the same name as the key of an earlier line.
    #[error("line {0} has the name of an earlier key, but each key needs its own name")]
    TwiceNamed(u64),
    /// The line has the 257th key.
    #[error("a file has at most 256 keys")]
    TooMany,
    /// Memory could not be allocated.
    #[error("out of memory")]
    Memory,
}

impl KeyFault {
    ghost use Rattle.key_files.specs.FaultName.{fault_name, fault_line};

    /// Returns the name of the fault, for example `BadLine`.
    pub fn name(self) -> &'static str
        ensures { result.now ≡ fault_name self }
    {
        match self {
            KeyFault::BadLine(_) => "BadLine",
            KeyFault::BadKey(_) => "BadKey",
            KeyFault::TwiceNamed(_) => "TwiceNamed",
            KeyFault::TooMany => "TooMany",
            KeyFault::Memory => "Memory",
        }
    }

    /// Returns the number of the faulty line, or `None` if the fault has no line number. The first
    /// line has number 1. The number 0 means that the file is not UTF-8.
    pub fn line(self) -> Option<u64>
        ensures { result ≡ fault_line self }
    {
        match self {
            KeyFault::BadLine(line) | KeyFault::BadKey(line) | KeyFault::TwiceNamed(line) => {
                Some(line)
            }
            KeyFault::TooMany | KeyFault::Memory => None,
        }
    }
}

impl<T: Drop> From<AllocFailed<T>> for KeyFault {
    ghost from_gives = { λ _ e. e ≡ faults.Memory };

    fn from(_error: AllocFailed<T>) -> KeyFault {
        KeyFault::Memory
    }
}
