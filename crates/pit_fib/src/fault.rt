ghost use Rattle.std.specs.Prelude.{◌≡◌};
ghost use Rattle.pit_fib.specs.declared.fault.PitFault.TheVariants as pit_faults;
ghost use Rattle.pit_fib.specs.declared.fault.TableFault.TheVariants as faults;

use ndn_tlv::Memory as NoMemory;
use thiserror::Error;

/// Why a table of names refuses an entry. If several faults apply, the first in the order of the
/// variants is returned.
#[derive(Clone, Copy, Debug, PartialEq, Eq, Error)]
pub enum TableFault {
    /// The name has more than 32 components.
    #[error("the name has more than 32 components")]
    TooDeep,
    /// The name is new and the table has 4,096 names, or the route is new and the table has 16,384
    /// routes.
    #[error("the table is full")]
    TableFull,
    /// Out of memory.
    #[error("out of memory")]
    Memory,
}

impl From<NoMemory> for TableFault {
    ghost from_gives = { λ _ e. e ≡ faults.Memory };

    fn from(_error: NoMemory) -> TableFault {
        TableFault::Memory
    }
}

/// Why the pending Interest table refuses an Interest.
#[derive(Clone, Copy, Debug, PartialEq, Eq, Error)]
pub enum PitFault {
    /// The key is new, and Interests are pending under 4,096 other keys.
    #[error("Interests of 4096 other keys are pending")]
    PitFull,
    /// Out of memory.
    #[error("out of memory")]
    Memory,
}

impl From<NoMemory> for PitFault {
    ghost from_gives = { λ _ e. e ≡ pit_faults.Memory };

    fn from(_error: NoMemory) -> PitFault {
        PitFault::Memory
    }
}
