ghost use Rattle.std.specs.Prelude.{◌≡◌};
ghost use Rattle.name_patterns.specs.declared.fault.PatternFault.TheVariants as faults;

use std::alloc::AllocFailed;
use thiserror::Error;

/// Why a text is not a pattern, or not a template: the fault of the leftmost faulty item, with the
/// offset of this item's first octet. The first octet of the text has offset 0. If an item has
/// several faults, the first one in the order of this enum is reported, with one exception: the
/// fault of a tenth group that is never closed is `BadGroup`. `Memory` may be returned for any
/// text.
#[derive(Clone, Copy, Debug, PartialEq, Eq, Error)]
pub enum PatternFault {
    /// The text at this offset is not in the grammar, or is the 33rd atom.
    #[error("octet {0}: not part of a pattern")]
    Syntax(usize),
    /// The text of a component contains one of the characters ( ) [ ] { } * + ? ^ $ \ |, which are
    /// reserved for patterns inside components.
    #[error("octet {0}: a pattern inside a component")]
    Inner(usize),
    /// A group is inside another group, or a group is repeated.
    #[error("octet {0}: a group that is nested or repeated")]
    Nested(usize),
    /// A pattern has a tenth group, or a template uses a group that the pattern does not have.
    #[error("octet {0}: a group that does not exist, or one too many")]
    BadGroup(usize),
    /// Memory could not be allocated.
    #[error("out of memory")]
    Memory,
}

impl<T: Drop> From<AllocFailed<T>> for PatternFault {
    ghost from_gives = { λ _ e. e ≡ faults.Memory };

    fn from(_error: AllocFailed<T>) -> PatternFault {
        PatternFault::Memory
    }
}
