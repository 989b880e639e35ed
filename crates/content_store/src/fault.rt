use thiserror::Error;

/// Why a store cannot be created. If both faults apply, `BadCapacity` is returned.
#[derive(Clone, Copy, Debug, PartialEq, Eq, Error)]
pub enum StoreFault {
    /// The capacity is 0 or above 65,536.
    #[error("the capacity of a store is from 1 to 65536")]
    BadCapacity,
    /// Memory could not be allocated.
    #[error("out of memory")]
    Memory,
}
