use thiserror::Error;

/// Why no pipeline is made: the first of these faults that applies.
#[derive(Clone, Copy, Debug, PartialEq, Eq, Error)]
pub enum PipelineFault {
    /// The greatest window is 0, or above `GREATEST_WINDOW`.
    #[error("the greatest window must be from 1 to 1024 segments")]
    BadWindow,
    /// Memory could not be allocated.
    #[error("out of memory")]
    Memory,
}
