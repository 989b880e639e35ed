use journal::ReplayFault;
use ndn_tlv::Memory;
use thiserror::Error;

/// Why a journal was not shortened. Lines are counted from 1.
#[derive(Clone, Copy, Debug, PartialEq, Eq, Error)]
pub enum ShortenFault {
    /// The line with this number is not in the format of a script, which is the format of a
    /// journal.
    #[error("line {0} of the journal is a bad line")]
    BadLine(u64),
    /// The packet in the line with this number is not allowed, or is neither a command nor a Data
    /// that the repository wants. A node journals no such packet. So the journal was changed, or
    /// the repository's prefix differs from that of the node that wrote the journal.
    #[error("no node with these options journals line {0}")]
    NotJournalled(u64),
    /// The journal has 4,294,967,295 or more whole lines.
    #[error("the journal has too many lines")]
    TooLong,
    /// The repository's prefix is not allowed.
    #[error("the repository's prefix is empty, or begins with /localhost")]
    BadRepoPrefix,
    #[error("out of memory")]
    Memory,
}

impl From<ReplayFault> for ShortenFault {
    // A reader of octets in memory does not fail, so `Read` means that there are too many lines.
    fn from(fault: ReplayFault) -> ShortenFault {
        match fault {
            ReplayFault::BadLine(line) => ShortenFault::BadLine(line),
            ReplayFault::Read => ShortenFault::TooLong,
            ReplayFault::Memory => ShortenFault::Memory,
        }
    }
}

impl From<Memory> for ShortenFault {
    fn from(_error: Memory) -> ShortenFault {
        ShortenFault::Memory
    }
}
