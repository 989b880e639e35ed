//! Why a job was not done, with a message and an exit status for each reason.

ghost use Rattle.std.specs.Prelude.{◌≡◌};

use ndn_packets::{PacketFault, WriteFault};
use ndn_tlv::Memory;
use std::alloc::AllocError;
use std::fmt;

/// What is wrong with a command line or with standard input.
#[derive(Debug, Drop)]
pub enum Usage {
    /// The arguments cannot be parsed as a command line.
    CommandLine(clap::Error),
    /// An option, an argument or standard input has an invalid value, or a required value is
    /// missing.
    BadValue {
        /// Names what has the invalid value, such as an option or standard input.
        place: &'static str,
        /// What kind of value to give instead.
        wanted: &'static str,
    },
}

/// Why a job was not done.
#[derive(Debug, Drop)]
pub enum ToolFault {
    /// The command line or standard input is wrong.
    Usage(Usage),
    /// The key is not in the key file, or no key file is given.
    NoKey,
    /// The packet cannot be written.
    Write(WriteFault),
    /// The octets to show or explain are not a packet.
    Packet(PacketFault),
    /// Memory could not be allocated.
    Memory,
}

impl ToolFault {
    ghost use Rattle.std.specs.Prelude.{◌≡◌};
    ghost use Rattle.ndn_jobs.specs.Fault.{tool_status};

    /// Returns the exit status. The status is 1 for a missing key, a packet that cannot be written,
    /// or octets that are not a packet. The status is 2 for a wrong command line or a wrong
    /// standard input. The status is 3 if memory ran out.
    pub fn exit_status(&self) -> u8
        ensures { result ≡ tool_status self.now }
    {
        match self {
            ToolFault::Usage(_) => 2,
            ToolFault::NoKey
            | ToolFault::Write(WriteFault::BadName | WriteFault::TooLong)
            | ToolFault::Packet(_) => 1,
            ToolFault::Write(WriteFault::Memory) | ToolFault::Memory => 3,
        }
    }
}

/// Returns the fault of an invalid or missing value: `BadValue` with this `place` and `wanted`.
pub fn refusal(place: &'static str, wanted: &'static str) -> ToolFault
    ensures { result ≡ ToolFault.Usage (Usage.BadValue place.entry wanted.entry) }
{
    ToolFault::Usage(Usage::BadValue { place, wanted })
}

impl fmt::Display for ToolFault {
    ghost use Rattle.ndn_jobs.specs.Fault.{tool_text};

    // Each message ends with an LF.
    ghost output = { tool_text };

    fn fmt<W: fmt::Write>(&self, f: &mut fmt::Formatter<W>) -> fmt::Result {
        match self {
            ToolFault::Usage(Usage::CommandLine(error)) => error.fmt(f),
            ToolFault::Usage(Usage::BadValue { place, wanted }) => {
                writeln!(f, "error: invalid value for {place}: give {wanted}")
            }
            ToolFault::NoKey => f.write_str("key not found\n"),
            ToolFault::Write(WriteFault::Memory) | ToolFault::Memory => {
                f.write_str("error: out of memory\n")
            }
            ToolFault::Write(fault) => writeln!(f, "{}", fault.name()),
            ToolFault::Packet(fault) => writeln!(f, "{}", fault.name()),
        }
    }
}

impl From<WriteFault> for ToolFault {
    ghost use Rattle.std.specs.Prelude.{◌≡◌};
    ghost use Rattle.ndn_jobs.specs.Fault.{fault_of_write};

    ghost from_gives = { λ why fault. fault ≡ fault_of_write why };

    fn from(fault: WriteFault) -> ToolFault {
        match fault {
            WriteFault::BadName | WriteFault::TooLong => ToolFault::Write(fault),
            WriteFault::Memory => ToolFault::Memory,
        }
    }
}

impl From<Memory> for ToolFault {
    ghost use Rattle.std.specs.Prelude.{◌≡◌};
    ghost use Rattle.ndn_jobs.specs.declared.fault.ToolFault.TheVariants.{Memory};

    ghost from_gives = { λ _ fault. fault ≡ Memory };

    fn from(_memory: Memory) -> ToolFault {
        ToolFault::Memory
    }
}

impl From<AllocError> for ToolFault {
    ghost use Rattle.std.specs.Prelude.{◌≡◌};
    ghost use Rattle.ndn_jobs.specs.declared.fault.ToolFault.TheVariants.{Memory};

    ghost from_gives = { λ _ fault. fault ≡ Memory };

    fn from(_error: AllocError) -> ToolFault {
        ToolFault::Memory
    }
}
