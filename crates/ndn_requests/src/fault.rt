//! Why a request was not done.
use std::fmt;

/// Why a packet got no answer.
#[derive(Clone, Copy, Debug, PartialEq, Eq)]
pub enum Silence {
    /// No program listens on the destination port.
    Closed,
    /// The name is under `/localhost`, and the packet was sent from a port that the system chose. A
    /// node accepts such names only from its Local peers.
    Far,
    /// No answer came in time, although no error showed that the port is closed.
    Late,
    /// The node sent no further segment of a list in time.
    Changed,
}

/// Why a request was not done.
#[derive(Clone, Copy, Debug, PartialEq, Eq)]
pub enum Failure {
    /// The reply's status says that the command was not done.
    Refused,
    /// The answer to a command has no status code.
    NoStatus,
    /// A Nack came.
    Nack,
    /// No answer came.
    Silent(Silence),
}

impl fmt::Display for Silence {
    ghost use Rattle.ndn_requests.specs.Fault.{silence_text};

    // Each message ends with an LF.
    ghost output = { silence_text };

    fn fmt<W: fmt::Write>(&self, f: &mut fmt::Formatter<W>) -> fmt::Result {
        match self {
            Silence::Closed => f.write_str("error: no program listens on this port\n"),
            Silence::Far => f.write_str(
                "error: no answer came in time; give --from, the port of a Local peer\n",
            ),
            Silence::Late => {
                f.write_str(
                    "error: no answer came in time, though no error showed that this port is closed\n",
                )
            }
            Silence::Changed => f.write_str(
                "error: no further segment came; the list may have changed meanwhile; ask again\n",
            ),
        }
    }
}

impl fmt::Display for Failure {
    ghost use Rattle.ndn_requests.specs.Fault.{failure_text};

    // Each message ends with an LF.
    ghost output = { failure_text };

    fn fmt<W: fmt::Write>(&self, f: &mut fmt::Formatter<W>) -> fmt::Result {
        match self {
            Failure::Refused => f.write_str("error: not done; the status says why\n"),
            Failure::NoStatus => f.write_str("error: the answer is not a reply to a command\n"),
            Failure::Nack => f.write_str("error: not done; a Nack came back\n"),
            Failure::Silent(silence) => silence.fmt(f),
        }
    }
}
