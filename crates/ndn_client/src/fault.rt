//! Why the program fails: the message and the exit status.
ghost use Rattle.std.specs.Prelude.{◌≡◌};
ghost use Rattle.ndn_client.specs.Fault.{certificate_status, certificate_words, failure_status, segment_words};

use certificates::CertificateFault;
use file_faults::{KeyMessage, cause_of};
use key_files::KeyFault;
use ndn_jobs::ToolFault;
use ndn_names::NameBuf;
use ndn_packets::WriteFault;
use ndn_requests::{Failure, Silence};
use ndn_segments::SegmentFault;
use ndn_tlv::Memory;
use std::alloc::AllocError;
use std::fmt;
use std::io::ErrorKind;
use std::net::SocketAddr;

/// Why the program fails.
#[derive(Debug, Drop)]
pub enum Fault {
    /// The job was not carried out.
    Tool(ToolFault),
    /// A key is named, but no key file is named.
    NoKeyFile,
    /// An argument is not UTF-8.
    NotText,
    /// The key file has a fault, or memory ran out for its keys.
    Keys(KeyFault),
    /// The key file has more octets than are allowed.
    LargeKeys,
    /// The key file cannot be opened or read.
    Unread {
        /// The path of the key file.
        path: String,
        /// Why the key file cannot be opened or read.
        kind: ErrorKind,
    },
    /// The clock cannot be read, its time is before 1970, or the number of milliseconds since 1970
    /// is 2^64 or more.
    Clock,
    /// Standard output cannot be written.
    Write,
    /// Standard input cannot be read, or is not UTF-8.
    Input,
    /// The packet cannot be sent, no free source port can be bound, or the socket cannot be
    /// connected to the destination.
    Send,
    /// The port to send from cannot be bound.
    Unbound {
        /// The port, and the address to send from.
        endpoint: SocketAddr,
    },
    /// No answer came to the packet of the subcommand `send`, which is sent unchanged.
    Silent(Silence),
    /// A request was sent. It was not carried out, or no answer came.
    NotDone(Failure),
    /// The signature of the Data that came back is wrong.
    Forged {
        /// The name of the Data.
        name: NameBuf,
    },
    /// A Data that came back is no segment of the file.
    NotSegment {
        /// The name of the Data.
        name: NameBuf,
        /// Why the Data is no segment of the file.
        why: SegmentFault,
    },
    /// No answer came in time to an Interest for a file or one of its segments.
    Unanswered {
        /// The name of the Interest.
        name: NameBuf,
    },
    /// The repository does not take a Data that a command has asked for.
    NotTaken {
        /// The name of the Data.
        name: NameBuf,
    },
    /// The file to store, or the file with a certificate, cannot be read.
    NoFile {
        /// The path of the file.
        path: String,
        /// Why the file cannot be read.
        kind: ErrorKind,
    },
    /// The file to store became shorter while it was read.
    Shortened,
    /// The file has no certificate with a P-256 key.
    NoCertificate {
        /// The path of the file.
        path: String,
        /// Why the file has no such certificate.
        why: CertificateFault,
    },
    /// The file has more octets than a file with a certificate may have.
    LargeCertificate {
        /// The path of the file.
        path: String,
    },
    /// The file cannot be written.
    Unwritten {
        /// The path of the file.
        path: String,
        /// Why the file cannot be written.
        kind: ErrorKind,
    },
}

impl Fault {
    ghost use Rattle.std.specs.Prelude.{◌≡◌};
    ghost use Rattle.ndn_client.specs.Fault.{status_of};

    /// Returns the exit status. For `Tool`, the exit status is that of the job's fault. For any
    /// other fault, the exit status is 1 if a key is named without a key file, if the key file is
    /// too large or its content has a fault, if the answer says that a request was not done, or if a
    /// Data is no segment of the file. The exit status is 2 if an argument is not UTF-8. The exit status is 3 if reading, writing or
    /// sending failed, if a port could not be bound, if memory ran out, or if no answer came to the
    /// packet of `send`. For any other request the exit status is 4 if a Nack came back, 5 if no
    /// answer came in time, 6 if no program listens at the destination, and 7 if the signature of
    /// the Data that came back is wrong.
    pub fn exit_status(&self) -> u8
        ensures { result ≡ status_of self.now }
    {
        match self {
            Fault::Tool(fault) => fault.exit_status(),
            Fault::NotText => 2,
            Fault::Keys(
                KeyFault::BadLine(_)
                | KeyFault::BadKey(_)
                | KeyFault::TwiceNamed(_)
                | KeyFault::TooMany,
            )
            | Fault::LargeKeys
            | Fault::NoKeyFile => 1,
            Fault::NotDone(failure) => failure_status(*failure),
            Fault::Forged { .. } => 7,
            Fault::NoCertificate { why, .. } => certificate_status(*why),
            Fault::NotSegment { .. } | Fault::NotTaken { .. } | Fault::LargeCertificate { .. } => 1,
            Fault::Unanswered { .. } => 5,
            Fault::Keys(KeyFault::Memory)
            | Fault::Unread { .. }
            | Fault::Unwritten { .. }
            | Fault::NoFile { .. }
            | Fault::Shortened
            | Fault::Clock
            | Fault::Write
            | Fault::Input
            | Fault::Send
            | Fault::Unbound { .. }
            | Fault::Silent(_) => 3,
        }
    }
}

/// Returns the exit status of a request that was not done.
fn failure_status(failure: Failure) -> u8
    ensures { result ≡ failure_status failure }
{
    match failure {
        Failure::Refused | Failure::NoStatus => 1,
        Failure::Nack => 4,
        Failure::Silent(Silence::Far | Silence::Late | Silence::Changed) => 5,
        Failure::Silent(Silence::Closed) => 6,
    }
}

/// Returns the exit status for a file without a certificate.
fn certificate_status(why: CertificateFault) -> u8
    ensures { result ≡ certificate_status why }
{
    match why {
        CertificateFault::NoBase64
        | CertificateFault::NoData
        | CertificateFault::NoCertificateName
        | CertificateFault::NoContent
        | CertificateFault::OtherKey
        | CertificateFault::BadPoint(_) => 1,
        CertificateFault::Memory => 3,
    }
}

/// Returns why a file has no certificate with a P-256 key, and what to do, as words.
#[tactic(auto, unfolding(crate::specs::Fault::certificate_words))]
fn certificate_words(why: CertificateFault) -> &'static str
    ensures { result.now ≡ certificate_words why }
{
    match why {
        CertificateFault::NoBase64 => {
            "it is not the base64 text of a certificate; give what ndnsec cert-dump prints"
        }
        CertificateFault::NoData => {
            "it is not exactly one Data packet; give one certificate, as ndnsec cert-dump prints it"
        }
        CertificateFault::NoCertificateName => {
            "its Data has no name that ends with /KEY/KEYID/ISSUER/VERSION; give a certificate"
        }
        CertificateFault::NoContent => {
            "its Data has no Content; give a certificate with a public key"
        }
        CertificateFault::OtherKey => {
            "its key is no uncompressed P-256 key with a named curve; use a P-256 key"
        }
        CertificateFault::BadPoint(_) => {
            "its key is no point of the curve P-256; get the certificate again from its owner"
        }
        CertificateFault::Memory => "out of memory",
    }
}

/// Returns why a Data is no segment of a file, as words.
fn segment_words(why: SegmentFault) -> &'static str
    ensures { result.now ≡ segment_words why }
{
    match why {
        SegmentFault::OtherFile => "its name belongs to another file",
        SegmentFault::NoSegmentNumber => "its name has no segment number",
        SegmentFault::NoFinalBlockId => "it has no FinalBlockId",
        SegmentFault::OtherFinalBlockId => "its FinalBlockId is not that of the segments before",
        SegmentFault::AboveLast => "its number is above that in its FinalBlockId",
        SegmentFault::ContentTooLong => "its Content is too long",
        SegmentFault::BeyondWindow => "it is too far ahead",
        SegmentFault::OtherContent => "it came before with another Content",
        SegmentFault::Memory => "out of memory",
    }
}

impl fmt::Display for Fault {
    ghost use Rattle.ndn_client.specs.Fault.{text_of};

    // Each message ends with an LF.
    ghost output = { text_of };

    fn fmt<W: fmt::Write>(&self, f: &mut fmt::Formatter<W>) -> fmt::Result {
        match self {
            Fault::Tool(fault) => fault.fmt(f),
            Fault::NoKeyFile => f.write_str("key not found\ngive --keys\n"),
            Fault::NotText => f.write_str("error: an argument is not UTF-8 text\n"),
            Fault::Keys(fault) => KeyMessage(*fault).fmt(f),
            Fault::LargeKeys => {
                f.write_str("keys:0: TooLarge\n  at most 8388608 octets are allowed\n")
            }
            Fault::Unread { path, kind } => {
                writeln!(
                    f,
                    "error: the key file {path} cannot be read: {}",
                    cause_of(*kind)
                )
            }
            Fault::Clock => f.write_str("error: the clock cannot be read\n"),
            Fault::Write => f.write_str("error: standard output cannot be written\n"),
            Fault::Input => f.write_str("error: standard input cannot be read as UTF-8 text\n"),
            Fault::Send => f.write_str("error: the packet cannot be sent to this port\n"),
            Fault::Unbound { endpoint } => writeln!(
                f,
                "error: {endpoint} cannot be bound: give --from a port that no other program uses"
            ),
            Fault::Silent(silence) => silence.fmt(f),
            Fault::NotDone(failure) => failure.fmt(f),
            Fault::Forged { name } => writeln!(
                f,
                "error: the signature of the Data {name} is wrong; --unverified prints the Data nevertheless"
            ),
            Fault::NotSegment { name, why } => writeln!(
                f,
                "error: the Data {name} is no segment of the file: {}",
                segment_words(*why)
            ),
            Fault::Unanswered { name } => writeln!(f, "error: no answer came in time for {name}"),
            Fault::NotTaken { name } => writeln!(
                f,
                "error: the repository does not take the Data {name}: the rules may not allow it"
            ),
            Fault::NoFile { path, kind } => {
                writeln!(
                    f,
                    "error: the file {path} cannot be read: {}",
                    cause_of(*kind)
                )
            }
            Fault::NoCertificate { path, why } => writeln!(
                f,
                "error: the file {path} has no key to show: {}",
                certificate_words(*why)
            ),
            Fault::LargeCertificate { path } => writeln!(
                f,
                "error: the file {path} has no key to show: a certificate has at most 18000 octets"
            ),
            Fault::Shortened => f.write_str("error: the file became shorter while it was read\n"),
            Fault::Unwritten { path, kind } => {
                writeln!(
                    f,
                    "error: the file {path} cannot be written: {}",
                    cause_of(*kind)
                )
            }
        }
    }
}

impl From<ToolFault> for Fault {
    ghost use Rattle.std.specs.Prelude.{◌≡◌};
    ghost use Rattle.ndn_client.specs.declared.fault.Fault.TheVariants.{Tool};

    ghost from_gives = { λ why fault. fault ≡ Tool why };

    fn from(fault: ToolFault) -> Fault {
        Fault::Tool(fault)
    }
}

impl From<Memory> for Fault {
    ghost use Rattle.std.specs.Prelude.{◌≡◌};
    ghost use Rattle.ndn_client.specs.declared.fault.Fault.TheVariants.{Tool};
    ghost use Rattle.ndn_jobs.specs.declared.fault.ToolFault.TheVariants.{Memory};

    ghost from_gives = { λ _ fault. fault ≡ Tool Memory };

    fn from(_memory: Memory) -> Fault {
        Fault::Tool(ToolFault::Memory)
    }
}

impl From<AllocError> for Fault {
    ghost use Rattle.std.specs.Prelude.{◌≡◌};
    ghost use Rattle.ndn_client.specs.declared.fault.Fault.TheVariants.{Tool};
    ghost use Rattle.ndn_jobs.specs.declared.fault.ToolFault.TheVariants.{Memory};

    ghost from_gives = { λ _ fault. fault ≡ Tool Memory };

    fn from(_error: AllocError) -> Fault {
        Fault::Tool(ToolFault::Memory)
    }
}

impl From<WriteFault> for Fault {
    ghost use Rattle.std.specs.Prelude.{◌≡◌};
    ghost use Rattle.ndn_client.specs.declared.fault.Fault.TheVariants.{Tool};
    ghost use Rattle.ndn_jobs.specs.Fault.{fault_of_write};

    ghost from_gives = { λ why fault. fault ≡ Tool (fault_of_write why) };

    fn from(fault: WriteFault) -> Fault {
        Fault::Tool(ToolFault::from(fault))
    }
}
