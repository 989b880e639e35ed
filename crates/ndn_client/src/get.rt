//! Fetching a file: the socket, the clock, and the file that is written.

use crate::download::{Download, stem_of};
use crate::fault::Fault;
use crate::link::Link;
use key_files::KeyBook;
use ndn_jobs::{GetJob, ToolFault, nonce_after};
use ndn_names::component_type::VERSION;
use ndn_names::{Name, NameBuf};
use ndn_packets::{CONGESTION, DUPLICATE, Frame, InterestWriter, read_frame};
use ndn_requests::{Failure, forged_in};
use ndn_segments::{SegmentFault, segment_name};
use std::alloc::Global;
use std::fs::File;
use std::io::Write;
use std::net::Net;
use std::rt::Files;
use std::time::Clock;
use std::{fs, io};

/// How often the Interest that looks for the version of a file is sent.
const ATTEMPTS: usize = 3;

/// The InterestLifetime if none is given, in milliseconds (NDN Packet Format 0.3,
/// "InterestLifetime").
const LIFETIME: u64 = 4_000;

/// When this many octets of the file have come, they are written.
const GATHERED: usize = 65_536;

/// Why a file was not written as a whole.
#[derive(Drop)]
enum Stopped {
    /// The file could not be fetched.
    Fetching(Fault),
    /// What was fetched could not be written.
    Writing(io::ErrorKind),
}

impl From<Fault> for Stopped {
    fn from(fault: Fault) -> Stopped {
        Stopped::Fetching(fault)
    }
}

/// The link to a node, and what the Interests have in common.
#[derive(Drop)]
struct Asker<'a, R> {
    link: Link<'a, R>,
    lifetime: Option<u64>,
    /// The Nonce of the Interest that was sent last.
    nonce: [u8; 4],
}

/// Fetches the file of a job, and writes it to the file that the job names, or to standard output.
///
/// # Errors
///
/// The fault says why the file could not be fetched or written. Then standard output may have the
/// beginning of the file, and the file that the job names is as before.
pub fn get<R>(rt: &R, job: &GetJob, book: &KeyBook) -> Result<(), Fault>
where
    R: Clock + AllocGlobal + Files<File = File> + Net + Print,
{
    let alloc = rt.alloc();
    let retries = u32::try_from(job.retries).unwrap_or(u32::MAX);
    let mut asker = Asker {
        link: Link::open(rt, job.from, job.to)?,
        lifetime: job.lifetime,
        nonce: job.nonce,
    };
    let stem = asker.find(job.name.view(), book)?;
    let mut download = Download::new(alloc, stem, retries)?;
    match &job.output {
        None => asker
            .fetch(&mut download, book, &mut io::writer(rt))
            .map_err(at_output),
        Some(path) => fetch_to(rt, &mut asker, &mut download, book, path),
    }
}

fn at_output(why: Stopped) -> Fault {
    match why {
        Stopped::Fetching(fault) => fault,
        Stopped::Writing(_) => Fault::Write,
    }
}

/// Fetches a file, and writes it beside the path. When all of it is written, it is renamed to the
/// path.
fn fetch_to<R>(
    rt: &R,
    asker: &mut Asker<'_, R>,
    download: &mut Download,
    book: &KeyBook,
    path: &str,
) -> Result<(), Fault>
where
    R: Clock + AllocGlobal + Files<File = File>,
{
    let alloc = rt.alloc();
    let beside = format!(in alloc; "{path}.part").map_err(|_| Fault::Tool(ToolFault::Memory))?;
    let mut file = match File::create(rt, beside.as_str()) {
        Ok(file) => file,
        Err(error) => return Err(unwritten(alloc, &beside, error.kind())),
    };
    let done = match asker.fetch(download, book, &mut file) {
        Ok(()) => fs::rename(rt, beside.as_str(), path).map_err(|error| unwritten(
            alloc,
            path,
            error.kind(),
        )),
        Err(Stopped::Fetching(fault)) => Err(fault),
        Err(Stopped::Writing(kind)) => Err(unwritten(alloc, &beside, kind)),
    };
    if done.is_err() {
        let _removed = fs::remove_file(rt, beside.as_str());
    }
    done
}

/// Returns the fault that a file cannot be written.
fn unwritten(alloc: Global, path: &str, kind: io::ErrorKind) -> Fault {
    match String::from_str(alloc, path) {
        Ok(path) => Fault::Unwritten { path, kind },
        Err(_) => Fault::Tool(ToolFault::Memory),
    }
}

/// Returns the fault that no answer came to an Interest with this name.
pub(crate) fn unanswered(alloc: Global, name: Name<'_>) -> Fault {
    match NameBuf::from_name(alloc, name) {
        Ok(name) => Fault::Unanswered { name },
        Err(_) => Fault::Tool(ToolFault::Memory),
    }
}

impl<'a, R: Clock + AllocGlobal> Asker<'a, R> {
    /// Sends an Interest with a new Nonce. `is_first` is true for the Interest that looks for the
    /// version of a file.
    fn ask(&mut self, name: Name<'_>, is_first: bool) -> Result<(), Fault> {
        self.nonce = nonce_after(self.nonce);
        let writer = InterestWriter {
            name,
            can_be_prefix: is_first,
            must_be_fresh: is_first,
            nonce: self.nonce,
            lifetime: self.lifetime,
            hop_limit: None,
            parameters: None,
            sign: None,
            time: None,
            seq: None,
        };
        let mut packet = Vec::new(self.link.alloc());
        writer.write(&mut packet)?;
        self.link.send(&packet)
    }

    /// Sends the Interest for a segment.
    fn ask_segment(&mut self, stem: Name<'_>, number: u64) -> Result<(), Fault> {
        match segment_name(self.link.alloc(), stem, number) {
            Ok(name) => self.ask(name.view(), false),
            Err(_) => Err(Fault::Tool(ToolFault::Memory)),
        }
    }

    /// Returns the name of a file with its version. If the name that is given has no version, an
    /// Interest looks for one.
    fn find(&mut self, name: Name<'_>, book: &KeyBook) -> Result<NameBuf, Fault> {
        let alloc = self.link.alloc();
        let last = name.component(name.len().saturating_sub(1));
        if last.is_some_and(|last| last.kind == VERSION) {
            return Ok(NameBuf::from_name(alloc, name)?);
        }
        for _ in 0..ATTEMPTS {
            self.ask(name, true)?;
            if let Some(stem) = self.found(name, book)? {
                return Ok(stem);
            }
        }
        Err(unanswered(alloc, name))
    }

    /// Waits for the answer to the Interest that looks for the version of a file.
    fn found(&mut self, name: Name<'_>, book: &KeyBook) -> Result<Option<NameBuf>, Fault> {
        let wait = self.lifetime.unwrap_or(LIFETIME).saturating_mul(1_000);
        let deadline = self.link.moment()?.saturating_add(wait);
        for _ in 0..u64::MAX {
            let Some(len) = self.link.receive(deadline)? else {
                return Ok(None);
            };
            let stem = stem_in(self.link.alloc(), name, self.link.datagram(len), book)?;
            if stem.is_some() {
                return Ok(stem);
            }
        }
        Ok(None)
    }

    /// Fetches the segments of a file, and writes their contents in order.
    fn fetch<W: Write>(
        &mut self,
        download: &mut Download,
        book: &KeyBook,
        writer: &mut W,
    ) -> Result<(), Stopped> {
        let mut text = Vec::new(self.link.alloc());
        for _ in 0..u64::MAX {
            self.ask_all(download)?;
            if download.is_finished() {
                break;
            }
            self.step(download, book, &mut text)?;
            if text.len() >= GATHERED {
                write_out(writer, &mut text)?;
            }
        }
        write_out(writer, &mut text)
    }

    /// Sends the Interests that are to be sent now.
    fn ask_all(&mut self, download: &mut Download) -> Result<(), Fault> {
        let now = self.link.moment()?;
        for _ in 0..u64::MAX {
            let Some(number) = download.next(now) else {
                break;
            };
            self.ask_segment(download.stem(), number)?;
        }
        Ok(())
    }

    /// Waits for a datagram, and takes it, or takes the losses of the Interests whose time is out.
    fn step(
        &mut self,
        download: &mut Download,
        book: &KeyBook,
        text: &mut Vec<u8>,
    ) -> Result<(), Fault> {
        let alloc = self.link.alloc();
        if let Some(number) = download.gave_up() {
            return match segment_name(alloc, download.stem(), number) {
                Ok(name) => Err(unanswered(alloc, name.view())),
                Err(_) => Err(Fault::Tool(ToolFault::Memory)),
            };
        }
        let deadline = match download.deadline() {
            Some(deadline) => deadline,
            None => self.link.moment()?,
        };
        match self.link.receive(deadline)? {
            Some(len) => {
                let now = self.link.moment()?;
                download.take(alloc, self.link.datagram(len), book, now, text)
            }
            None => {
                download.expire(self.link.moment()?);
                Ok(())
            }
        }
    }
}

fn write_out<W: Write>(writer: &mut W, text: &mut Vec<u8>) -> Result<(), Stopped> {
    match writer.write_all(text) {
        Ok(()) => {
            text.clear();
            Ok(())
        }
        Err(error) => Err(Stopped::Writing(error.kind())),
    }
}

/// Returns the name of a file with its version, from an answer to the Interest with the name
/// `asked`. Returns `None` if the datagram does not answer this Interest, or if it is a Nack for
/// Congestion or Duplicate.
fn stem_in(
    alloc: Global,
    asked: Name<'_>,
    datagram: &[u8],
    book: &KeyBook,
) -> Result<Option<NameBuf>, Fault> {
    match read_frame(datagram) {
        Ok(Frame::Data(packet)) if asked.is_prefix_of(packet.name) => {
            if let Some(name) = forged_in(alloc, datagram, book)? {
                return Err(Fault::Forged { name });
            }
            match stem_of(asked, packet.name) {
                Some(stem) => Ok(Some(NameBuf::from_name(alloc, stem)?)),
                None => Err(Fault::NotSegment {
                    name: NameBuf::from_name(alloc, packet.name)?,
                    why: SegmentFault::NoSegmentNumber,
                }),
            }
        }
        Ok(Frame::Nack { reason, interest }) if interest.name.compare(asked).is_eq() => {
            if reason == CONGESTION || reason == DUPLICATE {
                Ok(None)
            } else {
                Err(Fault::NotDone(Failure::Nack))
            }
        }
        _ => Ok(None),
    }
}
