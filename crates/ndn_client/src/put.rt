//! Storing a file in a repository: commands and Data, the socket, the clock and the file.

use crate::answer::{command_packet, data_sign};
use crate::fault::Fault;
use crate::get::unanswered;
use crate::key_show::no_file;
use crate::link::Link;
use crate::running::{milliseconds, print};
use interest_pipeline::Pipeline;
use key_files::KeyBook;
use ndn_jobs::{CommandJob, KeyChoice, Ports, PutJob, Stamp, ToolFault, nonce_after};
use ndn_names::component_type::{GENERIC, VERSION};
use ndn_names::{Name, NameBuf};
use ndn_packets::WriteFault;
use ndn_packets::command_types::{COUNT, REPO_STATUS_CODE};
use ndn_requests::{Failure, Parameters, judge, put_explained, repository_number};
use ndn_segments::{CutFault, Cutter, USUAL_SIZE, segment_name, version_name};
use ndn_tlv::nni_of;
use std::alloc::Global;
use std::fs::File;
use std::io::{Seek, SeekFrom};
use std::net::Net;
use std::rt::Files;
use std::time::Clock;

/// The greatest number of segments whose commands have no final reply yet. A repository waits for
/// at most 64 Data at once.
const WINDOW: usize = 8;

/// How far the time of a command may be ahead of the clock, in milliseconds. Each command of a
/// signer needs a later time than the one before it.
const AHEAD: u64 = 10;

/// How often all segments are offered, if the repository does not have all of them after that.
const PASSES: usize = 4;

/// How often the command that counts the segments is sent.
const ATTEMPTS: usize = 4;

/// How long to wait for its reply, in microseconds.
const WAIT: u64 = 1_000_000;

/// The status of a reply that a repository is full. It has room again when Data arrive that it waits
/// for, or when it waits no longer.
const FULL: u64 = 503;

/// How long to wait for room in a repository, in microseconds.
const PATIENCE: u64 = 30_000_000;

/// A reply that a command was not done, as it is printed, and why.
#[derive(Drop)]
struct Refusal {
    text: Vec<u8>,
    failure: Failure,
}

/// A reply to the command for a segment. `refusal` is `None` if the command was done.
#[derive(Drop)]
struct Reply {
    number: u64,
    refusal: Option<Refusal>,
}

/// A segment whose command has no final reply yet.
#[derive(Drop)]
struct Waiting {
    number: u64,
    /// The command that was sent last.
    request: Vec<u8>,
}

/// A file that is being stored.
#[derive(Drop)]
struct Putter<'a, R> {
    rt: &'a R,
    link: Link<'a, R>,
    file: File,
    cutter: Cutter<'a>,
    stem: NameBuf,
    repository: Name<'a>,
    book: &'a KeyBook,
    /// The command that was sent last.
    command: CommandJob,
    waiting: Vec<Waiting>,
    /// The last reply, if it says that the repository is full.
    full: Option<Refusal>,
    /// The moment of the first such reply since the last other one, in microseconds.
    full_since: u64,
}

/// Stores the file of a job in a repository, and prints its name with the version.
///
/// # Errors
///
/// The fault says why the file was not stored as a whole.
pub fn put<R>(rt: &R, job: &PutJob, book: &KeyBook) -> Result<(), Fault>
where
    R: Clock + AllocGlobal + Files<File = File> + Net + Print,
{
    let alloc = rt.alloc();
    let (name, version) = versioned(job.name.view(), job.time);
    let file = match File::open(rt, job.file.as_str()) {
        Ok(file) => file,
        Err(error) => return Err(no_file(alloc, &job.file, error.kind())),
    };
    let len = match file.metadata() {
        Ok(metadata) => metadata.len(),
        Err(error) => return Err(no_file(alloc, &job.file, error.kind())),
    };
    let sign = data_sign(&job.key.key, book)?;
    let cutter = Cutter::new(name, version, len, USUAL_SIZE, job.freshness, sign).map_err(
        fault_of_cut,
    )?;
    if !cutter.fits(alloc)? {
        return Err(Fault::Tool(ToolFault::Write(WriteFault::TooLong)));
    }
    let stem = version_name(alloc, name, version).map_err(|_| Fault::Tool(ToolFault::Memory))?;
    let mut putter = Putter {
        rt,
        link: Link::open(rt, job.from, job.to)?,
        file,
        cutter,
        stem,
        repository: job.repository.view(),
        book,
        command: insert_of(alloc, job)?,
        waiting: Vec::new(alloc),
        full: None,
        full_since: 0,
    };
    putter.run(u32::try_from(job.retries).unwrap_or(u32::MAX))?;
    let count = cutter.last().saturating_add(1);
    let text = format!(in alloc; "{}: {count} segments stored\n", putter.stem);
    print(
        rt,
        text.map_err(|_| Fault::Tool(ToolFault::Memory))?.as_bytes(),
    )
}

/// Returns the name of a file without its version, and the version. If the name has no version, the
/// version is the time, which is in milliseconds since 1970, in microseconds.
fn versioned<'a>(name: Name<'a>, time: u64) -> (Name<'a>, u64) {
    let len = name.len().saturating_sub(1);
    if let Some(last) = name.component(len)
        && last.kind == VERSION
        && let Ok(version) = nni_of(last.value)
    {
        return (name.prefix(len), version);
    }
    (name, time.saturating_mul(1_000))
}

/// Returns the command insert, for no Data yet.
fn insert_of(alloc: Global, job: &PutJob) -> Result<CommandJob, Fault> {
    let key = match &job.key.key {
        Some(key) => Some(NameBuf::from_name(alloc, key.view())?),
        None => None,
    };
    Ok(CommandJob {
        name: command_of(alloc, job.repository.view(), b"insert")?,
        parameters: Parameters {
            name: NameBuf::new(alloc),
            face: None,
            origin: None,
            cost: None,
            flags: None,
            expires: None,
            strategy: None,
            count: None,
            can_be_prefix: false,
            lifetime: None,
        },
        stamp: Stamp {
            nonce: job.nonce,
            time: 0,
            seq: None,
            key: KeyChoice { keys: None, key },
            ports: Ports {
                to: None,
                from: None,
            },
            timeout: None,
        },
    })
}

/// Returns the fault that the file to store cannot be read.
/// Prints a reply that a command was not done, and returns the fault.
fn not_done(rt: &impl Print, refusal: &Refusal) -> Result<(), Fault> {
    print(rt, &refusal.text)?;
    Err(Fault::NotDone(refusal.failure))
}

fn fault_of_cut(fault: CutFault) -> Fault {
    match fault {
        CutFault::TooLong => Fault::Tool(ToolFault::Write(WriteFault::TooLong)),
        CutFault::NoSuchPiece => Fault::Shortened,
        CutFault::EmptyPieces | CutFault::Memory => Fault::Tool(ToolFault::Memory),
    }
}

impl<'a, R: Clock + AllocGlobal + Print> Putter<'a, R> {
    /// Stores all segments. A command without a reply is sent again at most `retries` times.
    fn run(&mut self, retries: u32) -> Result<(), Fault> {
        for _ in 0..PASSES {
            self.offer_all(retries)?;
            if self.is_stored()? {
                return self.pass_time();
            }
        }
        Err(Fault::NotTaken {
            name: NameBuf::from_name(self.link.alloc(), self.stem.view())?,
        })
    }

    /// Offers each segment to the repository: sends the command insert, and the Data if the
    /// repository does not have it.
    fn offer_all(&mut self, retries: u32) -> Result<(), Fault> {
        let Ok(mut pipeline) = Pipeline::new(self.link.alloc(), WINDOW, retries) else {
            return Err(Fault::Tool(ToolFault::Memory));
        };
        pipeline.set_last(self.cutter.last());
        self.waiting.clear();
        for _ in 0..u64::MAX {
            self.ask_all(&mut pipeline)?;
            if pipeline.is_done() {
                break;
            }
            self.step(&mut pipeline)?;
        }
        Ok(())
    }

    /// Returns whether the time of the next command would be at most so many milliseconds ahead of
    /// the clock.
    fn is_time(&self, ahead: u64) -> Result<bool, Fault> {
        Ok(self.command.stamp.time < milliseconds(self.rt)?.saturating_add(ahead))
    }

    /// Sends the commands that are to be sent now.
    fn ask_all(&mut self, pipeline: &mut Pipeline) -> Result<(), Fault> {
        for _ in 0..WINDOW {
            if !self.is_time(AHEAD)? {
                break;
            }
            let Some(number) = pipeline.next(self.link.moment()?) else {
                break;
            };
            self.insert(number)?;
        }
        Ok(())
    }

    /// Sends the command insert for a segment.
    fn insert(&mut self, number: u64) -> Result<(), Fault> {
        let name = self.name_of(number)?;
        let request = self.send_command(name)?;
        self.wait_for(number, request)
    }

    /// Sends the command with this name in its parameters, and returns its packet.
    fn send_command(&mut self, name: NameBuf) -> Result<Vec<u8>, Fault> {
        self.command.parameters.name = name;
        self.command.stamp.nonce = nonce_after(self.command.stamp.nonce);
        let now = milliseconds(self.rt)?;
        self.command.stamp.time = now.max(self.command.stamp.time.saturating_add(1));
        let request = command_packet(self.link.alloc(), &self.command, self.book)?;
        self.link.send(&request)?;
        Ok(request)
    }

    /// Waits for the reply to a command, instead of an earlier command for the same segment.
    fn wait_for(&mut self, number: u64, request: Vec<u8>) -> Result<(), Fault> {
        for waiting in self.waiting.iter_mut() {
            if waiting.number == number {
                waiting.request = request;
                return Ok(());
            }
        }
        self.waiting
            .push(Waiting { number, request })
            .map_err(|_| Fault::Tool(ToolFault::Memory))
    }

    /// Returns the name of a segment.
    fn name_of(&self, number: u64) -> Result<NameBuf, Fault> {
        segment_name(self.link.alloc(), self.stem.view(), number).map_err(|_| Fault::Tool(
            ToolFault::Memory,
        ))
    }

    /// Waits for a datagram, and takes it, or takes the losses of the commands whose time is out.
    fn step(&mut self, pipeline: &mut Pipeline) -> Result<(), Fault> {
        if let Some(number) = pipeline.gave_up() {
            if let Some(refusal) = &self.full {
                return not_done(self.rt, refusal);
            }
            let name = self.name_of(number)?;
            return Err(unanswered(self.link.alloc(), name.view()));
        }
        let soon = self.link.moment()?.saturating_add(1_000);
        let mut deadline = pipeline.deadline().unwrap_or(soon);
        if !self.is_time(AHEAD)? {
            deadline = deadline.min(soon);
        }
        if let Some(len) = self.link.receive(deadline)? {
            return self.take(len, pipeline);
        }
        pipeline.expire(self.link.moment()?);
        Ok(())
    }

    /// Takes a datagram of this length: a reply to a command, or something else, which is ignored. If
    /// the repository is full, the command is sent again when its time is out.
    fn take(&mut self, len: usize, pipeline: &mut Pipeline) -> Result<(), Fault> {
        let Some(reply) = self.reply_in(len)? else {
            return Ok(());
        };
        let number = reply.number;
        self.waiting.retain(|waiting| waiting.number != number);
        let status = repository_number(self.link.datagram(len), REPO_STATUS_CODE);
        if let Some(refusal) = reply.refusal {
            if status != Some(FULL) || !self.waits_for_room()? {
                return not_done(self.rt, &refusal);
            }
            self.full = Some(refusal);
            return Ok(());
        }
        self.full = None;
        pipeline.answered(number, self.link.moment()?);
        if status == Some(200) {
            return Ok(());
        }
        self.send_data(number)
    }

    /// Returns whether the repository has been full for a time that is not too long.
    fn waits_for_room(&mut self) -> Result<bool, Fault> {
        let now = self.link.moment()?;
        if self.full.is_none() {
            self.full_since = now;
        }
        Ok(now.saturating_sub(self.full_since) <= PATIENCE)
    }

    /// Returns the reply to a command that a datagram of this length is.
    fn reply_in(&self, len: usize) -> Result<Option<Reply>, Fault> {
        for waiting in &self.waiting {
            if let Some(reply) = self.reply_to(waiting, len)? {
                return Ok(Some(reply));
            }
        }
        Ok(None)
    }

    /// Returns the reply to the command for a segment, if a datagram of this length is one.
    fn reply_to(&self, waiting: &Waiting, len: usize) -> Result<Option<Reply>, Fault> {
        let (alloc, datagram) = (self.link.alloc(), self.link.datagram(len));
        let number = waiting.number;
        match judge(alloc, &waiting.request, datagram, self.book)? {
            None => Ok(None),
            Some(Ok(())) => Ok(Some(Reply {
                number,
                refusal: None,
            })),
            Some(Err(failure)) => {
                let mut text = Vec::new(alloc);
                put_explained(alloc, &mut text, &waiting.request, datagram)?;
                Ok(Some(Reply {
                    number,
                    refusal: Some(Refusal { text, failure }),
                }))
            }
        }
    }

    /// Sends the Data of a segment.
    fn send_data(&mut self, number: u64) -> Result<(), Fault> {
        let alloc = self.link.alloc();
        let start = number.saturating_mul(USUAL_SIZE as u64);
        let mut piece = Vec::new(alloc);
        if self.file.seek(SeekFrom::Start(start)).is_err() {
            return Err(Fault::Shortened);
        }
        let read = self.cutter.read_piece(&mut self.file, number, &mut piece);
        if read.is_err() {
            return Err(Fault::Shortened);
        }
        let mut packet = Vec::new(alloc);
        self.cutter
            .write(alloc, number, &piece, &mut packet)
            .map_err(fault_of_cut)?;
        self.link.send(&packet)
    }

    /// Returns whether the repository has as many Data under the name of the file as there are
    /// segments.
    fn is_stored(&mut self) -> Result<bool, Fault> {
        let alloc = self.link.alloc();
        let count = self.cutter.last().saturating_add(1);
        self.command.name = command_of(alloc, self.repository, b"check")?;
        self.command.parameters.can_be_prefix = true;
        let found = self.counted()?;
        self.command.name = command_of(alloc, self.repository, b"insert")?;
        self.command.parameters.can_be_prefix = false;
        Ok(found >= count)
    }

    /// Sends the command that counts the segments, and returns the count: 0 if the repository has
    /// none.
    fn counted(&mut self) -> Result<u64, Fault> {
        let alloc = self.link.alloc();
        for _ in 0..ATTEMPTS {
            let name = NameBuf::from_name(alloc, self.stem.view())?;
            let request = self.send_command(name)?;
            let deadline = self.link.moment()?.saturating_add(WAIT);
            if let Some(count) = self.count_in_reply(&request, deadline)? {
                return Ok(count);
            }
        }
        Err(unanswered(alloc, self.stem.view()))
    }

    /// Waits until the clock has passed the time of the last command, so that another client can use
    /// the key.
    fn pass_time(&mut self) -> Result<(), Fault> {
        for _ in 0..u64::MAX {
            if self.is_time(0)? {
                break;
            }
            let soon = self.link.moment()?.saturating_add(1_000);
            self.link.receive(soon)?;
        }
        Ok(())
    }

    /// Waits for the reply to the command that counts the segments, and returns the count. Returns
    /// `None` if no reply comes before the moment `deadline`.
    fn count_in_reply(&mut self, request: &[u8], deadline: u64) -> Result<Option<u64>, Fault> {
        for _ in 0..u64::MAX {
            let Some(len) = self.link.receive(deadline)? else {
                break;
            };
            let (alloc, datagram) = (self.link.alloc(), self.link.datagram(len));
            if judge(alloc, request, datagram, self.book)?.is_some() {
                return Ok(Some(repository_number(datagram, COUNT).unwrap_or(0)));
            }
        }
        Ok(None)
    }
}

/// Returns the name of a command to a repository, without its parameters.
fn command_of(alloc: Global, repository: Name<'_>, verb: &[u8]) -> Result<NameBuf, Fault> {
    let mut name = NameBuf::from_name(alloc, repository)?;
    match name.append(GENERIC, verb) {
        Ok(()) => Ok(name),
        Err(_) => Err(Fault::Tool(ToolFault::Write(WriteFault::TooLong))),
    }
}
