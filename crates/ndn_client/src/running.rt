//! A run of the client, which uses the arguments, the clock, the files, standard input and the
//! sockets of the operating system.
ghost use Rattle.std.specs.Prelude.{◌≤◌, length, IfOk};

use crate::fault::Fault;
use crate::get::get;
use crate::input::{read_input_line, read_packet_input};
use crate::key_file::{read_key_file, unread_keys};
use crate::key_show::show_key;
use crate::plan::{InputForm, Plan, fault_of_silence, input_form, plan_of};
use crate::put::put;
use crate::source::source_of;
use key_files::KeyBook;
use ndn_jobs::{Job, ToolFault, parse_words};
use ndn_requests::{Exchange, Failure, Outcome, Progress, Silence};
use std::env::Env;
use std::fs::File;
use std::io::{BufRead, BufReader, Input, Read, Write};
use std::net::{Net, SocketAddr, UdpSocket};
use std::rt::Files;
use std::time::{Clock, Duration, Instant, SystemTime};
use std::{env, io};

/// The greatest length of the payload of a UDP datagram, in octets. Over IPv4 the greatest length
/// is less by 20.
pub(crate) const MAX_DATAGRAM: usize = 65_527;

/// The path of the system's random source.
const RANDOM_SOURCE: &str = "/dev/urandom";

/// The number of random octets that are read for a Nonce.
const RANDOM_OCTETS: usize = 16;

/// Why no datagram was received.
#[derive(Clone, Copy)]
enum Missed {
    /// No program listens at the destination.
    Closed,
    /// No datagram arrived in time, or receiving failed for another reason.
    Late,
    /// The clock cannot be read.
    Clock,
}

/// Runs the job of the command line, and prints the job's answer.
///
/// # Errors
///
/// The fault determines the message on standard error and the exit status.
pub fn run<R>(rt: &R) -> Result<(), Fault>
where
    R: Clock + Env + AllocGlobal + Eprint + Files<File = File> + Input + Net + Print,
{
    let job = asked_job(rt)?;
    let names_no_keys = job.key_file().is_none();
    match run_job(rt, job) {
        Err(Fault::Tool(ToolFault::NoKey)) if names_no_keys => Err(Fault::NoKeyFile),
        done => done,
    }
}

fn run_job<R>(rt: &R, job: Job) -> Result<(), Fault>
where
    R: Clock + AllocGlobal + Eprint + Files<File = File> + Input + Net + Print,
{
    let book = book_of(rt, &job)?;
    if let Job::Get(job) = &job {
        return get(rt, job, &book);
    }
    if let Job::Put(job) = &job {
        return put(rt, job, &book);
    }
    if let Job::Key(job) = &job {
        return show_key(rt, job);
    }
    run_other(rt, job, &book)
}

/// Runs a job other than `Get`, `Put` and `Key`.
fn run_other<R>(rt: &R, job: Job, book: &KeyBook) -> Result<(), Fault>
where
    R: Clock + AllocGlobal + Eprint + Input + Net + Print,
{
    match input_form(&job) {
        InputForm::Nothing => run_attempts(rt, job, book),
        InputForm::Packet => {
            let input = read_packet_input(rt.alloc(), rt.reader())?;
            run_plan(rt, &job, book, &input)
        }
        InputForm::Lines => run_lines(rt, &job, book, &mut input_of(rt)?),
    }
}

/// Runs a job that reads no input. If no answer comes in time, and the job has retries, sends its
/// Interest again with a new Nonce.
fn run_attempts<R>(rt: &R, job: Job, book: &KeyBook) -> Result<(), Fault>
where
    R: Clock + AllocGlobal + Eprint + Net + Print,
{
    let mut job = job;
    for _ in 0..job.retries() {
        let done = run_plan(rt, &job, book, "");
        if !is_late(&done) {
            return done;
        }
        job = job.retried();
    }
    run_plan(rt, &job, book, "")
}

/// Returns whether no answer came in time, although no error showed that no program listens.
fn is_late(done: &Result<(), Fault>) -> bool {
    matches!(
        done,
        Err(Fault::NotDone(Failure::Silent(Silence::Far | Silence::Late)))
    )
}

/// Returns a buffered reader of standard input.
fn input_of<R: AllocGlobal + Input>(rt: &R) -> Result<BufReader<R::Reader>, Fault> {
    BufReader::new(rt.alloc(), rt.reader()).map_err(|_| Fault::Tool(ToolFault::Memory))
}

/// Runs the job once for each line of standard input. Each line is handled before the next line is
/// read. The first fault ends the run.
fn run_lines<R, I: BufRead>(rt: &R, job: &Job, book: &KeyBook, input: &mut I) -> Result<(), Fault>
where
    R: Clock + AllocGlobal + Eprint + Net + Print,
{
    for _ in 0..u64::MAX {
        let line = read_input_line(rt.alloc(), input)?;
        if line.is_empty() {
            break;
        }
        run_plan(rt, job, book, &line)?;
    }
    Ok(())
}

/// Runs the job. `input` is what the job reads: the text of standard input, one line of standard
/// input, or an empty text.
fn run_plan<R>(rt: &R, job: &Job, book: &KeyBook, input: &str) -> Result<(), Fault>
where
    R: Clock + AllocGlobal + Eprint + Net + Print,
{
    match plan_of(rt.alloc(), job, book, input)? {
        Plan::Print(text) => print(rt, &text),
        Plan::Exchange(exchange) => run_exchange(rt, exchange, book),
    }
}

/// Sends the requests of the exchange one after another, and prints the answer.
fn run_exchange<R: Clock + AllocGlobal + Eprint + Net + Print>(
    rt: &R,
    exchange: Exchange,
    book: &KeyBook,
) -> Result<(), Fault> {
    let socket = socket_of(rt, exchange.from, exchange.to)?;
    exchange_on(rt, &socket, exchange, book)
}

/// Runs the exchange on this socket: sends the requests of the exchange one after another, and
/// prints the answer. The answer to each request must arrive within the time `wait` of the
/// exchange.
///
/// # Errors
///
/// `NotDone` if a request was not carried out, or if no answer came to a request other than the
/// packet of `send`. `Forged` if the signature of the answer is wrong. Any other fault says why the
/// exchange was not completed.
pub fn exchange_on<R: Clock + AllocGlobal + Eprint + Print>(
    rt: &R,
    socket: &UdpSocket,
    exchange: Exchange,
    book: &KeyBook,
) -> Result<(), Fault> {
    let mut exchange = exchange;
    let mut buffer = vec![in rt.alloc(); 0; MAX_DATAGRAM]?;
    for _ in 0..u64::MAX {
        send(socket, &exchange.request)?;
        if let Some(outcome) = next_answer(rt, socket, &mut exchange, &mut buffer, book)? {
            return outcome.map_err(Fault::NotDone);
        }
    }
    Err(fault_of_silence(&exchange, false))
}

pub(crate) fn print<R: Print>(rt: &R, text: &[u8]) -> Result<(), Fault> {
    io::writer(rt).write_all(text).map_err(|_| Fault::Write)
}

/// Returns the job of the command line.
fn asked_job<R: Clock + Env + AllocGlobal + Files>(rt: &R) -> Result<Job, Fault> {
    let now = milliseconds(rt)?;
    let arguments = arguments_of(rt)?;
    let mut random = [0; RANDOM_OCTETS];
    let count = draw(rt, &mut random);
    Ok(parse_words(rt.alloc(), now, &random[..count], arguments.as_slice())?)
}

/// Writes octets of the system's random source to the front of the buffer. Returns how many octets
/// were written: 0 if the source cannot be read.
fn draw<R: Files>(rt: &R, buffer: &mut [u8]) -> usize
    ensures { result ≤ length buffer.new }
{
    let Ok(mut source) = File::open(rt, RANDOM_SOURCE) else {
        return 0;
    };
    match source.read(buffer) {
        Ok(count) => count,
        Err(_) => 0,
    }
}

/// Waits on this socket for the answer to the request that was sent last. Returns `None` if the
/// next request is to be sent. If the exchange is over, prints the answer and returns the outcome.
/// A datagram that does not answer the request is reported on standard error.
fn next_answer<R: Clock + AllocGlobal + Eprint + Print>(
    rt: &R,
    socket: &UdpSocket,
    exchange: &mut Exchange,
    buffer: &mut [u8],
    book: &KeyBook,
) -> Result<Option<Outcome>, Fault> {
    let start = Instant::now(rt).map_err(|_| Fault::Clock)?;
    for _ in 0..u64::MAX {
        let len = match receive(rt, socket, start, exchange.wait, buffer) {
            Ok(len) => len,
            Err(Missed::Clock) => return Err(Fault::Clock),
            Err(Missed::Closed) => return Err(fault_of_silence(exchange, true)),
            Err(Missed::Late) => return Err(fault_of_silence(exchange, false)),
        };
        match exchange.take(rt.alloc(), &buffer[..len], book)? {
            Progress::Next => return Ok(None),
            Progress::Done(text, outcome) => {
                print(rt, &text)?;
                return Ok(Some(outcome));
            }
            Progress::Forged(name) => return Err(Fault::Forged { name }),
            Progress::Unverified(text, name) => {
                print(rt, &text)?;
                let _printed = eprintln!(rt; "warning: the signature of the Data {name} is wrong");
                return Ok(Some(Ok(())));
            }
            Progress::Ignored => {
                // The datagram is ignored even if standard error cannot be written.
                let _printed = eprintln!(rt;
                    "ignored: a datagram that does not answer the request"
                );
            }
        }
    }
    Err(fault_of_silence(exchange, false))
}

/// Returns a socket from port `from` to `to`. If `from` is not given, the system chooses a port.
/// The socket has the address of `source_of`.
///
/// # Errors
///
/// `Unbound` if the given port `from` cannot be bound, for example because another program uses the
/// port. `Send` if `from` is not given and no port can be bound, or if the socket cannot be
/// connected to `to`.
pub fn socket_of<R: Net>(rt: &R, from: Option<u16>, to: SocketAddr) -> Result<UdpSocket, Fault> {
    let endpoint = source_of(from, &to);
    let Ok(socket) = UdpSocket::bind(rt, endpoint) else {
        return Err(match from {
            Some(_) => Fault::Unbound { endpoint },
            None => Fault::Send,
        });
    };
    socket.connect(to).map_err(|_| Fault::Send)?;
    Ok(socket)
}

fn send(socket: &UdpSocket, packet: &[u8]) -> Result<(), Fault> {
    match socket.send(packet) {
        Ok(sent) if sent == packet.len() => Ok(()),
        _ => Err(Fault::Send),
    }
}

/// Receives one datagram and returns its length in octets. Fails if no datagram arrives within
/// `wait` milliseconds after `start`, if receiving fails, or if the clock cannot be read.
fn receive<R: Clock>(
    rt: &R,
    socket: &UdpSocket,
    start: Instant,
    wait: u64,
    buffer: &mut [u8],
) -> Result<usize, Missed>
    ensures { IfOk result (λ len. len ≤ length buffer.new) }
{
    let waited = start.elapsed(rt).map_err(|_| Missed::Clock)?;
    let left = Duration::from_millis(wait).saturating_sub(waited);
    // `set_read_timeout` refuses a timeout of zero. So if no time remains, the answer is late.
    socket
        .set_read_timeout(Some(left))
        .map_err(|_| Missed::Late)?;
    socket.recv(buffer).map_err(|error| match error.kind() {
        io::ErrorKind::ConnectionRefused => Missed::Closed,
        _ => Missed::Late,
    })
}

fn arguments_of<R: Env + AllocGlobal>(rt: &R) -> Result<Vec<String>, Fault> {
    match env::args(rt) {
        Ok(arguments) => Ok(arguments.collect(rt.alloc())?),
        Err(error) if error.kind() == io::ErrorKind::OutOfMemory => {
            Err(Fault::Tool(ToolFault::Memory))
        }
        Err(_) => Err(Fault::NotText),
    }
}

/// Returns the time of the clock in milliseconds since 1970. Returns the fault `Clock` if the clock
/// cannot be read, its time is before 1970, or the number of milliseconds is 2^64 or more.
pub(crate) fn milliseconds<R: Clock>(rt: &R) -> Result<u64, Fault> {
    let Ok(time) = SystemTime::now(rt) else {
        return Err(Fault::Clock);
    };
    match time.duration_since(SystemTime::UNIX_EPOCH) {
        Ok(duration) => u64::try_from(duration.as_millis()).map_err(|_| Fault::Clock),
        Err(_) => Err(Fault::Clock),
    }
}

/// Returns the keys of the key file that the job names, or no keys if the job names no key file.
///
/// # Errors
///
/// The fault says why the key file cannot be opened or read, or what is wrong with its content.
pub fn book_of<R: AllocGlobal + Files>(rt: &R, job: &Job) -> Result<KeyBook, Fault> {
    let Some(path) = job.key_file() else {
        return Ok(KeyBook::new(rt.alloc()));
    };
    match File::open(rt, path) {
        Ok(file) => read_key_file(rt.alloc(), path, file),
        Err(error) => Err(unread_keys(rt.alloc(), path, &error)),
    }
}
