//! What the program must do for a job: print a text, or exchange datagrams.

ghost use Rattle.std.specs.Prelude.{◌≡◌, MatchResult};
ghost use Rattle.ndn_client.specs.Answer.{IsRefusal};
ghost use Rattle.ndn_client.specs.Plan.{IsPlan, IsNoPlan, IsRequest, IsSent, IsNotSent, IsPrinted, fault_of_silence, input_form, ports_of, unverified_of, view_of, wait_for, wait_of};

use crate::answer::{command_packet, interest_packet, keys_given, text_of};
use crate::fault::Fault;
use crate::input::packet_in;
use key_files::KeyBook;
use ndn_explain::put_input;
use ndn_jobs::{Job, Ports, SendJob, ToolFault};
use ndn_requests::{Exchange, Failure, View};
use std::alloc::Global;

/// How long to wait for an answer if the command line does not say so, in milliseconds.
pub const ANSWER_MILLISECONDS: u64 = 4000;

/// What the program must do.
#[derive(Drop)]
pub enum Plan {
    /// Print this text.
    Print(Vec<u8>),
    /// Send a request, and handle each datagram that is received.
    Exchange(Exchange),
}

/// What a job reads from standard input.
#[derive(Clone, Copy)]
pub enum InputForm {
    /// Nothing.
    Nothing,
    /// One packet.
    Packet,
    /// Lines. The job is run for each line separately.
    Lines,
}

/// Returns what the job reads from standard input.
pub fn input_form(job: &Job) -> InputForm
    ensures { result ≡ input_form job.now }
{
    match job {
        Job::Explain(job) if job.packet.is_none() => InputForm::Lines,
        Job::Send(job) if job.packet.is_none() => InputForm::Packet,
        _ => InputForm::Nothing,
    }
}

/// Returns what the program must do for a job, given the keys of the job's key file. If the job
/// reads standard input, `input` is the text of standard input or one of its lines.
///
/// Each error except `Memory` has its cause in the job, in the keys or in the input. `Usage` is
/// returned only if the job reads a packet from standard input and `input` does not spell octets in
/// hexadecimal.
pub fn plan_of(alloc: Global, job: &Job, book: &KeyBook, input: &str) -> Result<Plan, ToolFault>
    ensures { MatchResult result (IsPlan job.now book.now input.now)
        (IsNoPlan job.now book.now input.now) }
{
    match ports_of(job) {
        Ports { to: None, .. } => Ok(Plan::Print(printed(alloc, job, book, input)?)),
        Ports { to: Some(to), from } => {
            let request = request_of(alloc, job, book, input)?;
            Ok(Plan::Exchange(Exchange {
                request,
                to,
                from,
                view: view_of(job),
                wait: wait_of(job),
                unverified: unverified_of(job),
                contents: Vec::new(alloc),
            }))
        }
    }
}

/// Returns the destination and the source port of the job's packet, or neither if the job sends no
/// packet.
fn ports_of(job: &Job) -> Ports
    ensures { result ≡ ports_of job.now }
{
    match job {
        Job::Command(job) => job.stamp.ports,
        Job::Ask(job) => job.ports,
        Job::Send(job) => Ports {
            to: Some(job.to),
            from: job.from,
        },
        _ => Ports {
            to: None,
            from: None,
        },
    }
}

/// Returns what is printed of the answer to the job's request.
fn view_of(job: &Job) -> View
    ensures { result ≡ view_of job.now }
{
    match job {
        Job::Ask(job) => job.view,
        Job::Send(_) => View::Hexadecimal,
        _ => View::Lines,
    }
}

/// Returns how long to wait for an answer to the job's packet, in milliseconds.
fn wait_of(job: &Job) -> u64
    ensures { result ≡ wait_of job.now }
{
    match job {
        Job::Command(job) => wait_for(job.stamp.timeout, None),
        Job::Ask(job) => wait_for(job.timeout, job.interest.lifetime),
        Job::Send(job) => wait_for(job.timeout, None),
        _ => wait_for(None, None),
    }
}

/// Returns how long to wait for an answer, in milliseconds: the timeout if it is given, otherwise
/// the lifetime of the Interest if it is given, otherwise 4,000.
fn wait_for(timeout: Option<u32>, lifetime: Option<u64>) -> u64
    ensures { result ≡ wait_for timeout lifetime }
{
    match timeout {
        Some(timeout) => u64::from(timeout),
        None => lifetime.unwrap_or(ANSWER_MILLISECONDS),
    }
}

/// Returns whether a Data with a wrong signature is printed.
fn unverified_of(job: &Job) -> bool
    ensures { result ≡ unverified_of job.now }
{
    match job {
        Job::Ask(job) => job.unverified,
        _ => false,
    }
}

/// Returns what is printed for a job that sends no packet.
fn printed(alloc: Global, job: &Job, book: &KeyBook, input: &str) -> Result<Vec<u8>, ToolFault>
    ensures { MatchResult result (λ text. IsPrinted job.now book.now input.now text.items)
        (IsRefusal job.now book.now) }
{
    match job {
        Job::Explain(explain) if explain.packet.is_none() => {
            let mut text = Vec::new(alloc);
            put_input(alloc, &mut text, input, keys_given(explain, book))?;
            Ok(text)
        }
        _ => text_of(alloc, job, book),
    }
}

/// Returns the request of a job that sends a packet. Returns no octets for a job other than
/// `Command`, `Ask` and `Send`.
fn request_of(alloc: Global, job: &Job, book: &KeyBook, input: &str) -> Result<Vec<u8>, ToolFault>
    ensures { MatchResult result (IsRequest job.now book.now input.now)
        (IsNoPlan job.now book.now input.now) }
{
    match job {
        Job::Command(job) => command_packet(alloc, job, book),
        Job::Ask(job) => interest_packet(alloc, &job.interest, book),
        Job::Send(job) => sent_packet(alloc, job, input),
        _ => Ok(Vec::new(alloc)),
    }
}

/// Returns the packet of the subcommand `send`: the given packet, or the packet in `input` if no
/// packet is given.
fn sent_packet(alloc: Global, job: &SendJob, input: &str) -> Result<Vec<u8>, ToolFault>
    ensures { MatchResult result (IsSent job.now input.now)
        (IsNotSent job.now input.now) }
{
    match &job.packet {
        Some(packet) => Ok(Vec::from_slice(alloc, packet)?),
        None => packet_in(alloc, input.as_bytes()),
    }
}

/// Returns the fault of a request without an answer. `is_closed` is true if no program listens at
/// the destination. The exit status is 3 for the packet of `send`. For any other request it is 6 if
/// no program listens at the destination, and 5 otherwise.
pub fn fault_of_silence(exchange: &Exchange, is_closed: bool) -> Fault
    ensures { result ≡ fault_of_silence exchange.now is_closed }
{
    let silence = exchange.silence(is_closed);
    match exchange.view {
        View::Hexadecimal => Fault::Silent(silence),
        _ => Fault::NotDone(Failure::Silent(silence)),
    }
}
