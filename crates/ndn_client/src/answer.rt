//! The answer to a job.
ghost use Rattle.std.specs.Prelude.{◌≡◌, MatchResult, option_map};
ghost use Rattle.ndn_packets.specs.Link.{IsFrame, IsFramed};
ghost use Rattle.ndn_packets.specs.View.{plain_frame, plain_framed};
ghost use Rattle.ndn_client.specs.Answer.{IsAnswer, IsRefusal, IsInterestAnswer, IsLinkAnswer, IsInterestPacket, IsInterestRefusal, IsDataAnswer, IsDataRefusal, IsCommandPacket, IsCommandAnswer, IsCommandRefusal, IsTagAnswer, IsTagRefusal, IsShown, IsExplained, IsExplainAnswer, IsExplainRefusal, IsNotShown, keys_given, IsHmac, SignsInterest, SignsData, IsNoKey};
ghost use Rattle.ndn_requests.specs.Parameters.{command_name};

use hmac_keys::hmac_sha256;
use key_files::KeyBook;
use ndn_explain::{check_of, hex_line, put_frame, put_framed_explanation};
use ndn_jobs::{
    CommandJob, DataJob, ExplainJob, InterestJob, Job, LinkJob, TagJob, ToolFault, token_octets,
};
use ndn_names::NameBuf;
use ndn_packets::{DataWriter, Frame, Framed, InterestWriter, Sign, put_lp, read_frame, read_lp};
use ndn_requests::command_name;
use std::alloc::Global;

/// Returns the text to print for a job if no packet is sent, given the keys of the job's key file.
/// For `send`, `get`, `put` and `key`, and for `explain` without a packet, the text is empty.
///
/// Each error except `Memory` has its cause in the job or its keys. `Usage` is never returned.
pub fn text_of(alloc: Global, job: &Job, book: &KeyBook) -> Result<Vec<u8>, ToolFault>
    ensures { MatchResult result
        (λ text. IsAnswer job.now book.now text.items)
        (IsRefusal job.now book.now) }
{
    match job {
        Job::Help(help) => Ok(help.to_string(alloc)?.into_bytes()),
        Job::Interest(job) => link_text(alloc, job, book),
        Job::Ask(job) => interest_text(alloc, &job.interest, book),
        Job::Data(job) => data_text(alloc, job, book),
        Job::Command(job) => command_text(alloc, job, book),
        Job::Tag(job) => tag_text(alloc, job, book),
        Job::Show(octets) => shown_text(alloc, octets),
        Job::Explain(job) => explain_text(alloc, job, book),
        Job::Send(_) | Job::Get(_) | Job::Put(_) | Job::Key(_) => Ok(Vec::new(alloc)),
    }
}

/// Returns the line with an Interest in hexadecimal. If there is a PIT token, the Interest is
/// inside a link packet (NDNLPv2, "PIT Token").
fn link_text(alloc: Global, job: &LinkJob, book: &KeyBook) -> Result<Vec<u8>, ToolFault>
    ensures { MatchResult result
        (λ text. IsLinkAnswer job.now book.now text.items)
        (IsInterestRefusal job.now.interest book.now) }
{
    let packet = interest_packet(alloc, &job.interest, book)?;
    let mut frame = Vec::new(alloc);
    put_lp(&mut frame, token_octets(&job.token), None, &packet)?;
    Ok(hex_line(alloc, &frame)?)
}

fn interest_text(alloc: Global, job: &InterestJob, book: &KeyBook) -> Result<Vec<u8>, ToolFault>
    ensures { MatchResult result
        (λ text. IsInterestAnswer job.now book.now text.items)
        (IsInterestRefusal job.now book.now) }
{
    let packet = interest_packet(alloc, job, book)?;
    Ok(hex_line(alloc, &packet)?)
}

/// Returns the packet of a job's Interest, given the keys of the job's key file.
pub fn interest_packet(
    alloc: Global,
    job: &InterestJob,
    book: &KeyBook,
) -> Result<Vec<u8>, ToolFault>
    ensures { MatchResult result
        (λ packet. IsInterestPacket job.now book.now packet.items)
        (IsInterestRefusal job.now book.now) }
{
    let sign = interest_sign(&job.key.key, book)?;
    let writer = InterestWriter {
        name: job.name.view(),
        can_be_prefix: job.can_be_prefix,
        must_be_fresh: job.must_be_fresh,
        nonce: job.nonce,
        lifetime: job.lifetime,
        hop_limit: job.hop_limit,
        parameters: octets_in(&job.parameters),
        sign,
        time: job.time,
        seq: job.seq,
    };
    let mut packet = Vec::new(alloc);
    writer.write(&mut packet)?;
    Ok(packet)
}

fn data_text(alloc: Global, job: &DataJob, book: &KeyBook) -> Result<Vec<u8>, ToolFault>
    ensures { MatchResult result
        (λ text. IsDataAnswer job.now book.now text.items)
        (IsDataRefusal job.now book.now) }
{
    let sign = data_sign(&job.key.key, book)?;
    let writer = DataWriter {
        name: job.name.view(),
        freshness: job.freshness,
        last: None,
        content: octets_in(&job.content),
        sign,
    };
    let mut packet = Vec::new(alloc);
    writer.write(&mut packet)?;
    Ok(hex_line(alloc, &packet)?)
}

fn command_text(alloc: Global, job: &CommandJob, book: &KeyBook) -> Result<Vec<u8>, ToolFault>
    ensures { MatchResult result
        (λ text. IsCommandAnswer job.now book.now text.items)
        (IsCommandRefusal job.now book.now) }
{
    let packet = command_packet(alloc, job, book)?;
    Ok(hex_line(alloc, &packet)?)
}

/// Returns the packet of a job's command, given the keys of the job's key file.
pub fn command_packet(alloc: Global, job: &CommandJob, book: &KeyBook) -> Result<Vec<u8>, ToolFault>
    ensures { MatchResult result
        (λ packet. IsCommandPacket job.now book.now packet.items)
        (IsCommandRefusal job.now book.now) }
{
    match command_name(alloc, &job.name, &job.parameters) {
        Ok(name) => named_command(alloc, job, &name, book),
        Err(fault) => {
            // If the key is missing as well, the fault is `NoKey`, not the fault of the name.
            data_sign(&job.stamp.key.key, book)?;
            Err(ToolFault::from(fault))
        }
    }
}

/// Returns the packet of a command. `name` is the name of the command's Interest, without the
/// parameters digest.
fn named_command<'a>(
    alloc: Global,
    job: &'a CommandJob,
    name: &'a NameBuf,
    book: &'a KeyBook,
) -> Result<Vec<u8>, ToolFault>
    requires { name.now ≡ command_name job.now.name job.now.parameters }
    ensures { MatchResult result
        (λ packet. IsCommandPacket job.now book.now packet.items)
        (IsCommandRefusal job.now book.now) }
{
    let sign = data_sign(&job.stamp.key.key, book)?;
    let writer = InterestWriter {
        name: name.view(),
        can_be_prefix: false,
        must_be_fresh: false,
        nonce: job.stamp.nonce,
        lifetime: None,
        hop_limit: None,
        // `write` adds empty ApplicationParameters, because the Interest is signed.
        parameters: None,
        sign: Some(sign),
        time: Some(job.stamp.time),
        seq: job.stamp.seq,
    };
    let mut packet = Vec::new(alloc);
    writer.write(&mut packet)?;
    Ok(packet)
}

fn tag_text(alloc: Global, job: &TagJob, book: &KeyBook) -> Result<Vec<u8>, ToolFault>
    ensures { MatchResult result
        (λ text. IsTagAnswer job.now book.now text.items)
        (IsTagRefusal job.now book.now) }
{
    match book.find(job.key.view()) {
        None => Err(ToolFault::NoKey),
        Some(key) => Ok(hex_line(alloc, &hmac_sha256(key, &job.octets, &[]))?),
    }
}

fn shown_text(alloc: Global, octets: &[u8]) -> Result<Vec<u8>, ToolFault>
    ensures { MatchResult result (λ text. IsShown octets.now text.items) (IsNotShown octets.now) }
{
    let frame = frame_of(octets)?;
    let mut text = Vec::new(alloc);
    put_frame(alloc, &mut text, &frame)?;
    Ok(text)
}

fn explain_text(alloc: Global, job: &ExplainJob, book: &KeyBook) -> Result<Vec<u8>, ToolFault>
    ensures { MatchResult result
        (λ text. IsExplainAnswer job.now book.now text.items)
        (IsExplainRefusal job.now) }
{
    match &job.packet {
        None => Ok(Vec::new(alloc)),
        Some(octets) => explained_text(alloc, octets, keys_given(job, book)),
    }
}

/// Returns the keys for checking signatures, or `None` if the job names no key file.
pub fn keys_given<'a>(job: &ExplainJob, book: &'a KeyBook) -> Option<&'a KeyBook>
    ensures { option_map (λ b. b.now) result ≡ keys_given job.now book.entry.now }
{
    match &job.keys {
        None => None,
        Some(_) => Some(book),
    }
}

/// Returns the explanation of a packet. The packet's signature is checked if `keys` is not `None`.
fn explained_text(
    alloc: Global,
    octets: &[u8],
    keys: Option<&KeyBook>,
) -> Result<Vec<u8>, ToolFault>
    ensures { MatchResult result
        (λ text. IsExplained (option_map (λ b. b.now) keys.entry) octets.now text.items)
        (IsNotShown octets.now) }
{
    let framed = framed_of(octets)?;
    let check = check_of(&framed.frame, keys);
    let mut text = Vec::new(alloc);
    put_framed_explanation(alloc, &mut text, &framed, check)?;
    Ok(text)
}

/// Reads the frame in the octets.
fn frame_of(octets: &[u8]) -> Result<Frame<'_>, ToolFault>
    ensures { MatchResult result
        (λ frame. IsFrame octets.now (plain_frame frame))
        (IsNotShown octets.now) }
{
    match read_frame(octets) {
        Ok(frame) => Ok(frame),
        Err(fault) => Err(ToolFault::Packet(fault)),
    }
}

/// Reads the frame in the octets, with its PIT token.
fn framed_of(octets: &[u8]) -> Result<Framed<'_>, ToolFault>
    ensures { MatchResult result
        (λ framed. IsFramed octets.now (plain_framed framed))
        (IsNotShown octets.now) }
{
    match read_lp(octets) {
        Ok(framed) => Ok(framed),
        Err(fault) => Err(ToolFault::Packet(fault)),
    }
}

/// Returns how an Interest is signed: with the key named `key`, or not at all if no key is named.
fn interest_sign<'a>(
    key: &'a Option<NameBuf>,
    book: &'a KeyBook,
) -> Result<Option<Sign<'a>>, ToolFault>
    ensures { MatchResult result (SignsInterest key.now book.now) (IsNoKey key.now book.now) }
{
    match key {
        None => Ok(None),
        Some(name) => Ok(Some(hmac_of(name, book)?)),
    }
}

/// Returns how a Data or a command is signed: with the key named `key`, or with DigestSha256 if no
/// key is named.
pub(crate) fn data_sign<'a>(
    key: &'a Option<NameBuf>,
    book: &'a KeyBook,
) -> Result<Sign<'a>, ToolFault>
    ensures { MatchResult result (SignsData key.now book.now) (IsNoKey key.now book.now) }
{
    match key {
        None => Ok(Sign::Digest),
        Some(name) => hmac_of(name, book),
    }
}

/// Returns how a packet is signed by an HMAC with the key of this name, or the fault `NoKey` if the
/// book has no such key.
fn hmac_of<'a>(name: &'a NameBuf, book: &'a KeyBook) -> Result<Sign<'a>, ToolFault>
    ensures { MatchResult result (IsHmac name.now book.now) (IsNoKey (Some name.now) book.now) }
{
    let name = name.view();
    match book.find(name) {
        None => Err(ToolFault::NoKey),
        Some(key) => Ok(Sign::Hmac { name, key }),
    }
}

fn octets_in(octets: &Option<Vec<u8>>) -> Option<&[u8]>
    ensures { option_map (λ o. o.now) result ≡ option_map (λ o. o.items) octets.now }
{
    match octets {
        None => None,
        Some(octets) => Some(octets.as_slice()),
    }
}
