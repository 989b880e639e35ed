ghost use Rattle.std.specs.Prelude.{◌≡◌, ◌↔◌, Some, IsTrue, IfOk, IfSome, IsOk, OnOk, OnErr};
ghost use Rattle.std.specs.Option.{option_map};
ghost use Rattle.info_rules.specs.Decides.{MayRefuse};
ghost use Rattle.ndn_packets.specs.Packet.{AData, AnInterest, plain_signature};
ghost use Rattle.ndn_packets.specs.View.{plain_data, plain_interest};
ghost use Rattle.replay_guard.specs.Guard.{IsPrepared, signer_of};
ghost use Rattle.forwarder.specs.Commands.{with_record};
ghost use Rattle.forwarder.specs.Policy.{Policy};
ghost use Rattle.forwarder.specs.Deciding.{IsFreshCommand, IsDecidedAs, recorded_by, recorded_of, signer_in};

use info_rules::{Decision, Packet, Reason, Rules};
use key_files::KeyBook;
use ndn_packets::{DIGEST_SHA256, Data, Interest, Locator, Signature};
use ndn_tlv::Memory;
use replay_guard::{Guard, Signer};
use std::alloc::Global;

/// The signer, the SignatureTime and the SignatureSeqNum of a command.
#[derive(Clone, Copy, Debug)]
pub(crate) struct Signed<'a> {
    pub signer: Signer<'a>,
    /// The SignatureTime, in milliseconds since 1970.
    pub time: u64,
    /// The SignatureSeqNum, if the signature has one.
    pub seq: Option<u64>,
}

/// Returns the signer of a signature. All DigestSha256 signatures, and all signatures without the
/// name of a key, count as signatures of one signer.
fn signer_in<'a>(signature: Signature<'a>) -> Signer<'a>
    ensures { signer_of result ≡ signer_in (plain_signature signature.entry).info }
{
    if signature.kind == DIGEST_SHA256 {
        return Signer::Digest;
    }
    match signature.locator {
        Locator::Name(name) => Signer::Key(name),
        _ => Signer::Digest,
    }
}

/// Returns the signer, the SignatureTime and the SignatureSeqNum of an Interest. Returns `None` if
/// the Interest has no signature or no SignatureTime.
fn signed_by<'a>(interest: &Interest<'a>) -> Option<Signed<'a>>
    ensures { option_map recorded_by result ≡ recorded_of (plain_interest interest.now) }
{
    let signature = interest.signature?;
    let time = signature.time?;
    Some(Signed {
        signer: signer_in(signature),
        time,
        seq: signature.seq,
    })
}

/// Returns whether the SignatureTime of a command differs from `now` by at most 120,000
/// milliseconds, and the command is newer than all recorded commands of its signer. Newer means
/// that the command has a greater SignatureTime and, if both commands have a SignatureSeqNum, also
/// a greater SignatureSeqNum. `now` is in milliseconds since 1970. Returns true if the command has
/// no signature or no SignatureTime.
fn is_fresh(guard: &Guard, interest: &Interest<'_>, now: u64) -> bool
    ensures { (p : Policy) → p.guard ≡ guard.now.latest → p.now ≡ now
        → IsTrue result ↔ IsFreshCommand p (plain_interest interest.now) }
{
    match signed_by(interest) {
        Some(signed) => guard.check(signed.signer, signed.time, signed.seq, now),
        None => true,
    }
}

/// Returns the decision on a command at the moment `now`, in milliseconds since 1970. The decision
/// is that of the rules, with one exception: a command that the rules allow is denied as a replay
/// if the command is not fresh.
pub(crate) fn decide_command(
    alloc: Global,
    rules: &Rules,
    keys: &KeyBook,
    guard: &Guard,
    interest: &Interest<'_>,
    now: u64,
) -> Result<Decision, Memory>
    ensures { IfOk result (λ said. (p : Policy) → p.rules ≡ rules.now → p.keys ≡ keys.now
        → p.guard ≡ guard.now.latest → p.now ≡ now
        → IsDecidedAs p (AnInterest interest.now.whole.now (plain_interest interest.now)) said) }
{
    let decision = rules.decide(alloc, keys, Packet::Interest(interest))?;
    let Decision::Allowed(rule) = decision else {
        return Ok(decision);
    };
    if is_fresh(guard, interest, now) {
        return Ok(decision);
    }
    Ok(Decision::Denied(rule, Reason::Replay))
}

/// Returns the decision of the rules on a Data.
pub(crate) fn decide_data(
    alloc: Global,
    rules: &Rules,
    keys: &KeyBook,
    packet: &Data<'_>,
) -> Result<Decision, Memory>
    ensures said { IfOk result (λ said. (p : Policy) → p.rules ≡ rules.now → p.keys ≡ keys.now
        → IsDecidedAs p (AData packet.now.whole.now (plain_data packet.now)) said) }
    ensures memory { OnErr result
        (MayRefuse rules.now (AData packet.now.whole.now (plain_data packet.now))) }
{
    rules.decide(alloc, keys, Packet::Data(packet))
}

/// Reserves the memory for one call of `record` with this command. The reservation lasts until the
/// next call of `Guard::record` or `Guard::prepare`.
pub(crate) fn prepare_record(guard: &mut Guard, interest: &Interest<'_>) -> Result<(), Memory>
    ensures latest { guard.new.latest ≡ guard.old.latest }
    ensures ok { OnOk result (IfSome (recorded_of (plain_interest interest.now))
        (λ r. IsPrepared guard.new r.signer)) }
{
    match signed_by(interest) {
        Some(signed) => guard.prepare(signed.signer),
        None => Ok(()),
    }
}

/// Records the signer, the SignatureTime and the SignatureSeqNum of a command. Does nothing if the
/// command has no signature or no SignatureTime. For any other command, the caller must have called
/// `prepare_record` with this command, and must not have called `Guard::prepare` or `Guard::record`
/// since that call. So `record` needs no memory.
pub(crate) fn record(guard: &mut Guard, interest: &Interest<'_>) -> Result<(), Memory>
    requires { IfSome (recorded_of (plain_interest interest.now))
        (λ r. IsPrepared guard.old r.signer) }
    ensures ok { IsOk result }
    ensures recorded { (p : Policy) → p.guard ≡ guard.old.latest
        → with_record p (recorded_of (plain_interest interest.now))
        ≡ record p { guard = guard.new.latest } }
{
    match signed_by(interest) {
        Some(signed) => guard.record(signed.signer, signed.time, signed.seq),
        None => Ok(()),
    }
}
