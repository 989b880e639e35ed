use info_rules::{Kind, Reason, RuleNo};
use ndn_packets::PacketFault;

/// How a node handled one event.
#[derive(Clone, Copy, Debug, PartialEq, Eq)]
pub enum Verdict {
    /// The event had its effect.
    Passed,
    /// This rule allowed the command, which was answered with this status (NFD Management, "Control
    /// Response").
    Allowed(RuleNo, u16),
    /// This rule allowed the Data, whether it was sent on or not. `stored` tells whether the Data
    /// answered a pending insert of the repository, which then stored the Data.
    DataAllowed { rule: RuleNo, stored: bool },
    /// The command or Data was denied for this reason. This rule is the first rule that applies. If
    /// the reason is `Replay`, this rule allows the command, but the command was not fresh.
    Denied(Kind, RuleNo, Reason),
    /// No rule applies to the command or Data, which is denied.
    NoRule(Kind),
    /// The event had no effect, except that time advanced to the event's moment, and that a Nack
    /// was sent back if the reason is `Loop`.
    Dropped(DropReason),
}

/// Why an event was dropped.
#[derive(Clone, Copy, Debug, PartialEq, Eq)]
pub enum DropReason {
    /// The face is not open.
    NoFace,
    /// The octets are not a packet.
    Malformed(PacketFault),
    /// The octets are a link packet that contains no packet.
    Idle,
    /// The HopLimit of the Interest is 0.
    HopLimit,
    /// The packet came from another machine, and the packet's name begins with `/localhost`. The
    /// name of a Nack is that of the Interest in the Nack.
    Scope,
    /// The Interest loops: an in-record of another face, or an out-record, has the Interest's key
    /// and Nonce, but no in-record of the Interest's own face has them. A Nack with the reason
    /// Duplicate was sent back.
    Loop,
    /// The PIT is full: Interests of 4,096 other keys are pending.
    PitFull,
    /// The face that the Nack came on has no out-record with the key and Nonce of the Interest in
    /// the Nack.
    NoPending,
    /// The list has no segment with the requested number, or the Interest requests a version other
    /// than the list's current version.
    NoSegment,
    /// The face number is 0.
    BadFace,
    /// The face is already open.
    FaceOpen,
    /// 64 faces are already open.
    FacesFull,
}
