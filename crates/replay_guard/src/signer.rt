use ndn_names::Name;

/// The signer of a command (NDN Packet Format 0.3, "Signature").
#[derive(Clone, Copy, Debug)]
pub enum Signer<'a> {
    /// DigestSha256, which anybody can compute. All commands that are signed with DigestSha256
    /// count as commands of one signer.
    Digest,
    /// The key with this name.
    Key(Name<'a>),
}
