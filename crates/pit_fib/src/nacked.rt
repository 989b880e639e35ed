/// The result of a Nack (NFD Developer's Guide, "Incoming Nack Pipeline").
#[derive(Clone, Copy, Debug, PartialEq, Eq)]
pub enum Nacked {
    /// Under the Nack's key, the face from which the Nack came has no out-record with the Nack's
    /// Nonce.
    NoPending,
    /// At least one out-record of the Nack's key has no reason of a Nack yet.
    Waiting,
    /// Each out-record of the Nack's key has the reason of a Nack, and the number is the least of
    /// these reasons.
    All(u64),
}
