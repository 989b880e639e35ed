use thiserror::Error;

/// Why octets are not a public key. If the octets have several faults, the first one in the order
/// of this enum is reported.
#[derive(Clone, Copy, Debug, PartialEq, Eq, Error)]
pub enum PointFault {
    /// The octets do not have the uncompressed form of a point, which is 65 octets that begin
    /// with 04.
    #[error("a public key has 65 octets: 04, then the two coordinates of 32 octets each")]
    BadForm,
    /// A coordinate is not below the prime of the field.
    #[error("a coordinate of a public key is below the prime of the field of P-256")]
    TooLarge,
    /// The coordinates do not satisfy the equation of the curve.
    #[error("a public key is a point of the curve P-256")]
    OffCurve,
}
