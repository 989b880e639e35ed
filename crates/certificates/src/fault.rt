use p256::PointFault;
use thiserror::Error;

/// Why a file has no octets, or why octets are not a certificate with a P-256 key: the first of
/// these faults that applies. `Memory` is reported only if `NoBase64` does not apply.
#[derive(Clone, Copy, Debug, PartialEq, Eq, Error)]
pub enum CertificateFault {
    /// The file does not begin with a Data, and is not text in base64.
    #[error("the file is neither a certificate nor its base64 text, as ndnsec cert-dump writes it")]
    NoBase64,
    /// The octets are not exactly one Data, for example because more octets follow the Data.
    #[error("the octets are not exactly one Data packet")]
    NoData,
    /// The name of the Data has fewer than four components, or the fourth component from the end is
    /// not the generic component `KEY`.
    #[error("the name of the Data does not end with /KEY/KEYID/ISSUER/VERSION")]
    NoCertificateName,
    /// The Data has no Content.
    #[error("the certificate has no Content, so it has no public key")]
    NoContent,
    /// The Content is not the SubjectPublicKeyInfo of a P-256 key with an uncompressed point.
    #[error("the public key is not an uncompressed P-256 key with a named curve")]
    OtherKey,
    /// The point in the SubjectPublicKeyInfo is not a public key.
    #[error("{0}")]
    BadPoint(PointFault),
    /// Memory could not be allocated.
    #[error("out of memory")]
    Memory,
}
