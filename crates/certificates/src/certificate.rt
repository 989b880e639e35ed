//! Certificates.

ghost use Rattle.std.specs.Prelude.{◌≡◌, List, ℕ, IfErr, IfOk, IsOkAnd, MatchOption, MatchResult};
ghost use Rattle.ndn_names.specs.View.{components};
ghost use Rattle.certificates.specs.Certificate.{IsCertificate, IsCertificateName, PlainCertificate};
ghost use Rattle.certificates.specs.Certificate.{key_name_of};
ghost use Rattle.certificates.specs.FirstFault.{IsFaultOf};
ghost use Rattle.certificates.specs.View.{plain_certificate};
ghost use Rattle.certificates.specs.declared.fault.CertificateFault.{CertificateFault};

use crate::data::data_in;
use crate::fault::CertificateFault;
use crate::key_info::point_in;
use ndn_names::Name;
use ndn_names::component_type::GENERIC;
use p256::PublicKey;

/// What a certificate tells about a P-256 key, which borrows the octets of the certificate (NDN
/// Certificate Format 2.0). The signature of the certificate is not verified: who uses the key
/// decides whether to trust it.
#[derive(Clone, Copy, Debug)]
pub struct Certificate<'a> {
    /// The name of the certificate, /IDENTITY/KEY/KEYID/ISSUER/VERSION.
    pub name: Name<'a>,
    /// The name of the key, /IDENTITY/KEY/KEYID.
    pub key_name: Name<'a>,
    /// The public key: 04, and then the two coordinates of the point, which have 32 octets each
    /// (SEC 1, section 2.3.4).
    pub point: &'a [u8],
}

impl<'a> Certificate<'a> {
    /// Reads a certificate with a P-256 key. The octets must be exactly one Data. Its Content must
    /// be the DER form of a SubjectPublicKeyInfo with the curve secp256r1 by name and an
    /// uncompressed point (RFC 5480, section 2). Nothing is allocated.
    ///
    /// Returns the first fault for other octets, in the order of `CertificateFault`. `NoBase64` and
    /// `Memory` are never returned. The ContentType, the FreshnessPeriod, the ValidityPeriod and
    /// the signature of the certificate are not checked.
    pub fn read(octets: &'a [u8]) -> Result<Certificate<'a>, CertificateFault>
        // If a certificate is returned, the octets are this certificate.
        ensures found { IfOk result (λ read. IsCertificate octets.now (plain_certificate read)) }
        // If the octets are a certificate, exactly this certificate is returned.
        ensures only { (certificate : PlainCertificate) → IsCertificate octets.now certificate
            → IsOkAnd result (λ read. plain_certificate read ≡ certificate) }
        // A returned fault is the first fault of the octets.
        ensures fault { IfErr result (IsFaultOf octets.now) }
    {
        certificate_in(octets)
    }
}

/// Reads a certificate.
fn certificate_in(octets: &[u8]) -> Result<Certificate<'_>, CertificateFault>
    ensures { MatchResult result
        (λ read. IsCertificate octets.now (plain_certificate read))
        (IsFaultOf octets.now) }
{
    let Some(data) = data_in(octets) else {
        return Err(CertificateFault::NoData);
    };
    let Some(key_name) = key_name_in(data.name) else {
        return Err(CertificateFault::NoCertificateName);
    };
    let Some(content) = data.content else {
        return Err(CertificateFault::NoContent);
    };
    let Some(point) = point_in(content) else {
        return Err(CertificateFault::OtherKey);
    };
    match PublicKey::from_octets(point) {
        Ok(_) => Ok(Certificate {
            name: data.name,
            key_name,
            point,
        }),
        Err(fault) => Err(CertificateFault::BadPoint(fault)),
    }
}

/// Returns the name of the key if `name` is the name of a certificate.
fn key_name_in<'a>(name: Name<'a>) -> Option<Name<'a>>
    ensures { MatchOption result
        (¬ IsCertificateName (components name.entry))
        (λ key_name. IsCertificateName (components name.entry)
        × (components key_name ≡ key_name_of (components name.entry))) }
{
    let len = name.len();
    if len < 4 {
        return None;
    }
    let word = name.component(len - 4)?;
    if word.kind != GENERIC || word.value != b"KEY".as_slice() {
        return None;
    }
    Some(name.prefix(len - 2))
}

/// Law: octets are at most one certificate, and octets that are a certificate have no fault.
pub fn certificates_have_one_reading()
    ensures one { (octets : List ℕ) (a b : PlainCertificate) → IsCertificate octets a
        → IsCertificate octets b → a ≡ b }
    ensures no_fault { (octets : List ℕ) (certificate : PlainCertificate) (fault : CertificateFault)
        → IsCertificate octets certificate → ¬ IsFaultOf octets fault }
{}
