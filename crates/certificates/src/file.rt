//! Files with certificates.

ghost use Rattle.std.specs.Prelude.{◌≡◌, ◌⊎◌, List, ℕ, IfOk, MatchResult, filter, not};
ghost use Rattle.certificates.specs.File.{IsFileOf, IsFileFault, is_space, without_space};

use crate::data::begins_as_data;
use crate::fault::CertificateFault;
use base64::DecodeAllocError;
use base64::engine::general_purpose::STANDARD;
use std::alloc::{AllocError, Global};

/// Returns whether an octet is a space, a tab, CR or LF.
fn is_space(octet: u8) -> bool
    ensures { result ≡ is_space octet }
{
    octet == b' ' || octet == b'\t' || octet == b'\r' || octet == b'\n'
}

/// Returns a text without its spaces, tabs, CRs and LFs.
fn without_space(alloc: Global, text: &[u8]) -> Result<Vec<u8>, AllocError>
    ensures { IfOk result (λ rest. rest.items ≡ without_space text.now) }
{
    text.iter()
        .copied()
        .filter(|octet| !is_space(*octet))
        .collect(alloc)
}

/// Returns the octets of the certificate in a file. A file that begins with octet 6, the type of a
/// Data, consists of these octets. Any other file is their base64 text (RFC 4648, section 4, with
/// padding), as `ndnsec cert-dump` writes it. Spaces, tabs, CRs and LFs in this text are ignored.
///
/// The octets may be any: `Certificate::read` tells whether they are a certificate. If the file is
/// not such a text, returns `NoBase64`.
pub fn octets_in_file(alloc: Global, file: Vec<u8>) -> Result<Vec<u8>, CertificateFault>
    ensures { MatchResult result
        (λ octets. IsFileOf file.items octets.items)
        (IsFileFault file.items) }
{
    if begins_as_data(&file) {
        return Ok(file);
    }
    let Ok(text) = without_space(alloc, &file) else {
        return Err(CertificateFault::Memory);
    };
    match STANDARD.decode(alloc, &text) {
        Ok(octets) => Ok(octets),
        Err(DecodeAllocError::DecodeError(_)) => Err(CertificateFault::NoBase64),
        Err(DecodeAllocError::OutOfMemory) => Err(CertificateFault::Memory),
    }
}
