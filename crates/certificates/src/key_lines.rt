//! The lines of a key file for the key of a certificate.

ghost use Rattle.std.specs.Prelude.{◌≡◌, ◌++◌, IfOk, MatchResult, OnOk};
ghost use Rattle.ndn_names.specs.View.{components};
ghost use Rattle.certificates.specs.KeyLines.{AreKeyLinesOf, IsFaultOfFile, key_line, key_lines, line_of};
ghost use Rattle.certificates.specs.View.{plain_certificate};

use crate::certificate::Certificate;
use crate::fault::CertificateFault;
use crate::file::octets_in_file;
use ndn_names::{Name, NameBuf};
use ndn_tlv::Memory;
use std::alloc::Global;

/// Returns the lines of a key file for the key of the certificate in a file: see `octets_in_file`,
/// `Certificate::read` and `Certificate::key_lines`. The signature of the certificate is not
/// verified. If the file has no certificate with a P-256 key, returns the first fault in the order
/// of `CertificateFault`.
pub fn key_lines_in_file(alloc: Global, file: Vec<u8>) -> Result<Vec<u8>, CertificateFault>
    ensures { MatchResult result
        (λ text. AreKeyLinesOf file.items text.items)
        (IsFaultOfFile file.items) }
{
    let octets = octets_in_file(alloc, file)?;
    let certificate = Certificate::read(&octets)?;
    match certificate.key_lines(alloc) {
        Ok(text) => Ok(text),
        Err(_) => Err(CertificateFault::Memory),
    }
}

/// Appends the line of a key with this name and these octets. On `Memory`, a part of the line may
/// have been appended.
fn put_key_line(
    alloc: Global,
    text: &mut Vec<u8>,
    name: Name<'_>,
    point: &[u8],
) -> Result<(), Memory>
    ensures { OnOk result (text.new.items
        ≡ text.old.items ++ key_line (components name.entry) point.now) }
{
    let uri = NameBuf::from_name(alloc, name)?.to_uri(alloc)?;
    let digits = hex::encode(alloc, point)?;
    put_words(text, uri.as_bytes(), digits.as_bytes())
}

/// Appends the line with this name and these digits.
fn put_words(text: &mut Vec<u8>, name: &[u8], digits: &[u8]) -> Result<(), Memory>
    ensures { OnOk result (text.new.items ≡ text.old.items ++ line_of name.now digits.now) }
{
    text.extend_from_slice(name)?;
    text.extend_from_slice(b" ecdsa-p256 ")?;
    text.extend_from_slice(digits)?;
    text.push(b'\n')?;
    Ok(())
}

impl Certificate<'_> {
    /// Returns two lines of a key file: the key with the name of the key, and the same key with the
    /// name of the certificate. A KeyLocator may have either name (NDN Packet Format 0.3,
    /// "KeyLocator"). Each line has the URI of the name, a space, the word `ecdsa-p256`, a space,
    /// the public key in hexadecimal digits in lower case, and an LF.
    pub fn key_lines(&self, alloc: Global) -> Result<Vec<u8>, Memory>
        ensures { IfOk result (λ text. text.items ≡ key_lines (plain_certificate self.now)) }
    {
        let mut text = Vec::new(alloc);
        put_key_line(alloc, &mut text, self.key_name, self.point)?;
        put_key_line(alloc, &mut text, self.name, self.point)?;
        Ok(text)
    }
}
