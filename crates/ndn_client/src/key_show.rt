//! The key of a certificate, as lines of a key file.

ghost use Rattle.std.specs.Prelude.{◌≡◌, IfSome, MatchResult};
ghost use Rattle.certificates.specs.KeyLines.{AreKeyLinesOf};
ghost use Rattle.ndn_client.specs.KeyShow.{AreLinesOfFile, IsKeyFault, IsLarge, IsNoFile, IsNoKey, IsNoKeyOf};

use crate::fault::Fault;
use crate::running::print;
use certificates::{CertificateFault, key_lines_in_file};
use limited_reads::read_within;
use ndn_jobs::{KeyJob, ToolFault};
use std::alloc::Global;
use std::fs::File;
use std::io::{ErrorKind, Read};
use std::rt::Files;

/// The greatest length of a file with a certificate, in octets. A Data has at most 8,800 octets, and
/// its base64 text has 11,736 octets and line ends.
pub const MAX_CERTIFICATE_FILE: u32 = 18_000;

/// Prints the lines of a key file for the key of the certificate in the job's file.
///
/// # Errors
///
/// The fault names the file, and says why it cannot be read or what is wrong with its content.
pub fn show_key<R: AllocGlobal + Files<File = File> + Print>(
    rt: &R,
    job: &KeyJob,
) -> Result<(), Fault> {
    let text = match File::open(rt, job.file.as_str()) {
        Ok(file) => read_key_lines(rt.alloc(), &job.file, file)?,
        Err(error) => return Err(no_file(rt.alloc(), &job.file, error.kind())),
    };
    print(rt, &text)
}

/// Reads the certificate in an open file at this path, and returns the lines of a key file for its
/// key. A file of more than `MAX_CERTIFICATE_FILE` octets is reported as too large, whatever it
/// contains.
pub fn read_key_lines<R: Read + Drop>(alloc: Global, path: &str, file: R) -> Result<Vec<u8>, Fault>
    // This clause states the result if the octets of the file are known.
    ensures { IfSome (R.remaining file)
        (λ octets. MatchResult result
        (λ text. AreLinesOfFile octets text.items)
        (IsKeyFault path.now octets)) }
{
    match read_within(alloc, file, MAX_CERTIFICATE_FILE) {
        Ok(Some(octets)) => key_lines(alloc, path, octets),
        Ok(None) => Err(too_large(alloc, path)),
        Err(error) => Err(no_file(alloc, path, error.kind())),
    }
}

/// Returns the lines of a key file for the key of the certificate in these octets of a file.
fn key_lines(alloc: Global, path: &str, file: Vec<u8>) -> Result<Vec<u8>, Fault>
    ensures { MatchResult result
        (λ text. AreKeyLinesOf file.items text.items)
        (IsNoKeyOf path.now file.items) }
{
    match key_lines_in_file(alloc, file) {
        Ok(text) => Ok(text),
        Err(why) => Err(no_certificate(alloc, path, why)),
    }
}

/// Returns the fault of a file whose certificate has the fault `why`: `NoCertificate`, or `Memory`
/// if memory ran out.
fn no_certificate(alloc: Global, path: &str, why: CertificateFault) -> Fault
    ensures { IsNoKey path.now why result }
{
    match why {
        CertificateFault::Memory => Fault::Tool(ToolFault::Memory),
        _ => match String::from_str(alloc, path) {
            Ok(path) => Fault::NoCertificate { path, why },
            Err(_) => Fault::Tool(ToolFault::Memory),
        },
    }
}

/// Returns the fault `LargeCertificate`, or `Memory` if memory runs out.
fn too_large(alloc: Global, path: &str) -> Fault
    ensures { IsLarge path.now result }
{
    match String::from_str(alloc, path) {
        Ok(path) => Fault::LargeCertificate { path },
        Err(_) => Fault::Tool(ToolFault::Memory),
    }
}

/// Returns the fault `NoFile`, or `Memory` if memory ran out.
pub(crate) fn no_file(alloc: Global, path: &str, kind: ErrorKind) -> Fault
    ensures { IsNoFile path.now kind result }
{
    if kind == ErrorKind::OutOfMemory {
        return Fault::Tool(ToolFault::Memory);
    }
    match String::from_str(alloc, path) {
        Ok(path) => Fault::NoFile { path, kind },
        Err(_) => Fault::Tool(ToolFault::Memory),
    }
}
