//! The key file.

ghost use Rattle.std.specs.Prelude.{IfSome, MatchResult};
ghost use Rattle.std.specs.IoError.{error_kind};
ghost use Rattle.key_files.specs.KeyReading.{AreKeys};
ghost use Rattle.ndn_client.specs.KeyFile.{AreKeysOfFile, HasCause, IsFileFault, IsKeyFileFault, IsUnread};

use crate::fault::Fault;
use key_files::KeyBook;
use limited_reads::{MAX_KEY_FILE, read_within};
use ndn_jobs::ToolFault;
use std::alloc::Global;
use std::io;
use std::io::{ErrorKind, Read};

/// Reads the keys of a key file. If the octets are not UTF-8, the fault is `BadLine(0)`.
pub fn read_book(alloc: Global, octets: &[u8]) -> Result<KeyBook, Fault>
    ensures { MatchResult result (AreKeys octets.now) (IsFileFault octets.now) }
{
    KeyBook::read_octets(alloc, octets).map_err(Fault::Keys)
}

/// Reads the keys of an open key file at this path. A file of more than `MAX_KEY_FILE` octets is
/// reported as too large, whatever it contains.
pub fn read_key_file<R: Read + Drop>(alloc: Global, path: &str, file: R) -> Result<KeyBook, Fault>
    // This clause states the result if the octets of the file are known.
    ensures { IfSome (R.remaining file)
        (λ octets. MatchResult result (AreKeysOfFile octets) (IsKeyFileFault path.now octets)) }
{
    match read_within(alloc, file, MAX_KEY_FILE) {
        Ok(Some(octets)) => read_book(alloc, &octets),
        Ok(None) => Err(Fault::LargeKeys),
        Err(error) => Err(unread_keys(alloc, path, &error)),
    }
}

/// Returns the fault for a key file that cannot be opened or read: `Memory` if memory ran out, and
/// otherwise `Unread`.
pub fn unread_keys(alloc: Global, path: &str, error: &io::Error) -> Fault
    ensures file { IsUnread path.now result }
    ensures cause { HasCause (error_kind error.now) result }
{
    let kind = error.kind();
    if kind == ErrorKind::OutOfMemory {
        return Fault::Tool(ToolFault::Memory);
    }
    match String::from_str(alloc, path) {
        Ok(path) => Fault::Unread { path, kind },
        Err(_) => Fault::Tool(ToolFault::Memory),
    }
}
