//! Reading from sources of any length, with a limit on the number of octets that are returned.
#![tactic(auto)]

ghost use Rattle.std.specs.Prelude.{◌≤◌, length, IfOk, IfSome, option_map};
ghost use Rattle.std.specs.Io.BufRead.{take_through};
ghost use Rattle.limited_reads.specs.Limit.{IsWithin};

use std::alloc::Global;
use std::io;
use std::io::{BufRead, Read};

/// The greatest length of a key file, in octets. The programs refuse longer key files. The format
/// of key files sets no limit, since a valid key file may have any number of comments and empty
/// lines, and names of any length. A key whose name fits into a packet has a line of less than
/// 28,000 octets, even if each octet of the name is escaped. The limit allows 256 lines of 28,000
/// octets, and more than 1,000,000 octets of comments.
pub const MAX_KEY_FILE: u32 = 8_388_608;

/// Returns all octets of a reader, or `None` if the reader has more than `limit` octets. At most
/// `limit` + 1 octets are read.
pub fn read_within<R: Read + Drop>(
    alloc: Global,
    reader: R,
    limit: u32,
) -> io::Result<Option<Vec<u8>>>
    ensures bound { IfOk result (λ found. IfSome found (λ octets. length octets.items ≤ limit)) }
    // If the octets of the reader are known, the result is exactly these octets, or `None` if there
    // are more than `limit`.
    ensures known { IfOk result (λ found. IfSome (R.remaining reader)
        (λ octets. IsWithin limit octets (option_map (λ o. o.items) found))) }
{
    let mut octets = Vec::new(alloc);
    reader.take(u64::from(limit) + 1).read_to_end(&mut octets)?;
    Ok(kept_within(octets, limit))
}

/// Reads the next line of a reader, including the LF at its end if there is one. Returns `None` if
/// the line, including this LF, has more than `limit` octets. At most `limit` + 1 octets are read,
/// and the rest of a longer line stays in the reader. At the end of the reader the line is empty.
pub fn read_line_within<R: BufRead>(
    alloc: Global,
    reader: &mut R,
    limit: u32,
) -> io::Result<Option<Vec<u8>>>
    ensures bound { IfOk result (λ found. IfSome found (λ line. length line.items ≤ limit)) }
    // If the octets of the reader are known, the result is exactly the next line, or `None` if the
    // line has more than `limit` octets.
    ensures known { IfOk result (λ found. IfSome (R.remaining reader.old)
        (λ octets. IsWithin limit (take_through 10 octets) (option_map (λ o. o.items) found))) }
{
    let mut line = Vec::new(alloc);
    reader
        .take(u64::from(limit) + 1)
        .read_until(b'\n', &mut line)?;
    Ok(kept_within(line, limit))
}

/// Returns the octets, or `None` if there are more than `limit` octets.
fn kept_within(octets: Vec<u8>, limit: u32) -> Option<Vec<u8>>
    ensures { IsWithin limit octets.items (option_map (λ o. o.items) result) }
{
    if octets.len() > limit as usize {
        return None;
    }
    Some(octets)
}
