ghost use Rattle.std.specs.Prelude.{◌≡◌, ◌≤◌, length, take, IfErr, IfOk, OnOk, OnErr};
ghost use Rattle.std.specs.Io.KnownBytes.{Appends, Keeps};
ghost use Rattle.node_core.specs.Script.Ending.{AppendsFront};

use crate::script::RunFault;
use std::io::{ErrorKind, Write};

/// Writes all the octets. Returns `RunFault::Write` if the writer fails, accepts no octets or was
/// called 4,294,967,295 times. On failure, a prefix of the octets may have been written. An
/// interrupted call is tried again.
pub fn put_all<W: Write>(writer: &mut W, octets: &[u8]) -> Result<(), RunFault>
    ensures done { OnOk result
        (Appends (W.contents writer.old) (W.contents writer.new) octets.now) }
    ensures cut { OnErr result
        (AppendsFront (W.contents writer.old) (W.contents writer.new) octets.now) }
    ensures fault { IfErr result (λ fault. fault ≡ RunFault.Write) }
{
    let mut rest = octets;
    for _ in 0..u32::MAX {
        if rest.is_empty() {
            return Ok(());
        }
        let count = put_some(writer, rest)?;
        rest = &rest[count..];
    }
    Err(RunFault::Write)
}

// Calls the writer once and returns the number of octets that it accepted, or 0 if the call was
// interrupted.
fn put_some<W: Write>(writer: &mut W, octets: &[u8]) -> Result<usize, RunFault>
    ensures bound { IfOk result (λ count. count ≤ length octets.now) }
    ensures taken { IfOk result
        (λ count. Appends (W.contents writer.old) (W.contents writer.new) (take count octets.now)) }
    ensures failed { OnErr result (Keeps (W.contents writer.old) (W.contents writer.new)) }
    ensures fault { IfErr result (λ fault. fault ≡ RunFault.Write) }
{
    match writer.write(octets) {
        Ok(0) => Err(RunFault::Write),
        Ok(count) => Ok(count),
        Err(error) if error.kind() == ErrorKind::Interrupted => Ok(0),
        Err(_) => Err(RunFault::Write),
    }
}
