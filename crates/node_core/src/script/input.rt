ghost use Rattle.std.specs.Prelude.{◌≡◌, ◌<◌, ◌≤◌, length, take, IfOk, IfErr, IfSome, IfNone};
ghost use Rattle.std.specs.Io.KnownBytes.{Consumes, Keeps, IsAtEnd};

use crate::script::RunFault;
use std::io::{ErrorKind, Read};

/// Reads octets into `chunk`. Returns the number of octets that were read, or 0 if the read was
/// interrupted. Returns `None` at the end of the input.
pub fn read_some<R: Read>(reader: &mut R, chunk: &mut [u8]) -> Result<Option<usize>, RunFault>
    requires { 0 < length chunk.old }
    ensures bound { IfOk result (λ read. IfSome read (λ count. count ≤ length chunk.new)) }
    ensures given { IfOk result
        (λ read. IfSome read
        (λ count. Consumes (R.remaining reader.old) (R.remaining reader.new)
        (take count chunk.new))) }
    ensures end { IfOk result
        (λ read. IfNone read
        (Keeps (R.remaining reader.old) (R.remaining reader.new)
        × IsAtEnd (R.remaining reader.new))) }
    ensures failed { IfErr result
        (λ fault. (fault ≡ RunFault.Read)
        × Keeps (R.remaining reader.old) (R.remaining reader.new)) }
{
    match reader.read(chunk) {
        Ok(0) => Ok(None),
        Ok(count) => Ok(Some(count)),
        Err(error) if error.kind() == ErrorKind::Interrupted => Ok(Some(0)),
        Err(_) => Err(RunFault::Read),
    }
}
