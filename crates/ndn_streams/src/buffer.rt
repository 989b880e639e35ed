ghost use Rattle.std.specs.Prelude.{◌≡◌, ◌+◌, ◌≤◌, ◌++◌, length, vec_len};
ghost use Rattle.std.specs.Vec.{vec_capacity};

/// Appends octets for which there is capacity.
#[inline(always)]
pub(crate) fn append(buffer: &mut Vec<u8>, octets: &[u8])
    requires { vec_len buffer.old + length octets.now ≤ vec_capacity buffer.old }
    ensures items { buffer.new.items ≡ buffer.old.items ++ octets.now }
    ensures capacity { vec_capacity buffer.old ≤ vec_capacity buffer.new }
{
    let _ = buffer.extend_from_slice(octets);
}
