//! Numbers in octets, the most significant octet first.
ghost use Rattle.std.specs.Prelude.{◌≡◌, ◌+◌, ◌*◌, ◌^◌, ◌<◌, ◌≤◌, length};
ghost use Rattle.p256.specs.Integer.{value};
ghost use Rattle.p256.specs.Octets.{big_endian};

use crate::integer::{U256, ZERO};
use crate::product::add_scaled;

/// `number`, with one octet more as its least significant octet.
fn with_octet(number: U256, octet: u8) -> U256
    requires { value number < 2 ^ 248 }
    ensures { value result ≡ 256 * value number + octet }
{
    let last = U256 {
        w0: u64::from(octet),
        w1: 0,
        w2: 0,
        w3: 0,
    };
    add_scaled(last, number, 256).0
}

/// Returns the number that octets stand for (SEC 1, section 2.3.8). There are at most 32 octets.
pub fn number_of(octets: &[u8]) -> U256
    requires { length octets.now ≤ 32 }
    ensures { value result ≡ big_endian octets.now }
{
    let mut number = ZERO;
    for octet in octets {
        number = with_octet(number, *octet);
    }
    number
}
