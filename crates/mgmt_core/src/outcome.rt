ghost use Rattle.std.specs.Prelude.{◌≡◌, []};

use std::alloc::Global;
use std::marker::Model;

/// A buffer of octets.
#[derive(Debug, Drop)]
pub struct Octets {
    octets: Vec<u8>,
}

impl Model for Octets {
    ghost use Rattle.std.specs.Prelude.{List, ℕ};

    ghost Value = { List ℕ };

    ghost view = { λ o. o.octets.items };
}

impl Octets {
    /// Returns an empty buffer.
    pub(crate) fn new(alloc: Global) -> Octets
        ensures { result ≡ [] }
    {
        Octets {
            octets: Vec::new(alloc),
        }
    }

    /// Returns a buffer with these octets.
    pub(crate) fn of(octets: Vec<u8>) -> Octets
        ensures { result ≡ octets.items }
    {
        Octets { octets }
    }

    /// Returns the octets of the buffer.
    pub fn as_slice(&self) -> &[u8]
        ensures { result.now ≡ self.now }
    {
        &self.octets
    }
}

/// The outcome of a command: its status code and the body of the reply. The body is empty unless
/// the status is 200.
#[derive(Debug, Drop)]
pub struct Applied {
    pub status: u16,
    pub body: Octets,
}
