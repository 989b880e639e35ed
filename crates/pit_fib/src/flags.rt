ghost use Rattle.std.specs.Prelude.{◌≡◌};
ghost use Rattle.ndn_packets.specs.Key.{plain_key};
ghost use Rattle.pit_fib.specs.Flags.{flags, flags_of, same_flags};

use ndn_packets::Key;

/// The two flags of a key, which distinguish the keys of one name.
#[derive(Clone, Copy)]
pub struct Flags {
    pub can_be_prefix: bool,
    pub must_be_fresh: bool,
}

impl Flags {
    pub fn new(can_be_prefix: bool, must_be_fresh: bool) -> Flags
        ensures { result ≡ flags can_be_prefix must_be_fresh }
    {
        Flags {
            can_be_prefix,
            must_be_fresh,
        }
    }

    pub fn of(key: Key<'_>) -> Flags
        ensures { result ≡ flags_of (plain_key key.entry) }
    {
        Flags {
            can_be_prefix: key.can_be_prefix,
            must_be_fresh: key.must_be_fresh,
        }
    }

    /// Returns whether `self` and `other` agree in both flags.
    pub fn is(self, other: Flags) -> bool
        ensures { result ≡ same_flags self other }
    {
        self.can_be_prefix == other.can_be_prefix && self.must_be_fresh == other.must_be_fresh
    }
}
