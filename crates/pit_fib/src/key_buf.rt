ghost use Rattle.std.specs.Prelude.{◌≡◌, IfOk};
ghost use Rattle.ndn_packets.specs.Key.{plain_key};
ghost use Rattle.pit_fib.specs.Cause.{same_key};

use ndn_names::NameBuf;
use ndn_packets::Key;
use ndn_tlv::Memory;
use std::alloc::Global;
use std::marker::Model;

/// A key that owns its name.
#[derive(Drop)]
pub struct KeyBuf {
    name: NameBuf,
    can_be_prefix: bool,
    must_be_fresh: bool,
}

impl Model for KeyBuf {
    ghost use Rattle.ndn_packets.specs.Key.{PlainKey, key_code};

    ghost Value = { PlainKey };

    ghost coded = { key_code };

    ghost view = { λ k. record {
      name = k.name;
      can_be_prefix = k.can_be_prefix;
      must_be_fresh = k.must_be_fresh;
    } };
}

impl KeyBuf {
    pub fn from_key(alloc: Global, key: Key<'_>) -> Result<KeyBuf, Memory>
        ensures { IfOk result (λ copy. copy ≡ plain_key key.entry) }
    {
        let name = NameBuf::from_name(alloc, key.name)?;
        Ok(KeyBuf {
            name,
            can_be_prefix: key.can_be_prefix,
            must_be_fresh: key.must_be_fresh,
        })
    }

    /// Returns the key as a `Key`, which borrows the name.
    pub fn view(&self) -> Key<'_>
        ensures { plain_key result ≡ self.now }
    {
        Key {
            name: self.name.view(),
            can_be_prefix: self.can_be_prefix,
            must_be_fresh: self.must_be_fresh,
        }
    }

    /// Returns whether this key is equal to `key`.
    pub fn is(&self, key: Key<'_>) -> bool
        ensures { result ≡ same_key self.now (plain_key key.entry) }
    {
        self.view().compare(key).is_eq()
    }
}
