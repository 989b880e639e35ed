//! How some calls of the pending Interest table change an entry: the calls that remove records, and
//! the call `nacked`, which stores the reason of a Nack.

use crate::entry::Entry;
use crate::face_set::Faces;
use crate::flags::Flags;
use crate::row::Row;
use crate::slots::Revision;
use name_trie::{Look, Take};

/// A revision that removes the in-records whose deadline is `now` or earlier.
#[derive(Drop)]
pub struct Expiry {
    pub now: u64,
}

impl Revision for Expiry {
    ghost use Rattle.pit_fib.specs.Kept.{expired, living};

    ghost after = { λ how f s. living (expired how.now s) };

    fn apply(&self, _flags: Flags, mut entry: Entry) -> Option<Entry> {
        entry.expire(self.now);
        entry.living()
    }
}

/// A revision that removes the records of a face that was closed.
#[derive(Drop)]
pub struct Closing {
    pub face: u64,
}

impl Revision for Closing {
    ghost use Rattle.pit_fib.specs.Kept.{living, without_face};

    ghost after = { λ how f s. living (without_face how.face s) };

    fn apply(&self, _flags: Flags, mut entry: Entry) -> Option<Entry> {
        entry.close_face(self.face);
        entry.living()
    }
}

/// A revision that stores the reason of a Nack in the out-record that the face `face` has under one
/// key. If the face has no out-record with the Nack's Nonce under this key, no reason is stored.
#[derive(Drop)]
pub struct NackOf {
    pub flags: Flags,
    pub face: u64,
    pub nonce: [u8; 4],
    pub reason: u64,
}

impl Revision for NackOf {
    ghost use Rattle.pit_fib.specs.Kept.{living, nacked, only};

    ghost after = { λ how. only how.flags (λ s. living (nacked how.face how.nonce how.reason s)) };

    fn apply(&self, flags: Flags, mut entry: Entry) -> Option<Entry> {
        if !flags.is(self.flags) {
            return Some(entry);
        }
        entry.nacked(self.face, self.nonce, self.reason);
        entry.living()
    }
}

/// A revision that removes the in-record of a face under one key.
#[derive(Drop)]
pub struct Withdrawal {
    pub flags: Flags,
    pub face: u64,
}

impl Revision for Withdrawal {
    ghost use Rattle.pit_fib.specs.Kept.{living, only, withdrawn};

    ghost after = { λ how. only how.flags (λ s. living (withdrawn how.face s)) };

    fn apply(&self, flags: Flags, mut entry: Entry) -> Option<Entry> {
        if !flags.is(self.flags) {
            return Some(entry);
        }
        entry.withdraw(self.face);
        entry.living()
    }
}

/// A revision that removes all records of one key.
#[derive(Drop)]
pub struct Removal {
    pub flags: Flags,
}

impl Revision for Removal {
    ghost use Rattle.std.specs.Prelude.{None};
    ghost use Rattle.pit_fib.specs.Kept.{only};

    ghost after = { λ how. only how.flags (λ s. None) };

    fn apply(&self, flags: Flags, entry: Entry) -> Option<Entry> {
        if flags.is(self.flags) {
            None
        } else {
            Some(entry)
        }
    }
}

/// A revision of the entries of one name: it removes each entry whose key a Data answers. If the
/// name is the Data's name or full name (`is_own`), the Data answers all keys of the name. If the
/// name is a proper prefix of the Data's name, the Data answers only the keys with CanBePrefix.
#[derive(Drop)]
pub struct Answered {
    pub is_own: bool,
}

impl Revision for Answered {
    ghost use Rattle.pit_fib.specs.Kept.{unanswered};

    ghost after = { λ how. unanswered how.is_own };

    fn apply(&self, flags: Flags, entry: Entry) -> Option<Entry> {
        if self.is_own || flags.can_be_prefix {
            None
        } else {
            Some(entry)
        }
    }
}

/// Collects the faces of the Interests that a Data answers, and removes these Interests.
impl Take<Row> for Faces {
    ghost use Rattle.pit_fib.specs.Kept.{changed_row, unanswered, with_answered};

    ghost taken = { with_answered };

    ghost left = { λ is_own. changed_row (unanswered is_own) };

    fn take(&mut self, row: Row, is_own: bool) -> Option<Row> {
        row.add_answered(is_own, self);
        row.revised(&Answered { is_own })
    }
}

impl<'a> Look<'a, Row> for Faces {
    ghost use Rattle.pit_fib.specs.Kept.{with_answered};

    ghost seen = { with_answered };

    fn look(&mut self, row: &'a Row, is_own: bool) {
        row.add_answered(is_own, self);
    }
}
