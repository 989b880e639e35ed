ghost use Rattle.std.specs.Prelude.{◌≡◌, ◌↔◌, IsTrue, IfOk, Some};
ghost use Rattle.std.specs.Ordering.{eq_by_cmp};
ghost use Rattle.replay_guard.specs.Guard.{signer_of, signer_cmp, raised, IsAfterLatest};

use crate::signer::Signer;
use ndn_names::NameBuf;
use ndn_tlv::Memory;
use std::alloc::Global;
use std::marker::Model;

/// The recorded state of a signer: the greatest time and the greatest sequence number of its
/// recorded commands.
#[derive(Drop)]
pub struct Row {
    key: Option<NameBuf>,
    time: u64,
    number: Option<u64>,
}

impl Model for Row {
    ghost use Rattle.std.specs.Coded.{coded×};
    ghost use Rattle.replay_guard.specs.Freshness.{Signer};
    ghost use Rattle.replay_guard.specs.Guard.{Latest, signer_code, latest_code};

    ghost Value = { Signer × Latest };

    ghost coded = { coded× signer_code latest_code };

    ghost view = { λ r. (r.key, record { time = r.time; number = r.number }) };
}

impl Row {
    pub fn new(key: Option<NameBuf>, time: u64, number: Option<u64>) -> Row
        ensures { result ≡ (key, record { time = time; number = number }) }
    {
        Row { key, time, number }
    }

    /// Returns the signer of the row.
    pub fn signer(&self) -> Signer<'_>
        ensures { signer_of result ≡ self.now.0 }
    {
        match &self.key {
            None => Signer::Digest,
            Some(key) => Signer::Key(key.view()),
        }
    }

    /// Returns whether both rows have the same time and number.
    pub fn is_same_time(&self, other: &Row) -> bool
        ensures { IsTrue result → self.now.1 ≡ other.now.1 }
    {
        self.time == other.time && self.number == other.number
    }

    pub fn is_of(&self, signer: Signer<'_>) -> bool
        ensures { result ≡ eq_by_cmp signer_cmp (signer_of signer.entry) self.now.0 }
    {
        is_key(&self.key, signer)
    }

    /// Returns whether a command with this time and number is newer than the recorded state.
    pub fn is_before(&self, time: u64, number: Option<u64>) -> bool
        ensures { IsTrue result ↔ IsAfterLatest (Some self.now.1) time number }
    {
        let rises = match (self.number, number) {
            (Some(m), Some(n)) => m < n,
            _ => true,
        };
        self.time < time && rises
    }

    /// Records a command with this time and number.
    pub fn raise(&mut self, time: u64, number: Option<u64>)
        ensures { self.new ≡ (self.old.0, raised (Some self.old.1) time number) }
    {
        self.time = self.time.max(time);
        self.number = match (self.number, number) {
            (Some(m), Some(n)) => Some(m.max(n)),
            (Some(m), None) => Some(m),
            (None, number) => number,
        };
    }
}

/// Returns whether `key` is the key of `signer`. The key of DigestSha256 is `None`.
pub fn is_key(key: &Option<NameBuf>, signer: Signer<'_>) -> bool
    ensures { result ≡ eq_by_cmp signer_cmp (signer_of signer.entry) key.now }
{
    match (signer, key) {
        (Signer::Digest, None) => true,
        (Signer::Key(name), Some(key)) => name.compare(key.view()).is_eq(),
        _ => false,
    }
}

/// Returns a copy of the signer's key, or `None` for DigestSha256.
pub fn key_of(alloc: Global, signer: Signer<'_>) -> Result<Option<NameBuf>, Memory>
    ensures { IfOk result (λ key. key ≡ signer_of signer.entry) }
{
    match signer {
        Signer::Digest => Ok(None),
        Signer::Key(name) => Ok(Some(NameBuf::from_name(alloc, name)?)),
    }
}
