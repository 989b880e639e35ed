//! Which Data answers an Interest (NDN Packet Format 0.3, "Name", "Implicit Digest Component").

ghost use Rattle.std.specs.Prelude.{◌≡◌, ◌↔◌, ℕ, Bool, List, IsTrue, option_map};
ghost use Rattle.sha2.specs.Sha256.{sha256};
ghost use Rattle.ndn_tlv.specs.Element.{Field};
ghost use Rattle.ndn_names.specs.Name.{IsPrefix};
ghost use Rattle.ndn_names.specs.View.{components};
ghost use Rattle.ndn_packets.specs.Answers.{full_name, Answers, AnswersByName, AsksFor, answers, begins_with};

use crate::data::Data;
use ndn_names::Name;
use ndn_names::component_type::IMPLICIT_SHA256_DIGEST;
use sha2::{Digest, Sha256};

impl Data<'_> {
    ghost use Rattle.ndn_packets.specs.View.{IsReadData};

    /// Returns the implicit digest: SHA-256 of the whole packet.
    pub fn digest(&self) -> [u8; 32]
        ensures exact { result ≡ sha256 self.now.whole.now }
        // The octets of `self.whole` are the Data.
        ensures packet { IsReadData self.now }
    {
        Sha256::digest(self.whole)
    }

    /// Returns whether the Data answers an Interest with the name `asked`. The Data answers if
    /// `asked` is the Data's name or full name. The full name is the name followed by the implicit
    /// digest. With CanBePrefix, the Data also answers if `asked` is a prefix of the name or of the
    /// full name. The digest is computed only if the answer depends on it.
    pub fn answers(&self, asked: Name<'_>, can_be_prefix: bool) -> bool
        ensures exact { IsTrue result
            ↔ Answers (components self.now.name) (sha256 self.now.whole.now)
            (components asked.entry) can_be_prefix }
        ensures test { result
            ≡ answers (components self.now.name) (sha256 self.now.whole.now)
            (components asked.entry) can_be_prefix }
        // The octets of `self.whole` are the Data, so their SHA-256 is the implicit digest of this
        // Data.
        ensures packet { IsReadData self.now }
    {
        match self.asked_digest(asked) {
            Some(digest) => digest == self.digest().as_slice(),
            None => self.answers_by_name(asked, can_be_prefix),
        }
    }

    /// Returns what `answers` returns, if `digest` is the implicit digest of the Data. A caller
    /// with many Interests can thus compute the digest only once. If `asked_digest` returns `None`
    /// for `asked`, `digest` may be any 32 octets.
    pub fn answers_with(&self, digest: &[u8; 32], asked: Name<'_>, can_be_prefix: bool) -> bool
        ensures exact { IsTrue result
            ↔ Answers (components self.now.name) digest.now (components asked.entry)
            can_be_prefix }
        ensures test { result
            ≡ answers (components self.now.name) digest.now (components asked.entry)
            can_be_prefix }
    {
        match self.asked_digest(asked) {
            Some(wanted) => wanted == digest.as_slice(),
            None => self.answers_by_name(asked, can_be_prefix),
        }
    }

    /// Returns the value of the last component of `asked`, if this component is an implicit digest
    /// and the components before it are the Data's name. Otherwise, returns `None`. Does not check
    /// whether the returned value is the digest of the Data. If the result is `None`, the result of
    /// `answers` does not depend on the digest of the Data.
    pub fn asked_digest<'n>(&self, asked: Name<'n>) -> Option<&'n [u8]>
        ensures { AsksFor (components self.now.name) (components asked.entry)
            (option_map (λ digest. digest.now) result) }
    {
        if !self.name.is_prefix_of(asked) {
            return None;
        }
        let len = self.name.len();
        if asked.len() != len + 1 {
            return None;
        }
        let last = asked.component(len)?;
        if last.kind != IMPLICIT_SHA256_DIGEST {
            return None;
        }
        Some(last.value)
    }

    /// Returns whether `asked` is the Data's name or, with CanBePrefix, a prefix of the Data's
    /// name.
    fn answers_by_name(&self, asked: Name<'_>, can_be_prefix: bool) -> bool
        ensures { IsTrue result
            ↔ AnswersByName (components self.now.name) (components asked.entry) can_be_prefix }
    {
        asked.is_prefix_of(self.name) && (can_be_prefix || self.name.is_prefix_of(asked))
    }
}

/// Law: the test `answers` decides `Answers`, and the test `begins_with` decides `IsPrefix`. If
/// `asked` is not the Data's name followed by an implicit digest, the result of `answers` is the
/// same for every digest.
pub fn answers_can_be_tested()
    ensures answers { (name asked : List Field) (digest : List ℕ) (can_be_prefix : Bool)
        → IsTrue (answers name digest asked can_be_prefix)
        ↔ Answers name digest asked can_be_prefix }
    ensures prefix { (a b : List Field) → IsTrue (begins_with a b) ↔ IsPrefix a b }
    ensures digest { (name asked : List Field) (digest other : List ℕ) (can_be_prefix : Bool)
        → ((d : List ℕ) → asked ≡ full_name name d → ⊥)
        → answers name digest asked can_be_prefix ≡ answers name other asked can_be_prefix }
{}
