ghost use Rattle.std.specs.Prelude.{◌≡◌, ◌↔◌, refl};
ghost use Rattle.std.specs.declared.cmp.Ordering.TheVariants as answers;
ghost use Rattle.std.specs.Cmp.{IsTotalOrder, partial_equiv_from_equiv, partial_order_from_total, eq_by_cmp_equiv};
ghost use Rattle.std.specs.FinMap.{IsAntisymmetric};
ghost use Rattle.std.specs.Ordering.{eq_by_cmp, as_partial_cmp};
ghost use Rattle.ndn_packets.specs.Key.{PlainKey, key_cmp, key_view_cmp, key_view_cmp-total, key_view_writes, key_view_writes-alike};

use ndn_names::Name;
use std::cmp::Ordering;
use std::hash::{Hash, Hasher};

/// The key of an Interest. Interests with the same key ask for the same Data (NFD Developer's
/// Guide, "Pending Interest Table").
#[derive(Clone, Copy, Debug)]
pub struct Key<'a> {
    /// The name.
    pub name: Name<'a>,
    /// Whether the Interest has CanBePrefix.
    pub can_be_prefix: bool,
    /// Whether the Interest has MustBeFresh.
    pub must_be_fresh: bool,
}

impl Key<'_> {
    ghost use Rattle.std.specs.Prelude.{◌≡◌};
    ghost use Rattle.ndn_packets.specs.Key.{plain_key, key_cmp};

    /// Compares two keys by name in canonical order (NDN Packet Format 0.3, "Name", "Canonical
    /// Order"), then by CanBePrefix, then by MustBeFresh. An unset flag comes before a set flag.
    pub fn compare(&self, other: Key<'_>) -> Ordering
        ensures { result ≡ key_cmp (plain_key self.now) (plain_key other.entry) }
    {
        let flags = self
            .can_be_prefix
            .cmp(&other.can_be_prefix)
            .then(self.must_be_fresh.cmp(&other.must_be_fresh));
        self.name.compare(other.name).then(flags)
    }
}

impl PartialEq for Key<'_> {
    ghost eq = { eq_by_cmp key_view_cmp };

    ghost laws = { partial_equiv_from_equiv (eq_by_cmp_equiv key_view_cmp-total) };

    fn eq(&self, other: &Self) -> bool {
        self.cmp(other).is_eq()
    }
}

impl Eq for Key<'_> {
    ghost laws = { eq_by_cmp_equiv key_view_cmp-total };
}

impl PartialOrd for Key<'_> {
    ghost partial_cmp = { as_partial_cmp key_view_cmp };

    ghost laws = { partial_order_from_total key_view_cmp-total };

    fn partial_cmp(&self, other: &Self) -> Option<Ordering> {
        Some(self.cmp(other))
    }
}

impl Ord for Key<'_> {
    ghost cmp = { key_view_cmp };

    ghost total = { key_view_cmp-total };

    ghost matches_partial_cmp = { λ _ _. refl };

    ghost matches_eq = { λ _ _. refl };

    fn cmp(&self, other: &Self) -> Ordering {
        self.compare(*other)
    }
}

impl Hash for Key<'_> {
    ghost hash_input = { key_view_writes };

    ghost respects_eq = { key_view_writes-alike };

    fn hash<H: Hasher>(&self, state: &mut H) {
        self.name.hash(state);
        self.can_be_prefix.hash(state);
        self.must_be_fresh.hash(state);
    }
}

/// Law: the keys of Interests can be the keys of ordered maps, because `key_cmp` is a total order.
/// Keys that compare as equal are equal.
pub fn interest_keys_can_be_keys()
    ensures total { IsTotalOrder key_cmp }
    ensures antisymmetric { IsAntisymmetric key_cmp }
    ensures equal { (a b : PlainKey) → (key_cmp a b ≡ answers.Equal) ↔ (a ≡ b) }
{}
