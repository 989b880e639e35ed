//! Names and components as keys of maps: equality, canonical order and hash (NDN Packet Format 0.3,
//! "Name", "Canonical Order").

ghost use Rattle.std.specs.Prelude.{refl};
ghost use Rattle.std.specs.Ordering.{eq_by_cmp, as_partial_cmp};
ghost use Rattle.std.specs.Cmp.{partial_equiv_from_equiv, partial_order_from_total, eq_by_cmp_equiv};
ghost use Rattle.ndn_names.specs.Order.{name_cmp};
ghost use Rattle.ndn_names.specs.Key.{name_cmp-total, name_writes, name_writes-alike};
ghost use Rattle.ndn_names.specs.ViewKey.{view_cmp, view_cmp-total, view_writes, view_writes-alike, component_view_cmp, component_view_cmp-total, component_view_writes, component_view_writes-alike};

use crate::component::Component;
use crate::name::Name;
use crate::name_buf::NameBuf;
use std::cmp::Ordering;
use std::hash::{Hash, Hasher};

impl PartialEq for NameBuf {
    ghost eq = { eq_by_cmp name_cmp };

    ghost laws = { partial_equiv_from_equiv (eq_by_cmp_equiv name_cmp-total) };

    fn eq(&self, other: &NameBuf) -> bool {
        self.view().as_octets() == other.view().as_octets()
    }
}

impl Eq for NameBuf {
    ghost laws = { eq_by_cmp_equiv name_cmp-total };
}

impl PartialOrd for NameBuf {
    ghost partial_cmp = { as_partial_cmp name_cmp };

    ghost laws = { partial_order_from_total name_cmp-total };

    fn partial_cmp(&self, other: &NameBuf) -> Option<Ordering> {
        Some(self.cmp(other))
    }
}

impl Ord for NameBuf {
    ghost cmp = { name_cmp };

    ghost total = { name_cmp-total };

    ghost matches_partial_cmp = { λ _ _. refl };

    ghost matches_eq = { λ _ _. refl };

    fn cmp(&self, other: &NameBuf) -> Ordering {
        self.view().compare(other.view())
    }
}

impl Hash for NameBuf {
    ghost hash_input = { name_writes };

    ghost respects_eq = { name_writes-alike };

    fn hash<H: Hasher>(&self, state: &mut H) {
        self.view().as_octets().hash(state);
    }
}

/// Two `Name`s are equal exactly if their components are equal.
impl PartialEq for Name<'_> {
    ghost eq = { eq_by_cmp view_cmp };

    ghost laws = { partial_equiv_from_equiv (eq_by_cmp_equiv view_cmp-total) };

    fn eq(&self, other: &Self) -> bool {
        self.as_octets() == other.as_octets()
    }
}

impl Eq for Name<'_> {
    ghost laws = { eq_by_cmp_equiv view_cmp-total };
}

impl PartialOrd for Name<'_> {
    ghost partial_cmp = { as_partial_cmp view_cmp };

    ghost laws = { partial_order_from_total view_cmp-total };

    fn partial_cmp(&self, other: &Self) -> Option<Ordering> {
        Some(self.cmp(other))
    }
}

impl Ord for Name<'_> {
    ghost cmp = { view_cmp };

    ghost total = { view_cmp-total };

    ghost matches_partial_cmp = { λ _ _. refl };

    ghost matches_eq = { λ _ _. refl };

    fn cmp(&self, other: &Self) -> Ordering {
        self.compare(*other)
    }
}

impl Hash for Name<'_> {
    ghost hash_input = { view_writes };

    ghost respects_eq = { view_writes-alike };

    fn hash<H: Hasher>(&self, state: &mut H) {
        self.as_octets().hash(state);
    }
}

impl PartialEq for Component<'_> {
    ghost eq = { eq_by_cmp component_view_cmp };

    ghost laws = { partial_equiv_from_equiv (eq_by_cmp_equiv component_view_cmp-total) };

    fn eq(&self, other: &Self) -> bool {
        self.cmp(other).is_eq()
    }
}

impl Eq for Component<'_> {
    ghost laws = { eq_by_cmp_equiv component_view_cmp-total };
}

impl PartialOrd for Component<'_> {
    ghost partial_cmp = { as_partial_cmp component_view_cmp };

    ghost laws = { partial_order_from_total component_view_cmp-total };

    fn partial_cmp(&self, other: &Self) -> Option<Ordering> {
        Some(self.cmp(other))
    }
}

impl Ord for Component<'_> {
    ghost cmp = { component_view_cmp };

    ghost total = { component_view_cmp-total };

    ghost matches_partial_cmp = { λ _ _. refl };

    ghost matches_eq = { λ _ _. refl };

    fn cmp(&self, other: &Self) -> Ordering {
        let lens = self.value.len().cmp(&other.value.len());
        match self.kind.cmp(&other.kind).then(lens) {
            Ordering::Equal => self.value.cmp(other.value),
            order => order,
        }
    }
}

impl Hash for Component<'_> {
    ghost hash_input = { component_view_writes };

    ghost respects_eq = { component_view_writes-alike };

    fn hash<H: Hasher>(&self, state: &mut H) {
        self.kind.hash(state);
        self.value.hash(state);
    }
}
