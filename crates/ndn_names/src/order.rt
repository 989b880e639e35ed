//! The laws of canonical order (NDN Packet Format 0.3, "Name", "Canonical Order").

ghost use Rattle.std.specs.Prelude.{◌≡◌, ◌⊎◌, ◌↔◌, ℕ, List};
ghost use Rattle.std.specs.declared.cmp.Ordering.TheVariants as answers;
ghost use Rattle.std.specs.Cmp.{IsTotalOrder};
ghost use Rattle.std.specs.Cmp.Lexicographic.{slice_cmp};
ghost use Rattle.std.specs.FinMap.{IsAntisymmetric};
ghost use Rattle.std.specs.Ordering.{nat_cmp};
ghost use Rattle.ndn_tlv.specs.Element.{Field};
ghost use Rattle.ndn_names.specs.Name.{IsNameValue};
ghost use Rattle.ndn_names.specs.Order.{Less, name_cmp};

/// Law: `name_cmp` returns `Less` exactly if the first name is less than the second name in
/// canonical order. `name_cmp` returns `Equal` exactly if the names are equal, and `Greater`
/// exactly if the second name is less than the first name.
pub fn comparison_tells_the_order()
    ensures less { (a b : List Field) → (name_cmp a b ≡ answers.Less) ↔ Less a b }
    ensures equal { (a b : List Field) → (name_cmp a b ≡ answers.Equal) ↔ (a ≡ b) }
    ensures greater { (a b : List Field) → (name_cmp a b ≡ answers.Greater) ↔ Less b a }
{}

/// Law: canonical order is a strict total order.
pub fn canonical_order_is_total()
    ensures irreflexive { (a : List Field) → ¬ Less a a }
    ensures transitive { (a b c : List Field) → Less a b → Less b c → Less a c }
    ensures total { (a b : List Field) → Less a b ⊎ ((a ≡ b) ⊎ Less b a) }
{}

/// Law: names can be the keys of maps that are ordered by `name_cmp`.
pub fn names_can_be_keys()
    ensures total { IsTotalOrder name_cmp }
    ensures antisymmetric { IsAntisymmetric name_cmp }
{}

/// Law: comparing the TLV-VALUEs of two names octet by octet gives the canonical order of the
/// names.
pub fn octets_are_in_canonical_order()
    ensures { (u v : List ℕ) (a b : List Field) → IsNameValue u a → IsNameValue v b
        → slice_cmp nat_cmp u v ≡ name_cmp a b }
{}
