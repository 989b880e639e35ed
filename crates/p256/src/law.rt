ghost use Rattle.std.specs.Prelude.{◌≡◌, ◌^◌, ◌<◌, ℕ, Bool, List, IsTrue};
ghost use Rattle.p256.specs.Curve.{IsOnCurve, Triple, combined, generator, sum};
ghost use Rattle.p256.specs.Der.{IsDer};
ghost use Rattle.p256.specs.Group.{IsGroupLaw, multiple};
ghost use Rattle.p256.specs.Octets.{AreOctets};
ghost use Rattle.p256.specs.Order.{order};

/// Law: octets are the DER form of at most one pair of numbers, and a pair of numbers has at most
/// one DER form.
pub fn signatures_have_one_form()
    ensures one_pair { (octets : List ℕ) (r s m n : ℕ)
        → IsDer octets r s → IsDer octets m n → (r ≡ m) × (s ≡ n) }
    ensures one_form { (a b : List ℕ) (r s : ℕ)
        → AreOctets a → AreOctets b → IsDer a r s → IsDer b r s → a ≡ b }
{}

/// Law: the base point is a point of the curve, and its multiple by the order is the point at
/// infinity.
pub fn base_point_has_the_order()
    ensures on_curve { IsOnCurve generator.x generator.y }
    ensures infinite { (combined 256 order 0 generator).z ≡ 0 }
{}

/// Law: if `sum` is the law of a commutative group of points, then `combined` is the sum of the
/// two multiples.
pub fn combined_is_a_sum_of_multiples()
    ensures { (is_point : Triple → Bool) (are_same : Triple → Triple → Bool) (q : Triple) (u v : ℕ)
        → IsGroupLaw is_point are_same → IsTrue (is_point q) → u < 2 ^ 256 → v < 2 ^ 256
        → IsTrue (are_same (combined 256 u v q) (sum (multiple u generator) (multiple v q))) }
{}
