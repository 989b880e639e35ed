ghost use Rattle.std.specs.Prelude.{◌≡◌, ◌↔◌, ℕ, List, [], true, Contains};
ghost use Rattle.pit_fib.specs.declared.hops.Hop.{Hop};
ghost use Rattle.pit_fib.specs.FaceSet.{has_face};
ghost use Rattle.pit_fib.specs.Tables.{ByFace};
ghost use Rattle.strategies.specs.declared.strategy.Ask.{Ask};
ghost use Rattle.strategies.specs.declared.strategy.Choice.TheVariants.{NoRoute, Send};
ghost use Rattle.strategies.specs.Choice.{chosen};
ghost use Rattle.strategies.specs.Eligible.{is_eligible, eligible};

use crate::strategy::Strategy;

/// Law: each face that a strategy chooses is the face of an eligible hop, and the face of each hop
/// that the strategy selects is chosen. A strategy chooses `NoRoute` exactly if no hop is eligible.
pub fn each_chosen_face_is_eligible<S: Strategy>()
    ensures eligible { (hops : List Hop) (used : ByFace) (ask : Ask) (faces : List ℕ) (face : ℕ)
        → chosen S.selection hops used ask ≡ Send faces → has_face face faces ≡ true
        → (hop : Hop) × Contains hops hop × (is_eligible ask hop ≡ true) × (hop.face ≡ face) }
    ensures whole { (hops : List Hop) (used : ByFace) (ask : Ask) (faces : List ℕ) (hop : Hop)
        → chosen S.selection hops used ask ≡ Send faces
        → Contains (S.selection (eligible ask hops) used ask.now) hop
        → has_face hop.face faces ≡ true }
    ensures no_route { (hops : List Hop) (used : ByFace) (ask : Ask)
        → (chosen S.selection hops used ask ≡ NoRoute) ↔ (eligible ask hops ≡ []) }
{}
