//! What a node has for its faces.
ghost use Rattle.std.specs.Prelude.{ℕ, Bool};

/// What a node has for its faces. A Far face for which it has nothing closes as soon as its place
/// is needed, since nothing is lost with it.
pub trait Holdings {
    // `Answers node face told`: `told` is an answer of the node to the question whether it has
    // something for this face.
    ghost Answers: { Self → ℕ → Bool → Type 0 };

    /// Returns whether the node has something for this face that it would lose if the face closed,
    /// such as a pending Interest or a route. A node that cannot tell returns true. A table asks
    /// once for each client at most, so the answer should take constant time.
    fn holds(&self, face: u64) -> bool
        ensures { Answers self.now face result };
}
