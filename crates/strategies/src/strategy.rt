ghost use Rattle.std.specs.Prelude.{◌≡◌, ℕ, List, All, Contains};
ghost use Rattle.pit_fib.specs.declared.hops.Hop.{Hop};
ghost use Rattle.pit_fib.specs.Tables.{ByFace};
ghost use Rattle.strategies.specs.Choice.{chosen};
ghost use Rattle.strategies.specs.Selection.{Selection};

use pit_fib::{Faces, Hops, Used};

/// The Interest for which a strategy chooses next hops.
#[derive(Clone, Copy, Debug, PartialEq, Eq)]
pub struct Ask {
    /// The face that the Interest came from, if the Interest came from a face.
    pub asker: Option<u64>,
    /// Whether the name of the Interest begins with `/localhost`. Such an Interest stays on this
    /// machine.
    pub localhost: bool,
    /// Whether the HopLimit of the Interest has become 0. Such an Interest is sent to no other
    /// machine.
    pub hop_zero: bool,
    /// The present moment, in milliseconds since 1970.
    pub now: u64,
}

/// Where an Interest is sent.
#[derive(Drop)]
pub enum Choice {
    /// No next hop may get the Interest.
    NoRoute,
    /// The Interest is sent to these faces. The set of faces may be empty.
    Send(Faces),
}

/// Chooses where an Interest is sent (NFD Developer's Guide, "Strategies").
pub trait Strategy {
    /// The hops that the strategy selects. The arguments are the eligible hops, the moments at
    /// which faces were last used, and the present moment.
    ghost selection: { Selection };

    /// Chooses among next hops. The hops to Local faces have been marked by `Hops::mark`. For each
    /// face to which an Interest of the PIT entry was sent, `used` has the moment, in milliseconds
    /// since 1970, at which such an Interest was last sent to the face. The face of each hop counts
    /// as open, since `Fib::close_face` removes the hops of a closed face.
    fn choose(&self, hops: &Hops, used: &Used, ask: Ask) -> Choice
        ensures { result ≡ chosen selection hops.now used.now ask };

    /// The hops that the strategy selects are among the eligible hops.
    ghost takes_eligible: { (hops : List Hop) (used : ByFace) (now : ℕ)
        → All (Contains hops) (selection hops used now) };
}
