ghost use Rattle.std.specs.Prelude.{◌≡◌, [], IfOk};
ghost use Rattle.std.specs.Vec.{vec_capacity};

use ndn_tlv::Memory;
use std::alloc::Global;
use std::marker::Model;

/// The number of faces for which the memory of a new entry has capacity.
pub const FEW: usize = 2;

/// Memory for values of faces. The memory has no values yet. The model of a `Room` is the number of
/// values for which it has capacity.
#[derive(Drop)]
pub struct Room<V> {
    rows: Vec<(u64, V)>,
}

impl<V> Model for Room<V> {
    ghost use Rattle.std.specs.Prelude.{◌≡◌, ℕ, []};
    ghost use Rattle.std.specs.Vec.{vec_capacity};
    ghost use Rattle.std.specs.Coded.{coded_ℕ};

    ghost Value = { ℕ };

    ghost coded = { coded_ℕ };

    ghost view = { λ r. vec_capacity r.rows };

    ghost invariant = { λ r. r.rows.items ≡ [] };
}

impl<V: Drop> Room<V> {
    /// Returns memory with capacity for no values.
    pub fn none(alloc: Global) -> Room<V>
        ensures { result ≡ 0 }
    {
        Room {
            rows: Vec::new(alloc),
        }
    }

    /// Allocates memory for `count` values.
    pub fn new(alloc: Global, count: usize) -> Result<Room<V>, Memory>
        ensures { IfOk result (λ room. room ≡ count) }
    {
        let rows = Vec::with_capacity(alloc, count)?;
        Ok(Room { rows })
    }

    /// Returns the number of values for which there is capacity.
    pub fn count(&self) -> usize
        ensures { result ≡ self.now }
    {
        self.rows.capacity()
    }

    /// Returns the memory as a vector without elements.
    pub fn into_rows(self) -> Vec<(u64, V)>
        ensures items { result.items ≡ [] }
        ensures room { vec_capacity result ≡ self }
    {
        self.rows
    }
}
