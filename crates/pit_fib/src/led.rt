//! The faces that may have next hops or routes.
ghost use Rattle.std.specs.Prelude.{◌≡◌, ◌≢◌, ◌⊎◌, ℕ, false};
ghost use Rattle.std.specs.FinMap as map;
ghost use Rattle.pit_fib.specs.Led.{MayLead};

use crate::by_face::Used;
use std::marker::Model;

/// The faces to which a next hop or a route was added since they were last closed. After more than
/// 64 such faces at once, every face counts as one.
#[derive(Drop)]
pub struct Led {
    // The faces, each with the number 0.
    faces: Used,
    is_over: bool,
}

impl Model for Led {
    ghost use Rattle.pit_fib.specs.Led.{Led as PlainLed, led_code};

    ghost Value = { PlainLed };

    ghost coded = { led_code };

    ghost view = { λ l. record { faces = l.faces; is_over = l.is_over } };
}

impl Led {
    /// Returns the set without faces.
    pub fn new() -> Led
        ensures { result ≡ record { faces = map.empty; is_over = false } }
    {
        Led {
            faces: Used::new(),
            is_over: false,
        }
    }

    /// Returns whether the face may have next hops or routes.
    pub fn contains(&self, face: u64) -> bool
        ensures { result ≡ false → MayLead self.now face → ⊥ }
    {
        self.is_over || self.faces.get(face).is_some()
    }

    /// Adds a face.
    pub fn add(&mut self, face: u64)
        ensures kept { (f : ℕ) → MayLead self.old f → MayLead self.new f }
        ensures added { MayLead self.new face }
    {
        if !self.faces.insert(face, 0) {
            self.is_over = true;
        }
    }

    /// Removes a face.
    pub fn remove(&mut self, face: u64)
        ensures { (f : ℕ) → MayLead self.old f → f ≢ face → MayLead self.new f }
    {
        self.faces.remove(face);
    }
}
