//! The elements of the field of P-256.
ghost use Rattle.std.specs.Prelude.{◌<◌};
ghost use Rattle.p256.specs.Prime.{prime};
ghost use Rattle.p256.specs.Integer.{value};

use crate::integer::U256;

/// An integer modulo the prime, in Montgomery's form.
#[derive(Clone, Copy, Debug, PartialEq, Eq)]
pub struct FieldElement {
    pub(crate) words: U256,
    ghost below: { value words < prime },
}
