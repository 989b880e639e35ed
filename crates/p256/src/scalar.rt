//! The scalars of P-256.
ghost use Rattle.std.specs.Prelude.{◌<◌};
ghost use Rattle.p256.specs.Order.{order};
ghost use Rattle.p256.specs.Integer.{value};

use crate::integer::U256;

/// An integer modulo the order, in Montgomery's form.
#[derive(Clone, Copy, Debug, PartialEq, Eq)]
pub struct Scalar {
    pub(crate) words: U256,
    ghost below: { value words < order },
}
