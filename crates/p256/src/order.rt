//! Arithmetic modulo the order.
ghost use Rattle.std.specs.Prelude.{◌≡◌, ◌*◌, ◌%◌, ◌^◌, ◌≤◌};
ghost use Rattle.p256.specs.Order.{order};
ghost use Rattle.p256.specs.Scalars.{inverse_of, residue};
ghost use Rattle.p256.specs.Integer.{value};

use crate::integer::{U256, ZERO, add};
use crate::montgomery::{Modulus, multiply, reduce};
use crate::product::U512;
use crate::scalar::Scalar;

/// The order of the curve: the number of its points.
pub const ORDER: Modulus = Modulus {
    number: U256 {
        w0: 0xf3b9_cac2_fc63_2551,
        w1: 0xbce6_faad_a717_9e84,
        w2: 0xffff_ffff_ffff_ffff,
        w3: 0xffff_ffff_0000_0000,
    },
    inverse: 0xccd1_c8aa_ee00_bc4f,
};

/// 2^512 modulo the order, the square of the factor of Montgomery's form.
const RADIX_SQUARED: U256 = U256 {
    w0: 0x8324_4c95_be79_eea2,
    w1: 0x4699_799c_49bd_6fa6,
    w2: 0x2845_b239_2b6b_ec59,
    w3: 0x66e1_2d94_f3d9_5620,
};

/// One, in Montgomery's form.
const ONE: Scalar = Scalar {
    words: U256 {
        w0: 0x0c46_353d_039c_daaf,
        w1: 0x4319_0552_58e8_617b,
        w2: 0,
        w3: 0xffff_ffff,
    },
};

/// The order minus 2.
const EXPONENT: U256 = U256 {
    w0: 0xf3b9_cac2_fc63_254f,
    w1: 0xbce6_faad_a717_9e84,
    w2: 0xffff_ffff_ffff_ffff,
    w3: 0xffff_ffff_0000_0000,
};

impl Scalar {
    /// The scalar that `x` stands for.
    pub fn new(x: U256) -> Scalar
        ensures { residue result ≡ value x % order }
    {
        Scalar {
            words: multiply(RADIX_SQUARED, x, ORDER),
        }
    }

    /// The least number that stands for the scalar.
    pub fn to_words(self) -> U256
        ensures { value result ≡ residue self }
    {
        reduce(
            U512 {
                low: self.words,
                high: ZERO,
            },
            ORDER,
        )
    }

    /// The product of two scalars.
    pub fn times(self, other: Scalar) -> Scalar
        ensures { residue result ≡ (residue self * residue other) % order }
    {
        Scalar {
            words: multiply(self.words, other.words, ORDER),
        }
    }

    /// The square, times `base` if the bit is set.
    fn with_bit(self, base: Scalar, bit: u64) -> Scalar
        requires { bit ≤ 1 }
        ensures { residue result ≡ (residue self * residue self * residue base ^ bit) % order }
    {
        let square = self.times(self);
        if bit == 0 { square } else { square.times(base) }
    }

    /// The inverse modulo the order, as a power (Fermat's little theorem). The inverse of 0 is 0.
    pub fn inverse(self) -> Scalar
        ensures { residue result ≡ inverse_of (residue self) }
    {
        let mut power = ONE;
        let mut rest = EXPONENT;
        for _taken in 0..256u32 {
            let (next, bit) = add(rest, rest);
            rest = next;
            power = power.with_bit(self, bit);
        }
        power
    }
}
