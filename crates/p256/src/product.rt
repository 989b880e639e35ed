//! Products of 256-bit numbers.
ghost use Rattle.std.specs.Prelude.{◌≡◌, ◌+◌, ◌*◌, ◌^◌};
ghost use Rattle.p256.specs.Integer.{value, wide_value};

use crate::integer::{U256, ZERO};
use crate::word::mul_carry;

/// A number of 512 bits in two halves.
#[derive(Clone, Copy, Debug, PartialEq, Eq)]
pub struct U512 {
    pub low: U256,
    pub high: U256,
}

/// `base + a * b`, as a number and its fifth word.
#[inline(always)]
pub fn add_scaled(base: U256, a: U256, b: u64) -> (U256, u64)
    ensures { value result.0 + 2 ^ 256 * result.1 ≡ value base + value a * b }
{
    let (w0, carry0) = mul_carry(base.w0, a.w0, b, 0);
    let (w1, carry1) = mul_carry(base.w1, a.w1, b, carry0);
    let (w2, carry2) = mul_carry(base.w2, a.w2, b, carry1);
    let (w3, carry3) = mul_carry(base.w3, a.w3, b, carry2);
    (U256 { w0, w1, w2, w3 }, carry3)
}

/// The words of `x` moved down by one, with `top` as the most significant.
#[inline(always)]
pub fn shift_in(x: U256, top: u64) -> U256
    ensures { 2 ^ 64 * value result + x.w0 ≡ value x + 2 ^ 256 * top }
{
    U256 {
        w0: x.w1,
        w1: x.w2,
        w2: x.w3,
        w3: top,
    }
}

/// `a * b`.
#[inline(always)]
pub fn product(a: U256, b: U256) -> U512
    ensures { wide_value result ≡ value a * value b }
{
    let (row0, top0) = add_scaled(ZERO, a, b.w0);
    let (row1, top1) = add_scaled(shift_in(row0, top0), a, b.w1);
    let (row2, top2) = add_scaled(shift_in(row1, top1), a, b.w2);
    let (row3, top3) = add_scaled(shift_in(row2, top2), a, b.w3);
    U512 {
        low: U256 {
            w0: row0.w0,
            w1: row1.w0,
            w2: row2.w0,
            w3: row3.w0,
        },
        high: shift_in(row3, top3),
    }
}
