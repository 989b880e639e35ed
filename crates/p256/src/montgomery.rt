//! Products modulo an odd number, in Montgomery's form: a number `x` is held as `2^256 x`.
ghost use Rattle.std.specs.Prelude.{◌≡◌, ◌+◌, ◌*◌, ◌%◌, ◌^◌, ◌<◌, ◌≤◌};
ghost use Rattle.p256.specs.Integer.{value, wide_value};

use crate::integer::{U256, add, reduce_once};
use crate::product::{U512, add_scaled, product, shift_in};

/// An odd number, and the inverse that a division by 2^64 needs.
#[derive(Clone, Copy, Debug, PartialEq, Eq)]
pub struct Modulus {
    pub number: U256,
    /// The word whose product with the lowest word of `number` is one below a multiple of 2^64.
    pub inverse: u64,
    ghost inverts: { (number.w0 * inverse + 1) % 2 ^ 64 ≡ 0 },
}

/// Adds the multiple of `m` that makes `x` divisible by 2^64, and divides. The second part of the
/// result is the multiple.
fn divide_word(x: U256, m: Modulus) -> (U256, u64)
    ensures { 2 ^ 64 * value result.0 ≡ value x + result.1 * value m.number }
{
    let multiple = x.w0.wrapping_mul(m.inverse);
    let (sum, top) = add_scaled(x, m.number, multiple);
    (shift_in(sum, top), multiple)
}

/// Adds the multiple of `m` that makes `x` divisible by 2^256, and divides. The second part of the
/// result is the multiple.
fn divide_words(x: U256, m: Modulus) -> (U256, U256)
    ensures exact { 2 ^ 256 * value result.0 ≡ value x + value result.1 * value m.number }
    ensures small { value result.0 ≤ value m.number }
{
    let (x1, w0) = divide_word(x, m);
    let (x2, w1) = divide_word(x1, m);
    let (x3, w2) = divide_word(x2, m);
    let (x4, w3) = divide_word(x3, m);
    (x4, U256 { w0, w1, w2, w3 })
}

/// `x / 2^256` modulo `m`.
pub fn reduce(x: U512, m: Modulus) -> U256
    requires { value x.high < value m.number }
    ensures below { value result < value m.number }
    ensures congruent { (value result * 2 ^ 256) % value m.number ≡ wide_value x % value m.number }
{
    let (quotient, _multiple) = divide_words(x.low, m);
    let (sum, carry) = add(quotient, x.high);
    reduce_once(sum, carry, m.number)
}

/// `a * b / 2^256` modulo `m`.
pub fn multiply(a: U256, b: U256, m: Modulus) -> U256
    requires { value a < value m.number }
    ensures below { value result < value m.number }
    ensures congruent { (value result * 2 ^ 256) % value m.number
        ≡ (value a * value b) % value m.number }
{
    reduce(product(a, b), m)
}
