//! The field of P-256, in Montgomery's form.
ghost use Rattle.std.specs.Prelude.{◌≡◌, ◌+◌, ◌*◌, ◌%◌, ◌^◌, ◌<◌, ◌≤◌};
ghost use Rattle.p256.specs.Field.{number};
ghost use Rattle.p256.specs.Integer.{value, wide_value};
ghost use Rattle.p256.specs.Prime.{difference, prime};

use crate::element::FieldElement;
use crate::integer::{U256, ZERO, add, add_mod, reduce_once, sub_mod};
use crate::product::{U512, product};
use crate::word::{add_carry, mul_carry};

/// The prime of the field, 2^256 - 2^224 + 2^192 + 2^96 - 1.
pub(crate) const PRIME: U256 = U256 {
    w0: 0xffff_ffff_ffff_ffff,
    w1: 0xffff_ffff,
    w2: 0,
    w3: 0xffff_ffff_0000_0001,
};

/// 2^512 modulo the prime, the square of the factor of Montgomery's form.
const RADIX_SQUARED: U256 = U256 {
    w0: 3,
    w1: 0xffff_fffb_ffff_ffff,
    w2: 0xffff_ffff_ffff_fffe,
    w3: 0x4_ffff_fffd,
};

/// Adds the multiple of the prime that makes `x` divisible by 2^64, and divides. The prime is one
/// below a multiple of 2^64, so the lowest word of `x` says which multiple.
#[inline(always)]
fn divide_word(x: U256) -> U256
    ensures { 2 ^ 64 * value result ≡ value x + x.w0 * prime }
{
    let (w0, carry0) = mul_carry(x.w1, x.w0, 0x1_0000_0000, 0);
    let (w1, carry1) = add_carry(x.w2, carry0, 0);
    let (w2, w3) = mul_carry(x.w3, x.w0, 0xffff_ffff_0000_0001, carry1);
    U256 { w0, w1, w2, w3 }
}

/// Adds the multiple of the prime that makes `x` divisible by 2^256, and divides. The second part
/// is the multiple.
#[inline(always)]
fn divide_words(x: U256) -> (U256, U256)
    ensures exact { 2 ^ 256 * value result.0 ≡ value x + value result.1 * prime }
    ensures small { value result.0 ≤ prime }
{
    let x1 = divide_word(x);
    let x2 = divide_word(x1);
    let x3 = divide_word(x2);
    let x4 = divide_word(x3);
    let multiple = U256 {
        w0: x.w0,
        w1: x1.w0,
        w2: x2.w0,
        w3: x3.w0,
    };
    (x4, multiple)
}

/// `x / 2^256` modulo the prime.
#[inline(always)]
fn reduce(x: U512) -> U256
    requires { value x.high < prime }
    ensures below { value result < prime }
    ensures congruent { (value result * 2 ^ 256) % prime ≡ wide_value x % prime }
{
    let (quotient, _multiple) = divide_words(x.low);
    let (sum, carry) = add(quotient, x.high);
    reduce_once(sum, carry, PRIME)
}

/// `a * b / 2^256` modulo the prime.
fn multiply(a: U256, b: U256) -> U256
    requires { value a < prime }
    ensures below { value result < prime }
    ensures congruent { (value result * 2 ^ 256) % prime ≡ (value a * value b) % prime }
{
    reduce(product(a, b))
}

impl FieldElement {
    /// The element that `x` stands for.
    pub fn new(x: U256) -> FieldElement
        ensures { number result ≡ value x % prime }
    {
        FieldElement {
            words: multiply(RADIX_SQUARED, x),
        }
    }

    /// The least number that stands for the element.
    pub fn to_words(self) -> U256
        ensures { value result ≡ number self }
    {
        reduce(U512 {
            low: self.words,
            high: ZERO,
        })
    }

    /// The sum of two elements.
    pub fn plus(self, other: FieldElement) -> FieldElement
        ensures { number result ≡ (number self + number other) % prime }
    {
        FieldElement {
            words: add_mod(self.words, other.words, PRIME),
        }
    }

    /// The difference of two elements.
    pub fn minus(self, other: FieldElement) -> FieldElement
        ensures { number result ≡ difference (number self) (number other) % prime }
    {
        FieldElement {
            words: sub_mod(self.words, other.words, PRIME),
        }
    }

    /// The product of two elements.
    pub fn times(self, other: FieldElement) -> FieldElement
        ensures { number result ≡ (number self * number other) % prime }
    {
        FieldElement {
            words: multiply(self.words, other.words),
        }
    }
}
