//! Numbers of 256 bits.
ghost use Rattle.std.specs.Prelude.{◌≡◌, ◌+◌, ◌-◌, ◌*◌, ◌%◌, ◌^◌, ◌≤◌, ◌<◌, ◌↔◌, IsTrue};
ghost use Rattle.p256.specs.Integer.{value};

use crate::word::{add_carry, sub_borrow};

/// A number of 256 bits in four words, the least significant first.
#[derive(Clone, Copy, Debug, PartialEq, Eq)]
pub struct U256 {
    pub w0: u64,
    pub w1: u64,
    pub w2: u64,
    pub w3: u64,
}

/// The number 0.
pub(crate) const ZERO: U256 = U256 {
    w0: 0,
    w1: 0,
    w2: 0,
    w3: 0,
};

/// `a + b`, as a number and a carry out.
#[inline(always)]
pub fn add(a: U256, b: U256) -> (U256, u64)
    ensures exact { value result.0 + 2 ^ 256 * result.1 ≡ value a + value b }
    ensures bit { result.1 ≤ 1 }
{
    let (w0, carry0) = add_carry(a.w0, b.w0, 0);
    let (w1, carry1) = add_carry(a.w1, b.w1, carry0);
    let (w2, carry2) = add_carry(a.w2, b.w2, carry1);
    let (w3, carry3) = add_carry(a.w3, b.w3, carry2);
    (U256 { w0, w1, w2, w3 }, carry3)
}

/// `a - b`, as a number and a borrow out.
#[inline(always)]
pub fn sub(a: U256, b: U256) -> (U256, u64)
    ensures exact { value result.0 + value b ≡ value a + 2 ^ 256 * result.1 }
    ensures bit { result.1 ≤ 1 }
{
    let (w0, borrow0) = sub_borrow(a.w0, b.w0, 0);
    let (w1, borrow1) = sub_borrow(a.w1, b.w1, borrow0);
    let (w2, borrow2) = sub_borrow(a.w2, b.w2, borrow1);
    let (w3, borrow3) = sub_borrow(a.w3, b.w3, borrow2);
    (U256 { w0, w1, w2, w3 }, borrow3)
}

/// Returns whether `a` is below `b`.
pub fn is_below(a: U256, b: U256) -> bool
    ensures { IsTrue result ↔ value a < value b }
{
    sub(a, b).1 == 1
}

/// Returns whether two numbers are equal.
pub fn is_equal(a: U256, b: U256) -> bool
    ensures { IsTrue result ↔ (value a ≡ value b) }
{
    !is_below(a, b) && !is_below(b, a)
}

/// `a` if `bit` is 1, and 0 if it is 0. This is faster than a branch, which is hard to predict.
#[inline(always)]
fn times_bit(a: U256, bit: u64) -> U256
    requires { bit ≤ 1 }
    ensures { value result ≡ value a * bit }
{
    U256 {
        w0: a.w0 * bit,
        w1: a.w1 * bit,
        w2: a.w2 * bit,
        w3: a.w3 * bit,
    }
}

/// `sum + 2^256 carry` modulo `m`, for such a number below `2 m`.
#[inline(always)]
pub fn reduce_once(sum: U256, carry: u64, m: U256) -> U256
    requires bit { carry ≤ 1 }
    requires below { value sum + 2 ^ 256 * carry < 2 * value m }
    ensures { value result ≡ (value sum + 2 ^ 256 * carry) % value m }
{
    let (reduced, borrow) = sub(sum, m);
    add(reduced, times_bit(m, borrow - carry)).0
}

/// `a + b` modulo `m`.
#[inline(always)]
pub fn add_mod(a: U256, b: U256, m: U256) -> U256
    requires a_below { value a < value m }
    requires b_below { value b < value m }
    ensures { value result ≡ (value a + value b) % value m }
{
    let (sum, carry) = add(a, b);
    reduce_once(sum, carry, m)
}

/// `a - b` modulo `m`.
#[inline(always)]
pub fn sub_mod(a: U256, b: U256, m: U256) -> U256
    requires a_below { value a < value m }
    requires b_below { value b < value m }
    ensures { value result ≡ (value a + (value m - value b)) % value m }
{
    let (difference, borrow) = sub(a, b);
    add(difference, times_bit(m, borrow)).0
}
