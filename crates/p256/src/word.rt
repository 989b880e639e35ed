//! Steps on one word, each with its exact equation.
ghost use Rattle.std.specs.Prelude.{◌≡◌, ◌+◌, ◌*◌, ◌^◌, ◌≤◌, ◌<◌};

/// `a + b + carry`, as a word and a carry out.
#[inline(always)]
pub fn add_carry(a: u64, b: u64, carry: u64) -> (u64, u64)
    requires { carry ≤ 1 }
    ensures exact { result.0 + 2 ^ 64 * result.1 ≡ a + b + carry }
    ensures bit { result.1 ≤ 1 }
{
    let wide = u128::from(a) + u128::from(b) + u128::from(carry);
    ((wide % 0x1_0000_0000_0000_0000) as u64, (wide >> 64) as u64)
}

/// `a - b - borrow`, as a word and a borrow out.
#[inline(always)]
pub fn sub_borrow(a: u64, b: u64, borrow: u64) -> (u64, u64)
    requires { borrow ≤ 1 }
    ensures exact { result.0 + b + borrow ≡ a + 2 ^ 64 * result.1 }
    ensures bit { result.1 ≤ 1 }
{
    let wide = 0x1_0000_0000_0000_0000 + u128::from(a) - u128::from(b) - u128::from(borrow);
    (
        (wide % 0x1_0000_0000_0000_0000) as u64,
        1 - (wide >> 64) as u64,
    )
}

/// `a + b * c + carry`, as a word and a carry out, which a word holds.
#[inline(always)]
pub fn mul_carry(a: u64, b: u64, c: u64, carry: u64) -> (u64, u64)
    ensures { result.0 + 2 ^ 64 * result.1 ≡ a + b * c + carry }
{
    let wide = u128::from(a) + u128::from(b) * u128::from(c) + u128::from(carry);
    ((wide % 0x1_0000_0000_0000_0000) as u64, (wide >> 64) as u64)
}
