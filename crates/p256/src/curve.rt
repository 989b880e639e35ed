//! The curve: its equation, and sums of its points.
ghost use Rattle.std.specs.Prelude.{◌≡◌, ◌+◌, ◌*◌, ◌%◌, ◌≤◌, ◌↔◌, IsTrue};
ghost use Rattle.p256.specs.Curve.{IsOnCurve, combined, generator, triple};
ghost use Rattle.p256.specs.Curve.{sum, sum_of_products, with_bits};
ghost use Rattle.p256.specs.Field.{number};
ghost use Rattle.p256.specs.Integer.{value};
ghost use Rattle.p256.specs.Prime.{prime};

use crate::element::FieldElement;
use crate::integer::{U256, ZERO, add, is_equal};
use crate::point::Point;

/// The constant term of the curve, in Montgomery's form.
const B: FieldElement = FieldElement {
    words: U256 {
        w0: 0xd89c_df62_29c4_bddf,
        w1: 0xacf0_05cd_7884_3090,
        w2: 0xe5a2_20ab_f721_2ed6,
        w3: 0xdc30_061d_0487_4834,
    },
};

/// One, in Montgomery's form: 2^256 modulo the prime.
pub(crate) const ONE: FieldElement = FieldElement {
    words: U256 {
        w0: 1,
        w1: 0xffff_ffff_0000_0000,
        w2: 0xffff_ffff_ffff_ffff,
        w3: 0xffff_fffe,
    },
};

/// The point at infinity.
const INFINITY: Point = Point {
    x: FieldElement { words: ZERO },
    y: ONE,
    z: FieldElement { words: ZERO },
};

/// The base point, in Montgomery's form.
const GENERATOR: Point = Point {
    x: FieldElement {
        words: U256 {
            w0: 0x79e7_30d4_18a9_143c,
            w1: 0x75ba_95fc_5fed_b601,
            w2: 0x79fb_732b_7762_2510,
            w3: 0x1890_5f76_a537_55c6,
        },
    },
    y: FieldElement {
        words: U256 {
            w0: 0xddf2_5357_ce95_560a,
            w1: 0x8b4a_b8e4_ba19_e45c,
            w2: 0xd2e8_8688_dd21_f325,
            w3: 0x8571_ff18_2588_5d85,
        },
    },
    z: ONE,
};

/// Returns whether two elements are equal.
pub(crate) fn is_same(a: FieldElement, b: FieldElement) -> bool
    ensures { IsTrue result ↔ (number a ≡ number b) }
{
    is_equal(a.to_words(), b.to_words())
}

/// Returns whether the equation of the curve holds at `(x, y)`.
pub(crate) fn is_on_curve(x: FieldElement, y: FieldElement) -> bool
    ensures { IsTrue result ↔ IsOnCurve (number x) (number y) }
{
    let square = y.times(y);
    let left = square.plus(x.plus(x).plus(x));
    let cube = x.times(x).times(x);
    let right = cube.plus(B);
    is_same(left, right)
}

/// `3 x`.
fn thrice(x: FieldElement) -> FieldElement
    ensures { number result ≡ (3 * number x) % prime }
{
    x.plus(x).plus(x)
}

/// `a1 b2 + a2 b1`, where `aa` is `a1 a2` and `bb` is `b1 b2`, by one product.
fn cross(
    a1: FieldElement,
    b1: FieldElement,
    a2: FieldElement,
    b2: FieldElement,
    aa: FieldElement,
    bb: FieldElement,
) -> FieldElement
    requires first { number aa ≡ (number a1 * number a2) % prime }
    requires second { number bb ≡ (number b1 * number b2) % prime }
    ensures { number result ≡ (number a1 * number b2 + number a2 * number b1) % prime }
{
    let left = a1.plus(b1);
    let right = a2.plus(b2);
    let squares = aa.plus(bb);
    let whole = left.times(right);
    whole.minus(squares)
}

/// The sum of two points, from the sums of products of their coordinates.
fn sum_of_products(
    xx: FieldElement,
    yy: FieldElement,
    zz: FieldElement,
    xy: FieldElement,
    yz: FieldElement,
    xz: FieldElement,
) -> Point
    ensures { triple result
        ≡ sum_of_products (number xx) (number yy) (number zz) (number xy) (number yz) (number xz) }
{
    let bzz = B.times(zz);
    let w_third = xz.minus(bzz);
    let w = thrice(w_third);
    let zz3 = thrice(zz);
    let bxz = B.times(xz);
    let bxz_less = bxz.minus(zz3);
    let v_third = bxz_less.minus(xx);
    let v = thrice(v_third);
    let xx3 = thrice(xx);
    let u = xx3.minus(zz3);
    let high = yy.plus(w);
    let low = yy.minus(w);
    let x_left = xy.times(high);
    let x_right = yz.times(v);
    let y_left = high.times(low);
    let y_right = u.times(v);
    let z_left = yz.times(low);
    let z_right = xy.times(u);
    Point {
        x: x_left.minus(x_right),
        y: y_left.plus(y_right),
        z: z_left.plus(z_right),
    }
}

impl Point {
    /// The sum of two points.
    fn plus(self, other: Point) -> Point
        ensures { triple result ≡ sum (triple self) (triple other) }
    {
        let xx = self.x.times(other.x);
        let yy = self.y.times(other.y);
        let zz = self.z.times(other.z);
        let xy = cross(self.x, self.y, other.x, other.y, xx, yy);
        let yz = cross(self.y, self.z, other.y, other.z, yy, zz);
        let xz = cross(self.x, self.z, other.x, other.z, xx, zz);
        sum_of_products(xx, yy, zz, xy, yz, xz)
    }

    /// Twice the point: the sum of the point and itself, with fewer steps.
    fn twice(self) -> Point
        ensures { triple result ≡ sum (triple self) (triple self) }
    {
        let xx = self.x.times(self.x);
        let yy = self.y.times(self.y);
        let zz = self.z.times(self.z);
        let xy = self.x.times(self.y);
        let yz = self.y.times(self.z);
        let xz = self.x.times(self.z);
        sum_of_products(xx, yy, zz, xy.plus(xy), yz.plus(yz), xz.plus(xz))
    }

    /// Twice the point, and then plus the base point if `u` is 1, and plus `key` if `v` is 1.
    /// `both` is the sum of these two points.
    fn with_bits(self, u: u64, v: u64, key: Point, both: Point) -> Point
        requires u_bit { u ≤ 1 }
        requires v_bit { v ≤ 1 }
        requires both { triple both ≡ sum generator (triple key) }
        ensures { triple result ≡ with_bits u v (triple self) (triple key) }
    {
        let twice = self.twice();
        if u == 0 {
            if v == 0 { twice } else { twice.plus(key) }
        } else if v == 0 {
            twice.plus(GENERATOR)
        } else {
            twice.plus(both)
        }
    }
}

/// `u` times the base point plus `v` times `key`, from the most significant bits of `u` and `v` to
/// the least.
pub(crate) fn combined(u: U256, v: U256, key: Point) -> Point
    ensures { triple result ≡ combined 256 (value u) (value v) (triple key) }
{
    let both = GENERATOR.plus(key);
    let mut point = INFINITY;
    let mut rest_u = u;
    let mut rest_v = v;
    for _taken in 0..256u32 {
        let (next_u, u_bit) = add(rest_u, rest_u);
        let (next_v, v_bit) = add(rest_v, rest_v);
        rest_u = next_u;
        rest_v = next_v;
        point = point.with_bits(u_bit, v_bit, key, both);
    }
    point
}
