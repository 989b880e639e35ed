//! Points of the curve.

use crate::element::FieldElement;

/// A point in projective coordinates.
#[derive(Clone, Copy, Debug)]
pub struct Point {
    pub x: FieldElement,
    pub y: FieldElement,
    pub z: FieldElement,
}
