// Shapes of arrays.
ghost use Rattle.std.specs.Prelude.{◌≡◌, ◌↔◌, IsSome, IfSome, ◌≤◌, ◌<◌, length, nat_eq};
ghost use Rattle.std.specs.Cmp.{partial_equiv_from_equiv};
ghost use Rattle.std.specs.Cmp.Lexicographic.{nat_list_eq_equiv, pointwise};
ghost use Rattle.shapes_core.specs.Limits.{greatest_extent};
ghost use Rattle.shapes_core.specs.Shape.{IsShape, are_small, same_tail, total};

use crate::limits::{GREATEST_EXTENT, MOST_AXES};
use std::marker::Model;

/// The shape of an array: at most `MOST_AXES` extents, of which each, and their span, is at most
/// `GREATEST_EXTENT`.
/// A scalar has no extent. Two shapes are equal where their lists of extents are.
#[derive(Clone, Copy, Debug)]
pub struct Shape {
    extents: [u64; MOST_AXES],
    axes: usize,
}

impl Model for Shape {
    ghost use Rattle.std.specs.Prelude.{◌≡◌, ◌≤◌, ◌-◌, ◌++◌, ℕ, List, length, take, drop, replicate};
    ghost use Rattle.shapes_core.specs.Shape.{IsShape};
    ghost use Rattle.shapes_core.specs.Padded.{IsPadded, padded};

    ghost Value = { List ℕ };

    ghost view = { λ s. take s.axes s.extents };

    ghost invariant = { λ s. IsPadded 0 6 s.extents s.axes × IsShape (take s.axes s.extents) };

    ghost inverse = { λ list. record { extents = padded 0 6 list; axes = length list } };

    ghost inverse_ok = { λ n h i. record { extents = h.0.filled i; axes = h.0.counted i } };
}

impl Shape {
    /// The shape with these extents, or `None` where they are too many or too large.
    pub fn new(extents: &[u64]) -> Option<Shape>
        ensures within { IsSome result ↔ IsShape extents.now }
        ensures same { IfSome result (λ shape. shape ≡ extents.now) }
    {
        if extents.len() > MOST_AXES || !are_small(extents) {
            return None;
        }
        let mut padded = [0; MOST_AXES];
        padded[..extents.len()].copy_from_slice(extents);
        Some(Shape {
            extents: padded,
            axes: extents.len(),
        })
    }

    /// The extents, one an axis.
    pub fn extents(&self) -> &[u64]
        ensures value { result.now ≡ self.now }
        ensures shape { IsShape self.now }
    {
        &self.extents[..self.axes]
    }
}

impl PartialEq for Shape {
    ghost eq = { pointwise nat_eq };

    ghost laws = { partial_equiv_from_equiv nat_list_eq_equiv };

    fn eq(&self, other: &Shape) -> bool {
        self.extents() == other.extents()
    }
}

impl Eq for Shape {
    ghost laws = { nat_list_eq_equiv };
}

/// Whether each extent, and the span, is within `GREATEST_EXTENT`.
fn are_small(extents: &[u64]) -> bool
    ensures { result ≡ are_small extents.now }
{
    let mut span = 1;
    for extent in extents {
        if *extent > GREATEST_EXTENT {
            return false;
        }
        let factor = (*extent).max(1);
        if factor * span > GREATEST_EXTENT {
            return false;
        }
        span *= factor;
    }
    true
}

/// How many elements an array of the shape has: 1 for a scalar.
pub fn total(shape: &Shape) -> u64
    ensures value { result ≡ total shape.now }
    ensures small { result ≤ greatest_extent }
{
    let mut total = 1;
    for extent in shape.extents() {
        total *= extent;
    }
    total
}

/// Whether two shapes have the same extents after the first.
pub fn same_tail(left: &Shape, right: &Shape) -> bool
    requires left { 0 < length left.now }
    requires right { 0 < length right.now }
    ensures value { result ≡ same_tail left.now right.now }
{
    left.extents()[1..] == right.extents()[1..]
}
