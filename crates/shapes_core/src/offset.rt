// Offsets in row-major order, and their digits.
ghost use Rattle.std.specs.Prelude.{◌≡◌, ◌<◌, ◌≤◌, suc, length, drop};
ghost use Rattle.shapes_core.specs.Limits.{greatest_extent};
ghost use Rattle.shapes_core.specs.Gamma.{IsIndex, digit, gamma, weight};
ghost use Rattle.shapes_core.specs.Shape.{IsShape, span, total};

use crate::shape::Shape;

/// How many words apart two elements lie that are neighbours along an axis, counted from 0: the product of the
/// extents after it, with each 0 taken as 1.
pub fn weight(shape: &Shape, axis: usize) -> u64
    requires { axis < length shape.now }
    ensures value { result ≡ weight shape.now axis }
    ensures positive { 0 < result }
    ensures small { result ≤ greatest_extent }
{
    span(behind(shape, axis))
}

/// The extents after an axis.
fn behind(shape: &Shape, axis: usize) -> &[u64]
    requires { axis < length shape.now }
    ensures value { result.now ≡ drop (suc axis) shape.now }
    ensures shape { IsShape shape.now }
{
    &shape.extents()[axis + 1..]
}

#[tactic(auto, using(crate::proofs::SpanLemmas::span_pos))]
fn span(extents: &[u64]) -> u64
    requires { span extents.now ≤ greatest_extent }
    ensures value { result ≡ span extents.now }
    ensures positive { 0 < result }
    ensures small { result ≤ greatest_extent }
{
    let mut span = 1;
    for extent in extents {
        span *= (*extent).max(1);
    }
    span
}

/// The place of an element among all elements of its array, in words from the first, the last axis fastest:
/// gamma of Mullin, A Mathematics of Arrays (1988).
pub fn gamma(index: &[u64], shape: &Shape) -> u64
    requires { IsIndex index.now shape.now }
    ensures value { result ≡ gamma index.now shape.now }
    ensures below { result < total shape.now }
{
    let mut offset = 0;
    for (place, extent) in index.iter().zip(shape.extents()) {
        offset = offset * extent + place;
    }
    offset
}

/// The entry of an offset's index vector at an axis of this weight and extent.
pub fn digit(flat: u64, weight: u64, extent: u64) -> u64
    requires weight { 0 < weight }
    requires extent { 0 < extent }
    ensures value { result ≡ digit flat weight extent }
    ensures below { result < extent }
{
    flat / weight % extent
}
