// The limits of a shape.
ghost use Rattle.std.specs.Prelude.{◌≡◌, ◌-◌, ◌^◌, ℕ, [], false, nat_lt, Err, min};
ghost use Rattle.std.specs.List.{find};
ghost use Rattle.shapes_core.specs.Limits.{greatest_extent};
ghost use Rattle.shapes_core.specs.Shape.{is_shape, span};
ghost use Rattle.shape_check.specs.Broken.{IsShaped, failure_at};
ghost use Rattle.shape_check.specs.Rules.{Place, shape_limits};
ghost use Rattle.shape_check.specs.Verdict.{judged};

use crate::broken::Broken;
use shapes_core::{GREATEST_EXTENT, MOST_AXES, Shape};

/// The shape with these extents, or the first limit that they exceed.
pub(crate) fn limited(extents: &[u64]) -> Result<Shape, Broken>
    ensures { IsShaped (λ at. []) extents.now result }
{
    match Shape::new(extents) {
        Some(shape) => Ok(shape),
        None => Err(exceeded(extents)),
    }
}

/// The first limit that these extents exceed.
fn exceeded(extents: &[u64]) -> Broken
    requires { is_shape extents.now ≡ false }
    ensures { (at : ℕ) → judged (shape_limits (Place.Node at) extents.now) extents.now ≡ Err (failure_at at result) }
{
    if extents.len() > MOST_AXES {
        return Broken::Limit(2, extents.len() as u64);
    }
    match first_beyond(extents) {
        Some(extent) => Broken::Limit(3, extent),
        None => Broken::Limit(4, capped_span(extents)),
    }
}

/// The first extent that is too large.
fn first_beyond(extents: &[u64]) -> Option<u64>
    ensures { result ≡ find (λ extent. nat_lt greatest_extent extent) extents.now }
{
    extents
        .iter()
        .copied()
        .find(|extent| *extent > GREATEST_EXTENT)
}

/// The span, or the greatest number of 64 bits where it is greater.
fn capped_span(extents: &[u64]) -> u64
    ensures { result ≡ min (span extents.now) (2 ^ 64 - 1) }
{
    let mut span = 1u64;
    for extent in extents {
        span = span.saturating_mul((*extent).max(1));
    }
    span
}
