// Extents of shapes.
ghost use Rattle.std.specs.Prelude.{◌≡◌, ◌<◌, ◌≤◌, ◌-◌, length, slice_index};
ghost use Rattle.shapes_core.specs.Limits.{greatest_extent};

use shapes_core::Shape;

/// The first extent of a shape, or 0.
pub(crate) fn first_extent(shape: &Shape) -> u64
    ensures value { result ≡ slice_index shape.now 0 }
    ensures small { result ≤ greatest_extent }
{
    match shape.extents().first() {
        None => 0,
        Some(extent) => *extent,
    }
}

/// The last extent of a shape, or 0.
pub(crate) fn last_extent(shape: &Shape) -> u64
    ensures { result ≡ slice_index shape.now (length shape.now - 1) }
{
    let extents = shape.extents();
    extents
        .get(extents.len().saturating_sub(1))
        .copied()
        .unwrap_or(0)
}

/// The extent of an axis.
pub(crate) fn extent_on(shape: &Shape, axis: usize) -> u64
    requires { axis < length shape.now }
    ensures value { result ≡ slice_index shape.now axis }
    ensures small { result ≤ greatest_extent }
{
    shape.extents()[axis]
}
