// What a list of numbers says of the axes of a shape.
ghost use Rattle.std.specs.Prelude.{◌≡◌, ◌-◌, ◌^◌, ◌≤◌, length, min, pos, slice_index};
ghost use Rattle.std.specs.List.{list_all, list_any};
ghost use Rattle.std.specs.Ordering.{int_eq};
ghost use Rattle.shapes_core.specs.Shape.{total};
ghost use Rattle.moa_tree.specs.Axes.{each_extent, naturals, remaining, selected, taken};
ghost use Rattle.shape_check.specs.Rules.{each_entry, is_natural, is_part, is_permutation, is_place};

/// The extent of an axis, and 0 where there is no such axis.
pub(crate) fn extent_at(extents: &[u64], axis: usize) -> u64
    ensures { result ≡ slice_index extents.now axis }
{
    extents.get(axis).copied().unwrap_or(0)
}

/// Whether a number is not negative.
fn is_natural(k: i64) -> bool
    ensures { result ≡ is_natural k }
{
    k >= 0
}

/// Whether a number is a place of an axis of this extent.
fn is_place(k: i64, extent: u64) -> bool
    ensures { result ≡ is_place k extent }
{
    k >= 0 && k.unsigned_abs() < extent
}

/// Whether there is as much of an axis of this extent, from the front or from the back.
fn is_part(k: i64, extent: u64) -> bool
    ensures { result ≡ is_part k extent }
{
    k.unsigned_abs() <= extent
}

/// Whether none of the numbers is negative.
pub(crate) fn are_natural(list: &[i64]) -> bool
    ensures { result ≡ list_all is_natural list.now }
{
    list.iter().all(|k| is_natural(*k))
}

/// Whether each number is a place of its axis.
pub(crate) fn are_places(list: &[i64], extents: &[u64]) -> bool
    requires { length list.now ≤ length extents.now }
    ensures { result ≡ each_entry is_place list.now extents.now }
{
    for (axis, k) in list.iter().enumerate() {
        if !is_place(*k, extents[axis]) {
            return false;
        }
    }
    true
}

/// Whether there is as much of each axis as its number says.
pub(crate) fn are_parts(list: &[i64], extents: &[u64]) -> bool
    requires { length list.now ≤ length extents.now }
    ensures { result ≡ each_entry is_part list.now extents.now }
{
    for (axis, k) in list.iter().enumerate() {
        if !is_part(*k, extents[axis]) {
            return false;
        }
    }
    true
}

/// Whether an axis stands in the list.
fn has_axis(list: &[i64], axis: usize) -> bool
    ensures { result ≡ list_any (int_eq (pos axis)) list.now }
{
    list.iter()
        .any(|k| *k >= 0 && k.unsigned_abs() == axis as u64)
}

/// Whether each axis below the length stands in the list.
pub(crate) fn is_permutation(list: &[i64]) -> bool
    ensures { result ≡ is_permutation list.now }
{
    (0..list.len()).all(|axis| has_axis(list, axis))
}

/// The product of numbers that are not negative, or the greatest number of 64 bits where it is greater.
pub(crate) fn capped_total(list: &[i64]) -> u64
    ensures { result ≡ min (total (naturals list.now)) (2 ^ 64 - 1) }
{
    let mut total = 1u64;
    for k in list {
        total = total.saturating_mul(k.unsigned_abs());
    }
    total
}

/// Puts what is taken of each axis in the place of its extent.
pub(crate) fn take_extents(list: &[i64], extents: &mut [u64])
    requires { length list.now ≤ length extents.old }
    ensures { extents.new ≡ each_extent taken list.now extents.old }
{
    for (axis, k) in list.iter().enumerate() {
        extents[axis] = k.unsigned_abs();
    }
}

/// Puts what a drop leaves of each axis in the place of its extent.
pub(crate) fn drop_extents(list: &[i64], extents: &mut [u64])
    requires { length list.now ≤ length extents.old }
    ensures { extents.new ≡ each_extent remaining list.now extents.old }
{
    for (axis, k) in list.iter().enumerate() {
        extents[axis] = extents[axis].saturating_sub(k.unsigned_abs());
    }
}

/// Writes the extents of these axes.
pub(crate) fn select_extents(list: &[i64], extents: &[u64], buffer: &mut [u64])
    requires { length buffer.old ≡ length list.now }
    ensures { buffer.new ≡ selected (naturals list.now) extents.now }
{
    for (axis, from) in list.iter().enumerate() {
        buffer[axis] = extent_at(extents, from.unsigned_abs() as usize);
    }
}

/// Writes the numbers as extents.
pub(crate) fn write_extents(list: &[i64], buffer: &mut [u64])
    requires { length buffer.old ≡ length list.now }
    ensures { buffer.new ≡ naturals list.now }
{
    for (axis, k) in list.iter().enumerate() {
        buffer[axis] = k.unsigned_abs();
    }
}
