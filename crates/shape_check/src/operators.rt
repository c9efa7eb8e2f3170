// The rules of each operator and the shape that it makes.
ghost use Rattle.std.specs.Prelude.{◌≡◌, ◌≤◌, ℕ, ◌-◌, ◌+◌, ◌==◌, ◌||◌, not, [], ◌∷◌, ◌++◌, drop, length, reverse, nat_le, slice_index, unsigned_abs};
ghost use Rattle.std.specs.List.{list_all, remove};
ghost use Rattle.shapes_core.specs.Limits.{greatest_extent};
ghost use Rattle.shapes_core.specs.Shape.{total};
ghost use Rattle.moa_tree.specs.Axes.{but_last, common, each_extent, joined, naturals, remaining, selected, taken};
ghost use Rattle.shape_check.specs.Broken.{IsShaped};
ghost use Rattle.shape_check.specs.Rules.{Place, are_equal, each_entry, is_natural, is_part, is_permutation, is_place, is_scalar, rule};

use crate::broken::Broken;
use crate::entries::{
    are_natural, are_parts, are_places, capped_total, drop_extents, is_permutation, select_extents,
    take_extents, write_extents,
};
use crate::limits::limited;
use shapes_core::{MOST_AXES, Shape, total};

/// The extents of a shape.
fn extents(shape: &Shape) -> &[u64]
    ensures value { result.now ≡ shape.now }
    ensures few { length result.now ≤ 6 }
    ensures small { (axis : ℕ) → slice_index result.now axis ≤ greatest_extent }
{
    shape.extents()
}

/// The shape itself, where it has an axis.
pub(crate) fn with_axis(of: &Shape, number: u8) -> Result<Shape, Broken>
    ensures { IsShaped (λ at. rule (Place.Node at) number (not (is_scalar of.now))) of.now result }
{
    if extents(of).is_empty() {
        return Err(Broken::Rule(number));
    }
    limited(extents(of))
}

/// A vector of this length, which is not negative.
pub(crate) fn iota_shape(extent: i64) -> Result<Shape, Broken>
    ensures { IsShaped (λ at. rule (Place.Node at) 4 (is_natural extent)) (unsigned_abs extent ∷ []) result }
{
    if extent < 0 {
        return Err(Broken::Rule(4));
    }
    limited(&[extent.unsigned_abs()])
}

/// The shape that two operands have in common: they have equal shapes, or one is a scalar.
pub(crate) fn pointwise_shape(left: &Shape, right: &Shape) -> Result<Shape, Broken>
    ensures { IsShaped (λ at. rule (Place.Node at) 5 (are_equal left.now right.now || is_scalar left.now || is_scalar right.now))
        (common left.now right.now) result }
{
    let s = extents(left);
    let t = extents(right);
    if s != t && !s.is_empty() && !t.is_empty() {
        return Err(Broken::Rule(5));
    }
    limited(if s.len() < t.len() { t } else { s })
}

/// What is left behind an index of the first axes, each of its numbers a place of its axis.
pub(crate) fn psi_shape(list: &[i64], of: &Shape) -> Result<Shape, Broken>
    ensures { IsShaped (λ at. rule (Place.Node at) 6 (nat_le (length list.now) (length of.now)) ++ rule (Place.Node at) 7 (each_entry is_place list.now of.now))
        (drop (length list.now) of.now) result }
{
    let s = extents(of);
    if list.len() > s.len() {
        return Err(Broken::Rule(6));
    }
    if !are_places(list, s) {
        return Err(Broken::Rule(7));
    }
    limited(&s[list.len()..])
}

/// Each of the first axes with as much as is taken of it, which is no more than there is.
pub(crate) fn take_shape(list: &[i64], of: &Shape) -> Result<Shape, Broken>
    ensures { IsShaped (λ at. rule (Place.Node at) 8 (nat_le (length list.now) (length of.now)) ++ rule (Place.Node at) 9 (each_entry is_part list.now of.now))
        (each_extent taken list.now of.now) result }
{
    let s = extents(of);
    if list.len() > s.len() {
        return Err(Broken::Rule(8));
    }
    if !are_parts(list, s) {
        return Err(Broken::Rule(9));
    }
    let mut buffer = [0; MOST_AXES];
    let extents = &mut buffer[..s.len()];
    extents.copy_from_slice(s);
    take_extents(list, extents);
    limited(extents)
}

/// Each of the first axes without what is dropped of it, which is no more than there is.
pub(crate) fn drop_shape(list: &[i64], of: &Shape) -> Result<Shape, Broken>
    ensures { IsShaped (λ at. rule (Place.Node at) 10 (nat_le (length list.now) (length of.now)) ++ rule (Place.Node at) 11 (each_entry is_part list.now of.now))
        (each_extent remaining list.now of.now) result }
{
    let s = extents(of);
    if list.len() > s.len() {
        return Err(Broken::Rule(10));
    }
    if !are_parts(list, s) {
        return Err(Broken::Rule(11));
    }
    let mut buffer = [0; MOST_AXES];
    let extents = &mut buffer[..s.len()];
    extents.copy_from_slice(s);
    drop_extents(list, extents);
    limited(extents)
}

/// The axes in reverse.
pub(crate) fn transpose_shape(of: &Shape) -> Result<Shape, Broken>
    ensures { IsShaped (λ at. []) (reverse of.now) result }
{
    let s = extents(of);
    let mut buffer = [0; MOST_AXES];
    let extents = &mut buffer[..s.len()];
    extents.copy_from_slice(s);
    extents.reverse();
    limited(extents)
}

/// The axes in the order of the list, which has each of them once.
pub(crate) fn permute_shape(list: &[i64], of: &Shape) -> Result<Shape, Broken>
    ensures { IsShaped (λ at. rule (Place.Node at) 14 (length list.now == length of.now) ++ rule (Place.Node at) 15 (is_permutation list.now))
        (selected (naturals list.now) of.now) result }
{
    let s = extents(of);
    if list.len() != s.len() {
        return Err(Broken::Rule(14));
    }
    if !is_permutation(list) {
        return Err(Broken::Rule(15));
    }
    let mut buffer = [0; MOST_AXES];
    let extents = &mut buffer[..list.len()];
    select_extents(list, s, extents);
    limited(extents)
}

/// Two arrays joined on the first axis: they have the same number of axes, at least one, and agree in the others.
pub(crate) fn cat_shape(left: &Shape, right: &Shape) -> Result<Shape, Broken>
    ensures { IsShaped (λ at. rule (Place.Node at) 16 (length left.now == length right.now) ++ rule (Place.Node at) 17 (not (is_scalar left.now))
        ++ rule (Place.Node at) 18 (are_equal (drop 1 left.now) (drop 1 right.now))) (joined 0 left.now right.now) result }
{
    let s = extents(left);
    let t = extents(right);
    if s.len() != t.len() {
        return Err(Broken::Rule(16));
    }
    if s.is_empty() {
        return Err(Broken::Rule(17));
    }
    if s[1..] != t[1..] {
        return Err(Broken::Rule(18));
    }
    let mut buffer = [0; MOST_AXES];
    let extents = &mut buffer[..s.len()];
    extents.copy_from_slice(s);
    extents[0] += t[0];
    limited(extents)
}

/// These extents: none is negative, and their total is the operand's.
pub(crate) fn reshape_shape(list: &[i64], of: &Shape) -> Result<Shape, Broken>
    ensures { IsShaped (λ at. rule (Place.Node at) 19 (list_all is_natural list.now) ++ rule (Place.Node at) 20 (total (naturals list.now) == total of.now))
        (naturals list.now) result }
{
    if !are_natural(list) {
        return Err(Broken::Rule(19));
    }
    if capped_total(list) != total(of) {
        return Err(Broken::Rule(20));
    }
    if list.len() > MOST_AXES {
        return Err(Broken::Limit(2, list.len() as u64));
    }
    let mut buffer = [0; MOST_AXES];
    let extents = &mut buffer[..list.len()];
    write_extents(list, extents);
    limited(extents)
}

/// A vector of all elements.
pub(crate) fn ravel_shape(of: &Shape) -> Result<Shape, Broken>
    ensures { IsShaped (λ at. []) (total of.now ∷ []) result }
{
    limited(&[total(of)])
}

/// Writes one list behind the other.
fn write_both(front: &[u64], behind: &[u64], extents: &mut [u64])
    requires { length extents.old ≡ length front.now + length behind.now }
    ensures { extents.new ≡ front.now ++ behind.now }
{
    extents[..front.len()].copy_from_slice(front);
    extents[front.len()..].copy_from_slice(behind);
}

/// The shape with these extents, one list behind the other.
fn appended(front: &[u64], behind: &[u64]) -> Result<Shape, Broken>
    requires { length front.now + length behind.now ≤ 12 }
    ensures { IsShaped (λ at. []) (front.now ++ behind.now) result }
{
    let mut buffer = [0; 2 * MOST_AXES];
    let extents = &mut buffer[..front.len() + behind.len()];
    write_both(front, behind, extents);
    limited(extents)
}

/// The axes of both operands.
pub(crate) fn outer_shape(left: &Shape, right: &Shape) -> Result<Shape, Broken>
    ensures { IsShaped (λ at. []) (left.now ++ right.now) result }
{
    appended(extents(left), extents(right))
}

/// The axes of both operands but the last of the first and the first of the second, which are there and agree.
pub(crate) fn inner_shape(left: &Shape, right: &Shape) -> Result<Shape, Broken>
    ensures { IsShaped (λ at. rule (Place.Node at) 21 (not (is_scalar left.now || is_scalar right.now))
        ++ rule (Place.Node at) 22 (slice_index left.now (length left.now - 1) == slice_index right.now 0)) (but_last left.now ++ drop 1 right.now) result }
{
    let s = extents(left);
    let t = extents(right);
    if s.is_empty() || t.is_empty() {
        return Err(Broken::Rule(21));
    }
    let last = s.len() - 1;
    if s[last] != t[0] {
        return Err(Broken::Rule(22));
    }
    appended(&s[..last], &t[1..])
}

/// All axes but the first, which is there.
pub(crate) fn reduce_shape(of: &Shape) -> Result<Shape, Broken>
    ensures { IsShaped (λ at. rule (Place.Node at) 23 (not (is_scalar of.now))) (remove of.now 0) result }
{
    let s = extents(of);
    if s.is_empty() {
        return Err(Broken::Rule(23));
    }
    limited(&s[1..])
}
