// The places of a nest, with their words and strides.
ghost use Rattle.std.specs.Prelude.{◌≡◌, ◌++◌, ◌∷◌, [], ◌+◌, pos, ◌+ℤ◌, ◌*ℤ◌, IfOk, IfSome, OnOk};
ghost use Rattle.shapes_core.specs.Shape.{total};
ghost use Rattle.stride_form.specs.Accesses.{walked};
ghost use Rattle.nest_build.specs.Coding.{spot_of, spots_of, weights_from, word_of};
ghost use Rattle.nest_build.specs.Nests.{own_access, spots_from, start_of, stride_along};
ghost use Rattle.nest_build.specs.Parts.{low_of};

use crate::axes::low_of;
use crate::numbers::next;
use shapes_core::{Area, NoMemory, Shape};
use std::alloc::Global;
use stride_form::{Access, Strides};

/// A place of a nest: the word to which it is set, and its strides along variables.
#[derive(Clone, Copy)]
pub(crate) struct Stand {
    pub(crate) place: u32,
    pub(crate) word: i64,
    pub(crate) strides: Strides,
}

/// Adds the places of accesses, from this number on, each at its first word in a region.
pub(crate) fn push_stands(
    out: &mut Vec<Stand>,
    areas: &[Area],
    region: &[(u64, u64)],
    first: u32,
    accesses: &[Access],
) -> Result<(), NoMemory>
    ensures { OnOk result (spots_of out.new.items ≡ spots_of out.old.items ++ spots_from areas.now region.now first accesses.now) }
{
    let mut place = first;
    let mut left = accesses;
    while let Some((access, others)) = left.split_first() {
        push_stand(out, areas, region, place, access)?;
        place = next(place)?;
        left = others;
    }
    Ok(())
}

/// Adds the place of an access.
fn push_stand(
    out: &mut Vec<Stand>,
    areas: &[Area],
    region: &[(u64, u64)],
    place: u32,
    access: &Access,
) -> Result<(), NoMemory>
    ensures { OnOk result (spots_of out.new.items
        ≡ spots_of out.old.items ++ record { place = place; word = word_of areas.now region.now access.now; strides = access.now.strides } ∷ []) }
{
    let Some(word) = word_of(areas, region, access) else {
        return Err(NoMemory);
    };
    out.push(Stand {
        place,
        word,
        strides: access.strides,
    })?;
    Ok(())
}

/// The first word of an access in a region.
fn word_of(areas: &[Area], region: &[(u64, u64)], access: &Access) -> Option<i64>
    ensures { IfSome result (λ word. word ≡ word_of areas.now region.now access.now) }
{
    let Some(walked) = walked(region, access.strides.list()) else {
        return None;
    };
    let Some(offset) = access.start.checked_add(walked) else {
        return None;
    };
    let Ok(start) = i64::try_from(start_of(areas, access.area)) else {
        return None;
    };
    start.checked_add(offset)
}

/// Where an area begins, and 0 where there is none.
fn start_of(areas: &[Area], number: u32) -> u64
    ensures { result ≡ start_of areas.now number }
{
    let Some(area) = areas.get(number as usize) else {
        return 0;
    };
    area.start
}

/// The sum of strides, at most 6, times the least numbers of their variables.
fn walked(region: &[(u64, u64)], strides: &[(u32, i64)]) -> Option<i64>
    ensures { IfSome result (λ sum. sum ≡ walked (low_of region.now) strides.now) }
{
    let Some((stride, others)) = strides.split_first() else {
        return Some(0);
    };
    let Some(part) = times(stride.1, low_of(region, stride.0)) else {
        return None;
    };
    let Some(rest) = walked(region, others) else {
        return None;
    };
    part.checked_add(rest)
}

/// A stride times a count.
fn times(stride: i64, count: u64) -> Option<i64>
    ensures { IfSome result (λ product. product ≡ stride *ℤ pos count) }
{
    let Ok(count) = i64::try_from(count) else {
        return None;
    };
    stride.checked_mul(count)
}

/// The elements of the job's own array, at the index vector of its variables.
pub(crate) fn own_access(alloc: Global, area: u32, shape: &Shape) -> Result<Access, NoMemory>
    ensures { IfOk result (λ access. access ≡ own_access area shape.now) }
{
    let mut weights = Vec::new(alloc);
    push_weights(&mut weights, 0, shape.extents())?;
    let Some(strides) = Strides::new(&weights) else {
        return Err(NoMemory);
    };
    Ok(Access {
        area,
        start: 0,
        strides,
    })
}

/// Adds the weights of axes, at most 6, as strides of variables from this one on.
fn push_weights(out: &mut Vec<(u32, i64)>, var: u32, extents: &[u64]) -> Result<(), NoMemory>
    ensures { OnOk result (out.new.items ≡ out.old.items ++ weights_from var extents.now) }
{
    let Some((_, others)) = extents.split_first() else {
        return Ok(());
    };
    let Some(weight) = total_of(others) else {
        return Err(NoMemory);
    };
    out.push((var, weight))?;
    push_weights(out, next(var)?, others)
}

/// The product of at most 6 extents.
fn total_of(extents: &[u64]) -> Option<i64>
    ensures { IfSome result (λ product. product ≡ pos (total extents.now)) }
{
    let Some((extent, others)) = extents.split_first() else {
        return Some(1);
    };
    let Some(rest) = total_of(others) else {
        return None;
    };
    times(rest, *extent)
}

/// How far an access moves along a variable: the sum of its strides there.
pub(crate) fn stride_along(strides: &[(u32, i64)], var: u32) -> Option<i64>
    ensures { IfSome result (λ stride. stride ≡ stride_along strides.now var) }
{
    let Some((first, others)) = strides.split_first() else {
        return Some(0);
    };
    let Some(rest) = stride_along(others, var) else {
        return None;
    };
    if first.0 == var {
        return first.1.checked_add(rest);
    }
    Some(rest)
}
