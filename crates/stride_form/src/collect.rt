// The row-major offset of entries, collected by variables, from the last axis to the first.
ghost use Rattle.std.specs.Prelude.{◌≡◌, ◌≤◌, ◌<◌, ◌^◌, ◌+ℤ◌, ◌*ℤ◌, ◌*◌, ℕ, [], pos, IfOk, length, slice_index_or, unsigned_abs};
ghost use Rattle.shapes_core.specs.Limits.{greatest_extent};
ghost use Rattle.shapes_core.specs.Shape.{span, total};
ghost use Rattle.stride_form.specs.Accesses.{AreNear, constant_of, strides_with, walk_of, with_stride};
ghost use Rattle.stride_form.specs.Facts.{own_walk};
ghost use Rattle.stride_form.specs.Kept.{most_constant};
ghost use Rattle.stride_form.specs.Small.{AreNearEntries, IsNear};

use crate::walk::Walk;
use normal_form::{Entry, Strides};
use shapes_core::laws::span_laws;
use shapes_core::{NoMemory, Shape};
use std::alloc::Global;

/// The row-major offset of entries in a shape.
#[derive(Drop)]
struct Walked {
    start: i64,
    strides: Vec<(u32, i64)>,
}

/// The offset of entries in a shape.
pub(crate) fn walk_of(alloc: Global, entries: &[Entry], shape: &Shape) -> Result<Walk, NoMemory>
    requires few { length entries.now ≤ 6 }
    requires near { AreNearEntries entries.now }
    ensures { IfOk result (λ walk. walk ≡ walk_of entries.now shape.now) }
{
    let offset = collect(alloc, entries, shape.extents())?;
    Ok(Walk {
        start: offset.start,
        strides: Strides::new(&offset.strides).unwrap(),
    })
}

/// The offset of an entry of one axis.
pub(crate) fn own_walk(entry: Entry) -> Walk
    ensures { result ≡ own_walk entry }
{
    match entry {
        Entry::At(constant) => Walk {
            start: constant,
            strides: Strides::new(&[]).unwrap(),
        },
        Entry::Plus { var, add } => Walk {
            start: add,
            strides: Strides::new(&[(var, 1)]).unwrap(),
        },
        Entry::Minus { var, add } => Walk {
            start: add,
            strides: Strides::new(&[(var, -1)]).unwrap(),
        },
    }
}

/// The offset of entries, one an axis of these extents.
fn collect(alloc: Global, entries: &[Entry], extents: &[u64]) -> Result<Walked, NoMemory>
    requires few { length entries.now ≤ 6 }
    requires near { AreNearEntries entries.now }
    requires small { span extents.now ≤ greatest_extent }
    ensures start { IfOk result (λ made. made.start ≡ (walk_of entries.now extents.now).start) }
    ensures strides { IfOk result (λ made. made.strides.items ≡ (walk_of entries.now extents.now).strides) }
{
    let Some((entry, entries)) = entries.split_first() else {
        return Ok(no_offset(alloc));
    };
    let Some((_, extents)) = extents.split_first() else {
        return Ok(no_offset(alloc));
    };
    let Walked { start, mut strides } = collect(alloc, entries, extents)?;
    let weight = total_of(extents);
    add_entry(&mut strides, weight, *entry)?;
    Ok(Walked {
        start: start_with(weight, *entry, start),
        strides,
    })
}

/// The offset of no entry.
fn no_offset(alloc: Global) -> Walked
    ensures start { result.start ≡ pos 0 }
    ensures strides { result.strides.items ≡ [] }
{
    Walked {
        start: 0,
        strides: Vec::new(alloc),
    }
}

/// The product of extents.
fn total_of(extents: &[u64]) -> i64
    requires { span extents.now ≤ greatest_extent }
    ensures value { result ≡ pos (total extents.now) }
    ensures small { total extents.now ≤ greatest_extent }
{
    span_laws();
    match extents {
        [] => 1,
        [extent, others @ ..] => *extent as i64 * total_of(others),
    }
}

/// The start with an entry more.
fn start_with(weight: i64, entry: Entry, start: i64) -> i64
    requires weight { unsigned_abs weight ≤ greatest_extent }
    requires near { IsNear most_constant entry }
    requires room { unsigned_abs start ≤ 5 * (greatest_extent * most_constant) }
    ensures { result ≡ start +ℤ weight *ℤ constant_of entry }
{
    start + weight * constant_of(entry)
}

/// The constant of an entry.
fn constant_of(entry: Entry) -> i64
    ensures { result ≡ constant_of entry }
{
    match entry {
        Entry::At(constant) => constant,
        Entry::Plus { add, .. } => add,
        Entry::Minus { add, .. } => add,
    }
}

/// Adds the stride of an entry on an axis of this weight.
fn add_entry(strides: &mut Vec<(u32, i64)>, weight: i64, entry: Entry) -> Result<(), NoMemory>
    requires weight { unsigned_abs weight ≤ greatest_extent }
    requires near { AreNear (2 ^ 62) strides.old.items }
    ensures { IfOk result (λ _. strides.new.items ≡ strides_with weight entry strides.old.items) }
{
    match entry {
        Entry::At(_) => Ok(()),
        Entry::Plus { var, .. } => add_stride(strides, var, weight),
        Entry::Minus { var, .. } => add_stride(strides, var, -weight),
    }
}

/// Adds a stride at the rising variable, or to the stride that is there.
fn add_stride(strides: &mut Vec<(u32, i64)>, var: u32, stride: i64) -> Result<(), NoMemory>
    requires stride { unsigned_abs stride ≤ greatest_extent }
    requires near { AreNear (2 ^ 62) strides.old.items }
    ensures { IfOk result (λ _. strides.new.items ≡ with_stride var stride strides.old.items) }
{
    let place = place(strides, var);
    if place < strides.len() && strides[place].0 == var {
        let sum = strides[place].1 + stride;
        strides[place] = (var, sum);
    } else {
        strides.insert(place, (var, stride))?;
    }
    Ok(())
}

/// How many strides are of smaller variables, where they stand by rising variable.
fn place(strides: &[(u32, i64)], var: u32) -> usize
    ensures within { result ≤ length strides.now }
    ensures smaller { (k : ℕ) → k < result → (slice_index_or strides.now k (0, pos 0)).0 < var }
    ensures next { result < length strides.now → var ≤ (slice_index_or strides.now result (0, pos 0)).0 }
{
    for place in 0..strides.len() {
        if var <= strides[place].0 {
            return place;
        }
    }
    strides.len()
}
