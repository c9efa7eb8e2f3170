// What operators do to entries.
ghost use Rattle.std.specs.Prelude.{◌≡◌, ◌++◌, ◌∷◌, ◌-ℤ◌, ◌<ℤ◌, ◌+◌, ◌-◌, ◌<◌, ◌≤◌, ◌==◌, [], drop, length, map, pos, reverse, slice_index_or, take, unsigned_abs};
ghost use Rattle.std.specs.List.{AllByRecursion, position_or_len, range_with_len};
ghost use Rattle.shapes_core.specs.Limits.{greatest_extent, most_axes};
ghost use Rattle.moa_tree.specs.Axes.{each_place, naturals, on_axis, own_index, restored};
ghost use Rattle.normal_form.specs.declared.entry.Entry.TheVariants.{At};
ghost use Rattle.normal_form.specs.Moves.{behind_entry, minus_entry, mirrored_entry, raised, remaining_entry, taken_entry, variable, variables};
ghost use Rattle.psi_rules.specs.Fitting.{AreExtents, IsFit};
ghost use Rattle.psi_rules.specs.Rules.{entry_on};

use normal_form::{Entries, Entry};
use shapes_core::{MOST_AXES, Shape};

/// The entries of a list.
pub(crate) fn listed(list: &[Entry]) -> Entries
    requires { length list.now ≤ most_axes }
    ensures { result ≡ list.now }
{
    Entries::new(list).unwrap()
}

/// The last entries, one for each axis of an operand.
#[inline(never)]
pub(crate) fn own(shape: &Shape, entries: &Entries) -> Entries
    ensures { result ≡ own_index shape.now entries.now }
{
    let list = entries.list();
    let axes = shape.extents().len();
    listed(&list[list.len().saturating_sub(axes)..])
}

/// The entries of as many axes in front.
#[inline(never)]
pub(crate) fn front(axes: usize, entries: &Entries) -> Entries
    ensures { result ≡ take axes entries.now }
{
    let list = entries.list();
    listed(&list[..axes.min(list.len())])
}

/// The entries behind as many axes.
#[inline(never)]
pub(crate) fn behind(axes: usize, entries: &Entries) -> Entries
    ensures { result ≡ drop axes entries.now }
{
    let list = entries.list();
    listed(&list[axes.min(list.len())..])
}

/// The entries in reverse.
#[inline(never)]
pub(crate) fn mirrored(entries: &Entries) -> Entries
    ensures { result ≡ reverse entries.now }
{
    let list = entries.list();
    let mut buffer = [Entry::At(0); MOST_AXES];
    let reversed = &mut buffer[..list.len()];
    reversed.copy_from_slice(list);
    reversed.reverse();
    listed(reversed)
}

/// The entry on an axis, and 0 where there is none.
pub(crate) fn entry_on(axis: usize, entries: &Entries) -> Entry
    ensures { result ≡ entry_on axis entries.now }
{
    entries.list().get(axis).copied().unwrap_or(Entry::At(0))
}

/// A small number as an `i64`.
pub(crate) fn signed(n: u64) -> i64
    requires { n ≤ greatest_extent }
    ensures { result ≡ pos n }
{
    n as i64
}

/// The difference of two small numbers.
fn difference(n: u64, m: u64) -> i64
    requires first { n ≤ greatest_extent }
    requires second { m ≤ greatest_extent }
    ensures { result ≡ pos n -ℤ pos m }
{
    signed(n) - signed(m)
}

/// An extent less the size of a negative number.
fn from_end(n: u64, k: i64) -> i64
    requires small { n ≤ greatest_extent }
    requires negative { k <ℤ pos 0 }
    ensures { result ≡ pos n -ℤ pos (unsigned_abs k) }
{
    signed(n) + k
}

/// An entry and a number.
fn raised(by: i64, entry: Entry) -> Entry
    requires { IsFit (raised by entry) }
    ensures { result ≡ raised by entry }
{
    match entry {
        Entry::At(constant) => Entry::At(constant + by),
        Entry::Plus { var, add } => Entry::Plus { var, add: add + by },
        Entry::Minus { var, add } => Entry::Minus { var, add: add + by },
    }
}

/// A number minus an entry.
fn minus(from: i64, entry: Entry) -> Entry
    requires { IsFit (minus_entry from entry) }
    ensures { result ≡ minus_entry from entry }
{
    match entry {
        Entry::At(constant) => Entry::At(from - constant),
        Entry::Plus { var, add } => Entry::Minus {
            var,
            add: from - add,
        },
        Entry::Minus { var, add } => Entry::Plus {
            var,
            add: from - add,
        },
    }
}

/// An entry before others.
#[inline(never)]
pub(crate) fn in_front(entry: Entry, entries: &Entries) -> Entries
    requires { length entries.now < most_axes }
    ensures { result ≡ entry ∷ entries.now }
{
    let list = entries.list();
    let mut buffer = [entry; MOST_AXES];
    buffer[1..=list.len()].copy_from_slice(list);
    listed(&buffer[..=list.len()])
}

/// Puts an entry before others.
#[inline(never)]
pub(crate) fn put_in_front(entry: Entry, entries: &mut Entries)
    requires { length entries.old < most_axes }
    ensures { entries.new ≡ entry ∷ entries.old }
{
    *entries = in_front(entry, entries);
}

/// Turns entries round.
#[inline(never)]
pub(crate) fn turn_round(entries: &mut Entries)
    ensures { entries.new ≡ reverse entries.old }
{
    *entries = mirrored(entries);
}

/// Constants before the entries.
#[inline(never)]
pub(crate) fn indexed(list: &[i64], entries: &Entries) -> Entries
    requires { length list.now + length entries.now ≤ most_axes }
    ensures indexed { result ≡ map At list.now ++ entries.now }
    ensures many { length result ≡ length list.now + length entries.now }
{
    match list.split_first() {
        None => *entries,
        Some((first, others)) => in_front(Entry::At(*first), &indexed(others, entries)),
    }
}

/// The entry of an axis of which this is taken.
fn taken_entry(k: i64, n: u64, entry: Entry) -> Entry
    requires small { n ≤ greatest_extent }
    requires fits { IsFit (taken_entry k n entry) }
    ensures { result ≡ taken_entry k n entry }
{
    if k >= 0 {
        return entry;
    }
    raised(from_end(n, k), entry)
}

/// The entry of an axis of which this is dropped.
fn remaining_entry(k: i64, n: u64, entry: Entry) -> Entry
    requires { IsFit (remaining_entry k n entry) }
    ensures { result ≡ remaining_entry k n entry }
{
    let _extent = n;
    if k >= 0 { raised(k, entry) } else { entry }
}

/// The entries of some axes, of each of which this is taken.
fn each_taken(list: &[i64], extents: &[u64], entries: &[Entry]) -> Entries
    requires few { length entries.now ≤ most_axes }
    requires small { AreExtents extents.now }
    requires fits { AllByRecursion IsFit (each_place taken_entry list.now extents.now entries.now) }
    ensures taken { result ≡ each_place taken_entry list.now extents.now entries.now }
    ensures many { length result ≡ length entries.now }
{
    let Some((k, numbers)) = list.split_first() else {
        return listed(entries);
    };
    let Some((n, axes)) = extents.split_first() else {
        return listed(entries);
    };
    let Some((entry, others)) = entries.split_first() else {
        return listed(entries);
    };
    in_front(
        taken_entry(*k, *n, *entry),
        &each_taken(numbers, axes, others),
    )
}

/// The entries of some axes, of each of which this is dropped.
fn each_remaining(list: &[i64], extents: &[u64], entries: &[Entry]) -> Entries
    requires few { length entries.now ≤ most_axes }
    requires small { AreExtents extents.now }
    requires fits { AllByRecursion IsFit (each_place remaining_entry list.now extents.now entries.now) }
    ensures remaining { result ≡ each_place remaining_entry list.now extents.now entries.now }
    ensures many { length result ≡ length entries.now }
{
    let Some((k, numbers)) = list.split_first() else {
        return listed(entries);
    };
    let Some((n, axes)) = extents.split_first() else {
        return listed(entries);
    };
    let Some((entry, others)) = entries.split_first() else {
        return listed(entries);
    };
    in_front(
        remaining_entry(*k, *n, *entry),
        &each_remaining(numbers, axes, others),
    )
}

/// The entries of an operand of which as much of each axis is taken.
#[inline(never)]
pub(crate) fn taken(list: &[i64], shape: &Shape, entries: &Entries) -> Entries
    requires { AllByRecursion IsFit (each_place taken_entry list.now shape.now entries.now) }
    ensures { result ≡ each_place taken_entry list.now shape.now entries.now }
{
    each_taken(list, shape.extents(), entries.list())
}

/// The entries of an operand of which as much of each axis is dropped.
#[inline(never)]
pub(crate) fn dropped(list: &[i64], shape: &Shape, entries: &Entries) -> Entries
    requires { AllByRecursion IsFit (each_place remaining_entry list.now shape.now entries.now) }
    ensures { result ≡ each_place remaining_entry list.now shape.now entries.now }
{
    each_remaining(list, shape.extents(), entries.list())
}

/// The entries with the first axis in reverse.
#[inline(never)]
pub(crate) fn reversed(shape: &Shape, entries: &Entries) -> Entries
    requires { AllByRecursion IsFit (on_axis 0 mirrored_entry shape.now entries.now) }
    ensures { result ≡ on_axis 0 mirrored_entry shape.now entries.now }
{
    let Some((n, _)) = shape.extents().split_first() else {
        return *entries;
    };
    let Some((entry, others)) = entries.list().split_first() else {
        return *entries;
    };
    in_front(minus(difference(*n, 1), *entry), &listed(others))
}

/// The entries behind the first part of a join.
#[inline(never)]
pub(crate) fn past(shape: &Shape, entries: &Entries) -> Entries
    requires { AllByRecursion IsFit (on_axis 0 behind_entry shape.now entries.now) }
    ensures { result ≡ on_axis 0 behind_entry shape.now entries.now }
{
    let Some((n, _)) = shape.extents().split_first() else {
        return *entries;
    };
    let Some((entry, others)) = entries.list().split_first() else {
        return *entries;
    };
    in_front(raised(difference(0, *n), *entry), &listed(others))
}

/// The entries with another one on the first axis.
#[inline(never)]
pub(crate) fn replaced(shape: &Shape, entry: Entry, entries: &Entries) -> Entries
    ensures { result ≡ on_axis 0 (λ extent old. entry) shape.now entries.now }
{
    let Some((_, _)) = shape.extents().split_first() else {
        return *entries;
    };
    let Some((_, others)) = entries.list().split_first() else {
        return *entries;
    };
    in_front(entry, &listed(others))
}

/// A variable alone.
pub(crate) fn variable(var: u32) -> Entry
    ensures { result ≡ variable var }
{
    Entry::Plus { var, add: 0 }
}

/// An entry behind others.
fn at_end(entries: &[Entry], entry: Entry) -> Entries
    requires { length entries.now < most_axes }
    ensures all { result ≡ entries.now ++ entry ∷ [] }
    ensures many { length result ≡ length entries.now + 1 }
{
    match entries.split_first() {
        None => listed(&[entry]),
        Some((first, others)) => in_front(*first, &at_end(others, entry)),
    }
}

/// The entries for all axes of an operand but its last one, and an entry for that one.
#[inline(never)]
pub(crate) fn with_last(shape: &Shape, entries: &Entries, entry: Entry) -> Entries
    ensures { result ≡ take (length shape.now - 1) entries.now ++ entry ∷ [] }
{
    let axes = shape.extents().len().saturating_sub(1);
    let list = front(axes, entries);
    at_end(list.list(), entry)
}

/// An entry for the first axis of an operand, and those behind the axes of another one but its
/// last.
#[inline(never)]
pub(crate) fn with_first(shape: &Shape, entries: &Entries, entry: Entry) -> Entries
    requires { length entries.now < most_axes + (length shape.now - 1) }
    ensures { result ≡ entry ∷ drop (length shape.now - 1) entries.now }
{
    let axes = shape.extents().len().saturating_sub(1);
    in_front(entry, &behind(axes, entries))
}

/// The place of an axis in a permutation, or its length where it is not there.
fn place_of(list: &[i64], axis: usize) -> usize
    ensures within { result ≤ length list.now }
    ensures place { result ≡ position_or_len (λ p. p == axis) (naturals list.now) }
{
    match list.split_first() {
        None => 0,
        Some((first, others)) => {
            if first.unsigned_abs() == axis as u64 {
                0
            } else {
                1 + place_of(others, axis)
            }
        }
    }
}

/// The entries of an operand whose axes are permuted, from an axis on.
fn restored_from(axis: usize, list: &[i64], entries: &Entries) -> Entries
    requires within { axis ≤ length list.now }
    requires few { length list.now ≤ most_axes }
    ensures restored { result
        ≡ map (λ axis. slice_index_or entries.now (position_or_len (λ p. p == axis) (naturals list.now)) (At (pos 0)))
        (range_with_len axis (length list.now - axis)) }
    ensures many { length result ≡ length list.now - axis }
{
    if axis == list.len() {
        return listed(&[]);
    }
    let entry = entry_on(place_of(list, axis), entries);
    in_front(entry, &restored_from(axis + 1, list, entries))
}

/// The entries of an operand whose axes are permuted.
#[inline(never)]
pub(crate) fn restored(list: &[i64], entries: &Entries) -> Entries
    requires { length list.now ≤ most_axes }
    ensures { result ≡ restored (At (pos 0)) (naturals list.now) entries.now }
{
    restored_from(0, list, entries)
}

/// The variables from this one on, up to one for each axis.
fn variables_from(var: u32, axes: u32) -> Entries
    requires within { var ≤ axes }
    requires few { axes ≤ most_axes }
    ensures variables { result ≡ map variable (range_with_len var (axes - var)) }
    ensures many { length result ≡ axes - var }
{
    if var == axes {
        return listed(&[]);
    }
    in_front(variable(var), &variables_from(var + 1, axes))
}

/// The entries of a job, a variable an axis.
pub(crate) fn variables(axes: u32) -> Entries
    requires { axes ≤ most_axes }
    ensures { result ≡ variables axes }
{
    variables_from(0, axes)
}
