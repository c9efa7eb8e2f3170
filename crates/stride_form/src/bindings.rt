// What is known of variables by how they are bound, and the offsets of loads.
ghost use Rattle.std.specs.Prelude.{◌≡◌, ◌≤◌, ◌<◌, IfOk, length, map};
ghost use Rattle.shapes_core.specs.Limits.{greatest_extent};
ghost use Rattle.shapes_core.specs.Shape.{IsShape};
ghost use Rattle.normal_form.specs.Moves.{variable};
ghost use Rattle.stride_form.specs.Facts.{digit_fact, fact_of, number_of, offset_fact, plain_walk, resolved, walk_at};
ghost use Rattle.stride_form.specs.Kept.{most_constant};
ghost use Rattle.stride_form.specs.Rules.{load_walk, offset_in, resolved_bind};
ghost use Rattle.stride_form.specs.Small.{AreNearEntries, IsNear, IsNearBind, fact_at};

use crate::collect::{own_walk, walk_of};
use crate::digits::digits_of;
use crate::entries::{greatest_of, least_of, resolved, resolved_list};
use crate::facts::{Fact, Number};
use crate::table::Table;
use crate::walk::Walk;
use normal_form::{Bind, Entries, Entry};
use shapes_core::{NoMemory, Shape, total};
use std::alloc::Global;

/// A variable alone.
fn variable(var: u32) -> Entry
    ensures { result ≡ variable var }
{
    Entry::Plus { var, add: 0 }
}

/// The offset of a load of one axis at a variable alone.
fn plain_walk(fact: &Fact, var: u32) -> Walk
    ensures { result ≡ plain_walk fact.now var }
{
    match fact {
        Fact::Offset { walk, .. } => *walk,
        Fact::Range { .. } => own_walk(variable(var)),
        Fact::Alias(_) => own_walk(variable(var)),
        Fact::DigitOf { .. } => own_walk(variable(var)),
    }
}

/// The offset of a load of one axis at an entry.
fn walk_at(table: &Table, entry: Entry) -> Walk
    ensures { result ≡ walk_at (fact_at table.now) entry }
{
    match entry {
        Entry::At(_) => own_walk(entry),
        Entry::Plus { var, add } => {
            if add == 0 {
                plain_walk(&table.at(var), var)
            } else {
                own_walk(entry)
            }
        }
        Entry::Minus { .. } => own_walk(entry),
    }
}

/// An entry with what is known of it.
fn number_of(table: &Table, entry: Entry) -> Number
    requires { IsNear most_constant entry }
    ensures { result ≡ number_of (fact_at table.now) entry }
{
    Number {
        entry,
        least: least_of(table, entry),
        greatest: greatest_of(table, entry),
        walk: walk_at(table, entry),
    }
}

/// What is known of a digit of an entry.
fn digit_fact(table: &Table, entry: Entry, weight: u64, extent: u64) -> Fact
    requires { IsNear most_constant entry }
    ensures { result ≡ digit_fact (fact_at table.now) entry weight extent }
{
    match entry {
        Entry::At(_) => Fact::Range {
            low: 0,
            high: extent,
        },
        Entry::Plus { .. } => Fact::DigitOf {
            of: number_of(table, entry),
            weight,
            extent,
        },
        Entry::Minus { .. } => Fact::DigitOf {
            of: number_of(table, entry),
            weight,
            extent,
        },
    }
}

/// What is known of an offset of entries, which may be the digits of a number.
fn offset_fact(
    alloc: Global,
    number: Option<Number>,
    entries: &[Entry],
    shape: &Shape,
) -> Result<Fact, NoMemory>
    requires few { length entries.now ≤ 6 }
    requires near { AreNearEntries entries.now }
    ensures { IfOk result (λ fact. fact ≡ offset_fact number entries.now shape.now) }
{
    match number {
        Some(number) => Ok(Fact::Alias(number.entry)),
        None => {
            let walk = walk_of(alloc, entries, shape)?;
            Ok(Fact::Offset {
                total: total(shape),
                walk,
            })
        }
    }
}

/// What is known of a variable that is bound so.
#[inline(never)]
pub(crate) fn fact_of(alloc: Global, table: &Table, bind: &Bind) -> Result<Fact, NoMemory>
    requires { IsNearBind bind.now }
    ensures { IfOk result (λ fact. fact ≡ fact_of (fact_at table.now) bind.now) }
{
    match bind {
        Bind::Turn { extent, .. } => Ok(Fact::Range {
            low: 0,
            high: *extent,
        }),
        Bind::Flat { of, shape } => {
            let number = digits_of(table, of.list(), shape);
            offset_fact(alloc, number, of.list(), shape)
        }
        Bind::Digit { of, weight, extent } => Ok(digit_fact(table, *of, *weight, *extent)),
    }
}

/// A binding with what is known in the place of variables.
#[inline(never)]
pub(crate) fn resolved_bind(table: &Table, bind: &Bind) -> Bind
    requires { IsNearBind bind.now }
    ensures { result ≡ resolved_bind (fact_at table.now) bind.now }
{
    match bind {
        Bind::Turn { of, by, extent } => Bind::Turn {
            of: resolved(table, *of),
            by: *by,
            extent: *extent,
        },
        Bind::Flat { of, shape } => Bind::Flat {
            of: resolved_list(table, of.list()),
            shape: *shape,
        },
        Bind::Digit { of, weight, extent } => Bind::Digit {
            of: resolved(table, *of),
            weight: *weight,
            extent: *extent,
        },
    }
}

/// The offset of a load that is no load at the digits of a number.
fn load_walk(
    alloc: Global,
    table: &Table,
    entries: &[Entry],
    shape: &Shape,
) -> Result<Walk, NoMemory>
    requires few { length entries.now ≤ 6 }
    requires near { AreNearEntries entries.now }
    ensures { IfOk result (λ walk. walk ≡ load_walk (fact_at table.now) entries.now shape.now) }
{
    if shape.extents().len() == 1 {
        let first = entries.first().copied().unwrap_or(Entry::At(0));
        return Ok(walk_at(table, first));
    }
    walk_of(alloc, entries, shape)
}

/// The offset of a load at entries.
#[inline(never)]
pub(crate) fn offset_in(
    alloc: Global,
    table: &Table,
    entries: &Entries,
    shape: &Shape,
) -> Result<Walk, NoMemory>
    requires { AreNearEntries entries.now }
    ensures { IfOk result (λ walk. walk ≡ offset_in (fact_at table.now) entries.now shape.now) }
{
    match digits_of(table, entries.list(), shape) {
        Some(number) => Ok(number.walk),
        None => load_walk(alloc, table, entries.list(), shape),
    }
}
