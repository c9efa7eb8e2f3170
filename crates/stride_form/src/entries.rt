// Entries by what is known of their variables.
ghost use Rattle.std.specs.Prelude.{◌≡◌, ◌≤◌, ◌<◌, ◌∷◌, length, map, pos, unsigned_abs};
ghost use Rattle.shapes_core.specs.Limits.{greatest_extent};
ghost use Rattle.normal_form.specs.Moves.{minus_entry, raised};
ghost use Rattle.stride_form.specs.Facts.{greatest_of, high_of, in_minus, in_plus, least_of, low_of, resolved};
ghost use Rattle.stride_form.specs.Kept.{most_constant};
ghost use Rattle.stride_form.specs.Small.{AreNearEntries, IsNear, IsSmallFact, fact_at};

use crate::facts::Fact;
use crate::table::Table;
use normal_form::{Entries, Entry};
use shapes_core::MOST_AXES;

/// An entry and a number.
fn raised(by: i64, entry: Entry) -> Entry
    requires by { unsigned_abs by ≤ most_constant }
    requires entry { IsNear most_constant entry }
    ensures { result ≡ raised by entry }
{
    match entry {
        Entry::At(constant) => Entry::At(constant + by),
        Entry::Plus { var, add } => Entry::Plus { var, add: add + by },
        Entry::Minus { var, add } => Entry::Minus { var, add: add + by },
    }
}

/// A number minus an entry.
fn minus(from: i64, entry: Entry) -> Entry
    requires from { unsigned_abs from ≤ most_constant }
    requires entry { IsNear most_constant entry }
    ensures { result ≡ minus_entry from entry }
{
    match entry {
        Entry::At(constant) => Entry::At(from - constant),
        Entry::Plus { var, add } => Entry::Minus {
            var,
            add: from - add,
        },
        Entry::Minus { var, add } => Entry::Plus {
            var,
            add: from - add,
        },
    }
}

/// A variable and a constant, with what the variable stands for in its place.
fn in_plus(fact: &Fact, var: u32, add: i64) -> Entry
    requires fact { IsSmallFact fact.now }
    requires add { unsigned_abs add ≤ most_constant }
    ensures { result ≡ in_plus fact.now var add }
{
    match fact {
        Fact::Alias(entry) => raised(add, *entry),
        Fact::Range { .. } => Entry::Plus { var, add },
        Fact::Offset { .. } => Entry::Plus { var, add },
        Fact::DigitOf { .. } => Entry::Plus { var, add },
    }
}

/// A constant minus a variable, with what the variable stands for in its place.
fn in_minus(fact: &Fact, var: u32, add: i64) -> Entry
    requires fact { IsSmallFact fact.now }
    requires add { unsigned_abs add ≤ most_constant }
    ensures { result ≡ in_minus fact.now var add }
{
    match fact {
        Fact::Alias(entry) => minus(add, *entry),
        Fact::Range { .. } => Entry::Minus { var, add },
        Fact::Offset { .. } => Entry::Minus { var, add },
        Fact::DigitOf { .. } => Entry::Minus { var, add },
    }
}

/// An entry with what its variable stands for in its place.
pub(crate) fn resolved(table: &Table, entry: Entry) -> Entry
    requires { IsNear most_constant entry }
    ensures { result ≡ resolved (fact_at table.now) entry }
{
    match entry {
        Entry::At(constant) => Entry::At(constant),
        Entry::Plus { var, add } => in_plus(&table.at(var), var, add),
        Entry::Minus { var, add } => in_minus(&table.at(var), var, add),
    }
}

/// An entry before others.
fn in_front(entry: Entry, others: &Entries) -> Entries
    requires { length others.now < 6 }
    ensures { result ≡ entry ∷ others.now }
{
    let list = others.list();
    let mut all = [entry; MOST_AXES];
    all[1..=list.len()].copy_from_slice(list);
    Entries::new(&all[..=list.len()]).unwrap()
}

/// Entries with what their variables stand for in their place.
pub(crate) fn resolved_list(table: &Table, list: &[Entry]) -> Entries
    requires few { length list.now ≤ 6 }
    requires near { AreNearEntries list.now }
    ensures { result ≡ map (resolved (fact_at table.now)) list.now }
{
    match list {
        [] => Entries::new(&[]).unwrap(),
        [entry, others @ ..] => in_front(resolved(table, *entry), &resolved_list(table, others)),
    }
}

/// The least number of a variable.
fn low_of(fact: &Fact) -> i64
    requires { IsSmallFact fact.now }
    ensures value { result ≡ pos (low_of fact.now) }
    ensures small { low_of fact.now ≤ greatest_extent }
{
    match fact {
        Fact::Range { low, .. } => *low as i64,
        Fact::Alias(_) => 0,
        Fact::Offset { .. } => 0,
        Fact::DigitOf { .. } => 0,
    }
}

/// The number below which a variable is.
fn high_of(fact: &Fact) -> i64
    requires { IsSmallFact fact.now }
    ensures value { result ≡ pos (high_of fact.now) }
    ensures small { high_of fact.now ≤ greatest_extent }
{
    match fact {
        Fact::Range { high, .. } => *high as i64,
        Fact::Alias(_) => 0,
        Fact::Offset { total, .. } => *total as i64,
        Fact::DigitOf { extent, .. } => *extent as i64,
    }
}

/// The least number that an entry may be.
pub(crate) fn least_of(table: &Table, entry: Entry) -> i64
    requires { IsNear most_constant entry }
    ensures { result ≡ least_of (fact_at table.now) entry }
{
    match entry {
        Entry::At(constant) => constant,
        Entry::Plus { var, add } => low_of(&table.at(var)) + add,
        Entry::Minus { var, add } => add - (high_of(&table.at(var)) - 1),
    }
}

/// The greatest number that an entry may be.
pub(crate) fn greatest_of(table: &Table, entry: Entry) -> i64
    requires { IsNear most_constant entry }
    ensures { result ≡ greatest_of (fact_at table.now) entry }
{
    match entry {
        Entry::At(constant) => constant,
        Entry::Plus { var, add } => (high_of(&table.at(var)) - 1) + add,
        Entry::Minus { var, add } => add - low_of(&table.at(var)),
    }
}
