// The number of which entries are the digits.
ghost use Rattle.std.specs.Prelude.{◌≡◌, ◌≤◌, ◌<◌, length, pos};
ghost use Rattle.shapes_core.specs.Limits.{greatest_extent};
ghost use Rattle.shapes_core.specs.Shape.{span, total};
ghost use Rattle.stride_form.specs.Facts.{agreed, at_zero, common, digit_in, digit_of, digits_of, int_equal, joined, lies, lying, same_entry};
ghost use Rattle.stride_form.specs.Small.{fact_at};

use crate::facts::{Fact, Number};
use crate::table::Table;
use normal_form::Entry;
use shapes_core::Shape;
use shapes_core::laws::span_laws;

/// The number of which a variable is the digit of this weight and extent.
fn digit_in(fact: &Fact, weight: u64, extent: u64) -> Option<Number>
    ensures { result ≡ digit_in fact.now weight extent }
{
    match fact {
        Fact::DigitOf {
            of,
            weight: at,
            extent: n,
        } => {
            if *at == weight && *n == extent {
                Some(*of)
            } else {
                None
            }
        }
        Fact::Range { .. } => None,
        Fact::Alias(_) => None,
        Fact::Offset { .. } => None,
    }
}

/// The number of which an entry is the digit of this weight and extent.
fn digit_of(table: &Table, entry: Entry, weight: u64, extent: u64) -> Option<Number>
    ensures { result ≡ digit_of (fact_at table.now) entry weight extent }
{
    match entry {
        Entry::At(_) => None,
        Entry::Plus { var, add } => {
            if add == 0 {
                digit_in(&table.at(var), weight, extent)
            } else {
                None
            }
        }
        Entry::Minus { .. } => None,
    }
}

/// Whether two entries are the same.
fn same_entry(entry: Entry, other: Entry) -> bool
    ensures { result ≡ same_entry entry other }
{
    match (entry, other) {
        (Entry::At(constant), Entry::At(more)) => constant == more,
        (
            Entry::Plus { var, add },
            Entry::Plus {
                var: other,
                add: more,
            },
        ) => { var == other && add == more }
        (
            Entry::Minus { var, add },
            Entry::Minus {
                var: other,
                add: more,
            },
        ) => { var == other && add == more }
        _ => false,
    }
}

/// The one number of two, if they are one.
fn agreed(number: Number, other: Option<Number>) -> Option<Option<Number>>
    ensures { result ≡ agreed number other }
{
    match other {
        None => Some(Some(number)),
        Some(other) => {
            if same_entry(number.entry, other.entry) {
                Some(Some(number))
            } else {
                None
            }
        }
    }
}

/// The one number of an axis and of others.
fn joined(number: Option<Number>, others: Option<Option<Number>>) -> Option<Option<Number>>
    ensures { result ≡ joined number others }
{
    match number {
        None => None,
        Some(number) => match others {
            None => None,
            Some(others) => agreed(number, others),
        },
    }
}

/// The one number of other axes, where an axis of one item has the constant 0.
fn at_zero(entry: Entry, others: Option<Option<Number>>) -> Option<Option<Number>>
    ensures { result ≡ at_zero entry others }
{
    match entry {
        Entry::At(constant) => { if constant == 0 { others } else { None } }
        Entry::Plus { .. } => None,
        Entry::Minus { .. } => None,
    }
}

/// The product of extents, with each 0 taken as 1.
fn span_of(extents: &[u64]) -> u64
    requires { span extents.now ≤ greatest_extent }
    ensures value { result ≡ span extents.now }
{
    span_laws();
    match extents {
        [] => 1,
        [extent, others @ ..] => (*extent).max(1) * span_of(others),
    }
}

/// The one number of which all axes have digits.
fn common(table: &Table, entries: &[Entry], extents: &[u64]) -> Option<Option<Number>>
    requires { span extents.now ≤ greatest_extent }
    ensures { result ≡ common (fact_at table.now) entries.now extents.now }
{
    let Some((entry, others)) = entries.split_first() else {
        return Some(None);
    };
    let Some((n, behind)) = extents.split_first() else {
        return Some(None);
    };
    span_laws();
    if *n == 1 {
        return at_zero(*entry, common(table, others, behind));
    }
    joined(
        digit_of(table, *entry, span_of(behind), *n),
        common(table, others, behind),
    )
}

/// Whether a number lies in a shape of this total.
fn lies(number: &Number, total: u64) -> bool
    requires { total ≤ greatest_extent }
    ensures { result ≡ lies number.now total }
{
    0 <= number.least && number.greatest < total as i64
}

/// The number, if there is one that lies in a shape of this total.
fn lying(total: u64, found: Option<Option<Number>>) -> Option<Number>
    requires { total ≤ greatest_extent }
    ensures { result ≡ lying total found }
{
    match found {
        None => None,
        Some(None) => None,
        Some(Some(number)) => {
            if lies(&number, total) {
                Some(number)
            } else {
                None
            }
        }
    }
}

/// The number whose digits in a shape these entries are.
pub(crate) fn digits_of(table: &Table, entries: &[Entry], shape: &Shape) -> Option<Number>
    ensures { result ≡ digits_of (fact_at table.now) entries.now shape.now }
{
    lying(
        shapes_core::total(shape),
        common(table, entries, shape.extents()),
    )
}
