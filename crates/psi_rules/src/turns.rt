// Turns of an axis.
ghost use Rattle.std.specs.Prelude.{◌≡◌, ℕ, List, ◌<◌, ◌≤◌, pos};
ghost use Rattle.std.specs.Int.{int_rem_euclid};
ghost use Rattle.shapes_core.specs.Limits.{greatest_extent};
ghost use Rattle.moa_tree.specs.Axes.{turned};
ghost use Rattle.normal_form.specs.declared.entry.Entry.{Entry as AnEntry};
ghost use Rattle.normal_form.specs.declared.entry.Entry.TheVariants.{At};
ghost use Rattle.normal_form.specs.Formers.{Making, turning};
ghost use Rattle.normal_form.specs.Cutting.{Scope};
ghost use Rattle.normal_form.specs.Keeps.{IsWithin};
ghost use Rattle.normal_form.specs.Moves.{turned_constant};
ghost use Rattle.psi_rules.specs.Building.{turned_by};
ghost use Rattle.psi_rules.specs.Fitting.{IsPlace, IsTurnWithin};

use crate::moves::signed;
use normal_form::Entry;

/// The entry of a turned axis: one that is found, or the variable that is bound next.
#[derive(Clone, Copy)]
pub(crate) enum Turned {
    Found(Entry),
    Bound,
}

/// The remainder of a number, never negative, by an extent that is not 0.
fn remainder(number: i64, n: u64) -> i64
    requires some { 0 < n }
    requires small { n ≤ greatest_extent }
    ensures value { result ≡ int_rem_euclid number (pos n) }
    ensures place { IsPlace (At result) n }
{
    number.rem_euclid(signed(n))
}

/// How far an axis of this extent is turned, never negative.
pub(crate) fn turn_of(by: &i64, n: u64) -> u64
    requires some { 0 < n }
    requires small { n ≤ greatest_extent }
    ensures turn { result ≡ turned by.now n 0 }
    ensures below { result < n }
{
    remainder(*by, n).unsigned_abs()
}

/// A constant entry of an axis of n items, turned by a number.
fn turned_constant(by: u64, n: u64, constant: i64) -> i64
    requires below { by < n }
    requires small { n ≤ greatest_extent }
    requires place { IsPlace (At constant) n }
    ensures value { result ≡ turned_constant by n constant }
    ensures place { IsPlace (At result) n }
{
    remainder(constant + signed(by), n)
}

/// An entry of an axis of n items, turned by a number below n.
pub(crate) fn turn_entry(by: u64, n: u64, entry: Entry) -> Turned
    requires below { by < n }
    requires small { n ≤ greatest_extent }
    requires place { IsPlace entry n }
    ensures turns { (rest : AnEntry → Making) → turning by n entry rest ≡ turned_by result by n entry rest }
    ensures within { (room : ℕ) (known : Scope) → IsWithin room known entry n → IsTurnWithin result room known n }
{
    if by == 0 {
        return Turned::Found(entry);
    }
    match entry {
        Entry::At(constant) => Turned::Found(Entry::At(turned_constant(by, n, constant))),
        Entry::Plus { .. } | Entry::Minus { .. } => Turned::Bound,
    }
}
