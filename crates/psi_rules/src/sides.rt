// The parts of a join that an index reaches.
ghost use Rattle.std.specs.Prelude.{◌≡◌, ◌+◌, ◌≤◌, ℕ, List};
ghost use Rattle.shapes_core.specs.Limits.{greatest_extent};
ghost use Rattle.normal_form.specs.declared.entry.Entry.TheVariants.{At};
ghost use Rattle.normal_form.specs.Formers.{Making, joining};
ghost use Rattle.normal_form.specs.Cutting.{Scope};
ghost use Rattle.normal_form.specs.Keeps.{IsWithin};
ghost use Rattle.psi_rules.specs.Building.{sided};
ghost use Rattle.psi_rules.specs.Fitting.{IsWithinSide};

use crate::moves::signed;
use normal_form::Entry;

/// The first part, the second one, or either.
#[derive(Clone, Copy)]
pub(crate) enum Side {
    First,
    Second,
    Both,
}

/// The part that a constant is in, where the first has n items.
fn side_of(constant: i64, n: u64) -> Side
    requires { n ≤ greatest_extent }
    ensures joins { (m : ℕ) (first second : Making) → (n ≡ 0 → ⊥) → (m ≡ 0 → ⊥)
        → joining n m (At constant) first second ≡ sided result n (At constant) first second }
    ensures within { (room m : ℕ) (known : Scope) → IsWithin room known (At constant) (n + m)
        → IsWithinSide result room known n m (At constant) }
{
    if constant < signed(n) {
        Side::First
    } else {
        Side::Second
    }
}

/// The parts that an entry can be in, where the first has n items and the second m.
pub(crate) fn reached(n: u64, m: u64, entry: Entry) -> Side
    requires { n ≤ greatest_extent }
    ensures joins { (first second : Making) → joining n m entry first second ≡ sided result n entry first second }
    ensures within { (room : ℕ) (known : Scope) → IsWithin room known entry (n + m) → IsWithinSide result room known n m entry }
{
    if n == 0 {
        return Side::Second;
    }
    if m == 0 {
        return Side::First;
    }
    match entry {
        Entry::At(constant) => side_of(constant, n),
        Entry::Plus { .. } | Entry::Minus { .. } => Side::Both,
    }
}
