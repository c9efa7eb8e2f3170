// Walks that are not made yet: the words by which the number in a home is behind that of its place.
ghost use Rattle.std.specs.Prelude.{◌≡◌, ◌+ℤ◌, OnOk, if◌then◌else◌};
ghost use Rattle.std.specs.Int.{int_wrap, w64};
ghost use Rattle.rv_emit.specs.Walks.{is_home, owed_at, with_walk, without};

use register_map::Home;
use shapes_core::NoMemory;

/// A home, and the words that it owes.
pub(crate) type Debt = (Home, i64);

fn is_home(one: Home, other: Home) -> bool
    ensures { result ≡ is_home one other }
{
    match one {
        Home::Register(number) => match other {
            Home::Register(register) => number == register,
            Home::Spill(_) => false,
        },
        Home::Spill(number) => match other {
            Home::Register(_) => false,
            Home::Spill(word) => number == word,
        },
    }
}

/// The words that a home owes: the sum where it stands more than once.
pub(crate) fn owed_at(owed: &[Debt], home: Home) -> i64
    ensures { result ≡ owed_at owed.now home }
{
    let mut words = 0i64;
    for debt in owed {
        words = with_debt(words, *debt, home);
    }
    words
}

/// Words that a home owes, and those of one debt more where that is its own.
fn with_debt(words: i64, debt: Debt, home: Home) -> i64
    ensures { result ≡ if is_home debt.0 home then int_wrap w64 (words +ℤ debt.1) else words }
{
    if is_home(debt.0, home) {
        sum(words, debt.1)
    } else {
        words
    }
}

/// A home that is set owes nothing.
pub(crate) fn forget(owed: &mut Vec<Debt>, home: Home)
    ensures { owed.new.items ≡ without owed.old.items home }
{
    owed.retain(|debt| !is_home(debt.0, home));
}

/// Numbers of words wrap at 64 bits, as addresses do.
pub(crate) fn sum(words: i64, more: i64) -> i64
    ensures { result ≡ int_wrap w64 (words +ℤ more) }
{
    words.wrapping_add(more)
}

/// A home walks on by some words.
pub(crate) fn walk(owed: &mut Vec<Debt>, home: Home, words: i64) -> Result<(), NoMemory>
    ensures { OnOk result (owed.new.items ≡ with_walk owed.old.items home words) }
{
    for place in 0..owed.len() {
        let debt = owed[place];
        if is_home(debt.0, home) {
            owed[place] = (debt.0, sum(debt.1, words));
            return Ok(());
        }
    }
    owed.push((home, words))?;
    Ok(())
}
