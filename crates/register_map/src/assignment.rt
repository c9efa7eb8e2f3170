// Each register and place of a nest gets a home of its own.
ghost use Rattle.std.specs.Prelude.{◌≡◌, ◌<◌, ◌≤◌, ◌^◌, ◌++◌, ◌∷◌, [], ℕ, nat_eq, IfOk, OnOk, List, None, Some};
ghost use Rattle.std.specs.List.{AllByRecursion, Contains};
ghost use Rattle.indexmap.specs.IndexMap.{get};
ghost use Rattle.loop_ir.specs.Kept.{EachNamed};
ghost use Rattle.loop_ir.specs.Pool.{tree};
ghost use Rattle.loop_ir.specs.Running.{Key};
ghost use Rattle.register_map.specs.Assigned.{given_to, home_for, word_behind};
ghost use Rattle.register_map.specs.Codes.{IsRising, has_weight, is_among};
ghost use Rattle.register_map.specs.declared.home.Home.TheVariants as home;
ghost use Rattle.register_map.specs.Fits.{IsFit, IsRanked, NamesFew};
ghost use Rattle.register_map.specs.Homes.{code, home_of};

use crate::home::{Home, Homes};
use crate::marks::{heaviest, mark};
use crate::weights::weights_of;
use indexmap::IndexMap;
use loop_ir::Nest;
use loop_ir::laws::needed_is_named;
use shapes_core::NoMemory;
use std::alloc::Global;
use std::collections::BTreeMap;

/// Gives each register and place of a nest a home of its own: the machine registers to the ten that
/// are named most, where each mention counts as often as the loops around it turn, and a counter four
/// times in each turn of its loop, and spill words to the others, in order.
pub fn assign(alloc: Global, nest: &Nest) -> Result<Homes, NoMemory>
    requires { NamesFew (tree nest.now) }
    ensures fits { IfOk result (λ homes. IsFit (tree nest.now) homes) }
    ensures ranked { (codes : List ℕ) → EachNamed (λ key. Contains codes (code key)) (tree nest.now)
        → IfOk result (IsRanked codes) }
    ensures words { IfOk result (λ homes. (key : Key) (word : ℕ) → home_of homes key ≡ Some (home.Spill word) → word ≤ code key) }
{
    needed_is_named();
    let weights = weights_of(alloc, nest)?;
    let marked = heaviest(alloc, &weights)?;
    let codes = codes_of(alloc, &weights)?;
    homes_of(alloc, &codes, &marked)
}

/// The codes that have weights, in rising order.
fn codes_of(alloc: Global, weights: &BTreeMap<u64, u64>) -> Result<Vec<u64>, NoMemory>
    ensures rising { IfOk result (λ codes. IsRising 0 codes.items) }
    ensures all { IfOk result (λ codes. (code : ℕ) → is_among codes.items code ≡ has_weight weights.now.entries code) }
{
    let codes = weights.keys().copied().collect(alloc)?;
    Ok(codes)
}

/// Homes for codes in rising order: machine registers for those that are marked, spill words for
/// the others.
fn homes_of(alloc: Global, codes: &[u64], marked: &[u64]) -> Result<Homes, NoMemory>
    requires rising { IsRising 0 codes.now }
    requires low { AllByRecursion (λ code. code < 2 ^ 31) codes.now }
    ensures { IfOk result (λ homes. homes ≡ given_to marked.now codes.now) }
{
    let mut homes = IndexMap::new(alloc);
    let mut word = 0;
    for code in codes {
        word = give_home(&mut homes, *code, mark(marked, *code), word)?;
    }
    Ok(Homes::new(homes, word))
}

/// Gives a code its home, where this is the next spill word, and answers the next one behind it.
fn give_home(
    homes: &mut IndexMap<u64, Home>,
    code: u64,
    marked: Option<u8>,
    word: u32,
) -> Result<u32, NoMemory>
    requires fresh { get nat_eq homes.old code ≡ None }
    requires room { word ≤ 2 ^ 31 }
    ensures given { OnOk result (homes.new.entries ≡ homes.old.entries ++ (code, home_for marked word) ∷ []) }
    ensures word { IfOk result (λ next. next ≡ word_behind marked word) }
{
    match marked {
        Some(number) => {
            homes.insert(code, Home::Register(number))?;
            Ok(word)
        }
        None => {
            homes.insert(code, Home::Spill(word))?;
            Ok(word + 1)
        }
    }
}
