// How often the registers and places of a nest are named, by their codes.
ghost use Rattle.std.specs.Prelude.{◌≡◌, ◌<◌, ◌≤◌, ◌∷◌, ℕ, [], IfOk, OnOk, length};
ghost use Rattle.std.specs.List.{AllByRecursion};
ghost use Rattle.loop_ir.specs.Pool.{inner_lists, steps_of, tree, tree_at, trees_from};
ghost use Rattle.loop_ir.specs.Steps.{End};
ghost use Rattle.register_map.specs.Codes.{Weighs, codes_of, has_weight, is_among};

use crate::codes::{place_code, register_code};
use loop_ir::laws::lists_in_order;
use loop_ir::{Nest, Step};
use shapes_core::NoMemory;
use std::alloc::Global;
use std::collections::BTreeMap;

/// How often a turn of a loop names its counter.
const COUNTER: u64 = 4;

/// The codes of all registers and places that a nest names, each with how often it is named, where
/// a mention counts as often as the loops around it turn.
pub(crate) fn weights_of(alloc: Global, nest: &Nest) -> Result<BTreeMap<u64, u64>, NoMemory>
    ensures { IfOk result (λ weights. (code : ℕ) → has_weight weights.entries code ≡ is_among (codes_of (tree nest.now)) code) }
{
    let mut weights = BTreeMap::new(alloc);
    prove!(nest.lists() > 0);
    weigh_list(nest, 0, 1, &mut weights)?;
    Ok(weights)
}

/// Adds the mentions of a list that is done so often.
#[cycle(mentions)]
fn weigh_list(
    nest: &Nest,
    number: u32,
    turns: u64,
    weights: &mut BTreeMap<u64, u64>,
) -> Result<(), NoMemory>
    requires { number < length nest.now }
    ensures { OnOk result (Weighs (codes_of (tree_at (trees_from 0 nest.now) number)) weights.old.entries weights.new.entries) }
{
    lists_in_order();
    for step in nest.list(number) {
        weigh_step(nest, *step, turns, weights)?;
    }
    Ok(())
}

/// Adds the mentions of a step that is done so often.
#[cycle(mentions)]
fn weigh_step(
    nest: &Nest,
    step: Step,
    turns: u64,
    weights: &mut BTreeMap<u64, u64>,
) -> Result<(), NoMemory>
    requires { AllByRecursion (λ inner. inner < length nest.now) (inner_lists step) }
    ensures { OnOk result (Weighs (codes_of (steps_of (tree_at (trees_from 0 nest.now)) (step ∷ []))) weights.old.entries weights.new.entries) }
{
    match step {
        Step::For {
            counter,
            turns: times,
            body,
        } => {
            let within = turns.saturating_mul(times);
            weigh(
                weights,
                register_code(counter),
                within.saturating_mul(COUNTER),
            )?;
            weigh_list(nest, body, within, weights)
        }
        Step::If { left, yes, no, .. } => {
            weigh(weights, register_code(left), turns)?;
            weigh_list(nest, yes, turns, weights)?;
            weigh_list(nest, no, turns, weights)
        }
        plain => weigh_action(plain, turns, weights),
    }
}

/// Adds the mentions of a step that does no list.
fn weigh_action(step: Step, turns: u64, weights: &mut BTreeMap<u64, u64>) -> Result<(), NoMemory>
    requires { inner_lists step ≡ [] }
    ensures { OnOk result (Weighs (codes_of (steps_of (λ inner. End) (step ∷ []))) weights.old.entries weights.new.entries) }
{
    match step {
        Step::Set { to, .. } => weigh_all(weights, &[register_code(to)], turns),
        Step::Copy { to, from } | Step::One { to, from, .. } => {
            weigh_all(weights, &[register_code(to), register_code(from)], turns)
        }
        Step::Two {
            to,
            left,
            right,
            ..
        } => weigh_all(
            weights,
            &[register_code(to), register_code(left), register_code(right)],
            turns,
        ),
        Step::Place { to, .. } => weigh_all(weights, &[place_code(to)], turns),
        Step::Spot { to, by, .. } => {
            weigh_all(weights, &[place_code(to), register_code(by)], turns)
        }
        Step::Walk { place, .. } => weigh_all(weights, &[place_code(place)], turns),
        Step::Read { to, place, .. } => {
            weigh_all(weights, &[register_code(to), place_code(place)], turns)
        }
        Step::Write { place, from, .. } => {
            weigh_all(weights, &[place_code(place), register_code(from)], turns)
        }
        Step::For { .. } | Step::If { .. } => Ok(()),
    }
}

/// Adds a mention of each of these codes.
fn weigh_all(weights: &mut BTreeMap<u64, u64>, codes: &[u64], turns: u64) -> Result<(), NoMemory>
    ensures { OnOk result (Weighs codes.now weights.old.entries weights.new.entries) }
{
    for code in codes {
        weigh(weights, *code, turns)?;
    }
    Ok(())
}

/// Adds this to the weight of a code.
fn weigh(weights: &mut BTreeMap<u64, u64>, code: u64, weight: u64) -> Result<(), NoMemory>
    ensures { OnOk result (Weighs (code ∷ []) weights.old.entries weights.new.entries) }
{
    let before = weights.get(&code).copied().unwrap_or(0);
    weights.insert(code, before.saturating_add(weight))?;
    Ok(())
}
