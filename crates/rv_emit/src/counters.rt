// Which registers a nest reads: the counters among them count up, and the others down.
ghost use Rattle.std.specs.Prelude.{◌≡◌, ◌<◌, ◌∷◌, ℕ, [], IfOk, OnOk, length};
ghost use Rattle.std.specs.List.{AllByRecursion};
ghost use Rattle.loop_ir.specs.Pool.{inner_lists, steps_of, tree, tree_at, trees_from};
ghost use Rattle.loop_ir.specs.Running.{Register};
ghost use Rattle.loop_ir.specs.Steps.{End};
ghost use Rattle.rv_emit.specs.Counting.{reads_of};
ghost use Rattle.rv_emit.specs.Programs.{Takes, holds, read_by};

use loop_ir::laws::lists_in_order;
use loop_ir::{Nest, Step};
use shapes_core::NoMemory;
use std::alloc::Global;
use std::collections::BTreeSet;

/// The numbers of the registers that a nest reads.
pub(crate) fn registers_read(alloc: Global, nest: &Nest) -> Result<BTreeSet<u32>, NoMemory>
    ensures { IfOk result (λ registers. (number : ℕ) → holds registers.keys number
        ≡ reads_of (tree nest.now) (Register number)) }
{
    let mut registers = BTreeSet::new(alloc);
    prove!(nest.lists() > 0);
    read_list(nest, 0, &mut registers)?;
    Ok(registers)
}

/// Adds what a list reads.
#[cycle(reads)]
fn read_list(nest: &Nest, number: u32, registers: &mut BTreeSet<u32>) -> Result<(), NoMemory>
    requires { number < length nest.now }
    ensures { OnOk result (Takes (read_by (tree_at (trees_from 0 nest.now) number))
        registers.old.keys registers.new.keys) }
{
    lists_in_order();
    for step in nest.list(number) {
        read_step(nest, *step, registers)?;
    }
    Ok(())
}

/// Adds what a step reads.
#[cycle(reads)]
fn read_step(nest: &Nest, step: Step, registers: &mut BTreeSet<u32>) -> Result<(), NoMemory>
    requires { AllByRecursion (λ inner. inner < length nest.now) (inner_lists step) }
    ensures { OnOk result (Takes (read_by (steps_of (tree_at (trees_from 0 nest.now)) (step ∷ [])))
        registers.old.keys registers.new.keys) }
{
    match step {
        Step::For { body, .. } => read_list(nest, body, registers),
        Step::If { left, yes, no, .. } => {
            read(registers, left)?;
            read_list(nest, yes, registers)?;
            read_list(nest, no, registers)
        }
        plain => read_action(plain, registers),
    }
}

/// Adds what a step that does no list reads.
fn read_action(step: Step, registers: &mut BTreeSet<u32>) -> Result<(), NoMemory>
    requires { inner_lists step ≡ [] }
    ensures { OnOk result (Takes (read_by (steps_of (λ inner. End) (step ∷ [])))
        registers.old.keys registers.new.keys) }
{
    match step {
        Step::Set { .. } | Step::Place { .. } => Ok(()),
        Step::Walk { .. } | Step::Read { .. } => Ok(()),
        Step::Copy { from, .. } | Step::One { from, .. } => read(registers, from),
        Step::Two { left, right, .. } => {
            read(registers, left)?;
            read(registers, right)
        }
        Step::Spot { by, .. } => read(registers, by),
        Step::Write { from, .. } => read(registers, from),
        Step::For { .. } | Step::If { .. } => Ok(()),
    }
}

/// Adds a register.
fn read(registers: &mut BTreeSet<u32>, number: u32) -> Result<(), NoMemory>
    ensures { OnOk result (Takes (number ∷ []) registers.old.keys registers.new.keys) }
{
    registers.insert(number)?;
    Ok(())
}
