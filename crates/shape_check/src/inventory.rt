// How many areas of each kind a program has before its scans.
ghost use Rattle.std.specs.Prelude.{◌≡◌, ◌≤◌, length};
ghost use Rattle.std.specs.List.{sum_by};
ghost use Rattle.shapes_core.specs.Limits.{most_items};
ghost use Rattle.shape_check.specs.Judged.{items_in};
ghost use Rattle.shape_check.specs.Jobs.{input_count, output_count};

use moa_tree::{Program, Statement};

/// The numbers of inputs and of outputs.
#[derive(Clone, Copy)]
pub(crate) struct Inventory {
    pub(crate) inputs: u32,
    pub(crate) outputs: u32,
}

/// Counts the statements that declare inputs and those that store outputs.
pub(crate) fn inventory_of(program: &Program) -> Inventory
    ensures inputs { result.inputs ≡ sum_by input_count (items_in program.now) }
    ensures outputs { result.outputs ≡ sum_by output_count (items_in program.now) }
    ensures few { result.inputs ≤ most_items }
    ensures fewer { result.outputs ≤ most_items }
{
    let mut inputs = 0;
    let mut outputs = 0;
    for statement in program.statements() {
        match statement {
            Statement::Input { .. } => inputs += 1,
            Statement::Name { .. } => {}
            Statement::Output { .. } => outputs += 1,
        }
    }
    Inventory { inputs, outputs }
}
