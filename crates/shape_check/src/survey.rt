// The verdict on all statements of a program.
ghost use Rattle.std.specs.Prelude.{◌≡◌, ◌≤◌, length, IfErr, IfOk, []};
ghost use Rattle.shapes_core.specs.Limits.{most_items};
ghost use Rattle.moa_tree.specs.Pools.{IsProgram};
ghost use Rattle.shape_check.specs.Kept.{Explains};
ghost use Rattle.shape_check.specs.Progress.{Reached, Surveyed};

use crate::error::CheckError;
use crate::inventory::{Inventory, inventory_of};
use crate::names::Names;
use crate::nodes::count_nodes;
use crate::progress::Progress;
use crate::statement::statement;
use crate::totals::Totals;
use moa_tree::{Program, walks_in_order};
use shapes_core::{NoMemory, Shape};
use std::alloc::Global;

/// A table with a scalar for each node.
fn table(alloc: Global, count: usize) -> Result<Vec<Shape>, NoMemory>
    ensures { IfOk result (λ shapes. length shapes.items ≡ count) }
{
    let scalar = Shape::new(&[]).unwrap();
    let mut shapes = Vec::new(alloc);
    shapes.resize(count, scalar)?;
    Ok(shapes)
}

/// What is found before the first statement.
fn nothing(alloc: Global, shapes: Vec<Shape>) -> Progress
    ensures names { result.names ≡ [] }
    ensures shapes { result.shapes.items ≡ shapes.items }
    ensures statement_shapes { result.statement_shapes.items ≡ [] }
    ensures jobs { result.jobs.items ≡ [] }
    ensures inputs { result.inputs.items ≡ [] }
    ensures outputs { result.outputs.items ≡ [] }
    ensures scans { result.scans.items ≡ [] }
    ensures totals { result.totals ≡ record { size = 0; work = 0 } }
{
    Progress {
        names: Names::new(alloc),
        shapes,
        statement_shapes: Vec::new(alloc),
        jobs: Vec::new(alloc),
        inputs: Vec::new(alloc),
        outputs: Vec::new(alloc),
        scans: Vec::new(alloc),
        totals: Totals { size: 0, work: 0 },
    }
}

/// Goes over all statements.
fn go_over(
    alloc: Global,
    program: &Program,
    inventory: Inventory,
    mut progress: Progress,
) -> Result<Progress, CheckError>
    requires program { IsProgram program.now }
    requires few { inventory.inputs ≤ most_items }
    requires fewer { inventory.outputs ≤ most_items }
    requires reached { Reached program.now inventory 0 progress }
    ensures reached { IfOk result (λ found. Reached program.now inventory (length program.now.statements) found) }
    ensures refused { IfErr result (λ error. Explains program.now error) }
{
    let all = program.statements().len();
    for count in 0..all {
        statement(alloc, program, inventory, &mut progress, count)?;
    }
    Ok(progress)
}

/// What is found of a program, or the first rule or limit of a shape that fails.
pub(crate) fn survey(alloc: Global, program: &Program) -> Result<Progress, CheckError>
    requires { IsProgram program.now }
    ensures surveyed { IfOk result (λ progress. Surveyed program.now progress) }
    ensures refused { IfErr result (λ error. Explains program.now error) }
{
    walks_in_order();
    let inventory = inventory_of(program);
    let shapes = table(alloc, count_nodes(program))?;
    go_over(alloc, program, inventory, nothing(alloc, shapes))
}
