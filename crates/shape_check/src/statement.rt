// The verdict on one statement, and what it adds.
ghost use Rattle.std.specs.Prelude.{◌≡◌, ◌<◌, ◌≤◌, ◌+◌, ◌++◌, ◌==◌, ℕ, [], ◌∷◌, None, Some, false, true, length, map, slice_get, IfErr, IfOk, MatchResult, OnOk};
ghost use Rattle.std.specs.List.{count_by, list_all};
ghost use Rattle.shapes_core.specs.Limits.{most_items};
ghost use Rattle.moa_tree.specs.declared.tree.Statement.TheVariants as declaration;
ghost use Rattle.moa_tree.specs.Axes.{naturals};
ghost use Rattle.moa_tree.specs.Expr.{Input, Let, Output};
ghost use Rattle.moa_tree.specs.Pool.{list_at, walk_of};
ghost use Rattle.moa_tree.specs.Pools.{AreThere, IsProgram};
ghost use Rattle.moa_tree.specs.ShapeOf.{shape_of};
ghost use Rattle.moa_tree.specs.Subexpressions.{subexpressions};
ghost use Rattle.shape_check.specs.declared.inventory.Inventory.{Inventory};
ghost use Rattle.shape_check.specs.Costs.{Prices, shapes_of, stored};
ghost use Rattle.shape_check.specs.Judged.{AreNames, StandsFor, found, node_tree};
ghost use Rattle.shape_check.specs.Kept.{shapes_at};
ghost use Rattle.shape_check.specs.Kept.{Explains};
ghost use Rattle.shape_check.specs.Progress.{Adds, AddsOutput, Fails, IsAnswered, KeepsOthers, Reached, answered, named_verdict};
ghost use Rattle.shape_check.specs.Rules.{Place, is_declared, is_natural, rule, shape_limits};
ghost use Rattle.shape_check.specs.Scans.{AddsScans};
ghost use Rattle.shape_check.specs.Uses.{HasShapes};
ghost use Rattle.shape_check.specs.Verdict.{judged};

use crate::broken::Broken;
use crate::entries::{are_natural, write_extents};
use crate::error::CheckError;
use crate::expression::judge;
use crate::inventory::Inventory;
use crate::known::Known;
use crate::limits::limited;
use crate::names::Names;
use crate::progress::Progress;
use crate::scans::{find_scans, jobs_of_scans, push_scans};
use crate::totals::{with_job, with_scans};
use crate::uses::Counts;
use moa_tree::{Job, Numbers, Program, Statement, node_trees, parts_are_there, walks_in_order};
use shapes_core::{AreaKind, MOST_AXES, Name, NoMemory, Shape};
use std::alloc::Global;
use text_tokens::Position;

/// What is answered for a rule or a limit that is broken at a position.
fn refusal(broken: Broken, at: Position) -> CheckError
    ensures { result ≡ answered at broken }
{
    match broken {
        Broken::Rule(rule) => CheckError::Rule { at, rule },
        Broken::Limit(which, value) => CheckError::Limit {
            at: Some(at),
            which,
            value,
        },
    }
}

/// Refuses a name that a statement before has.
fn new_name(names: &Names, name: Name, at: Position) -> Result<(), CheckError>
    ensures free { OnOk result (found names.now name ≡ None) }
    ensures told { (prices : Prices) → AreNames names.now prices → MatchResult result
        (λ _. is_declared (shapes_of prices) name ≡ false)
        (λ error. (is_declared (shapes_of prices) name ≡ true) × (error ≡ CheckError.Rule at 1)) }
{
    let _spelling = name.bytes();
    match names.find(name) {
        None => Ok(()),
        Some(_) => Err(CheckError::Rule { at, rule: 1 }),
    }
}

/// The shape of an input with these extents.
fn input_shape(extents: &[i64]) -> Result<Shape, Broken>
    ensures { (statement : ℕ) → named_verdict statement result
        ≡ judged (rule (Place.Name statement) 3 (list_all is_natural extents.now) ++ shape_limits (Place.Name statement) (naturals extents.now)) (naturals extents.now) }
{
    if !are_natural(extents) {
        return Err(Broken::Rule(3));
    }
    if extents.len() > MOST_AXES {
        return Err(Broken::Limit(2, extents.len() as u64));
    }
    let mut buffer = [0; MOST_AXES];
    let shape = &mut buffer[..extents.len()];
    write_extents(extents, shape);
    limited(shape)
}

/// What is known of an array that is stored.
fn stored(shape: Shape) -> Known
    ensures { StandsFor result (stored shape) }
{
    Known {
        shape,
        nodes: 1,
        work: 1,
    }
}

/// Adds the name of a statement, and its shape.
fn add_name(
    names: &mut Names,
    shapes: &mut Vec<Shape>,
    name: Name,
    known: Known,
    shape: Shape,
) -> Result<(), NoMemory>
    requires { found names.old name ≡ None }
    ensures named { OnOk result (names.new ≡ names.old ++ (name, known) ∷ []) }
    ensures shaped { OnOk result (shapes.new.items ≡ shapes.old.items ++ shape ∷ []) }
{
    shapes.push(shape)?;
    names.insert(name, known)
}

/// Adds an array of the block.
fn add_array(
    arrays: &mut Vec<(AreaKind, Shape)>,
    kind: AreaKind,
    shape: Shape,
) -> Result<(), NoMemory>
    ensures { OnOk result (arrays.new.items ≡ arrays.old.items ++ (kind, shape) ∷ []) }
{
    arrays.push((kind, shape))?;
    Ok(())
}

/// The verdict on a name for an expression.
fn expression(
    program: &Program,
    names: &Names,
    shapes: &mut [Shape],
    name: Name,
    number: u32,
    at: Position,
) -> Result<Known, CheckError>
    requires there { number < length program.now.nodes }
    requires each { length shapes.old ≡ length program.now.nodes }
    ensures free { OnOk result (found names.now name ≡ None) }
    ensures answered { (prices : Prices) → AreNames names.now prices → IsAnswered program.now prices name at number result }
    ensures shaped { (prices : Prices) → AreNames names.now prices → IfOk result (λ known.
        shapes_at shapes.new (walk_of program.now.nodes number) ≡ map (shape_of (shapes_of prices)) (subexpressions (node_tree program.now number))) }
    ensures kept { (n : ℕ) → count_by (λ other. other == n) (walk_of program.now.nodes number) ≡ 0
        → slice_get shapes.new n ≡ slice_get shapes.old n }
    ensures sized { length shapes.new ≡ length shapes.old }
{
    new_name(names, name, at)?;
    judge(program, names, shapes, number)
}

/// Adds the scans of the expression of a node: their jobs, the last first, their arrays, and what they cost.
fn add_scans(
    alloc: Global,
    program: &Program,
    inventory: Inventory,
    progress: &mut Progress,
    number: u32,
) -> Result<(), NoMemory>
    requires program { IsProgram program.now }
    requires there { number < length program.now.nodes }
    requires each { length progress.old.shapes.items ≡ length program.now.nodes }
    requires room { inventory.inputs + inventory.outputs + length progress.old.scans.items + length (walk_of program.now.nodes number) < 4294967296 }
    ensures added { (prices : Prices) → AreNames progress.old.names prices → HasShapes program.now prices progress.old.shapes.items (walk_of program.now.nodes number)
        → OnOk result (AddsScans program.now inventory prices number progress.old progress.new) }
    ensures kept { OnOk result (KeepsOthers progress.old progress.new) }
{
    walks_in_order();
    node_trees();
    let mut found = Vec::new(alloc);
    find_scans(program, &mut found, number)?;
    let first = inventory.inputs + inventory.outputs + progress.scans.len() as u32;
    let mut jobs = jobs_of_scans(alloc, first, &found)?;
    jobs.reverse();
    progress.totals = with_scans(
        program,
        &progress.names,
        &progress.shapes,
        progress.totals,
        &found,
    );
    push_scans(&mut progress.scans, &progress.shapes, &found)?;
    progress.jobs.extend_from_slice(&jobs)?;
    Ok(())
}

/// Adds an input behind its name.
fn input(
    program: &Program,
    progress: &mut Progress,
    name: Name,
    extents: Numbers,
    at: Position,
) -> Result<(), CheckError>
    requires { AreThere program.now.numbers extents }
    ensures added { (inventory : Inventory) (prices : Prices) (count : ℕ) → AreNames progress.old.names prices
        → slice_get program.now.statements count ≡ Some (declaration.Input name extents at)
        → OnOk result (Adds program.now inventory prices count (Input name (list_at program.now.numbers extents)) progress.old progress.new) }
    ensures refused { (prices : Prices) (count : ℕ) → AreNames progress.old.names prices
        → slice_get program.now.statements count ≡ Some (declaration.Input name extents at)
        → IfErr result (λ error. Fails program.now prices count (Input name (list_at program.now.numbers extents)) error) }
{
    new_name(&progress.names, name, at)?;
    match input_shape(program.list(extents)) {
        Err(broken) => Err(refusal(broken, at)),
        Ok(shape) => {
            add_name(
                &mut progress.names,
                &mut progress.statement_shapes,
                name,
                stored(shape),
                shape,
            )?;
            add_array(&mut progress.inputs, AreaKind::In(name), shape)?;
            Ok(())
        }
    }
}

/// Adds a name for an expression.
fn named(
    alloc: Global,
    program: &Program,
    inventory: Inventory,
    progress: &mut Progress,
    name: Name,
    number: u32,
    at: Position,
) -> Result<(), CheckError>
    requires program { IsProgram program.now }
    requires there { number < length program.now.nodes }
    requires each { length progress.old.shapes.items ≡ length program.now.nodes }
    requires room { inventory.inputs + inventory.outputs + length progress.old.scans.items + length (walk_of program.now.nodes number) < 4294967296 }
    ensures added { (prices : Prices) (count : ℕ) → AreNames progress.old.names prices
        → slice_get program.now.statements count ≡ Some (declaration.Name name number at)
        → OnOk result (Adds program.now inventory prices count (Let name (node_tree program.now number)) progress.old progress.new) }
    ensures refused { (prices : Prices) (count : ℕ) → AreNames progress.old.names prices
        → slice_get program.now.statements count ≡ Some (declaration.Name name number at)
        → IfErr result (λ error. Fails program.now prices count (Let name (node_tree program.now number)) error) }
{
    walks_in_order();
    node_trees();
    let known = expression(
        program,
        &progress.names,
        &mut progress.shapes,
        name,
        number,
        at,
    )?;
    add_scans(alloc, program, inventory, progress, number)?;
    add_name(
        &mut progress.names,
        &mut progress.statement_shapes,
        name,
        known,
        known.shape,
    )?;
    Ok(())
}

/// Adds an output behind the scans of its expression.
fn add_output(
    inventory: Inventory,
    progress: &mut Progress,
    name: Name,
    number: u32,
    known: Known,
) -> Result<(), NoMemory>
    requires free { found progress.old.names name ≡ None }
    requires room { inventory.inputs + length progress.old.outputs.items < 4294967296 }
    ensures { OnOk result (AddsOutput inventory name number known progress.old progress.new) }
{
    let job = Job {
        area: inventory.inputs + progress.outputs.len() as u32,
        node: number,
        fold: None,
    };
    progress.jobs.push(job)?;
    let counts = Counts {
        nodes: known.nodes,
        work: known.work,
    };
    progress.totals = with_job(progress.totals, &known.shape, None, counts);
    add_array(&mut progress.outputs, AreaKind::Out(name), known.shape)?;
    add_name(
        &mut progress.names,
        &mut progress.statement_shapes,
        name,
        stored(known.shape),
        known.shape,
    )
}

/// Adds an output behind its name.
fn output(
    alloc: Global,
    program: &Program,
    inventory: Inventory,
    progress: &mut Progress,
    name: Name,
    number: u32,
    at: Position,
) -> Result<(), CheckError>
    requires program { IsProgram program.now }
    requires there { number < length program.now.nodes }
    requires each { length progress.old.shapes.items ≡ length program.now.nodes }
    requires room { inventory.inputs + inventory.outputs + length progress.old.scans.items + length (walk_of program.now.nodes number) < 4294967296 }
    requires few { inventory.inputs + length progress.old.outputs.items < 4294967296 }
    ensures added { (prices : Prices) (count : ℕ) → AreNames progress.old.names prices
        → slice_get program.now.statements count ≡ Some (declaration.Output name number at)
        → OnOk result (Adds program.now inventory prices count (Output name (node_tree program.now number)) progress.old progress.new) }
    ensures refused { (prices : Prices) (count : ℕ) → AreNames progress.old.names prices
        → slice_get program.now.statements count ≡ Some (declaration.Output name number at)
        → IfErr result (λ error. Fails program.now prices count (Output name (node_tree program.now number)) error) }
{
    walks_in_order();
    node_trees();
    let known = expression(
        program,
        &progress.names,
        &mut progress.shapes,
        name,
        number,
        at,
    )?;
    add_scans(alloc, program, inventory, progress, number)?;
    add_output(inventory, progress, name, number, known)?;
    Ok(())
}

/// The statement of this number.
fn statement_at(program: &Program, count: usize) -> Statement
    requires { count < length program.now.statements }
    ensures { slice_get program.now.statements count ≡ Some result }
{
    program.statements()[count]
}

/// Goes on by one statement.
pub(crate) fn statement(
    alloc: Global,
    program: &Program,
    inventory: Inventory,
    progress: &mut Progress,
    count: usize,
) -> Result<(), CheckError>
    requires program { IsProgram program.now }
    requires there { count < length program.now.statements }
    requires few { inventory.inputs ≤ most_items }
    requires fewer { inventory.outputs ≤ most_items }
    requires reached { Reached program.now inventory count progress.old }
    ensures reached { OnOk result (Reached program.now inventory (count + 1) progress.new) }
    ensures refused { IfErr result (λ error. Explains program.now error) }
{
    walks_in_order();
    parts_are_there();
    match statement_at(program, count) {
        Statement::Input { name, extents, at } => input(program, progress, name, extents, at),
        Statement::Name { name, node, at } => {
            named(alloc, program, inventory, progress, name, node, at)
        }
        Statement::Output { name, node, at } => {
            output(alloc, program, inventory, progress, name, node, at)
        }
    }
}
