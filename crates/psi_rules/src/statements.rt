// One statement after another enters the tables.
ghost use Rattle.std.specs.Prelude.{◌≡◌, ℕ, ◌+◌, ◌<◌, ◌≤◌, suc, IfOk, IfSome, Some, length, slice_get};
ghost use Rattle.std.specs.List.{AllByRecursion};
ghost use Rattle.moa_tree.specs.Denotation.{scans_of};
ghost use Rattle.moa_tree.specs.Expr.{Item as AnItem, Let, Use};
ghost use Rattle.moa_tree.specs.Pools.{Pools, nodes_of};
ghost use Rattle.shape_check.specs.Jobs.{output_count};
ghost use Rattle.shape_check.specs.Judged.{items_in};
ghost use Rattle.shape_check.specs.Layout.{name_of};
ghost use Rattle.psi_rules.specs.Jobs.{Next, first, next_after};
ghost use Rattle.psi_rules.specs.Numbered.{HaveNumbers, greatest_area};
ghost use Rattle.psi_rules.specs.Rows.{AreDeclared, IsEnd, IsFilled, counted, item_in, own_area};
ghost use Rattle.psi_rules.specs.Scopes.{next_at};
ghost use Rattle.psi_rules.specs.Tables.{AreTables, Tables as Known};

use crate::node_shapes::nodes_have_shapes;
use crate::nodes::node_of;
use crate::places::scans_at;
use crate::tables::{Tables, statement_of};
use moa_tree::{Node, Statement};
use shape_check::Checked;
use shape_check::laws::verdicts_are_shapes;
use shapes_core::{Name, NoMemory};
use std::alloc::Global;

/// The areas that come next: of an input, an output and a scan.
#[derive(Clone, Copy)]
struct NextAreas {
    input: u32,
    output: u32,
    scan: u32,
}

/// The areas that come first.
fn first_areas(checked: &Checked) -> NextAreas
    ensures { counted result ≡ first (items_in checked.now.pools) }
{
    let mut inputs = 0;
    let mut outputs = 0;
    for statement in checked.program().statements() {
        match statement {
            Statement::Input { .. } => inputs += 1,
            Statement::Name { .. } => {}
            Statement::Output { .. } => outputs += 1,
        }
    }
    NextAreas {
        input: 0,
        output: inputs,
        scan: inputs + outputs,
    }
}

/// The areas that come behind those of a statement with so many scans.
fn areas_behind(next: NextAreas, statement: &Statement, scans: u32) -> NextAreas
    requires input { next.input ≤ greatest_area }
    requires output { next.output ≤ greatest_area }
    requires scan { next.scan + scans ≤ greatest_area }
    ensures { (pools : Pools) → scans ≡ length (scans_of (item_in pools statement.now))
        → counted result ≡ next_after (counted next) (item_in pools statement.now) }
{
    let inputs = match statement {
        Statement::Input { .. } => 1,
        Statement::Name { .. } | Statement::Output { .. } => 0,
    };
    let outputs = match statement {
        Statement::Output { .. } => 1,
        Statement::Name { .. } | Statement::Input { .. } => 0,
    };
    NextAreas {
        input: next.input + inputs,
        output: next.output + outputs,
        scan: next.scan + scans,
    }
}

/// The area of a statement's array, where it is stored, and otherwise 0.
fn own_area(next: NextAreas, statement: &Statement) -> u32
    ensures { (pools : Pools) → result ≡ own_area (counted next) (item_in pools statement.now) }
{
    match statement {
        Statement::Input { .. } => next.input,
        Statement::Name { .. } => 0,
        Statement::Output { .. } => next.output,
    }
}

/// The name that a statement declares.
fn name_of(statement: &Statement) -> Name
    ensures { (pools : Pools) → result ≡ name_of (item_in pools statement.now) }
{
    match statement {
        Statement::Input { name, .. }
        | Statement::Name { name, .. }
        | Statement::Output { name, .. } => *name,
    }
}

/// How many scans are in a statement.
fn scans_in(checked: &Checked, statement: &Statement) -> u32
    requires there { AllByRecursion (λ node. node < length checked.now.pools.nodes) (nodes_of statement.now) }
    requires few { length (scans_of (item_in checked.now.pools statement.now)) ≤ greatest_area }
    ensures { result ≡ length (scans_of (item_in checked.now.pools statement.now)) }
{
    match statement {
        Statement::Input { .. } => 0,
        Statement::Name { node, .. } | Statement::Output { node, .. } => scans_at(checked, *node),
    }
}

/// How many jobs a statement with so many scans has.
fn jobs_in(statement: &Statement, scans: u32) -> u32
    requires { scans ≤ greatest_area }
    ensures { (pools : Pools) → result ≡ scans + output_count (item_in pools statement.now) }
{
    match statement {
        Statement::Input { .. } | Statement::Name { .. } => scans,
        Statement::Output { .. } => scans + 1,
    }
}

/// The name alone that is the expression of a statement, if it is one.
fn renamed(checked: &Checked, statement: &Statement) -> Option<Name>
    requires { AllByRecursion (λ node. node < length checked.now.pools.nodes) (nodes_of statement.now) }
    ensures { IfSome result (λ other. item_in checked.now.pools statement.now
        ≡ Let (name_of (item_in checked.now.pools statement.now)) (Use other)) }
{
    match statement {
        Statement::Input { .. } | Statement::Output { .. } => None,
        Statement::Name { node, .. } => match node_of(checked, *node) {
            Node::Use(name) => Some(name),
            _ => None,
        },
    }
}

/// The statement to which the name of a statement leads.
fn end_of(checked: &Checked, tables: &Tables, number: u32, statement: &Statement) -> u32
    requires nodes { AllByRecursion (λ node. node < length checked.now.pools.nodes) (nodes_of statement.now) }
    requires there { slice_get checked.now.pools.statements number ≡ Some statement.now }
    requires names { AreDeclared (items_in checked.now.pools) number tables.now.numbers }
    ensures { IsEnd (items_in checked.now.pools) tables.now.ends number result }
{
    let Some(other) = renamed(checked, statement) else {
        return number;
    };
    let Some(declared) = tables.number_of(&other) else {
        return number;
    };
    tables.end_at(declared)
}

/// The areas of each statement of a checked program have numbers. Nothing runs.
fn areas_have_numbers(checked: &Checked)
    ensures { (number : ℕ) (item : AnItem) → slice_get (items_in checked.now.pools) number ≡ Some item
        → HaveNumbers (next_at (items_in checked.now.pools) number) item }
{
    let _statements = checked.program().statements();
    verdicts_are_shapes();
}

/// Adds the statement of this number to the tables, and answers the areas that come behind it.
fn enter(
    checked: &Checked,
    tables: &mut Tables,
    next: NextAreas,
    number: u32,
) -> Result<NextAreas, NoMemory>
    requires there { number < length checked.now.pools.statements }
    requires filled { IsFilled (items_in checked.now.pools) number tables.old (counted next) }
    ensures { IfOk result (λ after. IsFilled (items_in checked.now.pools) (suc number) tables.new (counted after)) }
{
    areas_have_numbers(checked);
    let statement = statement_of(checked, number);
    let scans = scans_in(checked, &statement);
    let end = end_of(checked, tables, number, &statement);
    tables.push(next.scan, own_area(next, &statement), end)?;
    tables.declare(name_of(&statement), number)?;
    tables.own(number, jobs_in(&statement, scans))?;
    Ok(areas_behind(next, &statement, scans))
}

/// What the tables tell of a checked program, once all its statements are entered. Nothing runs.
fn filled_tables_tell(checked: &Checked)
    ensures { (tables : Known) (next : Next)
        → IsFilled (items_in checked.now.pools) (length checked.now.pools.statements) tables next → AreTables checked.now tables }
{
    let _statements = checked.program().statements();
    verdicts_are_shapes();
    nodes_have_shapes();
}

/// What the names of a checked program stand for, and where its scans and its jobs are, made once
/// for all its jobs. Fails for want of memory alone.
pub fn tables_of(alloc: Global, checked: &Checked) -> Result<Tables, NoMemory>
    ensures { IfOk result (AreTables checked.now) }
{
    let mut tables = Tables::new(alloc);
    let mut next = first_areas(checked);
    let count = checked.program().statements().len();
    for number in 0..count {
        next = enter(checked, &mut tables, next, number as u32)?;
    }
    filled_tables_tell(checked);
    Ok(tables)
}
