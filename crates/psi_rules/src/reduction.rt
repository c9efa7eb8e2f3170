// The form of a job.
ghost use Rattle.std.specs.Prelude.{◌≡◌, ℕ, ◌<◌, ◌≤◌, IfOk, Some, length, map, slice_get};
ghost use Rattle.moa_tree.specs.Denotation.{Store as Lists};
ghost use Rattle.shape_check.specs.Judged.{items_in};
ghost use Rattle.shape_check.specs.Layout.{areas};
ghost use Rattle.normal_form.specs.Forms.{Normal as Form};
ghost use Rattle.normal_form.specs.Kept.{form_in};
ghost use Rattle.psi_rules.specs.Agrees.{IsFormOf};
ghost use Rattle.psi_rules.specs.Areas.{Given, given, store};
ghost use Rattle.psi_rules.specs.Loads.{LoadsFrom};
ghost use Rattle.psi_rules.specs.Numbered.{IsGoodTask, greatest_area, prices_at};
ghost use Rattle.psi_rules.specs.Reduced.{IsReduced, JobFacts};
ghost use Rattle.psi_rules.specs.Scopes.{Owned, first_scan, names_at, owned};
ghost use Rattle.psi_rules.specs.Tables.{AreTables, Tables as Known, scan_at};

use crate::keeping_laws::{forms_keep, programs_are_built, scans_fold};
use crate::laws::{jobs_give, operands_move};
use crate::loading_laws::forms_load;
use crate::node_shapes::nodes_have_shapes;
use crate::places::Place;
use crate::statements::tables_of;
use crate::tables::Tables;
use crate::task_laws::jobs_are_tasks;
use crate::terms::terms_of;
use moa_tree::Job;
use normal_form::{Normal, Region};
use shape_check::Checked;
use shape_check::laws::verdicts_are_shapes;
use shapes_core::NoMemory;
use shapes_core::laws::span_laws;
use std::alloc::Global;

/// The job of this number, with what it is among the statements of the program.
fn job_at(checked: &Checked, number: u32) -> Job
    requires { number < length checked.now.jobs }
    ensures listed { slice_get checked.now.jobs number ≡ Some result }
    ensures facts { (tables : Known) → AreTables checked.now tables → JobFacts checked.now tables number result }
{
    let _statements = checked.program().statements();
    jobs_are_tasks();
    nodes_have_shapes();
    checked.jobs()[number as usize]
}

/// The expression of the task of each job of a checked program is accepted, with few nodes and with
/// numbers for the areas of its scans. Nothing runs.
fn tasks_are_good(checked: &Checked)
    ensures { (number : ℕ) (o : Owned) → slice_get (owned (items_in checked.now.pools)) number ≡ Some o
        → IsGoodTask (names_at (items_in checked.now.pools) o.statement) (prices_at (items_in checked.now.pools) o.statement) o.task }
{
    let _statements = checked.program().statements();
    operands_move();
    verdicts_are_shapes();
}

/// The area of the first scan in what a job of a statement gives.
fn first_scan(tables: &Tables, statement: u32, job: Job) -> u32
    requires { first_scan (scan_at tables.now statement) job.area job.fold ≤ greatest_area }
    ensures { result ≡ first_scan (scan_at tables.now statement) job.area job.fold }
{
    match job.fold {
        None => tables.scan_at(statement),
        Some(_) => job.area + 1,
    }
}

/// Pushes the index through the expression of a job of a checked program, among what its names
/// stand for: the form on the whole shape of the job's array, by the index rules of Mullin and
/// Thibault (1994), which means the array's value at each index vector; no term where the array has
/// no element. Needs the number of a job that is there, and the tables of the same program. Fails
/// for want of memory alone.
pub fn reduce_among(
    alloc: Global,
    checked: &Checked,
    tables: &Tables,
    job: u32,
) -> Result<Normal, NoMemory>
    requires tables { AreTables checked.now tables.now }
    requires job { job < length checked.now.jobs }
    ensures reduced { IfOk result (λ normal. IsReduced checked.now job normal) }
    ensures meaning { (inputs : Lists) (array : Given) → slice_get (given inputs (items_in checked.now.pools)) job ≡ Some array
        → IfOk result (λ normal. IsFormOf (store inputs (items_in checked.now.pools)) (form_in normal.terms) array) }
    ensures loads { (form : Form) → IfOk result (λ normal. form_in normal.terms ≡ Some form
        → LoadsFrom (map (λ area. area.shape) (areas (items_in checked.now.pools))) form) }
{
    jobs_are_tasks();
    jobs_give();
    forms_load();
    forms_keep();
    programs_are_built();
    scans_fold();
    span_laws();
    tasks_are_good(checked);
    let this = job_at(checked, job);
    let shape = checked.shape_of(this.node);
    let _extents = shape.extents();
    let statement = tables.owner_at(job);
    let scan = first_scan(tables, statement, this);
    let terms = terms_of(alloc, checked, tables, Place { statement, scan }, this.node)?;
    let _statements = checked.program().statements();
    Ok(Normal::new(this, shape, Region::whole(&shape), terms))
}

/// Pushes the index through the expression of one job of a checked program, as `reduce_among` does,
/// where what its names stand for is found anew. Needs the number of a job that is there. Fails for
/// want of memory alone.
pub fn reduce(alloc: Global, checked: &Checked, job: u32) -> Result<Normal, NoMemory>
    requires { job < length checked.now.jobs }
    ensures reduced { IfOk result (λ normal. IsReduced checked.now job normal) }
    ensures meaning { (inputs : Lists) (array : Given) → slice_get (given inputs (items_in checked.now.pools)) job ≡ Some array
        → IfOk result (λ normal. IsFormOf (store inputs (items_in checked.now.pools)) (form_in normal.terms) array) }
    ensures loads { (form : Form) → IfOk result (λ normal. form_in normal.terms ≡ Some form
        → LoadsFrom (map (λ area. area.shape) (areas (items_in checked.now.pools))) form) }
{
    let tables = tables_of(alloc, checked)?;
    reduce_among(alloc, checked, &tables, job)
}
