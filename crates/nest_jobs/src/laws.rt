// The jobs of plain programs and their forms, as clauses of functions that do nothing.
ghost use Rattle.std.specs.List.{AllByRecursion};
ghost use Rattle.std.specs.Prelude.{◌≡◌, ◌+◌, ◌<◌, ◌≤◌, ℕ, true, List, [], None, Ok, Some, map, slice_get};
ghost use Rattle.moa_tree.specs.Canonical.{IsBuiltItem};
ghost use Rattle.moa_tree.specs.Denotation.{Store as Lists};
ghost use Rattle.moa_tree.specs.Expr.{Item};
ghost use Rattle.moa_tree.specs.ShapeOf.{Shapes};
ghost use Rattle.normal_form.specs.Forms.{Normal};
ghost use Rattle.shape_check.specs.Costs.{job_size, job_work, size, work};
ghost use Rattle.shape_check.specs.Jobs.{TreeJob, jobs};
ghost use Rattle.shape_check.specs.Layout.{areas, gathered, scan_shapes, words};
ghost use Rattle.shape_check.specs.Statements.{verdict_of};
ghost use Rattle.psi_rules.specs.Areas.{Given, given};
ghost use Rattle.psi_rules.specs.Jobs.{forms};
ghost use Rattle.psi_rules.specs.Scopes.{job_shapes};
ghost use Rattle.stride_form.specs.Operational.{operational};
ghost use Rattle.stride_form.specs.Rules.{operational_on};
ghost use Rattle.nest_build.specs.Bounds.{terms};
ghost use Rattle.nest_build.specs.Gives.{AreLaidOut, IsBuildable};
ghost use Rattle.nest_build.specs.Parts.{accesses, is_straight};
ghost use Rattle.nest_jobs.specs.BlockLaws.{BlockLaws};
ghost use Rattle.nest_jobs.specs.Outputs.{Due, array_of, dues, form_of, job_of};
ghost use Rattle.nest_jobs.specs.Plain.{ArePlain};
ghost use Rattle.nest_jobs.specs.Sizes.{form_size, form_sizes, form_work, form_works};

use psi_rules::block_laws::{areas_stand_in_order, names_have_shapes};
use psi_rules::keeping_laws::forms_keep;
use psi_rules::laws::jobs_give;
use psi_rules::loading_laws::forms_load;
use psi_rules::task_laws::jobs_are_tasks;
use shape_check::laws::{lists_are_totals, verdicts_are_shapes};
use shapes_core::laws::span_laws;
use stride_form::binding_laws::rules_are_about_bindings;
use stride_form::laws::places_are_offsets;

/// What is known of the block of a program and of the shapes in it.
pub(crate) fn block_laws()
    ensures { BlockLaws }
{
    areas_stand_in_order();
    names_have_shapes();
    lists_are_totals();
    jobs_are_tasks();
}

/// The form of each job of a plain program is straight.
fn plain_forms_are_straight()
    ensures { (items : List Item) (number : ℕ) (form : Normal) → ArePlain items
        → slice_get (forms items) number ≡ Some (Some form)
        → is_straight (operational form) ≡ true }
{}

/// The rules change nothing in the form of each job of a plain program.
pub fn rules_leave_plain_forms()
    ensures { (items : List Item) (number : ℕ) (form : Normal) (region : List (ℕ × ℕ)) → ArePlain items
        → slice_get (forms items) number ≡ Some (Some form)
        → operational_on region form ≡ operational form }
{
    plain_forms_are_straight();
    rules_are_about_bindings();
}

/// The areas of a program are laid out: each lies in the words of them all, and no word is
/// of two areas.
pub fn areas_are_laid_out()
    ensures { (items : List Item) → AreLaidOut (areas items) (words items) }
{}

/// What a nest asks of its form holds of the form of each job, on the whole of the job's array.
pub fn forms_are_buildable()
    ensures { (inputs : Lists) (items : List Item) (shapes : Shapes) (number : ℕ)
        (tree_job : TreeJob) (array : Given) (form : Normal)
        → verdict_of items ≡ Ok shapes → AllByRecursion IsBuiltItem items → ArePlain items
        → slice_get (jobs items) number ≡ Some tree_job
        → slice_get (given inputs items) number ≡ Some array
        → slice_get (forms items) number ≡ Some (Some form)
        → IsBuildable (areas items) tree_job.job.area array.shape (map (λ n. (0, n)) array.shape)
        (operational form) }
{
    block_laws();
    plain_forms_are_straight();
    forms_keep();
    forms_load();
    jobs_give();
    places_are_offsets();
    span_laws();
    verdicts_are_shapes();
}

/// A form has at most as many terms as its job has nodes, and at most as many as an element of its
/// job asks for work: so the form of each output is within the size and the work of its job, and
/// those of all jobs are within the size and the work of the program.
pub fn forms_are_small()
    ensures size_of_one { (inputs : Lists) (items : List Item) (number : ℕ) (due : Due)
        → ArePlain items
        → slice_get (dues inputs items) number ≡ Some due
        → form_size (form_of due) ≤ job_size due.scene.prices (job_of due) }
    ensures work_of_one { (inputs : Lists) (items : List Item) (number : ℕ) (due : Due)
        → ArePlain items
        → slice_get (dues inputs items) number ≡ Some due
        → form_work (form_of due) (array_of due) ≤ job_work due.scene.prices (job_of due) }
    ensures sizes { (items : List Item) → ArePlain items → form_sizes (forms items) ≤ size items }
    ensures works { (inputs : Lists) (items : List Item) → ArePlain items
        → form_works (forms items) (given inputs items) ≤ work items }
    ensures each { (items : List Item) (number : ℕ) (form : Normal) → ArePlain items
        → slice_get (forms items) number ≡ Some (Some form)
        → 2 + terms (operational form) ≤ size items }
{
    block_laws();
}
