// The forms, the jobs and the arrays of a program by the tasks of its statements.
ghost use Rattle.std.specs.Prelude.{◌≡◌, ◌<◌, ℕ, List, Some, length, map, slice_get};
ghost use Rattle.moa_tree.specs.Denotation.{Store as Lists};
ghost use Rattle.moa_tree.specs.Expr.{Item};
ghost use Rattle.shape_check.specs.Jobs.{TreeJob, jobs};
ghost use Rattle.psi_rules.specs.Areas.{given};
ghost use Rattle.psi_rules.specs.Jobs.{forms, task_form};
ghost use Rattle.psi_rules.specs.Scopes.{Owned, first_scan, job_shapes, names_at, next_at, owned};

/// The forms, the expressions, the areas of scans and the shapes of a program's jobs are those of
/// its tasks, each among the names and the areas before its statement.
pub fn jobs_are_tasks()
    ensures there { (items : List Item) (number : ℕ) (o : Owned) → slice_get (owned items) number ≡ Some o
        → o.statement < length items }
    ensures forms { (items : List Item)
        → forms items ≡ map (λ o. task_form (names_at items o.statement) o.task) (owned items) }
    ensures tasks { (items : List Item)
        → map (λ tree_job. tree_job.of) (jobs items) ≡ map (λ o. o.task.0) (owned items) }
    ensures scans { (items : List Item) (number : ℕ) (tree_job : TreeJob) (o : Owned)
        → slice_get (jobs items) number ≡ Some tree_job → slice_get (owned items) number ≡ Some o
        → o.task.1 ≡ first_scan (next_at items o.statement).scan tree_job.job.area tree_job.job.fold }
    ensures shapes { (inputs : Lists) (items : List Item)
        → map (λ array. array.shape) (given inputs items) ≡ job_shapes items }
{}
