// The nodes of a checked program have their shapes among the names before their statements.
ghost use Rattle.std.specs.Prelude.{◌≡◌, ℕ, Some, slice_get};
ghost use Rattle.moa_tree.specs.declared.tree.Job.{Job as PoolJob};
ghost use Rattle.moa_tree.specs.declared.tree.Statement.{Statement as PoolStatement};
ghost use Rattle.moa_tree.specs.Pools.{IsProgram, nodes_of};
ghost use Rattle.shape_check.specs.Judged.{items_in, node_tree};
ghost use Rattle.shape_check.specs.Kept.{Checking, IsChecked};
ghost use Rattle.psi_rules.specs.Scopes.{Owned, names_at, owned};
ghost use Rattle.psi_rules.specs.Tables.{HaveShapes, HasShapes};

use moa_tree::walks_in_order;

/// The shapes of a checked program are those of its nodes: each node of a statement's expression
/// has its shape among the names before the statement, and so has each node of what a job gives,
/// which is the node of the job's task. Nothing runs.
pub(crate) fn nodes_have_shapes()
    ensures statements { (checking : Checking) → IsProgram checking.pools → IsChecked checking
        → (number : ℕ) (statement : PoolStatement) → slice_get checking.pools.statements number ≡ Some statement
        → HaveShapes checking number (nodes_of statement) }
    ensures jobs { (checking : Checking) → IsProgram checking.pools → IsChecked checking
        → (number : ℕ) (job : PoolJob) (o : Owned) → slice_get checking.jobs number ≡ Some job
        → slice_get (owned (items_in checking.pools)) number ≡ Some o
        → (node_tree checking.pools job.node ≡ o.task.0)
        × HasShapes checking (names_at (items_in checking.pools) o.statement) job.node }
{
    walks_in_order();
}
