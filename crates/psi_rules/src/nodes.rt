// The nodes of a checked program, with what is known of them.
ghost use Rattle.std.specs.Prelude.{◌≡◌, ◌<◌, ◌∷◌, ℕ, length};
ghost use Rattle.std.specs.List.{AllByRecursion, flat_map};
ghost use Rattle.moa_tree.specs.Pool.{expr_of, list_at, operands, trees, walk_of};
ghost use Rattle.moa_tree.specs.Pools.{AreThere, lists_of};
ghost use Rattle.shape_check.specs.Judged.{node_tree};
ghost use Rattle.shape_check.specs.Scans.{node_at};
ghost use Rattle.psi_rules.specs.Rules.{Names};
ghost use Rattle.psi_rules.specs.Tables.{AreReady, IsReady, Tables as Known};

use moa_tree::{Node, Numbers, node_trees, parts_are_there, walks_in_order};
use shape_check::Checked;

/// The laws of the nodes of a checked program. Nothing runs.
fn node_laws(checked: &Checked)
    ensures trees { (number : ℕ) → number < length checked.now.pools.nodes
        → node_tree checked.now.pools number
        ≡ expr_of checked.now.pools.numbers (trees checked.now.pools.numbers checked.now.pools.nodes) (node_at checked.now.pools.nodes number) }
    ensures walks { (number : ℕ) → number < length checked.now.pools.nodes
        → walk_of checked.now.pools.nodes number
        ≡ number ∷ flat_map (walk_of checked.now.pools.nodes) (operands (node_at checked.now.pools.nodes number)) }
{
    let _statements = checked.program().statements();
    node_trees();
    walks_in_order();
}

/// The numbers of a list.
pub(crate) fn list_of(checked: &Checked, list: Numbers) -> &[i64]
    requires { AreThere checked.now.pools.numbers list }
    ensures { result.now ≡ list_at checked.now.pools.numbers list }
{
    checked.program().list(list)
}

/// The node of this number.
pub(crate) fn node_of(checked: &Checked, number: u32) -> Node
    requires { number < length checked.now.pools.nodes }
    ensures tree { node_tree checked.now.pools number
        ≡ expr_of checked.now.pools.numbers (trees checked.now.pools.numbers checked.now.pools.nodes) result }
    ensures operands { AllByRecursion (λ operand. (operand < number) × (operand < length checked.now.pools.nodes)) (operands result) }
    ensures lists { AllByRecursion (AreThere checked.now.pools.numbers) (lists_of result) }
    ensures ready { (tables : Known) (statement : ℕ) (names : Names) → IsReady checked.now tables statement names number
        → AreReady checked.now tables statement names (operands result) }
{
    let program = checked.program();
    let _statements = program.statements();
    node_laws(checked);
    parts_are_there();
    program.node(number)
}
