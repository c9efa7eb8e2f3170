// Where an expression stands among the statements and the scans of a program.
ghost use Rattle.std.specs.Prelude.{◌≡◌, ◌+◌, ◌<◌, ◌≤◌, ℤ, List, length};
ghost use Rattle.moa_tree.specs.Expr.{Expr};
ghost use Rattle.moa_tree.specs.Pool.{expr_of, operands};
ghost use Rattle.moa_tree.specs.Subexpressions.{scans_in};
ghost use Rattle.shape_check.specs.Judged.{node_tree};
ghost use Rattle.psi_rules.specs.Places.{scans_under};
ghost use Rattle.psi_rules.specs.Rules.{scan_behind};
ghost use Rattle.psi_rules.specs.Numbered.{greatest_area};

use crate::nodes::node_of;
use moa_tree::{Node, Operands};
use shape_check::Checked;

/// The number of a statement, and the area of the first scan of an expression that stands in it.
#[derive(Clone, Copy)]
pub(crate) struct Place {
    pub(crate) statement: u32,
    pub(crate) scan: u32,
}

/// How many of the scans in the expression of a node are the node itself.
fn own_scans(node: &Node) -> u32
    ensures { (pool : List ℤ) (trees : List Expr)
        → length (scans_in (expr_of pool trees node.now)) ≡ result + scans_under trees (operands node.now) }
{
    match node {
        Node::Scan { .. } => 1,
        _ => 0,
    }
}

/// How many scans are in the expression of a node.
pub(crate) fn scans_at(checked: &Checked, number: u32) -> u32
    requires there { number < length checked.now.pools.nodes }
    requires few { length (scans_in (node_tree checked.now.pools number)) ≤ greatest_area }
    ensures { result ≡ length (scans_in (node_tree checked.now.pools number)) }
{
    let node = node_of(checked, number);
    let own = own_scans(&node);
    match node.operands() {
        Operands::None => own,
        Operands::One(of) => own + scans_at(checked, of),
        Operands::Two(left, right) => own + scans_at(checked, left) + scans_at(checked, right),
    }
}

/// Where the second of two operands stands, the first of which stands here.
pub(crate) fn place_behind(checked: &Checked, place: Place, left: u32) -> Place
    requires there { left < length checked.now.pools.nodes }
    requires few { scan_behind place.scan (node_tree checked.now.pools left) ≤ greatest_area }
    ensures { result ≡ record {
      statement = place.statement;
      scan = scan_behind place.scan (node_tree checked.now.pools left);
    } }
{
    Place {
        statement: place.statement,
        scan: place.scan + scans_at(checked, left),
    }
}
