// The scans of an expression.
ghost use Rattle.std.specs.Prelude.{◌≡◌, ◌<◌, ◌+◌, ◌++◌, [], All, length, map, slice_index_or, IfOk, OnOk};
ghost use Rattle.std.specs.Option.{option_to_list};
ghost use Rattle.moa_tree.specs.Pool.{walk_of};
ghost use Rattle.moa_tree.specs.Pools.{IsProgram};
ghost use Rattle.shape_check.specs.Layout.{numbered};
ghost use Rattle.shape_check.specs.Scans.{numbered_jobs, scan_of, scans_at};

use moa_tree::{Job, Node, Op, Operands, Program, parts_are_there, walks_in_order};
use shapes_core::{AreaKind, NoMemory, Shape};
use std::alloc::Global;

/// A scan: its operator, and the node along which it folds.
#[derive(Clone, Copy)]
pub(crate) struct PoolScan {
    pub(crate) fold: Op,
    pub(crate) node: u32,
}

/// The scan that a node is, if it is one.
fn scan_of(node: &Node) -> Option<PoolScan>
    ensures { option_to_list result ≡ scan_of node.now }
{
    match node {
        Node::Scan { fold, of } => Some(PoolScan {
            fold: *fold,
            node: *of,
        }),
        _ => None,
    }
}

/// Adds the scan that a node is, if it is one.
fn add_scan(found: &mut Vec<PoolScan>, node: &Node) -> Result<(), NoMemory>
    ensures { OnOk result (found.new.items ≡ found.old.items ++ scan_of node.now) }
{
    if let Some(scan) = scan_of(node) {
        found.push(scan)?;
    }
    Ok(())
}

/// Adds the scans of the expression of a node, in prefix order.
pub(crate) fn find_scans(
    program: &Program,
    found: &mut Vec<PoolScan>,
    number: u32,
) -> Result<(), NoMemory>
    requires program { IsProgram program.now }
    requires there { number < length program.now.nodes }
    ensures { OnOk result (found.new.items ≡ found.old.items ++ scans_at program.now.nodes (walk_of program.now.nodes number)) }
{
    walks_in_order();
    parts_are_there();
    let node = program.node(number);
    add_scan(found, &node)?;
    match node.operands() {
        Operands::None => Ok(()),
        Operands::One(of) => find_scans(program, found, of),
        Operands::Two(left, right) => {
            find_scans(program, found, left)?;
            find_scans(program, found, right)
        }
    }
}

/// The jobs of these scans in their order, whose areas are numbered from this one on.
pub(crate) fn jobs_of_scans(
    alloc: Global,
    area: u32,
    scans: &[PoolScan],
) -> Result<Vec<Job>, NoMemory>
    requires { area + length scans.now < 4294967296 }
    ensures { IfOk result (λ jobs. jobs.items ≡ numbered_jobs area scans.now) }
{
    let mut jobs = Vec::new(alloc);
    for (place, scan) in scans.iter().enumerate() {
        jobs.push(Job {
            area: area + place as u32,
            node: scan.node,
            fold: Some(scan.fold),
        })?;
    }
    Ok(jobs)
}

/// Adds the arrays of these scans, which are numbered on, with the shapes of what they scan.
pub(crate) fn push_scans(
    arrays: &mut Vec<(AreaKind, Shape)>,
    shapes: &[Shape],
    scans: &[PoolScan],
) -> Result<(), NoMemory>
    requires there { All (λ scan. scan.node < length shapes.now) scans.now }
    requires room { length arrays.old.items + length scans.now < 4294967296 }
    ensures { OnOk result (arrays.new.items ≡ arrays.old.items
        ++ numbered (length arrays.old.items) (map (λ scan. slice_index_or shapes.now scan.node []) scans.now)) }
{
    for scan in scans {
        let number = arrays.len() as u32;
        arrays.push((AreaKind::Scan(number), shapes[scan.node as usize]))?;
    }
    Ok(())
}
