// What jobs cost.
ghost use Rattle.std.specs.Prelude.{◌≡◌, ◌+◌, ◌*◌, ◌<◌, ℕ, List, length, All};
ghost use Rattle.std.specs.List.{sum_by};
ghost use Rattle.shapes_core.specs.Shape.{total};
ghost use Rattle.moa_tree.specs.Pools.{IsProgram};
ghost use Rattle.shape_check.specs.Costs.{Prices, own};
ghost use Rattle.shape_check.specs.Uses.{IsCapped};
ghost use Rattle.shape_check.specs.Judged.{AreNames};
ghost use Rattle.shape_check.specs.Scans.{IsShaped, IsWith, scan_size, scan_work};

use crate::names::Names;
use crate::scans::PoolScan;
use crate::uses::{Counts, counts_of};
use moa_tree::{Op, Program, walks_in_order};
use shapes_core::{Shape, total};

/// The size and the work of some jobs, of which more than 64 bits are the greatest number that has 64.
#[derive(Clone, Copy)]
pub(crate) struct Totals {
    pub(crate) size: u64,
    pub(crate) work: u64,
}

/// How many operators a job has beside those of its expression.
fn own(fold: Option<Op>) -> u64
    ensures { result ≡ own fold }
{
    match fold {
        None => 0,
        Some(_) => 1,
    }
}

/// The totals with a job of an expression of this shape and these counts.
pub(crate) fn with_job(totals: Totals, shape: &Shape, fold: Option<Op>, counts: Counts) -> Totals
    ensures { (nodes work : ℕ) → IsCapped nodes work counts
        → IsWith (2 + (own fold + nodes)) ((1 + total shape.now) * (1 + (own fold + work))) totals result }
{
    let own = own(fold);
    let size = counts.nodes.saturating_add(own).saturating_add(2);
    let each = counts.work.saturating_add(own).saturating_add(1);
    let work = (1 + total(shape)).saturating_mul(each);
    Totals {
        size: totals.size.saturating_add(size),
        work: totals.work.saturating_add(work),
    }
}

/// The totals with the jobs of these scans.
pub(crate) fn with_scans(
    program: &Program,
    names: &Names,
    shapes: &[Shape],
    totals: Totals,
    scans: &[PoolScan],
) -> Totals
    requires program { IsProgram program.now }
    requires each { length shapes.now ≡ length program.now.nodes }
    requires there { All (λ scan. scan.node < length program.now.nodes) scans.now }
    ensures { (prices : Prices) → AreNames names.now prices → All (IsShaped program.now prices shapes.now) scans.now
        → IsWith (sum_by (scan_size program.now prices) scans.now) (sum_by (scan_work program.now prices) scans.now) totals result }
{
    walks_in_order();
    let mut sum = totals;
    for scan in scans {
        let counts = counts_of(program, names, shapes, scan.node);
        sum = with_job(sum, &shapes[scan.node as usize], Some(scan.fold), counts);
    }
    sum
}
