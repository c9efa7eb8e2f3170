// The terms of the form of an expression.
ghost use Rattle.std.specs.Prelude.{◌≡◌, ◌<◌, ◌≤◌, IfOk, length};
ghost use Rattle.normal_form.specs.Cutting.{terms_in};
ghost use Rattle.normal_form.specs.Kept.{form_in, top_form};
ghost use Rattle.normal_form.specs.Moves.{variables};
ghost use Rattle.shapes_core.specs.Shape.{total};
ghost use Rattle.shape_check.specs.Judged.{items_in, node_tree};
ghost use Rattle.psi_rules.specs.Building.{IsPool};
ghost use Rattle.psi_rules.specs.Fitting.{Fits, IsReadyHere};
ghost use Rattle.psi_rules.specs.Jobs.{job_form};
ghost use Rattle.psi_rules.specs.Rules.{Names, form, shape_in};
ghost use Rattle.psi_rules.specs.Scopes.{names_at};
ghost use Rattle.psi_rules.specs.Tables.{IsReady};

use crate::arms::form_of;
use crate::moves::variables;
use crate::places::Place;
use crate::pool::Pool;
use crate::tables::Tables;
use normal_form::Term;
use shape_check::Checked;
use shapes_core::{NoMemory, total};
use std::alloc::Global;

/// The terms of the form of a node of a statement at the index vector of its variables, the top one
/// last; none where its array has no element. As a tree the form has no more terms than there are.
pub(crate) fn terms_of(
    alloc: Global,
    checked: &Checked,
    tables: &Tables,
    place: Place,
    number: u32,
) -> Result<Vec<Term>, NoMemory>
    requires there { number < length checked.now.pools.nodes }
    requires ready { IsReadyHere checked.now tables.now place.statement number }
    requires fits { let shape = shape_in (names_at (items_in checked.now.pools) place.statement) (node_tree checked.now.pools number) in
        0 < total shape
        → Fits (items_in checked.now.pools) place.statement place.scan (length shape) (node_tree checked.now.pools number)
        (variables (length shape)) }
    ensures form { (names : Names) → IsReady checked.now tables.now place.statement names number
        → IfOk result (λ terms. form_in terms.items ≡ job_form (shape_in names (node_tree checked.now.pools number))
        (form names place.scan (node_tree checked.now.pools number))) }
    ensures pool { IfOk result (λ terms. IsPool terms.items) }
    ensures counted { (names : Names) → IsReady checked.now tables.now place.statement names number
        → IfOk result (λ terms. 0 < length terms.items → terms_in (top_form terms.items) ≤ length terms.items) }
{
    let shape = checked.shape_of(number);
    if total(&shape) == 0 {
        return Ok(Vec::new(alloc));
    }
    let axes = shape.extents().len() as u32;
    let entries = variables(axes);
    let mut pool = Pool::new(alloc, axes);
    let _top = form_of(checked, tables, place, &mut pool, number, &entries)?;
    Ok(pool.into_terms())
}
