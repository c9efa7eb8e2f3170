// The form of an expression, an operator at a time.
ghost use Rattle.std.specs.Prelude.{◌≡◌, ◌↔◌, ℕ, ◌+◌, ◌-◌, ◌*◌, ◌<◌, ◌≤◌, true, List, IfOk, drop, length, slice_index, slice_index_or, []};
ghost use Rattle.std.specs.List.{AllByRecursion, insert};
ghost use Rattle.shapes_core.specs.Limits.{most_items};
ghost use Rattle.shapes_core.specs.Shape.{total};
ghost use Rattle.moa_tree.specs.Expr.{Use, One, Two, Psi, Take, Drop, Reverse, Rotate, Permute, Transpose, Cat, Outer, Inner, Reduce};
ghost use Rattle.moa_tree.specs.Folds.{none_folded};
ghost use Rattle.moa_tree.specs.Operators.{identity};
ghost use Rattle.moa_tree.specs.Pool.{expr_of, list_at, operands, trees};
ghost use Rattle.moa_tree.specs.Pools.{AreThere, lists_of};
ghost use Rattle.moa_tree.specs.ShapeOf.{Shapes, beside};
ghost use Rattle.shape_check.specs.Rules.{is_declared};
ghost use Rattle.normal_form.specs.Forms.{Bin, Un};
ghost use Rattle.normal_form.specs.Formers.{flattening, folding, on_both, on_one, reshaping, unflattening};
ghost use Rattle.shape_check.specs.Judged.{items_in, node_tree};
ghost use Rattle.psi_rules.specs.Building.{Builds, IsThere, used, cat_made, inner_made, rotate_made, spread_made};
ghost use Rattle.psi_rules.specs.Fitting.{Fits, FitsAt, FitsIn, IsReadyHere, cost};
ghost use Rattle.psi_rules.specs.Operands.{IsAccepted, OperandsMove};
ghost use Rattle.psi_rules.specs.Rules.{Names, form, nameless, scan_behind, shape_in};
ghost use Rattle.psi_rules.specs.Scopes.{names_at};
ghost use Rattle.psi_rules.specs.Tables.{AreReady, IsReady, IsScope};
ghost use Rattle.psi_rules.specs.Within.{OperandsWithin};

use crate::digits::{Digited, digit_entry};
use crate::keeping_laws::operands_stay_within;
use crate::laws::operands_move;
use crate::moves::{
    behind, dropped, entry_on, front, in_front, indexed, listed, mirrored, put_in_front, restored,
    reversed, taken, turn_round, variable,
};
use crate::nodes::{list_of, node_of};
use crate::places::{Place, place_behind};
use crate::pool::Pool;
use crate::shaped::{
    axes_in, first_extent_in, is_scalar, last_extent_in, load_in, offset_in, own_in, past_in,
    push_offset, replaced_in, same_shapes, with_first_in, with_last_in,
};
use crate::shapes::extent_on;
use crate::sides::{Side, reached};
use crate::tables::{Meant, Tables, meant_by};
use crate::turns::{Turned, turn_entry, turn_of};
use moa_tree::{Node, Numbers, Op, Unary, identity};
use normal_form::{Entries, Entry};
use shape_check::Checked;
use shape_check::laws::operands_are_accepted;
use shapes_core::laws::span_laws;
use shapes_core::{Name, NoMemory, Shape, weight};

/// What the rules of an accepted expression's operator make of entries within its shape, and the
/// names that it uses are declared. Nothing runs.
fn operand_laws()
    ensures moves { (shapes : Shapes) → OperandsMove shapes }
    ensures within { (shapes : Shapes) (room : ℕ) → OperandsWithin shapes room }
    ensures uses { (shapes : Shapes) (name : List ℕ) → IsAccepted shapes (Use name) → is_declared shapes name ≡ true }
    ensures spans { (shape : List ℕ) → (0 < total shape) ↔ AllByRecursion (λ n. 0 < n) shape }
{
    operands_move();
    operands_stay_within();
    operands_are_accepted();
    span_laws();
}

/// Builds an operator on one operand.
#[cycle(arms)]
#[inline(never)]
fn one_form(
    checked: &Checked,
    tables: &Tables,
    place: Place,
    pool: &mut Pool,
    op: Unary,
    of: u32,
    entries: &Entries,
) -> Result<u32, NoMemory>
    requires there { of < length checked.now.pools.nodes }
    requires ready { IsReadyHere checked.now tables.now place.statement of }
    requires fits { Fits (items_in checked.now.pools) place.statement place.scan (used pool.old)
        (One op (node_tree checked.now.pools of)) entries.now }
    ensures builds { (names : Names) → IsReady checked.now tables.now place.statement names of
        → IfOk result (Builds (on_one (Un op) (form names place.scan (node_tree checked.now.pools of) entries.now)) pool.old pool.new) }
    ensures there { IfOk result (IsThere pool.old pool.new) }
    ensures grown { IfOk result (λ number. used pool.new ≤ used pool.old + cost (items_in checked.now.pools) place.statement (One op (node_tree checked.now.pools of))) }
{
    operand_laws();
    let operand = form_of(checked, tables, place, pool, of, entries)?;
    pool.un(op, operand)
}

/// Builds an operator on two operands, at entries of each.
#[cycle(arms)]
#[inline(never)]
fn pair_form(
    checked: &Checked,
    tables: &Tables,
    place: Place,
    pool: &mut Pool,
    op: Op,
    left: u32,
    right: u32,
    at_left: &Entries,
    at_right: &Entries,
) -> Result<u32, NoMemory>
    requires first { left < length checked.now.pools.nodes }
    requires second { right < length checked.now.pools.nodes }
    requires left_ready { IsReadyHere checked.now tables.now place.statement left }
    requires right_ready { IsReadyHere checked.now tables.now place.statement right }
    requires left_fits { Fits (items_in checked.now.pools) place.statement place.scan (used pool.old)
        (node_tree checked.now.pools left) at_left.now }
    requires right_fits { Fits (items_in checked.now.pools) place.statement (scan_behind place.scan (node_tree checked.now.pools left)) (used pool.old + cost (items_in checked.now.pools) place.statement (node_tree checked.now.pools left))
        (node_tree checked.now.pools right) at_right.now }
    requires room { used pool.old + (cost (items_in checked.now.pools) place.statement (node_tree checked.now.pools left) + cost (items_in checked.now.pools) place.statement (node_tree checked.now.pools right)) < most_items }
    ensures builds { (names : Names) → IsReady checked.now tables.now place.statement names left
        → IsReady checked.now tables.now place.statement names right
        → IfOk result (Builds (on_both (Bin op) (form names place.scan (node_tree checked.now.pools left) at_left.now)
        (form names (scan_behind place.scan (node_tree checked.now.pools left)) (node_tree checked.now.pools right) at_right.now)) pool.old pool.new) }
    ensures there { IfOk result (IsThere pool.old pool.new) }
    ensures grown { IfOk result (λ number. used pool.new ≤ used pool.old + (1 + (cost (items_in checked.now.pools) place.statement (node_tree checked.now.pools left) + cost (items_in checked.now.pools) place.statement (node_tree checked.now.pools right)))) }
{
    let behind = place_behind(checked, place, left);
    let first = form_of(checked, tables, place, pool, left, at_left)?;
    let second = form_of(checked, tables, behind, pool, right, at_right)?;
    pool.bin(op, first, second)
}

/// Builds an operator on two operands place by place, or on a scalar and an array.
#[cycle(arms)]
#[inline(never)]
fn two_form(
    checked: &Checked,
    tables: &Tables,
    place: Place,
    pool: &mut Pool,
    op: Op,
    left: u32,
    right: u32,
    entries: &Entries,
) -> Result<u32, NoMemory>
    requires first { left < length checked.now.pools.nodes }
    requires second { right < length checked.now.pools.nodes }
    requires left_ready { IsReadyHere checked.now tables.now place.statement left }
    requires right_ready { IsReadyHere checked.now tables.now place.statement right }
    requires fits { Fits (items_in checked.now.pools) place.statement place.scan (used pool.old)
        (Two op (node_tree checked.now.pools left) (node_tree checked.now.pools right)) entries.now }
    ensures builds { (names : Names) → IsReady checked.now tables.now place.statement names left
        → IsReady checked.now tables.now place.statement names right
        → IfOk result (Builds (form names place.scan
        (Two op (node_tree checked.now.pools left) (node_tree checked.now.pools right)) entries.now) pool.old pool.new) }
    ensures there { IfOk result (IsThere pool.old pool.new) }
    ensures grown { IfOk result (λ number. used pool.new ≤ used pool.old + cost (items_in checked.now.pools) place.statement (Two op (node_tree checked.now.pools left) (node_tree checked.now.pools right))) }
{
    operand_laws();
    let first = own_in(checked, left, entries);
    let second = own_in(checked, right, entries);
    pair_form(
        checked, tables, place, pool, op, left, right, &first, &second,
    )
}

/// Builds an operator on each element of an operand and each of another.
#[cycle(arms)]
#[inline(never)]
fn outer_form(
    checked: &Checked,
    tables: &Tables,
    place: Place,
    pool: &mut Pool,
    op: Op,
    left: u32,
    right: u32,
    entries: &Entries,
) -> Result<u32, NoMemory>
    requires first { left < length checked.now.pools.nodes }
    requires second { right < length checked.now.pools.nodes }
    requires left_ready { IsReadyHere checked.now tables.now place.statement left }
    requires right_ready { IsReadyHere checked.now tables.now place.statement right }
    requires fits { Fits (items_in checked.now.pools) place.statement place.scan (used pool.old)
        (Outer op (node_tree checked.now.pools left) (node_tree checked.now.pools right)) entries.now }
    ensures builds { (names : Names) → IsReady checked.now tables.now place.statement names left
        → IsReady checked.now tables.now place.statement names right
        → IfOk result (Builds (form names place.scan
        (Outer op (node_tree checked.now.pools left) (node_tree checked.now.pools right)) entries.now) pool.old pool.new) }
    ensures there { IfOk result (IsThere pool.old pool.new) }
    ensures grown { IfOk result (λ number. used pool.new ≤ used pool.old + cost (items_in checked.now.pools) place.statement (Outer op (node_tree checked.now.pools left) (node_tree checked.now.pools right))) }
{
    operand_laws();
    let axes = axes_in(checked, left);
    let first = front(axes, entries);
    let second = behind(axes, entries);
    pair_form(
        checked, tables, place, pool, op, left, right, &first, &second,
    )
}

/// What a fold over no element gives.
fn none_folded(fold: Op) -> i64
    ensures { result ≡ none_folded (identity fold) }
{
    match identity(fold) {
        None => 0,
        Some(value) => value,
    }
}

/// Builds a fold over the first axis of an operand.
#[cycle(arms)]
#[inline(never)]
fn reduce_form(
    checked: &Checked,
    tables: &Tables,
    place: Place,
    pool: &mut Pool,
    fold: Op,
    of: u32,
    entries: &Entries,
) -> Result<u32, NoMemory>
    requires there { of < length checked.now.pools.nodes }
    requires ready { IsReadyHere checked.now tables.now place.statement of }
    requires fits { Fits (items_in checked.now.pools) place.statement place.scan (used pool.old)
        (Reduce fold (node_tree checked.now.pools of)) entries.now }
    ensures builds { (names : Names) → IsReady checked.now tables.now place.statement names of
        → IfOk result (Builds (folding fold (slice_index (shape_in names (node_tree checked.now.pools of)) 0)
        (λ k. form names place.scan (node_tree checked.now.pools of) (insert entries.now 0 k))) pool.old pool.new) }
    ensures there { IfOk result (IsThere pool.old pool.new) }
    ensures grown { IfOk result (λ number. used pool.new ≤ used pool.old + cost (items_in checked.now.pools) place.statement (Reduce fold (node_tree checked.now.pools of))) }
{
    operand_laws();
    let extent = first_extent_in(checked, of);
    if extent == 0 {
        return pool.literal(none_folded(fold));
    }
    let var = pool.fresh();
    let moved = in_front(variable(var), entries);
    let item = form_of(checked, tables, place, pool, of, &moved)?;
    pool.fold(fold, var, extent, item)
}

/// Builds a fold over the last axis of an operand and the first one of another.
#[cycle(arms)]
#[inline(never)]
fn inner_form(
    checked: &Checked,
    tables: &Tables,
    place: Place,
    pool: &mut Pool,
    operators: (Op, Op),
    left: u32,
    right: u32,
    entries: &Entries,
) -> Result<u32, NoMemory>
    requires first { left < length checked.now.pools.nodes }
    requires second { right < length checked.now.pools.nodes }
    requires left_ready { IsReadyHere checked.now tables.now place.statement left }
    requires right_ready { IsReadyHere checked.now tables.now place.statement right }
    requires fits { Fits (items_in checked.now.pools) place.statement place.scan (used pool.old)
        (Inner operators.0 operators.1 (node_tree checked.now.pools left) (node_tree checked.now.pools right)) entries.now }
    ensures builds { (names : Names) → IsReady checked.now tables.now place.statement names left
        → IsReady checked.now tables.now place.statement names right
        → IfOk result (Builds (inner_made operators.0 operators.1 (shape_in names (node_tree checked.now.pools left)) entries.now
        (form names place.scan (node_tree checked.now.pools left))
        (form names (scan_behind place.scan (node_tree checked.now.pools left)) (node_tree checked.now.pools right))) pool.old pool.new) }
    ensures there { IfOk result (IsThere pool.old pool.new) }
    ensures grown { IfOk result (λ number. used pool.new ≤ used pool.old + cost (items_in checked.now.pools) place.statement (Inner operators.0 operators.1 (node_tree checked.now.pools left) (node_tree checked.now.pools right))) }
{
    operand_laws();
    let extent = last_extent_in(checked, left);
    if extent == 0 {
        return pool.literal(none_folded(operators.0));
    }
    let var = pool.fresh();
    let first = with_last_in(checked, left, entries, variable(var));
    let second = with_first_in(checked, left, entries, variable(var));
    let item = pair_form(
        checked,
        tables,
        place,
        pool,
        operators.1,
        left,
        right,
        &first,
        &second,
    )?;
    pool.fold(operators.0, var, extent, item)
}

/// Builds the part of an operand at an index.
#[cycle(arms)]
#[inline(never)]
fn psi_form(
    checked: &Checked,
    tables: &Tables,
    place: Place,
    pool: &mut Pool,
    list: Numbers,
    of: u32,
    entries: &Entries,
) -> Result<u32, NoMemory>
    requires list { AreThere checked.now.pools.numbers list }
    requires there { of < length checked.now.pools.nodes }
    requires ready { IsReadyHere checked.now tables.now place.statement of }
    requires fits { Fits (items_in checked.now.pools) place.statement place.scan (used pool.old)
        (Psi (list_at checked.now.pools.numbers list) (node_tree checked.now.pools of)) entries.now }
    ensures builds { (names : Names) → IsReady checked.now tables.now place.statement names of
        → IfOk result (Builds (form names place.scan
        (Psi (list_at checked.now.pools.numbers list) (node_tree checked.now.pools of)) entries.now) pool.old pool.new) }
    ensures there { IfOk result (IsThere pool.old pool.new) }
    ensures grown { IfOk result (λ number. used pool.new ≤ used pool.old + cost (items_in checked.now.pools) place.statement (Psi (list_at checked.now.pools.numbers list) (node_tree checked.now.pools of))) }
{
    operand_laws();
    let moved = indexed(list_of(checked, list), entries);
    form_of(checked, tables, place, pool, of, &moved)
}

/// Builds an operand of which as much of each axis is taken.
#[cycle(arms)]
#[inline(never)]
fn take_form(
    checked: &Checked,
    tables: &Tables,
    place: Place,
    pool: &mut Pool,
    list: Numbers,
    of: u32,
    entries: &Entries,
) -> Result<u32, NoMemory>
    requires list { AreThere checked.now.pools.numbers list }
    requires there { of < length checked.now.pools.nodes }
    requires ready { IsReadyHere checked.now tables.now place.statement of }
    requires fits { Fits (items_in checked.now.pools) place.statement place.scan (used pool.old)
        (Take (list_at checked.now.pools.numbers list) (node_tree checked.now.pools of)) entries.now }
    ensures builds { (names : Names) → IsReady checked.now tables.now place.statement names of
        → IfOk result (Builds (form names place.scan
        (Take (list_at checked.now.pools.numbers list) (node_tree checked.now.pools of)) entries.now) pool.old pool.new) }
    ensures there { IfOk result (IsThere pool.old pool.new) }
    ensures grown { IfOk result (λ number. used pool.new ≤ used pool.old + cost (items_in checked.now.pools) place.statement (Take (list_at checked.now.pools.numbers list) (node_tree checked.now.pools of))) }
{
    operand_laws();
    let moved = taken(list_of(checked, list), &checked.shape_of(of), entries);
    form_of(checked, tables, place, pool, of, &moved)
}

/// Builds an operand of which as much of each axis is dropped.
#[cycle(arms)]
#[inline(never)]
fn drop_form(
    checked: &Checked,
    tables: &Tables,
    place: Place,
    pool: &mut Pool,
    list: Numbers,
    of: u32,
    entries: &Entries,
) -> Result<u32, NoMemory>
    requires list { AreThere checked.now.pools.numbers list }
    requires there { of < length checked.now.pools.nodes }
    requires ready { IsReadyHere checked.now tables.now place.statement of }
    requires fits { Fits (items_in checked.now.pools) place.statement place.scan (used pool.old)
        (Drop (list_at checked.now.pools.numbers list) (node_tree checked.now.pools of)) entries.now }
    ensures builds { (names : Names) → IsReady checked.now tables.now place.statement names of
        → IfOk result (Builds (form names place.scan
        (Drop (list_at checked.now.pools.numbers list) (node_tree checked.now.pools of)) entries.now) pool.old pool.new) }
    ensures there { IfOk result (IsThere pool.old pool.new) }
    ensures grown { IfOk result (λ number. used pool.new ≤ used pool.old + cost (items_in checked.now.pools) place.statement (Drop (list_at checked.now.pools.numbers list) (node_tree checked.now.pools of))) }
{
    operand_laws();
    let moved = dropped(list_of(checked, list), &checked.shape_of(of), entries);
    form_of(checked, tables, place, pool, of, &moved)
}

/// Builds an operand whose axes are permuted.
#[cycle(arms)]
#[inline(never)]
fn permute_form(
    checked: &Checked,
    tables: &Tables,
    place: Place,
    pool: &mut Pool,
    list: Numbers,
    of: u32,
    entries: &Entries,
) -> Result<u32, NoMemory>
    requires list { AreThere checked.now.pools.numbers list }
    requires there { of < length checked.now.pools.nodes }
    requires ready { IsReadyHere checked.now tables.now place.statement of }
    requires fits { Fits (items_in checked.now.pools) place.statement place.scan (used pool.old)
        (Permute (list_at checked.now.pools.numbers list) (node_tree checked.now.pools of)) entries.now }
    ensures builds { (names : Names) → IsReady checked.now tables.now place.statement names of
        → IfOk result (Builds (form names place.scan
        (Permute (list_at checked.now.pools.numbers list) (node_tree checked.now.pools of)) entries.now) pool.old pool.new) }
    ensures there { IfOk result (IsThere pool.old pool.new) }
    ensures grown { IfOk result (λ number. used pool.new ≤ used pool.old + cost (items_in checked.now.pools) place.statement (Permute (list_at checked.now.pools.numbers list) (node_tree checked.now.pools of))) }
{
    operand_laws();
    let moved = restored(list_of(checked, list), entries);
    form_of(checked, tables, place, pool, of, &moved)
}

/// Builds an operand whose first axis is in reverse.
#[cycle(arms)]
#[inline(never)]
fn reverse_form(
    checked: &Checked,
    tables: &Tables,
    place: Place,
    pool: &mut Pool,
    of: u32,
    entries: &Entries,
) -> Result<u32, NoMemory>
    requires there { of < length checked.now.pools.nodes }
    requires ready { IsReadyHere checked.now tables.now place.statement of }
    requires fits { Fits (items_in checked.now.pools) place.statement place.scan (used pool.old)
        (Reverse (node_tree checked.now.pools of)) entries.now }
    ensures builds { (names : Names) → IsReady checked.now tables.now place.statement names of
        → IfOk result (Builds (form names place.scan
        (Reverse (node_tree checked.now.pools of)) entries.now) pool.old pool.new) }
    ensures there { IfOk result (IsThere pool.old pool.new) }
    ensures grown { IfOk result (λ number. used pool.new ≤ used pool.old + cost (items_in checked.now.pools) place.statement (Reverse (node_tree checked.now.pools of))) }
{
    operand_laws();
    let moved = reversed(&checked.shape_of(of), entries);
    form_of(checked, tables, place, pool, of, &moved)
}

/// Builds an operand whose axes are in reverse order.
#[cycle(arms)]
#[inline(never)]
fn transpose_form(
    checked: &Checked,
    tables: &Tables,
    place: Place,
    pool: &mut Pool,
    of: u32,
    entries: &Entries,
) -> Result<u32, NoMemory>
    requires there { of < length checked.now.pools.nodes }
    requires ready { IsReadyHere checked.now tables.now place.statement of }
    requires fits { Fits (items_in checked.now.pools) place.statement place.scan (used pool.old)
        (Transpose (node_tree checked.now.pools of)) entries.now }
    ensures builds { (names : Names) → IsReady checked.now tables.now place.statement names of
        → IfOk result (Builds (form names place.scan
        (Transpose (node_tree checked.now.pools of)) entries.now) pool.old pool.new) }
    ensures there { IfOk result (IsThere pool.old pool.new) }
    ensures grown { IfOk result (λ number. used pool.new ≤ used pool.old + cost (items_in checked.now.pools) place.statement (Transpose (node_tree checked.now.pools of))) }
{
    operand_laws();
    let moved = mirrored(entries);
    form_of(checked, tables, place, pool, of, &moved)
}

/// Builds a turn of the first axis.
#[cycle(arms)]
#[inline(never)]
fn rotate_form(
    checked: &Checked,
    tables: &Tables,
    place: Place,
    pool: &mut Pool,
    by: &i64,
    of: u32,
    entries: &Entries,
) -> Result<u32, NoMemory>
    requires there { of < length checked.now.pools.nodes }
    requires ready { IsReadyHere checked.now tables.now place.statement of }
    requires fits { Fits (items_in checked.now.pools) place.statement place.scan (used pool.old)
        (Rotate by.now (node_tree checked.now.pools of)) entries.now }
    ensures builds { (names : Names) → IsReady checked.now tables.now place.statement names of
        → IfOk result (Builds (rotate_made by.now (shape_in names (node_tree checked.now.pools of)) entries.now
        (form names place.scan (node_tree checked.now.pools of))) pool.old pool.new) }
    ensures there { IfOk result (IsThere pool.old pool.new) }
    ensures grown { IfOk result (λ number. used pool.new ≤ used pool.old + cost (items_in checked.now.pools) place.statement (Rotate by.now (node_tree checked.now.pools of))) }
{
    operand_laws();
    let extent = first_extent_in(checked, of);
    let turn = turn_of(by, extent);
    let entry = entry_on(0, entries);
    match turn_entry(turn, extent, entry) {
        Turned::Found(found) => {
            let moved = replaced_in(checked, of, found, entries);
            form_of(checked, tables, place, pool, of, &moved)
        }
        Turned::Bound => {
            let var = pool.fresh();
            let moved = replaced_in(checked, of, variable(var), entries);
            let term = form_of(checked, tables, place, pool, of, &moved)?;
            pool.turn(var, entry, turn, extent, term)
        }
    }
}

/// Builds a join on the first axis.
#[cycle(arms)]
#[inline(never)]
fn cat_form(
    checked: &Checked,
    tables: &Tables,
    place: Place,
    pool: &mut Pool,
    left: u32,
    right: u32,
    entries: &Entries,
) -> Result<u32, NoMemory>
    requires first { left < length checked.now.pools.nodes }
    requires second { right < length checked.now.pools.nodes }
    requires left_ready { IsReadyHere checked.now tables.now place.statement left }
    requires right_ready { IsReadyHere checked.now tables.now place.statement right }
    requires fits { Fits (items_in checked.now.pools) place.statement place.scan (used pool.old)
        (Cat (node_tree checked.now.pools left) (node_tree checked.now.pools right)) entries.now }
    ensures builds { (names : Names) → IsReady checked.now tables.now place.statement names left
        → IsReady checked.now tables.now place.statement names right
        → IfOk result (Builds (cat_made (shape_in names (node_tree checked.now.pools left)) (shape_in names (node_tree checked.now.pools right)) entries.now
        (form names place.scan (node_tree checked.now.pools left))
        (form names (scan_behind place.scan (node_tree checked.now.pools left)) (node_tree checked.now.pools right))) pool.old pool.new) }
    ensures there { IfOk result (IsThere pool.old pool.new) }
    ensures grown { IfOk result (λ number. used pool.new ≤ used pool.old + cost (items_in checked.now.pools) place.statement (Cat (node_tree checked.now.pools left) (node_tree checked.now.pools right))) }
{
    operand_laws();
    let extent = first_extent_in(checked, left);
    let entry = entry_on(0, entries);
    match reached(extent, first_extent_in(checked, right), entry) {
        Side::First => form_of(checked, tables, place, pool, left, entries),
        Side::Second => {
            let moved = past_in(checked, left, entries);
            let behind = place_behind(checked, place, left);
            form_of(checked, tables, behind, pool, right, &moved)
        }
        Side::Both => {
            let moved = past_in(checked, left, entries);
            let behind = place_behind(checked, place, left);
            let first = form_of(checked, tables, place, pool, left, entries)?;
            let second = form_of(checked, tables, behind, pool, right, &moved)?;
            pool.case(entry, extent, first, second)
        }
    }
}

/// Builds an operand at the digits of an offset, behind those that are found, the last one first. What is found is used up.
#[cycle(arms)]
#[inline(never)]
fn spread_form(
    checked: &Checked,
    tables: &Tables,
    place: Place,
    pool: &mut Pool,
    of: u32,
    shape: &Shape,
    axis: usize,
    flat: Entry,
    found: &mut Entries,
) -> Result<u32, NoMemory>
    requires there { of < length checked.now.pools.nodes }
    requires shape { shape.now ≡ slice_index_or checked.now.shapes of [] }
    requires axis { axis ≤ length shape.now }
    requires ready { IsReadyHere checked.now tables.now place.statement of }
    requires fits { FitsAt (items_in checked.now.pools) place.statement place.scan (used pool.old) (node_tree checked.now.pools of) axis flat found.old }
    ensures builds { (names : Names) → IsReady checked.now tables.now place.statement names of
        → IfOk result (Builds (spread_made (drop axis shape.now) flat found.old (form names place.scan (node_tree checked.now.pools of))) pool.old pool.new) }
    ensures there { IfOk result (IsThere pool.old pool.new) }
    ensures grown { IfOk result (λ number. used pool.new ≤ used pool.old + (2 * (length shape.now - axis) + cost (items_in checked.now.pools) place.statement (node_tree checked.now.pools of))) }
{
    operand_laws();
    if axis == shape.extents().len() {
        turn_round(found);
        return form_of(checked, tables, place, pool, of, found);
    }
    let n = extent_on(shape, axis);
    let weight = weight(shape, axis);
    match digit_entry(flat, weight, n) {
        Digited::Found(entry) => {
            put_in_front(entry, found);
            spread_form(
                checked,
                tables,
                place,
                pool,
                of,
                shape,
                axis + 1,
                flat,
                found,
            )
        }
        Digited::Bound => {
            let var = pool.fresh();
            put_in_front(variable(var), found);
            let term = spread_form(
                checked,
                tables,
                place,
                pool,
                of,
                shape,
                axis + 1,
                flat,
                found,
            )?;
            pool.digit(var, flat, weight, n, term)
        }
    }
}

/// Builds an operand at an offset.
#[cycle(arms)]
#[inline(never)]
fn offset_form(
    checked: &Checked,
    tables: &Tables,
    place: Place,
    pool: &mut Pool,
    of: u32,
    flat: Entry,
) -> Result<u32, NoMemory>
    requires there { of < length checked.now.pools.nodes }
    requires ready { IsReadyHere checked.now tables.now place.statement of }
    requires fits { FitsAt (items_in checked.now.pools) place.statement place.scan (used pool.old) (node_tree checked.now.pools of) 0 flat [] }
    ensures builds { (names : Names) → IsReady checked.now tables.now place.statement names of
        → IfOk result (Builds (unflattening (shape_in names (node_tree checked.now.pools of)) flat
        (form names place.scan (node_tree checked.now.pools of))) pool.old pool.new) }
    ensures there { IfOk result (IsThere pool.old pool.new) }
    ensures grown { IfOk result (λ number. used pool.new ≤ used pool.old + (12 + cost (items_in checked.now.pools) place.statement (node_tree checked.now.pools of))) }
{
    operand_laws();
    let shape = checked.shape_of(of);
    let mut found = listed(&[]);
    if shape.extents().len() == 1 {
        put_in_front(flat, &mut found);
        return form_of(checked, tables, place, pool, of, &found);
    }
    spread_form(
        checked, tables, place, pool, of, &shape, 0, flat, &mut found,
    )
}

/// Builds an operand at the offset of entries of the shape of a node.
#[cycle(arms)]
#[inline(never)]
fn flat_form(
    checked: &Checked,
    tables: &Tables,
    place: Place,
    pool: &mut Pool,
    number: u32,
    of: u32,
    entries: &Entries,
) -> Result<u32, NoMemory>
    requires shaped { number < length checked.now.pools.nodes }
    requires there { of < length checked.now.pools.nodes }
    requires ready { IsReadyHere checked.now tables.now place.statement of }
    requires fits { FitsIn (items_in checked.now.pools) place.statement place.scan (used pool.old) (node_tree checked.now.pools of) (slice_index_or checked.now.shapes number []) entries.now }
    ensures builds { (names : Names) → IsReady checked.now tables.now place.statement names of
        → IfOk result (Builds (flattening (slice_index_or checked.now.shapes number []) entries.now (λ flat. unflattening (shape_in names (node_tree checked.now.pools of)) flat
        (form names place.scan (node_tree checked.now.pools of)))) pool.old pool.new) }
    ensures there { IfOk result (IsThere pool.old pool.new) }
    ensures grown { IfOk result (λ number. used pool.new ≤ used pool.old + (16 + cost (items_in checked.now.pools) place.statement (node_tree checked.now.pools of))) }
{
    operand_laws();
    match offset_in(checked, number, entries) {
        Digited::Found(flat) => offset_form(checked, tables, place, pool, of, flat),
        Digited::Bound => {
            let var = pool.fresh();
            let term = offset_form(checked, tables, place, pool, of, variable(var))?;
            push_offset(checked, pool, var, entries, number, term)
        }
    }
}

/// Builds an operand in the shape of a node, which has the same total.
#[cycle(arms)]
#[inline(never)]
fn reshape_form(
    checked: &Checked,
    tables: &Tables,
    place: Place,
    pool: &mut Pool,
    number: u32,
    of: u32,
    entries: &Entries,
) -> Result<u32, NoMemory>
    requires shaped { number < length checked.now.pools.nodes }
    requires there { of < length checked.now.pools.nodes }
    requires ready { IsReadyHere checked.now tables.now place.statement of }
    requires fits { FitsIn (items_in checked.now.pools) place.statement place.scan (used pool.old) (node_tree checked.now.pools of) (slice_index_or checked.now.shapes number []) entries.now }
    ensures builds { (names : Names) → IsReady checked.now tables.now place.statement names of
        → IfOk result (Builds (reshaping (slice_index_or checked.now.shapes number []) (shape_in names (node_tree checked.now.pools of)) entries.now
        (form names place.scan (node_tree checked.now.pools of))) pool.old pool.new) }
    ensures there { IfOk result (IsThere pool.old pool.new) }
    ensures grown { IfOk result (λ number. used pool.new ≤ used pool.old + (16 + cost (items_in checked.now.pools) place.statement (node_tree checked.now.pools of))) }
{
    operand_laws();
    if same_shapes(checked, number, of) {
        return form_of(checked, tables, place, pool, of, entries);
    }
    if is_scalar(checked, of) {
        let none = listed(&[]);
        return form_of(checked, tables, place, pool, of, &none);
    }
    flat_form(checked, tables, place, pool, number, of, entries)
}

/// Builds what a name stands for.
#[cycle(arms)]
#[inline(never)]
fn use_form(
    checked: &Checked,
    tables: &Tables,
    place: Place,
    pool: &mut Pool,
    name: &Name,
    entries: &Entries,
) -> Result<u32, NoMemory>
    requires scope { IsScope checked.now tables.now place.statement (names_at (items_in checked.now.pools) place.statement) }
    requires fits { Fits (items_in checked.now.pools) place.statement place.scan (used pool.old)
        (Use name.now) entries.now }
    ensures builds { (names : Names) → IsScope checked.now tables.now place.statement names
        → IfOk result (Builds ((beside nameless names name.now).form entries.now) pool.old pool.new) }
    ensures there { IfOk result (IsThere pool.old pool.new) }
    ensures grown { IfOk result (λ number. used pool.new ≤ used pool.old + cost (items_in checked.now.pools) place.statement (Use name.now)) }
{
    operand_laws();
    match meant_by(checked, tables, name, place.statement) {
        Meant::Stored(of) => {
            let shape = checked.statement_shape(of as usize);
            pool.load(tables.area_at(of), shape, *entries)
        }
        Meant::Given { statement, node } => {
            let scan = tables.scan_at(statement);
            let place = Place { statement, scan };
            form_of(checked, tables, place, pool, node, entries)
        }
    }
}

/// Builds the form of a node that works on what its operands give.
#[cycle(arms)]
#[inline(never)]
fn node_form(
    checked: &Checked,
    tables: &Tables,
    place: Place,
    pool: &mut Pool,
    number: u32,
    node: &Node,
    entries: &Entries,
) -> Result<u32, NoMemory>
    requires operands { AllByRecursion (λ operand. (operand < number) × (operand < length checked.now.pools.nodes)) (operands node.now) }
    requires lists { AllByRecursion (AreThere checked.now.pools.numbers) (lists_of node.now) }
    requires tree { node_tree checked.now.pools number
        ≡ expr_of checked.now.pools.numbers (trees checked.now.pools.numbers checked.now.pools.nodes) node.now }
    requires ready { IsReadyHere checked.now tables.now place.statement number }
    requires operands_ready { AreReady checked.now tables.now place.statement (names_at (items_in checked.now.pools) place.statement) (operands node.now) }
    requires fits { Fits (items_in checked.now.pools) place.statement place.scan (used pool.old)
        (expr_of checked.now.pools.numbers (trees checked.now.pools.numbers checked.now.pools.nodes) node.now) entries.now }
    ensures builds { (names : Names) → IsScope checked.now tables.now place.statement names
        → AreReady checked.now tables.now place.statement names (operands node.now)
        → IfOk result (Builds (form names place.scan
        (expr_of checked.now.pools.numbers (trees checked.now.pools.numbers checked.now.pools.nodes) node.now) entries.now) pool.old pool.new) }
    ensures there { IfOk result (IsThere pool.old pool.new) }
    ensures grown { IfOk result (λ number. used pool.new ≤ used pool.old + cost (items_in checked.now.pools) place.statement (expr_of checked.now.pools.numbers (trees checked.now.pools.numbers checked.now.pools.nodes) node.now)) }
{
    operand_laws();
    match node {
        Node::Number(value) => pool.literal(*value),
        Node::Iota(_) => pool.index(entry_on(0, entries)),
        Node::One { op, of } => one_form(checked, tables, place, pool, *op, *of, entries),
        Node::Two { op, left, right } => two_form(
            checked, tables, place, pool, *op, *left, *right, entries,
        ),
        Node::Outer { op, left, right } => outer_form(
            checked, tables, place, pool, *op, *left, *right, entries,
        ),
        Node::Cat { left, right } => cat_form(checked, tables, place, pool, *left, *right, entries),
        Node::Inner {
            fold,
            op,
            left,
            right,
        } => {
            let pair = (*fold, *op);
            inner_form(checked, tables, place, pool, pair, *left, *right, entries)
        }
        Node::Reduce { fold, of } => reduce_form(checked, tables, place, pool, *fold, *of, entries),
        Node::Psi { list, of } => psi_form(checked, tables, place, pool, *list, *of, entries),
        Node::Take { list, of } => take_form(checked, tables, place, pool, *list, *of, entries),
        Node::Drop { list, of } => drop_form(checked, tables, place, pool, *list, *of, entries),
        Node::Permute { list, of } => permute_form(
            checked, tables, place, pool, *list, *of, entries,
        ),
        Node::Reverse { of } => reverse_form(checked, tables, place, pool, *of, entries),
        Node::Rotate { by, of } => rotate_form(checked, tables, place, pool, by, *of, entries),
        Node::Transpose { of } => transpose_form(checked, tables, place, pool, *of, entries),
        Node::Scan { of, .. } => load_in(checked, pool, place.scan, *of, entries),
        Node::Reshape { list, of } => {
            let _list = list;
            reshape_form(checked, tables, place, pool, number, *of, entries)
        }
        Node::Ravel { of } => reshape_form(checked, tables, place, pool, number, *of, entries),
        Node::Use(name) => use_form(checked, tables, place, pool, name, entries),
    }
}

/// Builds the form of the expression of a node at entries.
#[cycle(arms)]
#[inline(never)]
pub(crate) fn form_of(
    checked: &Checked,
    tables: &Tables,
    place: Place,
    pool: &mut Pool,
    number: u32,
    entries: &Entries,
) -> Result<u32, NoMemory>
    requires there { number < length checked.now.pools.nodes }
    requires ready { IsReadyHere checked.now tables.now place.statement number }
    requires fits { Fits (items_in checked.now.pools) place.statement place.scan (used pool.old)
        (node_tree checked.now.pools number) entries.now }
    ensures builds { (names : Names) → IsReady checked.now tables.now place.statement names number
        → IfOk result (Builds (form names place.scan (node_tree checked.now.pools number) entries.now) pool.old pool.new) }
    ensures there { IfOk result (IsThere pool.old pool.new) }
    ensures grown { IfOk result (λ term. used pool.new ≤ used pool.old + cost (items_in checked.now.pools) place.statement (node_tree checked.now.pools number)) }
{
    let node = node_of(checked, number);
    node_form(checked, tables, place, pool, number, &node, entries)
}
