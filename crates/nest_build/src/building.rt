// The nest of a job.
ghost use Rattle.std.specs.Prelude.{◌≡◌, ◌++◌, ◌∷◌, [], ◌+◌, ◌<◌, IfOk, List, None, Some, length, map};
ghost use Rattle.shapes_core.specs.Shape.{IsShape};
ghost use Rattle.normal_form.specs.Kept.{IsBox};
ghost use Rattle.stride_form.specs.Kept.{AreOpOrdered, op_form_in};
ghost use Rattle.stride_form.specs.Operational.{Operational as OpForm};
ghost use Rattle.stride_form.specs.Pool.{op_form_at, op_forms};
ghost use Rattle.loop_ir.specs.Kept.{KeepsCounters};
ghost use Rattle.loop_ir.specs.Pool.{tree};
ghost use Rattle.loop_ir.specs.Steps.{End, Place, Write};
ghost use Rattle.nest_build.specs.Coding.{loops_of, plain, spots_of};
ghost use Rattle.nest_build.specs.Nests.{made_of, nest_of, own_access, sets_from, spots_from};
ghost use Rattle.nest_build.specs.Parts.{Loop, accesses, literals, loops_from, low_of, values_of};
ghost use Rattle.nest_build.specs.Standing.{AreNamed, Stands, tree_in};

use crate::axes::{Axis, push_axes};
use crate::nesting::all_loops;
use crate::numbers::{push_accesses, push_literals, sum, values};
use crate::places::{Stand, own_access, push_stands};
use crate::shape_laws::nests_keep_counters;
use crate::values::{Making, make};
use crate::walks::{push_places, push_sets};
use loop_ir::{Lists, Nest, Step};
use shape_check::Layout;
use shapes_core::{Area, NoMemory};
use std::alloc::Global;
use stride_form::Operational;

/// The nest of an output's job, in a block with this layout: a loop for each axis of the region that has more than one
/// place, and a place for each access, which walks along its area by its strides. The nest of an empty form does nothing.
/// That of a straight form gives the form's values (`laws::nests_give`). After the starts, strides and loop counts of Mullin
/// and Thibault (1994).
///
/// # Errors
/// `NoMemory` where memory is wanted and cannot be had, or where a number leaves 64 bits, or that of a register, a place
/// or a list 32.
pub fn build(alloc: Global, form: &Operational, layout: &Layout) -> Result<Nest, NoMemory>
    ensures straight { (form_tree : OpForm) → op_form_in form.now.terms ≡ Some form_tree
        → IfOk result (λ nest. tree nest ≡ nest_of layout.now form.now.job.area form.now.shape form.now.region form_tree) }
    ensures empty { op_form_in form.now.terms ≡ None → IfOk result (λ nest. tree nest ≡ End) }
{
    if form.empty() {
        return no_steps(alloc);
    }
    nest(alloc, form, layout.areas(), form.top())
}

/// The nest that does nothing.
fn no_steps(alloc: Global) -> Result<Nest, NoMemory>
    ensures { IfOk result (λ nest. tree nest ≡ End) }
{
    finished(alloc, Lists::new(alloc), Vec::new(alloc))
}

/// The nest of a term, where lists have none yet.
fn nest(alloc: Global, form: &Operational, areas: &[Area], top: u32) -> Result<Nest, NoMemory>
    requires ordered { AreOpOrdered 0 form.now.terms }
    requires there { top < length form.now.terms }
    requires shaped { IsShape form.now.shape }
    requires within { IsBox form.now.region form.now.shape }
    ensures { IfOk result (λ nest. tree nest
        ≡ nest_of areas.now form.now.job.area form.now.shape form.now.region (op_form_at (op_forms form.now.terms) top)) }
{
    nests_keep_counters();
    let mut lists = Lists::new(alloc);
    let steps = all_steps(alloc, &mut lists, form, areas, top)?;
    finished(alloc, lists, steps)
}

/// The nest whose whole are these steps.
fn finished(alloc: Global, lists: Lists, steps: Vec<Step>) -> Result<Nest, NoMemory>
    requires named { AreNamed lists steps.items }
    requires counters { KeepsCounters (tree_in lists steps.items) }
    ensures { IfOk result (λ nest. tree nest ≡ tree_in lists steps.items) }
{
    let mut made = lists;
    if made.is_full() {
        return Err(NoMemory);
    }
    made.add(steps)?;
    let nest = made.into_nest(alloc)?;
    Ok(nest)
}

/// The steps of the whole of a nest, among the lists of its loops.
fn all_steps(
    alloc: Global,
    lists: &mut Lists,
    form: &Operational,
    areas: &[Area],
    top: u32,
) -> Result<Vec<Step>, NoMemory>
    requires ordered { AreOpOrdered 0 form.now.terms }
    requires there { top < length form.now.terms }
    ensures { IfOk result (λ steps. Stands lists.new steps.items
        (nest_of areas.now form.now.job.area form.now.shape form.now.region (op_form_at (op_forms form.now.terms) top))) }
{
    let axes = axes_of(alloc, form)?;
    let literals = literals_of(alloc, form, top)?;
    let numbers = numbers_of(&axes, &literals, form, top)?;
    let stands = stands_of(alloc, form, areas, numbers.place, top)?;
    let body = body_of(alloc, form, &axes, numbers, top)?;
    let loops = all_loops(alloc, lists, &stands, &axes, body)?;
    let steps = led(alloc, numbers.literal, &literals, &stands, &loops)?;
    Ok(steps)
}

/// The loops of a form's region.
fn axes_of(alloc: Global, form: &Operational) -> Result<Vec<Axis>, NoMemory>
    ensures { IfOk result (λ axes. loops_of axes.items ≡ loops_from 0 0 form.now.region) }
{
    let mut axes = Vec::new(alloc);
    push_axes(&mut axes, 0, 0, form.region().list())?;
    Ok(axes)
}

/// The literals of a term.
fn literals_of(alloc: Global, form: &Operational, top: u32) -> Result<Vec<i64>, NoMemory>
    requires ordered { AreOpOrdered 0 form.now.terms }
    requires there { top < length form.now.terms }
    ensures { IfOk result (λ values. values.items ≡ literals (op_form_at (op_forms form.now.terms) top)) }
{
    let mut values = Vec::new(alloc);
    push_literals(&mut values, form, top)?;
    Ok(values)
}

/// The first register of a literal, the first that is free behind them, and the first place.
#[derive(Clone, Copy)]
struct Numbers {
    literal: u32,
    free: u32,
    place: u32,
}

/// The numbers of registers and places.
fn numbers_of(
    axes: &[Axis],
    literals: &[i64],
    form: &Operational,
    top: u32,
) -> Result<Numbers, NoMemory>
    requires ordered { AreOpOrdered 0 form.now.terms }
    requires there { top < length form.now.terms }
    ensures literal { IfOk result (λ numbers. numbers.literal ≡ length axes.now) }
    ensures free { IfOk result (λ numbers. numbers.free ≡ numbers.literal + length literals.now) }
    ensures place { IfOk result (λ numbers. numbers.place ≡ numbers.free + values_of (op_form_at (op_forms form.now.terms) top)) }
{
    let literal = count(axes.len())?;
    let free = sum(literal, count(literals.len())?)?;
    let place = sum(free, values(form, top)?)?;
    Ok(Numbers {
        literal,
        free,
        place,
    })
}

/// A count as a number of 32 bits.
fn count(items: usize) -> Result<u32, NoMemory>
    ensures { IfOk result (λ number. number ≡ items) }
{
    let Ok(number) = u32::try_from(items) else {
        return Err(NoMemory);
    };
    Ok(number)
}

/// The places of a term's accesses, and behind them that of the job's own array.
fn stands_of(
    alloc: Global,
    form: &Operational,
    areas: &[Area],
    place: u32,
    top: u32,
) -> Result<Vec<Stand>, NoMemory>
    requires ordered { AreOpOrdered 0 form.now.terms }
    requires there { top < length form.now.terms }
    ensures { IfOk result (λ stands. spots_of stands.items ≡ spots_from areas.now form.now.region place
        (accesses (op_form_at (op_forms form.now.terms) top) ++ own_access form.now.job.area form.now.shape ∷ [])) }
{
    let mut accesses = Vec::new(alloc);
    push_accesses(&mut accesses, form, top)?;
    accesses.push(own_access(alloc, form.job().area, &form.shape())?)?;
    let mut stands = Vec::new(alloc);
    push_stands(&mut stands, areas, form.region().list(), place, &accesses)?;
    Ok(stands)
}

/// The steps of one turn of all loops: a term's value is made and written.
fn body_of(
    alloc: Global,
    form: &Operational,
    axes: &[Axis],
    numbers: Numbers,
    top: u32,
) -> Result<Vec<Step>, NoMemory>
    requires ordered { AreOpOrdered 0 form.now.terms }
    requires there { top < length form.now.terms }
    ensures { (loops : List Loop) → loops_of axes.now ≡ loops → let of = op_form_at (op_forms form.now.terms) top in
        let made = made_of loops (low_of form.now.region) numbers.free numbers.literal numbers.place of in
        IfOk result (λ steps. steps.items ≡ plain (made.steps ++ Write form.now.job.area (numbers.place + length (accesses of)) made.value ∷ [])) }
{
    let mut making = Making {
        steps: Vec::new(alloc),
        literal: numbers.literal,
        place: numbers.place,
    };
    let region = form.region();
    let from = make(&mut making, form, axes, region.list(), numbers.free, top)?;
    let mut steps = making.steps;
    steps.push(Step::Write {
        area: form.job().area,
        place: making.place,
        from,
    })?;
    Ok(steps)
}

/// Steps behind those that set the registers of literals and the places.
fn led(
    alloc: Global,
    first: u32,
    literals: &[i64],
    stands: &[Stand],
    loops: &[Step],
) -> Result<Vec<Step>, NoMemory>
    ensures { IfOk result (λ steps. steps.items ≡ plain (sets_from first literals.now)
        ++ (plain (map (λ spot. Place spot.place spot.word) (spots_of stands.now)) ++ loops.now)) }
{
    let mut steps = Vec::new(alloc);
    push_sets(&mut steps, first, literals)?;
    push_places(&mut steps, stands)?;
    steps.extend_from_slice(loops)?;
    Ok(steps)
}
