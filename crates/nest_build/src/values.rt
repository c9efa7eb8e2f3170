// The steps that make the value of a form.
ghost use Rattle.std.specs.Prelude.{◌≡◌, ◌++◌, ◌∷◌, [], ◌<◌, ◌+◌, pos, ◌+ℤ◌, ◌-ℤ◌, IfOk, OnOk, length};
ghost use Rattle.loop_ir.specs.Steps.{One, Read, Set, Two};
ghost use Rattle.stride_form.specs.Kept.{AreOpOrdered};
ghost use Rattle.stride_form.specs.Pool.{op_form_at, op_forms};
ghost use Rattle.nest_build.specs.Coding.{loops_of, plain};
ghost use Rattle.nest_build.specs.Makes.{Makes};
ghost use Rattle.nest_build.specs.Nests.{counted_by, indexed};
ghost use Rattle.nest_build.specs.Parts.{low_of};

use crate::axes::{Axis, counter_of, low_of};
use crate::numbers::{behind, next};
use crate::part::{Part, top_of};
use loop_ir::Step;
use moa_tree::{Op, Unary};
use normal_form::Entry;
use shapes_core::NoMemory;
use stride_form::Operational;

/// The steps so far, with the register of the next literal and the number of the next place.
#[derive(Drop)]
pub(crate) struct Making {
    pub(crate) steps: Vec<Step>,
    pub(crate) literal: u32,
    pub(crate) place: u32,
}

/// Adds the steps that make the value of a term, and answers its register.
#[inline(never)]
pub(crate) fn make(
    making: &mut Making,
    form: &Operational,
    axes: &[Axis],
    region: &[(u64, u64)],
    free: u32,
    number: u32,
) -> Result<u32, NoMemory>
    requires ordered { AreOpOrdered 0 form.now.terms }
    requires there { number < length form.now.terms }
    ensures { IfOk result (λ value. Makes (loops_of axes.now) (low_of region.now) free (op_form_at (op_forms form.now.terms) number) value
        making.old.steps.items making.old.literal making.old.place making.new.steps.items making.new.literal making.new.place) }
{
    match top_of(form, number) {
        Part::Lit(_) => take_literal(making),
        Part::Index(entry) => {
            push_index(&mut making.steps, axes, region, free, entry)?;
            Ok(free)
        }
        Part::Get(area) => {
            push_read(making, free, area)?;
            Ok(free)
        }
        Part::Un { op, of } => {
            let from = make(making, form, axes, region, free, of)?;
            push_one(making, op, free, from)?;
            Ok(free)
        }
        Part::Bin { op, left, right } => {
            let one = make(making, form, axes, region, free, left)?;
            let later = behind(form, left, free)?;
            let other = make(making, form, axes, region, later, right)?;
            push_two(making, op, free, one, other)?;
            Ok(free)
        }
        Part::Other => Ok(free),
    }
}

/// The register of the next literal.
#[inline(never)]
fn take_literal(making: &mut Making) -> Result<u32, NoMemory>
    ensures value { IfOk result (λ value. value ≡ making.old.literal) }
    ensures steps { making.new.steps.items ≡ making.old.steps.items }
    ensures literal { OnOk result (making.new.literal ≡ making.old.literal + 1) }
    ensures place { making.new.place ≡ making.old.place }
{
    let value = making.literal;
    making.literal = next(value)?;
    Ok(value)
}

/// Adds a step that reads the next place.
#[inline(never)]
fn push_read(making: &mut Making, to: u32, area: u32) -> Result<(), NoMemory>
    ensures steps { OnOk result (making.new.steps.items ≡ making.old.steps.items ++ plain (Read to area making.old.place ∷ [])) }
    ensures literal { making.new.literal ≡ making.old.literal }
    ensures place { OnOk result (making.new.place ≡ making.old.place + 1) }
{
    let place = making.place;
    making.place = next(place)?;
    making.steps.push(Step::Read { to, area, place })?;
    Ok(())
}

/// Adds a step of an operator on one register.
#[inline(never)]
fn push_one(making: &mut Making, op: Unary, to: u32, from: u32) -> Result<(), NoMemory>
    ensures steps { OnOk result (making.new.steps.items ≡ making.old.steps.items ++ plain (One op to from ∷ [])) }
    ensures literal { making.new.literal ≡ making.old.literal }
    ensures place { making.new.place ≡ making.old.place }
{
    making.steps.push(Step::One { op, to, from })?;
    Ok(())
}

/// Adds a step of an operator on two registers.
#[inline(never)]
fn push_two(making: &mut Making, op: Op, to: u32, left: u32, right: u32) -> Result<(), NoMemory>
    ensures steps { OnOk result (making.new.steps.items ≡ making.old.steps.items ++ plain (Two op to left right ∷ [])) }
    ensures literal { making.new.literal ≡ making.old.literal }
    ensures place { making.new.place ≡ making.old.place }
{
    making.steps.push(Step::Two {
        op,
        to,
        left,
        right,
    })?;
    Ok(())
}

/// Adds the steps that make the number of an entry.
#[inline(never)]
fn push_index(
    steps: &mut Vec<Step>,
    axes: &[Axis],
    region: &[(u64, u64)],
    free: u32,
    entry: Entry,
) -> Result<(), NoMemory>
    ensures { OnOk result (steps.new.items
        ≡ steps.old.items ++ plain (indexed (loops_of axes.now) (low_of region.now) free entry)) }
{
    match entry {
        Entry::At(constant) => push_set(steps, free, constant),
        Entry::Plus { var, add } => {
            let constant = raised(add, low_of(region, var))?;
            push_counted(steps, free, constant, counter_of(axes, var), Op::Add)
        }
        Entry::Minus { var, add } => {
            let constant = lowered(add, low_of(region, var))?;
            push_counted(steps, free, constant, counter_of(axes, var), Op::Sub)
        }
    }
}

/// Adds a step that sets a register to a constant.
fn push_set(steps: &mut Vec<Step>, to: u32, value: i64) -> Result<(), NoMemory>
    ensures { OnOk result (steps.new.items ≡ steps.old.items ++ plain (Set to value ∷ [])) }
{
    steps.push(Step::Set { to, value })?;
    Ok(())
}

/// Adds the steps that make a constant with a counter, where there is one, put to it by an operator.
fn push_counted(
    steps: &mut Vec<Step>,
    free: u32,
    constant: i64,
    counter: Option<u32>,
    op: Op,
) -> Result<(), NoMemory>
    ensures { OnOk result (steps.new.items
        ≡ steps.old.items ++ plain (counted_by free constant counter (λ register. Two op free free register))) }
{
    push_set(steps, free, constant)?;
    let Some(right) = counter else {
        return Ok(());
    };
    steps.push(Step::Two {
        op,
        to: free,
        left: free,
        right,
    })?;
    Ok(())
}

/// A constant and a count.
fn raised(constant: i64, count: u64) -> Result<i64, NoMemory>
    ensures { IfOk result (λ sum. sum ≡ constant +ℤ pos count) }
{
    let Ok(count) = i64::try_from(count) else {
        return Err(NoMemory);
    };
    constant.checked_add(count).ok_or(NoMemory)
}

/// A constant without a count.
pub(crate) fn lowered(constant: i64, count: u64) -> Result<i64, NoMemory>
    ensures { IfOk result (λ rest. rest ≡ constant -ℤ pos count) }
{
    let Ok(count) = i64::try_from(count) else {
        return Err(NoMemory);
    };
    constant.checked_sub(count).ok_or(NoMemory)
}
