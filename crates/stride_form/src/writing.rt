// Forms that are written as the four rules leave them, an operator at a time.
ghost use Rattle.std.specs.Prelude.{◌≡◌, ◌<◌, ◌≤◌, ◌+◌, ℕ, true, false, List, [], IfOk, OnOk, MatchOption, length};
ghost use Rattle.std.specs.List.{AllByRecursion};
ghost use Rattle.shapes_core.specs.Limits.{most_items};
ghost use Rattle.normal_form.specs.Forms.{Bin, Case, Element, Fold, Get, Index, Let, Lit, Un};
ghost use Rattle.normal_form.specs.Kept.{IsForm};
ghost use Rattle.normal_form.specs.Pool.{form_at, form_of, forms, operands};
ghost use Rattle.stride_form.specs.Operational.{Operational};
ghost use Rattle.stride_form.specs.declared.op_term.OpTerm.{OpTerm as AnOpTerm};
ghost use Rattle.stride_form.specs.Chains.{AreOpen, AreSmall, IsDown, is_let};
ghost use Rattle.stride_form.specs.Facts.{Facts, fact_of};
ghost use Rattle.stride_form.specs.Rules.{resolved_bind};
ghost use Rattle.stride_form.specs.Small.{Flags, IsNearBind, IsSmallFact, fact_at};
ghost use Rattle.stride_form.specs.Writing.{HasRoom, IsClosed, IsOpened, IsReady, IsWritten, OpStands};

use crate::access::Access;
use crate::bindings::{fact_of, offset_in, resolved_bind};
use crate::entries::resolved;
use crate::facts::Fact;
use crate::op_term::OpTerm;
use crate::pile::Bound;
use crate::writer::Writer;
use moa_tree::{Op, Unary};
use normal_form::{Bind, Entries, Entry, Normal, Term};
use shapes_core::{NoMemory, Shape};
use std::alloc::Global;

/// A term, whose operands stand before it.
fn term_at(normal: &Normal, number: u32) -> Term
    requires { number < length normal.now.terms }
    ensures form { form_at (forms normal.now.terms) number ≡ form_of (forms normal.now.terms) result }
    ensures before { AllByRecursion (λ operand. operand < number) (operands result) }
{
    let _ = normal.empty();
    normal.term(number)
}

/// Writes a constant.
#[inline(never)]
fn write_literal(writer: &mut Writer, value: i64) -> Result<u32, NoMemory>
    requires { HasRoom writer.old (Lit value) }
    ensures { IfOk result (IsWritten (Lit value) writer.old writer.new) }
{
    writer.push(OpTerm::Lit(value))
}

/// Writes the number of an entry.
#[inline(never)]
fn write_index(writer: &mut Writer, entry: Entry) -> Result<u32, NoMemory>
    requires ready { IsReady (fact_at writer.old.facts) (Index entry) }
    requires room { HasRoom writer.old (Index entry) }
    ensures { IfOk result (IsWritten (Index entry) writer.old writer.new) }
{
    let found = resolved(writer.table(), entry);
    writer.mark(found)?;
    writer.push(OpTerm::Index(found))
}

/// Writes an element of an area.
#[inline(never)]
fn write_load(
    alloc: Global,
    writer: &mut Writer,
    area: u32,
    shape: &Shape,
    at: &Entries,
) -> Result<u32, NoMemory>
    requires ready { IsReady (fact_at writer.old.facts) (Get (record { area = area; shape = shape.now; at = at.now })) }
    requires room { HasRoom writer.old (Get (record { area = area; shape = shape.now; at = at.now })) }
    ensures { IfOk result (IsWritten (Get (record { area = area; shape = shape.now; at = at.now })) writer.old writer.new) }
{
    let found = crate::entries::resolved_list(writer.table(), at.list());
    let walk = offset_in(alloc, writer.table(), &found, shape)?;
    writer.mark_strides(walk.strides.list())?;
    writer.push(OpTerm::Get(Access {
        area,
        start: walk.start,
        strides: walk.strides,
    }))
}

/// Writes an operator on one operand.
#[cycle(writing)]
#[inline(never)]
fn write_one(
    alloc: Global,
    normal: &Normal,
    writer: &mut Writer,
    op: Unary,
    of: u32,
) -> Result<u32, NoMemory>
    requires there { of < length normal.now.terms }
    requires ready { IsReady (fact_at writer.old.facts) (Un op (form_at (forms normal.now.terms) of)) }
    requires room { HasRoom writer.old (Un op (form_at (forms normal.now.terms) of)) }
    ensures { IfOk result (IsWritten (Un op (form_at (forms normal.now.terms) of)) writer.old writer.new) }
{
    let operand = write(alloc, normal, writer, of)?;
    writer.push(OpTerm::Un { op, of: operand })
}

/// Writes an operator on two operands.
#[cycle(writing)]
#[inline(never)]
fn write_two(
    alloc: Global,
    normal: &Normal,
    writer: &mut Writer,
    op: Op,
    left: u32,
    right: u32,
) -> Result<u32, NoMemory>
    requires first { left < length normal.now.terms }
    requires second { right < length normal.now.terms }
    requires ready { IsReady (fact_at writer.old.facts) (Bin op (form_at (forms normal.now.terms) left) (form_at (forms normal.now.terms) right)) }
    requires room { HasRoom writer.old (Bin op (form_at (forms normal.now.terms) left) (form_at (forms normal.now.terms) right)) }
    ensures { IfOk result (IsWritten (Bin op (form_at (forms normal.now.terms) left) (form_at (forms normal.now.terms) right))
        writer.old writer.new) }
{
    let left = write(alloc, normal, writer, left)?;
    let right = write(alloc, normal, writer, right)?;
    writer.push(OpTerm::Bin { op, left, right })
}

/// Writes one of two forms by whether an entry is below a number.
#[cycle(writing)]
#[inline(never)]
fn write_case(
    alloc: Global,
    normal: &Normal,
    writer: &mut Writer,
    entry: Entry,
    below: i64,
    yes: u32,
    no: u32,
) -> Result<u32, NoMemory>
    requires first { yes < length normal.now.terms }
    requires second { no < length normal.now.terms }
    requires ready { IsReady (fact_at writer.old.facts)
        (Case entry below (form_at (forms normal.now.terms) yes) (form_at (forms normal.now.terms) no)) }
    requires room { HasRoom writer.old (Case entry below (form_at (forms normal.now.terms) yes) (form_at (forms normal.now.terms) no)) }
    ensures { IfOk result (IsWritten (Case entry below (form_at (forms normal.now.terms) yes) (form_at (forms normal.now.terms) no))
        writer.old writer.new) }
{
    let left = resolved(writer.table(), entry);
    writer.mark(left)?;
    let yes = write(alloc, normal, writer, yes)?;
    let no = write(alloc, normal, writer, no)?;
    writer.push(OpTerm::Case {
        left,
        below,
        yes,
        no,
    })
}

/// Writes a fold over a variable, of which it is known again afterwards what was before.
#[cycle(writing)]
#[inline(never)]
fn write_fold(
    alloc: Global,
    normal: &Normal,
    writer: &mut Writer,
    op: Op,
    var: u32,
    low: u64,
    high: u64,
    of: u32,
) -> Result<u32, NoMemory>
    requires there { of < length normal.now.terms }
    requires ready { IsReady (fact_at writer.old.facts) (Fold op var low high (form_at (forms normal.now.terms) of)) }
    requires room { HasRoom writer.old (Fold op var low high (form_at (forms normal.now.terms) of)) }
    ensures { IfOk result (IsWritten (Fold op var low high (form_at (forms normal.now.terms) of)) writer.old writer.new) }
{
    let before = writer.fact(var);
    writer.know(var, Fact::Range { low, high })?;
    let operand = write(alloc, normal, writer, of)?;
    writer.know(var, before)?;
    writer.push(OpTerm::Fold {
        op,
        var,
        low,
        high,
        of: operand,
    })
}

/// Opens a binding: its variable is known and not marked from now on.
#[inline(never)]
fn open(
    alloc: Global,
    writer: &mut Writer,
    pile: &mut Vec<Bound>,
    var: u32,
    bind: &Bind,
) -> Result<(), NoMemory>
    requires near { IsNearBind bind.now }
    requires resolved { IsNearBind (resolved_bind (fact_at writer.old.facts) bind.now) }
    requires small { IsSmallFact (fact_of (fact_at writer.old.facts) (resolved_bind (fact_at writer.old.facts) bind.now)) }
    ensures opened { OnOk result (IsOpened var bind.now pile.old.items pile.new.items writer.old writer.new) }
{
    let bind = resolved_bind(writer.table(), bind);
    let new = fact_of(alloc, writer.table(), &bind)?;
    let fact = writer.fact(var);
    let flag = writer.flag(var);
    writer.know(var, new)?;
    writer.set_flag(var, false)?;
    pile.push(Bound {
        var,
        bind,
        fact,
        flag,
    })?;
    Ok(())
}

/// Closes a binding over a form, the last that was written: it is written where its variable is marked.
#[inline(never)]
fn close(writer: &mut Writer, bound: &Bound, of: u32) -> Result<u32, NoMemory>
    requires small { IsSmallFact bound.now.fact }
    requires below { of < length writer.old.terms }
    requires room { length writer.old.terms < most_items }
    ensures { (form : Operational) → OpStands writer.old.terms of form → 1 + of ≡ length writer.old.terms
        → IfOk result (IsClosed bound.now form writer.old writer.new) }
{
    let needed = writer.flag(bound.var);
    writer.know(bound.var, bound.fact)?;
    writer.set_flag(bound.var, bound.flag | needed)?;
    if !needed {
        return Ok(of);
    }
    writer.mark_bind(&bound.bind)?;
    writer.push(OpTerm::Let {
        var: bound.var,
        bind: bound.bind,
        of,
    })
}

/// A binding, with the number of the form that it is over.
#[derive(Clone, Copy)]
struct Binding {
    var: u32,
    bind: Bind,
    of: u32,
}

/// The binding of this number, if the term is one.
fn binding_at(normal: &Normal, number: u32) -> Option<Binding>
    requires { number < length normal.now.terms }
    ensures { MatchOption result (is_let (form_at (forms normal.now.terms) number) ≡ false)
        (λ found. (found.of < number) × (form_at (forms normal.now.terms) number ≡ Let found.var found.bind (form_at (forms normal.now.terms) found.of))) }
{
    match term_at(normal, number) {
        Term::Let { var, bind, of } => Some(Binding { var, bind, of }),
        _ => None,
    }
}

/// Opens the bindings of a chain, and gives the form that they are over.
#[inline(never)]
fn open_chain(
    alloc: Global,
    normal: &Normal,
    writer: &mut Writer,
    pile: &mut Vec<Bound>,
    number: u32,
) -> Result<u32, NoMemory>
    requires there { number < length normal.now.terms }
    requires none { pile.old.items ≡ [] }
    requires ready { IsReady (fact_at writer.old.facts) (form_at (forms normal.now.terms) number) }
    ensures before { IfOk result (λ body. body ≤ number) }
    ensures last { IfOk result (λ body. is_let (form_at (forms normal.now.terms) body) ≡ false) }
    ensures down { IfOk result (λ body. IsDown (form_at (forms normal.now.terms) number) (form_at (forms normal.now.terms) body)
        pile.new.items writer.old writer.new) }
{
    let mut number = number;
    while let Some(binding) = binding_at(normal, number) {
        open(alloc, writer, pile, binding.var, &binding.bind)?;
        number = binding.of;
    }
    Ok(number)
}

/// Closes the bindings of a chain, the innermost first.
#[inline(never)]
fn close_chain(writer: &mut Writer, pile: Vec<Bound>, number: u32) -> Result<u32, NoMemory>
    requires small { AreSmall pile.items }
    requires last { 1 + number ≡ length writer.old.terms }
    requires room { length writer.old.terms + length pile.items ≤ most_items }
    ensures { (facts : Facts) → (flags : Flags) → (whole : Operational) → (first : List AnOpTerm) → (most : ℕ)
        → AreOpen facts flags pile.items whole first most writer.old number → IfOk result (AreOpen facts flags [] whole first most writer.new) }
{
    let mut pile = pile;
    let mut number = number;
    while let Some(bound) = pile.pop() {
        number = close(writer, &bound, number)?;
    }
    Ok(number)
}

/// Writes a chain of bindings, in a loop down and a loop up.
#[cycle(writing)]
#[inline(never)]
fn write_chain(
    alloc: Global,
    normal: &Normal,
    writer: &mut Writer,
    number: u32,
) -> Result<u32, NoMemory>
    requires there { number < length normal.now.terms }
    requires binds { is_let (form_at (forms normal.now.terms) number) ≡ true }
    requires ready { IsReady (fact_at writer.old.facts) (form_at (forms normal.now.terms) number) }
    requires room { HasRoom writer.old (form_at (forms normal.now.terms) number) }
    ensures { IfOk result (IsWritten (form_at (forms normal.now.terms) number) writer.old writer.new) }
{
    let mut pile = Vec::new(alloc);
    let body = open_chain(alloc, normal, writer, &mut pile, number)?;
    let middle = write(alloc, normal, writer, body)?;
    close_chain(writer, pile, middle)
}

/// Writes the form of a term.
#[cycle(writing)]
#[inline(never)]
pub(crate) fn write(
    alloc: Global,
    normal: &Normal,
    writer: &mut Writer,
    number: u32,
) -> Result<u32, NoMemory>
    requires there { number < length normal.now.terms }
    requires ready { IsReady (fact_at writer.old.facts) (form_at (forms normal.now.terms) number) }
    requires room { HasRoom writer.old (form_at (forms normal.now.terms) number) }
    ensures { IfOk result (IsWritten (form_at (forms normal.now.terms) number) writer.old writer.new) }
{
    match term_at(normal, number) {
        Term::Lit(value) => write_literal(writer, value),
        Term::Index(entry) => write_index(writer, entry),
        Term::Load { area, shape, at } => write_load(alloc, writer, area, &shape, &at),
        Term::Un { op, of } => write_one(alloc, normal, writer, op, of),
        Term::Bin { op, left, right } => write_two(alloc, normal, writer, op, left, right),
        Term::Case {
            left,
            below,
            yes,
            no,
        } => write_case(alloc, normal, writer, left, below, yes, no),
        Term::Fold {
            op,
            var,
            low,
            high,
            of,
        } => write_fold(alloc, normal, writer, op, var, low, high, of),
        Term::Let { .. } => write_chain(alloc, normal, writer, number),
    }
}
