// The lines of lists of steps, and of the loops and choices in them.
ghost use Rattle.std.specs.Prelude.{◌≡◌, ◌+◌, ◌^◌, ◌<◌, ◌++◌, ◌∷◌, [], IfOk, IsSome, List, OnOk, length};
ghost use Rattle.std.specs.List.{AllByRecursion};
ghost use Rattle.loop_ir.specs.Kept.{KeepsCounters};
ghost use Rattle.loop_ir.specs.Pool.{inner_lists, steps_of};
ghost use Rattle.loop_ir.specs.Running.{Register};
ghost use Rattle.loop_ir.specs.Steps.{End};
ghost use Rattle.register_map.specs.Homes.{home_of};
ghost use Rattle.rv_emit.specs.Emitting.{choice_of, emitted, lists_of, loop_of, owed_after};
ghost use Rattle.rv_emit.specs.Emitting.{settled, turn_of, turns_of};
ghost use Rattle.rv_emit.specs.Programs.{Emits, HaveHomes, MayCome, list_tree, plan_at, step_lines};
ghost use Rattle.rv_line.specs.declared.line.Line.{Line};

use crate::actions::{copy, go, one, place, read, set, spot, two, write};
use crate::computing::{ZERO, line_ahead, push_branch};
use crate::moving::{FIRST, SECOND, register_of};
use crate::owed::Debt;
use crate::pieces::{emit_closing, emit_start, emit_test, push_jump, settle, steps_behind};
use crate::site::Emission;
use loop_ir::Step;
use loop_ir::laws::lists_in_order;
use rv_line::{Branch, Line};
use shapes_core::NoMemory;

/// The lines of a list.
#[cycle(emits)]
pub(crate) fn emit_list(
    site: &Emission,
    lines: &mut Vec<Line>,
    owed: &mut Vec<Debt>,
    number: u32,
) -> Result<u64, NoMemory>
    requires within { number < length site.now.lists }
    requires homes { HaveHomes site.now.homes (list_tree site.now number) }
    requires counters { KeepsCounters (list_tree site.now number) }
    requires room { MayCome (emitted (plan_at site.now) owed.old.items (list_tree site.now number))
        lines.old.items }
    ensures emits { IfOk result (Emits (emitted (plan_at site.now)
        owed.old.items (list_tree site.now number)) lines.old.items lines.new.items) }
    ensures owed { OnOk result (owed.new.items ≡ owed_after (plan_at site.now)
        owed.old.items (list_tree site.now number)) }
{
    lists_in_order();
    let mut steps = 0u64;
    for step in site.list(number) {
        let more = emit_step(site, lines, owed, *step)?;
        steps += more;
    }
    Ok(steps)
}

/// The lines of a step.
#[cycle(emits)]
fn emit_step(
    site: &Emission,
    lines: &mut Vec<Line>,
    owed: &mut Vec<Debt>,
    step: Step,
) -> Result<u64, NoMemory>
    requires within { AllByRecursion (λ inner. inner < length site.now.lists) (inner_lists step) }
    requires homes { HaveHomes site.now.homes (steps_of (list_tree site.now) (step ∷ [])) }
    requires counters { KeepsCounters (steps_of (list_tree site.now) (step ∷ [])) }
    requires room { MayCome (emitted (plan_at site.now) owed.old.items
        (steps_of (list_tree site.now) (step ∷ []))) lines.old.items }
    ensures emits { IfOk result (Emits (emitted (plan_at site.now) owed.old.items
        (steps_of (list_tree site.now) (step ∷ []))) lines.old.items lines.new.items) }
    ensures owed { OnOk result (owed.new.items ≡ owed_after (plan_at site.now)
        owed.old.items (steps_of (list_tree site.now) (step ∷ []))) }
{
    match step {
        Step::For {
            counter,
            turns,
            body,
        } => emit_loop(site, lines, owed, counter, turns, body),
        Step::If {
            left,
            below,
            yes,
            no,
        } => emit_choice(site, lines, owed, left, below, yes, no),
        plain => emit_action(site, lines, owed, plain),
    }
}

/// The lines of a step that does no list.
fn emit_action(
    site: &Emission,
    lines: &mut Vec<Line>,
    owed: &mut Vec<Debt>,
    step: Step,
) -> Result<u64, NoMemory>
    requires plain { inner_lists step ≡ [] }
    requires homes { HaveHomes site.now.homes (steps_of (λ inner. End) (step ∷ [])) }
    requires room { MayCome (emitted (plan_at site.now) owed.old.items
        (steps_of (λ inner. End) (step ∷ []))) lines.old.items }
    ensures emits { IfOk result (Emits (emitted (plan_at site.now)
        owed.old.items (steps_of (λ inner. End) (step ∷ []))) lines.old.items lines.new.items) }
    ensures owed { OnOk result (owed.new.items ≡ owed_after (plan_at site.now)
        owed.old.items (steps_of (λ inner. End) (step ∷ []))) }
{
    let before = lines.len();
    push_action(site, lines, owed, step)?;
    Ok(steps_behind(lines, before))
}

/// Pushes the lines of a step that does no list.
fn push_action(
    site: &Emission,
    lines: &mut Vec<Line>,
    owed: &mut Vec<Debt>,
    step: Step,
) -> Result<(), NoMemory>
    requires plain { inner_lists step ≡ [] }
    requires homes { HaveHomes site.now.homes (steps_of (λ inner. End) (step ∷ [])) }
    requires room { length lines.old.items + length (step_lines (plan_at site.now)
        (length lines.old.items) owed.old.items step) < 2 ^ 32 }
    ensures lines { OnOk result (lines.new.items ≡ lines.old.items
        ++ step_lines (plan_at site.now) (length lines.old.items) owed.old.items step) }
    ensures owed { OnOk result (owed.new.items ≡ owed_after (plan_at site.now)
        owed.old.items (steps_of (λ inner. End) (step ∷ []))) }
{
    match step {
        Step::Set { to, value } => set(site, lines, owed, to, value),
        Step::Copy { to, from } => copy(site, lines, owed, to, from),
        Step::One { op, to, from } => one(site, lines, owed, op, to, from),
        Step::Two {
            op,
            to,
            left,
            right,
        } => two(site, lines, owed, op, to, left, right),
        Step::Place { to, word } => place(site, lines, owed, to, word),
        Step::Spot { to, word, by } => spot(site, lines, owed, to, word, by),
        Step::Walk { place, words } => go(site, owed, place, words),
        Step::Read { to, area, place } => read(site, lines, owed, to, area, place),
        Step::Write { area, place, from } => write(site, lines, owed, area, place, from),
        Step::For { .. } | Step::If { .. } => Ok(()),
    }
}

/// The lines of a list, behind which nothing is owed.
#[cycle(emits)]
fn emit_settled(
    site: &Emission,
    lines: &mut Vec<Line>,
    owed: &mut Vec<Debt>,
    number: u32,
) -> Result<u64, NoMemory>
    requires within { number < length site.now.lists }
    requires homes { HaveHomes site.now.homes (list_tree site.now number) }
    requires none { owed.old.items ≡ [] }
    requires counters { KeepsCounters (list_tree site.now number) }
    requires room { MayCome (settled (plan_at site.now) (list_tree site.now number)) lines.old.items }
    ensures emits { IfOk result (Emits (settled
        (plan_at site.now) (list_tree site.now number)) lines.old.items lines.new.items) }
    ensures none { OnOk result (owed.new.items ≡ []) }
{
    let steps = emit_list(site, lines, owed, number)?;
    let more = settle(lines, owed)?;
    Ok(steps + more)
}

/// The lines of a turn.
#[cycle(emits)]
fn emit_turn(
    site: &Emission,
    lines: &mut Vec<Line>,
    owed: &mut Vec<Debt>,
    counter: u32,
    turns: u64,
    body: u32,
) -> Result<u64, NoMemory>
    requires counter { IsSome (home_of site.now.homes (Register counter)) }
    requires within { body < length site.now.lists }
    requires homes { HaveHomes site.now.homes (list_tree site.now body) }
    requires none { owed.old.items ≡ [] }
    requires turns { turns < 2 ^ 63 }
    requires counters { KeepsCounters (list_tree site.now body) }
    requires room { MayCome (turn_of (plan_at site.now) counter turns (settled
        (plan_at site.now) (list_tree site.now body))) lines.old.items }
    ensures emits { IfOk result (Emits (turn_of (plan_at site.now) counter turns (settled
        (plan_at site.now) (list_tree site.now body))) lines.old.items lines.new.items) }
    ensures none { OnOk result (owed.new.items ≡ []) }
{
    let top = line_ahead(lines, 0);
    let steps = emit_settled(site, lines, owed, body)?;
    let more = emit_closing(site, lines, counter, turns, top)?;
    Ok(steps + more)
}

/// The lines of the turns of a loop, where it has one.
#[cycle(emits)]
fn emit_turns(
    site: &Emission,
    lines: &mut Vec<Line>,
    owed: &mut Vec<Debt>,
    counter: u32,
    turns: u64,
    body: u32,
) -> Result<u64, NoMemory>
    requires counter { IsSome (home_of site.now.homes (Register counter)) }
    requires within { body < length site.now.lists }
    requires homes { HaveHomes site.now.homes (list_tree site.now body) }
    requires none { owed.old.items ≡ [] }
    requires turns { turns < 2 ^ 63 }
    requires counters { KeepsCounters (list_tree site.now body) }
    requires room { MayCome (turns_of turns (turn_of (plan_at site.now) counter turns (settled
        (plan_at site.now) (list_tree site.now body)))) lines.old.items }
    ensures emits { IfOk result (Emits (turns_of turns (turn_of (plan_at site.now) counter turns
        (settled (plan_at site.now) (list_tree site.now body)))) lines.old.items lines.new.items) }
    ensures none { OnOk result (owed.new.items ≡ []) }
{
    if turns == 0 {
        return Ok(0);
    }
    let steps = emit_turn(site, lines, owed, counter, turns, body)?;
    Ok(turns * steps)
}

/// The lines of a loop.
#[cycle(emits)]
fn emit_loop(
    site: &Emission,
    lines: &mut Vec<Line>,
    owed: &mut Vec<Debt>,
    counter: u32,
    turns: u64,
    body: u32,
) -> Result<u64, NoMemory>
    requires counter { IsSome (home_of site.now.homes (Register counter)) }
    requires within { body < length site.now.lists }
    requires homes { HaveHomes site.now.homes (list_tree site.now body) }
    requires turns { turns < 2 ^ 63 }
    requires counters { KeepsCounters (list_tree site.now body) }
    requires room { MayCome (λ at. loop_of (plan_at site.now) at owed.old.items counter turns
        (settled (plan_at site.now) (list_tree site.now body))) lines.old.items }
    ensures emits { IfOk result (Emits (λ at. loop_of (plan_at site.now) at
        owed.old.items counter turns (settled
        (plan_at site.now) (list_tree site.now body))) lines.old.items lines.new.items) }
    ensures none { OnOk result (owed.new.items ≡ []) }
{
    let steps = emit_start(site, lines, owed, counter, turns)?;
    let more = emit_turns(site, lines, owed, counter, turns, body)?;
    Ok(steps + more)
}

/// Sets the target of a jump that stands in its place already.
fn set_jump(lines: &mut Vec<Line>, number: usize, target: u32)
    requires { number < length lines.old.items }
    ensures { (before : List Line) (line : Line) (rest : List Line) → lines.old.items ≡ before
        ++ line ∷ rest → length before ≡ number
        → lines.new.items ≡ before ++ Line.Jal 0 target ∷ rest }
{
    lines[number] = Line::Jal { to: ZERO, target };
}

/// The lines of the lists of a choice: a branch over the jump to the second one, and a jump behind
/// the first one. Where they lead is known only behind the lists.
#[cycle(emits)]
fn emit_lists(
    site: &Emission,
    lines: &mut Vec<Line>,
    owed: &mut Vec<Debt>,
    register: u8,
    yes: u32,
    no: u32,
) -> Result<u64, NoMemory>
    requires yes_within { yes < length site.now.lists }
    requires yes_homes { HaveHomes site.now.homes (list_tree site.now yes) }
    requires no_within { no < length site.now.lists }
    requires no_homes { HaveHomes site.now.homes (list_tree site.now no) }
    requires none { owed.old.items ≡ [] }
    requires yes_counters { KeepsCounters (list_tree site.now yes) }
    requires no_counters { KeepsCounters (list_tree site.now no) }
    requires room { MayCome (λ at. lists_of register at
        (settled (plan_at site.now) (list_tree site.now yes))
        (settled (plan_at site.now) (list_tree site.now no))) lines.old.items }
    ensures emits { IfOk result (Emits (λ at. lists_of register at
        (settled (plan_at site.now) (list_tree site.now yes))
        (settled (plan_at site.now) (list_tree site.now no))) lines.old.items lines.new.items) }
    ensures none { OnOk result (owed.new.items ≡ []) }
{
    let over = line_ahead(lines, 2);
    push_branch(lines, Branch::Blt, register, SECOND, over)?;
    let first_jump = lines.len();
    push_jump(lines, 0)?;
    let one = emit_settled(site, lines, owed, yes)?;
    let second_jump = lines.len();
    push_jump(lines, 0)?;
    let middle = line_ahead(lines, 0);
    let other = emit_settled(site, lines, owed, no)?;
    let end = line_ahead(lines, 0);
    set_jump(lines, first_jump, middle);
    set_jump(lines, second_jump, end);
    Ok(2 + one.max(other))
}

/// The lines of a choice.
#[cycle(emits)]
fn emit_choice(
    site: &Emission,
    lines: &mut Vec<Line>,
    owed: &mut Vec<Debt>,
    left: u32,
    below: i64,
    yes: u32,
    no: u32,
) -> Result<u64, NoMemory>
    requires left { IsSome (home_of site.now.homes (Register left)) }
    requires yes_within { yes < length site.now.lists }
    requires yes_homes { HaveHomes site.now.homes (list_tree site.now yes) }
    requires no_within { no < length site.now.lists }
    requires no_homes { HaveHomes site.now.homes (list_tree site.now no) }
    requires yes_counters { KeepsCounters (list_tree site.now yes) }
    requires no_counters { KeepsCounters (list_tree site.now no) }
    requires room { MayCome (λ at. choice_of (plan_at site.now) at owed.old.items left below
        (settled (plan_at site.now) (list_tree site.now yes))
        (settled (plan_at site.now) (list_tree site.now no))) lines.old.items }
    ensures emits { IfOk result (Emits (λ at. choice_of (plan_at site.now) at
        owed.old.items left below
        (settled (plan_at site.now) (list_tree site.now yes))
        (settled (plan_at site.now) (list_tree site.now no))) lines.old.items lines.new.items) }
    ensures none { OnOk result (owed.new.items ≡ []) }
{
    let steps = emit_test(site, lines, owed, left, below)?;
    let register = register_of(FIRST, site.register(left));
    let more = emit_lists(site, lines, owed, register, yes, no)?;
    Ok(steps + more)
}
