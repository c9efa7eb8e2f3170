// Pieces that hold no list: lines, and the steps that a run through them makes.
ghost use Rattle.std.specs.Prelude.{◌≡◌, ◌+◌, ◌^◌, ◌<◌, ◌++◌, ◌∷◌, [], if◌then◌else◌};
ghost use Rattle.std.specs.Prelude.{IfOk, IsSome, List, OnOk, length, negsuc, pos};
ghost use Rattle.loop_ir.specs.Running.{Register};
ghost use Rattle.register_map.specs.Homes.{home_of};
ghost use Rattle.rv_emit.specs.Emitting.{back, closing_of, count_lines};
ghost use Rattle.rv_emit.specs.Emitting.{start_lines, straight, test_lines};
ghost use Rattle.rv_emit.specs.Moving.{fetch_lines, put_lines, register_of, settle_lines};
ghost use Rattle.rv_emit.specs.Programs.{Emits, MayCome, plan_at};
ghost use Rattle.rv_line.specs.declared.line.Branch.{Branch};
ghost use Rattle.rv_line.specs.declared.line.Imm.{Imm};
ghost use Rattle.rv_line.specs.declared.line.Line.{Line};
ghost use Rattle.rv_steps.specs.Constants.{constant_lines};

use crate::computing::{ZERO, line_ahead, push_branch};
use crate::handling::push_set;
use crate::moving::{
    FAR, FIRST, RESULT, SECOND, push_constant, push_fetch, push_imm, push_put, push_settle,
    register_of,
};
use crate::owed::Debt;
use crate::site::Emission;
use register_map::Home;
use rv_line::{Branch, Imm, Line};
use shapes_core::NoMemory;

/// The most lines that a branch goes back.
const REACH: u32 = 1024;

/// The steps of the lines behind the first ones, so many: one for each.
pub(crate) fn steps_behind(lines: &[Line], before: usize) -> u64
    ensures { (old list : List Line) → lines.now ≡ old ++ list → before ≡ length old
        → result ≡ length list }
{
    lines.len().saturating_sub(before) as u64
}

/// A jump to a line.
pub(crate) fn push_jump(lines: &mut Vec<Line>, target: u32) -> Result<(), NoMemory>
    ensures { OnOk result (lines.new.items ≡ lines.old.items ++ Line.Jal 0 target ∷ []) }
{
    lines.push(Line::Jal { to: ZERO, target })?;
    Ok(())
}

/// Brings all that is owed to its homes.
pub(crate) fn settle(lines: &mut Vec<Line>, owed: &mut Vec<Debt>) -> Result<u64, NoMemory>
    ensures emits { IfOk result (Emits (λ at. straight (settle_lines
        owed.old.items)) lines.old.items lines.new.items) }
    ensures none { OnOk result (owed.new.items ≡ []) }
{
    let before = lines.len();
    push_settle(lines, owed)?;
    owed.clear();
    Ok(steps_behind(lines, before))
}

/// The number as a signed one.
fn signed(turns: u64) -> i64
    requires { turns < 2 ^ 63 }
    ensures { result ≡ pos turns }
{
    turns as i64
}

/// The number from which a counter counts.
fn first_count(down: bool, turns: i64) -> i64
    ensures { result ≡ if down then turns else pos 0 }
{
    if down { turns } else { 0 }
}

/// Settles, and sets the counter of a loop.
pub(crate) fn emit_start(
    site: &Emission,
    lines: &mut Vec<Line>,
    owed: &mut Vec<Debt>,
    counter: u32,
    turns: u64,
) -> Result<u64, NoMemory>
    requires home { IsSome (home_of site.now.homes (Register counter)) }
    requires turns { turns < 2 ^ 63 }
    ensures emits { IfOk result (Emits (λ at. straight (start_lines (plan_at site.now)
        owed.old.items counter turns)) lines.old.items lines.new.items) }
    ensures none { OnOk result (owed.new.items ≡ []) }
{
    let before = lines.len();
    push_settle(lines, owed)?;
    owed.clear();
    let first = first_count(site.counts_down(counter), signed(turns));
    push_set(lines, site.register(counter), first)?;
    Ok(steps_behind(lines, before))
}

/// What a counter adds in a turn.
fn count_by(down: bool) -> i32
    ensures { result ≡ if down then negsuc 0 else pos 1 }
{
    if down { -1 } else { 1 }
}

/// The turns with which a counter that counts up is compared.
fn push_turns(lines: &mut Vec<Line>, down: bool, turns: i64) -> Result<(), NoMemory>
    ensures { OnOk result (lines.new.items ≡ lines.old.items
        ++ (if down then [] else constant_lines 31 turns)) }
{
    if down {
        return Ok(());
    }
    push_constant(lines, FAR, turns)
}

/// A counter goes on.
fn push_count(lines: &mut Vec<Line>, home: Home, down: bool, turns: i64) -> Result<(), NoMemory>
    ensures { OnOk result (lines.new.items ≡ lines.old.items ++ (fetch_lines 30 home
        ++ (Line.Imm Imm.Addi (register_of 30 home) (register_of 30 home)
        (if down then negsuc 0 else pos 1)
        ∷ (put_lines home ++ (if down then [] else constant_lines 31 turns))))) }
{
    let register = register_of(RESULT, home);
    push_fetch(lines, RESULT, home)?;
    push_imm(lines, Imm::Addi, register, register, count_by(down))?;
    push_put(lines, home)?;
    push_turns(lines, down, turns)
}

/// The counter of a loop goes on.
fn emit_count(
    site: &Emission,
    lines: &mut Vec<Line>,
    counter: u32,
    turns: u64,
) -> Result<u64, NoMemory>
    requires home { IsSome (home_of site.now.homes (Register counter)) }
    requires turns { turns < 2 ^ 63 }
    ensures { IfOk result (Emits (λ at. straight (count_lines
        (plan_at site.now) counter turns)) lines.old.items lines.new.items) }
{
    let before = lines.len();
    push_count(
        lines,
        site.register(counter),
        site.counts_down(counter),
        signed(turns),
    )?;
    Ok(steps_behind(lines, before))
}

/// The register with which a counter is compared.
fn last_count(down: bool) -> u8
    ensures { result ≡ if down then 0 else 31 }
{
    if down { ZERO } else { FAR }
}

/// Back to a line where two registers differ: by a branch that reaches it, and else by a branch
/// over a jump and a jump.
fn push_back(lines: &mut Vec<Line>, top: u32, left: u8, right: u8) -> Result<u64, NoMemory>
    requires { MayCome (back top left right) lines.old.items }
    ensures { IfOk result (Emits (back top left right) lines.old.items lines.new.items) }
{
    let at = line_ahead(lines, 0);
    if at.saturating_sub(top) <= REACH {
        push_branch(lines, Branch::Bne, left, right, top)?;
        return Ok(1);
    }
    push_far(lines, top, left, right)?;
    Ok(2)
}

/// Back to a line that no branch reaches.
fn push_far(lines: &mut Vec<Line>, top: u32, left: u8, right: u8) -> Result<(), NoMemory>
    requires { length lines.old.items + 3 < 2 ^ 32 }
    ensures { OnOk result (lines.new.items ≡ lines.old.items
        ++ Line.Branch Branch.Bne left right (length lines.old.items + 2)
        ∷ Line.Jal 0 (length lines.old.items + 3) ∷ Line.Jal 0 top ∷ []) }
{
    let over = line_ahead(lines, 2);
    let end = line_ahead(lines, 3);
    push_branch(lines, Branch::Bne, left, right, over)?;
    push_jump(lines, end)?;
    push_jump(lines, top)
}

/// The end of a turn: the counter goes on, and back to the first line of the turn.
pub(crate) fn emit_closing(
    site: &Emission,
    lines: &mut Vec<Line>,
    counter: u32,
    turns: u64,
    top: u32,
) -> Result<u64, NoMemory>
    requires home { IsSome (home_of site.now.homes (Register counter)) }
    requires turns { turns < 2 ^ 63 }
    requires room { MayCome (closing_of (plan_at site.now) counter turns top) lines.old.items }
    ensures { IfOk result (Emits (closing_of (plan_at site.now) counter turns top)
        lines.old.items lines.new.items) }
{
    let steps = emit_count(site, lines, counter, turns)?;
    let register = register_of(RESULT, site.register(counter));
    let more = push_back(lines, top, register, last_count(site.counts_down(counter)))?;
    Ok(steps + more)
}

/// Settles, and makes ready the test of a choice.
pub(crate) fn emit_test(
    site: &Emission,
    lines: &mut Vec<Line>,
    owed: &mut Vec<Debt>,
    left: u32,
    below: i64,
) -> Result<u64, NoMemory>
    requires { IsSome (home_of site.now.homes (Register left)) }
    ensures emits { IfOk result (Emits (λ at. straight (test_lines (plan_at site.now)
        owed.old.items left below)) lines.old.items lines.new.items) }
    ensures none { OnOk result (owed.new.items ≡ []) }
{
    let before = lines.len();
    push_settle(lines, owed)?;
    owed.clear();
    push_fetch(lines, FIRST, site.register(left))?;
    push_constant(lines, SECOND, below)?;
    Ok(steps_behind(lines, before))
}
