// The lines of a step, by the homes of what it names.
ghost use Rattle.std.specs.Prelude.{◌≡◌, ◌<◌, ◌+◌, ◌^◌, ◌++◌, ◌∷◌, [], ◌+ℤ◌, IfOk, OnOk, length, pos};
ghost use Rattle.rv_emit.specs.Computing.{one_lines, two_lines};
ghost use Rattle.rv_emit.specs.Emitting.{near_lines, near_owed, offset, with_one, with_two};
ghost use Rattle.rv_emit.specs.Moving.{fetch_lines, put_lines, register_of};
ghost use Rattle.rv_emit.specs.Walks.{bytes};
ghost use Rattle.rv_line.specs.declared.line.Imm.{Imm};
ghost use Rattle.rv_line.specs.declared.line.Line.{Line};
ghost use Rattle.rv_line.specs.declared.line.Load.{Load};
ghost use Rattle.rv_line.specs.declared.line.Store.{Store};
ghost use Rattle.rv_line.specs.declared.line.Three.{Three};
ghost use Rattle.rv_steps.specs.Constants.{constant_lines};

use crate::computing::{push_one, push_two};
use crate::constants::is_short;
use crate::moving::{
    BLOCK, FIRST, RESULT, SECOND, bytes, push_constant, push_fetch, push_imm, push_load, push_put,
    push_repay, push_store, push_three, register_of,
};
use crate::owed::{Debt, forget, owed_at, sum};
use moa_tree::{Op, Unary};
use register_map::Home;
use rv_line::{Imm, Line, Three};
use shapes_core::NoMemory;

/// Sets a home to a number.
pub(crate) fn push_set(lines: &mut Vec<Line>, home: Home, value: i64) -> Result<(), NoMemory>
    requires above { 0 < register_of 30 home }
    requires below { register_of 30 home < 32 }
    ensures { OnOk result (lines.new.items ≡ lines.old.items
        ++ (constant_lines (register_of 30 home) value ++ put_lines home)) }
{
    push_constant(lines, register_of(RESULT, home), value)?;
    push_put(lines, home)
}

/// Copies a home to another one.
pub(crate) fn push_copied(lines: &mut Vec<Line>, to: Home, from: Home) -> Result<(), NoMemory>
    ensures { OnOk result (lines.new.items ≡ lines.old.items
        ++ with_one to from (λ to from. Line.Imm Imm.Addi to from (pos 0) ∷ [])) }
{
    push_fetch(lines, FIRST, from)?;
    push_imm(
        lines,
        Imm::Addi,
        register_of(RESULT, to),
        register_of(FIRST, from),
        0,
    )?;
    push_put(lines, to)
}

/// Sets a home to an operator of another one.
pub(crate) fn push_unary(
    lines: &mut Vec<Line>,
    op: Unary,
    to: Home,
    from: Home,
) -> Result<(), NoMemory>
    ensures { OnOk result (lines.new.items ≡ lines.old.items ++ with_one to from (one_lines op)) }
{
    push_fetch(lines, FIRST, from)?;
    push_one(lines, op, register_of(RESULT, to), register_of(FIRST, from))?;
    push_put(lines, to)
}

/// Fetches two homes.
fn push_fetches(lines: &mut Vec<Line>, left: Home, right: Home) -> Result<(), NoMemory>
    ensures { OnOk result (lines.new.items ≡ lines.old.items ++ (fetch_lines 28 left
        ++ fetch_lines 29 right)) }
{
    push_fetch(lines, FIRST, left)?;
    push_fetch(lines, SECOND, right)
}

/// Sets a home to an operator of two others.
pub(crate) fn push_binary(
    lines: &mut Vec<Line>,
    op: Op,
    to: Home,
    left: Home,
    right: Home,
) -> Result<(), NoMemory>
    requires { length lines.old.items + length (with_two (length lines.old.items) to left right
        (λ at. two_lines at op)) < 2 ^ 32 }
    ensures { OnOk result (lines.new.items ≡ lines.old.items
        ++ with_two (length lines.old.items) to left right (λ at. two_lines at op)) }
{
    push_fetches(lines, left, right)?;
    push_two(
        lines,
        op,
        register_of(RESULT, to),
        register_of(FIRST, left),
        register_of(SECOND, right),
    )?;
    push_put(lines, to)
}

/// The bytes from the block's address to a word of the areas, behind so many spill words.
pub(crate) fn start_of(spill: u32, word: i64) -> i64
    ensures { result ≡ bytes (pos spill +ℤ word) }
{
    bytes(sum(i64::from(spill), word))
}

/// Sets a home to an address, so many bytes behind that of the block.
pub(crate) fn push_address(lines: &mut Vec<Line>, home: Home, start: i64) -> Result<(), NoMemory>
    ensures { OnOk result (lines.new.items ≡ lines.old.items ++ (constant_lines 30 start
        ++ (Line.Three Three.Add (register_of 30 home) 30 10 ∷ put_lines home))) }
{
    push_constant(lines, RESULT, start)?;
    push_three(lines, Three::Add, register_of(RESULT, home), RESULT, BLOCK)?;
    push_put(lines, home)
}

/// Sets x30 to so many bytes and eight times a home.
fn push_scaled(lines: &mut Vec<Line>, from: Home, start: i64) -> Result<(), NoMemory>
    ensures { OnOk result (lines.new.items ≡ lines.old.items ++ (fetch_lines 28 from
        ++ (constant_lines 30 start
        ++ (Line.Imm Imm.Slli 29 (register_of 28 from) (pos 3)
        ∷ Line.Three Three.Add 30 30 29 ∷ [])))) }
{
    push_fetch(lines, FIRST, from)?;
    push_constant(lines, RESULT, start)?;
    push_imm(lines, Imm::Slli, SECOND, register_of(FIRST, from), 3)?;
    push_three(lines, Three::Add, RESULT, RESULT, SECOND)
}

/// Sets a home to an address, so many bytes and eight times another home behind that of the block.
pub(crate) fn push_spot(
    lines: &mut Vec<Line>,
    home: Home,
    from: Home,
    start: i64,
) -> Result<(), NoMemory>
    ensures { OnOk result (lines.new.items ≡ lines.old.items ++ (fetch_lines 28 from
        ++ (constant_lines 30 start
        ++ (Line.Imm Imm.Slli 29 (register_of 28 from) (pos 3) ∷ Line.Three Three.Add 30 30 29
        ∷ Line.Three Three.Add (register_of 30 home) 30 10 ∷ put_lines home)))) }
{
    push_scaled(lines, from, start)?;
    push_three(lines, Three::Add, register_of(RESULT, home), RESULT, BLOCK)?;
    push_put(lines, home)
}

/// Repays what a place owes where that is no offset, and answers the offset of its word then.
pub(crate) fn push_near(
    lines: &mut Vec<Line>,
    owed: &mut Vec<Debt>,
    home: Home,
) -> Result<i32, NoMemory>
    ensures lines { OnOk result (lines.new.items ≡ lines.old.items
        ++ near_lines owed.old.items home) }
    ensures owed { OnOk result (owed.new.items ≡ near_owed owed.old.items home) }
    ensures offset { IfOk result (λ imm. imm ≡ offset owed.old.items home) }
{
    let words = owed_at(owed, home);
    let count = bytes(words);
    if is_short(count) {
        return Ok(count as i32);
    }
    push_repay(lines, home, words)?;
    forget(owed, home);
    Ok(0)
}

/// Reads the word at an offset from a place.
pub(crate) fn push_read(
    lines: &mut Vec<Line>,
    home: Home,
    from: Home,
    imm: i32,
) -> Result<(), NoMemory>
    ensures { OnOk result (lines.new.items ≡ lines.old.items ++ (fetch_lines 30 from
        ++ (Line.Load Load.Ld (register_of 30 home) imm (register_of 30 from) ∷ put_lines home))) }
{
    push_fetch(lines, RESULT, from)?;
    push_load(
        lines,
        register_of(RESULT, home),
        imm,
        register_of(RESULT, from),
    )?;
    push_put(lines, home)
}

/// Writes the word at an offset from a place.
pub(crate) fn push_write(
    lines: &mut Vec<Line>,
    to: Home,
    home: Home,
    imm: i32,
) -> Result<(), NoMemory>
    ensures { OnOk result (lines.new.items ≡ lines.old.items ++ (fetch_lines 28 home
        ++ (fetch_lines 30 to
        ++ Line.Store Store.Sd (register_of 28 home) imm (register_of 30 to) ∷ []))) }
{
    push_fetch(lines, FIRST, home)?;
    push_fetch(lines, RESULT, to)?;
    push_store(
        lines,
        register_of(FIRST, home),
        imm,
        register_of(RESULT, to),
    )
}
