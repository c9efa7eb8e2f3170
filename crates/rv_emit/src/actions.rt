// The lines of the steps that do no list, and what is owed behind them.
ghost use Rattle.std.specs.Prelude.{◌≡◌, ◌<◌, ◌+◌, ◌^◌, IsSome, OnOk, length};
ghost use Rattle.loop_ir.specs.Running.{Pointer, Register};
ghost use Rattle.loop_ir.specs.Steps.{Copy, One, Place, Read, Set, Spot, Two, Walk, Write};
ghost use Rattle.register_map.specs.Homes.{home_of};
ghost use Rattle.rv_emit.specs.Emitting.{action_lines, owed_by};
ghost use Rattle.rv_emit.specs.Programs.{Pushes, plan_at};

use crate::handling::{
    push_address, push_binary, push_copied, push_near, push_read, push_set, push_spot, push_unary,
    push_write, start_of,
};
use crate::owed::{Debt, forget, walk};
use crate::site::Emission;
use moa_tree::{Op, Unary};
use rv_line::Line;
use shapes_core::NoMemory;

/// A register is set to a number.
pub(crate) fn set(
    site: &Emission,
    lines: &mut Vec<Line>,
    owed: &mut Vec<Debt>,
    to: u32,
    value: i64,
) -> Result<(), NoMemory>
    requires { IsSome (home_of site.now.homes (Register to)) }
    ensures lines { OnOk result (Pushes (plan_at site.now) (Set to value)
        owed.old.items lines.old.items lines.new.items) }
    ensures owed { OnOk result (owed.new.items
        ≡ owed_by (plan_at site.now) owed.old.items (Set to value)) }
{
    let home = site.register(to);
    forget(owed, home);
    push_set(lines, home, value)
}

/// A register is set to another one.
pub(crate) fn copy(
    site: &Emission,
    lines: &mut Vec<Line>,
    owed: &mut Vec<Debt>,
    to: u32,
    from: u32,
) -> Result<(), NoMemory>
    requires to { IsSome (home_of site.now.homes (Register to)) }
    requires from { IsSome (home_of site.now.homes (Register from)) }
    ensures lines { OnOk result (Pushes (plan_at site.now) (Copy to from)
        owed.old.items lines.old.items lines.new.items) }
    ensures owed { OnOk result (owed.new.items
        ≡ owed_by (plan_at site.now) owed.old.items (Copy to from)) }
{
    let home = site.register(to);
    forget(owed, home);
    push_copied(lines, home, site.register(from))
}

/// A register is set to an operator on another one.
pub(crate) fn one(
    site: &Emission,
    lines: &mut Vec<Line>,
    owed: &mut Vec<Debt>,
    op: Unary,
    to: u32,
    from: u32,
) -> Result<(), NoMemory>
    requires to { IsSome (home_of site.now.homes (Register to)) }
    requires from { IsSome (home_of site.now.homes (Register from)) }
    ensures lines { OnOk result (Pushes (plan_at site.now) (One op to from)
        owed.old.items lines.old.items lines.new.items) }
    ensures owed { OnOk result (owed.new.items
        ≡ owed_by (plan_at site.now) owed.old.items (One op to from)) }
{
    let home = site.register(to);
    forget(owed, home);
    push_unary(lines, op, home, site.register(from))
}

/// A register is set to an operator on two others.
pub(crate) fn two(
    site: &Emission,
    lines: &mut Vec<Line>,
    owed: &mut Vec<Debt>,
    op: Op,
    to: u32,
    left: u32,
    right: u32,
) -> Result<(), NoMemory>
    requires to { IsSome (home_of site.now.homes (Register to)) }
    requires left { IsSome (home_of site.now.homes (Register left)) }
    requires right { IsSome (home_of site.now.homes (Register right)) }
    requires room { length lines.old.items + length (action_lines (plan_at site.now)
        (length lines.old.items) owed.old.items (Two op to left right)) < 2 ^ 32 }
    ensures lines { OnOk result (Pushes (plan_at site.now) (Two op to left right)
        owed.old.items lines.old.items lines.new.items) }
    ensures owed { OnOk result (owed.new.items
        ≡ owed_by (plan_at site.now) owed.old.items (Two op to left right)) }
{
    let home = site.register(to);
    forget(owed, home);
    push_binary(lines, op, home, site.register(left), site.register(right))
}

/// A place is set to a word.
pub(crate) fn place(
    site: &Emission,
    lines: &mut Vec<Line>,
    owed: &mut Vec<Debt>,
    to: u32,
    word: i64,
) -> Result<(), NoMemory>
    requires { IsSome (home_of site.now.homes (Pointer to)) }
    ensures lines { OnOk result (Pushes (plan_at site.now) (Place to word)
        owed.old.items lines.old.items lines.new.items) }
    ensures owed { OnOk result (owed.new.items
        ≡ owed_by (plan_at site.now) owed.old.items (Place to word)) }
{
    let home = site.place(to);
    forget(owed, home);
    push_address(lines, home, start_of(site.spill(), word))
}

/// A place is set to a word plus a register.
pub(crate) fn spot(
    site: &Emission,
    lines: &mut Vec<Line>,
    owed: &mut Vec<Debt>,
    to: u32,
    word: i64,
    by: u32,
) -> Result<(), NoMemory>
    requires to { IsSome (home_of site.now.homes (Pointer to)) }
    requires by { IsSome (home_of site.now.homes (Register by)) }
    ensures lines { OnOk result (Pushes (plan_at site.now) (Spot to word by)
        owed.old.items lines.old.items lines.new.items) }
    ensures owed { OnOk result (owed.new.items
        ≡ owed_by (plan_at site.now) owed.old.items (Spot to word by)) }
{
    let home = site.place(to);
    forget(owed, home);
    push_spot(lines, home, site.register(by), start_of(site.spill(), word))
}

/// A place walks on by some words: no line does it yet.
pub(crate) fn go(
    site: &Emission,
    owed: &mut Vec<Debt>,
    place: u32,
    words: i64,
) -> Result<(), NoMemory>
    requires { IsSome (home_of site.now.homes (Pointer place)) }
    ensures { OnOk result (owed.new.items
        ≡ owed_by (plan_at site.now) owed.old.items (Walk place words)) }
{
    walk(owed, site.place(place), words)
}

/// A register is read from the word at a place.
pub(crate) fn read(
    site: &Emission,
    lines: &mut Vec<Line>,
    owed: &mut Vec<Debt>,
    to: u32,
    area: u32,
    place: u32,
) -> Result<(), NoMemory>
    requires to { IsSome (home_of site.now.homes (Register to)) }
    requires place { IsSome (home_of site.now.homes (Pointer place)) }
    ensures lines { OnOk result (Pushes (plan_at site.now) (Read to area place)
        owed.old.items lines.old.items lines.new.items) }
    ensures owed { OnOk result (owed.new.items
        ≡ owed_by (plan_at site.now) owed.old.items (Read to area place)) }
{
    let home = site.register(to);
    let from = site.place(place);
    let imm = push_near(lines, owed, from)?;
    forget(owed, home);
    push_read(lines, home, from, imm)
}

/// A register is written to the word at a place.
pub(crate) fn write(
    site: &Emission,
    lines: &mut Vec<Line>,
    owed: &mut Vec<Debt>,
    area: u32,
    place: u32,
    from: u32,
) -> Result<(), NoMemory>
    requires place { IsSome (home_of site.now.homes (Pointer place)) }
    requires from { IsSome (home_of site.now.homes (Register from)) }
    ensures lines { OnOk result (Pushes (plan_at site.now) (Write area place from)
        owed.old.items lines.old.items lines.new.items) }
    ensures owed { OnOk result (owed.new.items
        ≡ owed_by (plan_at site.now) owed.old.items (Write area place from)) }
{
    let to = site.place(place);
    let imm = push_near(lines, owed, to)?;
    push_write(lines, to, site.register(from), imm)
}
