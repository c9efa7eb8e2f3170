// Steps that do no list.
ghost use Rattle.std.specs.Prelude.{◌≡◌, [], ◌∷◌, ◌++◌, codes, OnOk};
ghost use Rattle.std.specs.Fmt.{signed_decimal};
ghost use Rattle.moa_tree.specs.Vocabulary.{op_word};
ghost use Rattle.loop_ir.specs.Pool.{steps_of};
ghost use Rattle.loop_ir.specs.Steps.{End, Read, Set, Spot, Write};
ghost use Rattle.form_text.specs.NestPieces.{first_text};
ghost use Rattle.form_text.specs.NestSpelling.{action_text, place_text, worded};
ghost use Rattle.form_text.specs.Spelling.{area_text};

use crate::areas::push_area;
use crate::words::{op_word, push_count, push_number, push_text, unary_word};
use loop_ir::Step;
use moa_tree::Op;
use shapes_core::{Area, NoMemory};

/// A step that does no list, over these areas.
pub(crate) fn push_action(out: &mut Vec<u8>, areas: &[Area], step: Step) -> Result<(), NoMemory>
    ensures { OnOk result (out.new.items ≡ out.old.items ++ first_text areas.now (steps_of (λ inner. End) (step ∷ []))) }
{
    match step {
        Step::Set { to, value } => push_set(out, to, value),
        Step::Copy { to, from } => push_one(out, b"copy", to, from),
        Step::One { op, to, from } => push_one(out, unary_word(op), to, from),
        Step::Two {
            op,
            to,
            left,
            right,
        } => push_two(out, op, to, left, right),
        Step::Place { to, word } => push_words(out, b"place ", to, word),
        Step::Spot { to, word, by } => push_spot(out, to, word, by),
        Step::Walk { place, words } => push_words(out, b"walk ", place, words),
        Step::Read { to, area, place } => push_read(out, areas, to, area, place),
        Step::Write { area, place, from } => push_write(out, areas, area, place, from),
        Step::For { .. } | Step::If { .. } => Ok(()),
    }
}

/// A word and a register.
pub(crate) fn push_worded(out: &mut Vec<u8>, word: &[u8], register: u32) -> Result<(), NoMemory>
    ensures { OnOk result (out.new.items ≡ out.old.items ++ worded word.now register) }
{
    push_text(out, word)?;
    push_text(out, b" r")?;
    push_count(out, u64::from(register))
}

fn push_set(out: &mut Vec<u8>, to: u32, value: i64) -> Result<(), NoMemory>
    ensures { OnOk result (out.new.items ≡ out.old.items ++ action_text [] (Set to value)) }
{
    push_worded(out, b"set", to)?;
    push_text(out, b" ")?;
    push_number(out, value)
}

/// A word, what is set, and a register.
fn push_one(out: &mut Vec<u8>, word: &[u8], to: u32, from: u32) -> Result<(), NoMemory>
    ensures { OnOk result (out.new.items ≡ out.old.items ++ worded (worded word.now to) from) }
{
    push_worded(out, word, to)?;
    push_worded(out, b"", from)
}

fn push_two(out: &mut Vec<u8>, op: Op, to: u32, left: u32, right: u32) -> Result<(), NoMemory>
    ensures { OnOk result (out.new.items ≡ out.old.items ++ worded (worded (worded (op_word op) to) left) right) }
{
    push_one(out, op_word(op), to, left)?;
    push_worded(out, b"", right)
}

/// A place and a number behind a word.
fn push_words(out: &mut Vec<u8>, word: &[u8], place: u32, number: i64) -> Result<(), NoMemory>
    ensures { OnOk result (out.new.items ≡ out.old.items
        ++ (word.now ++ (place_text place ++ (codes " " ++ signed_decimal number)))) }
{
    push_text(out, word)?;
    push_place(out, place)?;
    push_text(out, b" ")?;
    push_number(out, number)
}

fn push_place(out: &mut Vec<u8>, place: u32) -> Result<(), NoMemory>
    ensures { OnOk result (out.new.items ≡ out.old.items ++ place_text place) }
{
    push_text(out, b"p")?;
    push_count(out, u64::from(place))
}

fn push_spot(out: &mut Vec<u8>, to: u32, word: i64, by: u32) -> Result<(), NoMemory>
    ensures { OnOk result (out.new.items ≡ out.old.items ++ action_text [] (Spot to word by)) }
{
    push_words(out, b"spot ", to, word)?;
    push_worded(out, b"", by)
}

/// An area and a place.
fn push_at(out: &mut Vec<u8>, areas: &[Area], area: u32, place: u32) -> Result<(), NoMemory>
    ensures { OnOk result (out.new.items ≡ out.old.items ++ (area_text areas.now area ++ (codes " " ++ place_text place))) }
{
    push_area(out, areas, area)?;
    push_text(out, b" ")?;
    push_place(out, place)
}

fn push_read(
    out: &mut Vec<u8>,
    areas: &[Area],
    to: u32,
    area: u32,
    place: u32,
) -> Result<(), NoMemory>
    ensures { OnOk result (out.new.items ≡ out.old.items ++ action_text areas.now (Read to area place)) }
{
    push_worded(out, b"read", to)?;
    push_text(out, b" ")?;
    push_at(out, areas, area, place)
}

fn push_write(
    out: &mut Vec<u8>,
    areas: &[Area],
    area: u32,
    place: u32,
    from: u32,
) -> Result<(), NoMemory>
    ensures { OnOk result (out.new.items ≡ out.old.items ++ action_text areas.now (Write area place from)) }
{
    push_text(out, b"write ")?;
    push_at(out, areas, area, place)?;
    push_worded(out, b"", from)
}
