// Entries, extents and bindings.
ghost use Rattle.std.specs.Prelude.{◌≡◌, ◌∷◌, ◌++◌, codes, map, OnOk};
ghost use Rattle.std.specs.Fmt.{decimal};
ghost use Rattle.std.specs.List.{flat_map, join_with_byte};
ghost use Rattle.form_text.specs.Spelling.{beside_text, bind_text, entries_text, entry_text, extents_text};

use crate::words::{push_count, push_number, push_text, push_variable};
use normal_form::{Bind, Entry};
use shapes_core::NoMemory;

/// A constant beside a variable, with its sign, where it is not 0.
fn push_beside(out: &mut Vec<u8>, add: i64) -> Result<(), NoMemory>
    ensures { OnOk result (out.new.items ≡ out.old.items ++ beside_text add) }
{
    if add == 0 {
        return Ok(());
    }
    if add > 0 {
        push_text(out, b"+")?;
    }
    push_number(out, add)
}

pub(crate) fn push_entry(out: &mut Vec<u8>, entry: Entry) -> Result<(), NoMemory>
    ensures { OnOk result (out.new.items ≡ out.old.items ++ entry_text entry) }
{
    match entry {
        Entry::At(constant) => push_number(out, constant),
        Entry::Plus { var, add } => {
            push_variable(out, var)?;
            push_beside(out, add)
        }
        Entry::Minus { var, add } => {
            push_text(out, b"-")?;
            push_variable(out, var)?;
            push_beside(out, add)
        }
    }
}

/// Entries, with a blank between two.
pub(crate) fn push_entries(out: &mut Vec<u8>, entries: &[Entry]) -> Result<(), NoMemory>
    ensures { OnOk result (out.new.items ≡ out.old.items ++ entries_text entries.now) }
{
    if let Some((first, others)) = entries.split_first() {
        push_entry(out, *first)?;
        push_more_entries(out, others)?;
    }
    Ok(())
}

/// Entries, with a blank before each.
fn push_more_entries(out: &mut Vec<u8>, entries: &[Entry]) -> Result<(), NoMemory>
    ensures { OnOk result (out.new.items ≡ out.old.items ++ flat_map (λ entry. 32 ∷ entry_text entry) entries.now) }
{
    for entry in entries {
        push_text(out, b" ")?;
        push_entry(out, *entry)?;
    }
    Ok(())
}

/// Extents between `<` and `>`, with a blank between two.
pub(crate) fn push_extents(out: &mut Vec<u8>, extents: &[u64]) -> Result<(), NoMemory>
    ensures { OnOk result (out.new.items ≡ out.old.items ++ extents_text extents.now) }
{
    push_text(out, b"<")?;
    push_counts(out, extents)?;
    push_text(out, b">")
}

/// Extents, with a blank between two.
fn push_counts(out: &mut Vec<u8>, extents: &[u64]) -> Result<(), NoMemory>
    ensures { OnOk result (out.new.items ≡ out.old.items ++ join_with_byte 32 (map decimal extents.now)) }
{
    if let Some((first, others)) = extents.split_first() {
        push_count(out, *first)?;
        push_more_counts(out, others)?;
    }
    Ok(())
}

/// Extents, with a blank before each.
fn push_more_counts(out: &mut Vec<u8>, extents: &[u64]) -> Result<(), NoMemory>
    ensures { OnOk result (out.new.items ≡ out.old.items ++ flat_map (λ extent. 32 ∷ decimal extent) extents.now) }
{
    for extent in extents {
        push_text(out, b" ")?;
        push_count(out, *extent)?;
    }
    Ok(())
}

pub(crate) fn push_binding(out: &mut Vec<u8>, bind: &Bind) -> Result<(), NoMemory>
    ensures { OnOk result (out.new.items ≡ out.old.items ++ bind_text bind.now) }
{
    match bind {
        Bind::Turn { of, by, extent } => push_two(out, b"turn(", *of, *by, *extent),
        Bind::Flat { of, shape } => {
            push_text(out, b"flat(<")?;
            push_entries(out, of.list())?;
            push_text(out, b">, ")?;
            push_extents(out, shape.extents())?;
            push_text(out, b")")
        }
        Bind::Digit { of, weight, extent } => push_two(out, b"digit(", *of, *weight, *extent),
    }
}

/// An entry and two numbers behind a word.
fn push_two(
    out: &mut Vec<u8>,
    word: &[u8],
    of: Entry,
    first: u64,
    second: u64,
) -> Result<(), NoMemory>
    ensures { OnOk result (out.new.items ≡ out.old.items
        ++ (word.now ++ (entry_text of ++ (codes ", " ++ (decimal first ++ (codes ", " ++ (decimal second ++ codes ")"))))))) }
{
    push_text(out, word)?;
    push_entry(out, of)?;
    push_text(out, b", ")?;
    push_count(out, first)?;
    push_text(out, b", ")?;
    push_count(out, second)?;
    push_text(out, b")")
}
