// The printed form of an array.
ghost use Rattle.std.specs.Prelude.{◌≡◌, ◌+◌, ◌-◌, ◌*◌, ◌≤◌, ◌++◌, [], ◌∷◌, length, map};
ghost use Rattle.std.specs.Prelude.{FitsSigned, IfOk, OnOk};
ghost use Rattle.std.specs.Int.{w64};
ghost use Rattle.std.specs.Fmt.{decimal, signed_decimal};
ghost use Rattle.std.specs.List.{All, flat_map, join_with_byte};
ghost use Rattle.shapes_core.specs.Shape.{total};
ghost use Rattle.array_text.specs.Outcome.{Outcome, outcome_of};
ghost use Rattle.array_text.specs.Printed.{head_line, printed};
ghost use Rattle.array_text.specs.Printed.{row_count, row_length, row_line, row_lines};

use crate::laws::printed_arrays_read_back;
use itoa::Buffer;
use shapes_core::{Declared, NoMemory, Shape, total};
use std::alloc::Global;

/// The printed form of an array with these values, which are in row-major order: the line `array
/// NAME EXTENTS`, and then a line for each row of the last axis, a blank between two values. A
/// scalar has one line with its value, and an array without values no further line.
pub fn print_array(alloc: Global, declared: &Declared, values: &[i64]) -> Result<Vec<u8>, NoMemory>
    requires { length values.now ≡ total declared.now.shape }
    ensures printed { IfOk result (λ text. text.items ≡ printed declared.now values.now) }
    ensures again { IfOk result (λ text. outcome_of (declared.now ∷ []) text.items
        ≡ Outcome.Accepted (values.now ∷ [])) }
{
    printed_arrays_read_back();
    are_words(values);
    let _extents = declared.shape.extents();
    let _name = declared.name.bytes();
    let mut out = Vec::new(alloc);
    push_head(&mut out, declared)?;
    push_rows(&mut out, &declared.shape, values)?;
    Ok(out)
}

/// A value has 64 bits.
fn is_word(value: i64)
    ensures { FitsSigned w64 value }
{
    let _value = value;
}

/// Values have 64 bits. The proof learns so by looking at each; what runs does nothing.
fn are_words(values: &[i64])
    ensures { All (FitsSigned w64) values.now }
{
    for value in values {
        is_word(*value);
    }
}

fn push_head(out: &mut Vec<u8>, declared: &Declared) -> Result<(), NoMemory>
    ensures { OnOk result (out.new.items ≡ out.old.items ++ head_line declared.now) }
{
    push_text(out, b"array ")?;
    push_text(out, declared.name.bytes())?;
    push_extents(out, declared.shape.extents())?;
    push_text(out, b"\n")
}

fn push_extents(out: &mut Vec<u8>, extents: &[u64]) -> Result<(), NoMemory>
    ensures { OnOk result (out.new.items ≡ out.old.items
        ++ flat_map (λ extent. 32 ∷ decimal extent) extents.now) }
{
    for extent in extents {
        push_text(out, b" ")?;
        push_text(out, Buffer::new().format(*extent).as_bytes())?;
    }
    Ok(())
}

/// How many values a row of the last axis has.
fn row_length(shape: &Shape) -> u64
    ensures { result ≡ row_length shape.now }
{
    shape.extents().last().copied().unwrap_or(1)
}

/// How many rows there are.
fn row_count(shape: &Shape) -> u64
    ensures { result ≡ row_count shape.now }
{
    let length = row_length(shape);
    if length == 0 {
        0
    } else {
        total(shape) / length
    }
}

fn push_rows(out: &mut Vec<u8>, shape: &Shape, values: &[i64]) -> Result<(), NoMemory>
    ensures { OnOk result (out.new.items ≡ out.old.items
        ++ row_lines (row_count shape.now) (row_length shape.now) values.now) }
{
    let length = row_length(shape) as usize;
    let count = row_count(shape);
    let mut rest = values;
    for row in 0..count {
        let cut = length.min(rest.len());
        let (front, others) = rest.split_at(cut);
        push_row(out, front)?;
        rest = others;
    }
    Ok(())
}

fn push_row(out: &mut Vec<u8>, row: &[i64]) -> Result<(), NoMemory>
    ensures { OnOk result (out.new.items ≡ out.old.items ++ row_line row.now) }
{
    push_entries(out, row)?;
    push_text(out, b"\n")
}

/// Numbers, with a blank between two.
fn push_entries(out: &mut Vec<u8>, numbers: &[i64]) -> Result<(), NoMemory>
    ensures { OnOk result (out.new.items ≡ out.old.items
        ++ join_with_byte 32 (map signed_decimal numbers.now)) }
{
    if let Some((first, others)) = numbers.split_first() {
        push_number(out, *first)?;
        push_numbers(out, others)?;
    }
    Ok(())
}

/// Numbers, with a blank before each.
fn push_numbers(out: &mut Vec<u8>, numbers: &[i64]) -> Result<(), NoMemory>
    ensures { OnOk result (out.new.items ≡ out.old.items
        ++ flat_map (λ value. 32 ∷ signed_decimal value) numbers.now) }
{
    for number in numbers {
        push_text(out, b" ")?;
        push_number(out, *number)?;
    }
    Ok(())
}

fn push_number(out: &mut Vec<u8>, number: i64) -> Result<(), NoMemory>
    ensures { OnOk result (out.new.items ≡ out.old.items ++ signed_decimal number) }
{
    push_text(out, Buffer::new().format(number).as_bytes())
}

fn push_text(out: &mut Vec<u8>, text: &[u8]) -> Result<(), NoMemory>
    ensures { OnOk result (out.new.items ≡ out.old.items ++ text.now) }
{
    out.extend_from_slice(text)?;
    Ok(())
}
