// What is read of an operand.
ghost use Rattle.std.specs.Prelude.{◌≡◌, ◌==◌, ◌||◌, IsTrue, codes, drop};
ghost use Rattle.std.specs.List.{list_all};
ghost use Rattle.std.specs.Option.{option_map};
ghost use Rattle.std.specs.Str.Parse.{digits_value, starts_with_minus};
ghost use Rattle.shapes_core.specs.Name.{is_digit, is_letter};
ghost use Rattle.rv_line.specs.Instructions.{is_label, is_label_byte};
ghost use Rattle.rv_line.specs.Numbers.{without_minus};
ghost use Rattle.rv_reader.specs.Cuts.{same, since};
ghost use Rattle.rv_reader.specs.Operands.{address_of, base_part, end_part, immediate_of, is_number, is_register, is_shortest, number_of, offset_part, register_of};
ghost use Rattle.rv_reader.specs.Marks.{capped, clamped, joined, signed};

use crate::cuts::{Mark, behind_first, cut};

fn are_digits(text: &[u8]) -> bool
    ensures { result ≡ list_all is_digit text.now }
{
    text.iter().all(|byte| byte.is_ascii_digit())
}

pub(crate) fn is_number(text: &[u8]) -> bool
    ensures { result ≡ is_number text.now }
{
    match text.split_first() {
        None => false,
        Some((first, others)) => first.is_ascii_digit() && are_digits(others),
    }
}

/// The value of decimal digits, at most the greatest of 64 bits.
#[tactic(auto, using(crate::proofs::NumberLemmas::capped_step, crate::proofs::NumberLemmas::digit_at))]
fn digits_value(digits: &[u8]) -> u64
    requires { IsTrue (list_all is_digit digits.now) }
    ensures { result ≡ capped (digits_value 10 digits.now) }
{
    let mut value: u64 = 0;
    for digit in digits {
        value = value
            .saturating_mul(10)
            .saturating_add(u64::from(*digit - b'0'));
    }
    value
}

/// A number without a sign, at most the greatest of 64 bits.
pub(crate) fn number(text: &[u8]) -> Option<u64>
    ensures { result ≡ option_map capped (number_of text.now) }
{
    if is_number(text) {
        Some(digits_value(text))
    } else {
        None
    }
}

fn starts_with_minus(text: &[u8]) -> bool
    ensures { result ≡ starts_with_minus text.now }
{
    match text.split_first() {
        None => false,
        Some((first, _)) => *first == b'-',
    }
}

fn without_minus<'a>(text: &'a [u8]) -> &'a [u8]
    ensures { result.now ≡ without_minus text.now }
{
    if starts_with_minus(text) {
        behind_first(text)
    } else {
        text
    }
}

/// How far immediates are kept: `farthest` of the definitions, which is 2^40.
const FARTHEST: i64 = 1099511627776;

fn signed(minus: bool, magnitude: u64) -> i64
    ensures { result ≡ clamped (signed minus magnitude) }
{
    if !minus {
        magnitude.min(FARTHEST as u64) as i64
    } else if magnitude == 0 {
        0
    } else {
        -1 - (magnitude - 1).min(FARTHEST as u64) as i64
    }
}

/// A number with or without `-` in front, as far as ranges of immediates go.
#[tactic(auto, using(crate::proofs::NumberLemmas::immediate_by))]
pub(crate) fn immediate(text: &[u8]) -> Option<i64>
    ensures { result ≡ option_map clamped (immediate_of text.now) }
{
    match number(without_minus(text)) {
        None => None,
        Some(magnitude) => Some(signed(starts_with_minus(text), magnitude)),
    }
}

fn is_shortest(digits: &[u8]) -> bool
    ensures { result ≡ is_shortest digits.now }
{
    is_number(digits) && (digits.len() == 1 || digits[0] != b'0')
}

fn is_register(text: &[u8]) -> bool
    ensures { result ≡ is_register text.now }
{
    match text.split_first() {
        None => false,
        Some((first, digits)) => {
            *first == b'x' && is_shortest(digits) && digits_value(digits) < 32
        }
    }
}

/// The number of a register.
pub(crate) fn register(text: &[u8]) -> Option<u8>
    ensures { result ≡ register_of text.now }
{
    if is_register(text) {
        Some(digits_value(&text[1..]) as u8)
    } else {
        None
    }
}

fn joined(closed: bool, imm: Option<i64>, base: Option<u8>) -> Option<(i64, u8)>
    ensures { result ≡ joined closed imm base }
{
    let Some(imm) = imm else {
        return None;
    };
    let Some(base) = base else {
        return None;
    };
    if closed { Some((imm, base)) } else { None }
}

fn offset_part<'a>(text: &'a [u8]) -> &'a [u8]
    ensures { result.now ≡ offset_part text.now }
{
    cut(text, Mark::Open).0
}

fn behind_open<'a>(text: &'a [u8]) -> &'a [u8]
    ensures { result.now ≡ drop 1 (since (λ byte. byte == 40) text.now) }
{
    behind_first(cut(text, Mark::Open).1)
}

fn base_part<'a>(text: &'a [u8]) -> &'a [u8]
    ensures { result.now ≡ base_part text.now }
{
    cut(behind_open(text), Mark::Close).0
}

fn is_closed(text: &[u8]) -> bool
    ensures { result ≡ same (end_part text.now) (codes ")") }
{
    cut(behind_open(text), Mark::Close).1 == b")".as_slice()
}

/// An immediate, and the register in parentheses behind it.
#[tactic(auto, using(crate::proofs::NumberLemmas::address_by))]
pub(crate) fn address(text: &[u8]) -> Option<(i64, u8)>
    ensures { result ≡ option_map (λ a. (clamped a.imm, a.base)) (address_of text.now) }
{
    joined(
        is_closed(text),
        immediate(offset_part(text)),
        register(base_part(text)),
    )
}

fn begins_label(byte: u8) -> bool
    ensures { result ≡ (is_letter byte || byte == 95 || byte == 46) }
{
    byte.is_ascii_alphabetic() || byte == b'_' || byte == b'.'
}

fn is_label_byte(byte: u8) -> bool
    ensures { result ≡ is_label_byte byte }
{
    byte.is_ascii_alphanumeric() || byte == b'_' || byte == b'.'
}

fn are_label_bytes(text: &[u8]) -> bool
    ensures { result ≡ list_all is_label_byte text.now }
{
    text.iter().all(|byte| is_label_byte(*byte))
}

/// Whether it is the name of a label.
pub(crate) fn is_label(text: &[u8]) -> bool
    ensures { result ≡ is_label text.now }
{
    match text.split_first() {
        None => false,
        Some((first, others)) => begins_label(*first) && are_label_bytes(others),
    }
}
