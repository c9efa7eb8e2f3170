// What a run is, taken as a whole.
ghost use Rattle.std.specs.Prelude.{◌≡◌, ◌+◌, ◌-◌, ◌*◌, ◌^◌, ◌<◌, ◌≤◌, length, SomeIff, IsTrue};
ghost use Rattle.std.specs.List.{list_all};
ghost use Rattle.std.specs.Str.Parse.{digits_value, starts_with_minus};
ghost use Rattle.shapes_core.specs.Name.{is_digit};
ghost use Rattle.text_tokens.specs.Runs.{is_numeral, is_word, signed, token_of_number, token_of_run, unsigned_part};

use crate::bytes::{Kind, are_all, is_letter};
use crate::looks::Looks;
use crate::text::Text;
use crate::token::Token;
use std::sync::ledger::Ledger;

#[tactic(auto, using(crate::proofs::KindLemmas::word_parts))]
fn is_word<L: Ledger>(run: &Text<'_>, looks: &mut Looks<L>) -> bool
    ensures value { result ≡ is_word run.now }
    ensures cost { looks.new ≤ looks.old + length run.now }
{
    if run.is_empty() || !is_letter(run.at(0, looks)) {
        return false;
    }
    are_all(&run.behind(1), Kind::NameByte, looks)
}

#[tactic(auto, using(crate::proofs::KindLemmas::numeral_digits))]
fn is_numeral<L: Ledger>(bytes: &Text<'_>, looks: &mut Looks<L>) -> bool
    ensures value { result ≡ is_numeral bytes.now }
    ensures cost { looks.new ≤ looks.old + length bytes.now }
{
    !bytes.is_empty() && are_all(bytes, Kind::Digit, looks)
}

pub(crate) fn starts_with_minus<L: Ledger>(run: &Text<'_>, looks: &mut Looks<L>) -> bool
    ensures value { result ≡ starts_with_minus run.now }
    ensures cost { looks.new ≤ looks.old + 1 }
{
    !run.is_empty() && run.at(0, looks) == b'-'
}

/// What a run is without the `-` with which it begins, if it does.
pub(crate) fn unsigned_part<'a>(run: &Text<'a>, minus: bool) -> Text<'a>
    requires { minus ≡ starts_with_minus run.now }
    ensures { result ≡ unsigned_part run.now }
{
    run.behind(usize::from(minus))
}

/// The number with one more digit at its end, or `None` where it takes more than 64 bits.
fn with_digit(number: u64, digit: u8) -> Option<u64>
    requires { IsTrue (is_digit digit) }
    ensures { SomeIff result (number * 10 + (digit - 48) < 2 ^ 64) (number * 10 + (digit - 48)) }
{
    number.checked_mul(10)?.checked_add(u64::from(digit - b'0'))
}

/// The number that decimal digits write, or `None` where it takes more than 64 bits.
#[tactic(auto, using(crate::proofs::DigitLemmas::digits_step, crate::proofs::DigitLemmas::digits_so_far, crate::proofs::DigitLemmas::digit_at))]
fn digits_value<L: Ledger>(digits: &Text<'_>, looks: &mut Looks<L>) -> Option<u64>
    requires { IsTrue (list_all is_digit digits.now) }
    ensures value { SomeIff result (digits_value 10 digits.now < 2 ^ 64) (digits_value 10 digits.now) }
    ensures cost { looks.new ≤ looks.old + length digits.now }
{
    let mut value: u64 = 0;
    for place in 0..digits.len() {
        value = with_digit(value, digits.at(place, looks))?;
    }
    Some(value)
}

/// The token of the number of this magnitude, with or without `-` in front.
pub(crate) fn token_of_number(minus: bool, magnitude: u64) -> Token
    ensures { result ≡ token_of_number (signed minus magnitude) }
{
    let value = i128::from(magnitude);
    match i64::try_from(if minus { -value } else { value }) {
        Ok(number) => Token::Number(number),
        Err(_) => Token::OutOfRange,
    }
}

/// The token of a run.
pub(crate) fn token_of_run<L: Ledger>(run: &Text<'_>, looks: &mut Looks<L>) -> Token
    ensures value { result ≡ token_of_run run.now }
    ensures cost { looks.new ≤ looks.old + 5 * length run.now + 1 }
{
    if let Some(name) = run.name(looks) {
        return Token::Word(name);
    }
    if is_word(run, looks) {
        return Token::LongWord;
    }
    let minus = starts_with_minus(run, looks);
    let digits = unsigned_part(run, minus);
    if !is_numeral(&digits, looks) {
        return Token::Malformed;
    }
    match digits_value(&digits, looks) {
        Some(magnitude) => token_of_number(minus, magnitude),
        None => Token::OutOfRange,
    }
}
