// The number that stands first, straight from its bytes.
ghost use Rattle.std.specs.Prelude.{◌≡◌, ◌+◌, ◌*◌, ◌<◌, ◌≤◌, length, take, drop, max, not};
ghost use Rattle.std.specs.Prelude.{option_map, IsTrue};
ghost use Rattle.std.specs.List.{list_all, prefix_len};
ghost use Rattle.std.specs.Str.Parse.{digits_value};
ghost use Rattle.shapes_core.specs.Name.{is_digit};
ghost use Rattle.text_tokens.specs.Bytes.{is_run_byte};
ghost use Rattle.text_tokens.specs.Runs.{number_in_front, number_of, signed, token_of_number};
ghost use Rattle.text_tokens.specs.Separators.{begins_in_run};

use crate::bytes::{Kind, front_len, is_digit, is_run_byte};
use crate::looks::Looks;
use crate::run::{starts_with_minus, token_of_number, token_of_run, unsigned_part};
use crate::text::Text;
use crate::token::Token;
use std::sync::ledger::Ledger;

/// So many digits write less than 2^64, and a number of 64 bits without zeros in front has no more.
const MOST_DIGITS: usize = 19;

/// What the digits that stand first write, at most 19 of them, and how many these are.
#[tactic(auto, using(crate::proofs::DigitLemmas::none_first, crate::proofs::DigitLemmas::none_there))]
fn short_digits<L: Ledger>(text: &Text<'_>, looks: &mut Looks<L>) -> (u64, usize)
    ensures digits { IsTrue (list_all is_digit (take result.1 text.now)) }
    ensures value { result.0 ≡ digits_value 10 (take result.1 text.now) }
    ensures within { result.1 ≤ length text.now }
    ensures none { result.1 ≡ 0 → prefix_len is_digit text.now ≡ 0 }
    ensures cost { looks.new ≤ looks.old + result.1 + 1 }
{
    let mut value: u64 = 0;
    let most = text.len().min(MOST_DIGITS);
    for place in 0..most {
        let byte = text.at(place, looks);
        if !is_digit(byte) {
            return (value, place);
        }
        value = value * 10 + u64::from(byte - b'0');
    }
    (value, most)
}

/// Whether no run goes on at this place.
fn ends_at<L: Ledger>(text: &Text<'_>, place: usize, looks: &mut Looks<L>) -> bool
    requires { place ≤ length text.now }
    ensures value { result ≡ not (begins_in_run (drop place text.now)) }
    ensures cost { looks.new ≤ looks.old + 1 }
{
    if place == text.len() {
        return true;
    }
    // A blank or a line end is what stands there most often.
    let byte = text.at(place, looks);
    byte <= b' ' || !is_run_byte(byte)
}

/// The number that a token is.
fn number_of(token: Token) -> Option<i64>
    ensures { result ≡ number_of token }
{
    match token {
        Token::Number(number) => Some(number),
        _ => None,
    }
}

/// A number with the length of its run.
fn with_len(number: Option<i64>, len: usize) -> Option<(i64, usize)>
    ensures { result ≡ option_map (λ value. (value, len)) number }
{
    match number {
        Some(number) => Some((number, len)),
        None => None,
    }
}

/// The number that the run in front is, by its token, and how long the run is.
fn long_number<L: Ledger>(text: &Text<'_>, looks: &mut Looks<L>) -> Option<(i64, usize)>
    ensures value { result ≡ number_in_front text.now }
    ensures cost { looks.new ≤ looks.old + 6 * prefix_len is_run_byte text.now + 2 }
{
    let len = front_len(text, Kind::Run, looks);
    with_len(number_of(token_of_run(&text.front(len), looks)), len)
}

/// The number that the run in front is, if it is one, and how long the run is. Each byte of a short
/// one is looked at as its value is made.
pub(crate) fn number_in_front<L: Ledger>(
    text: &Text<'_>,
    looks: &mut Looks<L>,
) -> Option<(i64, usize)>
    ensures value { result ≡ number_in_front text.now }
    ensures cost { looks.new ≤ looks.old + max 2 (9 * prefix_len is_run_byte text.now) }
{
    let minus = starts_with_minus(text, looks);
    let digits = unsigned_part(text, minus);
    let (magnitude, count) = short_digits(&digits, looks);
    if count == 0 {
        return None;
    }
    if !ends_at(&digits, count, looks) {
        return long_number(text, looks);
    }
    let number = number_of(token_of_number(minus, magnitude));
    with_len(number, usize::from(minus) + count)
}
