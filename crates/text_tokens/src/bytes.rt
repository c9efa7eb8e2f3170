// The kinds of bytes, and how far they go on.
ghost use Rattle.std.specs.Prelude.{◌≡◌, ◌+◌, ◌≤◌, min, length};
ghost use Rattle.std.specs.List.{list_all, prefix_len};
ghost use Rattle.shapes_core.specs.Name.{is_digit, is_letter, is_name_byte};
ghost use Rattle.text_tokens.specs.Bytes.{is_run_byte, token_of_byte};
ghost use Rattle.text_tokens.specs.Kinds.{is_of};

use crate::looks::Looks;
use crate::text::Text;
use crate::token::{Sign, Token};
use std::sync::ledger::Ledger;

/// What a part of a text is made of.
#[derive(Clone, Copy)]
pub(crate) enum Kind {
    Run,
    WithinLine,
    NameByte,
    Digit,
}

pub(crate) fn is_letter(byte: u8) -> bool
    ensures { result ≡ is_letter byte }
{
    byte.is_ascii_alphabetic()
}

pub(crate) fn is_digit(byte: u8) -> bool
    ensures { result ≡ is_digit byte }
{
    byte.is_ascii_digit()
}

fn is_name_byte(byte: u8) -> bool
    ensures { result ≡ is_name_byte byte }
{
    byte.is_ascii_alphanumeric() || byte == b'_'
}

/// Whether the byte is a letter, a digit, `_` or `-`.
pub(crate) fn is_run_byte(byte: u8) -> bool
    ensures { result ≡ is_run_byte byte }
{
    is_name_byte(byte) || byte == b'-'
}

fn is_of(kind: Kind, byte: u8) -> bool
    ensures { result ≡ is_of kind byte }
{
    match kind {
        Kind::Run => is_run_byte(byte),
        Kind::WithinLine => byte != b'\n',
        Kind::NameByte => is_name_byte(byte),
        Kind::Digit => is_digit(byte),
    }
}

/// How many bytes from the front on are of one kind.
pub(crate) fn front_len<L: Ledger>(text: &Text<'_>, kind: Kind, looks: &mut Looks<L>) -> usize
    ensures value { result ≡ prefix_len (is_of kind) text.now }
    ensures within { result ≤ length text.now }
    ensures cost { looks.new ≤ looks.old + min (result + 1) (length text.now) }
{
    for place in 0..text.len() {
        if !is_of(kind, text.at(place, looks)) {
            return place;
        }
    }
    text.len()
}

/// Whether all bytes are of one kind.
#[tactic(auto, using(crate::proofs::KindLemmas::all_by_len))]
pub(crate) fn are_all<L: Ledger>(text: &Text<'_>, kind: Kind, looks: &mut Looks<L>) -> bool
    ensures value { result ≡ list_all (is_of kind) text.now }
    ensures cost { looks.new ≤ looks.old + length text.now }
{
    front_len(text, kind, looks) == text.len()
}

/// The token that a byte is by itself.
pub(crate) fn token_of_byte(byte: u8) -> Token
    ensures { result ≡ token_of_byte byte }
{
    match byte {
        b'<' => Token::Sign(Sign::Less),
        b'>' => Token::Sign(Sign::Greater),
        b'(' => Token::Sign(Sign::Open),
        b')' => Token::Sign(Sign::Close),
        b'=' => Token::Sign(Sign::Equal),
        _ => Token::Malformed,
    }
}
