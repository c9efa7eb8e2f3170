// The scanner: it passes over what separates tokens, and then takes the run or the byte that stands
// first.
ghost use Rattle.std.specs.Prelude.{◌≡◌, min, ◌+◌, ◌*◌, ◌<◌, ◌≤◌, ◌≢◌, false, ◌∷◌, length, take};
ghost use Rattle.std.specs.Prelude.{drop, slice_index, None};
ghost use Rattle.std.specs.Bool.{OnTrue, OnFalse};
ghost use Rattle.std.specs.List.{prefix_len};
ghost use Rattle.text_tokens.specs.Bytes.{is_run_byte, is_separator};
ghost use Rattle.text_tokens.specs.Tokens.{GivesNext, GivesNumber, along, position_after};
ghost use Rattle.text_tokens.specs.Tokens.{remaining_tokens, start};

use crate::bytes::{Kind, front_len, is_run_byte, token_of_byte};
use crate::looks::Looks;
use crate::number::number_in_front;
use crate::run::token_of_run;
use crate::text::Text;
use crate::token::{Position, Token};
use std::marker::{Brand, Model};
use std::sync::ledger::{Blank, Ledger};

/// Gives the tokens of a text one after the other, and its end again and again. Contracts see the
/// bytes that are left, and where the first of them stands.
#[derive(Drop)]
pub struct Scanner<'a> {
    rest: Text<'a>,
    position: Position,
}

impl<'a> Model for Scanner<'a> {
    ghost use Rattle.std.specs.Prelude.{◌+◌, ◌<◌, ◌^◌, length};
    ghost use Rattle.text_tokens.specs.Tokens.{Remaining};

    ghost Value = { Remaining };

    ghost view = { λ s. record { position = s.position; bytes = s.rest } };

    ghost invariant = { λ s. (s.position.line + length s.rest < 2 ^ 32)
        × (s.position.column + length s.rest < 2 ^ 32) };
}

impl<'a> Scanner<'a> {
    /// A scanner at the start of a text.
    pub fn new(text: &'a [u8]) -> Scanner<'a>
        requires { length text.now < 4294967295 }
        ensures { result ≡ record { position = start; bytes = text.now } }
    {
        Scanner {
            rest: Text::new(text),
            position: Position { line: 1, column: 1 },
        }
    }

    /// Passes over this byte, which stands first.
    fn pass(&mut self, byte: u8)
        requires { 0 < length self.old.bytes }
        ensures { self.new ≡ record {
          position = position_after self.old.position byte;
          bytes = drop 1 self.old.bytes;
        } }
    {
        let Position { line, column } = self.position;
        self.rest = self.rest.behind(1);
        self.position = if byte == b'\n' {
            Position {
                line: line + 1,
                column: 1,
            }
        } else {
            Position {
                line,
                column: column + 1,
            }
        };
    }

    /// Takes this many bytes of one line.
    fn advance(&mut self, count: usize) -> Text<'a>
        requires { count ≤ length self.old.bytes }
        ensures taken { result ≡ take count self.old.bytes }
        ensures left { self.new ≡ record {
          position = along self.old.position count;
          bytes = drop count self.old.bytes;
        } }
    {
        let taken = self.rest.front(count);
        self.rest = self.rest.behind(count);
        self.position.column += count as u32;
        taken
    }

    /// Passes over one blank, line end or comment, and says whether one stood there.
    #[tactic(auto, using(crate::proofs::TokenLemmas::tokens_comment))]
    fn skip_separator<L: Ledger>(&mut self, looks: &mut Looks<L>) -> bool
        ensures same { remaining_tokens self.new ≡ remaining_tokens self.old }
        ensures shorter { OnTrue result (length self.new.bytes < length self.old.bytes) }
        ensures none { OnFalse result (self.new ≡ self.old) }
        ensures first { OnFalse result (0 < length self.old.bytes
            → is_separator (slice_index self.old.bytes 0) ≡ false) }
        ensures cost { OnTrue result
            (looks.new + 3 * length self.new.bytes ≤ looks.old + 3 * length self.old.bytes) }
        ensures last_cost { OnFalse result (looks.new ≤ looks.old + min (length self.old.bytes) 1) }
    {
        if self.rest.is_empty() {
            return false;
        }
        let byte = self.rest.at(0, looks);
        // No separator is greater, and what begins a word or a number is.
        if byte > b'#' {
            return false;
        }
        match byte {
            b' ' | b'\t' | b'\r' | b'\n' => self.pass(byte),
            b'#' => {
                let comment = front_len(&self.rest, Kind::WithinLine, looks);
                self.advance(comment);
            }
            _ => return false,
        }
        true
    }

    /// Takes the token that begins with the first byte.
    #[tactic(auto, using(crate::proofs::TokenLemmas::tokens_run, crate::proofs::TokenLemmas::run_not_end, crate::proofs::TokenLemmas::byte_not_end))]
    fn take_token<L: Ledger>(&mut self, looks: &mut Looks<L>) -> Token
        requires there { 0 < length self.old.bytes }
        requires no_separator { is_separator (slice_index self.old.bytes 0) ≡ false }
        ensures next { remaining_tokens self.old ≡ (result, self.old.position)
            ∷ remaining_tokens self.new }
        ensures not_end { result ≢ Token.End }
        ensures shorter { length self.new.bytes < length self.old.bytes }
        ensures cost { looks.new + 9 * length self.new.bytes ≤ looks.old + 9 * length self.old.bytes }
    {
        let first = self.rest.at(0, looks);
        if is_run_byte(first) {
            let len = front_len(&self.rest, Kind::Run, looks);
            token_of_run(&self.advance(len), looks)
        } else {
            self.advance(1);
            token_of_byte(first)
        }
    }

    /// Passes over blanks, line ends and comments.
    fn skip_separators<L: Ledger>(&mut self, looks: &mut Looks<L>)
        ensures same { remaining_tokens self.new ≡ remaining_tokens self.old }
        ensures no_longer { length self.new.bytes ≤ length self.old.bytes }
        ensures first { 0 < length self.new.bytes → is_separator (slice_index self.new.bytes 0)
            ≡ false }
        ensures cost { looks.new + 3 * length self.new.bytes
            ≤ looks.old + 3 * length self.old.bytes + min (length self.new.bytes) 1 }
    {
        while self.skip_separator(looks) {}
    }

    /// What `next_token` gives, with a count of the bytes that it looks at: at most ten for each
    /// byte that a call takes, so at most ten times the bytes of a text from its start to its end.
    /// The scanner has its bytes by `Text` alone, which counts in the `Looks` that it is given; that no
    /// other is made on the way is read off these bodies, and not proved.
    #[tactic(auto, using(crate::proofs::TokenLemmas::following_more, crate::proofs::TokenLemmas::takes_bytes))]
    pub fn next_counted<L: Ledger>(&mut self, looks: &mut Looks<L>) -> (Token, Position)
        ensures token { GivesNext self.old result self.new }
        ensures cost { looks.new + 10 * length self.new.bytes ≤ looks.old + 10 * length self.old.bytes }
    {
        self.skip_separators(looks);
        let position = self.position;
        if self.rest.is_empty() {
            return (Token::End, position);
        }
        (self.take_token(looks), position)
    }

    /// What `next_number` gives, with a count of the bytes that it looks at: at most ten for each
    /// byte that a call takes and, where it gives nothing, for each byte of the run that it leaves,
    /// and three more.
    #[tactic(auto, using(crate::proofs::NumberLemmas::no_number))]
    pub fn next_number_counted<L: Ledger>(
        &mut self,
        looks: &mut Looks<L>,
    ) -> Option<(i64, Position)>
        ensures number { GivesNumber self.old result self.new }
        ensures cost { result ≢ None
            → looks.new + 10 * length self.new.bytes ≤ looks.old + 10 * length self.old.bytes }
        ensures other_cost { result ≡ None → looks.new + 10 * length self.new.bytes
            ≤ looks.old + 10 * length self.old.bytes + 10 * prefix_len is_run_byte self.new.bytes + 3 }
    {
        self.skip_separators(looks);
        let position = self.position;
        let (number, len) = number_in_front(&self.rest, looks)?;
        self.advance(len);
        Some((number, position))
    }

    /// The number that comes next, where the next token is one in the range of `i64`, with the
    /// position of its first byte; otherwise no token is taken.
    pub fn next_number(&mut self) -> Option<(i64, Position)>
        ensures { GivesNumber self.old result self.new }
    {
        number_uncounted::<Brand>(self, Blank::new(1))
    }

    /// The next token with the position of its first byte, and after the end the end again.
    pub fn next_token(&mut self) -> (Token, Position)
        ensures { GivesNext self.old result self.new }
    {
        next_uncounted::<Brand>(self, Blank::new(1))
    }
}

fn next_uncounted<L: Ledger>(scanner: &mut Scanner<'_>, blank: Blank) -> (Token, Position)
    requires name { blank.name ≡ L.name }
    requires parts { blank.parts ≡ L.parts }
    requires some { 0 < blank.parts }
    ensures { GivesNext scanner.old result scanner.new }
{
    let mut looks = Looks::<L>::new(blank);
    scanner.next_counted(&mut looks)
}

fn number_uncounted<L: Ledger>(scanner: &mut Scanner<'_>, blank: Blank) -> Option<(i64, Position)>
    requires name { blank.name ≡ L.name }
    requires parts { blank.parts ≡ L.parts }
    requires some { 0 < blank.parts }
    ensures { GivesNumber scanner.old result scanner.new }
{
    let mut looks = Looks::<L>::new(blank);
    scanner.next_number_counted(&mut looks)
}
