// A file with the token that comes next.
ghost use Rattle.std.specs.Prelude.{◌≡◌, ◌≢◌, ◌<◌, ℕ, ℤ, List, [], ◌∷◌, length, IfErr, IfOk, OnOk};
ghost use Rattle.std.specs.Prelude.{IsTrue, Some};
ghost use Rattle.std.specs.Bool.{MatchBool};
ghost use Rattle.std.specs.declared.option.Option.{Option};
ghost use Rattle.text_tokens.specs.declared.token.Token.{Token as Terminal};
ghost use Rattle.array_text.specs.Lines.{lined_tokens};
ghost use Rattle.array_text.specs.Outcome.{Came, Outcome, Want, at_array, at_extent, at_name};
ghost use Rattle.array_text.specs.Outcome.{at_value, cause_or, is_on, with_extent};
ghost use Rattle.array_text.specs.Sources.{BeginsArray, Explains, Fills, all};

use crate::error::DataError;
use crate::values::take_values;
use shapes_core::Name;
use std::marker::Model;
use text_tokens::{Scanner, Token};

/// The tokens of a file that are not read yet, of which the first is known.
#[derive(Drop)]
pub(crate) struct Source<'a> {
    scanner: Scanner<'a>,
    token: Token,
    line: u32,
}

impl<'a> Model for Source<'a> {
    ghost use Rattle.array_text.specs.Sources.{Ahead, behind_token};

    ghost Value = { Ahead };

    ghost view = { λ s. record {
      token = s.token;
      line = s.line;
      behind = behind_token s.token s.scanner;
    } };
}

impl<'a> Source<'a> {
    #[tactic(auto, using(crate::proofs::SourceLemmas::next_lined))]
    pub(crate) fn new(text: &'a [u8]) -> Source<'a>
        requires { length text.now < 4294967295 }
        ensures { all result ≡ lined_tokens text.now }
    {
        let mut scanner = Scanner::new(text);
        let (token, at) = scanner.next_token();
        Source {
            scanner,
            token,
            line: at.line,
        }
    }

    /// The line of the token that comes next.
    pub(crate) fn line(&self) -> u32
        ensures { result ≡ self.now.line }
    {
        self.line
    }

    /// The token that comes next.
    pub(crate) fn token(&self) -> Token
        ensures { result ≡ self.now.token }
    {
        self.token
    }

    /// Whether it stands on this line.
    pub(crate) fn is_on(&self, line: u32) -> bool
        ensures value { result ≡ is_on line self.now.token self.now.line }
        ensures no_end { IsTrue result → self.now.token ≢ Terminal.End }
    {
        match self.token {
            Token::End => false,
            _ => self.line == line,
        }
    }

    /// Passes over it.
    #[tactic(auto, using(crate::proofs::SourceLemmas::next_lined, crate::proofs::SourceLemmas::following_on))]
    pub(crate) fn advance(&mut self)
        requires { self.old.token ≢ Terminal.End }
        ensures { all self.new ≡ self.old.behind }
    {
        let (token, at) = self.scanner.next_token();
        self.token = token;
        self.line = at.line;
    }

    /// Passes over it and over the values behind it, which are appended, as long as there are fewer
    /// than this many.
    pub(crate) fn take_values(
        &mut self,
        values: &mut Vec<i64>,
        count: usize,
    ) -> Result<(), DataError>
        requires { self.old.token ≢ Terminal.End }
        ensures fills { OnOk result
            (Fills count values.old.items self.old.behind values.new.items (all self.new)) }
        ensures memory { IfErr result (λ error. error ≡ DataError.Memory) }
    {
        take_values(&mut self.scanner, values, count)?;
        self.advance();
        Ok(())
    }

    /// Refuses it for what it is, or with this cause because something else is wanted.
    pub(crate) fn refusal(&self, wanted: u8) -> DataError
        ensures { result ≡ DataError.Text self.now.line (cause_or self.now.token wanted) }
    {
        let cause = match self.token {
            Token::Sign(_) | Token::Malformed => 1,
            Token::OutOfRange => 2,
            _ => wanted,
        };
        DataError::Text {
            line: self.line,
            cause,
        }
    }

    /// Whether an array begins with it, where an array or the end is wanted.
    pub(crate) fn begins_array(&self) -> Result<bool, DataError>
        ensures begins { IfOk result (λ begins. MatchBool begins (BeginsArray self.now)
            (self.now.token ≡ Terminal.End)) }
        ensures refused { IfErr result (λ error. (came : Came)
            → Explains (at_array came self.now.token self.now.line) error) }
    {
        match self.token {
            Token::Word(word) => {
                if word.bytes() == b"array".as_slice() {
                    Ok(true)
                } else {
                    Err(self.refusal(3))
                }
            }
            Token::End => Ok(false),
            _ => Err(self.refusal(3)),
        }
    }

    /// The name that it is, where a name on this line is wanted.
    pub(crate) fn name_on(&self, line: u32) -> Result<Name, DataError>
        ensures name { IfOk result (λ name. (came : Came)
            → at_name came line self.now.token self.now.line
            ≡ Outcome.Goes came (Want.AnExtent line name (Some []))) }
        ensures no_end { OnOk result (self.now.token ≢ Terminal.End) }
        ensures refused { IfErr result (λ error. (came : Came)
            → Explains (at_name came line self.now.token self.now.line) error) }
    {
        match self.token {
            Token::Word(name) => {
                if self.line == line {
                    Ok(name)
                } else {
                    Err(self.refusal(3))
                }
            }
            _ => Err(self.refusal(3)),
        }
    }

    /// It, on the line of a head and behind its name, if it is a token.
    pub(crate) fn on_heads_line(&self, line: u32) -> Result<Token, DataError>
        ensures token { IfOk result (λ token. token ≡ self.now.token) }
        ensures goes { OnOk result ((came : Came) (name : List ℕ) (shape : Option (List ℕ))
            → at_extent came line name shape self.now.token
            ≡ Outcome.Goes came (Want.AnExtent line name (with_extent shape self.now.token))) }
        ensures refused { IfErr result
            (λ error. (came : Came) (name : List ℕ) (shape : Option (List ℕ))
            → Explains (at_extent came line name shape self.now.token) error) }
    {
        match self.token {
            Token::Sign(_) | Token::Malformed => Err(DataError::Text { line, cause: 1 }),
            Token::OutOfRange => Err(DataError::Text { line, cause: 2 }),
            token => Ok(token),
        }
    }

    /// The number that it is, where a value is wanted.
    pub(crate) fn value(&self) -> Result<i64, DataError>
        ensures value { IfOk result (λ value. self.now.token ≡ Terminal.Number value) }
        ensures refused { IfErr result
            (λ error. (came : Came) (place : ℕ) (values : List ℤ) (more : ℕ)
            → Explains (at_value came place values more self.now.token self.now.line) error) }
    {
        match self.token {
            Token::Number(value) => Ok(value),
            _ => Err(self.refusal(8)),
        }
    }
}
