// A text with the lexeme that comes next.
ghost use Rattle.std.specs.Prelude.{◌≡◌, ◌≢◌, ◌+◌, ◌<◌, ◌≤◌, List, [], ◌∷◌, length, IfErr, IsTrue, OnErr, OnOk, Err};
ghost use Rattle.text_tokens.specs.Tokens.{start, tokens};
ghost use Rattle.moa_tree.specs.Expected.{Want, cause_of, next, stuck};
ghost use Rattle.moa_tree.specs.Refusals.{is_end};
ghost use Rattle.moa_tree.specs.Vocabulary.{Lexeme as Terminal};
ghost use Rattle.moa_reader.specs.Lexemes.{lexeme_read};
ghost use Rattle.moa_reader.specs.Outcomes.{IsRefusedWith, cause_or};
ghost use Rattle.moa_reader.specs.Sources.{Takes, all, placed};

use crate::error::ReadError;
use crate::words::Lexeme;
use moa_tree::Version;
use std::marker::Model;
use text_tokens::laws::tokens_are_few;
use text_tokens::{Position, Scanner, Sign};

/// The lexemes of a text that are not read yet, by the words of a version, of which the first is known.
#[derive(Drop)]
pub(crate) struct Source<'a> {
    version: Version,
    scanner: Scanner<'a>,
    lexeme: Lexeme,
    at: Position,
}

impl<'a> Model for Source<'a> {
    ghost use Rattle.moa_reader.specs.Lexemes.{lexeme_read};
    ghost use Rattle.moa_reader.specs.Sources.{Ahead, following};

    ghost Value = { Ahead };

    ghost view = { λ s. record { lexeme = lexeme_read s.lexeme; at = s.at; behind = following s.version (lexeme_read s.lexeme) s.scanner } };
}

impl<'a> Source<'a> {
    pub(crate) fn new(version: Version, text: &'a [u8]) -> Source<'a>
        requires { length text.now < 4294967295 }
        ensures value { all result ≡ placed version (tokens start text.now) }
        ensures few { length result.behind ≤ length text.now }
    {
        tokens_are_few();
        let mut scanner = Scanner::new(text);
        let (token, at) = scanner.next_token();
        Source {
            version,
            scanner,
            lexeme: Lexeme::of(version, token),
            at,
        }
    }

    /// The lexeme that comes next.
    pub(crate) fn lexeme(&self) -> Lexeme
        ensures { lexeme_read result ≡ self.now.lexeme }
    {
        self.lexeme
    }

    /// Whether it is the end.
    pub(crate) fn is_at_end(&self) -> bool
        ensures end { result ≡ is_end self.now.lexeme }
        ensures last { IsTrue result → self.now.behind ≡ [] }
    {
        self.lexeme.is_end()
    }

    /// Where it stands.
    pub(crate) fn at(&self) -> Position
        ensures { result ≡ self.now.at }
    {
        self.at
    }

    /// Passes over it.
    pub(crate) fn advance(&mut self)
        requires { self.old.lexeme ≢ Terminal.End }
        ensures value { all self.new ≡ self.old.behind }
        ensures fewer { length self.old.behind ≡ 1 + length self.new.behind }
    {
        let (token, at) = self.scanner.next_token();
        self.lexeme = Lexeme::of(self.version, token);
        self.at = at;
    }

    /// Refuses the lexeme that comes next, where something else is wanted: for what it is, if it is no lexeme of the
    /// language, and else with the cause that says what is wanted.
    #[tactic(auto, using(crate::proofs::OutcomeLemmas::stuck_refused))]
    pub(crate) fn refusal(&self, wanted: u8) -> ReadError
        ensures value { result ≡ ReadError.Text self.now.at (cause_or self.now.lexeme wanted) }
        ensures refused { (wants : List Want) → next wants self.now.lexeme ≡ stuck → cause_of wants self.now.lexeme ≡ wanted
            → IsRefusedWith wants (all self.now) result }
    {
        let cause = match self.lexeme {
            Lexeme::Malformed => 1,
            Lexeme::OutOfRange => 2,
            Lexeme::LongWord => 3,
            _ => wanted,
        };
        ReadError::Text { at: self.at, cause }
    }

    /// Passes over this sign, which is wanted next.
    pub(crate) fn sign(&mut self, sign: Sign, cause: u8) -> Result<(), ReadError>
        ensures taken { OnOk result (Takes self.old (Terminal.Sign sign) self.new) }
        ensures fewer { OnOk result (length self.new.behind < length self.old.behind) }
        ensures other { OnErr result (self.old.lexeme ≢ Terminal.Sign sign) }
        ensures refused { IfErr result (λ error. (wants : List Want) → next wants self.old.lexeme ≡ stuck
            → cause_of wants self.old.lexeme ≡ cause → IsRefusedWith wants (all self.old) error) }
    {
        if !self.lexeme.is_sign(sign) {
            return Err(self.refusal(cause));
        }
        self.advance();
        Ok(())
    }
}
