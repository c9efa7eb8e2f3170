// The reserved words, with what each is to the language. This is the one place in which code spells them.
ghost use Rattle.std.specs.Prelude.{◌≡◌, ◌↔◌, IsTrue, map};
ghost use Rattle.moa_tree.specs.Vocabulary.{Lexeme as Terminal, is_fold, lexeme_of, op_word, reserved, spelling, unary_word, word_among};
ghost use Rattle.moa_reader.specs.Heads.{begins};
ghost use Rattle.moa_reader.specs.Lexemes.{lexeme_of_word, lexeme_or_name, fold_in, lexeme_read, name_in, number_in, operator_in, version_in};
ghost use Rattle.moa_reader.specs.Statements.{declared_by, is_psi, seen_behind};
ghost use Rattle.moa_tree.specs.Refusals.{is_end};

use moa_tree::{Op, Unary, Version, identity};
use shapes_core::Name;
use text_tokens::{Sign, Token};

/// A reserved word.
#[derive(Clone, Copy, Debug, PartialEq, Eq)]
pub(crate) enum Word {
    In,
    Let,
    Out,
    Psi,
    Take,
    Drop,
    Permute,
    Reshape,
    Reverse,
    Transpose,
    Ravel,
    Iota,
    Rotate,
    Cat,
    Outer,
    Inner,
    Reduce,
    Scan,
    Unary(Unary),
    Binary(Op),
}

const WORDS: [Word; 35] = [
    Word::In,
    Word::Let,
    Word::Out,
    Word::Psi,
    Word::Iota,
    Word::Take,
    Word::Drop,
    Word::Reverse,
    Word::Rotate,
    Word::Transpose,
    Word::Permute,
    Word::Cat,
    Word::Reshape,
    Word::Ravel,
    Word::Outer,
    Word::Inner,
    Word::Reduce,
    Word::Scan,
    Word::Unary(Unary::Neg),
    Word::Unary(Unary::Not),
    Word::Unary(Unary::Abs),
    Word::Binary(Op::Add),
    Word::Binary(Op::Sub),
    Word::Binary(Op::Mul),
    Word::Binary(Op::Quot),
    Word::Binary(Op::Rem),
    Word::Binary(Op::Min),
    Word::Binary(Op::Max),
    Word::Binary(Op::Eq),
    Word::Binary(Op::Ne),
    Word::Binary(Op::Lt),
    Word::Binary(Op::Le),
    Word::Binary(Op::And),
    Word::Binary(Op::Or),
    Word::Binary(Op::Xor),
];

impl Word {
    /// How the word is spelled.
    pub(crate) fn spelling(self) -> &'static [u8]
        ensures { result.now ≡ spelling (lexeme_of_word self) }
    {
        match self {
            Word::In => b"in",
            Word::Let => b"let",
            Word::Out => b"out",
            Word::Psi => b"psi",
            Word::Take => b"take",
            Word::Drop => b"drop",
            Word::Permute => b"permute",
            Word::Reshape => b"reshape",
            Word::Reverse => b"reverse",
            Word::Transpose => b"transpose",
            Word::Ravel => b"ravel",
            Word::Iota => b"iota",
            Word::Rotate => b"rotate",
            Word::Cat => b"cat",
            Word::Outer => b"outer",
            Word::Inner => b"inner",
            Word::Reduce => b"reduce",
            Word::Scan => b"scan",
            Word::Unary(op) => unary_spelling(op),
            Word::Binary(op) => binary_spelling(op),
        }
    }

    /// The words that the version reserves.
    fn reserved(version: Version) -> &'static [Word]
        ensures { map lexeme_of_word result.now ≡ reserved version }
    {
        match version {
            Version::First => &WORDS,
        }
    }

    /// The word that is spelled so, or `None` where the bytes spell no word that the version reserves.
    pub(crate) fn from_spelling(version: Version, bytes: &[u8]) -> Option<Word>
        ensures { word_among (reserved version) bytes.now ≡ lexeme_or_name result bytes.now }
    {
        Word::among(Word::reserved(version), bytes)
    }

    /// The first of the words that is spelled so.
    #[tactic(auto, using(crate::proofs::SourceLemmas::word_passed))]
    fn among(words: &[Word], bytes: &[u8]) -> Option<Word>
        ensures { word_among (map lexeme_of_word words.now) bytes.now ≡ lexeme_or_name result bytes.now }
    {
        for word in words {
            if bytes == word.spelling() {
                return Some(*word);
            }
        }
        None
    }
}

fn folds(op: Op) -> bool
    ensures { result ≡ is_fold op }
{
    identity(op).is_some()
}

/// What a statement declares.
#[derive(Clone, Copy)]
pub(crate) enum Declaration {
    Input,
    Name,
    Output,
}

impl Declaration {
    /// Whether an output was seen by the end of such a statement, where one was seen before it or none.
    pub(crate) fn sees_output(self, seen: bool) -> bool
        ensures { result ≡ seen_behind self seen }
    {
        match self {
            Declaration::Output => true,
            _ => seen,
        }
    }
}

/// What a token is to a version of the language.
#[derive(Clone, Copy)]
pub(crate) enum Lexeme {
    Word(Word),
    Name(Name),
    Number(i64),
    Sign(Sign),
    End,
    /// Bytes that form no token.
    Malformed,
    /// A number that does not fit 64 bits.
    OutOfRange,
    LongWord,
}

impl Lexeme {
    pub(crate) fn of(version: Version, token: Token) -> Lexeme
        ensures { lexeme_read result ≡ lexeme_of version token }
    {
        match token {
            Token::Word(name) => Lexeme::of_word(version, name),
            Token::LongWord => Lexeme::LongWord,
            Token::Number(value) => Lexeme::Number(value),
            Token::OutOfRange => Lexeme::OutOfRange,
            Token::Sign(sign) => Lexeme::Sign(sign),
            Token::Malformed => Lexeme::Malformed,
            Token::End => Lexeme::End,
        }
    }

    /// The number that it is, if it is one.
    pub(crate) fn number(self) -> Option<i64>
        ensures { result ≡ number_in (lexeme_read self) }
    {
        match self {
            Lexeme::Number(value) => Some(value),
            _ => None,
        }
    }

    /// The version whose number it is, if it is that of one.
    pub(crate) fn version(self) -> Option<Version>
        ensures { result ≡ version_in (lexeme_read self) }
    {
        match self {
            Lexeme::Number(value) => Version::numbered(value),
            _ => None,
        }
    }

    /// The name that it is, if it is one.
    pub(crate) fn name(self) -> Option<Name>
        ensures { result ≡ name_in (lexeme_read self) }
    {
        match self {
            Lexeme::Name(name) => Some(name),
            _ => None,
        }
    }

    /// The binary operator that it is, if it is one.
    pub(crate) fn operator(self) -> Option<Op>
        ensures { result ≡ operator_in (lexeme_read self) }
    {
        match self {
            Lexeme::Word(Word::Binary(op)) => Some(op),
            _ => None,
        }
    }

    /// The operator that it is, if it is one that folds.
    pub(crate) fn fold(self) -> Option<Op>
        ensures { result ≡ fold_in (lexeme_read self) }
    {
        match self {
            Lexeme::Word(Word::Binary(op)) if folds(op) => Some(op),
            _ => None,
        }
    }

    /// Whether an expression may begin with it.
    pub(crate) fn begins_expression(self) -> bool
        ensures { result ≡ begins (lexeme_read self) }
    {
        match self {
            Lexeme::Name(_) | Lexeme::Number(_) => true,
            Lexeme::Sign(sign) => sign == Sign::Open,
            Lexeme::Word(Word::In | Word::Let | Word::Out) => false,
            Lexeme::Word(_) => true,
            _ => false,
        }
    }

    /// What a statement declares that begins with it, if one does.
    pub(crate) fn declares(self) -> Option<Declaration>
        ensures { result ≡ declared_by (lexeme_read self) }
    {
        match self {
            Lexeme::Word(Word::In) => Some(Declaration::Input),
            Lexeme::Word(Word::Let) => Some(Declaration::Name),
            Lexeme::Word(Word::Out) => Some(Declaration::Output),
            _ => None,
        }
    }

    /// Whether it is the word with which a text begins.
    pub(crate) fn is_psi(self) -> bool
        ensures { result ≡ is_psi (lexeme_read self) }
    {
        match self {
            Lexeme::Word(Word::Psi) => true,
            _ => false,
        }
    }

    pub(crate) fn is_end(self) -> bool
        ensures { result ≡ is_end (lexeme_read self) }
    {
        match self {
            Lexeme::End => true,
            _ => false,
        }
    }

    pub(crate) fn is_sign(self, sign: Sign) -> bool
        ensures { IsTrue result ↔ (lexeme_read self ≡ Terminal.Sign sign) }
    {
        match self {
            Lexeme::Sign(found) => found == sign,
            _ => false,
        }
    }

    fn of_word(version: Version, name: Name) -> Lexeme
        ensures { lexeme_read result ≡ word_among (reserved version) name }
    {
        match Word::from_spelling(version, name.bytes()) {
            Some(word) => Lexeme::Word(word),
            None => Lexeme::Name(name),
        }
    }
}

fn unary_spelling(op: Unary) -> &'static [u8]
    ensures { result.now ≡ unary_word op }
{
    match op {
        Unary::Neg => b"neg",
        Unary::Not => b"not",
        Unary::Abs => b"abs",
    }
}

fn binary_spelling(op: Op) -> &'static [u8]
    ensures { result.now ≡ op_word op }
{
    match op {
        Op::Add => b"add",
        Op::Sub => b"sub",
        Op::Mul => b"mul",
        Op::Quot => b"quot",
        Op::Rem => b"rem",
        Op::Min => b"min",
        Op::Max => b"max",
        Op::Eq => b"eq",
        Op::Ne => b"ne",
        Op::Lt => b"lt",
        Op::Le => b"le",
        Op::And => b"and",
        Op::Or => b"or",
        Op::Xor => b"xor",
    }
}
