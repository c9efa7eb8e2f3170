// The operands of an instruction, as they are separated.
ghost use Rattle.std.specs.Prelude.{◌≡◌, [], ◌∷◌, MatchOption};
ghost use Rattle.rv_reader.specs.Cuts.{cut_operands, operands_in};
ghost use Rattle.rv_reader.specs.Split.{AreSplit};

use crate::cuts::{Mark, cut, trimmed};

/// Up to three operands. No form takes more.
#[derive(Clone, Copy)]
pub(crate) enum Operands<'a> {
    Zero,
    One(&'a [u8]),
    Two(&'a [u8], &'a [u8]),
    Three(&'a [u8], &'a [u8], &'a [u8]),
    More,
}

/// The first operand, and what stands behind its comma, if it has one.
#[tactic(auto, using(crate::proofs::MarkLemmas::operand_next))]
fn next_operand<'a>(text: &'a [u8]) -> (&'a [u8], Option<&'a [u8]>)
    ensures { MatchOption result.1 (cut_operands text.now ≡ result.0.now ∷ [])
        (λ rest. cut_operands text.now ≡ result.0.now ∷ cut_operands rest.now) }
{
    let (front, behind) = cut(text, Mark::Comma);
    match behind.split_first() {
        None => (trimmed(front), None),
        Some((_, rest)) => (trimmed(front), Some(rest)),
    }
}

/// The operands in what stands behind a mnemonic.
#[tactic(auto, using(crate::proofs::MarkLemmas::some_operand))]
pub(crate) fn split_operands<'a>(text: &'a [u8]) -> Operands<'a>
    ensures { AreSplit result (operands_in text.now) }
{
    if text.is_empty() {
        return Operands::Zero;
    }
    let (one, rest) = next_operand(text);
    let Some(rest) = rest else {
        return Operands::One(one);
    };
    let (two, rest) = next_operand(rest);
    let Some(rest) = rest else {
        return Operands::Two(one, two);
    };
    let (three, rest) = next_operand(rest);
    match rest {
        None => Operands::Three(one, two, three),
        Some(_) => Operands::More,
    }
}
