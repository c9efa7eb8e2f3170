// The parts of forms that stand before their operands: numbers and operators.
ghost use Rattle.std.specs.Prelude.{◌≡◌, ◌<◌, List, ◌∷◌, length, IfErr, IfOk, IsTrue, OnOk};
ghost use Rattle.moa_tree.specs.Expected.{Want};
ghost use Rattle.moa_tree.specs.Vocabulary.{Lexeme as Terminal, is_fold};
ghost use Rattle.moa_reader.specs.Outcomes.{IsRefusedWith};
ghost use Rattle.moa_reader.specs.Sources.{Takes, all};

use crate::error::ReadError;
use crate::source::Source;
use moa_tree::Op;

/// The number that is wanted next.
#[tactic(auto, using(crate::proofs::WantLemmas::number_taken, crate::proofs::WantLemmas::number_stuck))]
pub(crate) fn count(source: &mut Source<'_>) -> Result<i64, ReadError>
    ensures taken { IfOk result (λ value. Takes source.old (Terminal.Number value) source.new) }
    ensures fewer { OnOk result (length source.new.behind < length source.old.behind) }
    ensures refused { IfErr result (λ error. (wants : List Want) → IsRefusedWith (Want.ANumber ∷ wants) (all source.old) error) }
{
    let Some(value) = source.lexeme().number() else {
        return Err(source.refusal(12));
    };
    source.advance();
    Ok(value)
}

/// The binary operator that is wanted next.
#[tactic(auto, using(crate::proofs::WantLemmas::operator_taken, crate::proofs::WantLemmas::operator_stuck))]
pub(crate) fn operator(source: &mut Source<'_>) -> Result<Op, ReadError>
    ensures taken { IfOk result (λ op. Takes source.old (Terminal.Binary op) source.new) }
    ensures fewer { OnOk result (length source.new.behind < length source.old.behind) }
    ensures refused { IfErr result (λ error. (wants : List Want) → IsRefusedWith (Want.AnOp ∷ wants) (all source.old) error) }
{
    let Some(op) = source.lexeme().operator() else {
        return Err(source.refusal(13));
    };
    source.advance();
    Ok(op)
}

/// The operator that is wanted next, which is one that folds.
#[tactic(auto, using(crate::proofs::WantLemmas::fold_taken, crate::proofs::WantLemmas::fold_stuck))]
pub(crate) fn fold(source: &mut Source<'_>) -> Result<Op, ReadError>
    ensures taken { IfOk result (λ op. Takes source.old (Terminal.Binary op) source.new) }
    ensures fewer { OnOk result (length source.new.behind < length source.old.behind) }
    ensures folds { IfOk result (λ op. IsTrue (is_fold op)) }
    ensures refused { IfErr result (λ error. (wants : List Want) → IsRefusedWith (Want.AFold ∷ wants) (all source.old) error) }
{
    let Some(op) = source.lexeme().fold() else {
        return Err(source.refusal(13));
    };
    source.advance();
    Ok(op)
}
