// Numbers in a row.
ghost use Rattle.std.specs.Prelude.{◌≡◌, List, ◌∷◌, IfErr, IfOk, OnOk};
ghost use Rattle.moa_tree.specs.Expected.{Want};
ghost use Rattle.moa_reader.specs.Lists.{TakesList, TakesNumbers};
ghost use Rattle.moa_reader.specs.Outcomes.{IsRefusedWith};
ghost use Rattle.moa_reader.specs.Rooms.{HasRoom, Spends};
ghost use Rattle.moa_reader.specs.Sources.{all};

use crate::error::ReadError;
use crate::pools::Builder;
use crate::source::Source;
use moa_tree::Numbers;
use shapes_core::NoMemory;
use text_tokens::Sign;

/// Adds the numbers that come next.
#[tactic(auto, using(crate::proofs::ListLemmas::same_number, crate::proofs::WantLemmas::number_taken, crate::proofs::ListLemmas::numbers_taken))]
pub(crate) fn numbers(source: &mut Source<'_>, builder: &mut Builder) -> Result<(), NoMemory>
    requires { HasRoom 0 source.old builder.old }
    ensures taken { OnOk result (TakesNumbers source.old builder.old source.new builder.new) }
    ensures spent { OnOk result (Spends 0 source.old builder.old 0 source.new builder.new) }
{
    while let Some(value) = source.lexeme().number() {
        builder.number(value)?;
        source.advance();
    }
    Ok(())
}

/// Numbers between `<` and `>`.
#[tactic(auto, using(crate::proofs::ListLemmas::list_stuck))]
pub(crate) fn list(source: &mut Source<'_>, builder: &mut Builder) -> Result<Numbers, ReadError>
    requires { HasRoom 0 source.old builder.old }
    ensures taken { IfOk result (λ list. TakesList source.old builder.old list source.new builder.new) }
    ensures spent { OnOk result (Spends 0 source.old builder.old 0 source.new builder.new) }
    ensures refused { IfErr result (λ error. (wants : List Want) → IsRefusedWith (Want.AList ∷ wants) (all source.old) error) }
{
    source.sign(Sign::Less, 11)?;
    let start = builder.list();
    numbers(source, builder)?;
    source.sign(Sign::Greater, 12)?;
    Ok(builder.list_from(start))
}
