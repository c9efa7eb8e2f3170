// The values of an array, straight from the bytes.
ghost use Rattle.std.specs.Prelude.{◌≡◌, ◌<◌, ◌++◌, [], ◌∷◌, length, IfErr, IfOk, OnOk};
ghost use Rattle.std.specs.Bool.{OnTrue};
ghost use Rattle.text_tokens.specs.Tokens.{remaining_tokens};
ghost use Rattle.array_text.specs.Lines.{lined};
ghost use Rattle.array_text.specs.Sources.{Fills};

use crate::error::DataError;
use text_tokens::Scanner;

pub(crate) fn append(values: &mut Vec<i64>, value: i64) -> Result<(), DataError>
    ensures added { OnOk result (values.new.items ≡ values.old.items ++ value ∷ []) }
    ensures memory { IfErr result (λ error. error ≡ DataError.Memory) }
{
    values.push(value)?;
    Ok(())
}

/// Appends the number that comes next, and says whether one did.
#[tactic(auto, using(crate::proofs::ValueLemmas::fills_none))]
fn take_value(
    scanner: &mut Scanner<'_>,
    values: &mut Vec<i64>,
    count: usize,
) -> Result<bool, DataError>
    requires { length values.old.items < count }
    ensures fills { OnOk result (Fills count values.old.items (lined (remaining_tokens scanner.old))
        values.new.items (lined (remaining_tokens scanner.new))) }
    ensures more { IfOk result (λ found. OnTrue found
        (length values.old.items < length values.new.items)) }
    ensures memory { IfErr result (λ error. error ≡ DataError.Memory) }
{
    match scanner.next_number() {
        Some((value, _)) => {
            append(values, value)?;
            Ok(true)
        }
        None => Ok(false),
    }
}

/// Appends the numbers that come next, as long as there are fewer values than this many.
pub(crate) fn take_values(
    scanner: &mut Scanner<'_>,
    values: &mut Vec<i64>,
    count: usize,
) -> Result<(), DataError>
    ensures fills { OnOk result (Fills count values.old.items (lined (remaining_tokens scanner.old))
        values.new.items (lined (remaining_tokens scanner.new))) }
    ensures memory { IfErr result (λ error. error ≡ DataError.Memory) }
{
    'numbers: while values.len() < count {
        if !take_value(scanner, values, count)? {
            break;
        }
    }
    Ok(())
}
