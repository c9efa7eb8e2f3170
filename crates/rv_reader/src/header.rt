// The first three lines of a text.
ghost use Rattle.std.specs.Prelude.{◌≡◌, ◌<◌, ◌≤◌, ◌^◌, IfErr, IfOk, None, Some, drop, length};
ghost use Rattle.std.specs.List.{starts_with};
ghost use Rattle.std.specs.Str.Lines.{lines};
ghost use Rattle.rv_reader.specs.Errors.{IsRefusal};
ghost use Rattle.rv_reader.specs.Refusals.{header_refusal, line_at, number_behind, spill_of, steps_of};

use crate::error::{AsmError, FORMAT, SPILL, STEPS};
use crate::lines::split_line;
use crate::operands::number;
use rv_line::Header;
use shapes_core::MOST_WORDS;

/// The number behind a front of a line, if it is one and is at most `most`.
#[tactic(auto, using(crate::proofs::HeaderLemmas::capped_most))]
pub(crate) fn number_behind(front: &[u8], most: u64, text: &[u8]) -> Option<u64>
    requires { most < 2 ^ 63 }
    ensures { result ≡ number_behind front.now most text.now }
{
    if !text.starts_with(front) {
        return None;
    }
    let number = number(&text[front.len()..])?;
    if number <= most { Some(number) } else { None }
}

/// The first line, or an empty one where no line is left, and what stands behind it.
fn front_line<'a>(text: &'a [u8]) -> (&'a [u8], &'a [u8])
    ensures line { result.0.now ≡ line_at (lines text.now) 0 }
    ensures rest { lines result.1.now ≡ drop 1 (lines text.now) }
    ensures shorter { length result.1.now ≤ length text.now }
{
    match split_line(text) {
        None => (&text[..0], text),
        Some((line, behind)) => (line, behind),
    }
}

/// What the first three lines say, and what stands behind them.
#[derive(Clone, Copy)]
pub(crate) struct Front<'a> {
    pub(crate) header: Header,
    pub(crate) rest: &'a [u8],
}

/// Reads the first three lines. The cause of a line that is not as it must be is its number.
#[tactic(auto, using(crate::proofs::HeaderLemmas::second_is, crate::proofs::HeaderLemmas::third_is, crate::proofs::HeaderLemmas::rest_is))]
pub(crate) fn read_header<'a>(text: &'a [u8]) -> Result<Front<'a>, AsmError>
    ensures fine { IfOk result (λ front. header_refusal (lines text.now) ≡ None) }
    ensures steps { IfOk result (λ front. steps_of (lines text.now) ≡ Some front.header.steps) }
    ensures spill { IfOk result (λ front. spill_of (lines text.now) ≡ Some front.header.spill) }
    ensures rest { IfOk result (λ front. lines front.rest.now ≡ drop 3 (lines text.now)) }
    ensures shorter { IfOk result (λ front. length front.rest.now ≤ length text.now) }
    ensures refused { IfErr result (λ e. IsRefusal e (header_refusal (lines text.now))) }
{
    let (format, behind) = front_line(text);
    if format != b"# psi 1".as_slice() {
        return Err(AsmError::at(1, FORMAT));
    }
    let (second, behind) = front_line(behind);
    let Some(steps) = number_behind(b"# steps ", 9223372036854775807, second) else {
        return Err(AsmError::at(2, STEPS));
    };
    let (third, rest) = front_line(behind);
    let Some(spill) = number_behind(b"# spill ", MOST_WORDS, third) else {
        return Err(AsmError::at(3, SPILL));
    };
    Ok(Front {
        header: Header { steps, spill },
        rest,
    })
}
