// What one line of the body is.
ghost use Rattle.std.specs.Prelude.{◌≡◌, codes};
ghost use Rattle.rv_reader.specs.BodyLines.{codes_draft, defines_label, instruction_of, is_global, means_nothing, reading_of, reading_of_core};
ghost use Rattle.rv_reader.specs.Cuts.{same, since, without_lead};
ghost use Rattle.rv_reader.specs.Lines.{reading_result};

use crate::cuts::{Mark, core_of, cut, without_lead};
use crate::draft::Draft;
use crate::instruction::instruction_of;
use crate::operands::is_label;

/// What a line is.
#[derive(Clone, Copy)]
pub(crate) enum Reading<'a> {
    Nothing,
    Defines(&'a [u8]),
    Codes(Draft<'a>),
}

fn is_global(core: &[u8]) -> bool
    ensures { result ≡ is_global core.now }
{
    let (word, rest) = cut(core, Mark::Blank);
    word == b".globl".as_slice() && is_label(without_lead(rest))
}

fn means_nothing(core: &[u8]) -> bool
    ensures { result ≡ means_nothing core.now }
{
    core == b"".as_slice() || core == b".text".as_slice() || is_global(core)
}

fn defines_label(core: &[u8]) -> bool
    ensures { result ≡ defines_label core.now }
{
    let (name, rest) = cut(core, Mark::Colon);
    is_label(name) && rest == b":".as_slice()
}

fn code_of<'a>(core: &'a [u8]) -> Result<Reading<'a>, u8>
    ensures { reading_result result ≡ codes_draft (instruction_of core.now) }
{
    match instruction_of(core) {
        Ok(draft) => Ok(Reading::Codes(draft)),
        Err(cause) => Err(cause),
    }
}

fn reading_of_core<'a>(core: &'a [u8]) -> Result<Reading<'a>, u8>
    ensures { reading_result result ≡ reading_of_core core.now }
{
    if means_nothing(core) {
        return Ok(Reading::Nothing);
    }
    if defines_label(core) {
        return Ok(Reading::Defines(cut(core, Mark::Colon).0));
    }
    code_of(core)
}

/// What a line is, or the cause with which it is refused.
pub(crate) fn reading_of<'a>(line: &'a [u8]) -> Result<Reading<'a>, u8>
    ensures { reading_result result ≡ reading_of line.now }
{
    reading_of_core(core_of(line))
}
