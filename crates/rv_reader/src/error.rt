// Why a text is not read.
use shapes_core::NoMemory;
use std::alloc::{AllocError, AllocFailed};

/// The causes of the header's three lines.
pub(crate) const FORMAT: u8 = 1;

pub(crate) const STEPS: u8 = 2;

pub(crate) const SPILL: u8 = 3;

/// The causes of a line of the body, and of a target.
pub(crate) const UNKNOWN: u8 = 6;

pub(crate) const MALFORMED: u8 = 7;

pub(crate) const OUT_OF_RANGE: u8 = 8;

pub(crate) const REPEATED: u8 = 9;

pub(crate) const UNDEFINED: u8 = 10;

pub(crate) const TOO_FAR: u8 = 11;

/// A text that is refused, on a line counted from 1, or memory that was wanted and could not be had. The causes are
/// those of the format: 1 to 3 the header's lines; 4 a malformed row, 12 an area that is too large, 5 its name again; 6 no
/// line of the machine, 7 its operands, 8 its immediate, 9 a label again; 10 a label that is not defined, 11 one too far.
#[derive(Clone, Copy, Debug, PartialEq, Eq)]
pub enum AsmError {
    Text { line: u32, cause: u8 },
    Memory,
}

impl AsmError {
    ghost use Rattle.std.specs.Prelude.{◌≡◌};
    ghost use Rattle.rv_reader.specs.declared.error.AsmError.TheVariants as asm;

    /// A text that is refused on this line with this cause.
    pub(crate) fn at(line: u32, cause: u8) -> AsmError
        ensures { result ≡ asm.Text line cause }
    {
        AsmError::Text { line, cause }
    }
}

impl From<NoMemory> for AsmError {
    ghost use Rattle.std.specs.Prelude.{◌≡◌};
    ghost use Rattle.rv_reader.specs.declared.error.AsmError.TheVariants as asm;

    ghost from_gives = { λ _ e. e ≡ asm.Memory };

    fn from(_error: NoMemory) -> AsmError {
        AsmError::Memory
    }
}

impl From<AllocError> for AsmError {
    ghost use Rattle.std.specs.Prelude.{◌≡◌};
    ghost use Rattle.rv_reader.specs.declared.error.AsmError.TheVariants as asm;

    ghost from_gives = { λ _ e. e ≡ asm.Memory };

    fn from(_error: AllocError) -> AsmError {
        AsmError::Memory
    }
}

impl<T: Drop> From<AllocFailed<T>> for AsmError {
    ghost use Rattle.std.specs.Prelude.{◌≡◌};
    ghost use Rattle.rv_reader.specs.declared.error.AsmError.TheVariants as asm;

    ghost from_gives = { λ _ e. e ≡ asm.Memory };

    fn from(_failed: AllocFailed<T>) -> AsmError {
        AsmError::Memory
    }
}
