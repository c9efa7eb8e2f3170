// Why a source is not compiled.
use moa_reader::ReadError;
use shape_check::CheckError;
use shapes_core::NoMemory;
use text_tokens::Position;

/// Why a source is not compiled: it is no program, for the cause that the reader has at this position; it breaks a
/// shape rule or exceeds a limit, as the check has it; it is of no form that is built, with its first name at this
/// position; or memory was wanted.
#[derive(Clone, Copy, Debug, PartialEq, Eq)]
pub enum CompileError {
    Text {
        at: Position,
        cause: u8,
    },
    Rule {
        at: Position,
        rule: u8,
    },
    Limit {
        at: Option<Position>,
        which: u8,
        value: u64,
    },
    NotBuilt {
        at: Position,
    },
    Memory,
}

impl From<ReadError> for CompileError {
    ghost use Rattle.std.specs.Prelude.{◌≡◌};
    ghost use Rattle.psi_compile.specs.Errors.{unread};

    ghost from_gives = { λ error gives. gives ≡ unread error };

    fn from(error: ReadError) -> CompileError {
        match error {
            ReadError::Text { at, cause } => CompileError::Text { at, cause },
            ReadError::Memory => CompileError::Memory,
        }
    }
}

impl From<CheckError> for CompileError {
    ghost use Rattle.std.specs.Prelude.{◌≡◌};
    ghost use Rattle.psi_compile.specs.Errors.{unchecked};

    ghost from_gives = { λ error gives. gives ≡ unchecked error };

    fn from(error: CheckError) -> CompileError {
        match error {
            CheckError::Rule { at, rule } => CompileError::Rule { at, rule },
            CheckError::Limit { at, which, value } => CompileError::Limit { at, which, value },
            CheckError::Memory => CompileError::Memory,
        }
    }
}

impl From<NoMemory> for CompileError {
    ghost use Rattle.std.specs.Prelude.{◌≡◌};
    ghost use Rattle.psi_compile.specs.declared.error.CompileError.TheVariants.{Memory};

    ghost from_gives = { λ _ gives. gives ≡ Memory };

    fn from(_error: NoMemory) -> CompileError {
        CompileError::Memory
    }
}
