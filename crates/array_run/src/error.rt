// Why a run gives no arrays.
ghost use Rattle.std.specs.Prelude.{◌≡◌};

use array_text::DataError;
use shapes_core::NoMemory;
use std::alloc::{AllocError, AllocFailed};

/// Why a run gives no arrays: the array file is refused at a line, with a cause of `array_text`;
/// the machine did not get to the end of the text; or memory was wanted. Lines of a text count
/// from 1.
#[derive(Clone, Copy, Debug, PartialEq, Eq)]
pub enum RunError {
    /// The array file is refused.
    Data { line: u32, cause: u8 },
    /// The instruction on this line of the text loads or stores at this address, which is not
    /// aligned or outside the block.
    Access { line: u32, address: u64 },
    /// The machine came to this address, which is that of no instruction.
    OffText { address: u64 },
    /// The instruction on this line of the text is `ecall` or `ebreak`.
    Trap { line: u32 },
    /// All steps were made, and the end was not reached.
    Budget { steps: u64 },
    Memory,
}

impl From<NoMemory> for RunError {
    ghost use Rattle.array_run.specs.declared.error.RunError.TheVariants.{Memory};

    ghost from_gives = { λ _ error. error ≡ Memory };

    fn from(_error: NoMemory) -> RunError {
        RunError::Memory
    }
}

impl From<AllocError> for RunError {
    ghost use Rattle.array_run.specs.declared.error.RunError.TheVariants.{Memory};

    ghost from_gives = { λ _ error. error ≡ Memory };

    fn from(_error: AllocError) -> RunError {
        RunError::Memory
    }
}

impl<T: Drop> From<AllocFailed<T>> for RunError {
    ghost use Rattle.array_run.specs.declared.error.RunError.TheVariants.{Memory};

    ghost from_gives = { λ _ error. error ≡ Memory };

    fn from(_error: AllocFailed<T>) -> RunError {
        RunError::Memory
    }
}

impl From<DataError> for RunError {
    ghost use Rattle.array_run.specs.Errors.{of_data};

    ghost from_gives = { λ reading error. error ≡ of_data reading };

    fn from(error: DataError) -> RunError {
        match error {
            DataError::Text { line, cause } => RunError::Data { line, cause },
            DataError::Memory => RunError::Memory,
        }
    }
}
