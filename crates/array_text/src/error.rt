// Why an array file is not read.
ghost use Rattle.std.specs.Prelude.{◌≡◌};

use shapes_core::NoMemory;
use std::alloc::{AllocError, AllocFailed};

/// Why an array file is not read: it is refused at a line, counted from 1, with a cause from 1 to
/// 9, or memory was wanted.
#[derive(Clone, Copy, Debug, PartialEq, Eq)]
pub enum DataError {
    Text { line: u32, cause: u8 },
    Memory,
}

impl From<NoMemory> for DataError {
    ghost use Rattle.array_text.specs.declared.error.DataError.TheVariants.{Memory};

    ghost from_gives = { λ _ error. error ≡ Memory };

    fn from(_error: NoMemory) -> DataError {
        DataError::Memory
    }
}

impl From<AllocError> for DataError {
    ghost use Rattle.array_text.specs.declared.error.DataError.TheVariants.{Memory};

    ghost from_gives = { λ _ error. error ≡ Memory };

    fn from(_error: AllocError) -> DataError {
        DataError::Memory
    }
}

impl<T: Drop> From<AllocFailed<T>> for DataError {
    ghost use Rattle.array_text.specs.declared.error.DataError.TheVariants.{Memory};

    ghost from_gives = { λ _ error. error ≡ Memory };

    fn from(_error: AllocFailed<T>) -> DataError {
        DataError::Memory
    }
}
