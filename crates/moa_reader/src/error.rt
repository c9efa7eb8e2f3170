// Why a text has no program.
ghost use Rattle.std.specs.Prelude.{◌≡◌};

use shapes_core::NoMemory;
use text_tokens::Position;

/// Why a text has no program: it is refused at a position with a cause, or memory was wanted.
#[derive(Clone, Copy, Debug, PartialEq, Eq)]
pub enum ReadError {
    Text { at: Position, cause: u8 },
    Memory,
}

impl From<NoMemory> for ReadError {
    ghost use Rattle.moa_reader.specs.declared.error.ReadError.TheVariants.{Memory};

    ghost from_gives = { λ _ error. error ≡ Memory };

    fn from(_error: NoMemory) -> ReadError {
        ReadError::Memory
    }
}
