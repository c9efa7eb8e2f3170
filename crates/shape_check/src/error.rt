// Why a program is refused.
ghost use Rattle.std.specs.Prelude.{◌≡◌};

use shapes_core::NoMemory;
use text_tokens::Position;

/// Why a program is refused: a shape rule is broken; a limit is exceeded by this value, of which one of more than
/// 64 bits is given as the greatest that has 64, with a position where it is a limit of one shape; or memory was wanted.
#[derive(Clone, Copy, Debug, PartialEq, Eq)]
pub enum CheckError {
    Rule {
        at: Position,
        rule: u8,
    },
    Limit {
        at: Option<Position>,
        which: u8,
        value: u64,
    },
    Memory,
}

impl From<NoMemory> for CheckError {
    ghost use Rattle.shape_check.specs.declared.error.CheckError.TheVariants.{Memory};

    ghost from_gives = { λ _ error. error ≡ Memory };

    fn from(_error: NoMemory) -> CheckError {
        CheckError::Memory
    }
}
