// Why there is no run of an assembly text, or none to its end, and how that is said.
ghost use Rattle.std.specs.Prelude.{◌≡◌, ℕ, List, Some};
ghost use Rattle.psi_top.specs.Answer.{failed_run};
ghost use Rattle.psi_top.specs.Line.{assembly_words, data_words};
ghost use Rattle.psi_top.specs.Outcome.{line_of, status_of};

use crate::message::{Excess, LinePlace};
use crate::status::Status;
use std::fmt;

/// Why an assembly text is refused, by the number of the cause, from 1 on.
const ASSEMBLY_CAUSES: [&str; 12] = [
    "the header is missing",
    "the steps are wanted",
    "the spill is wanted",
    "the area row is malformed",
    "the area is repeated",
    "this is no line of the machine",
    "the operands are malformed",
    "the immediate is out of range",
    "the label is repeated",
    "the label is not defined",
    "the target is too far",
    "the area is too large",
];

/// Why an array file is refused, by the number of the cause, from 1 on.
const DATA_CAUSES: [&str; 9] = [
    "these bytes form no token",
    "the number is out of range",
    "an array is wanted",
    "an extent is malformed",
    "the array is not declared",
    "the array is repeated",
    "the shape differs",
    "a value is wanted",
    "an input is missing",
];

/// The greatest number of words in the block of an assembly text.
pub(crate) const GREATEST_BLOCK: u64 = 4194304;

/// Why there is no run of an assembly text, or none to its end. Lines count from 1.
#[derive(Clone, Copy)]
pub(crate) enum RunFailure {
    /// The text is refused, for this cause on this line.
    Assembly { line: u32, cause: u8 },
    /// The text wants a block of so many words, which are too many.
    Block { words: u64 },
    /// The array file is refused, for this cause on this line.
    Data { line: u32, cause: u8 },
    /// The instruction on this line loads or stores at this address, where it may not.
    Access { line: u32, address: u64 },
    /// The run came to this address, which is that of no instruction.
    OffText { address: u64 },
    /// The instruction on this line is `ecall` or `ebreak`.
    Trap { line: u32 },
    /// All steps were made.
    Budget { steps: u64 },
}

/// The words for a cause of an assembly text.
#[tactic(auto, unfolding(crate::specs::Line::assembly_words))]
fn assembly_words(cause: u8) -> &'static str
    ensures { result.now ≡ assembly_words cause }
{
    let causes: [&str; 12] = ASSEMBLY_CAUSES;
    causes
        .get((cause as usize).saturating_sub(1))
        .copied()
        .unwrap_or("")
}

/// The words for a cause of an array file.
#[tactic(auto, unfolding(crate::specs::Line::data_words))]
fn data_words(cause: u8) -> &'static str
    ensures { result.now ≡ data_words cause }
{
    let causes: [&str; 9] = DATA_CAUSES;
    causes
        .get((cause as usize).saturating_sub(1))
        .copied()
        .unwrap_or("")
}

impl RunFailure {
    pub(crate) fn status(self) -> Status
        ensures { (name : List ℕ) → result ≡ status_of (failed_run name self) }
    {
        match self {
            RunFailure::Block { .. } => Status::LIMIT,
            RunFailure::Data { .. } => Status::NO_ARRAYS,
            RunFailure::Assembly { .. } => Status::NO_ASSEMBLY,
            RunFailure::Access { .. }
            | RunFailure::OffText { .. }
            | RunFailure::Trap { .. }
            | RunFailure::Budget { .. } => Status::STOPPED,
        }
    }
}

/// A failure with the name of the file that it is said of.
#[derive(Clone, Copy)]
pub(crate) struct FailedRun<'a> {
    pub(crate) name: &'a str,
    pub(crate) failure: RunFailure,
}

impl fmt::Display for FailedRun<'_> {
    ghost output = { λ run. Some (line_of (failed_run run.name.now run.failure)) };

    fn fmt<W: fmt::Write>(&self, f: &mut fmt::Formatter<W>) -> fmt::Result {
        let name = self.name;
        match self.failure {
            RunFailure::Assembly { line, cause } => {
                let at = LinePlace { name, line };
                writeln!(f, "{at}assembly {cause}: {}", assembly_words(cause))
            }
            RunFailure::Block { words } => {
                let excess = Excess {
                    which: 10,
                    value: words,
                    most: GREATEST_BLOCK,
                };
                write!(f, "{name}: {excess}")
            }
            RunFailure::Data { line, cause } => {
                let at = LinePlace { name, line };
                writeln!(f, "{at}data {cause}: {}", data_words(cause))
            }
            RunFailure::Access { line, address } => {
                let at = LinePlace { name, line };
                writeln!(f, "{at}stopped: access {address}")
            }
            RunFailure::OffText { address } => writeln!(f, "{name}: stopped: off text {address}"),
            RunFailure::Trap { line } => writeln!(f, "{}stopped: trap", LinePlace { name, line }),
            RunFailure::Budget { steps } => writeln!(f, "{name}: stopped: budget {steps}"),
        }
    }
}
