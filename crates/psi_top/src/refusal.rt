// Why a command is refused, and how that is said.
ghost use Rattle.std.specs.Prelude.{◌≡◌, ◌≤◌, IfOk, Some, string_bytes};
ghost use Rattle.psi_top.specs.Answer.{IsSaid, outcome_of};
ghost use Rattle.shape_check.specs.Rules.{greatest};
ghost use Rattle.psi_top.specs.Line.{cause_words, rule_words};
ghost use Rattle.psi_top.specs.Outcome.{Outcome, line_of, status_of};
ghost use Rattle.psi_top.specs.Put.{IsLinePut};
ghost use Rattle.psi_top.specs.Views.{sink_view};

use crate::message::{Excess, Place, PlaceOrWhole};
use crate::run_failure::{FailedRun, RunFailure};
use crate::status::Status;
use psi_edges::{Sink, WriteFault, write_whole};
use shapes_core::{GREATEST_EXTENT, GREATEST_SIZE, GREATEST_WORK, MOST_AXES, MOST_WORDS, NoMemory};
use std::alloc::Global;
use std::fmt;
use text_tokens::Position;

const USAGE: &str =
    "usage: psic check FILE | show dnf|onf|nest|source FILE | compile FILE | run ASM DATA\n";

const NO_MEMORY: &str = "psic: no memory\n";

/// Why a source is refused, by the number of the cause, from 1 on.
const CAUSES: [&str; 14] = [
    "these bytes form no token",
    "the number is out of range",
    "the name is too long",
    "the version psi 1 is wanted",
    "a statement is wanted",
    "an out statement is wanted",
    "a name is wanted",
    "the sign = is wanted",
    "an expression is wanted",
    "the sign ) is wanted",
    "the sign < is wanted",
    "a number is wanted",
    "an operator is wanted",
    "the expression is nested too deep",
];

/// Why a command is refused.
#[derive(Clone, Copy)]
pub(crate) enum Refusal<'a> {
    /// The words are no command.
    Usage,
    /// A read of the file of this name failed.
    CannotRead(&'a str),
    /// The file of this name has more bytes than this limit allows.
    TooLong {
        name: &'a str,
        which: u8,
        most: u64,
    },
    /// The file of this name is no program, for this cause at this position.
    Text {
        name: &'a str,
        at: Position,
        cause: u8,
    },
    /// The program of the file of this name breaks this shape rule at this position.
    Rule {
        name: &'a str,
        at: Position,
        rule: u8,
    },
    /// The program of the file of this name exceeds this limit by this value, at this position or as a whole.
    Limit {
        name: &'a str,
        at: Option<Position>,
        which: u8,
        value: u64,
    },
    /// The file of this name is of no form that is built.
    NotBuilt {
        name: &'a str,
        at: Position,
    },
    /// The file of this name, an assembly text or its arrays, is why there is no run, or none to its end.
    Run {
        name: &'a str,
        failure: RunFailure,
    },
    /// Memory was wanted.
    Memory,
}

/// The words for a cause.
#[tactic(auto, unfolding(crate::specs::Line::cause_words))]
fn cause_words(cause: u8) -> &'static str
    ensures { result.now ≡ cause_words cause }
{
    let causes: [&str; 14] = CAUSES;
    causes
        .get((cause as usize).saturating_sub(1))
        .copied()
        .unwrap_or("")
}

/// The words for a shape rule.
#[tactic(auto, unfolding(crate::specs::Line::rule_words))]
fn rule_words(rule: u8) -> &'static str
    ensures { result.now ≡ rule_words rule }
{
    match rule {
        1 => "the name is already declared",
        2 => "the name is not declared",
        3 | 19 => "an extent is negative",
        4 => "the length is negative",
        5 => "the shapes differ",
        6 => "the index is too long",
        7 => "the index is outside the shape",
        8 | 10 => "the list is too long",
        9 => "more is taken than there is",
        11 => "more is dropped than there is",
        12 | 13 => "an axis is wanted",
        14 => "the list has the wrong length",
        15 => "the list is no permutation",
        16 => "the dimensions differ",
        17 | 21 => "an axis is wanted",
        18 => "the extents after the first differ",
        20 => "the totals differ",
        22 => "the inner extents differ",
        23 | 24 => "an axis is wanted",
        _ => "",
    }
}

/// The greatest value of a limit.
fn greatest(which: u8) -> u64
    ensures { result ≡ greatest which }
{
    match which {
        2 => MOST_AXES as u64,
        3 | 4 => GREATEST_EXTENT,
        5 => GREATEST_SIZE,
        6 => GREATEST_WORK,
        7 => MOST_WORDS,
        _ => 0,
    }
}

impl Refusal<'_> {
    fn status(self) -> Status
        ensures { result ≡ status_of (outcome_of self.entry) }
    {
        match self {
            Refusal::Usage => Status::MISUSE,
            Refusal::CannotRead(_) => Status::CANNOT_READ,
            Refusal::Text { .. } => Status::NO_PROGRAM,
            Refusal::Rule { .. } => Status::RULE,
            Refusal::TooLong { .. } | Refusal::Limit { .. } => Status::LIMIT,
            Refusal::Run { failure, .. } => failure.status(),
            Refusal::Memory => Status::NO_MEMORY,
            Refusal::NotBuilt { .. } => Status::NOT_BUILT,
        }
    }
}

impl fmt::Display for Refusal<'_> {
    ghost output = { λ refusal. Some (line_of (outcome_of refusal)) };

    fn fmt<W: fmt::Write>(&self, f: &mut fmt::Formatter<W>) -> fmt::Result {
        match *self {
            Refusal::Usage => f.write_str(USAGE),
            Refusal::CannotRead(name) => writeln!(f, "psic: cannot read {name}"),
            Refusal::TooLong { name, which, most } => {
                writeln!(f, "{name}: limit {which}: longer than {most} bytes")
            }
            Refusal::Text { name, at, cause } => {
                let at = Place { name, at };
                writeln!(f, "{at}text {cause}: {}", cause_words(cause))
            }
            Refusal::Rule { name, at, rule } => {
                let at = Place { name, at };
                writeln!(f, "{at}rule {rule}: {}", rule_words(rule))
            }
            Refusal::Limit {
                name,
                at,
                which,
                value,
            } => {
                let at = PlaceOrWhole { name, at };
                let most = greatest(which);
                write!(f, "{at}{}", Excess { which, value, most })
            }
            Refusal::NotBuilt { name, at } => writeln!(f, "{}not built", Place { name, at }),
            Refusal::Run { name, failure } => write!(f, "{}", FailedRun { name, failure }),
            Refusal::Memory => f.write_str(NO_MEMORY),
        }
    }
}

/// The line that says why a command is refused.
fn line_of(alloc: Global, refusal: Refusal<'_>) -> Result<String, NoMemory>
    ensures { IfOk result (λ line. string_bytes line ≡ line_of (outcome_of refusal.entry)) }
{
    Ok(format!(in alloc; "{refusal}")?)
}

/// Puts a line. Answers the status, or that a put failed.
pub(crate) fn put_line<E: Sink>(err: &mut E, status: Status, line: &str) -> Status
    ensures put { IsLinePut status line.now (sink_view E.Sink err.old) (sink_view E.Sink err.new) result }
    ensures later { E.faults err.old ≤ E.faults err.new }
{
    match write_whole(err, line.as_bytes()) {
        Ok(()) => status,
        Err(WriteFault) => Status::CANNOT_WRITE,
    }
}

/// Says why a command is refused, or that there is no memory to say it. The line of wrong words takes none.
pub(crate) fn refuse<E: Sink>(alloc: Global, err: &mut E, refusal: Refusal<'_>) -> Status
    ensures put { (said : Outcome) × IsSaid (outcome_of refusal.entry) said
        × IsLinePut (status_of said) (line_of said) (sink_view E.Sink err.old) (sink_view E.Sink err.new) result }
    ensures later { E.faults err.old ≤ E.faults err.new }
{
    if let Refusal::Usage = refusal {
        return put_line(err, refusal.status(), USAGE);
    }
    match line_of(alloc, refusal) {
        Ok(line) => put_line(err, refusal.status(), &line),
        Err(NoMemory) => put_line(err, Status::NO_MEMORY, NO_MEMORY),
    }
}
