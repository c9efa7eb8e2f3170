// The program: the words that it is started with, real files and the standard streams.
ghost use Rattle.std.specs.Prelude.{◌≡◌, ◌≢◌, ℕ, ◌⊎◌, List, [], ◌∷◌, Contains};
ghost use Rattle.std.specs.IoError.{error_kind};
ghost use Rattle.std.specs.Process.{exit_status};
ghost use Rattle.psi_top.specs.Outcome.{IsDue, Outcome};
ghost use Rattle.psi_top.specs.Put.{IsPut};
ghost use Rattle.psi_top.specs.Views.{shelf_view, sink_view};

use crate::program::psi;
use crate::status::Status;
use psi_edges::{DiskShelf, ErrSink, OutSink, Shelf, Sink};
use std::env::Env;
use std::io::{ErrorKind, Stderr, Stdout};
use std::process::ExitCode;
use std::rt::Files;
use std::{env, io};

/// The words that the program is started with, without its own name.
fn words<R: Env + AllocGlobal>(rt: &R) -> io::Result<Vec<String>> {
    let mut words = Vec::new(rt.alloc());
    for word in env::args(rt)?.skip(1) {
        words.push(word)?;
    }
    Ok(words)
}

/// With what the program ends where its words cannot be had: there is no memory for them, or they are no text.
fn status_without_words(error: &io::Error) -> Status
    ensures memory { error_kind error.now ≡ ErrorKind.OutOfMemory → result ≡ 10 }
    ensures no_text { error_kind error.now ≢ ErrorKind.OutOfMemory → result ≡ 1 }
    ensures among { Contains (1 ∷ 10 ∷ []) result }
{
    if error.kind() == ErrorKind::OutOfMemory {
        return Status::NO_MEMORY;
    }
    Status::MISUSE
}

/// Runs the command that the program is started with. Where its words cannot be had, nothing is put.
fn run_over<R: Env + AllocGlobal, F: Shelf, K: Sink, E: Sink>(
    rt: &R,
    shelf: &mut F,
    out: &mut K,
    err: &mut E,
) -> ExitCode
    ensures { ((words : List (List ℕ)) × (outcome : Outcome)
        × IsDue words (shelf_view F.Shelf shelf.old) (shelf_view F.Shelf shelf.new) outcome
        × IsPut outcome (sink_view K.Sink out.old) (sink_view K.Sink out.new)
        (sink_view E.Sink err.old) (sink_view E.Sink err.new) (exit_status result))
        ⊎ (Contains (1 ∷ 10 ∷ []) (exit_status result)
        × (shelf.new ≡ shelf.old) × (out.new ≡ out.old) × (err.new ≡ err.old)) }
{
    let status = match words(rt) {
        Ok(words) => psi(rt.alloc(), &words, shelf, out, err),
        Err(error) => status_without_words(&error),
    };
    ExitCode::from(status.byte())
}

/// Runs the command that the program is started with, over real files and the standard streams.
pub fn run<R: Env + Files + AllocGlobal>(rt: &R, out: Stdout, err: Stderr) -> ExitCode {
    let mut shelf = DiskShelf::new(rt);
    let mut out = OutSink::new(out);
    let mut err = ErrSink::new(err);
    run_over(rt, &mut shelf, &mut out, &mut err)
}
