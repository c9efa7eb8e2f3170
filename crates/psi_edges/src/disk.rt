// Real files as a shelf.
ghost use Rattle.std.specs.Prelude.{◌≡◌, ◌+◌, ◌-◌, ◌<◌, ◌≤◌, ◌^◌, length, IfOk, IsSomeAnd, MatchResult, None, OnErr};
ghost use Rattle.psi_edges.specs.Limits.{longest_name};
ghost use Rattle.psi_edges.specs.Causes.{HasCause, raised};
ghost use Rattle.psi_edges.specs.Files.{Gives, OnFile};
ghost use Rattle.psi_edges.specs.Counts.{no_counts};

use crate::failed::Failed;
use crate::kept_name::KeptName;
use crate::open_file::OpenFile;
use crate::shelf::Shelf;
use crate::tally::Tally;
use std::marker::Model;
use std::rt::Files;
use std::{fs, io};

/// The files that the runtime reaches, by their paths. It tells nothing of their content. The file from which it
/// read last stays open: a `take` that goes on where it stands only reads, one from another place of it seeks first,
/// and one of another name opens that file. So a file that is taken from front to end is opened once, and may be a
/// pipe. A call fails where an opening, a seek or a read is refused, and then no file stays open.
#[derive(Drop)]
pub struct DiskShelf<'a, R: Files> {
    files: &'a R,
    last: LastFile<R::File>,
    tally: Tally,
}

/// The file that was read last, if it is open still, and its name.
#[derive(Drop)]
struct LastFile<F> {
    name: KeptName,
    file: Option<OpenFile<F>>,
}

impl<'a, R: Files> Model for DiskShelf<'a, R> {
    ghost use Rattle.psi_edges.specs.Counts.{Counts, counts_code};

    ghost Value = { Counts };

    ghost coded = { counts_code };

    ghost view = { λ s. s.tally };
}

impl<'a, R: Files> DiskShelf<'a, R> {
    /// The shelf over what the runtime offers for files.
    pub fn new(files: &'a R) -> DiskShelf<'a, R>
        ensures { result ≡ no_counts }
    {
        DiskShelf {
            files,
            last: LastFile {
                name: KeptName::new(),
                file: None,
            },
            tally: Tally::new(),
        }
    }
}

impl<'a, R: Files> Shelf for DiskShelf<'a, R> {
    ghost files = { λ _. None };

    ghost faults = { λ s. s.faults };

    ghost failed_name = { λ s. s.failed_name };

    ghost given = { λ s. s.given };

    ghost takes = { λ _ _ _ _ _. Unit {0} };

    fn take(&mut self, name: &str, at: u64, into: &mut [u8]) -> Result<usize, Failed>
        requires short_name { length name.now ≤ longest_name }
        requires near { at ≤ 2 ^ 32 }
        requires room { 0 < length into.old }
        ensures within { IfOk result (λ count. count ≤ length into.old) }
        ensures bytes { IfOk result (λ count. OnFile None name.now (λ file. Gives file at count into.new)) }
        ensures faults { MatchResult result
            (λ _. self.new.faults ≡ self.old.faults) (λ _. self.new.faults ≡ raised self.old.faults 1) }
        ensures failed_name { MatchResult result
            (λ _. self.new.failed_name ≡ self.old.failed_name) (λ _. self.new.failed_name ≡ name.now) }
        ensures given { MatchResult result
            (λ count. self.new.given ≡ raised self.old.given count) (λ _. self.new.given ≡ self.old.given) }
        ensures cause { HasCause self.old.faults self.new.faults result }
        ensures more_given { self.old.given ≤ self.new.given }
        ensures bounded { self.new.given ≤ 2 ^ 64 - 1 }
    {
        match read_at(self.files, &mut self.last, name, at, into) {
            Ok(count) => {
                self.tally.give(count);
                Ok(count)
            }
            Err(_) => {
                self.tally.fail(name);
                Err(Failed)
            }
        }
    }
}

/// Reads once from byte `at` of the file `name` on, which is opened unless it is the last one.
fn read_at<R: Files>(
    files: &R,
    last: &mut LastFile<R::File>,
    name: &str,
    at: u64,
    into: &mut [u8],
) -> io::Result<usize>
    requires short_name { length name.now ≤ longest_name }
    requires near { at ≤ 2 ^ 32 }
    ensures within { IfOk result (λ count. count ≤ length into.new) }
    ensures named { IfOk result (λ _. last.new.name ≡ name.now) }
    ensures stands { IfOk result (λ count. IsSomeAnd last.new.file (λ file. file.at ≡ at + count)) }
    ensures let_go { OnErr result (last.new.file ≡ None) }
{
    let mut file = match last.file.take() {
        Some(file) if last.name.is(name) => file,
        _ => {
            last.name.set(name);
            OpenFile::new(fs::open(files, name)?)
        }
    };
    let count = file.read_from(at, into)?;
    last.file = Some(file);
    Ok(count)
}
