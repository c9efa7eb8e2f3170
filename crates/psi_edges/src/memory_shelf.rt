// Files in memory as a shelf.
ghost use Rattle.std.specs.Prelude.{◌≡◌, ◌↔◌, ◌-◌, ◌^◌, ◌<◌, ◌≤◌, ◌++◌, ◌∷◌, [], Some, length, min, IsErr, IsTrue, IsSomeAnd, IfOk, OnOk, OnErr, MatchResult};
ghost use Rattle.std.specs.Option.{option_map};
ghost use Rattle.std.specs.FinMap.{get, insert};
ghost use Rattle.psi_edges.specs.Limits.{longest_name};
ghost use Rattle.psi_edges.specs.Causes.{HasCause, raised};
ghost use Rattle.psi_edges.specs.Files.{Gives};
ghost use Rattle.psi_edges.specs.Memory.{empty_shelf, files_of, take_fails};

use crate::failed::Failed;
use crate::shelf::Shelf;
use crate::tally::Tally;
use shapes_core::NoMemory;
use std::alloc::Global;
use std::collections::BTreeMap;
use std::marker::Model;

/// Files in memory. It tells them, and the calls that are named fail.
#[derive(Drop)]
pub struct MemoryShelf {
    alloc: Global,
    entries: BTreeMap<String, Vec<u8>>,
    failing: Vec<u64>,
    calls: u64,
    tally: Tally,
}

impl Model for MemoryShelf {
    ghost use Rattle.psi_edges.specs.Memory.{ShelfState, shelf_code, files_of};

    ghost Value = { ShelfState };

    ghost coded = { shelf_code };

    ghost view = { λ s. record {
      files = files_of s.entries.entries;
      failing = s.failing.items;
      calls = s.calls;
      faults = s.tally.faults;
      failed_name = s.tally.failed_name;
      given = s.tally.given;
    } };
}

impl MemoryShelf {
    /// A shelf with no file, of which no call fails.
    pub fn new(alloc: Global) -> MemoryShelf
        ensures { result ≡ empty_shelf }
    {
        MemoryShelf {
            alloc,
            entries: BTreeMap::new(alloc),
            failing: Vec::new(alloc),
            calls: 0,
            tally: Tally::new(),
        }
    }

    /// Puts a file in, in place of one of the same name.
    pub fn add(&mut self, name: &str, bytes: &[u8]) -> Result<(), NoMemory>
        ensures ok { OnOk result (self.new ≡ record self.old { files = insert self.old.files name.now bytes.now }) }
        ensures err { OnErr result (self.new ≡ self.old) }
    {
        insert_copy(&mut self.entries, self.alloc, name, bytes)
    }

    /// Makes the `take` of this number fail. The first is 1, and numbers stay at 2^64 - 1 once that is reached.
    pub fn fail_at(&mut self, call: u64) -> Result<(), NoMemory>
        ensures ok { OnOk result (self.new ≡ record self.old { failing = self.old.failing ++ call ∷ [] }) }
        ensures err { OnErr result (self.new ≡ self.old) }
    {
        self.failing.push(call)?;
        Ok(())
    }
}

impl Shelf for MemoryShelf {
    ghost files = { λ s. Some s.files };

    ghost faults = { λ s. s.faults };

    ghost failed_name = { λ s. s.failed_name };

    ghost given = { λ s. s.given };

    ghost takes = { λ _ _ _ _ _. Unit {0} };

    fn take(&mut self, name: &str, at: u64, into: &mut [u8]) -> Result<usize, Failed>
        requires short_name { length name.now ≤ longest_name }
        requires near { at ≤ 2 ^ 32 }
        requires room { 0 < length into.old }
        ensures fails { IsErr result ↔ IsTrue (take_fails self.old name.now) }
        ensures exact { IfOk result (λ count. IsSomeAnd (get self.old.files name.now)
            (λ file. count ≡ min (length file - at) (length into.old))) }
        ensures after { MatchResult result
            (λ count. self.new ≡ record self.old { calls = raised self.old.calls 1; given = raised self.old.given count })
            (λ _. self.new ≡ record self.old {
              calls = raised self.old.calls 1;
              faults = raised self.old.faults 1;
              failed_name = name.now;
            }) }
        ensures within { IfOk result (λ count. count ≤ length into.old) }
        ensures bytes { IfOk result (λ count. IsSomeAnd (get self.old.files name.now)
            (λ file. Gives file at count into.new)) }
        ensures cause { HasCause self.old.faults self.new.faults result }
        ensures more_given { self.old.given ≤ self.new.given }
        ensures bounded { self.new.given ≤ 2 ^ 64 - 1 }
    {
        self.calls = self.calls.saturating_add(1);
        let named = self.failing.contains(&self.calls);
        match file_of(&self.entries, name) {
            Some(file) if !named => {
                let count = copy_at(file, at, into);
                self.tally.give(count);
                Ok(count)
            }
            _ => {
                self.tally.fail(name);
                Err(Failed)
            }
        }
    }
}

/// Puts a copy of the file in, in place of one of the same name.
fn insert_copy(
    entries: &mut BTreeMap<String, Vec<u8>>,
    alloc: Global,
    name: &str,
    bytes: &[u8],
) -> Result<(), NoMemory>
    ensures ok { OnOk result
        (files_of entries.new.entries ≡ insert (files_of entries.old.entries) name.now bytes.now) }
    ensures err { OnErr result (entries.new.entries ≡ entries.old.entries) }
{
    let key = String::from_str(alloc, name)?;
    let file = Vec::from_slice(alloc, bytes)?;
    entries.insert(key, file)?;
    Ok(())
}

/// The file of this name.
fn file_of<'a>(entries: &'a BTreeMap<String, Vec<u8>>, name: &str) -> Option<&'a [u8]>
    ensures { option_map (λ file. file.now) result ≡ get (files_of entries.now.entries) name.now }
{
    match entries.get(name) {
        Some(file) => Some(file.as_slice()),
        None => None,
    }
}

/// Copies as many bytes of the file as there are from `at` on and as `into` holds to the front of `into`.
fn copy_at(file: &[u8], at: u64, into: &mut [u8]) -> usize
    requires { 0 < length into.old }
    ensures bytes { Gives file.now at result into.new }
    ensures exact { result ≡ min (length file.now - at) (length into.old) }
{
    let from = (at as usize).min(file.len());
    let rest = &file[from..];
    let count = rest.len().min(into.len());
    into[..count].copy_from_slice(&rest[..count]);
    count
}
