// Calls of the program over files and sinks in memory.
ghost use Rattle.std.specs.Prelude.{◌≤◌};

use psi_edges::{MemoryShelf, MemorySink};
use psi_top::psi;
use shapes_core::NoMemory;
use std::alloc::Global;
use std::collections::BTreeMap;

/// The room of a sink: more than the longest text that a row has.
const ROOM: u64 = 2097152;

/// The files of a row, by their names.
pub type Files = BTreeMap<String, Vec<u8>>;

/// What fails in a call: the numbers of a take and of puts, from 1, and the room and the pieces of the sinks.
#[derive(Clone, Copy)]
pub struct Plan {
    pub take: u64,
    pub out: u64,
    pub err: u64,
    pub out_room: u64,
    pub err_room: u64,
    pub piece: u64,
}

impl Plan {
    /// Nothing fails, and there is room.
    pub const fn sound() -> Plan {
        Plan {
            take: 0,
            out: 0,
            err: 0,
            out_room: ROOM,
            err_room: ROOM,
            piece: ROOM,
        }
    }
}

/// What a call answered and put.
#[derive(Drop)]
pub struct Answer {
    pub status: u8,
    pub out: Vec<u8>,
    pub err: Vec<u8>,
}

impl Answer {
    /// That of a call that put nothing.
    pub fn nothing(alloc: Global) -> Answer {
        Answer {
            status: 0,
            out: Vec::new(alloc),
            err: Vec::new(alloc),
        }
    }
}

/// A shelf with these files.
fn shelf_of(alloc: Global, files: &Files) -> Result<MemoryShelf, NoMemory> {
    let mut shelf = MemoryShelf::new(alloc);
    for (name, bytes) in files.iter() {
        shelf.add(name.as_str(), bytes)?;
    }
    Ok(shelf)
}

/// The words of a line.
fn words_of(alloc: Global, line: &str) -> Result<Vec<String>, NoMemory> {
    let mut words = Vec::new(alloc);
    for word in line.split_whitespace() {
        words.push(String::from_str(alloc, word)?)?;
    }
    Ok(words)
}

/// Calls the program with the words of this line.
pub fn call(alloc: Global, files: &Files, plan: Plan, line: &str) -> Result<Answer, NoMemory> {
    let words = words_of(alloc, line)?;
    let mut shelf = shelf_of(alloc, files)?;
    shelf.fail_at(plan.take)?;
    let piece = plan.piece.max(1);
    let mut out = MemorySink::new(alloc, plan.out_room, piece)?;
    out.fail_at(plan.out)?;
    let mut err = MemorySink::new(alloc, plan.err_room, piece)?;
    err.fail_at(plan.err)?;
    let status = psi(alloc, &words, &mut shelf, &mut out, &mut err);
    Ok(Answer {
        status: status.byte(),
        out: Vec::from_slice(alloc, out.held())?,
        err: Vec::from_slice(alloc, err.held())?,
    })
}
