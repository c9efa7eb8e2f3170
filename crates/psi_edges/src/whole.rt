// Whole files in and whole texts out, over any shelf and any sink.
ghost use Rattle.std.specs.Prelude.{◌≡◌, ◌≢◌, ℕ, ◌+◌, ◌-◌, ◌^◌, ◌<◌, ◌≤◌, ◌++◌, List, length, take, IfOk, OnOk, OnErr, IsErrOf, vec_len};
ghost use Rattle.psi_edges.specs.Limits.{longest_name};
ghost use Rattle.psi_edges.specs.Calls.{AreAsked, AreOffered, IsAsked};
ghost use Rattle.psi_edges.specs.Causes.{HasCause, Rose, raised};
ghost use Rattle.psi_edges.specs.Files.{OnFile, IsNext};
ghost use Rattle.psi_edges.specs.Held.{Appends, AppendsFront};

use crate::failed::Failed;
use crate::shelf::Shelf;
use crate::sink::Sink;
use std::alloc::{AllocError, Global};

/// The greatest number of bytes that one call of a shelf is asked for.
const PIECE: usize = 4096;

/// Why a whole file could not be had: a call of the shelf failed, the file is longer than the limit, or
/// memory was wanted.
#[derive(Clone, Copy, Debug, PartialEq, Eq)]
pub enum Fetch {
    Fault,
    TooLong,
    Memory,
}

impl From<AllocError> for Fetch {
    ghost use Rattle.psi_edges.specs.declared.whole.Fetch.TheVariants.{Memory};

    ghost from_gives = { λ _ error. error ≡ Memory };

    fn from(_error: AllocError) -> Fetch {
        Fetch::Memory
    }
}

/// A call of the sink failed. The sink holds a part of what was to be written.
#[derive(Clone, Copy, Debug, PartialEq, Eq)]
pub struct WriteFault;

/// The whole file `name`, of at most `limit` bytes. It takes until the file ends or one byte more than the limit
/// was given, and the memory grows with what was given.
pub fn read_whole<F: Shelf>(
    alloc: Global,
    shelf: &mut F,
    name: &str,
    limit: u64,
) -> Result<Vec<u8>, Fetch>
    requires short_name { length name.now ≤ longest_name }
    requires small_limit { limit < 2 ^ 32 }
    ensures short { IfOk result (λ bytes. vec_len bytes ≤ limit) }
    // Where the shelf tells its files, the whole file comes, and `TooLong` exactly for a longer one.
    ensures whole { IfOk result (λ bytes. OnFile (F.files shelf.old) name.now (λ file. bytes.items ≡ file)) }
    ensures too_long { IsErrOf result Fetch.TooLong →
        OnFile (F.files shelf.old) name.now (λ file. limit < length file) }
    // When the other errors come.
    ensures fault { IsErrOf result Fetch.Fault →
        Rose (F.faults shelf.old) (F.faults shelf.new) × (F.failed_name shelf.new ≡ name.now) }
    // Which calls it makes, and how many bytes were given.
    ensures asked { (count : ℕ) × AreAsked F.takes (limit + 1) shelf.old count shelf.new
        × IfOk result (λ bytes. vec_len bytes ≡ count) }
    ensures given { IfOk result (λ bytes. F.given shelf.new ≡ raised (F.given shelf.old) (vec_len bytes)) }
    ensures counted { IsErrOf result Fetch.TooLong → F.given shelf.new ≡ raised (F.given shelf.old) (limit + 1) }
    ensures more_given { F.given shelf.old ≤ F.given shelf.new }
    ensures most_given { F.given shelf.new ≤ raised (F.given shelf.old) (limit + 1) }
    // What stays.
    ensures faults { result ≢ Err Fetch.Fault → F.faults shelf.new ≡ F.faults shelf.old }
    ensures failed_name { result ≢ Err Fetch.Fault → F.failed_name shelf.new ≡ F.failed_name shelf.old }
    ensures later { F.faults shelf.old ≤ F.faults shelf.new }
    ensures unchanged { F.files shelf.new ≡ F.files shelf.old }
{
    let most = limit + 1;
    let mut bytes = Vec::new(alloc);
    while (bytes.len() as u64) < most {
        let count = take_piece(shelf, name, &mut bytes, most)?;
        if count == 0 {
            return Ok(bytes);
        }
    }
    Err(Fetch::TooLong)
}

/// Takes the piece of the file `name` that follows `bytes`, of at most `PIECE` bytes, and appends it. It answers
/// how many bytes that were, and leaves `bytes` no longer than `most`.
fn take_piece<F: Shelf>(
    shelf: &mut F,
    name: &str,
    bytes: &mut Vec<u8>,
    most: u64,
) -> Result<usize, Fetch>
    requires short_name { length name.now ≤ longest_name }
    requires room { vec_len bytes.old < most }
    requires small { most ≤ 2 ^ 32 }
    ensures next { IfOk result (λ count. OnFile (F.files shelf.old) name.now
        (λ file. IsNext file bytes.old.items count bytes.new.items)) }
    ensures asked { (count : ℕ) × IsAsked F.takes most (vec_len bytes.old) shelf.old count shelf.new
        × IfOk result (λ given. given ≡ count) }
    ensures within { OnOk result (vec_len bytes.new ≤ most) }
    ensures grown { IfOk result (λ count. vec_len bytes.new ≡ vec_len bytes.old + count) }
    ensures given { IfOk result (λ count. F.given shelf.new ≡ raised (F.given shelf.old) count) }
    ensures more_given { F.given shelf.old ≤ F.given shelf.new }
    ensures most_given { F.given shelf.new ≤ raised (F.given shelf.old) (most - vec_len bytes.old) }
    ensures fits { result ≢ Err Fetch.TooLong }
    ensures fault { IsErrOf result Fetch.Fault →
        Rose (F.faults shelf.old) (F.faults shelf.new) × (F.failed_name shelf.new ≡ name.now) }
    ensures faults { result ≢ Err Fetch.Fault → F.faults shelf.new ≡ F.faults shelf.old }
    ensures failed_name { result ≢ Err Fetch.Fault → F.failed_name shelf.new ≡ F.failed_name shelf.old }
    ensures later { F.faults shelf.old ≤ F.faults shelf.new }
    ensures unchanged { F.files shelf.new ≡ F.files shelf.old }
{
    let mut piece = [0u8; PIECE];
    let at = bytes.len() as u64;
    let want = (most - at).min(PIECE as u64) as usize;
    match shelf.take(name, at, &mut piece[..want]) {
        Err(Failed) => Err(Fetch::Fault),
        Ok(count) => {
            bytes.extend_from_slice(&piece[..count])?;
            Ok(count)
        }
    }
}

/// Appends all of `bytes` to the sink. It hands each `put` all that is left, and takes no memory.
pub fn write_whole<K: Sink>(sink: &mut K, bytes: &[u8]) -> Result<(), WriteFault>
    ensures offered { (done : ℕ) × AreOffered K.puts bytes.now sink.old done sink.new
        × OnOk result (done ≡ length bytes.now) }
    ensures whole { OnOk result (Appends (K.held sink.old) (K.held sink.new) bytes.now) }
    ensures part { OnErr result (AppendsFront (K.held sink.old) (K.held sink.new) bytes.now) }
    ensures cause { HasCause (K.faults sink.old) (K.faults sink.new) result }
{
    let mut done = 0;
    while done < bytes.len() {
        match sink.put(&bytes[done..]) {
            Err(Failed) => return Err(WriteFault),
            Ok(count) => done += count,
        }
    }
    Ok(())
}
