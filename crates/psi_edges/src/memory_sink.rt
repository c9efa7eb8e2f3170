// A list of bytes in memory as a sink.
ghost use Rattle.std.specs.Prelude.{◌≡◌, ◌↔◌, ◌-◌, ◌^◌, ◌<◌, ◌≤◌, ◌++◌, ◌∷◌, [], Some, length, take, min, IsErr, IsTrue, IfOk, OnOk, OnErr, MatchResult};
ghost use Rattle.psi_edges.specs.Causes.{HasCause, raised};
ghost use Rattle.psi_edges.specs.Held.{Puts};
ghost use Rattle.psi_edges.specs.Memory.{empty_sink, put_fails};

use crate::failed::Failed;
use crate::sink::Sink;
use shapes_core::NoMemory;
use std::alloc::Global;
use std::marker::Model;

/// Bytes in memory, of which there is room for so many. It tells them, and the calls that are named fail.
#[derive(Drop)]
pub struct MemorySink {
    bytes: Vec<u8>,
    room: u64,
    piece: u64,
    failing: Vec<u64>,
    calls: u64,
    faults: u64,
}

impl Model for MemorySink {
    ghost use Rattle.std.specs.Prelude.{◌≤◌, length, vec_capacity};
    ghost use Rattle.psi_edges.specs.Memory.{SinkState, sink_code};

    ghost Value = { SinkState };

    ghost coded = { sink_code };

    ghost view = { λ s. record {
      held = s.bytes.items;
      room = s.room;
      piece = s.piece;
      failing = s.failing.items;
      calls = s.calls;
      faults = s.faults;
    } };

    ghost invariant = { λ s. (1 ≤ s.piece) × (length s.bytes.items ≤ s.room) × (s.room ≤ vec_capacity s.bytes) };
}

impl MemorySink {
    /// A sink that takes at most `piece` bytes a call and holds at most `room` bytes, for which it takes the
    /// memory at once.
    pub fn new(alloc: Global, room: u64, piece: u64) -> Result<MemorySink, NoMemory>
        requires { 1 ≤ piece }
        ensures { IfOk result (λ sink. sink ≡ empty_sink room piece) }
    {
        let bytes = Vec::with_capacity(alloc, room as usize)?;
        Ok(MemorySink {
            bytes,
            room,
            piece,
            failing: Vec::new(alloc),
            calls: 0,
            faults: 0,
        })
    }

    /// Makes the `put` of this number fail. The first is 1, and numbers stay at 2^64 - 1 once that is reached.
    pub fn fail_at(&mut self, call: u64) -> Result<(), NoMemory>
        ensures ok { OnOk result (self.new ≡ record self.old { failing = self.old.failing ++ call ∷ [] }) }
        ensures err { OnErr result (self.new ≡ self.old) }
    {
        self.failing.push(call)?;
        Ok(())
    }

    /// The bytes that were put.
    pub fn held(&self) -> &[u8]
        ensures value { result.now ≡ self.now.held }
        ensures room { length self.now.held ≤ self.now.room }
    {
        &self.bytes
    }
}

impl Sink for MemorySink {
    ghost held = { λ s. Some s.held };

    ghost faults = { λ s. s.faults };

    ghost puts = { λ _ _ _ _. Unit {0} };

    fn put(&mut self, bytes: &[u8]) -> Result<usize, Failed>
        requires { 0 < length bytes.now }
        ensures fails { IsErr result ↔ IsTrue (put_fails self.old) }
        ensures exact { IfOk result (λ count.
            count ≡ min (length bytes.now) (min self.old.piece (self.old.room - length self.old.held))) }
        ensures after { MatchResult result
            (λ count. self.new ≡ record self.old {
              held = self.old.held ++ take count bytes.now;
              calls = raised self.old.calls 1;
            })
            (λ _. self.new ≡ record self.old {
              calls = raised self.old.calls 1;
              faults = raised self.old.faults 1;
            }) }
        ensures within { IfOk result (λ count. (1 ≤ count) × (count ≤ length bytes.now)) }
        ensures held { Puts result (Some self.old.held) (Some self.new.held) bytes.now }
        ensures cause { HasCause self.old.faults self.new.faults result }
    {
        self.calls = self.calls.saturating_add(1);
        let room = self.room - self.bytes.len() as u64;
        let count = self.piece.min(room).min(bytes.len() as u64) as usize;
        if room == 0
            || self.failing.contains(&self.calls)
            || self.bytes.extend_from_slice(&bytes[..count]).is_err()
        {
            self.faults = self.faults.saturating_add(1);
            return Err(Failed);
        }
        Ok(count)
    }
}
