// Streams, above all the standard ones, as sinks.
ghost use Rattle.std.specs.Prelude.{◌≡◌, ◌≤◌, ◌<◌, length, IfOk, MatchResult, None};
ghost use Rattle.psi_edges.specs.Causes.{HasCause, raised};
ghost use Rattle.psi_edges.specs.Held.{Puts};

use crate::failed::Failed;
use crate::sink::Sink;
use std::io::{Stderr, Stdout, Write};
use std::marker::Model;

/// A stream. It tells nothing of what it holds. Each `put` writes once and flushes, so that no byte is left in
/// a buffer. It fails where the write or the flush is refused, and where no byte is taken.
#[derive(Drop)]
pub struct StreamSink<W> {
    stream: W,
    faults: u64,
}

/// The standard output.
pub type OutSink = StreamSink<Stdout>;

/// The standard error.
pub type ErrSink = StreamSink<Stderr>;

impl<W> Model for StreamSink<W> {
    ghost use Rattle.std.specs.Prelude.{ℕ};

    ghost Value = { ℕ };

    ghost view = { λ s. s.faults };
}

impl<W> StreamSink<W> {
    /// The sink over a stream, as `rt.stdout()`.
    pub fn new(stream: W) -> StreamSink<W>
        ensures { result ≡ 0 }
    {
        StreamSink { stream, faults: 0 }
    }
}

impl<W: Write> Sink for StreamSink<W> {
    ghost held = { λ _. None };

    ghost faults = { λ s. s };

    ghost puts = { λ _ _ _ _. Unit {0} };

    fn put(&mut self, bytes: &[u8]) -> Result<usize, Failed>
        requires { 0 < length bytes.now }
        ensures within { IfOk result (λ count. (1 ≤ count) × (count ≤ length bytes.now)) }
        ensures held { Puts result None None bytes.now }
        ensures counted { MatchResult result
            (λ _. self.new ≡ self.old) (λ _. self.new ≡ raised self.old 1) }
        ensures cause { HasCause self.old self.new result }
    {
        if let Ok(count) = self.stream.write(bytes) {
            if count > 0 && self.stream.flush().is_ok() {
                return Ok(count);
            }
        }
        self.faults = self.faults.saturating_add(1);
        Err(Failed)
    }
}
