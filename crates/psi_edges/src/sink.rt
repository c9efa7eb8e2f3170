// A sink: bytes that are put at an end.
ghost use Rattle.std.specs.Prelude.{◌≡◌, ℕ, ◌<◌, ◌≤◌, List, Option, length, IfOk, MatchResult};
ghost use Rattle.psi_edges.specs.Causes.{HasCause};
ghost use Rattle.psi_edges.specs.Held.{Puts};

use crate::failed::Failed;

/// Where bytes are put, one piece after another.
pub trait Sink {
    /// The bytes that it holds, where the sink tells them.
    ghost held: { Self → Option (List ℕ) };

    /// How many calls failed. The count never falls, and stays at 2^64 - 1 once that is reached.
    ghost faults: { Self → ℕ };

    /// That a call led from one state to another: handed these bytes, of which it took so many, which are none where
    /// it failed. So a caller over any sink can say which calls it makes.
    ghost puts: { Self → Self → List ℕ → ℕ → Type 0 };

    /// Appends the front of `bytes`, at least one byte, and answers how many. A failed call appends nothing.
    fn put(&mut self, bytes: &[u8]) -> Result<usize, Failed>
        requires { 0 < length bytes.now }
        ensures within { IfOk result (λ count. (1 ≤ count) × (count ≤ length bytes.now)) }
        ensures held { Puts result (held self.old) (held self.new) bytes.now }
        ensures taken { MatchResult result (λ count. puts self.old self.new bytes.now count)
            (λ _. puts self.old self.new bytes.now 0) }
        ensures cause { HasCause (faults self.old) (faults self.new) result };
}
