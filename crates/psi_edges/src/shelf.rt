// A shelf: files that are taken from piece by piece.
ghost use Rattle.std.specs.Prelude.{◌≡◌, ℕ, ◌-◌, ◌^◌, ◌<◌, ◌≤◌, List, Option, length, IfOk, MatchResult};
ghost use Rattle.psi_edges.specs.Limits.{longest_name};
ghost use Rattle.psi_edges.specs.Causes.{HasCause, raised};
ghost use Rattle.psi_edges.specs.Files.{Files, Gives, OnFile};

use crate::failed::Failed;

/// Files that are taken from by name. No call changes them.
pub trait Shelf {
    /// The files, where the shelf tells them.
    ghost files: { Self → Option Files };

    /// How many calls failed. The count never falls, and stays at 2^64 - 1 once that is reached.
    ghost faults: { Self → ℕ };

    /// The name of the last call that failed.
    ghost failed_name: { Self → List ℕ };

    /// How many bytes were given in all, which stays at 2^64 - 1 once that is reached.
    ghost given: { Self → ℕ };

    /// That a call led from one state to another: from this byte on, with this much room, and so many bytes given,
    /// which are none where it failed. So a caller over any shelf can say which calls it makes.
    ghost takes: { Self → Self → ℕ → ℕ → ℕ → Type 0 };

    /// Copies bytes of the file `name`, from byte `at` on, into the front of `into`, and answers how many.
    /// `Ok(0)` says that the file ends at `at` or before. A name that the shelf lacks is a failure.
    /// A failed call may change `into`.
    fn take(&mut self, name: &str, at: u64, into: &mut [u8]) -> Result<usize, Failed>
        requires short_name { length name.now ≤ longest_name }
        requires near { at ≤ 2 ^ 32 }
        requires room { 0 < length into.old }
        ensures within { IfOk result (λ count. count ≤ length into.old) }
        ensures bytes { IfOk result (λ count.
            OnFile (files self.old) name.now (λ file. Gives file at count into.new)) }
        ensures taken { MatchResult result (λ count. takes self.old self.new at (length into.old) count)
            (λ _. takes self.old self.new at (length into.old) 0) }
        ensures cause { HasCause (faults self.old) (faults self.new) result }
        ensures failed_name { MatchResult result
            (λ _. failed_name self.new ≡ failed_name self.old) (λ _. failed_name self.new ≡ name.now) }
        ensures given { MatchResult result
            (λ count. given self.new ≡ raised (given self.old) count) (λ _. given self.new ≡ given self.old) }
        ensures more_given { given self.old ≤ given self.new }
        ensures bounded { given self.new ≤ 2 ^ 64 - 1 }
        ensures unchanged { files self.new ≡ files self.old };
}
