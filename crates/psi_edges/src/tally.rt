// What a shelf keeps count of.
ghost use Rattle.std.specs.Prelude.{◌≡◌, ◌-◌, ◌^◌, ◌≤◌, length};
ghost use Rattle.psi_edges.specs.Limits.{longest_name};
ghost use Rattle.psi_edges.specs.Causes.{raised};
ghost use Rattle.psi_edges.specs.Counts.{no_counts};

use crate::kept_name::KeptName;
use std::marker::Model;

/// The failed calls of a shelf, the name of the last of them, and the bytes that it gave.
#[derive(Drop)]
pub(crate) struct Tally {
    faults: u64,
    failed: KeptName,
    given: u64,
}

impl Model for Tally {
    ghost use Rattle.std.specs.Prelude.{◌-◌, ◌^◌, ◌≤◌};
    ghost use Rattle.psi_edges.specs.Counts.{Counts, counts_code};

    ghost Value = { Counts };

    ghost coded = { counts_code };

    ghost view = { λ t. record { faults = t.faults; failed_name = t.failed; given = t.given } };

    ghost invariant = { λ t. t.given ≤ 2 ^ 64 - 1 };
}

impl Tally {
    pub(crate) fn new() -> Tally
        ensures { result ≡ no_counts }
    {
        Tally {
            faults: 0,
            failed: KeptName::new(),
            given: 0,
        }
    }

    /// Counts a failed call for the file `name`.
    pub(crate) fn fail(&mut self, name: &str)
        requires { length name.now ≤ longest_name }
        ensures failed { self.new ≡ record self.old { faults = raised self.old.faults 1; failed_name = name.now } }
        ensures later { self.old.faults ≤ self.new.faults }
        ensures bounded { self.new.given ≤ 2 ^ 64 - 1 }
    {
        self.failed.set(name);
        self.faults = self.faults.saturating_add(1);
    }

    /// Counts bytes that were given.
    pub(crate) fn give(&mut self, count: usize)
        ensures given { self.new ≡ record self.old { given = raised self.old.given count } }
        ensures more { self.old.given ≤ self.new.given }
    {
        self.given = self.given.saturating_add(count as u64);
    }
}
