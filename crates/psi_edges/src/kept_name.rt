// A file's name that is kept beside what it names.
ghost use Rattle.std.specs.Prelude.{◌≡◌, ◌↔◌, ◌-◌, ◌≤◌, [], length, take, IsTrue};
ghost use Rattle.psi_edges.specs.Limits.{longest_name};

use crate::limits::LONGEST_NAME;
use std::marker::Model;

/// The name of a file, of at most `LONGEST_NAME` bytes.
#[derive(Drop)]
pub(crate) struct KeptName {
    bytes: [u8; LONGEST_NAME],
    len: usize,
}

impl Model for KeptName {
    ghost use Rattle.std.specs.Prelude.{◌≤◌, ℕ, List, take};
    ghost use Rattle.psi_edges.specs.Limits.{longest_name};

    ghost Value = { List ℕ };

    ghost view = { λ n. take n.len n.bytes };

    ghost invariant = { λ n. n.len ≤ longest_name };
}

impl KeptName {
    /// The empty name.
    pub(crate) fn new() -> KeptName
        ensures { result ≡ [] }
    {
        KeptName {
            bytes: [0; LONGEST_NAME],
            len: 0,
        }
    }

    /// Keeps `name` in place of the one that was kept.
    pub(crate) fn set(&mut self, name: &str)
        requires { length name.now ≤ longest_name }
        ensures { self.new ≡ name.now }
    {
        copy_front(&mut self.bytes, name.as_bytes());
        self.len = name.len();
    }

    /// Whether it is `name`.
    pub(crate) fn is(&self, name: &str) -> bool
        ensures { IsTrue result ↔ (self.now ≡ name.now) }
    {
        &self.bytes[..self.len] == name.as_bytes()
    }
}

/// Copies `bytes` to the front of `into`.
fn copy_front(into: &mut [u8], bytes: &[u8])
    requires { length bytes.now ≤ length into.old }
    ensures { take (length bytes.now) into.new ≡ bytes.now }
{
    into[..bytes.len()].copy_from_slice(bytes);
}
