// A nest with its homes, in a block with so many spill words.
ghost use Rattle.std.specs.Prelude.{◌≡◌, ◌<◌, IsSome, Some, length, slice_get, ℕ};
ghost use Rattle.loop_ir.specs.Kept.{IsNest};
ghost use Rattle.loop_ir.specs.Pool.{tree};
ghost use Rattle.loop_ir.specs.Running.{Pointer, Register};
ghost use Rattle.register_map.specs.Homes.{home_of};
ghost use Rattle.rv_emit.specs.Counting.{reads_of};
ghost use Rattle.rv_emit.specs.Emitting.{home_at};
ghost use Rattle.rv_emit.specs.Moving.{register_of};
ghost use Rattle.rv_emit.specs.Programs.{HasRegisters, holds, plan_at};

use loop_ir::{Nest, Step};
use register_map::{Home, Homes};
use std::collections::BTreeSet;
use std::marker::Model;

/// What is emitted: a nest with its homes, in a block with so many spill words. `reads` has the
/// registers that the nest reads. Contracts see a `Site`.
#[derive(Drop)]
pub(crate) struct Emission<'a> {
    spill: u32,
    nest: &'a Nest,
    homes: &'a Homes,
    reads: BTreeSet<u32>,
}

impl<'a> Model for Emission<'a> {
    ghost use Rattle.std.specs.Prelude.{◌≡◌, ℕ};
    ghost use Rattle.loop_ir.specs.Pool.{tree};
    ghost use Rattle.loop_ir.specs.Running.{Register};
    ghost use Rattle.rv_emit.specs.Counting.{reads_of};
    ghost use Rattle.rv_emit.specs.Programs.{HasRegisters, Site, holds};

    ghost Value = { Site };

    ghost view = { λ e. record { spill = e.spill; lists = e.nest.now; homes = e.homes.now } };

    ghost invariant = { λ e. ((number : ℕ)
        → holds e.reads.keys number ≡ reads_of (tree e.nest.now) (Register number))
        × HasRegisters e.homes.now };
}

impl<'a> Emission<'a> {
    pub(crate) fn new(
        spill: u32,
        nest: &'a Nest,
        homes: &'a Homes,
        reads: BTreeSet<u32>,
    ) -> Emission<'a>
        requires registers { HasRegisters homes.now }
        requires reads { (number : ℕ)
            → holds reads.keys number ≡ reads_of (tree nest.now) (Register number) }
        ensures { result ≡ record { spill = spill; lists = nest.now; homes = homes.now } }
    {
        Emission {
            spill,
            nest,
            homes,
            reads,
        }
    }

    /// The spill words of the block.
    pub(crate) fn spill(&self) -> u32
        ensures { result ≡ self.now.spill }
    {
        self.spill
    }

    /// The steps of a list.
    pub(crate) fn list(&self, number: u32) -> &[Step]
        requires { number < length self.now.lists }
        ensures list { slice_get self.now.lists number ≡ Some result.now }
        ensures kept { IsNest self.now.lists }
    {
        let nest = self.nest;
        nest.list(number)
    }

    /// The home of a register.
    pub(crate) fn register(&self, number: u32) -> Home
        requires { IsSome (home_of self.now.homes (Register number)) }
        ensures home { result ≡ home_at (plan_at self.now) (Register number) }
        ensures above { 0 < register_of 30 result }
        ensures below { register_of 30 result < 32 }
    {
        let homes = self.homes;
        homes.register(number)
    }

    /// The home of a place.
    pub(crate) fn place(&self, number: u32) -> Home
        requires { IsSome (home_of self.now.homes (Pointer number)) }
        ensures home { result ≡ home_at (plan_at self.now) (Pointer number) }
        ensures above { 0 < register_of 30 result }
        ensures below { register_of 30 result < 32 }
    {
        let homes = self.homes;
        homes.place(number)
    }

    /// Whether the counter of this number counts down: nothing reads it.
    pub(crate) fn counts_down(&self, number: u32) -> bool
        ensures { result ≡ (plan_at self.now).down (Register number) }
    {
        !self.reads.contains(&number)
    }
}
