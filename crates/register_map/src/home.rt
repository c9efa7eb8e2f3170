// Homes by registers and places.
ghost use Rattle.std.specs.Prelude.{◌≡◌, IsSome, Some};
ghost use Rattle.loop_ir.specs.Running.{Register, Pointer};
ghost use Rattle.register_map.specs.Homes.{IsGiven, home_of};

use crate::codes::{place_code, register_code};
use indexmap::IndexMap;
use std::marker::Model;

/// Where a register or a place is held: in the machine register of this number, x5 to x7 and x11 to
/// x17, or in a spill word, counted from 0.
#[derive(Clone, Copy, Debug, PartialEq, Eq)]
pub enum Home {
    Register(u8),
    Spill(u32),
}

/// The homes of the registers and places of a nest, by their codes: a register of number r has the
/// code 2 r, a place of number p the code 2 p + 1.
#[derive(Drop)]
pub struct Homes {
    homes: IndexMap<u64, Home>,
    spill: u32,
}

impl Model for Homes {
    ghost use Rattle.register_map.specs.Homes.{Given, IsGiven};

    ghost Value = { Given };

    ghost view = { λ h. record { homes = h.homes.entries; spill = h.spill } };

    ghost invariant = { λ h. IsGiven (record { homes = h.homes.entries; spill = h.spill }) };
}

impl Homes {
    /// Homes by codes, and one more than the greatest spill word among them, or 0 where none is.
    pub(crate) fn new(homes: IndexMap<u64, Home>, spill: u32) -> Homes
        requires { IsGiven (record { homes = homes.entries; spill = spill }) }
        ensures { result ≡ record { homes = homes.entries; spill = spill } }
    {
        Homes { homes, spill }
    }

    /// The home of a register that has one.
    pub fn register(&self, number: u32) -> Home
        requires { IsSome (home_of self.now (Register number)) }
        ensures { home_of self.now (Register number) ≡ Some result }
    {
        self.homes.get(&register_code(number)).copied().unwrap()
    }

    /// The home of a place that has one.
    pub fn place(&self, number: u32) -> Home
        requires { IsSome (home_of self.now (Pointer number)) }
        ensures { home_of self.now (Pointer number) ≡ Some result }
    {
        self.homes.get(&place_code(number)).copied().unwrap()
    }

    /// One more than the greatest spill word that is given, or 0 where none is.
    pub fn spill(&self) -> u32
        ensures value { result ≡ self.now.spill }
        ensures given { IsGiven self.now }
    {
        self.spill
    }
}
