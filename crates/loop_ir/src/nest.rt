// The nest of a job.
ghost use Rattle.std.specs.Prelude.{◌≡◌, ◌<◌, length, map, slice_get, Some};
ghost use Rattle.loop_ir.specs.Kept.{IsNest};

use crate::step::Step;
use std::marker::Model;

/// Lists of steps, of which list 0 is the whole. The lists that a list names have greater numbers than it has.
#[derive(Drop)]
pub struct Nest {
    lists: Vec<Vec<Step>>,
}

impl Model for Nest {
    ghost use Rattle.std.specs.Prelude.{List, map};
    ghost use Rattle.loop_ir.specs.declared.step.Step.{Step};
    ghost use Rattle.loop_ir.specs.Kept.{IsNest};

    ghost Value = { List (List Step) };

    ghost view = { λ n. map (λ list. list.items) n.lists.items };

    ghost invariant = { λ n. IsNest (map (λ list. list.items) n.lists.items) };
}

impl Nest {
    /// The nest of these lists. It takes no memory.
    pub fn new(lists: Vec<Vec<Step>>) -> Nest
        requires { IsNest (map (λ list. list.items) lists.items) }
        ensures { result ≡ map (λ list. list.items) lists.items }
    {
        Nest { lists }
    }

    /// The number of lists.
    pub fn lists(&self) -> u32
        ensures count { result ≡ length self.now }
        ensures kept { IsNest self.now }
    {
        self.lists.len() as u32
    }

    /// The steps of a list by its number.
    pub fn list(&self, number: u32) -> &[Step]
        requires { number < length self.now }
        ensures list { slice_get self.now number ≡ Some result.now }
        ensures kept { IsNest self.now }
    {
        self.lists[number as usize].as_slice()
    }
}
