// A nest in the making.
ghost use Rattle.std.specs.Prelude.{◌≡◌, ◌++◌, ◌∷◌, ◌<◌, ◌-◌, [], IfOk, OnErr, length, map, nat_le};
ghost use Rattle.std.specs.List.{AllByRecursion, flat_map};
ghost use Rattle.shapes_core.specs.Limits.{most_items};
ghost use Rattle.loop_ir.specs.Kept.{IsMaking, KeepsCounters};
ghost use Rattle.loop_ir.specs.Pool.{inner_lists, renumbered, tree, tree_at, trees, turned};

use crate::nest::Nest;
use crate::step::Step;
use shapes_core::{MOST_ITEMS, NoMemory};
use std::alloc::Global;
use std::marker::Model;

/// Lists of steps, each of which names lists that were added before it.
#[derive(Drop)]
pub struct Lists {
    lists: Vec<Vec<Step>>,
}

impl Model for Lists {
    ghost use Rattle.std.specs.Prelude.{List, map};
    ghost use Rattle.loop_ir.specs.declared.step.Step.{Step};
    ghost use Rattle.loop_ir.specs.Kept.{IsMaking};

    ghost Value = { List (List Step) };

    ghost view = { λ l. map (λ list. list.items) l.lists.items };

    ghost invariant = { λ l. IsMaking (map (λ list. list.items) l.lists.items) };
}

impl Lists {
    /// No list.
    pub fn new(alloc: Global) -> Lists
        ensures { result ≡ [] }
    {
        Lists {
            lists: Vec::new(alloc),
        }
    }

    /// Whether there are as many lists as a nest may have.
    pub fn is_full(&self) -> bool
        ensures { result ≡ nat_le most_items (length self.now) }
    {
        self.lists.len() >= MOST_ITEMS
    }

    /// Adds a list, and answers its number.
    pub fn add(&mut self, list: Vec<Step>) -> Result<u32, NoMemory>
        requires inner { AllByRecursion (λ inner. inner < length self.old) (flat_map inner_lists list.items) }
        requires room { length self.old < most_items }
        ensures added { IfOk result (λ number. (number ≡ length self.old) × (self.new ≡ self.old ++ list.items ∷ [])) }
        ensures kept { OnErr result (self.new ≡ self.old) }
    {
        let number = self.lists.len();
        self.lists.push(list)?;
        Ok(number as u32)
    }

    /// The nest whose whole is the last list. Its lists stand the other way round, each before those that it names.
    pub fn into_nest(self, alloc: Global) -> Result<Nest, NoMemory>
        requires some { 0 < length self }
        requires counters { KeepsCounters (tree_at (trees self) (length self - 1)) }
        ensures lists { IfOk result (λ nest. nest ≡ turned self) }
        ensures tree { IfOk result (λ nest. tree nest ≡ tree_at (trees self) (length self - 1)) }
    {
        let made = turned(alloc, self.lists)?;
        Ok(Nest::new(made))
    }
}

/// The lists the other way round, with the numbers that they then have.
fn turned(alloc: Global, mut lists: Vec<Vec<Step>>) -> Result<Vec<Vec<Step>>, NoMemory>
    requires { IsMaking (map (λ list. list.items) lists.items) }
    ensures { IfOk result (λ made. map (λ list. list.items) made.items ≡ turned (map (λ list. list.items) lists.items)) }
{
    let count = lists.len() as u32;
    let mut made = Vec::new(alloc);
    while let Some(list) = lists.pop() {
        made.push(renumber(count, list))?;
    }
    Ok(made)
}

/// A list that names lists by the numbers that they have the other way round, among so many.
fn renumber(count: u32, mut list: Vec<Step>) -> Vec<Step>
    requires { AllByRecursion (λ inner. inner < count) (flat_map inner_lists list.items) }
    ensures { result.items ≡ map (renumbered count) list.items }
{
    for step in list.iter_mut() {
        *step = renumbered(count, *step);
    }
    list
}

/// A step that names the lists by those numbers.
fn renumbered(count: u32, step: Step) -> Step
    requires { AllByRecursion (λ inner. inner < count) (inner_lists step) }
    ensures { result ≡ renumbered count step }
{
    match step {
        Step::For {
            counter,
            turns,
            body,
        } => Step::For {
            counter,
            turns,
            body: count - 1 - body,
        },
        Step::If {
            left,
            below,
            yes,
            no,
        } => Step::If {
            left,
            below,
            yes: count - 1 - yes,
            no: count - 1 - no,
        },
        plain => plain,
    }
}
