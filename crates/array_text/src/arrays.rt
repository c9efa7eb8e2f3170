// The values of declared arrays, and of those that came so far.
ghost use Rattle.std.specs.Prelude.{◌≡◌, ◌<◌, [], length, map, replicate, slice_index_or};
ghost use Rattle.std.specs.Prelude.{slice_set, IfOk, IfSome, Some, None, is_some};
ghost use Rattle.std.specs.List.{list_all};
ghost use Rattle.array_text.specs.Outcome.{all_of};

use shapes_core::NoMemory;
use std::alloc::Global;
use std::marker::Model;

/// The values of the declared arrays, in row-major order, an array at the place where it is
/// declared. Contracts see the list of these lists.
#[derive(Drop)]
pub struct Arrays {
    lists: Vec<Vec<i64>>,
}

impl Model for Arrays {
    ghost use Rattle.std.specs.Prelude.{ℤ, List, map};

    ghost Value = { List (List ℤ) };

    ghost view = { λ arrays. map (λ list. list.items) arrays.lists.items };
}

impl Arrays {
    /// The arrays that have these values.
    pub fn new(values: Vec<Vec<i64>>) -> Arrays
        ensures { result ≡ map (λ list. list.items) values.items }
    {
        Arrays { lists: values }
    }

    /// The values of the array at this place.
    pub fn values(&self, place: usize) -> &[i64]
        requires { place < length self.now }
        ensures { result.now ≡ slice_index_or self.now place [] }
    {
        self.lists[place].as_slice()
    }
}

/// The values of the arrays that came, one place for each that is declared.
#[derive(Drop)]
pub(crate) struct Slots {
    came: Vec<bool>,
    lists: Vec<Vec<i64>>,
}

impl Model for Slots {
    ghost use Rattle.std.specs.Prelude.{◌≡◌, map, length};
    ghost use Rattle.array_text.specs.Outcome.{Came};
    ghost use Rattle.array_text.specs.Slots.{slots_of};

    ghost Value = { Came };

    ghost view = { λ slots. slots_of slots.came.items
        (map (λ list. list.items) slots.lists.items) };

    ghost invariant = { λ slots. length slots.came.items ≡ length slots.lists.items };
}

fn are_all(came: &[bool]) -> bool
    ensures { result ≡ list_all (λ here. here) came.now }
{
    came.iter().all(|here| *here)
}

impl Slots {
    /// This many places, and no array yet.
    pub(crate) fn new(alloc: Global, count: usize) -> Result<Slots, NoMemory>
        ensures { IfOk result (λ slots. slots ≡ replicate count None) }
    {
        let mut came = Vec::new(alloc);
        let mut lists = Vec::new(alloc);
        for place in 0..count {
            came.push(false)?;
            lists.push(Vec::new(alloc))?;
        }
        Ok(Slots { came, lists })
    }

    /// Whether the array at this place came.
    pub(crate) fn has(&self, place: usize) -> bool
        requires { place < length self.now }
        ensures { result ≡ is_some (slice_index_or self.now place None) }
    {
        self.came[place]
    }

    /// Puts the values of an array at its place.
    pub(crate) fn fill(&mut self, place: usize, values: Vec<i64>)
        requires { place < length self.old }
        ensures { self.new ≡ slice_set self.old place (Some values.items) }
    {
        self.came[place] = true;
        self.lists[place] = values;
    }

    /// All arrays, if each came.
    pub(crate) fn all(self) -> Option<Arrays>
        ensures value { result ≡ all_of self }
        ensures each { IfSome result (λ arrays. length arrays ≡ length self) }
    {
        if are_all(self.came.as_slice()) {
            Some(Arrays::new(self.lists))
        } else {
            None
        }
    }
}
