// A table of what is known of variables.
ghost use Rattle.std.specs.Prelude.{◌≡◌, [], OnOk};
ghost use Rattle.stride_form.specs.declared.facts.Fact.TheVariants.{Range};
ghost use Rattle.stride_form.specs.Facts.{knowing};
ghost use Rattle.stride_form.specs.Small.{IsSmallFact, fact_at};

use crate::facts::Fact;
use shapes_core::NoMemory;
use std::alloc::Global;
use std::marker::Model;

/// What is known of each variable, which is small: a number below 0 where nothing was said of it.
#[derive(Drop)]
pub(crate) struct Table {
    list: Vec<Fact>,
}

impl Model for Table {
    ghost use Rattle.std.specs.Prelude.{List};
    ghost use Rattle.std.specs.List.{AllByRecursion};
    ghost use Rattle.stride_form.specs.declared.facts.Fact.{Fact as AFact};
    ghost use Rattle.stride_form.specs.Small.{IsSmallFact};

    ghost Value = { List AFact };

    ghost view = { λ t. t.list.items };

    ghost invariant = { λ t. AllByRecursion IsSmallFact t.list.items };
}

/// Nothing is known of a variable.
fn nothing() -> Fact
    ensures { result ≡ Range 0 0 }
{
    Fact::Range { low: 0, high: 0 }
}

impl Table {
    /// A table in which nothing is said.
    pub(crate) fn new(alloc: Global) -> Table
        ensures { result ≡ [] }
    {
        Table {
            list: Vec::new(alloc),
        }
    }

    /// What is known of a variable.
    pub(crate) fn at(&self, var: u32) -> Fact
        ensures value { result ≡ fact_at self.now var }
        ensures small { IsSmallFact result }
    {
        match self.list.get(var as usize) {
            Some(fact) => *fact,
            None => nothing(),
        }
    }

    /// Sets what is known of a variable.
    pub(crate) fn set(&mut self, var: u32, fact: Fact) -> Result<(), NoMemory>
        requires { IsSmallFact fact }
        ensures { OnOk result (fact_at self.new ≡ knowing (fact_at self.old) var fact) }
    {
        let place = var as usize;
        while self.list.len() <= place {
            self.list.push(nothing())?;
        }
        self.list[place] = fact;
        Ok(())
    }
}
