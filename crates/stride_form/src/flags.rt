// Tests by variable.
ghost use Rattle.std.specs.Prelude.{◌≡◌, ◌==◌, [], OnOk, true};
ghost use Rattle.std.specs.List.{list_any};
ghost use Rattle.stride_form.specs.Rules.{is_bound_over, is_over};
ghost use Rattle.stride_form.specs.Small.{either, flag_at, flagged};

use normal_form::{Bind, Entry};
use shapes_core::NoMemory;
use std::alloc::Global;
use std::marker::Model;

/// A test of each variable: false where nothing was said of it.
#[derive(Drop)]
pub(crate) struct Flags {
    list: Vec<bool>,
}

impl Model for Flags {
    ghost use Rattle.std.specs.Prelude.{Bool, List};

    ghost Value = { List Bool };

    ghost view = { λ f. f.list.items };
}

impl Flags {
    /// Tests that are all false.
    pub(crate) fn new(alloc: Global) -> Flags
        ensures { result ≡ [] }
    {
        Flags {
            list: Vec::new(alloc),
        }
    }

    /// The test of a variable.
    pub(crate) fn at(&self, var: u32) -> bool
        ensures { result ≡ flag_at self.now var }
    {
        match self.list.get(var as usize) {
            Some(flag) => *flag,
            None => false,
        }
    }

    /// Sets the test of a variable.
    pub(crate) fn set(&mut self, var: u32, flag: bool) -> Result<(), NoMemory>
        ensures { OnOk result (flag_at self.new ≡ flagged (flag_at self.old) var flag) }
    {
        let place = var as usize;
        while self.list.len() <= place {
            self.list.push(false)?;
        }
        self.list[place] = flag;
        Ok(())
    }

    /// Sets the test of an entry's variable.
    pub(crate) fn mark(&mut self, entry: Entry) -> Result<(), NoMemory>
        ensures { OnOk result (flag_at self.new ≡ either (flag_at self.old) (λ var. is_over var entry)) }
    {
        match entry {
            Entry::At(_) => Ok(()),
            Entry::Plus { var, .. } => self.set(var, true),
            Entry::Minus { var, .. } => self.set(var, true),
        }
    }

    /// Sets the tests of the variables of entries.
    pub(crate) fn mark_list(&mut self, entries: &[Entry]) -> Result<(), NoMemory>
        ensures { OnOk result (flag_at self.new ≡ either (flag_at self.old) (λ var. list_any (is_over var) entries.now)) }
    {
        let Some((entry, others)) = entries.split_first() else {
            return Ok(());
        };
        self.mark(*entry)?;
        self.mark_list(others)
    }

    /// Sets the tests of the variables of strides.
    pub(crate) fn mark_strides(&mut self, strides: &[(u32, i64)]) -> Result<(), NoMemory>
        ensures { OnOk result (flag_at self.new ≡ either (flag_at self.old) (λ var. list_any (λ step. var == step.0) strides.now)) }
    {
        let Some((step, others)) = strides.split_first() else {
            return Ok(());
        };
        self.set(step.0, true)?;
        self.mark_strides(others)
    }

    /// Sets the tests of the variables over which a binding is.
    pub(crate) fn mark_bind(&mut self, bind: &Bind) -> Result<(), NoMemory>
        ensures { OnOk result (flag_at self.new ≡ either (flag_at self.old) (λ var. is_bound_over var bind.now)) }
    {
        match bind {
            Bind::Turn { of, .. } => self.mark(*of),
            Bind::Flat { of, .. } => self.mark_list(of.list()),
            Bind::Digit { of, .. } => self.mark(*of),
        }
    }
}
