// The terms of a form that is written, with what is known and marked on the way.
ghost use Rattle.std.specs.Prelude.{◌≡◌, ◌<◌, ◌≤◌, ◌==◌, ◌++◌, ◌∷◌, [], IfOk, OnErr, OnOk, length};
ghost use Rattle.std.specs.List.{AllByRecursion, list_any};
ghost use Rattle.shapes_core.specs.Limits.{most_items};
ghost use Rattle.stride_form.specs.Pool.{op_operands};
ghost use Rattle.stride_form.specs.Rules.{is_bound_over, is_over};
ghost use Rattle.stride_form.specs.Small.{IsSmallFact, fact_at, flag_at};
ghost use Rattle.stride_form.specs.Writing.{Flagged, IsOpPool, Knows, Marks, Pushes};

use crate::facts::Fact;
use crate::flags::Flags;
use crate::op_term::OpTerm;
use crate::table::Table;
use normal_form::{Bind, Entry};
use shapes_core::NoMemory;
use std::alloc::Global;
use std::marker::Model;

/// What is known of variables, the variables that stand somewhere, and the terms so far.
#[derive(Drop)]
pub(crate) struct Writer {
    facts: Table,
    flags: Flags,
    terms: Vec<OpTerm>,
}

impl Model for Writer {
    ghost use Rattle.stride_form.specs.Writing.{IsOpPool, Written};

    ghost Value = { Written };

    ghost view = { λ w. record { facts = w.facts; flags = w.flags; terms = w.terms.items } };

    ghost invariant = { λ w. IsOpPool w.terms.items };
}

/// Adds a term, or leaves what is there.
fn push_term(terms: &mut Vec<OpTerm>, term: OpTerm) -> Result<(), NoMemory>
    ensures added { OnOk result (terms.new.items ≡ terms.old.items ++ term ∷ []) }
    ensures kept { OnErr result (terms.new.items ≡ terms.old.items) }
{
    if let OpTerm::Let {
        bind: Bind::Flat { .. },
        ..
    } = &term
    {
        terms.push(term)?;
    } else {
        terms.push(term)?;
    }
    Ok(())
}

impl Writer {
    /// A writer that knows this, with no term.
    pub(crate) fn new(alloc: Global, facts: Table) -> Writer
        ensures { result ≡ record { facts = facts; flags = []; terms = [] } }
    {
        Writer {
            facts,
            flags: Flags::new(alloc),
            terms: Vec::new(alloc),
        }
    }

    /// The terms.
    pub(crate) fn into_terms(self) -> Vec<OpTerm>
        ensures same { result.items ≡ self.terms }
        ensures pool { IsOpPool result.items }
    {
        self.terms
    }

    /// What is known of variables.
    pub(crate) fn table(&self) -> &Table
        ensures { result.now ≡ self.now.facts }
    {
        &self.facts
    }

    /// What is known of a variable.
    pub(crate) fn fact(&self, var: u32) -> Fact
        ensures value { result ≡ fact_at self.now.facts var }
        ensures small { IsSmallFact result }
    {
        self.facts.at(var)
    }

    /// Sets what is known of a variable.
    #[inline(never)]
    pub(crate) fn know(&mut self, var: u32, fact: Fact) -> Result<(), NoMemory>
        requires { IsSmallFact fact }
        ensures { OnOk result (Knows var fact self.old self.new) }
    {
        self.facts.set(var, fact)
    }

    /// Whether a variable is marked.
    pub(crate) fn flag(&self, var: u32) -> bool
        ensures { result ≡ flag_at self.now.flags var }
    {
        self.flags.at(var)
    }

    /// Sets whether a variable is marked.
    pub(crate) fn set_flag(&mut self, var: u32, flag: bool) -> Result<(), NoMemory>
        ensures { OnOk result (Flagged var flag self.old self.new) }
    {
        self.flags.set(var, flag)
    }

    /// Marks an entry's variable.
    pub(crate) fn mark(&mut self, entry: Entry) -> Result<(), NoMemory>
        ensures { OnOk result (Marks (λ var. is_over var entry) self.old self.new) }
    {
        self.flags.mark(entry)
    }

    /// Marks the variables of strides.
    pub(crate) fn mark_strides(&mut self, strides: &[(u32, i64)]) -> Result<(), NoMemory>
        ensures { OnOk result (Marks (λ var. list_any (λ step. var == step.0) strides.now) self.old self.new) }
    {
        self.flags.mark_strides(strides)
    }

    /// Marks the variables over which a binding is.
    pub(crate) fn mark_bind(&mut self, bind: &Bind) -> Result<(), NoMemory>
        ensures { OnOk result (Marks (λ var. is_bound_over var bind.now) self.old self.new) }
    {
        self.flags.mark_bind(bind)
    }

    /// Adds a term whose operands are there.
    #[inline(never)]
    pub(crate) fn push(&mut self, term: OpTerm) -> Result<u32, NoMemory>
        requires below { AllByRecursion (λ operand. operand < length self.old.terms) (op_operands term) }
        requires room { length self.old.terms < most_items }
        ensures { IfOk result (Pushes term self.old self.new) }
    {
        let number = self.terms.len() as u32;
        push_term(&mut self.terms, term)?;
        Ok(number)
    }
}
