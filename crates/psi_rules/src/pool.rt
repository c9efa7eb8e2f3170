// A pool of terms that grows.
ghost use Rattle.std.specs.Prelude.{◌≡◌, ℕ, ◌+◌, ◌<◌, ◌≤◌, ◌++◌, [], ◌∷◌, IfOk, OnErr, OnOk, length, pos, suc};
ghost use Rattle.std.specs.List.{AllByRecursion};
ghost use Rattle.shapes_core.specs.Limits.{greatest_extent, most_items};
ghost use Rattle.normal_form.specs.Cutting.{terms_in};
ghost use Rattle.normal_form.specs.Forms.{Normal, Lit, Index, Un, Bin, Case, Fold, Let};
ghost use Rattle.normal_form.specs.declared.term.Bind.TheVariants.{Digit, Flat, Turn};
ghost use Rattle.normal_form.specs.Formers.{just};
ghost use Rattle.normal_form.specs.Pool.{form_of, forms, operands};
ghost use Rattle.psi_rules.specs.Building.{Adds, Builds, IsFresh, IsPool, IsThere, Stands, used};
ghost use Rattle.psi_rules.specs.Rules.{loading};

use crate::moves::signed;
use moa_tree::{Op, Unary};
use normal_form::{Bind, Entries, Entry, Term};
use shapes_core::{NoMemory, Shape};
use std::alloc::Global;
use std::marker::Model;

/// The terms of a form in the making, and the number of the next variable.
#[derive(Drop)]
pub(crate) struct Pool {
    terms: Vec<Term>,
    next: u32,
}

impl Model for Pool {
    ghost use Rattle.psi_rules.specs.Building.{Built, IsPool};

    ghost Value = { Built };

    ghost view = { λ p. record { terms = p.terms.items; next = p.next } };

    ghost invariant = { λ p. IsPool p.terms.items };
}

/// Adds a term, or leaves what is there.
fn push_term(terms: &mut Vec<Term>, term: Term) -> Result<(), NoMemory>
    ensures added { OnOk result (terms.new.items ≡ terms.old.items ++ term ∷ []) }
    ensures kept { OnErr result (terms.new.items ≡ terms.old.items) }
{
    if let Term::Let {
        bind: Bind::Flat { .. },
        ..
    } = &term
    {
        terms.push(term)?;
    } else {
        terms.push(term)?;
    }
    Ok(())
}

impl Pool {
    /// A pool without a term, whose next variable has this number.
    pub(crate) fn new(alloc: Global, next: u32) -> Pool
        ensures { result ≡ record { terms = []; next = next } }
    {
        Pool {
            terms: Vec::new(alloc),
            next,
        }
    }

    /// The terms.
    pub(crate) fn into_terms(self) -> Vec<Term>
        ensures same { result.items ≡ self.terms }
        ensures pool { IsPool result.items }
    {
        self.terms
    }

    /// Adds a term whose operands are there.
    #[inline(never)]
    pub(crate) fn push(&mut self, term: Term) -> Result<u32, NoMemory>
        requires operands { AllByRecursion (λ operand. operand < length self.old.terms) (operands term) }
        requires room { used self.old < most_items }
        ensures adds { (below : ℕ) (form : Normal) → form_of (forms self.old.terms) term ≡ form → terms_in form ≡ 1 + below
            → IfOk result (Adds below form self.old self.new) }
        ensures builds { (form : Normal) → form_of (forms self.old.terms) term ≡ form → terms_in form ≡ 1
            → IfOk result (Builds (just form) self.old self.new) }
        ensures there { IfOk result (IsThere self.old self.new) }
        ensures one { IfOk result (λ number. used self.new ≡ suc (used self.old)) }
    {
        let number = self.terms.len() as u32;
        push_term(&mut self.terms, term)?;
        Ok(number)
    }

    /// Adds a constant.
    pub(crate) fn literal(&mut self, value: i64) -> Result<u32, NoMemory>
        requires room { used self.old < most_items }
        ensures builds { IfOk result (Builds (just (Lit value)) self.old self.new) }
        ensures there { IfOk result (IsThere self.old self.new) }
        ensures one { IfOk result (λ number. used self.new ≡ suc (used self.old)) }
    {
        self.push(Term::Lit(value))
    }

    /// Adds the number of an entry.
    pub(crate) fn index(&mut self, entry: Entry) -> Result<u32, NoMemory>
        requires room { used self.old < most_items }
        ensures builds { IfOk result (Builds (just (Index entry)) self.old self.new) }
        ensures there { IfOk result (IsThere self.old self.new) }
        ensures one { IfOk result (λ number. used self.new ≡ suc (used self.old)) }
    {
        self.push(Term::Index(entry))
    }

    /// Adds an element of an area.
    pub(crate) fn load(&mut self, area: u32, shape: Shape, at: Entries) -> Result<u32, NoMemory>
        requires room { used self.old < most_items }
        ensures builds { IfOk result (Builds (loading area shape at) self.old self.new) }
        ensures there { IfOk result (IsThere self.old self.new) }
        ensures one { IfOk result (λ number. used self.new ≡ suc (used self.old)) }
    {
        self.push(Term::Load { area, shape, at })
    }

    /// Adds an operator on a term.
    pub(crate) fn un(&mut self, op: Unary, of: u32) -> Result<u32, NoMemory>
        requires there { of < length self.old.terms }
        requires room { used self.old < most_items }
        ensures adds { (operand : Normal) → Stands self.old.terms of operand
            → IfOk result (Adds (terms_in operand) (Un op operand) self.old self.new) }
        ensures there { IfOk result (IsThere self.old self.new) }
        ensures one { IfOk result (λ number. used self.new ≡ suc (used self.old)) }
    {
        self.push(Term::Un { op, of })
    }

    /// Adds an operator on two terms.
    pub(crate) fn bin(&mut self, op: Op, left: u32, right: u32) -> Result<u32, NoMemory>
        requires first { left < length self.old.terms }
        requires second { right < length self.old.terms }
        requires room { used self.old < most_items }
        ensures adds { (one other : Normal) → Stands self.old.terms left one → Stands self.old.terms right other
            → IfOk result (Adds (terms_in one + terms_in other) (Bin op one other) self.old self.new) }
        ensures there { IfOk result (IsThere self.old self.new) }
        ensures one { IfOk result (λ number. used self.new ≡ suc (used self.old)) }
    {
        self.push(Term::Bin { op, left, right })
    }

    /// Adds one of two terms by whether an entry is below an extent.
    pub(crate) fn case(
        &mut self,
        left: Entry,
        extent: u64,
        yes: u32,
        no: u32,
    ) -> Result<u32, NoMemory>
        requires first { yes < length self.old.terms }
        requires second { no < length self.old.terms }
        requires small { extent ≤ greatest_extent }
        requires room { used self.old < most_items }
        ensures adds { (one other : Normal) → Stands self.old.terms yes one → Stands self.old.terms no other
            → IfOk result (Adds (terms_in one + terms_in other) (Case left (pos extent) one other) self.old self.new) }
        ensures there { IfOk result (IsThere self.old self.new) }
        ensures one { IfOk result (λ number. used self.new ≡ suc (used self.old)) }
    {
        let below = signed(extent);
        self.push(Term::Case {
            left,
            below,
            yes,
            no,
        })
    }

    /// Adds a fold of a term over a variable from 0 to below a number.
    pub(crate) fn fold(&mut self, op: Op, var: u32, high: u64, of: u32) -> Result<u32, NoMemory>
        requires there { of < length self.old.terms }
        requires room { used self.old < most_items }
        ensures adds { (operand : Normal) → Stands self.old.terms of operand
            → IfOk result (Adds (terms_in operand) (Fold op var 0 high operand) self.old self.new) }
        ensures there { IfOk result (IsThere self.old self.new) }
        ensures one { IfOk result (λ number. used self.new ≡ suc (used self.old)) }
    {
        self.push(Term::Fold {
            op,
            var,
            low: 0,
            high,
            of,
        })
    }

    /// Adds a term under a variable that is bound.
    pub(crate) fn bound(&mut self, var: u32, bind: Bind, of: u32) -> Result<u32, NoMemory>
        requires there { of < length self.old.terms }
        requires room { used self.old < most_items }
        ensures adds { (operand : Normal) → Stands self.old.terms of operand
            → IfOk result (Adds (terms_in operand) (Let var bind operand) self.old self.new) }
        ensures there { IfOk result (IsThere self.old self.new) }
        ensures one { IfOk result (λ number. used self.new ≡ suc (used self.old)) }
    {
        self.push(Term::Let { var, bind, of })
    }

    /// Adds a term under a variable that is a turned entry.
    pub(crate) fn turn(
        &mut self,
        var: u32,
        entry: Entry,
        by: u64,
        extent: u64,
        of: u32,
    ) -> Result<u32, NoMemory>
        requires there { of < length self.old.terms }
        requires room { used self.old < most_items }
        ensures adds { (operand : Normal) → Stands self.old.terms of operand
            → IfOk result (Adds (terms_in operand) (Let var (Turn entry by extent) operand) self.old self.new) }
        ensures there { IfOk result (IsThere self.old self.new) }
        ensures one { IfOk result (λ number. used self.new ≡ suc (used self.old)) }
    {
        let bind = Bind::Turn {
            of: entry,
            by,
            extent,
        };
        self.bound(var, bind, of)
    }

    /// Adds a term under a variable that is a digit of an offset.
    #[inline(never)]
    pub(crate) fn digit(
        &mut self,
        var: u32,
        flat: Entry,
        weight: u64,
        extent: u64,
        of: u32,
    ) -> Result<u32, NoMemory>
        requires there { of < length self.old.terms }
        requires room { used self.old < most_items }
        ensures adds { (operand : Normal) → Stands self.old.terms of operand
            → IfOk result (Adds (terms_in operand) (Let var (Digit flat weight extent) operand) self.old self.new) }
        ensures there { IfOk result (IsThere self.old self.new) }
        ensures one { IfOk result (λ number. used self.new ≡ suc (used self.old)) }
    {
        let bind = Bind::Digit {
            of: flat,
            weight,
            extent,
        };
        self.bound(var, bind, of)
    }

    /// Adds a term under a variable that is the offset of entries of a shape.
    #[inline(never)]
    pub(crate) fn offset(
        &mut self,
        var: u32,
        entries: &Entries,
        shape: &Shape,
        of: u32,
    ) -> Result<u32, NoMemory>
        requires there { of < length self.old.terms }
        requires room { used self.old < most_items }
        ensures adds { (operand : Normal) → Stands self.old.terms of operand
            → IfOk result (Adds (terms_in operand) (Let var (Flat entries.now shape.now) operand) self.old self.new) }
        ensures there { IfOk result (IsThere self.old self.new) }
        ensures one { IfOk result (λ number. used self.new ≡ suc (used self.old)) }
    {
        let bind = Bind::Flat {
            of: *entries,
            shape: *shape,
        };
        self.bound(var, bind, of)
    }

    /// The number of a variable that no term has.
    pub(crate) fn fresh(&mut self) -> u32
        requires { used self.old < most_items }
        ensures { IsFresh self.old self.new result }
    {
        let var = self.next;
        self.next = var + 1;
        var
    }
}
