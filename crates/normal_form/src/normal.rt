// The form of a job.
ghost use Rattle.std.specs.Prelude.{◌≡◌, ◌<◌, ◌+◌, ◌↔◌, IsTrue, [], length, map, slice_get, Some};
ghost use Rattle.shapes_core.specs.Shape.{total};
ghost use Rattle.normal_form.specs.Kept.{IsFoldJob, IsForm};

use crate::region::Region;
use crate::term::Term;
use moa_tree::Job;
use shapes_core::Shape;
use std::alloc::Global;
use std::marker::Model;

/// The values of one job on a region, a box of index vectors of its shape, as a term over stored arrays. Variable j below the
/// number of axes is entry j of the index vector. A job whose array has no element has the empty form, without a term.
#[derive(Drop)]
pub struct Normal {
    job: Job,
    shape: Shape,
    region: Region,
    terms: Vec<Term>,
}

impl Model for Normal {
    ghost use Rattle.normal_form.specs.Kept.{IsForm, Parts};

    ghost Value = { Parts };

    ghost view = { λ n. record { job = n.job; shape = n.shape; region = n.region; terms = n.terms.items } };

    ghost invariant = { λ n. IsForm (record { job = n.job; shape = n.shape; region = n.region; terms = n.terms.items }) };
}

impl Normal {
    /// The form of a job whose array has this shape, on a region; the last term is its top. It has no term where the array has
    /// no element.
    pub fn new(job: Job, shape: Shape, region: Region, terms: Vec<Term>) -> Normal
        requires { IsForm (record { job = job; shape = shape; region = region; terms = terms.items }) }
        ensures { result ≡ record { job = job; shape = shape; region = region; terms = terms.items } }
    {
        Normal {
            job,
            shape,
            region,
            terms,
        }
    }

    /// The empty form of a job whose array has no element. Its region is the whole shape. It takes no memory.
    pub fn none(alloc: Global, job: Job, shape: Shape) -> Normal
        requires none { total shape ≡ 0 }
        requires folds { IsFoldJob job.fold shape }
        ensures { result ≡ record { job = job; shape = shape; region = map (λ n. (0, n)) shape; terms = [] } }
    {
        let _extents = shape.extents();
        let region = Region::whole(&shape);
        Normal::new(job, shape, region, Vec::new(alloc))
    }

    /// The job, by the number of its area, its node and the operator that it folds by.
    pub fn job(&self) -> Job
        ensures { result ≡ self.now.job }
    {
        self.job
    }

    /// The shape of the job's array.
    pub fn shape(&self) -> Shape
        ensures { result ≡ self.now.shape }
    {
        self.shape
    }

    /// The box of index vectors on which the form gives the job's values.
    pub fn region(&self) -> Region
        ensures { result ≡ self.now.region }
    {
        self.region
    }

    /// Whether the job's array has no element.
    pub fn empty(&self) -> bool
        ensures test { IsTrue result ↔ (self.now.terms ≡ []) }
        ensures formed { IsForm self.now }
    {
        self.terms.is_empty()
    }

    /// The number of the term at the top, where the form is not empty.
    pub fn top(&self) -> u32
        requires { 0 < length self.now.terms }
        ensures { 1 + result ≡ length self.now.terms }
    {
        (self.terms.len() - 1) as u32
    }

    /// A term by its number.
    pub fn term(&self, number: u32) -> Term
        requires { number < length self.now.terms }
        ensures { slice_get self.now.terms number ≡ Some result }
    {
        self.terms[number as usize]
    }
}
