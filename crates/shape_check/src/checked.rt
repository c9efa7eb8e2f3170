// A checked program.
ghost use Rattle.std.specs.Prelude.{◌≡◌, ◌<◌, [], length, slice_index_or};
ghost use Rattle.shape_check.specs.Kept.{IsChecked};

use crate::laws::jobs_are_few;
use crate::layout::Layout;
use moa_tree::{Job, Program};
use shapes_core::Shape;
use std::marker::Model;

/// A program that is accepted, with the shapes of its nodes and statements, its jobs, the layout of its block, and what
/// it costs.
#[derive(Drop)]
pub struct Checked {
    program: Program,
    shapes: Vec<Shape>,
    statement_shapes: Vec<Shape>,
    jobs: Vec<Job>,
    layout: Layout,
    size: u64,
    work: u64,
}

impl Model for Checked {
    ghost use Rattle.shape_check.specs.Kept.{Checking, IsChecked};

    ghost Value = { Checking };

    ghost view = { λ c. record { pools = c.program; shapes = c.shapes.items; statement_shapes = c.statement_shapes.items; jobs = c.jobs.items; areas = c.layout; size = c.size; work = c.work } };

    ghost invariant = { λ c. IsChecked (record { pools = c.program; shapes = c.shapes.items; statement_shapes = c.statement_shapes.items; jobs = c.jobs.items; areas = c.layout; size = c.size; work = c.work }) };
}

impl Checked {
    /// The checked program of these parts. It takes no memory.
    pub fn new(
        program: Program,
        shapes: Vec<Shape>,
        statement_shapes: Vec<Shape>,
        jobs: Vec<Job>,
        layout: Layout,
        size: u64,
        work: u64,
    ) -> Checked
        requires { IsChecked (record { pools = program; shapes = shapes.items; statement_shapes = statement_shapes.items; jobs = jobs.items; areas = layout; size = size; work = work }) }
        ensures { result ≡ record { pools = program; shapes = shapes.items; statement_shapes = statement_shapes.items; jobs = jobs.items; areas = layout; size = size; work = work } }
    {
        Checked {
            program,
            shapes,
            statement_shapes,
            jobs,
            layout,
            size,
            work,
        }
    }

    /// The program.
    pub fn program(&self) -> &Program
        ensures value { result.now ≡ self.now.pools }
        ensures checked { IsChecked self.now }
    {
        &self.program
    }

    /// The shape of the node of this number.
    pub fn shape_of(&self, node: u32) -> Shape
        requires { node < length self.now.pools.nodes }
        ensures { result ≡ slice_index_or self.now.shapes node [] }
    {
        self.shapes[node as usize]
    }

    /// The shape of the statement of this number, counted from 0.
    pub fn statement_shape(&self, statement: usize) -> Shape
        requires { statement < length self.now.pools.statements }
        ensures { result ≡ slice_index_or self.now.statement_shapes statement [] }
    {
        self.statement_shapes[statement]
    }

    /// The jobs, in order.
    pub fn jobs(&self) -> &[Job]
        ensures { result.now ≡ self.now.jobs }
    {
        &self.jobs
    }

    /// How many jobs there are.
    pub fn job_count(&self) -> u32
        ensures { result ≡ length self.now.jobs }
    {
        jobs_are_few();
        self.jobs.len() as u32
    }

    /// The size, a bound for the text.
    pub fn size(&self) -> u64
        ensures { result ≡ self.now.size }
    {
        self.size
    }

    /// The work, a bound for the steps of a run.
    pub fn work(&self) -> u64
        ensures { result ≡ self.now.work }
    {
        self.work
    }
}

/// The layout of a checked program. It takes no memory.
pub fn layout_of(checked: &Checked) -> &Layout
    ensures { result.now ≡ checked.now.areas }
{
    &checked.layout
}
