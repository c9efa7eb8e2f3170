// How far the check of a program has come.
use crate::names::Names;
use crate::totals::Totals;
use moa_tree::Job;
use shapes_core::{AreaKind, Shape};

/// What was found of the statements so far: names, the shapes of nodes and of statements, jobs, the arrays of the block,
/// and what the jobs cost.
#[derive(Drop)]
pub(crate) struct Progress {
    pub(crate) names: Names,
    pub(crate) shapes: Vec<Shape>,
    pub(crate) statement_shapes: Vec<Shape>,
    pub(crate) jobs: Vec<Job>,
    pub(crate) inputs: Vec<(AreaKind, Shape)>,
    pub(crate) outputs: Vec<(AreaKind, Shape)>,
    pub(crate) scans: Vec<(AreaKind, Shape)>,
    pub(crate) totals: Totals,
}
