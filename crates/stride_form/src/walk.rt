// Offsets by a start and strides.
use normal_form::Strides;

/// An offset: the start, and each stride times its variable, by rising variable.
#[derive(Clone, Copy)]
pub struct Walk {
    pub start: i64,
    pub strides: Strides,
}
