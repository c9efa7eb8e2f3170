// Loads by a start and strides.
use normal_form::Strides;

/// The element of an area at a place: the start, and each stride times its variable. Places count words of the area.
#[derive(Clone, Copy)]
pub struct Access {
    pub area: u32,
    pub start: i64,
    pub strides: Strides,
}
