// Bindings that are open.
use crate::facts::Fact;
use normal_form::Bind;

/// A variable that is bound, by entries with what is known in the place of their variables, with what was known of it before and
/// whether it was marked.
#[derive(Clone, Copy)]
pub(crate) struct Bound {
    pub(crate) var: u32,
    pub(crate) bind: Bind,
    pub(crate) fact: Fact,
    pub(crate) flag: bool,
}
