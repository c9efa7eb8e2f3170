// What is broken at a node.

/// What is broken at a node: a rule by its number, or a limit by its number with the value that exceeds it.
#[derive(Clone, Copy)]
pub(crate) enum Broken {
    Rule(u8),
    Limit(u8, u64),
}
