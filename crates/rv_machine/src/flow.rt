// Where a run goes on after a line.

/// At the next line, at a line by its number, at an address that is that of no line, or nowhere: the line's
/// access at an address is not allowed, or the line is a trap.
#[derive(Clone, Copy)]
pub enum Flow {
    Next,
    Jump(usize),
    Away(u64),
    Access(u64),
    Trap,
}
