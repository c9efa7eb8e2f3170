// The greatest numbers that a shape, a program and a block may have.

/// The greatest number of axes.
pub const MOST_AXES: usize = 6;

/// The greatest extent, and the greatest span: the product of the extents with each 0 taken as 1.
pub const GREATEST_EXTENT: u64 = 16777216;

/// The greatest size of a program.
pub const GREATEST_SIZE: u64 = 1024;

/// The greatest work of a program.
pub const GREATEST_WORK: u64 = 1 << 40;

/// The greatest number of words that the areas of a block have, and the greatest number of spill words.
pub const MOST_WORDS: u64 = 134217728;

/// The greatest number of items of a list in which a program, a form, a nest or a text is kept.
pub const MOST_ITEMS: usize = 1 << 30;
