// The greatest length of a file's name.

/// The greatest length of a file's name, in bytes.
pub const LONGEST_NAME: usize = 4096;
