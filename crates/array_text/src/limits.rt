// The greatest length of an array file.

/// The greatest length of an array file, in bytes.
pub const LONGEST_ARRAYS: u64 = 268435456;
