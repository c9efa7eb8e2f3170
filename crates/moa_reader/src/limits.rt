// The greatest length of a source.

/// The greatest length of a source, in bytes.
pub const LONGEST_SOURCE: u64 = 1048576;
