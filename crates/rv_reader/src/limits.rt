// The greatest length of an assembly text.

/// The greatest length of an assembly text, in bytes.
pub const LONGEST_ASSEMBLY: u64 = 33554432;
