/// The most NOT and parentheses of a filter inside each other.
pub const MAX_DEPTH: u32 = 32;

/// The most literals of an IN list.
pub const MAX_LITERALS: usize = 16;
