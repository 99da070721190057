//! Bits of the word of a segment.

/// No run reaches the segment.
pub const DEAD: u32 = 0;

/// All facts of a segment.
pub const ALL: u64 = 1 << DEAD;
