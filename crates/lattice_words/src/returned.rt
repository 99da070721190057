//! Bits of the word of what a body returns: those of a value, but for those that speak of its uses.
use crate::value::{NOT_UNKNOWN, SAME_AS_PARAMETER_0};

/// The first of these bits.
pub const FIRST: u32 = SAME_AS_PARAMETER_0;

/// The last one.
pub const LAST: u32 = NOT_UNKNOWN;

/// All facts of what is returned.
pub const ALL: u64 = (1 << (LAST + 1)) - (1 << FIRST);
