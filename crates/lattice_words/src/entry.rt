//! Bits of the word of what a pointer parameter of a body has at each entry: those of a value that say that it is no
//! null pointer, how it is aligned, and how many bytes can be reached through it.
use crate::value::{BYTES_1024, NONNULL};

/// The first of these bits.
pub const FIRST: u32 = NONNULL;

/// The last one.
pub const LAST: u32 = BYTES_1024;

/// All facts of an entry.
pub const ALL: u64 = (1 << (LAST + 1)) - (1 << FIRST);
