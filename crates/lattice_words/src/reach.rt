//! Bits of the words that say which bodies a function does not reach by calls. A row has one word for
//! each `BODIES` bodies; the word number k has the bit j for the body number k * `BODIES` + j.
use crate::word::{FACT_BITS, FACTS};

/// The bit of the first body of a word.
pub const NOT_FIRST: u32 = 0;

/// How many bodies one word speaks of.
pub const BODIES: u32 = FACT_BITS;

/// The bits of all bodies of a word.
pub const ALL_BODIES: u64 = FACTS;
