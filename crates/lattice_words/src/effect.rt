//! Bits of the word of a segment's effect: those of a function, each for what the segment alone does.
use crate::function;

/// The segment does not unwind.
pub const NOUNWIND: u32 = function::NOUNWIND;

/// No run returns from the segment.
pub const NORETURN: u32 = function::NORETURN;

/// The segment frees nothing that existed before the call of its function.
pub const NOFREE: u32 = function::NOFREE;

/// The segment does not read memory of the default location.
pub const NO_READ_OF_DEFAULT: u32 = function::NO_READ_OF_DEFAULT;

/// The segment does not write memory of the default location.
pub const NO_WRITE_OF_DEFAULT: u32 = function::NO_WRITE_OF_DEFAULT;

/// The segment does not read memory through pointer arguments of its function.
pub const NO_READ_OF_ARGMEM: u32 = function::NO_READ_OF_ARGMEM;

/// The segment does not write memory through pointer arguments of its function.
pub const NO_WRITE_OF_ARGMEM: u32 = function::NO_WRITE_OF_ARGMEM;

/// The segment does not read memory that the module cannot reach.
pub const NO_READ_OF_INACCESSIBLEMEM: u32 = function::NO_READ_OF_INACCESSIBLEMEM;

/// The segment does not write memory that the module cannot reach.
pub const NO_WRITE_OF_INACCESSIBLEMEM: u32 = function::NO_WRITE_OF_INACCESSIBLEMEM;

/// All facts of an effect.
pub const ALL: u64 = function::ALL;
