//! Bits of the word of a function with a body.

/// It does not unwind (LangRef, "Function Attributes", `nounwind`).
pub const NOUNWIND: u32 = 0;

/// It does not return (LangRef, `noreturn`).
pub const NORETURN: u32 = 1;

/// It frees nothing that existed before the call (LangRef, `nofree`).
pub const NOFREE: u32 = 2;

/// It does not read memory of the default location (LangRef, `memory(..)`).
pub const NO_READ_OF_DEFAULT: u32 = 3;

/// It does not write memory of the default location.
pub const NO_WRITE_OF_DEFAULT: u32 = 4;

/// It does not read memory through its pointer arguments.
pub const NO_READ_OF_ARGMEM: u32 = 5;

/// It does not write memory through its pointer arguments.
pub const NO_WRITE_OF_ARGMEM: u32 = 6;

/// It does not read memory that the module cannot reach.
pub const NO_READ_OF_INACCESSIBLEMEM: u32 = 7;

/// It does not write memory that the module cannot reach.
pub const NO_WRITE_OF_INACCESSIBLEMEM: u32 = 8;

/// How many facts a function has.
pub const BITS: u32 = NO_WRITE_OF_INACCESSIBLEMEM + 1;

/// All facts of a function.
pub const ALL: u64 = (1 << BITS) - 1;

/// The facts of a function that speak of what it reads and writes.
pub const ALL_MEMORY: u64 = (1 << BITS) - (1 << NO_READ_OF_DEFAULT);

/// The other facts: how it ends, and that it frees nothing.
pub const ALL_CONTROL: u64 = (1 << NO_READ_OF_DEFAULT) - 1;
