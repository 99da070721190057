//! Bits of the word of a value: a parameter of a body or the result of an instruction.
use crate::word::{FACT_BITS, FACTS};

/// It is the same as parameter 0 of its function.
pub const SAME_AS_PARAMETER_0: u32 = 0;

/// It is the same as parameter 1 of its function.
pub const SAME_AS_PARAMETER_1: u32 = 1;

/// It is the same as parameter 2 of its function.
pub const SAME_AS_PARAMETER_2: u32 = 2;

/// It is the same as parameter 3 of its function.
pub const SAME_AS_PARAMETER_3: u32 = 3;

/// It is the same as parameter 4 of its function.
pub const SAME_AS_PARAMETER_4: u32 = 4;

/// It is the same as parameter 5 of its function.
pub const SAME_AS_PARAMETER_5: u32 = 5;

/// It is the same as parameter 6 of its function.
pub const SAME_AS_PARAMETER_6: u32 = 6;

/// It is the same as parameter 7 of its function.
pub const SAME_AS_PARAMETER_7: u32 = 7;

/// It is the same as parameter 8 of its function.
pub const SAME_AS_PARAMETER_8: u32 = 8;

/// It is the same as parameter 9 of its function.
pub const SAME_AS_PARAMETER_9: u32 = 9;

/// It is the same as parameter 10 of its function.
pub const SAME_AS_PARAMETER_10: u32 = 10;

/// It is the same as parameter 11 of its function.
pub const SAME_AS_PARAMETER_11: u32 = 11;

/// It is the same as parameter 12 of its function.
pub const SAME_AS_PARAMETER_12: u32 = 12;

/// It is the same as parameter 13 of its function.
pub const SAME_AS_PARAMETER_13: u32 = 13;

/// It is the same as parameter 14 of its function.
pub const SAME_AS_PARAMETER_14: u32 = 14;

/// It is the same as parameter 15 of its function.
pub const SAME_AS_PARAMETER_15: u32 = 15;

/// How many parameters have such a bit.
pub const SAME_AS_PARAMETERS: u32 = 16;

/// It is not the null pointer (LangRef, "Parameter Attributes", `nonnull`).
pub const NONNULL: u32 = 16;

/// Its address is a multiple of 2 (LangRef, `align`).
pub const ALIGN_2: u32 = 17;

/// Its address is a multiple of 4.
pub const ALIGN_4: u32 = 18;

/// Its address is a multiple of 8.
pub const ALIGN_8: u32 = 19;

/// Its address is a multiple of 16.
pub const ALIGN_16: u32 = 20;

/// Its address is a multiple of 32.
pub const ALIGN_32: u32 = 21;

/// Its address is a multiple of 64.
pub const ALIGN_64: u32 = 22;

/// 1 byte can be reached through it (LangRef, `dereferenceable`).
pub const BYTES_1: u32 = 23;

/// 2 bytes can be reached through it.
pub const BYTES_2: u32 = 24;

/// 4 bytes can be reached through it.
pub const BYTES_4: u32 = 25;

/// 8 bytes can be reached through it.
pub const BYTES_8: u32 = 26;

/// 12 bytes can be reached through it.
pub const BYTES_12: u32 = 27;

/// 16 bytes can be reached through it.
pub const BYTES_16: u32 = 28;

/// 20 bytes can be reached through it.
pub const BYTES_20: u32 = 29;

/// 24 bytes can be reached through it.
pub const BYTES_24: u32 = 30;

/// 32 bytes can be reached through it.
pub const BYTES_32: u32 = 31;

/// 40 bytes can be reached through it.
pub const BYTES_40: u32 = 32;

/// 48 bytes can be reached through it.
pub const BYTES_48: u32 = 33;

/// 64 bytes can be reached through it.
pub const BYTES_64: u32 = 34;

/// 96 bytes can be reached through it.
pub const BYTES_96: u32 = 35;

/// 128 bytes can be reached through it.
pub const BYTES_128: u32 = 36;

/// 256 bytes can be reached through it.
pub const BYTES_256: u32 = 37;

/// 1024 bytes can be reached through it.
pub const BYTES_1024: u32 = 38;

/// It points to no alloca of its own frame.
pub const NOT_OWN_ALLOCA: u32 = 39;

/// It points to nothing that a pointer argument of the call points to.
pub const NOT_ARGUMENT: u32 = 40;

/// It points to no global and no function.
pub const NOT_GLOBAL: u32 = 41;

/// It points to one of the places that the three bits below speak of.
pub const NOT_UNKNOWN: u32 = 42;

/// It is not captured, but it may be returned (LangRef, "Pointer Capture").
pub const CAPTURED_BY_RETURN_ALONE: u32 = 43;

/// It is not returned.
pub const NOT_RETURNED: u32 = 44;

/// Nothing is read through it (LangRef, `writeonly`).
pub const NOT_READ_THROUGH: u32 = 45;

/// Nothing is written through it (LangRef, `readonly`).
pub const NOT_WRITTEN_THROUGH: u32 = 46;

/// How many rungs of alignment there are.
pub const ALIGN_RUNGS: u32 = 6;

/// How many rungs of bytes there are.
pub const BYTE_RUNGS: u32 = 16;

/// The bits that say which parameter it is the same as; a value that is no pointer has no others.
pub const ALL_SAME: u64 = (1 << SAME_AS_PARAMETERS) - 1;

/// All rungs of alignment.
pub const ALL_ALIGN: u64 = (1 << BYTES_1) - (1 << ALIGN_2);

/// All rungs of bytes.
pub const ALL_BYTES: u64 = (1 << NOT_OWN_ALLOCA) - (1 << BYTES_1);

/// The bits that say where it does not point.
pub const ALL_BASE: u64 = (1 << CAPTURED_BY_RETURN_ALONE) - (1 << NOT_OWN_ALLOCA);

/// The bits that speak of its uses.
pub const ALL_USES: u64 = (1 << (NOT_WRITTEN_THROUGH + 1)) - (1 << CAPTURED_BY_RETURN_ALONE);

/// All facts of a value that is a pointer.
pub const ALL: u64 = FACTS;

const _: () = prove!(ALIGN_64 == ALIGN_2 + ALIGN_RUNGS - 1);

const _: () = prove!(BYTES_1024 == BYTES_1 + BYTE_RUNGS - 1);

const _: () = prove!(NOT_WRITTEN_THROUGH + 1 == FACT_BITS);

const _: () = prove!(ALL == ALL_SAME | 1 << NONNULL | ALL_ALIGN | ALL_BYTES | ALL_BASE | ALL_USES);
