//! The bits of a word and the two ladders.
use crate::line::Line;
use crate::numbers::at;
use lattice_words::value::*;
use lattice_words::word::FACT_BITS;
use lattice_words::{align_rung, byte_rung, keep_align, shift};

/// The bits of the word of a value, by name; each is its own place in this list.
const VALUE_BITS: [u32; FACT_BITS as usize] = [
    SAME_AS_PARAMETER_0,
    SAME_AS_PARAMETER_1,
    SAME_AS_PARAMETER_2,
    SAME_AS_PARAMETER_3,
    SAME_AS_PARAMETER_4,
    SAME_AS_PARAMETER_5,
    SAME_AS_PARAMETER_6,
    SAME_AS_PARAMETER_7,
    SAME_AS_PARAMETER_8,
    SAME_AS_PARAMETER_9,
    SAME_AS_PARAMETER_10,
    SAME_AS_PARAMETER_11,
    SAME_AS_PARAMETER_12,
    SAME_AS_PARAMETER_13,
    SAME_AS_PARAMETER_14,
    SAME_AS_PARAMETER_15,
    NONNULL,
    ALIGN_2,
    ALIGN_4,
    ALIGN_8,
    ALIGN_16,
    ALIGN_32,
    ALIGN_64,
    BYTES_1,
    BYTES_2,
    BYTES_4,
    BYTES_8,
    BYTES_12,
    BYTES_16,
    BYTES_20,
    BYTES_24,
    BYTES_32,
    BYTES_40,
    BYTES_48,
    BYTES_64,
    BYTES_96,
    BYTES_128,
    BYTES_256,
    BYTES_1024,
    NOT_OWN_ALLOCA,
    NOT_ARGUMENT,
    NOT_GLOBAL,
    NOT_UNKNOWN,
    CAPTURED_BY_RETURN_ALONE,
    NOT_RETURNED,
    NOT_READ_THROUGH,
    NOT_WRITTEN_THROUGH,
];

fn put_bits(line: &mut Line) {
    for bit in &VALUE_BITS {
        line.push(u64::from(*bit));
    }
}

fn put_byte_rungs(line: &mut Line) {
    for rung in 0..BYTE_RUNGS {
        line.push(byte_rung(rung));
    }
}

fn put_align_rungs(line: &mut Line) {
    for rung in 0..ALIGN_RUNGS {
        line.push(align_rung(rung));
    }
}

/// Answers a call of the words, if it is one.
pub(crate) fn answer(call: &str, n: &[u64], line: &mut Line) -> bool {
    match call {
        "value_bits" => put_bits(line),
        "byte_rungs" => put_byte_rungs(line),
        "align_rungs" => put_align_rungs(line),
        "ladders" => line.put_all(&[ALL_BYTES, ALL_ALIGN]),
        "shift" => line.push(shift(at(n, 0), at(n, 1))),
        "keep_align" => line.push(keep_align(at(n, 0), at(n, 1))),
        _ => return false,
    }
    true
}
