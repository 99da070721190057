//! The words of facts that the deduction keeps: which bit of a word says what, for each kind of
//! position, and the two ladders of bits that say how many bytes can be reached through a pointer and
//! how it is aligned. Words go in and come out. The layer above uses one contract: `shift` and
//! `keep_align` are the ladders as functions on words (`shift_of`, `keep_align_of`), and monotone.
#![tactic(auto)]

pub mod effect;
pub mod entry;
pub mod function;
mod ladders;
mod laws;
pub mod reach;
pub mod returned;
pub mod segment;
pub mod value;
pub mod word;

pub use ladders::{align_rung, byte_rung, keep_align, shift};
pub use laws::{
    keep_align_is_monotone, keep_align_keeps_divisors, keep_align_reads_the_same_bit,
    shift_is_monotone, shift_moves_rungs, shift_reads_its_ladder,
};
