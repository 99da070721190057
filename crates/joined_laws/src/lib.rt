//! The laws of the single kinds of facts, joined. A well formed module whose types tell pointers from all else and a set of
//! facts that justifies itself go in, whether these kinds are built or not; in every honest run each fact of the set says
//! what `FactsHold` defines, where the set holds no fact of bytes, whose law is not there yet, and none of alignment or indices
//! are known to be typed. Each law is given what the others show: control nothing, types nothing, pointers both, alignment
//! pointers and types, memory pointers and types, uses types. There is no code here that runs; the layer above can cite the
//! one law for the set that it prints.
#![tactic(auto)]

mod laws;

pub use laws::{every_fact_but_bytes_holds, every_fact_but_numbers_holds};
