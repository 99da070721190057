//! Constants and canonical numbers of types. A table of types goes in, no type of which is nested too deep, and any two lists of
//! canonical numbers of it; the two tell the same types apart, and a tree of constants is read as the same operand with the same
//! parts by the one as by the other, with the same faults. There is no code here that runs: the layer above cites the laws where
//! it says that a text stands for one module.
#![tactic(auto)]

mod laws;

pub use laws::{canonical_numbers_tell_the_same, constants_do_not_depend_on_numbers};
