//! The laws of the blocks of globals and functions over the machine with values and memory. A module goes in; in every run
//! each global and function keeps the block that was made for it, with a size and a base that it may have; in every honest
//! run of a module with types that block is never dead nor closed, and a constant that is passed as a pointer is as the
//! table of constants says. There is no code here that runs; the layer above hands on what is shown here.
#![tactic(auto)]

mod laws;

pub use laws::{blocks_are_kept, blocks_are_live, constants_hold};
