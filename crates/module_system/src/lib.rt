//! The system of a module. A module with its uses and its positions goes in; out comes the system of its rules: a mask
//! for each position, with the terms of all kinds of fact that are built. The layer above uses one contract, that of
//! `system`: the greatest words of the system hold the greatest set of facts of the module that supports itself.
#![tactic(auto)]

mod filling;

pub use filling::system;
