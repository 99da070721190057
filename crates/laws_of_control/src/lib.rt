//! The laws of control over the machine with values and memory: what the facts of dead segments, of `nounwind`,
//! `noreturn` and `nofree` say holds in every honest run of a well formed module, however long, for every set of
//! facts that justifies itself. There is no code here that runs; the laws of values, of uses and of effects take as
//! given what these laws show of each step, and the layer above cites them for the set that it prints.
#![tactic(auto)]

mod laws;

pub use laws::{
    dead_edges_are_not_taken, dead_segments_are_never_done, frames_stand_live, nofree_holds,
    noreturn_holds, nounwind_holds,
};
