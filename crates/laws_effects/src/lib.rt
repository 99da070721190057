//! The laws of effects over the machine with values and memory, for every honest run of a well formed module and every
//! set of facts that justifies itself, where control goes as its facts say. Of memory: the accesses that the facts of a
//! body rule out are made in no call of it, where values are as their words say. Of reach: no body is entered above a call
//! of one that does not reach it. There is no code here that runs; the layer above cites the laws for the set that it prints.
#![tactic(auto)]

mod laws;

pub use laws::{memory_holds, reach_holds};
