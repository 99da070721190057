//! The law of pointers over the machine with values and memory: in every honest run of a well formed module, for every set
//! of facts that justifies itself, each value of a frame is not null where its word says so, is the parameter that its word
//! names, and is to a block of a class that its word leaves; so is each argument at entry, and what is returned. Of alignment
//! and of bytes nothing is said here. There is no code here that runs; the layer above cites the law for the set that it prints.
#![tactic(auto)]

mod laws;

pub use laws::pointers_hold;
