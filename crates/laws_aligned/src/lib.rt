//! The law of alignment over the machine with values and memory: in every honest run of a well formed module with types, for
//! every set of facts that justifies itself, each value of a frame, each argument at entry and each value that is returned is
//! aligned where its word says so, beside all that the law of pointers says of it. Of bytes nothing is said here. There is no
//! code here that runs; the layer above cites the law for the set that it prints.
#![tactic(auto)]

mod laws;

pub use laws::alignment_holds;
