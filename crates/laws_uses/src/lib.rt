//! The law of use facts over the machine with values and memory: what is said of the uses of a body's parameters (not
//! captured, not returned, not read through, not written through) holds in every honest run of a well formed module, for
//! every set of facts that justifies itself, where control goes as its facts say and pointers keep their types. There is
//! no code here that runs; the layer above cites the law for the set that it prints.
#![tactic(auto)]

mod laws;

pub use laws::uses_hold;
