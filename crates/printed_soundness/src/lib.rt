//! What is printed holds. For every well formed module, every set of facts that supports itself and every honest run of the
//! machine with values and memory, each attribute of each addition that `manifest` makes of the set holds of its subject.
//! There is no code here that runs; the layer above cites the law for the set that it prints.
#![tactic(auto)]

mod laws;

pub use laws::what_is_printed_holds;
