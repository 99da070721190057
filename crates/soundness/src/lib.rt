//! Every fact holds. For every well formed module, every set of facts that supports itself and every honest run of the
//! machine with values and memory, each fact of the set says of the run what `FactsHold` defines, whatever its kind. The
//! laws of the single kinds stand in crates of their own, and this one joins them: a kind that is not built is in no set,
//! so only the kinds that are built need a law. There is no code here that runs; the layer above cites the one law for
//! the set that it prints.
#![tactic(auto)]

mod laws;

pub use laws::every_fact_holds;
