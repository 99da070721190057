//! What is printed holds where its facts hold. A well formed module, a set of facts and a run in which each fact of the
//! set says what `FactsHold` defines go in; each attribute of each addition that `manifest` makes of the set holds of its
//! subject in that run, at every call and of every value that it speaks of. It does not matter here why the facts hold,
//! nor which kinds of them are built. There is no code here that runs; the layer above joins this law with those that
//! show the facts.
#![tactic(auto)]

mod laws;

pub use laws::printed_attributes_hold;
