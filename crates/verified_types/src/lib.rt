//! Verified modules have their types. A well formed module that the verifier passes, and in which each instruction has the
//! type that its text writes, goes in; its types tell pointers from all else, as `HasTypes` asks: the premise of the laws of
//! types, pointers and uses. There is no code here that runs; the layer above cites the law for the module that it verified.
#![tactic(auto)]

mod laws;

pub use laws::verified_modules_have_their_types;
