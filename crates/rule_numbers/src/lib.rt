//! The rules of the verifier and canonical numbers of types. A module goes in whose types all have layouts, and that is verified by
//! some canonical numbers; it keeps the rules by all others too, and so no fault is told of it but that no memory was left. There
//! is no code here that runs: the layer above cites the laws where it says that a module is accepted exactly where none is refused.
#![tactic(auto)]

mod laws;

pub use laws::{a_verified_module_has_no_fault, verified_by_any_numbers};
