//! The rules of memory as terms: which accesses a body does not make, by location (LangRef, "Function Attributes",
//! `memory(..)`). A module, its uses, its positions and a system go in; the system comes out with these rules met in. The
//! layer above uses one contract, that of `terms`: between the two systems was met in that the rule of each bit of
//! memory holds (`Meets`). The time is linear in the module: an access costs one input of its segment's effect.
#![tactic(auto)]

mod accesses;
mod bodies;
mod calling;
mod effects;
mod filling;
mod keeping;
mod pointers;
mod promising;

pub use accesses::{Access, Callee, Location};
pub use calling::of_callee;
pub use filling::terms;
pub use promising::promises_no_access;
