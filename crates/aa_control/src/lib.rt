//! The rules of control as terms: of dead segments, and of `nounwind`, `noreturn` and `nofree` of bodies. A module, its
//! uses, its positions and a system go in; the system comes out with these rules met in. The layer above uses one
//! contract, that of `terms`: between the two systems was met in that the rule of each bit of control holds (`Meets`).
#![tactic(auto)]

mod bodies;
mod dying;
mod effects;
mod filling;
mod keeping;
mod literals;
mod pads;
mod segments;

pub use filling::terms;
