//! The rules of reach as terms: which bodies a body, or the outside, does not reach by calls. A module, its uses, its
//! positions and a system go in; the system comes out with these rules met in. The layer above uses one contract, that of
//! `terms`: between the two systems was met in that the rule of each bit of a row holds (`Meets`).
#![tactic(auto)]

mod filling;
mod outside;
mod passing;
mod ranks;
mod rows;

pub use filling::terms;
