//! Where a module writes types. In goes the tree of a module; out come references to all types that are written in it, in the
//! order of the text, each with the first token of the instruction or of the entity in which it stands. The layer above
//! uses the contract of `type_uses`: what it answers is the list `written` of the entities.
#![tactic(auto)]

mod bodies;
mod entities;
mod instrs;
mod uses;
mod values;

pub use entities::type_uses;
pub use uses::{TypeUse, Uses};
