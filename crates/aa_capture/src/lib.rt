//! The rules of uses as terms: what the uses of a pointer do not do with it (LangRef, "Pointer Capture", `nocapture`,
//! `readonly`, `writeonly`). A module, its uses, its positions and a system go in; the system comes out with these rules
//! met in. The layer above uses one contract, that of `terms`: between the two systems was met in that the rule of each
//! bit of uses holds (`Meets`). Each operand of the module is looked at once.
#![tactic(auto)]

mod arms;
mod filling;
mod kinds;
mod leading;
mod literals;
mod passing;
mod permitting;
mod plain;
mod promising;
mod results;
mod uses;

pub use filling::terms;
