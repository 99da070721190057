//! The module of a tree. In go a text, its tokens and its tree; out comes the module that they stand for (`ir_module`), or the
//! first name in the text that is amiss: one that has no definition of its kind, one that is defined twice, or a data layout
//! that is not this project's (LangRef, "Module Structure", "Identifiers"). The layers above use the contract of `resolve`:
//! the module is `Resolved` and has few things, and a refusal is the first of all faults (`IsFirstFault`).
#![tactic(auto)]

mod call;
mod desk;
mod entities;
mod functions;
mod reading;
mod refusal;
mod state;
mod top;

pub use call::resolve;
pub use refusal::NameRefusal;
