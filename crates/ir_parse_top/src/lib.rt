//! Reads the tokens of a text into the tree of a module. What goes in is a text and its tokens; what comes out is the
//! tree that fits them, entity after entity, each the longest from its token, or the first token from which no entity
//! fits. The layer above rests on one contract: `parse_module` answers the tree that fits, of which there is one at most.
#![tactic(auto)]

mod entities;
mod globals;
mod headers;
mod parse;

pub use parse::parse_module;
