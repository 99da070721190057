//! The types of a module. In go the tree of a module, the names of its types, and references to all places at which it writes
//! types (`ir_type_uses`); out come a table that answers the number of every type of the tree (`TypeIds`), the types by
//! their numbers, the offset at which each is written first, and names of types that stand for none (LangRef, "Type
//! System", "Structure Type"). The layer above uses the contract of `TypeIds::id`: it answers `type_id`, and of the others
//! that they answer `types_of`, `type_at` and `unknown_types`.
#![tactic(auto)]

mod chains;
mod contents;
mod keys;
mod laws;
mod named;
mod places;
mod source;
mod table;
mod unknown;

pub use chains::chain_ends;
pub use laws::{
    chains_that_end_are_found, equal_types_have_one_number, parts_come_first,
    the_least_place_is_found, written_types_are_there,
};
pub use named::module_types;
pub use places::type_places;
pub use source::Source;
pub use table::{TypeIds, type_ids};
pub use unknown::note_unknown_types;
