//! The instructions of bodies. In go the tree of a body, and what its instructions are read with (`ir_instrs`) together with
//! the void types and the groups of its module (`Scene`); out come its instructions in segments and blocks, behind those of
//! the bodies before it, the parts of its constants, and the first name that has no definition of its kind. The layer above
//! uses the contract of `Builder::body` (`Builds`): segments and blocks are appended as `specs` defines them of the tree,
//! and what they name was taken in; and that of `note_groups_of_body` for the groups that calls name.
#![tactic(auto)]

mod bodies;
mod builder;
mod calls;
mod groups;
mod instrs;
mod laws;
mod lines;
mod scene;

pub use bodies::Owner;
pub use builder::Builder;
pub use groups::{note_groups, note_groups_of_body};
pub use laws::{operands_are_those_written, results_are_counted, segments_have_all_instructions};
pub use scene::{Scene, is_group, is_void, label_text, leaf_from, leaf_to, or_leaf, param_attrs};
