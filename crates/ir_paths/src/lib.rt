//! Whether each use of a result in a body is defined on every path (V18). In goes a module and one of its functions; out
//! comes that all uses are (`AreDefined`), or the first that is not, with the shortest path that lacks its definition
//! (`IsFirstMissing`). A dominator tree is claimed and checked in one walk; where it shows all uses nothing more is done, and
//! else one search answers the path. All of it takes the time of the body's operands and edges, but the claim, which takes
//! O(m log n) for n blocks and m edges.
#![tactic(auto)]

mod asked;
mod body;
mod defined;
mod made;
mod missing;
mod split;

pub use defined::{BlockList, UseFault, defined_on_every_path};
