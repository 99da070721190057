//! What the names of a module stand for. In go trees and the numbers of their names (`ir_names`); out come tables from names
//! to functions, globals, types and groups, and for each body a table from names to its values and blocks, with the
//! counter of the LangRef for what has no name ("Identifiers"), and the first fault: a name that is defined twice. The layers
//! above use the contracts of `top_scope` and `body_scope`: a table is `find` over `definitions`, a function of the tree
//! alone, and `found` is the first of the faults that were found before and of those of the tree (`repeats`).
#![tactic(auto)]

mod body;
mod faults;
mod laws;
mod marker;
mod results;
mod scope;
mod slot;
mod top;

pub use body::body_scope;
pub use faults::{Cause, NameFault, lesser, note_unless};
pub use laws::{first_is_least, one_definition, unnamed_things_are_counted};
pub use marker::{is_lifetime_name, is_wrong_marker};
pub use results::{Voids, gives_result, is_void};
pub use scope::{Names, Scope};
pub use slot::{Counts, Entry, Kind, Slot, id_at};
pub use top::{Space, top_scope};
