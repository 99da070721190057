//! What the attributes of a place say, and where words are added to it. In go a text, its tokens and parts of its
//! tree; out come the attributes of functions, calls, parameters, arguments and returns, with those of their groups
//! (LangRef, "Function Attributes", "Parameter Attributes", "Attribute Groups"), and the offsets behind the last
//! attribute of each place. The layers above use that each call answers the value that `specs` defines: `func_attrs`,
//! `param_attrs`, `func_places`, `call_places`.
#![tactic(auto)]

mod attributes;
mod functions;
mod laws;
mod leaves;
mod memory;
mod params;
mod places;

pub use functions::{Gathered, Groups, func_attrs, groups};
pub use laws::{a_list_of_accesses_is_read, the_last_memory_counts};
pub use params::{align_field, global_align, param_attrs};
pub use places::{arg_place, call_places, func_places, param_place};
