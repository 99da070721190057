//! The numbers of a module's positions. A module goes in; out come its positions in their order, kind by kind and
//! each kind in module order, with the mask of each. The layer above uses one contract: `Positions::of` answers
//! exactly the positions that facts speak of, and those of effects, each once (`AreOf`, `ArePositions`), and number and
//! position are each the inverse of the other. Kept are 24 bytes a position at most, and besides 8 for each declared
//! function and 4 for each of its parameters. `number`, `pos`, `mask` and `count` take no memory, and a time that does
//! not depend on the module.
#![tactic(auto)]

mod counting;
mod laws;
mod listing;
mod masks;
mod module;
mod positions;
mod refusal;
mod tables;
mod whole;

pub use laws::bits_are_of_positions;
pub use masks::is_built;
pub use module::{
    has_few_params, is_body, is_pointer, is_pointer_param, is_value_of_body, is_void,
};
pub use positions::{Positions, WORD_LIMIT};
pub use refusal::PosRefusal;
