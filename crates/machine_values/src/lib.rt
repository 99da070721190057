//! The values of the machine in code: which are the same, how they lie in memory, and what the instructions that compute
//! make of them. Values, bytes and picks go in, and out come the values that the definitions of `ir_machine` say, or that
//! the behaviour is undefined, or that the run is over. The layer above relies on the contracts of `binary`, `selected`,
//! `displaced`, `stored` and the two loads.
#![tactic(auto)]

mod address;
mod bytes;
mod choosing;
mod integers;
mod outcome;
mod picks;
mod usable;
mod value;

pub use address::{Way, displaced};
pub use bytes::{loaded_int, loaded_ptr, stored};
pub use choosing::{Index, frozen, index_of, selected};
pub use integers::{
    any_int, binary, compared, condition, converted_datum, count_of, flagged_by, truth,
};
pub use outcome::{Halt, Stop};
pub use picks::Picks;
pub use usable::{is_datum_of, is_from_one, is_possible, may_have_origins};
pub use value::{
    are_same_marks, carried, copied, is_poison, is_same_datum, is_same_value, is_undef, marked,
    plain,
};
