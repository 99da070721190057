//! What is known of operands, as terms. A module, the numbers of its positions and an operand go in; out comes the term that gives
//! those of some bits that are known of the operand: of a constant by its table, of a value by its word. The layer above uses one
//! contract, that of `operand`: what the term says is `written_has`.
#![tactic(auto)]

mod asking;
mod constants;
mod kinds;
mod moving;
mod reading;

pub use asking::{argument, argument_bit, asked, operand_bit};
pub use constants::{align_of, divides, size_of};
pub use kinds::{Class, Kind, says};
pub use reading::{is_pointer, known, operand, with};
