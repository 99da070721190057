//! The types of a module and how they lie in memory. In go types, each of which names its parts by
//! number, also parts that are put in later; out come sizes, alignments and field offsets, or why a
//! type has none. The layer above uses one contract: `TypeTable::size_of` answers `size`, which is
//! read from `layout`, the definition of sizes, padding and nesting.
//!
//! A table keeps the extent of each type whose parts are all laid out, so a query looks at no part
//! twice. A type whose part is not there yet waits: the table notes for each part which types wait
//! for it, and `add` lays these out, and those that wait for them in turn, as soon as the last part
//! is laid out. A waiting type remembers how many of its parts are not in the way, so over all calls
//! of `add` each part of each type is looked at a constant number of times. A type that is left waiting
//! names itself, or is nested too deep. What is noted takes room up to the greatest number that
//! was named.
#![tactic(auto)]

mod extent;
mod ir_type;
mod laws;
mod placing;
mod refusal;
mod standing;
mod table;
mod users;
mod visit;

pub use ir_type::{IrType, TypeList};
pub use laws::refusals_come_by_parts;
pub use refusal::TypeRefusal;
pub use table::TypeTable;
