//! Equality of types by structure, whatever their names: void, pointers, integers of one width, arrays of one count and
//! equal elements, structs of one packedness and equal fields. A comparison that goes down through both types would
//! look at their parts again and again (`%a = type { %b, %b }` doubles at each step), so types are compared by
//! canonical numbers, which rounds over the whole table make. The layers above use `AreCanonical`: two types that are
//! not nested too deep have one number exactly where they are equal.
#![tactic(auto)]

mod content;
mod laws;
mod round;

pub use laws::rounds_are_enough;
pub use round::canonical;
