//! What the terms of a deduction say of sets of facts. Positions, bits and smaller terms go in; out come terms, and
//! systems into which a term was met. The crates of rules use one contract each: a builder's is the exact term, `meet`'s
//! the exact system; what these say of sets of facts (`Says`, `Meets`) composes by 'and' and 'or'.
#![tactic(auto)]

mod building;
mod calls;
mod filling;

pub use building::{bits, both, either, keep_align, shift, spread, unless, word};
pub use calls::{CallPromise, inner_callee, promises};
pub use filling::meet;
