//! The module of a text is well formed. A text, its tokens and its tree go in, whose names are all right and which write fewer
//! than 2^31 things of each kind; each number in the module that they stand for names a thing that is there and names it back,
//! each list of the module shown by itself. There is no code here that runs: the layer above cites the law for the module that it
//! resolves.
#![tactic(auto)]

mod laws;

pub use laws::resolved_modules_are_well_formed;
