//! Runs of a small module that show what the meanings of attributes and the honesty of a run say: for each attribute, at
//! each place where it may stand, a run that breaks it and one that keeps it; for each promise a run that is not honest
//! because an outer call breaks it. A module and choices go in, and out comes whether the meaning holds of the run. The
//! laws are the contracts of `promises`, `attributes` and `values`.
#![tactic(auto)]

mod attributes;
mod promises;
mod values;

pub use attributes::{
    a_body_can_break_each_attribute, a_body_can_keep_each_attribute,
    a_call_can_break_each_attribute, a_call_can_keep_each_attribute,
};
pub use promises::{
    a_broken_promise_is_dishonest, a_run_can_open, an_honest_run_can_unwind,
    each_promise_can_be_broken, each_promise_can_be_kept, without_promises_each_run_is_honest,
};
pub use values::{
    a_parameter_can_break_each_attribute, a_parameter_can_keep_each_attribute,
    a_result_can_break_each_attribute, a_result_can_keep_each_attribute,
    a_return_can_break_each_attribute, a_return_can_keep_each_attribute,
    an_argument_can_break_each_attribute, an_argument_can_keep_each_attribute,
};
