//! The rules of one written operand: its type is scalar where it has to be, a constant fits the kind of the type that
//! is written for it, integer literals fit their width, and a constant getelementptr is indexed as its types are. They
//! are judged over a table of types, their canonical numbers and the list of the parts of constants, so there need not
//! be a module yet. The layers above use `keeps` (one rule, for a constant and all its parts), `is_scalar_operand` and
//! the rules of a constant getelementptr.
//!
//! The parts of a constant have smaller numbers than it, so a walk over parts ends; it looks at each part once for
//! each constant that names it.
#![tactic(auto)]

mod constant;
mod kind;
mod offset;
mod rule;
mod same;
mod walk;

pub use constant::fits_kind;
pub use kind::{
    are_one, has_values, is_integer, is_integer_of, is_narrower, is_pair, is_pointer, is_scalar,
    is_void, may_return, type_at,
};
pub use offset::{
    all_keep, broken_rule, demands_offset, entered_by, has_size, indexed, is_indexed, literal_of,
    offset_keeps,
};
pub use rule::{ConstantRule, Site};
pub use same::are_one_value;
pub use walk::{is_scalar_operand, keeps, keeps_inside};
