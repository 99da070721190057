//! A module as resolved data: types, globals, functions, blocks, segments, instructions and values in flat
//! tables, each thing named by its number. The front end makes it; the layers above only read it. A segment is
//! a run of instructions of one block that ends in a call or in the block's terminator. The layers above use the
//! definitions of `specs`: what a well formed module is, a spot of it, an edge, an operand, a call, an open body.
#![tactic(auto)]

mod attrs;
mod callee;
mod class;
mod edge;
mod few;
mod formed;
mod formed_body;
mod formed_data;
mod formed_instr;
mod lifetime;
mod module;
mod op;
mod operands;
mod places;
mod present;
mod short_list;

pub use attrs::{
    CallAttrs, CallPlaces, FuncAttrs, FuncPlaces, MemoryAttr, ParamAttrs, ParamAttrsList,
};
pub use callee::direct_callee;
pub use class::{Class, class_of};
pub use edge::{Edge, Way};
pub use few::has_few;
pub use formed::is_well_formed;
pub use lifetime::{LIFETIME_NAMES, is_lifetime};
pub use module::{
    Block, Blocks, Def, Func, Funcs, GlobalVar, Globals, Linkage, Module, Param, Params, Seg, Segs,
    Spot, ValueInfo, Values,
};
pub use op::{
    Arm, Arms, Call, Case, Cases, Clause, Clauses, FuncType, Instr, Instrs, Op, Operand, Operands,
    Shape, Symbol, Written,
};
pub use operands::literal;
pub use places::{block_of, first_seg, func_of, instr_at, segs_of_block, segs_of_func};
pub use short_list::ShortList;
