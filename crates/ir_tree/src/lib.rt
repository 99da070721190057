//! Trees of the grammar of a module, and what it is for a tree to fit a list of tokens. The layer
//! above reads a text into a tree that fits it; the layers after it follow the grammar in the tree.
//! The one contract that they rest on is the law `one_tree`: at most one tree fits a list of tokens.
#![tactic(auto)]

mod attributes;
mod blocks;
mod constants;
mod entities;
mod headers;
mod instructions;
mod laws;
mod leaf;
mod reserved;
mod terminal;
mod types;
mod values;
mod words;

pub use attributes::{Attach, Cc, Comdat, Fattr, Gattr, Inner, Rattr, Word};
pub use blocks::{Block, Body, First, Last, Line};
pub use constants::{Const, Gepflag, Tconst};
pub use entities::{Declare, Define, Entity, GlobalVar, Gtail, Tree, TypeBody};
pub use headers::{Ftail, Header, Param, Params};
pub use instructions::{
    Alloca, Arg, Arguments, Arm, Call, Called, Callee, Case, Clause, Icmp, Instr, Invoke, Select,
    Store, Switch, Term,
};
pub use laws::{one_tree, some_tree};
pub use leaf::Leaf;
pub use reserved::terminal_of;
pub use terminal::Terminal;
pub use types::{Ftype, Ty};
pub use values::{Tvalue, Value};
pub use words::WORDS;
