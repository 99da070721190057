use crate::attrs::{FuncAttrs, FuncPlaces, ParamAttrs};
use crate::op::{Instrs, Operands, Written};
use attr_ids::{BlockId, FuncId, Offsets, SegId, Sequence, Span, Text, TypeId, ValueId};
use ir_types::TypeTable;

/// How a function or a global is seen from outside of its module (LangRef, "Linkage Types").
#[derive(Clone, Copy, PartialEq, Eq)]
pub enum Linkage {
    /// No linkage is written.
    Plain,
    Private,
    Internal,
    AvailableExternally,
    Linkonce,
    Weak,
    Common,
    Appending,
    ExternWeak,
    LinkonceOdr,
    WeakOdr,
    External,
}

/// A global variable (LangRef, "Global Variables").
#[derive(Drop)]
pub struct GlobalVar {
    pub name: Text,
    pub linkage: Linkage,
    pub ty: TypeId,
    pub init: Option<Written>,
    /// A literal that is no u64 counts as 0.
    pub align: Option<u64>,
    /// The offset of the entity's first token.
    pub at: u32,
}

/// A parameter of a function: `place` is the offset of the attributes that are added to it.
#[derive(Clone, Copy, PartialEq, Eq)]
pub struct Param {
    pub value: ValueId,
    pub ty: TypeId,
    pub attrs: ParamAttrs,
    pub place: u32,
}

/// A function (LangRef, "Functions"). A declaration has no blocks; a body's entry is its first block.
#[derive(Drop)]
pub struct Func {
    pub name: Text,
    pub linkage: Linkage,
    pub ret: TypeId,
    pub ret_attrs: ParamAttrs,
    pub params: Params,
    pub variadic: bool,
    pub attrs: FuncAttrs,
    pub places: FuncPlaces,
    /// Whether the header writes a `personality`.
    pub personality: bool,
    /// The constants after `prefix`, `prologue` and `personality`.
    pub extra: Operands,
    /// The span of its name's token in the header.
    pub token: Span,
    /// The offset of the entity's first token.
    pub at: u32,
    pub first_block: u32,
    pub block_count: u32,
}

/// A block, with its segments in order from `first_seg` on.
#[derive(Drop)]
pub struct Block {
    pub func: FuncId,
    pub name: Text,
    pub first_seg: u32,
    pub seg_count: u32,
}

/// A run of instructions of one block that ends in a call or in the block's terminator.
#[derive(Drop)]
pub struct Seg {
    pub block: BlockId,
    pub instrs: Instrs,
}

/// A place of an instruction: number `at` of the segment `seg`, from 0; segments are counted through the whole module.
#[derive(Clone, Copy, PartialEq, Eq)]
pub struct Spot {
    pub seg: SegId,
    pub at: u32,
}

/// Where a value is made: the parameter of this number of its function, or the instruction at a spot.
#[derive(Clone, Copy, PartialEq, Eq)]
pub enum Def {
    Param(u32),
    Instr(Spot),
}

/// A parameter or a result.
#[derive(Clone, Copy, PartialEq, Eq)]
pub struct ValueInfo {
    pub func: FuncId,
    pub ty: TypeId,
    pub def: Def,
}

pub type Globals = Sequence<GlobalVar>;

pub type Funcs = Sequence<Func>;

pub type Params = Sequence<Param>;

pub type Blocks = Sequence<Block>;

pub type Segs = Sequence<Seg>;

pub type Values = Sequence<ValueInfo>;

/// A module. A thing's number is its place in its table.
#[derive(Drop)]
pub struct Module {
    pub types: TypeTable,
    pub globals: Globals,
    pub funcs: Funcs,
    pub blocks: Blocks,
    pub segs: Segs,
    pub values: Values,
    /// The parts of aggregates and of constant expressions.
    pub parts: Operands,
    /// For each type the smallest offset of a place where it is written.
    pub type_at: Offsets,
}
