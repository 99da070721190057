use crate::attrs::{CallAttrs, CallPlaces};
use crate::short_list::ShortList;
use attr_ids::{BlockId, FuncId, GlobalId, Sequence, Span, TypeId, ValueId};
use ir_ops::{BinOp, CastOp, Pred};
use ir_types::TypeList;

/// The base of a constant address.
#[derive(Clone, Copy, PartialEq, Eq)]
pub enum Symbol {
    Global(GlobalId),
    Func(FuncId),
}

/// The form of an aggregate constant.
#[derive(Clone, Copy, PartialEq, Eq)]
pub enum Shape {
    Array,
    Struct,
    Packed,
    /// A string of `count` bytes.
    Bytes,
}

/// A value as it is named where it is used.
#[derive(Clone, Copy, PartialEq, Eq)]
pub enum Operand {
    Value(ValueId),
    /// An integer literal; where it `fits` its width, `bits` is its value modulo 2^width.
    Int {
        bits: u64,
        fits: bool,
    },
    /// `true` or `false`.
    Truth(bool),
    /// `zeroinitializer`.
    Zero,
    Null,
    Undef,
    Poison,
    Global(GlobalId),
    Func(FuncId),
    /// A constant getelementptr, or a chain of them: `bytes` is the sum of its offsets.
    Offset {
        base: Symbol,
        bytes: i64,
        inbounds: bool,
        wrap: bool,
    },
    /// A constant getelementptr that breaks a rule of the verifier, the least of them `rule`.
    WrongOffset {
        rule: u8,
    },
    /// An aggregate, whose parts are `count` entries of the module's parts from `first` on.
    Parts {
        shape: Shape,
        first: u32,
        count: u32,
    },
    /// Another constant expression, with its parts.
    AnyInt {
        first: u32,
        count: u32,
    },
}

/// An operand with the type that is written for it, and the offset of the first token of its value.
#[derive(Clone, Copy, PartialEq, Eq)]
pub struct Written {
    pub val: Operand,
    pub ty: TypeId,
    pub at: u32,
}

/// What an unused place of a list holds.
impl Default for Written {
    fn default() -> Written {
        Written {
            val: Operand::Poison,
            ty: TypeId(0),
            at: 0,
        }
    }
}

/// The function type that a call writes.
#[derive(Drop)]
pub struct FuncType {
    pub ret: TypeId,
    pub params: TypeList,
    pub variadic: bool,
}

/// A value of a phi, and the block that it comes from.
#[derive(Clone, Copy, PartialEq, Eq)]
pub struct Arm {
    pub val: Written,
    pub from: BlockId,
}

/// What an unused place of a list holds.
impl Default for Arm {
    fn default() -> Arm {
        Arm {
            val: Written::default(),
            from: BlockId(0),
        }
    }
}

/// A case of a switch.
#[derive(Clone, Copy, PartialEq, Eq)]
pub struct Case {
    pub val: Written,
    pub to: BlockId,
}

/// What an unused place of a list holds.
impl Default for Case {
    fn default() -> Case {
        Case {
            val: Written::default(),
            to: BlockId(0),
        }
    }
}

/// A clause of a landing pad: a `filter`, or a `catch`.
#[derive(Clone, Copy, PartialEq, Eq)]
pub struct Clause {
    pub filter: bool,
    pub val: Written,
}

pub type Operands = ShortList<Written>;

pub type Arms = ShortList<Arm>;

pub type Cases = ShortList<Case>;

pub type Clauses = Sequence<Clause>;

/// A call as it is written, of a `call` and of an `invoke` alike (LangRef, "'call' Instruction").
#[derive(Drop)]
pub struct Call {
    pub func_ty: FuncType,
    pub callee: Written,
    pub args: Operands,
    pub attrs: CallAttrs,
    pub places: CallPlaces,
}

/// What an instruction does (LangRef, "Instruction Reference"). A `flagged` one may give poison.
#[derive(Drop)]
pub enum Op {
    Bin {
        op: BinOp,
        flagged: bool,
        a: Written,
        b: Written,
    },
    Icmp {
        pred: Pred,
        flagged: bool,
        a: Written,
        b: Written,
    },
    Cast {
        op: CastOp,
        flagged: bool,
        a: Written,
    },
    Select {
        c: Written,
        a: Written,
        b: Written,
    },
    Freeze {
        a: Written,
    },
    Phi {
        arms: Arms,
    },
    Alloca {
        ty: TypeId,
        count: Option<Written>,
        align: Option<u64>,
    },
    Load {
        ptr: Written,
        align: Option<u64>,
        volatile: bool,
    },
    Store {
        val: Written,
        ptr: Written,
        align: Option<u64>,
        volatile: bool,
    },
    Gep {
        elem: TypeId,
        base: Written,
        indices: Operands,
        inbounds: bool,
        wrap: bool,
    },
    Call(Call),
    Invoke {
        call: Call,
        normal: BlockId,
        unwind: BlockId,
    },
    /// `catch_all` where `cleanup` stands or a `catch` has the constant `null`.
    LandingPad {
        catch_all: bool,
        clauses: Clauses,
    },
    Resume {
        val: Written,
    },
    Ret {
        val: Option<Written>,
    },
    Jump {
        to: BlockId,
    },
    Branch {
        c: Written,
        yes: BlockId,
        no: BlockId,
    },
    Switch {
        on: Written,
        other: BlockId,
        cases: Cases,
    },
    Unreachable,
}

/// An instruction, its result where it has one, and where it is written.
#[derive(Drop)]
pub struct Instr {
    pub result: Option<ValueId>,
    /// Whether a result name is written.
    pub named: bool,
    pub ty: TypeId,
    pub op: Op,
    pub span: Span,
}

pub type Instrs = Sequence<Instr>;
