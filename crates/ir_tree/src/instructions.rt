use crate::attributes::{Cc, Rattr, Word};
use crate::constants::{Gepflag, Tconst};
use crate::leaf::Leaf;
use crate::types::{Ftype, Ty};
use crate::values::{Tvalue, Value};
use sqlite_items::{Boxed, Items};

/// `'icmp' iflag* pred type value ',' value`
#[derive(Drop)]
pub struct Icmp {
    pub op: Leaf,
    pub flags: Items<Leaf>,
    pub pred: Leaf,
    pub ty: Ty,
    pub left: Value,
    pub right: Value,
}

/// `'select' tvalue ',' tvalue ',' tvalue`
#[derive(Drop)]
pub struct Select {
    pub op: Leaf,
    pub on: Tvalue,
    pub yes: Tvalue,
    pub no: Tvalue,
}

/// `'alloca' type [',' tvalue] [',' 'align' Int]`
#[derive(Drop)]
pub struct Alloca {
    pub op: Leaf,
    pub ty: Ty,
    pub count: Option<Tvalue>,
    pub align: Option<Leaf>,
}

/// `'store' ['volatile'] tvalue ',' tvalue [',' 'align' Int]`
#[derive(Drop)]
pub struct Store {
    pub op: Leaf,
    pub volatile: Option<Leaf>,
    pub value: Tvalue,
    pub to: Tvalue,
    pub align: Option<Leaf>,
}

/// `arm`
#[derive(Drop)]
pub struct Arm {
    pub value: Value,
    pub from: Leaf,
}

/// `arg`
#[derive(Drop)]
pub struct Arg {
    pub ty: Ty,
    pub words: Items<Rattr>,
    pub value: Value,
}

/// `callee`: `[cc] rattr* (type | ftype) value`
#[derive(Drop)]
pub struct Callee {
    pub cc: Option<Cc>,
    pub result_words: Items<Rattr>,
    pub result: Ty,
    pub params: Option<Ftype>,
    pub value: Value,
}

/// `arguments`: `'(' arg,* ')' (fattr | Group)*`
#[derive(Drop)]
pub struct Arguments {
    pub args: Items<Arg>,
    /// The closing parenthesis.
    pub close: Leaf,
    pub attributes: Items<Word>,
}

/// `called`: `callee arguments`, which a call and an invoke have in common
#[derive(Drop)]
pub struct Called {
    pub callee: Callee,
    pub arguments: Arguments,
}

/// `['tail' | 'notail'] 'call' called`
#[derive(Drop)]
pub struct Call {
    pub tail: Option<Leaf>,
    pub op: Leaf,
    pub called: Called,
}

/// `clause`
#[derive(Drop)]
pub struct Clause {
    pub word: Leaf,
    pub value: Tconst,
}

/// `instr`
#[derive(Drop)]
pub enum Instr {
    /// `binop iflag* type value ',' value`
    Binop {
        op: Leaf,
        flags: Items<Leaf>,
        ty: Ty,
        left: Value,
        right: Value,
    },
    Icmp(Boxed<Icmp>),
    /// `castop iflag* tvalue 'to' type`
    Cast {
        op: Leaf,
        flags: Items<Leaf>,
        of: Tvalue,
        to: Ty,
    },
    Select(Boxed<Select>),
    /// `'freeze' tvalue`
    Freeze {
        op: Leaf,
        of: Tvalue,
    },
    /// `'phi' type arm (',' arm)*`
    Phi {
        op: Leaf,
        ty: Ty,
        arms: Items<Arm>,
    },
    Alloca(Boxed<Alloca>),
    /// `'load' ['volatile'] type ',' tvalue [',' 'align' Int]`
    Load {
        op: Leaf,
        volatile: Option<Leaf>,
        ty: Ty,
        from: Tvalue,
        align: Option<Leaf>,
    },
    Store(Boxed<Store>),
    /// `'getelementptr' gepflag* type ',' tvalue (',' tvalue)*`
    GetElementPtr {
        op: Leaf,
        flags: Items<Gepflag>,
        elem: Ty,
        operands: Items<Tvalue>,
    },
    Call(Boxed<Call>),
    /// `'landingpad' type 'cleanup' clause*`
    Cleanup {
        op: Leaf,
        ty: Ty,
        cleanup: Leaf,
        clauses: Items<Clause>,
    },
    /// `'landingpad' type clause+`
    LandingPad {
        op: Leaf,
        ty: Ty,
        clauses: Items<Clause>,
    },
}

/// `'invoke' called 'to' 'label' Local 'unwind' 'label' Local`
#[derive(Drop)]
pub struct Invoke {
    pub op: Leaf,
    pub called: Called,
    pub normal: Leaf,
    pub unwind: Leaf,
}

/// `case`
#[derive(Drop)]
pub struct Case {
    pub ty: Ty,
    pub value: Leaf,
    pub to: Leaf,
}

/// `'switch' tvalue ',' 'label' Local '[' case* ']'`
#[derive(Drop)]
pub struct Switch {
    pub op: Leaf,
    pub on: Tvalue,
    pub other: Leaf,
    pub cases: Items<Case>,
}

/// `term`
#[derive(Drop)]
pub enum Term {
    /// `'ret' 'void'`
    RetVoid {
        op: Leaf,
    },
    /// `'ret' tvalue`, whose type is not void
    Ret {
        op: Leaf,
        of: Boxed<Tvalue>,
    },
    /// `'br' 'label' Local`
    Jump {
        op: Leaf,
        to: Leaf,
    },
    /// `'br' tvalue ',' 'label' Local ',' 'label' Local`
    Branch {
        op: Leaf,
        on: Boxed<Tvalue>,
        yes: Leaf,
        no: Leaf,
    },
    Switch(Boxed<Switch>),
    /// `'unreachable'`
    Unreachable {
        op: Leaf,
    },
    /// `'resume' tvalue`
    Resume {
        op: Leaf,
        of: Boxed<Tvalue>,
    },
}
