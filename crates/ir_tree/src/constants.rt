use crate::leaf::Leaf;
use crate::types::Ty;
use sqlite_items::{Boxed, Items};

/// `const`
#[cycle(constant)]
#[derive(Drop)]
pub enum Const {
    /// `Int`
    Int(Leaf),
    /// `'true'`
    True(Leaf),
    /// `'false'`
    False(Leaf),
    /// `'null'`
    Null(Leaf),
    /// `'undef'`
    Undef(Leaf),
    /// `'poison'`
    Poison(Leaf),
    /// `'zeroinitializer'`
    Zero(Leaf),
    /// `Global`
    Global(Leaf),
    /// `CStr`
    CStr(Leaf),
    /// `'[' tconst,* ']'`
    Array {
        open: Leaf,
        parts: Items<Tconst>,
    },
    /// `'{' tconst,* '}'`
    Struct {
        open: Leaf,
        parts: Items<Tconst>,
    },
    /// `'<' '{' tconst,* '}' '>'`
    Packed {
        open: Leaf,
        parts: Items<Tconst>,
    },
    /// `'getelementptr' gepflag* '(' type (',' tconst)+ ')'`
    GetElementPtr {
        op: Leaf,
        flags: Items<Gepflag>,
        elem: Boxed<Ty>,
        operands: Items<Tconst>,
    },
    /// `('ptrtoint' | 'trunc') '(' tconst 'to' type ')'`
    Cast {
        op: Leaf,
        of: Boxed<Tconst>,
        to: Boxed<Ty>,
    },
    /// `('add' | 'sub' | 'xor') iflag* '(' tconst ',' tconst ')'`
    Binop {
        op: Leaf,
        flags: Items<Leaf>,
        left: Boxed<Tconst>,
        right: Boxed<Tconst>,
    },
}

/// `tconst`
#[cycle(constant)]
#[derive(Drop)]
pub struct Tconst {
    pub ty: Ty,
    pub value: Const,
}

/// `gepflag`
#[derive(Clone, Copy)]
pub enum Gepflag {
    /// `'inbounds' | 'nusw' | 'nuw'`
    Word(Leaf),
    /// `'inrange' '(' Int ',' Int ')'`
    InRange { word: Leaf, from: Leaf, to: Leaf },
}
