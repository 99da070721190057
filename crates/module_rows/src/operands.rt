//! Operands: a kind, a number and a type. Of a constant with parts the number is that of its first part; a `use` is a value with
//! the offset at which it is written behind its type.
use crate::words::{number, ty, word};
use attr_ids::{FuncId, GlobalId, ValueId};
use ir_module::{Operand, Shape, Symbol, Written};
use std::str::SplitWhitespace;

fn id(n: u64) -> u32 {
    (n & 0xffff_ffff) as u32
}

fn parts(shape: Shape, first: u32, count: u32) -> Operand {
    Operand::Parts {
        shape,
        first,
        count,
    }
}

/// A constant address 8 bytes behind its base.
fn behind(base: Symbol) -> Operand {
    Operand::Offset {
        base,
        bytes: 8,
        inbounds: false,
        wrap: false,
    }
}

/// A constant that names things, or has parts.
fn naming(kind: &str, n: u64) -> Operand {
    match kind {
        "func" => Operand::Func(FuncId(id(n))),
        "global" => Operand::Global(GlobalId(id(n))),
        "behind" => behind(Symbol::Func(FuncId(id(n)))),
        "pair" => parts(Shape::Array, id(n), 2),
        "none" => parts(Shape::Struct, id(n), 0),
        "bytes" => parts(Shape::Bytes, id(n), 2),
        "any" => Operand::AnyInt {
            first: id(n),
            count: 2,
        },
        _ => Operand::Poison,
    }
}

fn val(kind: &str, n: u64) -> Operand {
    match kind {
        "%" | "use" => Operand::Value(ValueId(id(n))),
        "int" => Operand::Int {
            bits: n,
            fits: true,
        },
        "unfit" => Operand::Int {
            bits: n,
            fits: false,
        },
        "truth" => Operand::Truth(n != 0),
        "zero" => Operand::Zero,
        "null" => Operand::Null,
        "wrong" => Operand::WrongOffset {
            rule: (n & 0xff) as u8,
        },
        "undef" => Operand::Undef,
        _ => naming(kind, n),
    }
}

/// The operand that goes on behind its kind.
fn of_kind(kind: &str, words: &mut SplitWhitespace<'_>) -> Written {
    let n = number(words);
    Written {
        val: val(kind, n),
        ty: ty(words),
        at: if kind == "use" { id(number(words)) } else { 0 },
    }
}

/// The next operand.
pub(crate) fn operand(words: &mut SplitWhitespace<'_>) -> Written {
    let kind = word(words);
    of_kind(kind, words)
}

/// The next operand, if there is one.
pub(crate) fn operand_if(words: &mut SplitWhitespace<'_>) -> Option<Written> {
    match words.next() {
        Some(kind) => Some(of_kind(kind, words)),
        None => None,
    }
}
