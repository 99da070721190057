//! Instructions: a name, the number of the result or `-`, the type, and what the name asks for.
use crate::calls::call;
use crate::operands::{operand, operand_if};
use crate::words::{id, number, ty, word};
use attr_ids::{BlockId, NoMemory, Span, TypeId, ValueId};
use ir_module::{Arm, Case, Clause, Clauses, Instr, Instrs, Op, ShortList, Written};
use ir_ops::{BinOp, CastOp, Pred};
use std::alloc::Global;
use std::str::SplitWhitespace;

fn block(words: &mut SplitWhitespace<'_>) -> BlockId {
    BlockId(id(words))
}

/// A terminator without lists.
fn end(name: &str, words: &mut SplitWhitespace<'_>) -> Op {
    match name {
        "ret" => Op::Ret {
            val: operand_if(words),
        },
        "jump" => Op::Jump { to: block(words) },
        "branch" => Op::Branch {
            yes: block(words),
            no: block(words),
            c: operand(words),
        },
        "resume" => Op::Resume {
            val: operand(words),
        },
        _ => Op::Unreachable,
    }
}

/// An instruction of pointers without lists.
fn memory(name: &str, words: &mut SplitWhitespace<'_>) -> Op {
    match name {
        "alloca" => Op::Alloca {
            ty: ty(words),
            align: Some(number(words)),
            count: operand_if(words),
        },
        "load" => Op::Load {
            ptr: operand(words),
            align: None,
            volatile: false,
        },
        "store" => Op::Store {
            val: operand(words),
            ptr: operand(words),
            align: None,
            volatile: false,
        },
        _ => end(name, words),
    }
}

fn cast(op: CastOp, words: &mut SplitWhitespace<'_>) -> Op {
    Op::Cast {
        op,
        flagged: false,
        a: operand(words),
    }
}

/// An instruction without lists.
fn simple(name: &str, words: &mut SplitWhitespace<'_>) -> Op {
    match name {
        "add" => Op::Bin {
            op: BinOp::Add,
            flagged: false,
            a: operand(words),
            b: operand(words),
        },
        "icmp" => Op::Icmp {
            pred: Pred::Eq,
            flagged: false,
            a: operand(words),
            b: operand(words),
        },
        "ptrtoint" => cast(CastOp::PtrToInt, words),
        "trunc" => cast(CastOp::Trunc, words),
        "zext" => cast(CastOp::ZExt, words),
        "select" => Op::Select {
            c: operand(words),
            a: operand(words),
            b: operand(words),
        },
        "freeze" => Op::Freeze { a: operand(words) },
        _ => memory(name, words),
    }
}

/// What begins with an operand, in a list.
trait Entry: Copy + Default {
    /// The entry that goes on behind its operand.
    fn behind(first: Written, words: &mut SplitWhitespace<'_>) -> Self;
}

impl Entry for Written {
    fn behind(first: Written, _words: &mut SplitWhitespace<'_>) -> Written {
        first
    }
}

impl Entry for Arm {
    fn behind(val: Written, words: &mut SplitWhitespace<'_>) -> Arm {
        Arm {
            val,
            from: block(words),
        }
    }
}

impl Entry for Case {
    fn behind(val: Written, words: &mut SplitWhitespace<'_>) -> Case {
        Case {
            val,
            to: block(words),
        }
    }
}

/// The entries to the end of the line.
fn entries<T: Entry>(
    alloc: Global,
    words: &mut SplitWhitespace<'_>,
) -> Result<ShortList<T>, NoMemory> {
    let mut list = ShortList::new(alloc);
    for _ in 0..u64::MAX {
        let Some(first) = operand_if(words) else {
            break;
        };
        list.push(T::behind(first, words))?;
    }
    Ok(list)
}

fn clauses(
    alloc: Global,
    filter: bool,
    words: &mut SplitWhitespace<'_>,
) -> Result<Clauses, NoMemory> {
    let mut list = Clauses::new(alloc);
    for _ in 0..u64::MAX {
        let Some(val) = operand_if(words) else {
            break;
        };
        list.push(Clause { filter, val })?;
    }
    Ok(list)
}

fn phi(alloc: Global, words: &mut SplitWhitespace<'_>) -> Result<Op, NoMemory> {
    let arms = entries(alloc, words)?;
    Ok(Op::Phi { arms })
}

fn plain_call(alloc: Global, words: &mut SplitWhitespace<'_>) -> Result<Op, NoMemory> {
    let call = call(alloc, words)?;
    Ok(Op::Call(call))
}

fn gep(alloc: Global, words: &mut SplitWhitespace<'_>) -> Result<Op, NoMemory> {
    let elem = ty(words);
    let base = operand(words);
    let indices = entries(alloc, words)?;
    Ok(Op::Gep {
        elem,
        base,
        indices,
        inbounds: false,
        wrap: false,
    })
}

fn switch(alloc: Global, words: &mut SplitWhitespace<'_>) -> Result<Op, NoMemory> {
    let other = block(words);
    let on = operand(words);
    let cases = entries(alloc, words)?;
    Ok(Op::Switch { on, other, cases })
}

fn invoke(alloc: Global, words: &mut SplitWhitespace<'_>) -> Result<Op, NoMemory> {
    let normal = block(words);
    let unwind = block(words);
    let call = call(alloc, words)?;
    Ok(Op::Invoke {
        call,
        normal,
        unwind,
    })
}

/// A landing pad that catches all.
fn pad(alloc: Global, filter: bool, words: &mut SplitWhitespace<'_>) -> Result<Op, NoMemory> {
    let clauses = clauses(alloc, filter, words)?;
    Ok(Op::LandingPad {
        catch_all: true,
        clauses,
    })
}

fn op(alloc: Global, name: &str, words: &mut SplitWhitespace<'_>) -> Result<Op, NoMemory> {
    match name {
        "phi" => phi(alloc, words),
        "gep" => gep(alloc, words),
        "switch" => switch(alloc, words),
        "call" => plain_call(alloc, words),
        "invoke" => invoke(alloc, words),
        "pad" => pad(alloc, false, words),
        "filters" => pad(alloc, true, words),
        _ => Ok(simple(name, words)),
    }
}

fn result(word: &str) -> Option<ValueId> {
    match u32::from_str_radix(word, 10) {
        Ok(v) => Some(ValueId(v)),
        Err(_) => None,
    }
}

fn made(at: u32, value: Option<ValueId>, named: bool, ty: TypeId, op: Op) -> Instr {
    Instr {
        result: value,
        named,
        ty,
        op,
        span: Span { from: at, to: at },
    }
}

/// Puts the instruction of a line at the end of a list.
pub(crate) fn add_instr(
    alloc: Global,
    at: u32,
    instrs: &mut Instrs,
    words: &mut SplitWhitespace<'_>,
) -> Result<(), NoMemory> {
    let name = word(words);
    let written = word(words);
    let value = result(written);
    let ty = ty(words);
    let op = op(alloc, name, words)?;
    instrs.push(made(at, value, written != "-", ty, op))
}
