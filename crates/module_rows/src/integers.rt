//! The integer operations: a width, an operation and operands in base 16, each of them with each.
ghost use Rattle.std.specs.Prelude.{◌^◌, ◌<◌, IsTrue, IfSome};
ghost use Rattle.ir_ops.specs.Residue.{IsWidth};

use crate::line::Line;
use crate::words::{bits, id, word};
use attr_ids::NoMemory;
use ir_ops::{
    BinOp, CastOp, OpOut, Pred, all_ones, apply, apply_at, cast, cast_at, compare, compare_at,
};
use std::alloc::Global;
use std::str::SplitWhitespace;

fn op_named(name: &str) -> Option<BinOp> {
    Some(match name {
        "Add" => BinOp::Add,
        "Sub" => BinOp::Sub,
        "Mul" => BinOp::Mul,
        "And" => BinOp::And,
        "Or" => BinOp::Or,
        "Xor" => BinOp::Xor,
        "Shl" => BinOp::Shl,
        "LShr" => BinOp::LShr,
        "AShr" => BinOp::AShr,
        "UDiv" => BinOp::UDiv,
        "URem" => BinOp::URem,
        "SDiv" => BinOp::SDiv,
        "SRem" => BinOp::SRem,
        _ => return None,
    })
}

fn pred_named(name: &str) -> Option<Pred> {
    Some(match name {
        "Eq" => Pred::Eq,
        "Ne" => Pred::Ne,
        "Ugt" => Pred::Ugt,
        "Uge" => Pred::Uge,
        "Ult" => Pred::Ult,
        "Ule" => Pred::Ule,
        "Sgt" => Pred::Sgt,
        "Sge" => Pred::Sge,
        "Slt" => Pred::Slt,
        "Sle" => Pred::Sle,
        _ => return None,
    })
}

/// The numbers to the end of the line.
fn operands(alloc: Global, words: &mut SplitWhitespace<'_>) -> Result<Vec<u64>, NoMemory> {
    let mut list = Vec::new(alloc);
    for _ in 0..id(words) {
        list.push(bits(words))?;
    }
    Ok(list)
}

fn put(line: &mut Line, out: OpOut) {
    match out {
        OpOut::Value(value) => line.hex(value),
        OpOut::Poison => line.word("poison"),
        OpOut::Undefined => line.word("undefined"),
    }
}

/// Whether a number has so many bits.
fn fits(width: u32, a: u64) -> bool
    requires { IsWidth width }
    ensures { IsTrue result → a < 2 ^ width }
{
    a <= all_ones(width)
}

/// The answer of an operation or a comparison on two numbers of the width.
fn put_pair(line: &mut Line, width: u32, name: &str, a: u64, b: u64)
    requires { IsWidth width }
{
    if !fits(width, a) || !fits(width, b) {
        return;
    }
    if let Some(op) = op_named(name) {
        return put(line, apply_at(width, op, a, b));
    }
    match pred_named(name) {
        Some(p) => line.hex(u64::from(compare_at(width, p, a, b))),
        None => line.word("no such operation"),
    }
}

/// The answers on this number and each of the others.
fn put_row(line: &mut Line, width: u32, name: &str, a: u64, list: &[u64])
    requires { IsWidth width }
{
    for b in list {
        put_pair(line, width, name, a, *b);
    }
}

/// The answers on each pair of numbers.
fn put_pairs(line: &mut Line, width: u32, name: &str, list: &[u64])
    requires { IsWidth width }
{
    for a in list {
        put_row(line, width, name, *a, list);
    }
}

/// The answers at widths that the compiler knows.
fn put_known(line: &mut Line, width: u32, op: BinOp, a: u64, b: u64)
    requires { IsWidth width }
{
    if !fits(width, a) || !fits(width, b) {
        return;
    }
    match width {
        1 => put(line, apply::<1>(op, a, b)),
        7 => put(line, apply::<7>(op, a, b)),
        8 => put(line, apply::<8>(op, a, b)),
        64 => put(line, apply::<64>(op, a, b)),
        _ => {}
    }
}

/// A conversion to a narrower or a wider number.
fn put_cast(line: &mut Line, from: u32, to: u32, is_signed: bool, a: u64)
    requires from { IsWidth from }
    requires to { IsWidth to }
{
    if !fits(from, a) {
        return;
    }
    if to < from {
        line.hex(cast_at(from, to, CastOp::Trunc, a));
    } else if from < to && is_signed {
        line.hex(cast_at(from, to, CastOp::SExt, a));
    } else if from < to {
        line.hex(cast_at(from, to, CastOp::ZExt, a));
    }
}

fn put_all_cast(line: &mut Line, from: u32, to: u32, is_signed: bool, list: &[u64])
    requires from { IsWidth from }
    requires to { IsWidth to }
{
    for a in list {
        put_cast(line, from, to, is_signed, *a);
    }
}

/// Conversions and comparisons of numbers of 8 bits at widths that the compiler knows.
fn put_known_of_8(line: &mut Line, a: u64, b: u64) {
    if !fits(8, a) || !fits(8, b) {
        return;
    }
    line.hex(cast::<8, 16>(CastOp::SExt, a));
    line.hex(cast::<8, 16>(CastOp::ZExt, a));
    line.hex(cast::<16, 8>(CastOp::Trunc, 256 + a));
    line.truth(compare::<8>(Pred::Slt, a, b));
    line.truth(compare::<8>(Pred::Ugt, a, b))
}

/// The next word as a width, if it is one.
fn width(words: &mut SplitWhitespace<'_>) -> Option<u32>
    ensures { IfSome result (λ w. IsWidth w) }
{
    let width = id(words);
    if 1 <= width && width <= 64 {
        Some(width)
    } else {
        None
    }
}

/// `int 8 Shl 2 0 1`: an operation or a comparison on each pair of two numbers.
fn ask_int(alloc: Global, words: &mut SplitWhitespace<'_>, line: &mut Line) {
    let Some(width) = width(words) else {
        return line.word("no such width");
    };
    let name = word(words);
    let Ok(list) = operands(alloc, words) else {
        return line.lose();
    };
    put_pairs(line, width, name, &list)
}

/// `cast 8 16 signed 2 0 ff`: numbers of the first width at the second.
fn ask_cast(alloc: Global, words: &mut SplitWhitespace<'_>, line: &mut Line) {
    let (Some(from), Some(to)) = (width(words), width(words)) else {
        return line.word("no such width");
    };
    let is_signed = word(words) == "signed";
    let Ok(list) = operands(alloc, words) else {
        return line.lose();
    };
    put_all_cast(line, from, to, is_signed, &list)
}

/// `known 8 Shl 1 8`: an operation at a width that the compiler knows.
fn ask_known(words: &mut SplitWhitespace<'_>, line: &mut Line) {
    let Some(width) = width(words) else {
        return line.word("no such width");
    };
    match op_named(word(words)) {
        Some(op) => put_known(line, width, op, bits(words), bits(words)),
        None => put_known_of_8(line, bits(words), bits(words)),
    }
}

/// Answers a question for numbers; answers whether it is one.
pub(crate) fn ask(
    alloc: Global,
    question: &str,
    words: &mut SplitWhitespace<'_>,
    line: &mut Line,
) -> bool {
    match question {
        "int" => ask_int(alloc, words, line),
        "cast" => ask_cast(alloc, words, line),
        "known" => ask_known(words, line),
        _ => return false,
    }
    true
}
