//! Questions about the uses of a module.
ghost use Rattle.ir_uses.specs.Uses.{AreUsesOf};

use crate::line::Line;
use crate::words::id;
use attr_ids::{FuncId, NoMemory, ValueId};
use ir_module::{Module, Spot, has_few};
use ir_uses::{Use, Uses, uses};
use std::alloc::Global;
use std::str::SplitWhitespace;

fn put_spot(line: &mut Line, spot: Spot) {
    line.number(u64::from(spot.seg.0));
    line.number(u64::from(spot.at))
}

fn put_uses(line: &mut Line, list: &[Use]) {
    for here in list {
        put_spot(line, here.spot);
        line.number(u64::from(here.operand));
        line.word(";");
    }
}

fn put_callers(line: &mut Line, list: &[Spot]) {
    for here in list {
        put_spot(line, *here);
        line.word(";");
    }
}

/// The uses of a value, in the lists of its module.
fn put_of_value(line: &mut Line, m: &Module, u: &Uses, v: u32)
    requires { AreUsesOf m.now u.now }
{
    if v as usize >= m.values.len() {
        return line.word("no such value");
    }
    put_uses(line, u.of_value(ValueId(v)))
}

/// The direct calls of a function, and whether it is open.
fn put_of_func(line: &mut Line, m: &Module, u: &Uses, f: u32)
    requires { AreUsesOf m.now u.now }
{
    if f as usize >= m.funcs.len() {
        return line.word("no such function");
    }
    line.word(if u.is_open(FuncId(f)) {
        "open"
    } else {
        "closed"
    });
    put_callers(line, u.callers(FuncId(f)))
}

fn put_answer(
    line: &mut Line,
    m: &Module,
    u: &Uses,
    question: &str,
    words: &mut SplitWhitespace<'_>,
)
    requires { AreUsesOf m.now u.now }
{
    let number = id(words);
    match question {
        "uses" => put_of_value(line, m, u, number),
        _ => put_of_func(line, m, u, number),
    }
}

/// Answers a question for uses; answers whether it is one.
pub(crate) fn ask(
    alloc: Global,
    m: &Module,
    question: &str,
    words: &mut SplitWhitespace<'_>,
    line: &mut Line,
) -> bool {
    if !matches!(question, "uses" | "callers") || !has_few(m) {
        return false;
    }
    match uses(alloc, m) {
        Ok(u) => put_answer(line, m, &u, question, words),
        Err(NoMemory) => line.lose(),
    }
    true
}
