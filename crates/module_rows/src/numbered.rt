//! Questions about the positions of a module: all of them with their masks, one of them, and how many there are.
ghost use Rattle.ir_module.specs.WellFormed.{HasFew};
ghost use Rattle.ir_uses.specs.Uses.{AreUsesOf};
ghost use Rattle.facts.specs.Bodies.{param_count};
ghost use Rattle.std.specs.Prelude.{◌<◌, ℕ};

use crate::line::Line;
use crate::words::{id, word};
use attr_ids::{FuncId, NoMemory, PosId, SegId, ValueId};
use facts::Pos;
use ir_module::{Module, has_few};
use ir_uses::{Uses, uses};
use positions::{PosRefusal, Positions, has_few_params};
use std::alloc::Global;
use std::str::SplitWhitespace;

fn put_pos(line: &mut Line, p: Pos) {
    let (kind, a, b) = match p {
        Pos::Segment(k) => ("seg", k.0, None),
        Pos::Function(f) => ("fun", f.0, None),
        Pos::Value(v) => ("val", v.0, None),
        Pos::Entry(f, at) => ("entry", f.0, Some(u32::from(at))),
        Pos::Return(f) => ("ret", f.0, None),
        Pos::Reach(row, k) => ("reach", row, Some(k)),
        Pos::Effect(k) => ("effect", k.0, None),
    };
    line.word(kind);
    line.number(u64::from(a));
    if let Some(b) = b {
        line.number(u64::from(b));
    }
}

/// The position that a line names.
pub(crate) fn pos(words: &mut SplitWhitespace<'_>) -> Pos {
    let kind = word(words);
    let a = id(words);
    match kind {
        "seg" => Pos::Segment(SegId(a)),
        "fun" => Pos::Function(FuncId(a)),
        "val" => Pos::Value(ValueId(a)),
        "entry" => Pos::Entry(FuncId(a), (id(words) & 0xff) as u8),
        "ret" => Pos::Return(FuncId(a)),
        "reach" => Pos::Reach(a, id(words)),
        _ => Pos::Effect(SegId(a)),
    }
}

/// The number of a position, if there is one.
pub(crate) fn number(ps: &Positions, p: Pos) -> Option<PosId> {
    for n in 0..ps.count() {
        let here = ps.pos(PosId(n));
        if here == p {
            return Some(ps.number(here));
        }
    }
    None
}

/// Each position with its mask; one whose number is not its place says so.
fn put_all(line: &mut Line, ps: &Positions) {
    for n in 0..ps.count() {
        let p = ps.pos(PosId(n));
        put_pos(line, p);
        line.hex(ps.mask(PosId(n)));
        line.word(if ps.number(p).0 == n {
            ";"
        } else {
            "elsewhere"
        });
    }
}

fn put_one(line: &mut Line, ps: &Positions, p: Pos) {
    match number(ps, p) {
        Some(n) => line.number(u64::from(n.0)),
        None => line.word("none"),
    }
}

fn put_answer(line: &mut Line, ps: &Positions, question: &str, words: &mut SplitWhitespace<'_>) {
    match question {
        "positions" => put_all(line, ps),
        "position" => put_one(line, ps, pos(words)),
        _ => line.number(u64::from(ps.count())),
    }
}

/// Answers a question with the uses of a module.
fn ask_of(
    alloc: Global,
    m: &Module,
    u: &Uses,
    question: &str,
    words: &mut SplitWhitespace<'_>,
    line: &mut Line,
)
    requires few { HasFew m.now }
    requires few_params { (f : ℕ) → param_count m.now f < 256 }
    requires uses { AreUsesOf m.now u.now }
{
    match Positions::of(alloc, m, u) {
        Ok(ps) => put_answer(line, &ps, question, words),
        Err(PosRefusal::TooMany { words }) => {
            line.word("too many:");
            line.number(words);
        }
        Err(PosRefusal::NoMemory) => line.lose(),
    }
}

/// Answers a question for positions; answers whether it is one.
pub(crate) fn ask(
    alloc: Global,
    m: &Module,
    question: &str,
    words: &mut SplitWhitespace<'_>,
    line: &mut Line,
) -> bool {
    if !matches!(question, "positions" | "position" | "position_count") {
        return false;
    }
    if !has_few(m) || !has_few_params(m) {
        return false;
    }
    match uses(alloc, m) {
        Ok(u) => ask_of(alloc, m, &u, question, words, line),
        Err(NoMemory) => line.lose(),
    }
    true
}
