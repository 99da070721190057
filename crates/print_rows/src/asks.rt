//! Questions: what is added to the text of a module where bits are held, as words, as a list, and in sum.
ghost use Rattle.std.specs.Prelude.{◌≡◌, ◌<◌, ℕ, length, IfOk};
ghost use Rattle.facts.specs.Bodies.{param_count};
ghost use Rattle.ir_module.specs.WellFormed.{IsWellFormed};

use crate::line::Line;
use crate::words::{bits, id, word};
use attr_ids::{FuncId, Insertion, NoMemory, Place, PosId, SegId, ValueId, WordList};
use attr_list::{list, summary};
use facts::Pos;
use ir_module::{Module, is_well_formed};
use ir_uses::uses;
use manifest::insertions;
use positions::{Positions, has_few_params};
use std::alloc::Global;
use std::str::SplitWhitespace;

/// The position that begins with this word.
fn pos(kind: &str, words: &mut SplitWhitespace<'_>) -> Pos {
    let a = id(words);
    match kind {
        "seg" => Pos::Segment(SegId(a)),
        "fun" => Pos::Function(FuncId(a)),
        "val" => Pos::Value(ValueId(a)),
        "entry" => Pos::Entry(FuncId(a), (id(words) & 0xff) as u8),
        "ret" => Pos::Return(FuncId(a)),
        "reach" => Pos::Reach(a, id(words)),
        _ => Pos::Effect(SegId(a)),
    }
}

/// Where a position stands in the list, if it is there.
fn at(ps: &Positions, p: Pos) -> Option<usize> {
    for n in 0..ps.count() {
        if ps.pos(PosId(n)) == p {
            return Some(n as usize);
        }
    }
    None
}

/// A word for each position: the bits that the line gives it, in base 16, or none.
fn held(
    alloc: Global,
    ps: &Positions,
    words: &mut SplitWhitespace<'_>,
) -> Result<WordList, NoMemory>
    ensures { IfOk result (λ held. length held ≡ length ps.now.list) }
{
    let mut held = WordList::from_vec(vec![in alloc; 0u64; ps.count() as usize]?);
    for _ in 0..ps.count() {
        let Some(kind) = words.next() else {
            break;
        };
        let p = pos(kind, words);
        let value = bits(words);
        if let Some(n) = at(ps, p) {
            if n < held.len() {
                held.set(n, value);
            }
        }
    }
    Ok(held)
}

fn place_word(place: Place) -> &'static str {
    match place {
        Place::Function => "function",
        Place::Return => "return",
        Place::Parameter => "parameter",
        Place::Call => "call",
        Place::CallReturn => "call_return",
        Place::Argument => "argument",
    }
}

fn put_insertion(line: &mut Line, insertion: &Insertion) {
    line.number(insertion.at);
    line.word(place_word(insertion.place));
    line.text(insertion.words.as_slice());
    line.word(";");
}

fn ask_of(
    alloc: Global,
    m: &Module,
    question: &str,
    words: &mut SplitWhitespace<'_>,
    line: &mut Line,
) -> Result<(), NoMemory>
    requires formed { IsWellFormed m.now }
    requires few_params { (f : ℕ) → param_count m.now f < 256 }
{
    let u = uses(alloc, m)?;
    let Ok(ps) = Positions::of(alloc, m, &u) else {
        return Err(NoMemory);
    };
    let held = held(alloc, &ps, words)?;
    let ins = insertions(alloc, m, &u, &ps, &held)?;
    match question {
        "list" => line.text(list(alloc, &ins)?.as_slice()),
        "summary" => line.text(summary(alloc, m, &ps, &held, &ins)?.as_slice()),
        _ => {
            for insertion in ins.as_slice() {
                put_insertion(line, insertion);
            }
        }
    }
    Ok(())
}

/// Answers a question; answers whether it is one that can be answered.
pub(crate) fn ask(
    alloc: Global,
    m: &Module,
    question: &str,
    words: &mut SplitWhitespace<'_>,
    line: &mut Line,
) -> Result<bool, NoMemory> {
    if !matches!(question, "insertions" | "list" | "summary") {
        return Ok(false);
    }
    if !is_well_formed(m) || !has_few_params(m) {
        return Ok(false);
    }
    ask_of(alloc, m, question, words, line)?;
    Ok(true)
}
