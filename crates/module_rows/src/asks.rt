//! Questions about a module.
ghost use Rattle.std.specs.Prelude.{◌<◌, length};
ghost use Rattle.ir_module.specs.WellFormed.{IsWellFormed};

use crate::line::Line;
use crate::operands::operand;
use crate::words::id;
use attr_ids::{BlockId, FuncId, SegId};
use ir_module::{
    Class, Edge, Instr, Module, Op, Operand, Spot, Way, Written, block_of, class_of, direct_callee,
    first_seg, func_of, has_few, instr_at, is_lifetime, is_well_formed, literal, segs_of_block,
    segs_of_func,
};
use std::ops::Range;
use std::str::SplitWhitespace;

fn put_operand(line: &mut Line, w: &Written) {
    match w.val {
        Operand::Value(v) => {
            line.word("%");
            line.number(u64::from(v.0))
        }
        Operand::Func(f) => {
            line.word("func");
            line.number(u64::from(f.0))
        }
        Operand::Int { bits, .. } => line.number(bits),
        _ => line.word("constant"),
    }
}

fn put_operands(line: &mut Line, op: &Op) {
    line.number(op.operand_count() as u64);
    for i in 0..op.operand_count() {
        if let Some(w) = op.operand_at(i) {
            put_operand(line, w);
        }
    }
    line.truth(op.operand_at(op.operand_count()).is_some())
}

fn put_edge(line: &mut Line, edge: Edge) {
    line.word(match edge.way {
        Way::Jump => "jump",
        Way::Yes => "yes",
        Way::No => "no",
        Way::Other => "other",
        Way::Case(_) => "case",
        Way::Normal => "normal",
        Way::Unwind => "unwind",
    });
    line.number(u64::from(edge.to.0))
}

fn put_edges(line: &mut Line, op: &Op) {
    line.number(op.edge_count() as u64);
    for i in 0..op.edge_count() {
        if let Some(edge) = op.edge_at(i) {
            put_edge(line, edge);
        }
    }
    line.truth(op.edge_at(op.edge_count()).is_some())
}

/// The number of arguments of a call, and the function that it calls directly.
fn put_call(line: &mut Line, m: &Module, op: &Op) {
    let Some(call) = op.call() else {
        return line.word("no call");
    };
    line.number(call.args.len() as u64);
    match direct_callee(m, op) {
        Some(f) => line.number(u64::from(f.0)),
        None => line.word("not direct"),
    }
}

fn put_class(line: &mut Line, m: &Module, f: FuncId)
    requires { f.0 < length m.now.funcs }
{
    line.word(match class_of(m, f) {
        Class::Declared => "declared",
        Class::Replaceable => "replaceable",
        Class::Exact => "exact",
    });
    line.truth(m.func(f).linkage.is_visible());
    line.truth(is_lifetime(m.func(f)))
}

fn put_range(line: &mut Line, range: Range<u32>) {
    line.number(u64::from(range.start));
    line.number(u64::from(range.end))
}

/// Where a function's segments stand, in a module that is well formed.
fn put_func_segs(line: &mut Line, m: &Module, f: u32)
    requires { IsWellFormed m.now }
{
    if f as usize >= m.funcs.len() {
        return line.word("no such function");
    }
    put_range(line, segs_of_func(m, FuncId(f)))
}

fn put_block_segs(line: &mut Line, m: &Module, b: u32)
    requires { IsWellFormed m.now }
{
    if b as usize >= m.blocks.len() {
        return line.word("no such block");
    }
    line.number(u64::from(first_seg(m, BlockId(b)).0));
    put_range(line, segs_of_block(m, BlockId(b)))
}

/// The block and the function of a segment.
fn put_seg_home(line: &mut Line, m: &Module, s: u32)
    requires { IsWellFormed m.now }
{
    if s as usize >= m.segs.len() {
        return line.word("no such segment");
    }
    line.number(u64::from(block_of(m, SegId(s)).0));
    line.number(u64::from(func_of(m, SegId(s)).0))
}

/// Answers a question for places, which a module has that is well formed.
fn ask_place(m: &Module, question: &str, number: u32, line: &mut Line) {
    if !is_well_formed(m) {
        return line.word("not well formed");
    }
    match question {
        "func_segs" => put_func_segs(line, m, number),
        "block_segs" => put_block_segs(line, m, number),
        _ => put_seg_home(line, m, number),
    }
}

fn put_instr(line: &mut Line, m: &Module, instr: &Instr) {
    put_operands(line, &instr.op);
    put_edges(line, &instr.op);
    put_call(line, m, &instr.op)
}

fn ask_instr(m: &Module, here: Spot, line: &mut Line) {
    match instr_at(m, here) {
        Some(instr) => put_instr(line, m, instr),
        None => line.word("no instruction"),
    }
}

fn ask_func(m: &Module, f: u32, line: &mut Line) {
    if f as usize >= m.funcs.len() {
        return line.word("no such function");
    }
    put_class(line, m, FuncId(f))
}

fn ask_literal(m: &Module, w: Written, line: &mut Line) {
    match literal(m, &w) {
        Some(number) => line.number(number),
        None => line.word("no literal"),
    }
}

/// Answers a question for a module; answers whether it is one.
pub(crate) fn ask(
    m: &Module,
    question: &str,
    words: &mut SplitWhitespace<'_>,
    line: &mut Line,
) -> bool {
    match question {
        "well_formed" => line.truth(is_well_formed(m)),
        "few" => line.truth(has_few(m)),
        "class" => ask_func(m, id(words), line),
        "literal" => ask_literal(m, operand(words), line),
        "instr" => {
            let here = Spot {
                seg: SegId(id(words)),
                at: id(words),
            };
            ask_instr(m, here, line);
        }
        "func_segs" | "block_segs" | "seg_home" => ask_place(m, question, id(words), line),
        _ => return false,
    }
    true
}
