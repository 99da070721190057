//! The types that the bodies of functions write.
ghost use Rattle.std.specs.Prelude.{◌≡◌, ◌++◌, OnOk};
ghost use Rattle.std.specs.List.{flat_map};
ghost use Rattle.ir_type_uses.specs.Uses.{listed};
ghost use Rattle.ir_type_uses.specs.Written as spec;

use crate::instrs::{push_called, push_instr, push_term};
use crate::uses::Uses;
use attr_ids::NoMemory;
use ir_tree::{Block, Body, Instr, Last, Leaf, Line, Term};

/// The token of an instruction's operation, or the one that stands before it.
fn instr_first(instr: &Instr) -> Leaf
    ensures { result ≡ spec.instr_first instr.now }
{
    match instr {
        Instr::Binop { op, .. }
        | Instr::Cast { op, .. }
        | Instr::Freeze { op, .. }
        | Instr::Phi { op, .. }
        | Instr::Load { op, .. }
        | Instr::GetElementPtr { op, .. }
        | Instr::Cleanup { op, .. }
        | Instr::LandingPad { op, .. } => *op,
        Instr::Icmp(x) => x.get().op,
        Instr::Select(x) => x.get().op,
        Instr::Alloca(x) => x.get().op,
        Instr::Store(x) => x.get().op,
        Instr::Call(x) => x.get().tail.unwrap_or(x.get().op),
    }
}

/// The first token of a terminator.
fn term_first(term: &Term) -> Leaf
    ensures { result ≡ spec.term_first term.now }
{
    match term {
        Term::RetVoid { op }
        | Term::Ret { op, .. }
        | Term::Jump { op, .. }
        | Term::Branch { op, .. }
        | Term::Unreachable { op }
        | Term::Resume { op, .. } => *op,
        Term::Switch(x) => x.get().op,
    }
}

fn push_lines<'a>(uses: &mut Uses<'a>, lines: &'a [Line]) -> Result<(), NoMemory>
    ensures { OnOk result (listed uses.new.items ≡ listed uses.old.items ++ flat_map spec.line lines.now) }
{
    for line in lines {
        push_line(uses, line)?;
    }
    Ok(())
}

fn push_line<'a>(uses: &mut Uses<'a>, line: &'a Line) -> Result<(), NoMemory>
    ensures { OnOk result (listed uses.new.items ≡ listed uses.old.items ++ spec.line line.now) }
{
    match line {
        Line::Opaque(_) => Ok(()),
        Line::Instr { result, instr, .. } => {
            let at = result.unwrap_or(instr_first(instr.get()));
            push_instr(uses, at, instr.get())
        }
    }
}

fn push_last<'a>(uses: &mut Uses<'a>, last: &'a Last) -> Result<(), NoMemory>
    ensures { OnOk result (listed uses.new.items ≡ listed uses.old.items ++ spec.last last.now) }
{
    match last {
        Last::Term { term, .. } => push_term(uses, term_first(term), term),
        Last::Invoke { result, invoke, .. } => {
            let at = result.unwrap_or(invoke.get().op);
            push_called(uses, at, &invoke.get().called)
        }
    }
}

fn push_blocks<'a>(uses: &mut Uses<'a>, blocks: &'a [Block]) -> Result<(), NoMemory>
    ensures { OnOk result (listed uses.new.items ≡ listed uses.old.items ++ flat_map spec.block blocks.now) }
{
    for block in blocks {
        push_lines(uses, block.lines.as_slice())?;
        push_last(uses, &block.last)?;
    }
    Ok(())
}

pub(crate) fn push_body<'a>(uses: &mut Uses<'a>, body: &'a Body) -> Result<(), NoMemory>
    ensures { OnOk result (listed uses.new.items ≡ listed uses.old.items ++ spec.body body.now) }
{
    push_lines(uses, body.first.lines.as_slice())?;
    push_last(uses, &body.first.last)?;
    push_blocks(uses, body.blocks.as_slice())
}
