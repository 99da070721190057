//! The instructions of a block.
ghost use Rattle.std.specs.Prelude.{◌≡◌, ◌∷◌, [], OnOk};
ghost use Rattle.ir_operands.specs.Constants.{ArePartsBelow};
ghost use Rattle.ir_bodies.specs.Context.{context, IsSound};
ghost use Rattle.ir_bodies.specs.Lines as spec;
ghost use Rattle.ir_bodies.specs.Building.{Fills};

use crate::builder::{Builder, next_value};
use crate::instrs::{instr_first, invoke_of, op_of, type_in};
use crate::scene::{Scene, gives_result, is_void, leaf_from, leaf_to, or_leaf};
use attr_ids::{BlockId, NoMemory, Span};
use ir_instrs::{VOID, term_first, term_of, type_of};
use ir_module::Instr;
use ir_tree::{Attach, Invoke, Last, Leaf, Line, Term};
use std::alloc::Global;

fn span(scene: &Scene<'_>, first: Leaf, end: Leaf) -> Span
    ensures { result ≡ spec.span (context scene.now) first end }
{
    Span {
        from: leaf_from(scene, first),
        to: leaf_to(scene, end),
    }
}

/// The last token of an instruction, given the token behind its attachments: a comma stands before the first of these.
fn last_token(attached: &[Attach], next: Leaf) -> Leaf
    ensures { result ≡ spec.last_token attached.now next }
{
    match attached {
        [first, ..] => first.kind.saturating_sub(2),
        [] => next.saturating_sub(1),
    }
}

fn line_first(line: &Line) -> Leaf
    ensures { result ≡ spec.line_first line.now }
{
    match line {
        Line::Opaque(at) => *at,
        Line::Instr { result, instr, .. } => or_leaf(instr_first(instr.get()), *result),
    }
}

fn first_of(lines: &[Line], end: Leaf) -> Leaf
    ensures { result ≡ spec.first_of lines.now end }
{
    match lines {
        [line, ..] => line_first(line),
        [] => end,
    }
}

fn last_first(last: &Last) -> Leaf
    ensures { result ≡ spec.last_first last.now }
{
    match last {
        Last::Term { term, .. } => term_first(term),
        Last::Invoke { result, invoke, .. } => or_leaf(invoke.get().op, *result),
    }
}

fn after_first(after: &[Leaf], end: Leaf) -> Leaf
    ensures { result ≡ spec.after_first after.now end }
{
    match after {
        [first, ..] => *first,
        [] => end,
    }
}

impl Builder {
    /// Puts an instruction of a block in, with its result, where it gives one. `end` is its last token.
    fn instr(
        &mut self,
        alloc: Global,
        scene: &Scene<'_>,
        block: BlockId,
        name: Option<Leaf>,
        instr: &ir_tree::Instr,
        end: Leaf,
    ) -> Result<(), NoMemory>
        requires sound { IsSound scene.now }
        requires below { ArePartsBelow self.old.notes.parts.items }
        ensures { OnOk result (Fills (context scene.now) block
            (spec.instr_of (context scene.now) self.old.values self.old.notes.parts.items name instr.now end ∷ [])
            (spec.instr_uses (context scene.now) instr.now) (spec.raised (spec.instr_gives (context scene.now) instr.now) self.old.values)
            self.old self.new) }
    {
        let next = next_value(gives_result(scene, instr), self.values)?;
        let ty = type_in(alloc, &scene.source, instr)?;
        let op = op_of(alloc, scene, instr, &mut self.notes)?;
        let made = Instr {
            result: next.0,
            named: name.is_some(),
            ty,
            op,
            span: span(scene, or_leaf(instr_first(instr), name), end),
        };
        self.values = next.1;
        self.cutter.push(alloc, block, made)
    }

    /// Puts the instruction of a line in. `next` is the token behind the line.
    fn line(
        &mut self,
        alloc: Global,
        scene: &Scene<'_>,
        block: BlockId,
        line: &Line,
        next: Leaf,
    ) -> Result<(), NoMemory>
        requires sound { IsSound scene.now }
        requires below { ArePartsBelow self.old.notes.parts.items }
        ensures { OnOk result (Fills (context scene.now) block (spec.line_instrs (context scene.now) self.old.values self.old.notes.parts.items next line.now)
            (spec.line_uses (context scene.now) line.now) (spec.line_values (context scene.now) self.old.values line.now) self.old self.new) }
    {
        match line {
            Line::Opaque(_) => Ok(()),
            Line::Instr {
                result,
                instr,
                attached,
            } => {
                let end = last_token(attached.as_slice(), next);
                self.instr(alloc, scene, block, *result, instr.get(), end)
            }
        }
    }

    /// Puts the instructions of lines in. `end` is the token behind them.
    fn lines(
        &mut self,
        alloc: Global,
        scene: &Scene<'_>,
        block: BlockId,
        lines: &[Line],
        end: Leaf,
    ) -> Result<(), NoMemory>
        requires sound { IsSound scene.now }
        requires below { ArePartsBelow self.old.notes.parts.items }
        ensures { OnOk result (Fills (context scene.now) block (spec.lines_instrs (context scene.now) self.old.values self.old.notes.parts.items end lines.now)
            (spec.lines_uses (context scene.now) lines.now) (spec.lines_values (context scene.now) self.old.values lines.now) self.old self.new) }
    {
        let mut rest = lines;
        while let [line, tail @ ..] = rest {
            self.line(alloc, scene, block, line, first_of(tail, end))?;
            rest = tail;
        }
        Ok(())
    }

    /// Puts a terminator in.
    fn term(
        &mut self,
        alloc: Global,
        scene: &Scene<'_>,
        block: BlockId,
        term: &Term,
        end: Leaf,
    ) -> Result<(), NoMemory>
        requires sound { IsSound scene.now }
        requires below { ArePartsBelow self.old.notes.parts.items }
        ensures { OnOk result (Fills (context scene.now) block (spec.term_instr (context scene.now) self.old.notes.parts.items term.now end ∷ [])
            (spec.termin_uses (context scene.now) term.now) self.old.values self.old self.new) }
    {
        let op = term_of(alloc, &scene.source, term, &mut self.notes)?;
        let made = Instr {
            result: None,
            named: false,
            ty: VOID,
            op,
            span: span(scene, term_first(term), end),
        };
        self.cutter.push(alloc, block, made)
    }

    /// Puts an invoke in.
    fn invoke(
        &mut self,
        alloc: Global,
        scene: &Scene<'_>,
        block: BlockId,
        name: Option<Leaf>,
        invoke: &Invoke,
        end: Leaf,
    ) -> Result<(), NoMemory>
        requires sound { IsSound scene.now }
        requires below { ArePartsBelow self.old.notes.parts.items }
        ensures { OnOk result (Fills (context scene.now) block
            (spec.invoke_instr (context scene.now) self.old.values self.old.notes.parts.items name invoke.now end ∷ [])
            (spec.invoked_uses (context scene.now) invoke.now) (spec.raised (spec.invoke_gives (context scene.now) invoke.now) self.old.values)
            self.old self.new) }
    {
        let returned = &invoke.called.callee.result;
        let next = next_value(!is_void(scene, returned), self.values)?;
        let ty = type_of(alloc, &scene.source, returned)?;
        let op = invoke_of(alloc, scene, invoke, &mut self.notes)?;
        let made = Instr {
            result: next.0,
            named: name.is_some(),
            ty,
            op,
            span: span(scene, or_leaf(invoke.op, name), end),
        };
        self.values = next.1;
        self.cutter.push(alloc, block, made)
    }

    /// Puts in what ends a block. `next` is the token behind the block.
    fn last(
        &mut self,
        alloc: Global,
        scene: &Scene<'_>,
        block: BlockId,
        last: &Last,
        next: Leaf,
    ) -> Result<(), NoMemory>
        requires sound { IsSound scene.now }
        requires below { ArePartsBelow self.old.notes.parts.items }
        ensures { OnOk result (Fills (context scene.now) block
            (spec.last_instr (context scene.now) self.old.values self.old.notes.parts.items next last.now ∷ []) (spec.last_uses (context scene.now) last.now)
            (spec.last_values (context scene.now) self.old.values last.now) self.old self.new) }
    {
        match last {
            Last::Term {
                term,
                attached,
                after,
            } => {
                let end = last_token(attached.as_slice(), after_first(after.as_slice(), next));
                self.term(alloc, scene, block, term, end)
            }
            Last::Invoke {
                result,
                invoke,
                attached,
                after,
            } => {
                let end = last_token(attached.as_slice(), after_first(after.as_slice(), next));
                self.invoke(alloc, scene, block, *result, invoke.get(), end)
            }
        }
    }

    /// Puts the instructions of a block in. `next` is the token behind the block.
    pub(crate) fn fill(
        &mut self,
        alloc: Global,
        scene: &Scene<'_>,
        block: BlockId,
        lines: &[Line],
        last: &Last,
        next: Leaf,
    ) -> Result<(), NoMemory>
        requires sound { IsSound scene.now }
        requires below { ArePartsBelow self.old.notes.parts.items }
        ensures { OnOk result (Fills (context scene.now) block
            (spec.block_instrs (context scene.now) self.old.values self.old.notes.parts.items next lines.now last.now)
            (spec.block_uses (context scene.now) lines.now last.now) (spec.block_values (context scene.now) self.old.values lines.now last.now)
            self.old self.new) }
    {
        self.lines(alloc, scene, block, lines, last_first(last))?;
        self.last(alloc, scene, block, last, next)
    }
}
