//! The rows of bodies.
ghost use Rattle.std.specs.Prelude.{◌≡◌, ◌<◌, ◌≤◌, ◌*◌, ◌-◌, ℕ, Some, OnOk, length, slice_get};
ghost use Rattle.lattice_words.specs.declared.reach.TheConstants.{BODIES};
ghost use Rattle.ir_module.specs.WellFormed.{IsWellFormed};
ghost use Rattle.facts.specs.Bodies as bodies;
ghost use Rattle.rule_says.specs.Reading.{IsNumbering};
ghost use Rattle.rule_says.specs.Meeting.{Meets};
ghost use Rattle.aa_reach.specs.Asked as spec;

use crate::passing::{pass, row};
use crate::ranks::is_body;
use attr_ids::{FuncId, NoMemory, SegId};
use ir_module::{Instr, Module, Seg, segs_of_func};
use positions::Positions;
use rule_terms::System;
use std::alloc::Global;

/// The last instruction of a segment.
fn last(seg: &Seg) -> &Instr
    requires { 0 < length seg.now.instrs }
    ensures { slice_get seg.now.instrs (length seg.now.instrs - 1) ≡ Some result.now }
{
    let instrs = seg.instrs.as_slice();
    &instrs[instrs.len() - 1]
}

/// One segment. A call stands last in its segment, so only the last instruction is looked at.
fn pass_last(
    alloc: Global,
    m: &Module,
    ps: &Positions,
    ranks: &[u32],
    s: &mut System,
    row: u32,
    k: u32,
    q: SegId,
) -> Result<(), NoMemory>
    requires formed { IsWellFormed m.now }
    requires numbering { IsNumbering m.now ps.now }
    requires ranks { spec.AreRanks m.now ranks.now }
    requires word { k * BODIES < bodies.body_count m.now }
    requires row { row ≤ bodies.body_count m.now }
    requires there { q.0 < length m.now.segs }
    requires long { length s.old.masks ≡ length ps.now.list }
    ensures { OnOk result (Meets m.now ps.now s.old s.new (spec.AsksSeg m.now row k q.0) (spec.SpeaksSeg m.now row k q.0)) }
{
    let instr = last(m.seg(q));
    pass(alloc, m, ps, ranks, s, row, k, q, &instr.op)
}

/// One word of the row of a body: each call passes by.
fn body_word(
    alloc: Global,
    m: &Module,
    ps: &Positions,
    ranks: &[u32],
    s: &mut System,
    f: FuncId,
    k: u32,
) -> Result<(), NoMemory>
    requires formed { IsWellFormed m.now }
    requires numbering { IsNumbering m.now ps.now }
    requires ranks { spec.AreRanks m.now ranks.now }
    requires word { k * BODIES < bodies.body_count m.now }
    requires there { f.0 < length m.now.funcs }
    requires long { length s.old.masks ≡ length ps.now.list }
    ensures { OnOk result (Meets m.now ps.now s.old s.new (spec.AsksBody m.now f.0 k) (spec.SpeaksBody m.now f.0 k)) }
{
    let segs = segs_of_func(m, f);
    let own = row(ranks, f.0 as usize);
    for q in segs.start..segs.end {
        pass_last(alloc, m, ps, ranks, s, own, k, SegId(q))?;
    }
    Ok(())
}

/// The row of one body.
fn body_row(
    alloc: Global,
    m: &Module,
    ps: &Positions,
    ranks: &[u32],
    s: &mut System,
    f: FuncId,
    words: u32,
) -> Result<(), NoMemory>
    requires formed { IsWellFormed m.now }
    requires numbering { IsNumbering m.now ps.now }
    requires ranks { spec.AreRanks m.now ranks.now }
    requires words { (k : ℕ) → k < words → k * BODIES < bodies.body_count m.now }
    requires there { f.0 < length m.now.funcs }
    requires long { length s.old.masks ≡ length ps.now.list }
    ensures { OnOk result (Meets m.now ps.now s.old s.new (spec.AsksWords m.now f.0 words) (spec.SpeaksWords m.now f.0 words)) }
{
    for k in 0..words {
        body_word(alloc, m, ps, ranks, s, f, k)?;
    }
    Ok(())
}

/// The row of a function, if it is a body.
fn row_if_body(
    alloc: Global,
    m: &Module,
    ps: &Positions,
    ranks: &[u32],
    s: &mut System,
    f: u32,
    words: u32,
) -> Result<(), NoMemory>
    requires formed { IsWellFormed m.now }
    requires numbering { IsNumbering m.now ps.now }
    requires ranks { spec.AreRanks m.now ranks.now }
    requires words { (k : ℕ) → k < words → k * BODIES < bodies.body_count m.now }
    requires there { f < length m.now.funcs }
    requires long { length s.old.masks ≡ length ps.now.list }
    ensures { OnOk result (Meets m.now ps.now s.old s.new (spec.AsksFunc m.now words f) (spec.SpeaksFunc m.now words f)) }
{
    if is_body(m, f) {
        return body_row(alloc, m, ps, ranks, s, FuncId(f), words);
    }
    Ok(())
}

/// The row of each body.
pub(crate) fn rows(
    alloc: Global,
    m: &Module,
    ps: &Positions,
    ranks: &[u32],
    s: &mut System,
    words: u32,
) -> Result<(), NoMemory>
    requires formed { IsWellFormed m.now }
    requires numbering { IsNumbering m.now ps.now }
    requires ranks { spec.AreRanks m.now ranks.now }
    requires words { (k : ℕ) → k < words → k * BODIES < bodies.body_count m.now }
    requires long { length s.old.masks ≡ length ps.now.list }
    ensures { OnOk result (Meets m.now ps.now s.old s.new (spec.AsksRows m.now words) (spec.SpeaksRows m.now words)) }
{
    for f in 0..m.funcs.len() as u32 {
        row_if_body(alloc, m, ps, ranks, s, f, words)?;
    }
    Ok(())
}
