//! What is gathered of a module once, so that each rule looks it up.
ghost use Rattle.std.specs.Prelude.{ℕ, ◌≡◌, ◌+◌, ◌^◌, ◌<◌, ◌++◌, ◌∷◌, [], ◌↔◌, List, Bool, true, false, IsTrue, IfOk, OnOk, Some};
ghost use Rattle.std.specs.Prelude.{length, take, replicate, slice_get, slice_set, slice_index_or};
ghost use Rattle.ir_module.specs.Edges.{edges};
ghost use Rattle.ir_module.specs.WellFormed.{IsWellFormed};
ghost use Rattle.ir_rules.specs.Blocks.{IsUnwoundTo, StartsWithPad, edges_in, terminator as spec_terminator};
ghost use Rattle.ir_rules.specs.Survey as spec;

use crate::blocks::{starts_with_pad, terminator, unwind_from};
use attr_ids::{BlockId, NoMemory, Offsets, Sequence};
use ir_module::{Edge, Module, Op};
use std::alloc::Global;

/// Lists of the numbers of blocks.
pub type SourceLists = Sequence<Offsets>;

/// A mark for each block.
pub type Marks = Sequence<bool>;

/// What is gathered of a module: for each block the blocks from which edges lead to it, with repeats, whether an unwind edge
/// leads to it, and whether it starts with a landing pad.
#[derive(Drop)]
pub struct Survey {
    pub sources: SourceLists,
    pub unwound: Marks,
    pub pads: Marks,
}

/// The mark of a block.
fn mark_of(marks: &Marks, b: BlockId) -> bool
    requires { b.0 < length marks.now }
    ensures { slice_get marks.now b.0 ≡ Some result }
{
    marks.as_slice()[b.0 as usize]
}

impl Survey {
    /// The blocks from which edges lead to a block, with repeats.
    pub fn sources_of(&self, b: BlockId) -> &[u32]
        requires { b.0 < length self.now.sources }
        ensures { slice_get self.now.sources b.0 ≡ Some result.now }
    {
        self.sources.as_slice()[b.0 as usize].as_slice()
    }

    /// Whether an unwind edge leads to a block.
    pub fn is_unwound_to(&self, b: BlockId) -> bool
        requires { b.0 < length self.now.unwound }
        ensures { slice_get self.now.unwound b.0 ≡ Some result }
    {
        mark_of(&self.unwound, b)
    }

    /// Whether a block starts with a landing pad, behind its phis.
    pub fn starts_with_pad(&self, b: BlockId) -> bool
        requires { b.0 < length self.now.pads }
        ensures { slice_get self.now.pads b.0 ≡ Some result }
    {
        mark_of(&self.pads, b)
    }
}

// ---- sources

/// Notes that an edge leads from one block to another.
fn note_source(lists: &mut [Offsets], from: u32, to: u32) -> Result<(), NoMemory>
    requires { to < length lists.old }
    ensures { OnOk result (lists.new ≡ slice_set lists.old to (slice_index_or lists.old to [] ++ from ∷ [])) }
{
    let list = &mut lists[to as usize];
    list.push(from)
}

/// Notes edge number `k` of the terminator of block `from`.
fn note_edge(lists: &mut [Offsets], from: u32, op: &Op, k: usize) -> Result<(), NoMemory>
    requires there { k < length (edges op.now) }
    requires targets { (i : ℕ) (e : Edge) → slice_get (edges op.now) i ≡ Some e → e.to.0 < length lists.old }
    ensures { OnOk result ((old : List (List ℕ)) → spec.Adds old lists.old from (take k (edges op.now))
        → spec.Adds old lists.new from (take (k + 1) (edges op.now))) }
{
    match op.edge_at(k) {
        Some(edge) => note_source(lists, from, edge.to.0),
        None => unreachable!(),
    }
}

/// Notes the edges of the terminator of block `from`.
fn note_edges(lists: &mut [Offsets], from: u32, op: &Op) -> Result<(), NoMemory>
    requires { (i : ℕ) (e : Edge) → slice_get (edges op.now) i ≡ Some e → e.to.0 < length lists.old }
    ensures { OnOk result (spec.Adds lists.old lists.new from (edges op.now)) }
{
    for k in 0..op.edge_count() {
        note_edge(lists, from, op, k)?;
    }
    Ok(())
}

/// Notes the edges from block `from`, if it has a terminator.
fn note_block(m: &Module, lists: &mut [Offsets], from: u32) -> Result<(), NoMemory>
    requires formed { IsWellFormed m.now }
    requires long { length lists.old ≡ length m.now.blocks }
    ensures { OnOk result (spec.Adds lists.old lists.new from (edges_in (spec_terminator m.now from))) }
{
    match terminator(m, from as usize) {
        Some(instr) => note_edges(lists, from, &instr.op),
        None => Ok(()),
    }
}

/// Notes the edges from each block of a module.
fn note_blocks(m: &Module, lists: &mut [Offsets]) -> Result<(), NoMemory>
    requires formed { IsWellFormed m.now }
    requires few { length m.now.blocks < 2 ^ 31 }
    requires empty { lists.old ≡ replicate (length m.now.blocks) [] }
    ensures { OnOk result (spec.AreSources m.now lists.new) }
{
    for from in 0..m.blocks.len() {
        note_block(m, lists, from as u32)?;
    }
    Ok(())
}

/// So many empty lists.
fn empty_lists(alloc: Global, count: usize) -> Result<Vec<Offsets>, NoMemory>
    ensures { IfOk result (λ lists. lists.items ≡ replicate count []) }
{
    let mut lists = Vec::new(alloc);
    for _ in 0..count {
        lists.push(Offsets::new(alloc))?;
    }
    Ok(lists)
}

/// For each block the blocks from which edges lead to it, with repeats.
fn sources(alloc: Global, m: &Module) -> Result<SourceLists, NoMemory>
    requires formed { IsWellFormed m.now }
    requires few { length m.now.blocks < 2 ^ 31 }
    ensures { IfOk result (λ lists. spec.AreSources m.now lists) }
{
    let mut lists = empty_lists(alloc, m.blocks.len())?;
    note_blocks(m, &mut lists)?;
    Ok(Sequence::from_vec(lists))
}

// ---- marks

fn set_mark(marks: &mut [bool], b: BlockId)
    requires { b.0 < length marks.old }
    ensures { marks.new ≡ slice_set marks.old b.0 true }
{
    marks[b.0 as usize] = true;
}

/// Marks the block to which the terminator of block `b` unwinds, if it does.
fn mark_from(m: &Module, marks: &mut [bool], b: usize)
    requires formed { IsWellFormed m.now }
    requires marked { spec.AreMarks (spec.IsUnwoundBefore m.now b) (length m.now.blocks) marks.old }
    ensures { spec.AreMarks (spec.IsUnwoundBefore m.now (b + 1)) (length m.now.blocks) marks.new }
{
    match unwind_from(m, b) {
        Some(to) => set_mark(marks, to),
        None => {}
    }
}

/// Marks the blocks to which unwind edges lead.
fn mark_unwound(m: &Module, marks: &mut [bool])
    requires formed { IsWellFormed m.now }
    requires unset { marks.old ≡ replicate (length m.now.blocks) false }
    ensures { spec.AreMarks (IsUnwoundTo m.now) (length m.now.blocks) marks.new }
{
    for b in 0..m.blocks.len() {
        mark_from(m, marks, b);
    }
}

/// So many marks that are not set.
fn unset(alloc: Global, count: usize) -> Result<Vec<bool>, NoMemory>
    ensures { IfOk result (λ marks. marks.items ≡ replicate count false) }
{
    Ok(vec![in alloc; false; count]?)
}

/// A mark for each block to which an unwind edge leads.
fn unwound(alloc: Global, m: &Module) -> Result<Marks, NoMemory>
    requires { IsWellFormed m.now }
    ensures { IfOk result (λ marks. spec.AreMarks (IsUnwoundTo m.now) (length m.now.blocks) marks) }
{
    let mut marks = unset(alloc, m.blocks.len())?;
    mark_unwound(m, &mut marks);
    Ok(Sequence::from_vec(marks))
}

/// A mark for each block that starts with a landing pad.
fn pads(alloc: Global, m: &Module) -> Result<Marks, NoMemory>
    requires { length m.now.blocks < 2 ^ 31 }
    ensures { IfOk result (λ marks. spec.AreMarks (StartsWithPad m.now) (length m.now.blocks) marks) }
{
    let mut marks = Vec::new(alloc);
    for b in 0..m.blocks.len() {
        marks.push(starts_with_pad(m, BlockId(b as u32)))?;
    }
    Ok(Sequence::from_vec(marks))
}

/// What is gathered of a module. It takes time linear in it.
pub fn gather(alloc: Global, m: &Module) -> Result<Survey, NoMemory>
    requires { IsWellFormed m.now }
    ensures { IfOk result (λ survey. spec.IsSurveyOf m.now survey) }
{
    let of_edges = sources(alloc, m)?;
    let of_unwinds = unwound(alloc, m)?;
    let of_pads = pads(alloc, m)?;
    Ok(Survey {
        sources: of_edges,
        unwound: of_unwinds,
        pads: of_pads,
    })
}
