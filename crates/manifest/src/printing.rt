//! The insertions of a module, in text order.
ghost use Rattle.std.specs.Prelude.{◌≡◌, ◌+◌, ◌++◌, ◌<◌, ℕ, length, map, slice_get, slice_index, Some, true, IfOk, OnOk};
ghost use Rattle.std.specs.Option.{option_map};
ghost use Rattle.ir_module.specs.declared.module.Spot.{Spot};
ghost use Rattle.ir_module.specs.Places.{spot};
ghost use Rattle.ir_module.specs.WellFormed.{IsWellFormed};
ghost use Rattle.facts.specs.Bodies.{is_body, param_count};
ghost use Rattle.positions.specs.Numbering.{AreOf};
ghost use Rattle.rule_says.specs.Reading.{facts_in};
ghost use Rattle.manifest.specs.Added.{inserted, joined};
ghost use Rattle.manifest.specs.Additions as spec;
ghost use Rattle.manifest.specs.Argument.{at_arg};
ghost use Rattle.manifest.specs.Parameter.{at_param, returned_param};
ghost use Rattle.manifest.specs.Ready.{IsReady, IsBodyIf, set_of};

use crate::argument::add_at_arg;
use crate::calls::add_at_call;
use crate::functions::{add_at_function, is_dead_body};
use crate::held::Held;
use crate::parameter::{add_at_param, returned_param};
use crate::returned::{add_at_call_return, add_at_return};
use crate::symbols::{inner_callee, is_exact};
use attr_ids::{BlockId, FuncId, Insertion, Insertions, NoMemory, SegId, WordList};
use facts::Pos;
use ir_module::{Call, Func, Instr, Module};
use ir_uses::Uses;
use lattice_words::segment::DEAD;
use positions::Positions;
use std::alloc::Global;

/// What is added at the arguments of a call.
fn add_at_args(
    alloc: Global,
    held: &Held<'_>,
    callee: Option<FuncId>,
    call: &Call,
    out: &mut Vec<Insertion>,
) -> Result<(), NoMemory>
    requires { IsReady held.now }
    ensures { (s : Spot) → OnOk result (out.new.items ≡ out.old.items ++ map inserted
        (joined (at_arg held.now.m.now (set_of held.now) s call.now (option_map (λ g. g.0) callee)) (length call.now.args))) }
{
    for at in 0..call.args.len() {
        add_at_arg(alloc, held, callee, call, at, out)?;
    }
    Ok(())
}

/// What is added at a call that runs this body, if it runs one.
fn add_call(
    alloc: Global,
    held: &Held<'_>,
    callee: Option<FuncId>,
    call: &Call,
    out: &mut Vec<Insertion>,
) -> Result<(), NoMemory>
    requires ready { IsReady held.now }
    requires body { IsBodyIf held.now.m.now callee }
    ensures { (s : Spot) → OnOk result (out.new.items ≡ out.old.items ++ map inserted
        (spec.call_additions held.now.m.now (set_of held.now) s (option_map (λ g. g.0) callee) call.now)) }
{
    add_at_call_return(alloc, held, callee, call, out)?;
    add_at_args(alloc, held, callee, call, out)?;
    add_at_call(alloc, held, callee, call, out)?;
    Ok(())
}

/// What is added at an instruction, where it is a call.
fn add_at_instr(
    alloc: Global,
    held: &Held<'_>,
    instr: &Instr,
    out: &mut Vec<Insertion>,
) -> Result<(), NoMemory>
    requires { IsReady held.now }
    ensures { (s : Spot) → OnOk result (out.new.items ≡ out.old.items ++ map inserted
        (spec.instr_additions held.now.m.now (set_of held.now) s (Some instr.now))) }
{
    match instr.op.call() {
        Some(call) => {
            let callee = inner_callee(held.m, &instr.op);
            add_call(alloc, held, callee, call, out)?;
            Ok(())
        }
        None => Ok(()),
    }
}

/// What is added in these instructions of segment number k.
fn add_at_instrs(
    alloc: Global,
    held: &Held<'_>,
    instrs: &[Instr],
    out: &mut Vec<Insertion>,
) -> Result<(), NoMemory>
    requires { IsReady held.now }
    ensures { (k : ℕ) → OnOk result (out.new.items ≡ out.old.items ++ map inserted
        (joined (λ at. spec.instr_additions held.now.m.now (set_of held.now) (spot k at) (slice_get instrs.now at)) (length instrs.now))) }
{
    for at in 0..instrs.len() {
        add_at_instr(alloc, held, &instrs[at], out)?;
    }
    Ok(())
}

/// What is added in a segment, where a run comes to it.
fn add_in_seg(
    alloc: Global,
    held: &Held<'_>,
    k: SegId,
    out: &mut Vec<Insertion>,
) -> Result<(), NoMemory>
    requires ready { IsReady held.now }
    requires there { k.0 < length held.now.m.now.segs }
    ensures { OnOk result (out.new.items ≡ out.old.items ++ map inserted
        (spec.seg_additions held.now.m.now (set_of held.now) k.0 (slice_get held.now.m.now.segs k.0))) }
{
    let seg = held.m.seg(k);
    if held.holds(Pos::Segment(k), DEAD) {
        return Ok(());
    }
    add_at_instrs(alloc, held, seg.instrs.as_slice(), out)?;
    Ok(())
}

/// What is added in a block.
fn add_in_block(
    alloc: Global,
    held: &Held<'_>,
    i: BlockId,
    out: &mut Vec<Insertion>,
) -> Result<(), NoMemory>
    requires ready { IsReady held.now }
    requires there { i.0 < length held.now.m.now.blocks }
    ensures { OnOk result (out.new.items ≡ out.old.items ++ map inserted
        (spec.block_additions held.now.m.now (set_of held.now) (slice_get held.now.m.now.blocks i.0))) }
{
    let b = held.m.block(i);
    for k in 0..b.seg_count {
        add_in_seg(alloc, held, SegId(b.first_seg + k), out)?;
    }
    Ok(())
}

/// What is added at the parameters of a body.
fn add_at_params(
    alloc: Global,
    held: &Held<'_>,
    f: FuncId,
    func: &Func,
    out: &mut Vec<Insertion>,
) -> Result<(), NoMemory>
    requires ready { IsReady held.now }
    requires body { is_body held.now.m.now f.0 ≡ true }
    requires few { length func.now.params < 256 }
    ensures { OnOk result (out.new.items ≡ out.old.items ++ map inserted (joined
        (λ at. at_param (set_of held.now) f.0 (returned_param held.now.m.now (set_of held.now) f.0 func.now) at (slice_get func.now.params at))
        (length func.now.params))) }
{
    let returned = returned_param(held, f, func);
    let params = func.params.as_slice();
    for at in 0..params.len() {
        add_at_param(alloc, held, f, returned, at as u8, &params[at], out)?;
    }
    Ok(())
}

/// What is added at the header of a body, where it is exact.
fn add_at_header(
    alloc: Global,
    held: &Held<'_>,
    f: FuncId,
    func: &Func,
    out: &mut Vec<Insertion>,
) -> Result<(), NoMemory>
    requires ready { IsReady held.now }
    requires there { slice_get held.now.m.now.funcs f.0 ≡ Some func.now }
    requires body { is_body held.now.m.now f.0 ≡ true }
    ensures { OnOk result (out.new.items ≡ out.old.items ++ map inserted (spec.header_additions held.now.m.now (set_of held.now) f.0 func.now)) }
{
    if !is_exact(held.m, f) {
        return Ok(());
    }
    add_at_return(alloc, held, f, func, out)?;
    add_at_params(alloc, held, f, func, out)?;
    add_at_function(alloc, held, f, func, out)?;
    Ok(())
}

/// What is added in the blocks of a body.
fn add_in_blocks(
    alloc: Global,
    held: &Held<'_>,
    f: FuncId,
    func: &Func,
    out: &mut Vec<Insertion>,
) -> Result<(), NoMemory>
    requires ready { IsReady held.now }
    requires there { slice_get held.now.m.now.funcs f.0 ≡ Some func.now }
    ensures { OnOk result (out.new.items ≡ out.old.items ++ map inserted
        (joined (λ i. spec.block_additions held.now.m.now (set_of held.now) (slice_get held.now.m.now.blocks
        (func.now.first_block + i))) func.now.block_count)) }
{
    for i in 0..func.block_count {
        add_in_block(alloc, held, BlockId(func.first_block + i), out)?;
    }
    Ok(())
}

/// What is added at a function, where it is defined and a run comes to it.
fn add_at_func(
    alloc: Global,
    held: &Held<'_>,
    f: FuncId,
    out: &mut Vec<Insertion>,
) -> Result<(), NoMemory>
    requires ready { IsReady held.now }
    requires there { f.0 < length held.now.m.now.funcs }
    ensures { OnOk result (out.new.items ≡ out.old.items ++ map inserted
        (spec.func_additions held.now.m.now (set_of held.now) f.0 (slice_get held.now.m.now.funcs f.0))) }
{
    let func = held.m.func(f);
    if func.block_count == 0 {
        return Ok(());
    }
    if is_dead_body(held, f) {
        return Ok(());
    }
    add_at_header(alloc, held, f, func, out)?;
    add_in_blocks(alloc, held, f, func, out)?;
    Ok(())
}

/// What is added to the text of a verified module for the facts that these words hold: `p` are its positions, `_u` its
/// use lists, of which no attribute depends, and `words` has a word for each position. Each function has at most 255
/// parameters. Offsets are in bytes. The only error is that no memory is left.
pub fn insertions(
    alloc: Global,
    m: &Module,
    _u: &Uses,
    p: &Positions,
    words: &WordList,
) -> Result<Insertions, NoMemory>
    requires formed { IsWellFormed m.now }
    requires few_params { (f : ℕ) → param_count m.now f < 256 }
    requires positions { AreOf m.now p.now }
    requires words { length words.now ≡ length p.now.list }
    ensures { IfOk result (λ insertions. insertions ≡ spec.insertions_of m.now (facts_in p.now (slice_index words.now))) }
{
    let held = Held {
        m,
        positions: p,
        words: words.as_slice(),
    };
    let mut out = Vec::new(alloc);
    for f in 0..m.funcs.len() as u32 {
        add_at_func(alloc, &held, FuncId(f), &mut out)?;
    }
    Ok(Insertions::from_vec(out))
}
