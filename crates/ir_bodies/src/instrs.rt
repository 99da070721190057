//! Instructions, by their productions.
ghost use Rattle.std.specs.Prelude.{◌≡◌, IfOk};
ghost use Rattle.ir_module.specs.declared.op.Op.TheVariants as op;
ghost use Rattle.ir_operands.specs.Constants.{ArePartsBelow};
ghost use Rattle.ir_instrs.specs.Reading.{reading};
ghost use Rattle.ir_instrs.specs.Uses.{Takes};
ghost use Rattle.ir_bodies.specs.Context.{context, IsSound};
ghost use Rattle.ir_bodies.specs.Calls as calls;
ghost use Rattle.ir_bodies.specs.Instrs as spec;

use crate::calls::call_of;
use crate::scene::{Scene, or_leaf};
use attr_ids::{NoMemory, TypeId};
use ir_consts::Laid;
use ir_instrs::{
    PTR, Source, VOID, alloca, any_catches, binop, bit, cast, freeze, gep, icmp, label,
    landing_pad, load, phi, select, store, type_of,
};
use ir_module::Op;
use ir_tree::{Call, Instr, Invoke, Leaf};
use std::alloc::Global;

fn call(alloc: Global, scene: &Scene<'_>, x: &Call, notes: &mut Laid) -> Result<Op, NoMemory>
    requires sound { IsSound scene.now }
    requires below { ArePartsBelow notes.old.parts.items }
    ensures value { IfOk result (λ o. o ≡ op.Call (calls.call_of (context scene.now) notes.old.parts.items x.now.called)) }
    ensures takes { IfOk result (λ _. Takes (context scene.now).reading (calls.call_uses (context scene.now).reading x.now.called) notes.old notes.new) }
{
    let call = call_of(alloc, scene, &x.called, notes)?;
    Ok(Op::Call(call))
}

/// What an instruction does, and what it names.
#[tactic(auto, unfolding(crate::specs::Instrs::op_of, crate::specs::Instrs::uses_of))]
pub(crate) fn op_of(
    alloc: Global,
    scene: &Scene<'_>,
    instr: &Instr,
    notes: &mut Laid,
) -> Result<Op, NoMemory>
    requires sound { IsSound scene.now }
    requires below { ArePartsBelow notes.old.parts.items }
    ensures value { IfOk result (λ o. o ≡ spec.op_of (context scene.now) notes.old.parts.items instr.now) }
    ensures takes { IfOk result (λ _. Takes (context scene.now).reading (spec.uses_of (context scene.now).reading instr.now) notes.old notes.new) }
{
    let src = &scene.source;
    match instr {
        Instr::Binop {
            op,
            flags,
            ty,
            left,
            right,
        } => binop(alloc, src, *op, flags.as_slice(), ty, left, right, notes),
        Instr::Icmp(x) => icmp(alloc, src, x.get(), notes),
        Instr::Cast { op, flags, of, .. } => cast(alloc, src, *op, flags.as_slice(), of, notes),
        Instr::Select(x) => select(alloc, src, x.get(), notes),
        Instr::Freeze { of, .. } => freeze(alloc, src, of, notes),
        Instr::Phi { ty, arms, .. } => phi(alloc, src, ty, arms.as_slice(), notes),
        Instr::Alloca(x) => alloca(alloc, src, x.get(), notes),
        Instr::Load {
            volatile,
            from,
            align,
            ..
        } => load(alloc, src, *volatile, from, *align, notes),
        Instr::Store(x) => store(alloc, src, x.get(), notes),
        Instr::GetElementPtr {
            flags,
            elem,
            operands,
            ..
        } => gep(
            alloc,
            src,
            flags.as_slice(),
            elem,
            operands.as_slice(),
            notes,
        ),
        Instr::Call(x) => call(alloc, scene, x.get(), notes),
        Instr::Cleanup { clauses, .. } => landing_pad(alloc, src, true, clauses.as_slice(), notes),
        Instr::LandingPad { clauses, .. } => {
            let clauses = clauses.as_slice();
            landing_pad(alloc, src, any_catches(src, clauses), clauses, notes)
        }
    }
}

/// The type of an instruction.
#[tactic(auto, unfolding(crate::specs::Instrs::type_in))]
pub(crate) fn type_in(alloc: Global, src: &Source<'_>, instr: &Instr) -> Result<TypeId, NoMemory>
    ensures { IfOk result (λ t. t ≡ spec.type_in (reading src.now) instr.now) }
{
    match instr {
        Instr::Icmp(_) => bit(alloc, src),
        Instr::Alloca(_) | Instr::GetElementPtr { .. } => Ok(PTR),
        Instr::Store(_) => Ok(VOID),
        Instr::Binop { ty, .. }
        | Instr::Phi { ty, .. }
        | Instr::Load { ty, .. }
        | Instr::Cleanup { ty, .. }
        | Instr::LandingPad { ty, .. }
        | Instr::Cast { to: ty, .. } => type_of(alloc, src, ty),
        Instr::Select(select) => type_of(alloc, src, &select.get().yes.ty),
        Instr::Freeze { of, .. } => type_of(alloc, src, &of.ty),
        Instr::Call(call) => type_of(alloc, src, &call.get().called.callee.result),
    }
}

/// The first token of an instruction, behind a result name.
#[tactic(auto, unfolding(crate::specs::Instrs::instr_first))]
pub(crate) fn instr_first(instr: &Instr) -> Leaf
    ensures { result ≡ spec.instr_first instr.now }
{
    match instr {
        Instr::Binop { op, .. }
        | Instr::Cast { op, .. }
        | Instr::Freeze { op, .. }
        | Instr::Phi { op, .. }
        | Instr::Load { op, .. }
        | Instr::GetElementPtr { op, .. }
        | Instr::Cleanup { op, .. }
        | Instr::LandingPad { op, .. } => *op,
        Instr::Icmp(x) => x.get().op,
        Instr::Select(x) => x.get().op,
        Instr::Alloca(x) => x.get().op,
        Instr::Store(x) => x.get().op,
        Instr::Call(x) => or_leaf(x.get().op, x.get().tail),
    }
}

/// What an invoke does, and what it names.
pub(crate) fn invoke_of(
    alloc: Global,
    scene: &Scene<'_>,
    x: &Invoke,
    notes: &mut Laid,
) -> Result<Op, NoMemory>
    requires sound { IsSound scene.now }
    requires below { ArePartsBelow notes.old.parts.items }
    ensures value { IfOk result (λ o. o ≡ spec.invoke_of (context scene.now) notes.old.parts.items x.now) }
    ensures takes { IfOk result (λ _. Takes (context scene.now).reading (spec.invoke_uses (context scene.now).reading x.now) notes.old notes.new) }
{
    let call = call_of(alloc, scene, &x.called, notes)?;
    let normal = label(&scene.source, x.normal, notes);
    let unwind = label(&scene.source, x.unwind, notes);
    Ok(Op::Invoke {
        call,
        normal,
        unwind,
    })
}
