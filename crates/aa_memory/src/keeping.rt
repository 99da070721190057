//! What one instruction asks of the effect of its segment.
ghost use Rattle.std.specs.Prelude.{◌≡◌, ◌<◌, ◌^◌, true, IsTrue, OnOk, Some, length, slice_get};
ghost use Rattle.ir_module.specs.Calls as calls;
ghost use Rattle.ir_module.specs.Operands.{operands};
ghost use Rattle.facts.specs.Kinds as kinds;
ghost use Rattle.facts.specs.declared.pos.Pos.TheVariants as pos;
ghost use Rattle.rule_terms.specs.declared.term.NewTerm.{NewTerm as Term};
ghost use Rattle.rule_terms.specs.Names.{is_over};
ghost use Rattle.lattice_words.specs.declared.segment.TheConstants.{DEAD};
ghost use Rattle.positions.specs.Numbering.{IsListed};
ghost use Rattle.rule_says.specs.Reading.{IsNumbering};
ghost use Rattle.rule_says.specs.Saying.{IsUnless};
ghost use Rattle.rule_says.specs.Meeting.{Meets, IsMet};
ghost use Rattle.aa_memory.specs.Accesses.{access_of, off};
ghost use Rattle.aa_memory.specs.Asked as spec;

use crate::accesses::{Access, Callee, Class, Location, access_bit, address, is_volatile, off_bit};
use crate::calling::{callee, of_callee};
use crate::pointers::pointer_off;
use attr_ids::{NoMemory, SegId};
use facts::Pos;
use ir_module::{Module, Op, Written};
use lattice_words::segment;
use positions::{Positions, is_pointer};
use rule_says::{bits, either, meet, unless};
use rule_terms::{NewTerm, System};
use std::alloc::Global;

/// A word of one bit.
fn one(bit: u32) -> u64
    requires { bit < 9 }
    ensures { result ≡ 2 ^ bit }
{
    1 << bit
}

/// The effect of the segment keeps the bit where the segment is dead or the term gives it.
fn keep(
    alloc: Global,
    ps: &Positions,
    s: &mut System,
    k: SegId,
    bit: u32,
    term: NewTerm,
) -> Result<(), NoMemory>
    requires segment { IsListed ps.now (pos.Segment k) }
    requires effect { IsListed ps.now (pos.Effect k) }
    requires long { length s.old.masks ≡ length ps.now.list }
    requires over { IsTrue (is_over (length ps.now.list) term) }
    requires bit { bit < 9 }
    ensures { OnOk result ((t : Term) × IsUnless ps.now t (pos.Segment k) DEAD term × IsMet ps.now s.old s.new (pos.Effect k) (2 ^ bit) t) }
{
    let term = unless(alloc, ps, Pos::Segment(k), segment::DEAD, term)?;
    meet(alloc, ps, s, Pos::Effect(k), one(bit), term)
}

/// The address of an access is to no block of the class.
fn keep_address(
    alloc: Global,
    m: &Module,
    ps: &Positions,
    s: &mut System,
    k: SegId,
    w: &Written,
    a: Access,
    class: Class,
) -> Result<(), NoMemory>
    requires numbering { IsNumbering m.now ps.now }
    requires known { spec.IsKnown ps.now w.now }
    requires there { k.0 < length m.now.segs }
    requires long { length s.old.masks ≡ length ps.now.list }
    ensures { OnOk result (Meets m.now ps.now s.old s.new (spec.AsksAddress m.now a class k.0 w.now) (spec.SpeaksAddress m.now a class k.0 w.now)) }
{
    let bit = off_bit(a, class);
    let term = pointer_off(alloc, m, ps, w, class, one(bit))?;
    keep(alloc, ps, s, k, bit, term)
}

/// The call makes no such access at the default location.
fn keep_default(
    alloc: Global,
    m: &Module,
    ps: &Positions,
    s: &mut System,
    k: SegId,
    op: &Op,
    a: Access,
    class: Class,
) -> Result<(), NoMemory>
    requires numbering { IsNumbering m.now ps.now }
    requires there { k.0 < length m.now.segs }
    requires long { length s.old.masks ≡ length ps.now.list }
    ensures { OnOk result (Meets m.now ps.now s.old s.new (spec.AsksDefault m.now a class k.0 op.now) (spec.SpeaksDefault m.now a class k.0 op.now)) }
{
    let bit = off_bit(a, class);
    let called = callee(m, a, Location::Default, op);
    let default = access_bit(a, Location::Default);
    let term = of_callee(alloc, ps, called, default, one(bit))?;
    keep(alloc, ps, s, k, bit, term)
}

/// If the argument is a pointer, it is to no block of the class, or the call makes no such access through its arguments.
fn keep_arg(
    alloc: Global,
    m: &Module,
    ps: &Positions,
    s: &mut System,
    k: SegId,
    w: &Written,
    callee: Callee,
    a: Access,
    class: Class,
) -> Result<(), NoMemory>
    requires numbering { IsNumbering m.now ps.now }
    requires known { spec.IsKnown ps.now w.now }
    requires found { spec.IsFound ps.now callee }
    requires there { k.0 < length m.now.segs }
    requires long { length s.old.masks ≡ length ps.now.list }
    ensures { OnOk result (Meets m.now ps.now s.old s.new (spec.AsksArg m.now a class k.0 callee w.now) (spec.SpeaksArg m.now a class k.0 callee w.now)) }
{
    if is_pointer(m, w.ty) {
        let bit = off_bit(a, class);
        let argmem = access_bit(a, Location::Argmem);
        let to = one(bit);
        let called = of_callee(alloc, ps, callee, argmem, to)?;
        let apart = pointer_off(alloc, m, ps, w, class, to)?;
        let term = either(alloc, called, apart)?;
        return keep(alloc, ps, s, k, bit, term);
    }
    Ok(())
}

/// Each argument.
fn keep_args(
    alloc: Global,
    m: &Module,
    ps: &Positions,
    s: &mut System,
    k: SegId,
    args: &[Written],
    callee: Callee,
    a: Access,
    class: Class,
) -> Result<(), NoMemory>
    requires numbering { IsNumbering m.now ps.now }
    requires known { spec.AreKnown ps.now args.now }
    requires found { spec.IsFound ps.now callee }
    requires there { k.0 < length m.now.segs }
    requires long { length s.old.masks ≡ length ps.now.list }
    ensures { OnOk result (Meets m.now ps.now s.old s.new (spec.AsksArgs m.now a class k.0 callee args.now)
        (spec.SpeaksArgs m.now a class k.0 callee args.now)) }
{
    for w in args {
        keep_arg(alloc, m, ps, s, k, w, callee, a, class)?;
    }
    Ok(())
}

/// A call makes no such access to a block of the class: none by itself, and none through its arguments or none of
/// them is to one. What is no access and no call makes none.
fn keep_call(
    alloc: Global,
    m: &Module,
    ps: &Positions,
    s: &mut System,
    k: SegId,
    op: &Op,
    a: Access,
    class: Class,
) -> Result<(), NoMemory>
    requires numbering { IsNumbering m.now ps.now }
    requires known { spec.AreKnown ps.now (operands op.now) }
    requires other { spec.IsNoAccess a op.now }
    requires there { k.0 < length m.now.segs }
    requires long { length s.old.masks ≡ length ps.now.list }
    ensures { OnOk result (Meets m.now ps.now s.old s.new (spec.AsksKind m.now (off a class) k.0 op.now) (spec.SpeaksKind m.now (off a class) k.0 op.now)) }
{
    let Some(call) = op.call() else {
        return Ok(());
    };
    keep_default(alloc, m, ps, s, k, op, a, class)?;
    let called = callee(m, a, Location::Argmem, op);
    keep_args(alloc, m, ps, s, k, call.args.as_slice(), called, a, class)
}

/// No such access to a block of the class.
fn keep_off(
    alloc: Global,
    m: &Module,
    ps: &Positions,
    s: &mut System,
    k: SegId,
    op: &Op,
    a: Access,
    class: Class,
) -> Result<(), NoMemory>
    requires numbering { IsNumbering m.now ps.now }
    requires known { spec.AreKnown ps.now (operands op.now) }
    requires there { k.0 < length m.now.segs }
    requires long { length s.old.masks ≡ length ps.now.list }
    ensures { OnOk result (Meets m.now ps.now s.old s.new (spec.AsksKind m.now (off a class) k.0 op.now) (spec.SpeaksKind m.now (off a class) k.0 op.now)) }
{
    match address(op, a) {
        Some(w) => keep_address(alloc, m, ps, s, k, w, a, class),
        None => keep_call(alloc, m, ps, s, k, op, a, class),
    }
}

fn is_call(op: &Op) -> bool
    ensures { result ≡ calls.is_call op.now }
{
    op.call().is_some()
}

/// No such access to what only code outside of the module reaches: no volatile load or store, and no call that makes one.
fn keep_visible(
    alloc: Global,
    m: &Module,
    ps: &Positions,
    s: &mut System,
    k: SegId,
    op: &Op,
    a: Access,
) -> Result<(), NoMemory>
    requires numbering { IsNumbering m.now ps.now }
    requires there { k.0 < length m.now.segs }
    requires long { length s.old.masks ≡ length ps.now.list }
    ensures { OnOk result (Meets m.now ps.now s.old s.new (spec.AsksKind m.now (kinds.NoAccess (access_of a) kinds.Inaccessible) k.0 op.now)
        (spec.SpeaksKind m.now (kinds.NoAccess (access_of a) kinds.Inaccessible) k.0 op.now)) }
{
    let bit = access_bit(a, Location::Inaccessible);
    if is_volatile(op) {
        return keep(alloc, ps, s, k, bit, bits(0));
    }
    if is_call(op) {
        let called = callee(m, a, Location::Inaccessible, op);
        let term = of_callee(alloc, ps, called, bit, one(bit))?;
        return keep(alloc, ps, s, k, bit, term);
    }
    Ok(())
}

/// No such access at any location.
pub(crate) fn keep_access(
    alloc: Global,
    m: &Module,
    ps: &Positions,
    s: &mut System,
    k: SegId,
    op: &Op,
    a: Access,
) -> Result<(), NoMemory>
    requires numbering { IsNumbering m.now ps.now }
    requires known { spec.AreKnown ps.now (operands op.now) }
    requires there { k.0 < length m.now.segs }
    requires long { length s.old.masks ≡ length ps.now.list }
    ensures { OnOk result (Meets m.now ps.now s.old s.new (spec.AsksAccess m.now (access_of a) k.0 op.now) (spec.SpeaksAccess m.now (access_of a) k.0 op.now)) }
{
    keep_off(alloc, m, ps, s, k, op, a, Class::Global)?;
    keep_off(alloc, m, ps, s, k, op, a, Class::Argument)?;
    keep_visible(alloc, m, ps, s, k, op, a)
}
