//! Which functions have their address taken.
ghost use Rattle.std.specs.Prelude.{◌≡◌, ◌==◌, ◌<◌, ◌^◌, ℕ, Bool, false, drop, length, slice_get, Some, IfSome, IfNone, IsSome};
ghost use Rattle.std.specs.List.{list_any};
ghost use Rattle.ir_module.specs.WellFormed.{Each, IsShort, HasFew};
ghost use Rattle.ir_module.specs.Operands.{optional, operands};
ghost use Rattle.ir_module.specs.Calls.{names, takers, is_taken, is_taken_by};
ghost use Rattle.ir_uses.specs.Raised.{Raises};

use attr_ids::FuncId;
use ir_module::{Func, GlobalVar, Instr, Module, Op, Operand, Seg, Symbol, Written, direct_callee};

/// The function whose name stands in an operand, by itself or as the base of a constant address.
fn named_by(w: &Written) -> Option<FuncId>
    ensures some { IfSome result (λ g. (f : ℕ) → names f w.now ≡ (g.0 == f)) }
    ensures none { IfNone result ((f : ℕ) → names f w.now ≡ false) }
{
    match w.val {
        Operand::Func(f)
        | Operand::Offset {
            base: Symbol::Func(f),
            ..
        } => Some(f),
        _ => None,
    }
}

/// Raises the flag of the function whose name stands in an operand.
fn mark(flags: &mut [bool], w: &Written)
    ensures { Raises flags.old flags.new (λ f. names f w.now) }
{
    if let Some(f) = named_by(w) {
        let at = f.0 as usize;
        if at < flags.len() {
            flags[at] = true;
        }
    }
}

/// Raises the flags of the functions whose names stand in operands.
fn mark_all(flags: &mut [bool], ws: &[Written])
    ensures { Raises flags.old flags.new (λ f. list_any (names f) ws.now) }
{
    for w in ws {
        mark(flags, w);
    }
}

/// Raises the flags of the functions whose names stand in the initial values of globals.
fn mark_globals(flags: &mut [bool], globals: &[GlobalVar])
    ensures { Raises flags.old flags.new (λ f. list_any (λ g. list_any (names f) (optional g.init)) globals.now) }
{
    for global in globals {
        mark_initial(flags, global);
    }
}

/// Raises the flag of the function whose name is a global's initial value.
fn mark_initial(flags: &mut [bool], global: &GlobalVar)
    ensures { Raises flags.old flags.new (λ f. list_any (names f) (optional global.now.init)) }
{
    if let Some(init) = &global.init {
        mark(flags, init);
    }
}

/// Raises the flags of the functions whose names stand behind `prefix`, `prologue` or `personality`.
fn mark_headers(flags: &mut [bool], funcs: &[Func])
    ensures { Raises flags.old flags.new (λ f. list_any (λ g. list_any (names f) g.extra) funcs.now) }
{
    for func in funcs {
        mark_all(flags, func.extra.as_slice());
    }
}

/// The first operand by which an instruction takes an address: the second, if the first is the callee of a direct call.
fn first_taker(m: &Module, op: &Op) -> usize
    ensures { drop result (operands op.now) ≡ takers m.now op.now }
{
    match direct_callee(m, op) {
        Some(_) => 1,
        None => 0,
    }
}

/// Raises the flags of the functions whose addresses an instruction takes: all whose names stand in its operands, but
/// the callee of a direct call.
fn mark_instr(m: &Module, flags: &mut [bool], instr: &Instr)
    requires { IsShort 0 instr.now }
    ensures { Raises flags.old flags.new (λ f. list_any (names f) (takers m.now instr.now.op)) }
{
    let first = first_taker(m, &instr.op);
    for at in first..instr.op.operand_count() {
        if let Some(w) = instr.op.operand_at(at) {
            mark(flags, w);
        }
    }
}

/// Raises the flags of the functions whose addresses are taken in a segment.
fn mark_seg(m: &Module, flags: &mut [bool], seg: &Seg)
    requires { Each seg.now.instrs IsShort }
    ensures { Raises flags.old flags.new (λ f. is_taken_by m.now f seg.now) }
{
    for instr in seg.instrs.as_slice() {
        mark_instr(m, flags, instr);
    }
}

/// Raises the flags of the functions whose addresses are taken by instructions.
fn mark_segs(m: &Module, flags: &mut [bool])
    requires { HasFew m.now }
    ensures { Raises flags.old flags.new (λ f. list_any (is_taken_by m.now f) m.now.segs) }
{
    for seg in m.segs.as_slice() {
        mark_seg(m, flags, seg);
    }
}

/// Raises the flags of the functions whose addresses are taken.
pub(crate) fn mark_taken(m: &Module, flags: &mut [bool])
    requires { HasFew m.now }
    ensures { Raises flags.old flags.new (is_taken m.now) }
{
    mark_all(flags, m.parts.as_slice());
    mark_globals(flags, m.globals.as_slice());
    mark_headers(flags, m.funcs.as_slice());
    mark_segs(m, flags);
}
