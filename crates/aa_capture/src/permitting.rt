//! What a use of a pointer permits.
ghost use Rattle.std.specs.Prelude.{◌≡◌, ◌⊎◌, ◌↔◌, IfOk};
ghost use Rattle.ir_module.specs.WellFormed.{IsWellFormed};
ghost use Rattle.ir_module.specs.Calls as calls;
ghost use Rattle.facts.specs.Kinds.{UseFact, NotReturned, use_bit};
ghost use Rattle.facts.specs.Facts.{value, used_so};
ghost use Rattle.facts.specs.Uses as uses;
ghost use Rattle.lattice_words.specs.declared.value.TheConstants.{ALL_USES as USE_BITS};
ghost use Rattle.positions.specs.Numbering.{IsListed};
ghost use Rattle.rule_says.specs.Reading.{IsNumbering};
ghost use Rattle.rule_says.specs.Saying.{IsSet, Says};
ghost use Rattle.aa_capture.specs.Passing.{IsPassing};
ghost use Rattle.aa_capture.specs.Asked as spec;

use crate::kinds::kinds;
use crate::passing::{Passing, arg_uses};
use crate::results::{call_result_uses, result_uses};
use attr_ids::NoMemory;
use facts::Pos;
use ir_module::{Instr, Module, Op, Param};
use ir_ops::CastOp;
use lattice_words::value::{ALL_USES, NOT_RETURNED};
use positions::Positions;
use rule_says::{bits, both, either, spread, word};
use rule_terms::NewTerm;
use std::alloc::Global;

/// A parameter of an inner call: the facts that it has, and, if it may be returned, those that the result has.
fn param_uses(
    alloc: Global,
    m: &Module,
    ps: &Positions,
    instr: &Instr,
    p: &Param,
) -> Result<NewTerm, NoMemory>
    requires numbering { IsNumbering m.now ps.now }
    requires known { spec.IsResultKnown ps.now instr.now }
    requires listed { IsListed ps.now (value p.now.value.0) }
    ensures { IfOk result (λ t. Says m.now ps.now USE_BITS t (spec.AsksEach (λ kind held. uses.ParamUsed m.now held kind instr.now p.now))
        (spec.SpeaksEach (λ kind y. (y ≡ used_so kind p.now.value.0) ⊎ ((y ≡ used_so NotReturned p.now.value.0) ⊎ uses.ResultUseSpeaks kind instr.now y)))) }
{
    let p = Pos::Value(p.value);
    let own = either(alloc, word(ps, p, ALL_USES), bits(1 << NOT_RETURNED))?;
    let kept = spread(
        alloc,
        NOT_RETURNED,
        ALL_USES,
        word(ps, p, 1 << NOT_RETURNED),
    )?;
    let after = either(alloc, kept, call_result_uses(alloc, m, ps, instr)?)?;
    both(alloc, own, after)
}

/// Argument `at` of a call; an inner call has nothing to say of one past the parameters.
fn passed(
    alloc: Global,
    m: &Module,
    ps: &Positions,
    instr: &Instr,
    passing: Passing,
    at: usize,
) -> Result<NewTerm, NoMemory>
    requires formed { IsWellFormed m.now }
    requires numbering { IsNumbering m.now ps.now }
    requires known { spec.IsResultKnown ps.now instr.now }
    requires passing { IsPassing m.now instr.now.op passing }
    ensures { IfOk result (λ t. Says m.now ps.now USE_BITS t (spec.AsksEach (λ kind held. uses.PassedUsed m.now held kind instr.now at))
        (spec.SpeaksEach (λ kind. uses.PassedUseSpeaks m.now kind instr.now at))) }
{
    let Some(g) = passing.body else {
        return Ok(bits(arg_uses(m, &instr.op, passing, at)));
    };
    match m.func(g).params.get(at) {
        Some(p) => param_uses(alloc, m, ps, instr, p),
        None => Ok(bits(0)),
    }
}

/// Operand `n` of a call: the callee, of which nothing is said, and then the arguments.
fn call_uses(
    alloc: Global,
    m: &Module,
    ps: &Positions,
    instr: &Instr,
    passing: Passing,
    n: usize,
) -> Result<NewTerm, NoMemory>
    requires formed { IsWellFormed m.now }
    requires numbering { IsNumbering m.now ps.now }
    requires known { spec.IsResultKnown ps.now instr.now }
    requires passing { IsPassing m.now instr.now.op passing }
    ensures { IfOk result (λ t. Says m.now ps.now USE_BITS t (spec.AsksEach (λ kind held. uses.CallUses m.now held kind instr.now n))
        (spec.SpeaksEach (λ kind. uses.CallUseSpeaks m.now kind instr.now n))) }
{
    if n == 0 {
        return Ok(bits(0));
    }
    passed(alloc, m, ps, instr, passing, n - 1)
}

/// The facts that an instruction permits by itself as a use, as operand `n`.
fn row(op: &Op, n: usize) -> u64
    ensures { (kind : UseFact) → IsSet result (use_bit kind) ↔ spec.RowPermits kind op.now n }
{
    match op {
        Op::Load { volatile, .. } => kinds(!*volatile, true, false, true),
        Op::Store { volatile, .. } => {
            if n == 0 {
                0
            } else {
                kinds(!*volatile, true, true, false)
            }
        }
        Op::Icmp { .. }
        | Op::Cast {
            op: CastOp::PtrToInt,
            ..
        } => kinds(false, true, true, true),
        Op::Ret { .. } => kinds(true, false, true, true),
        _ => 0,
    }
}

/// The facts that an instruction permits as a use, as operand `n`.
pub(crate) fn permit(
    alloc: Global,
    m: &Module,
    ps: &Positions,
    instr: &Instr,
    passing: Passing,
    n: usize,
) -> Result<NewTerm, NoMemory>
    requires formed { IsWellFormed m.now }
    requires numbering { IsNumbering m.now ps.now }
    requires known { spec.IsResultKnown ps.now instr.now }
    requires passing { IsPassing m.now instr.now.op passing }
    ensures { IfOk result (λ t. Says m.now ps.now USE_BITS t (spec.AsksEach (λ kind held. uses.Permits m.now held kind instr.now instr.now.op n))
        (spec.SpeaksEach (λ kind. uses.PermitSpeaks m.now kind instr.now instr.now.op n))) }
{
    if is_call(&instr.op) {
        return call_uses(alloc, m, ps, instr, passing, n);
    }
    if goes_over(&instr.op, n) {
        return Ok(result_uses(ps, instr));
    }
    Ok(bits(row(&instr.op, n)))
}

fn is_call(op: &Op) -> bool
    ensures { result ≡ calls.is_call op.now }
{
    op.call().is_some()
}

/// Whether operand `n` goes into the result: the base of a getelementptr, an arm of a select, what is frozen.
fn goes_over(op: &Op, n: usize) -> bool
    ensures { result ≡ spec.goes_over op.now n }
{
    match op {
        Op::Gep { .. } => n == 0,
        Op::Select { .. } => n != 0,
        Op::Freeze { .. } => true,
        _ => false,
    }
}
