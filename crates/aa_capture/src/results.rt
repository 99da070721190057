//! Facts of uses that go over to the result of an instruction.
ghost use Rattle.std.specs.Prelude.{IfOk};
ghost use Rattle.facts.specs.Uses.{ResultUsed, CallResultUsed, ResultUseSpeaks};
ghost use Rattle.ir_module.specs.declared.module.Module.{Module as Shown};
ghost use Rattle.lattice_words.specs.declared.value.TheConstants.{ALL_USES as USE_BITS};
ghost use Rattle.rule_says.specs.Reading.{IsNumbering};
ghost use Rattle.rule_says.specs.Saying.{Says};
ghost use Rattle.aa_capture.specs.Asked as spec;

use attr_ids::NoMemory;
use facts::Pos;
use ir_module::{Instr, Module};
use lattice_words::value::ALL_USES;
use positions::{Positions, is_pointer};
use rule_says::{bits, either, word};
use rule_terms::NewTerm;
use std::alloc::Global;

/// Those that the result has.
pub(crate) fn result_uses(ps: &Positions, instr: &Instr) -> NewTerm
    requires { spec.IsResultKnown ps.now instr.now }
    ensures { (m : Shown) → IsNumbering m ps.now →
        Says m ps.now USE_BITS result (spec.AsksEach (λ kind held. ResultUsed held kind instr.now)) (spec.SpeaksEach (λ kind. ResultUseSpeaks kind instr.now)) }
{
    match instr.result {
        Some(r) => word(ps, Pos::Value(r), ALL_USES),
        None => bits(0),
    }
}

/// Those that the result of a call has; a result that is no pointer counts as having all.
pub(crate) fn call_result_uses(
    alloc: Global,
    m: &Module,
    ps: &Positions,
    instr: &Instr,
) -> Result<NewTerm, NoMemory>
    requires numbering { IsNumbering m.now ps.now }
    requires known { spec.IsResultKnown ps.now instr.now }
    ensures { IfOk result (λ t. Says m.now ps.now USE_BITS t (spec.AsksEach (λ kind held. CallResultUsed m.now held kind instr.now))
        (spec.SpeaksEach (λ kind. ResultUseSpeaks kind instr.now))) }
{
    let result = result_uses(ps, instr);
    if is_pointer(m, instr.ty) {
        return Ok(result);
    }
    either(alloc, bits(ALL_USES), result)
}
