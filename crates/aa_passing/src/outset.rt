//! What is asked of the entries of all bodies, from the outside.
ghost use Rattle.std.specs.Prelude.{◌≡◌, ◌<◌, ℕ, true, OnOk, Some, length, slice_get};
ghost use Rattle.ir_module.specs.WellFormed.{IsWellFormed};
ghost use Rattle.ir_uses.specs.Uses.{AreUsesOf};
ghost use Rattle.facts.specs.Bodies.{is_body, param_count};
ghost use Rattle.rule_says.specs.Reading.{IsNumbering};
ghost use Rattle.rule_says.specs.Meeting.{Meets};
ghost use Rattle.aa_passing.specs.Entered as spec;

use crate::entries::start;
use attr_ids::{FuncId, NoMemory};
use ir_module::{Func, Module};
use ir_uses::Uses;
use positions::{Positions, is_body};
use rule_terms::System;
use std::alloc::Global;

/// Each parameter of a body.
fn starts(
    alloc: Global,
    m: &Module,
    u: &Uses,
    ps: &Positions,
    s: &mut System,
    f: FuncId,
    func: &Func,
) -> Result<(), NoMemory>
    requires uses { AreUsesOf m.now u.now }
    requires numbering { IsNumbering m.now ps.now }
    requires there { slice_get m.now.funcs f.0 ≡ Some func.now }
    requires body { is_body m.now f.0 ≡ true }
    requires few { length func.now.params < 256 }
    requires long { length s.old.masks ≡ length ps.now.list }
    ensures { OnOk result (Meets m.now ps.now s.old s.new (spec.AsksStarts m.now f.0 func.now) (spec.SpeaksStarts m.now f.0 func.now)) }
{
    for (at, q) in func.params.as_slice().iter().enumerate() {
        start(alloc, m, u, ps, s, f, at, q)?;
    }
    Ok(())
}

/// A function.
fn begun(
    alloc: Global,
    m: &Module,
    u: &Uses,
    ps: &Positions,
    s: &mut System,
    f: FuncId,
    func: &Func,
) -> Result<(), NoMemory>
    requires uses { AreUsesOf m.now u.now }
    requires numbering { IsNumbering m.now ps.now }
    requires there { slice_get m.now.funcs f.0 ≡ Some func.now }
    requires few_params { (f : ℕ) → param_count m.now f < 256 }
    requires long { length s.old.masks ≡ length ps.now.list }
    ensures { OnOk result (Meets m.now ps.now s.old s.new (spec.AsksStarts m.now f.0 func.now) (spec.SpeaksStarts m.now f.0 func.now)) }
{
    if !is_body(m, f.0) {
        return Ok(());
    }
    starts(alloc, m, u, ps, s, f, func)
}

/// Each function.
pub(crate) fn outside(
    alloc: Global,
    m: &Module,
    u: &Uses,
    ps: &Positions,
    s: &mut System,
) -> Result<(), NoMemory>
    requires formed { IsWellFormed m.now }
    requires uses { AreUsesOf m.now u.now }
    requires numbering { IsNumbering m.now ps.now }
    requires few_params { (f : ℕ) → param_count m.now f < 256 }
    requires long { length s.old.masks ≡ length ps.now.list }
    ensures { OnOk result (Meets m.now ps.now s.old s.new (spec.AsksOutside m.now) (spec.SpeaksOutside m.now)) }
{
    for (f, func) in m.funcs.as_slice().iter().enumerate() {
        begun(alloc, m, u, ps, s, FuncId(f as u32), func)?;
    }
    Ok(())
}
