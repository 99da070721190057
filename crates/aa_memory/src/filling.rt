//! All rules of memory.
ghost use Rattle.std.specs.Prelude.{◌≡◌, OnOk, length};
ghost use Rattle.ir_module.specs.WellFormed.{IsWellFormed};
ghost use Rattle.rule_says.specs.Reading.{IsNumbering};
ghost use Rattle.rule_says.specs.Meeting.{Meets};
ghost use Rattle.aa_memory.specs.Memory.{AsksMemory, SpeaksMemory};

use crate::bodies::bodies;
use crate::effects::effects;
use attr_ids::NoMemory;
use ir_module::Module;
use ir_uses::Uses;
use positions::Positions;
use rule_terms::System;
use std::alloc::Global;

/// Meets in the rules of memory. After `NoMemory` the system may have some of them, and is to be dropped.
pub fn terms(
    alloc: Global,
    m: &Module,
    _u: &Uses,
    p: &Positions,
    s: &mut System,
) -> Result<(), NoMemory>
    requires formed { IsWellFormed m.now }
    requires numbering { IsNumbering m.now p.now }
    requires long { length s.old.masks ≡ length p.now.list }
    ensures { OnOk result (Meets m.now p.now s.old s.new (AsksMemory m.now) (SpeaksMemory m.now)) }
{
    effects(alloc, m, p, s)?;
    bodies(alloc, m, p, s)
}
