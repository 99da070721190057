//! All rules of uses.
ghost use Rattle.std.specs.Prelude.{◌≡◌, OnOk, length};
ghost use Rattle.ir_module.specs.WellFormed.{IsWellFormed};
ghost use Rattle.rule_says.specs.Reading.{IsNumbering};
ghost use Rattle.rule_says.specs.Meeting.{Meets};
ghost use Rattle.aa_capture.specs.Capture.{AsksCapture, SpeaksCapture};

use crate::uses::all_uses;
use attr_ids::NoMemory;
use ir_module::Module;
use ir_uses::Uses;
use positions::Positions;
use rule_terms::System;
use std::alloc::Global;

/// Meets in the rules of uses. After `NoMemory` the system may have some of them, and is to be dropped.
pub fn terms(
    alloc: Global,
    m: &Module,
    _u: &Uses,
    p: &Positions,
    s: &mut System,
) -> Result<(), NoMemory>
    requires formed { IsWellFormed m.now }
    requires numbering { IsNumbering m.now p.now }
    requires long { length s.old.masks ≡ length p.now.list }
    ensures { OnOk result (Meets m.now p.now s.old s.new (AsksCapture m.now) (SpeaksCapture m.now)) }
{
    all_uses(alloc, m, p, s)
}
