//! All rules of what is passed and returned.
ghost use Rattle.std.specs.Prelude.{◌≡◌, ◌<◌, ℕ, OnOk, length};
ghost use Rattle.ir_module.specs.WellFormed.{IsWellFormed};
ghost use Rattle.ir_uses.specs.Uses.{AreUsesOf};
ghost use Rattle.facts.specs.Bodies.{param_count};
ghost use Rattle.rule_says.specs.Reading.{IsNumbering};
ghost use Rattle.rule_says.specs.Meeting.{Meets};
ghost use Rattle.aa_passing.specs.Passing.{AsksPassing, SpeaksPassing};

use crate::calling::inside;
use crate::outset::outside;
use crate::rets::returns;
use attr_ids::NoMemory;
use ir_module::Module;
use ir_uses::Uses;
use positions::Positions;
use rule_terms::System;
use std::alloc::Global;

/// Meets in the rules of what is passed and returned. After `NoMemory` the system may have some of them, and is to be dropped.
pub fn terms(
    alloc: Global,
    m: &Module,
    u: &Uses,
    ps: &Positions,
    s: &mut System,
) -> Result<(), NoMemory>
    requires formed { IsWellFormed m.now }
    requires uses { AreUsesOf m.now u.now }
    requires numbering { IsNumbering m.now ps.now }
    requires few_params { (f : ℕ) → param_count m.now f < 256 }
    requires long { length s.old.masks ≡ length ps.now.list }
    ensures { OnOk result (Meets m.now ps.now s.old s.new (AsksPassing m.now) (SpeaksPassing m.now)) }
{
    outside(alloc, m, u, ps, s)?;
    inside(alloc, m, ps, s)?;
    returns(alloc, m, ps, s)
}
