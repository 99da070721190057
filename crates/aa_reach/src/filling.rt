//! All rules of reach.
ghost use Rattle.std.specs.Prelude.{◌≡◌, OnOk, length};
ghost use Rattle.ir_module.specs.WellFormed.{IsWellFormed};
ghost use Rattle.ir_uses.specs.Uses.{AreUsesOf};
ghost use Rattle.rule_says.specs.Reading.{IsNumbering};
ghost use Rattle.rule_says.specs.Meeting.{Meets};
ghost use Rattle.aa_reach.specs.Reached.{AsksReach, SpeaksReach};

use crate::outside::outside;
use crate::passing::row;
use crate::ranks::ranks;
use crate::rows::rows;
use attr_ids::NoMemory;
use ir_module::Module;
use ir_uses::Uses;
use lattice_words::reach::BODIES;
use positions::Positions;
use rule_terms::System;
use std::alloc::Global;

/// Meets in the rules of reach. After `NoMemory` the system may have some of them, and is to be dropped.
pub fn terms(
    alloc: Global,
    m: &Module,
    u: &Uses,
    p: &Positions,
    s: &mut System,
) -> Result<(), NoMemory>
    requires formed { IsWellFormed m.now }
    requires uses { AreUsesOf m.now u.now }
    requires numbering { IsNumbering m.now p.now }
    requires long { length s.old.masks ≡ length p.now.list }
    ensures { OnOk result (Meets m.now p.now s.old s.new (AsksReach m.now) (SpeaksReach m.now)) }
{
    let ranks = ranks(alloc, m)?;
    let bodies = row(ranks.as_slice(), m.funcs.len());
    let words = (bodies + (BODIES - 1)) / BODIES;
    rows(alloc, m, p, ranks.as_slice(), s, words)?;
    outside(alloc, m, u, p, ranks.as_slice(), s, words)
}
