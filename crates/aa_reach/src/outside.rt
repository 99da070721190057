//! The row of the outside.
ghost use Rattle.std.specs.Prelude.{◌≡◌, ◌<◌, ◌*◌, ℕ, OnOk, length};
ghost use Rattle.lattice_words.specs.declared.reach.TheConstants.{BODIES};
ghost use Rattle.ir_module.specs.WellFormed.{HasFew};
ghost use Rattle.ir_uses.specs.Uses.{AreUsesOf};
ghost use Rattle.facts.specs.Bodies.{body_count};
ghost use Rattle.rule_says.specs.Reading.{IsNumbering};
ghost use Rattle.rule_says.specs.Meeting.{Meets};
ghost use Rattle.aa_reach.specs.Asked as spec;

use crate::passing::{by_row, row};
use attr_ids::{FuncId, NoMemory};
use facts::Pos;
use ir_module::Module;
use ir_uses::Uses;
use lattice_words::word::FACTS;
use positions::Positions;
use rule_says::meet;
use rule_terms::System;
use std::alloc::Global;

/// A function, if it is an open body, is not the one of the bit, and does not reach it.
fn enter(
    alloc: Global,
    m: &Module,
    u: &Uses,
    ps: &Positions,
    ranks: &[u32],
    s: &mut System,
    k: u32,
    f: u32,
) -> Result<(), NoMemory>
    requires uses { AreUsesOf m.now u.now }
    requires numbering { IsNumbering m.now ps.now }
    requires ranks { spec.AreRanks m.now ranks.now }
    requires word { k * BODIES < body_count m.now }
    requires there { f < length m.now.funcs }
    requires long { length s.old.masks ≡ length ps.now.list }
    ensures { OnOk result (Meets m.now ps.now s.old s.new (spec.AsksOpen m.now k f) (spec.SpeaksOpen m.now k f)) }
{
    if u.is_open(FuncId(f)) {
        let own = row(ranks, f as usize);
        let outside = row(ranks, m.funcs.len());
        let term = by_row(alloc, ps, own, k)?;
        return meet(alloc, ps, s, Pos::Reach(outside, k), FACTS, term);
    }
    Ok(())
}

/// One word of the row: the body of the bit is not open, and no open body reaches it.
fn outside_word(
    alloc: Global,
    m: &Module,
    u: &Uses,
    ps: &Positions,
    ranks: &[u32],
    s: &mut System,
    k: u32,
) -> Result<(), NoMemory>
    requires few { HasFew m.now }
    requires uses { AreUsesOf m.now u.now }
    requires numbering { IsNumbering m.now ps.now }
    requires ranks { spec.AreRanks m.now ranks.now }
    requires word { k * BODIES < body_count m.now }
    requires long { length s.old.masks ≡ length ps.now.list }
    ensures { OnOk result (Meets m.now ps.now s.old s.new (spec.AsksOutsideWord m.now k) (spec.SpeaksOutsideWord m.now k)) }
{
    for f in 0..m.funcs.len() as u32 {
        enter(alloc, m, u, ps, ranks, s, k, f)?;
    }
    Ok(())
}

/// The whole row.
pub(crate) fn outside(
    alloc: Global,
    m: &Module,
    u: &Uses,
    ps: &Positions,
    ranks: &[u32],
    s: &mut System,
    words: u32,
) -> Result<(), NoMemory>
    requires few { HasFew m.now }
    requires uses { AreUsesOf m.now u.now }
    requires numbering { IsNumbering m.now ps.now }
    requires ranks { spec.AreRanks m.now ranks.now }
    requires words { (k : ℕ) → k < words → k * BODIES < body_count m.now }
    requires long { length s.old.masks ≡ length ps.now.list }
    ensures { OnOk result (Meets m.now ps.now s.old s.new (spec.AsksOutside m.now words) (spec.SpeaksOutside m.now words)) }
{
    for k in 0..words {
        outside_word(alloc, m, u, ps, ranks, s, k)?;
    }
    Ok(())
}
