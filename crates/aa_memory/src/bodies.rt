//! The facts of memory of bodies: each segment has them in its effect.
ghost use Rattle.std.specs.Prelude.{◌≡◌, ◌<◌, OnOk, length};
ghost use Rattle.ir_module.specs.WellFormed.{IsWellFormed};
ghost use Rattle.rule_says.specs.Reading.{IsNumbering};
ghost use Rattle.rule_says.specs.Meeting.{Meets};
ghost use Rattle.aa_memory.specs.Asked as spec;

use attr_ids::{NoMemory, SegId};
use facts::Pos;
use ir_module::{Module, func_of};
use lattice_words::function;
use positions::Positions;
use rule_says::{meet, word};
use rule_terms::System;
use std::alloc::Global;

/// One segment of a body.
fn body(alloc: Global, m: &Module, ps: &Positions, s: &mut System, k: SegId) -> Result<(), NoMemory>
    requires formed { IsWellFormed m.now }
    requires numbering { IsNumbering m.now ps.now }
    requires there { k.0 < length m.now.segs }
    requires long { length s.old.masks ≡ length ps.now.list }
    ensures { OnOk result (Meets m.now ps.now s.old s.new (spec.AsksBody m.now k.0) (spec.SpeaksBody m.now k.0)) }
{
    let f = func_of(m, k);
    let term = word(ps, Pos::Effect(k), function::ALL_MEMORY);
    meet(alloc, ps, s, Pos::Function(f), function::ALL_MEMORY, term)
}

/// Each segment of each body.
pub(crate) fn bodies(
    alloc: Global,
    m: &Module,
    ps: &Positions,
    s: &mut System,
) -> Result<(), NoMemory>
    requires formed { IsWellFormed m.now }
    requires numbering { IsNumbering m.now ps.now }
    requires long { length s.old.masks ≡ length ps.now.list }
    ensures { OnOk result (Meets m.now ps.now s.old s.new (spec.AsksBodies m.now) (spec.SpeaksBodies m.now)) }
{
    for k in 0..m.segs.len() as u32 {
        body(alloc, m, ps, s, SegId(k))?;
    }
    Ok(())
}
