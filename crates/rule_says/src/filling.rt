//! A term is met into a system.
ghost use Rattle.std.specs.Prelude.{◌≡◌, ◌<◌, IsTrue, OnOk, length};
ghost use Rattle.rule_terms.specs.Names.{is_over};
ghost use Rattle.positions.specs.Numbering.{IsListed};
ghost use Rattle.rule_says.specs.Meeting.{IsMet};

use crate::building::{bits, either};
use attr_ids::NoMemory;
use facts::Pos;
use positions::Positions;
use rule_terms::{NewTerm, System};
use std::alloc::Global;

/// These bits of the position are kept where the term gives them; all other bits stay. Where none of the bits is in
/// the position's mask, nothing is met in.
pub fn meet(
    alloc: Global,
    ps: &Positions,
    s: &mut System,
    p: Pos,
    asked: u64,
    term: NewTerm,
) -> Result<(), NoMemory>
    requires listed { IsListed ps.now p }
    requires long { length s.old.masks ≡ length ps.now.list }
    requires over { IsTrue (is_over (length ps.now.list) term) }
    ensures { OnOk result (IsMet ps.now s.old s.new p asked term) }
{
    let _count = s.count();
    let number = ps.number(p);
    let asked = ps.mask(number) & asked;
    if asked == 0 {
        return Ok(());
    }
    let term = either(alloc, bits(!asked), term)?;
    s.meet(alloc, number, term)
}
