//! What one call asks of a word of its body's row.
ghost use Rattle.std.specs.Prelude.{◌≡◌, ◌≢◌, ◌↔◌, ◌<◌, ◌≤◌, ◌*◌, ◌%◌, ◌^◌, ℕ, true, IfOk, OnOk, Some, length, slice_get};
ghost use Rattle.lattice_words.specs.declared.reach.TheConstants.{BODIES as BODY_BITS};
ghost use Rattle.lattice_words.specs.declared.word.TheConstants.{FACTS as FACT_WORD};
ghost use Rattle.ir_module.specs.Calls as calls;
ghost use Rattle.facts.specs.declared.pos.Pos.TheVariants as pos;
ghost use Rattle.facts.specs.Bodies.{body_count};
ghost use Rattle.positions.specs.Numbering.{IsListed};
ghost use Rattle.rule_says.specs.Reading.{IsNumbering};
ghost use Rattle.rule_says.specs.Saying.{IsSet, Says};
ghost use Rattle.rule_says.specs.Meeting.{Meets};
ghost use Rattle.aa_reach.specs.Asked as spec;

use attr_ids::{NoMemory, SegId};
use facts::Pos;
use ir_module::{Module, Op};
use lattice_words::reach::BODIES;
use lattice_words::segment::DEAD;
use lattice_words::word::FACTS;
use positions::Positions;
use rule_says::{CallPromise, bits, both, either, inner_callee, meet, promises, unless, word};
use rule_terms::{NewTerm, System};
use std::alloc::Global;

/// The bit of a body in its word.
fn bit_of(h: u32) -> u64
    ensures { result ≡ 2 ^ (h % BODY_BITS) }
{
    1 << (h % BODIES)
}

/// The bits of word `k` of a row but that of body number `h`.
fn others(k: u32, h: u32) -> u64
    ensures { (bit : ℕ) → bit < BODY_BITS → IsSet result bit ↔ (h ≢ spec.body_of k bit) }
{
    if h / BODIES == k {
        FACTS & !bit_of(h)
    } else {
        FACTS
    }
}

/// The body of the bit is not number `h`, and row `h` does not reach it.
pub(crate) fn by_row(alloc: Global, ps: &Positions, h: u32, k: u32) -> Result<NewTerm, NoMemory>
    requires { IsListed ps.now (pos.Reach h k) }
    ensures { IfOk result (λ t. spec.IsByRow ps.now t h k) }
{
    let apart = bits(others(k, h));
    both(alloc, apart, word(ps, Pos::Reach(h, k), FACTS))
}

/// `nocallback` is promised, or the outside does not reach the body of the bit.
fn by_outside(
    alloc: Global,
    ps: &Positions,
    outside: u32,
    k: u32,
    promised: bool,
) -> Result<NewTerm, NoMemory>
    requires { IsListed ps.now (pos.Reach outside k) }
    ensures { IfOk result (λ t. spec.IsByOutside ps.now t outside k promised) }
{
    let term = word(ps, Pos::Reach(outside, k), FACTS);
    if promised {
        return either(alloc, bits(FACTS), term);
    }
    Ok(term)
}

/// The row of this number, which is one of a function or of the outside.
pub(crate) fn row(ranks: &[u32], f: usize) -> u32
    requires { f < length ranks.now }
    ensures { slice_get ranks.now f ≡ Some result }
{
    ranks[f]
}

/// A call passes by the body of the bit: each inner call has another callee, which does not reach it, and each outer
/// call promises `nocallback` or the outside does not reach it.
fn by_call(
    alloc: Global,
    m: &Module,
    ps: &Positions,
    ranks: &[u32],
    k: u32,
    op: &Op,
) -> Result<NewTerm, NoMemory>
    requires numbering { IsNumbering m.now ps.now }
    requires ranks { spec.AreRanks m.now ranks.now }
    requires word { k * BODY_BITS < body_count m.now }
    requires call { calls.is_call op.now ≡ true }
    ensures { IfOk result (λ t. Says m.now ps.now FACT_WORD t (spec.AsksCall m.now k op.now) (spec.SpeaksCall m.now k op.now)) }
{
    match inner_callee(m, op) {
        Some(h) => by_row(alloc, ps, row(ranks, h.0 as usize), k),
        None => {
            let promised = promises(m, op, CallPromise::Nocallback);
            by_outside(alloc, ps, row(ranks, m.funcs.len()), k, promised)
        }
    }
}

fn is_call(op: &Op) -> bool
    ensures { result ≡ calls.is_call op.now }
{
    op.call().is_some()
}

/// One instruction of a segment passes by, if the segment is not dead.
pub(crate) fn pass(
    alloc: Global,
    m: &Module,
    ps: &Positions,
    ranks: &[u32],
    s: &mut System,
    row: u32,
    k: u32,
    q: SegId,
    op: &Op,
) -> Result<(), NoMemory>
    requires numbering { IsNumbering m.now ps.now }
    requires ranks { spec.AreRanks m.now ranks.now }
    requires word { k * BODY_BITS < body_count m.now }
    requires row { row ≤ body_count m.now }
    requires there { q.0 < length m.now.segs }
    requires long { length s.old.masks ≡ length ps.now.list }
    ensures { OnOk result (Meets m.now ps.now s.old s.new (spec.AsksPass m.now row k q.0 op.now) (spec.SpeaksPass m.now row k q.0 op.now)) }
{
    if is_call(op) {
        let passes = by_call(alloc, m, ps, ranks, k, op)?;
        let term = unless(alloc, ps, Pos::Segment(q), DEAD, passes)?;
        return meet(alloc, ps, s, Pos::Reach(row, k), FACTS, term);
    }
    Ok(())
}
