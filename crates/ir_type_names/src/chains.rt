//! Chains of names of types.
ghost use Rattle.std.specs.Prelude.{◌≡◌, ◌+◌, ℕ, List, map, IfOk};
ghost use Rattle.ir_type_names.specs.Chains as spec;

use attr_ids::NoMemory;
use std::alloc::Global;

/// The name that a name leads to.
fn step(nexts: &[u32], name: u32) -> u32
    ensures { result ≡ spec.step nexts.now name }
{
    let at = name as usize;
    if at < nexts.len() { nexts[at] } else { name }
}

/// Where each name leads to in twice as many steps.
fn doubled(alloc: Global, jumps: &[u32]) -> Result<Vec<u32>, NoMemory>
    ensures { IfOk result (λ twice. twice.items ≡ map (spec.step jumps.now) jumps.now) }
{
    let mut twice = Vec::new(alloc);
    for jump in jumps {
        twice.push(step(jumps, *jump))?;
    }
    Ok(twice)
}

/// Where the chain of each name ends, where `nexts` has the name that each leads to, and a name that is no other name's
/// leads to itself. A name on a ring, or that leads to one, leads to a name on the ring. It takes as many passes as the
/// number of names has bits.
pub fn chain_ends(alloc: Global, nexts: &[u32]) -> Result<Vec<u32>, NoMemory>
    ensures { IfOk result (λ ends. spec.AreEnds nexts.now ends.items) }
{
    let mut jumps = Vec::from_slice(alloc, nexts)?;
    let mut steps = 1;
    while steps < nexts.len() {
        jumps = doubled(alloc, jumps.as_slice())?;
        steps *= 2;
    }
    Ok(jumps)
}
