//! The numbers of rows.
ghost use Rattle.std.specs.Prelude.{◌≡◌, ◌<◌, ◌^◌, if◌then◌else◌, IfOk, length};
ghost use Rattle.facts.specs.Bodies as bodies;
ghost use Rattle.aa_reach.specs.Asked.{AreRanks};

use attr_ids::NoMemory;
use ir_module::Module;
use std::alloc::Global;

/// Whether the function is defined.
pub(crate) fn is_body(m: &Module, f: u32) -> bool
    ensures { result ≡ bodies.is_body m.now f }
{
    match m.funcs.get(f as usize) {
        Some(func) => func.block_count != 0,
        None => false,
    }
}

// One for a body.
fn count(m: &Module, f: u32) -> u32
    ensures { result ≡ (if bodies.is_body m.now f then 1 else 0) }
{
    if is_body(m, f) { 1 } else { 0 }
}

/// The number of each function's row: how many bodies stand before it. Behind the last stands that of the outside.
pub(crate) fn ranks(alloc: Global, m: &Module) -> Result<Vec<u32>, NoMemory>
    requires { length m.now.funcs < 2 ^ 31 }
    ensures { IfOk result (λ ranks. AreRanks m.now ranks.items) }
{
    let mut ranks = Vec::new(alloc);
    let mut before = 0;
    for f in 0..m.funcs.len() as u32 {
        ranks.push(before)?;
        before += count(m, f);
    }
    ranks.push(before)?;
    Ok(ranks)
}
