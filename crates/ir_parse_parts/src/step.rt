//! One token at a place.
ghost use Rattle.std.specs.Prelude.{◌≡◌, ◌<◌, ◌^◌, length, [], ◌∷◌, IsTrue, IfSome, IfOk, Some, ◌+◌, ◌≤◌};
ghost use Rattle.ir_tree.specs.Steps as s;
ghost use Rattle.ir_tree.specs.Steps.{Longest};
ghost use Rattle.ir_parse_parts.specs.Parts as spec;

use attr_ids::NoMemory;
use ir_tree::Terminal;
use sqlite_items::Items;
use std::alloc::Global;

/// Whether this terminal is at the place.
pub fn stands(toks: &[Terminal], terminal: Terminal, at: u32) -> bool
    ensures value { result ≡ s.stands toks.now terminal at }
    ensures within { IsTrue result → at < length toks.now }
{
    match sqlite_items::at(toks, at as usize) {
        Some(found) => terminal == *found,
        None => false,
    }
}

/// The place behind this terminal, where it is at the place.
pub fn the(toks: &[Terminal], terminal: Terminal, at: u32) -> Option<u32>
    requires few { length toks.now < 2 ^ 32 }
    ensures value { result ≡ s.the toks.now terminal at }
    ensures within { IfSome result (λ next. (next ≡ at + 1) × (next ≤ length toks.now)) }
{
    if stands(toks, terminal, at) {
        Some(at + 1)
    } else {
        None
    }
}

/// The place behind one of two terminals, where one of them is at the place.
#[tactic(auto, using(crate::proofs::Longest::sees_either))]
pub fn either(toks: &[Terminal], one: Terminal, other: Terminal, at: u32) -> Option<u32>
    requires few { length toks.now < 2 ^ 32 }
    ensures value { result ≡ spec.any_of toks.now (one ∷ other ∷ []) at }
    ensures within { IfSome result (λ next. (next ≡ at + 1) × (next ≤ length toks.now)) }
{
    if stands(toks, one, at) || stands(toks, other, at) {
        Some(at + 1)
    } else {
        None
    }
}

/// A leaf that may be missing: `[terminal]`.
pub fn optional(toks: &[Terminal], terminal: Terminal, at: u32) -> (Option<u32>, u32)
    requires few { length toks.now < 2 ^ 32 }
    ensures { Longest (s.optional (s.leaf toks.now terminal)) at (Some result) }
{
    match the(toks, terminal, at) {
        Some(next) => (Some(at), next),
        None => (None, at),
    }
}

/// Leaves of one kind: `terminal*`.
pub fn leaves(
    alloc: Global,
    toks: &[Terminal],
    terminal: Terminal,
    at: u32,
) -> Result<(Items<u32>, u32), NoMemory>
    requires few { length toks.now < 2 ^ 32 }
    ensures { IfOk result (λ r. Longest (s.many (s.leaf toks.now terminal)) at (Some r)) }
{
    let mut found = Items::new(alloc);
    let mut place = at;
    while let Some(next) = the(toks, terminal, place) {
        found.push(place)?;
        place = next;
    }
    Ok((found, place))
}
