ghost use Rattle.std.specs.Prelude.{◌≡◌, ◌<◌, ◌≤◌, ◌↔◌, ◌+◌, ℕ, Err, length, replicate, All, IfOk, OnOk, vec_len};
ghost use Rattle.rule_terms.specs.System.{inputs_of, IsSystem};
ghost use Rattle.rule_terms.specs.Reads.{reads_by};
ghost use Rattle.row_lists.specs.EdgeRow.{empty_row as empty_edges};
ghost use Rattle.dep_graph.specs.Graph.{row_at, edge_count, edges_of, IsGraphOf};
ghost use Rattle.dep_graph.specs.Row.{shown};
ghost use Rattle.dep_graph.specs.Rows.{entered, row_below};

use crate::graph::DepGraph;
use crate::refusal::GraphRefusal;
use attr_ids::{NoMemory, PosId};
use row_lists::EdgeRows;
use rule_terms::System;
use std::alloc::Global;

/// How many edges a graph has at most.
pub const EDGE_LIMIT: u64 = 32_000_000;

// How many edges the graph of the system has.
fn edges(s: &System) -> u64
    ensures edges { result ≡ edges_of s.now }
    ensures system { IsSystem s.now }
{
    let mut edges = 0;
    for p in 0..s.count() {
        edges += s.inputs(PosId(p)).len() as u64;
    }
    edges
}

// One more for each position of the list. A count is a hint for how much room to take, so it may stop rising.
fn count_each(counts: &mut [u32], inputs: &[PosId])
    requires { All (λ q. q.0 < length counts.old) inputs.now }
{
    for q in inputs {
        let at = q.0 as usize;
        counts[at] = counts[at].saturating_add(1);
    }
}

// How many dependents each position has.
fn counts(alloc: Global, s: &System) -> Result<Vec<u32>, NoMemory>
    ensures { IfOk result (λ counts. vec_len counts ≡ length s.now.masks) }
{
    let mut counts = vec![in alloc; 0u32; s.count() as usize]?;
    for p in 0..s.count() {
        count_each(&mut counts, s.inputs(PosId(p)));
    }
    Ok(counts)
}

// Enters the position `d` into the row of each of its inputs.
fn enter(rows: &mut EdgeRows, s: &System, d: PosId) -> Result<(), NoMemory>
    requires system { IsSystem s.now }
    requires position { d.0 < length s.now.masks }
    requires long { length rows.old ≡ length s.now.masks }
    ensures long { OnOk result (length rows.new ≡ length rows.old) }
    ensures rows { OnOk result ((q : ℕ) → q < length rows.old →
        row_at (shown rows.new) q ≡ entered (inputs_of s.now d.0) (reads_by s.now d.0) d (row_at (shown rows.old) q) q) }
    ensures count { OnOk result (edge_count (shown rows.new) ≡ edge_count (shown rows.old) + length (inputs_of s.now d.0)) }
{
    for (i, q) in s.inputs(d).iter().enumerate() {
        rows.push(q.0 as usize, d, s.reads(d, i as u32))?;
    }
    Ok(())
}

// Enters all positions, by rising number.
fn enter_all(rows: &mut EdgeRows, s: &System) -> Result<(), NoMemory>
    requires { rows.old ≡ replicate (length s.now.masks) empty_edges }
    ensures long { OnOk result (length rows.new ≡ length s.now.masks) }
    ensures rows { OnOk result ((q : ℕ) → q < length s.now.masks →
        row_at (shown rows.new) q ≡ row_below (inputs_of s.now) (reads_by s.now) (length s.now.masks) q) }
    ensures count { OnOk result (edge_count (shown rows.new) ≡ edges_of s.now) }
{
    for d in 0..s.count() {
        enter(rows, s, PosId(d))?;
    }
    Ok(())
}

/// The graph of a system. It asks once for the inputs of each position, and once for the bits that the
/// position reads of each of them.
///
/// # Errors
/// `TooMany` exactly where the lists of inputs together hold more than `EDGE_LIMIT` positions, with their
/// number; `NoMemory` where no memory is left.
pub fn dependents(alloc: Global, s: &System) -> Result<DepGraph, GraphRefusal>
    ensures graph { IfOk result (λ graph. IsGraphOf s.now graph) }
    ensures too_many { (edges : ℕ) → (result ≡ Err (GraphRefusal.TooMany edges)) ↔ ((edges ≡ edges_of s.now) × (EDGE_LIMIT < edges)) }
{
    let edges = edges(s);
    if edges > EDGE_LIMIT {
        return Err(GraphRefusal::TooMany { edges });
    }
    let rooms = counts(alloc, s)?;
    let mut rows = EdgeRows::with_rooms(alloc, &rooms)?;
    enter_all(&mut rows, s)?;
    Ok(DepGraph { rows })
}
