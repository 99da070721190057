//! The first of the shortest walks, by the distances of its nodes.
ghost use Rattle.std.specs.Prelude.{◌≡◌, ◌⊎◌, ◌+◌, ◌<◌, ◌≤◌, ◌↔◌, length, IsTrue, IfOk};
ghost use Rattle.ir_graphs.specs.Graphs.{ends_of};
ghost use Rattle.ir_graphs.specs.Cuts.{IsCut, IsFirstPath};
ghost use Rattle.ir_graphs.specs.Distances.{distance, IsNear, IsBest};

use crate::cut::{Cut, is_cut};
use attr_ids::NoMemory;
use row_lists::Rows;
use std::alloc::Global;

/// Whether an edge that is not left out leads to a node one nearer.
fn is_nearer(cut: Cut, ds: &[usize], x: usize, j: usize, w: usize) -> bool
    requires node { x < length ds.now }
    requires end { w < length ds.now }
    ensures { IsTrue result ↔ ((IsCut cut x j → ⊥) × (distance ds.now w + 1 ≡ distance ds.now x)) }
{
    !is_cut(cut, x, j) && ds[w] < ds[x] && ds[w] + 1 == ds[x]
}

/// The lesser of two nodes, where the one that an edge leads to counts only if it is one nearer.
fn lesser(cut: Cut, ds: &[usize], x: usize, j: usize, w: usize, best: usize) -> usize
    requires node { x < length ds.now }
    requires best { best ≤ length ds.now }
    ensures cases { (result ≡ best) ⊎ ((result ≡ w) × (IsCut cut x j → ⊥) × (distance ds.now w + 1 ≡ distance ds.now x)) }
    ensures less { result ≤ best }
    ensures least { (IsCut cut x j → ⊥) → distance ds.now w + 1 ≡ distance ds.now x → result ≤ w }
{
    if w >= best {
        return best;
    }
    if is_nearer(cut, ds, x, j, w) { w } else { best }
}

/// The least node one nearer to which an edge leads, or the count of nodes.
fn next(g: &Rows<u32>, cut: Cut, ds: &[usize], x: usize) -> usize
    requires long { length ds.now ≡ length g.now }
    requires node { x < length g.now }
    ensures { IsBest g.now cut ds.now x (length (ends_of g.now x)) result }
{
    let ends = g.get(x);
    let mut best = ds.len();
    for (j, w) in ends.iter().enumerate() {
        best = lesser(cut, ds, x, j, *w as usize, best);
    }
    best
}

/// The first of the shortest walks from the entry to a node, which is reached.
pub(crate) fn follow(
    alloc: Global,
    g: &Rows<u32>,
    cut: Cut,
    b: u32,
    ds: &[usize],
) -> Result<Vec<u32>, NoMemory>
    requires near { IsNear g.now cut b ds.now }
    requires reached { distance ds.now 0 < length ds.now }
    ensures { IfOk result (λ path. IsFirstPath g.now cut b path.items) }
{
    let mut path = vec![in alloc; 0u32; 1]?;
    let mut at = 0usize;
    'following: while ds[at] > 0 {
        at = next(g, cut, ds, at);
        path.push(at as u32)?;
    }
    Ok(path)
}
