//! One write of a distance.
ghost use Rattle.std.specs.Prelude.{◌≡◌, ◌+◌, ◌<◌, ◌≤◌, ℕ, List, length, sum, slice_index, true, false};
ghost use Rattle.ir_graphs.specs.Graphs.{GoesAt};
ghost use Rattle.ir_graphs.specs.Cuts.{IsCut};
ghost use Rattle.ir_graphs.specs.Distances.{distance, IsUpper};

use crate::cut::{Cut, is_cut};
use row_lists::Rows;

/// The distance noted for a node; a node past the graph has none.
fn distance_of(ds: &[usize], x: usize) -> usize
    ensures { result ≡ distance ds.now x }
{
    if x < ds.len() { ds[x] } else { ds.len() }
}

/// Lowers the distance of a node to one more than that of an edge's end, and says whether it fell.
pub(crate) fn lower(cut: Cut, ds: &mut [usize], x: usize, j: usize, w: usize) -> bool
    requires { x < length ds.old }
    ensures upper { (g : List (List ℕ)) (b : ℕ) → GoesAt g x j w → IsUpper g cut b ds.old → IsUpper g cut b ds.new }
    ensures smaller { result ≡ true → sum ds.new < sum ds.old }
    ensures same { result ≡ false → ds.new ≡ ds.old }
    ensures settled { result ≡ false → (IsCut cut x j → ⊥) → distance ds.old x ≤ distance ds.old w + 1 }
{
    if is_cut(cut, x, j) {
        return false;
    }
    let near = distance_of(ds, w);
    let far = distance_of(ds, x);
    if near >= far || near + 1 >= far {
        return false;
    }
    ds[x] = near + 1;
    true
}

/// Lowers a distance along an edge that is given by its place, if there is one, and says whether it fell.
pub(crate) fn lower_at(g: &Rows<u32>, cut: Cut, ds: &mut [usize], x: usize, j: usize) -> bool
    requires { length ds.old ≡ length g.now }
    ensures upper { (b : ℕ) → IsUpper g.now cut b ds.old → IsUpper g.now cut b ds.new }
{
    if x >= g.len() {
        return false;
    }
    let ends = g.get(x);
    if j >= ends.len() {
        return false;
    }
    lower(cut, ds, x, j, ends[j] as usize)
}
