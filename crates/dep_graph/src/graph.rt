ghost use Rattle.std.specs.Prelude.{◌≡◌, ◌<◌, length, slice_index};
ghost use Rattle.dep_graph.specs.Graph.{row_at};

use attr_ids::PosId;
use row_lists::EdgeRows;
use std::marker::Model;

/// For each position of a system, the positions whose terms name it, and beside each the bits that it reads. All lists
/// lie in one run of memory.
#[derive(Drop)]
pub struct DepGraph {
    pub(crate) rows: EdgeRows,
}

impl Model for DepGraph {
    ghost use Rattle.std.specs.Prelude.{List};
    ghost use Rattle.dep_graph.specs.Row.{Row, shown};

    ghost Value = { List Row };

    ghost view = { λ graph. shown graph.rows };
}

impl DepGraph {
    /// The positions whose terms name `p`, each once, by rising number.
    pub fn of(&self, p: PosId) -> &[PosId]
        requires { p.0 < length self.now }
        ensures { result.now ≡ (row_at self.now p.0).dependents }
    {
        self.rows.positions(p.0 as usize)
    }

    /// The bits of `p` that its dependent number `j` reads.
    pub fn read_by(&self, p: PosId, j: u32) -> u64
        requires position { p.0 < length self.now }
        requires dependent { j < length (row_at self.now p.0).dependents }
        ensures { result ≡ slice_index (row_at self.now p.0).reads j }
    {
        self.rows.bits(p.0 as usize)[j as usize]
    }
}
