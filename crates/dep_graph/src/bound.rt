ghost use Rattle.std.specs.Prelude.{◌≡◌, ◌<◌, ◌≤◌, List, length};
ghost use Rattle.rule_terms.specs.System.{System as Terms, IsSystem};
ghost use Rattle.dep_graph.specs.Graph.{budget_of, IsGraphOf};
ghost use Rattle.dep_graph.specs.Row.{Row as Edges};

use crate::graph::DepGraph;
use attr_ids::PosId;
use rule_terms::System;

/// How often words are taken up at most in a run over the graph of the system: each word once, and each
/// dependent of a position once for each bit of the position's mask.
pub fn budget(s: &System, g: &DepGraph) -> u64
    requires { IsGraphOf s.now g.now }
    ensures { result ≡ budget_of s.now g.now }
{
    let mut budget = s.count() as u64;
    for p in 0..s.count() {
        let bits = s.mask(PosId(p)).count_ones() as u64;
        budget += bits * g.of(PosId(p)).len() as u64;
    }
    budget
}

/// A system of at most 4,000,000 positions has a budget below 2 thousand million.
pub fn budget_is_small()
    ensures { (s : Terms) (graph : List Edges) → IsSystem s → IsGraphOf s graph → length s.masks ≤ 4000000 → budget_of s graph < 2000000000 }
{}
