//! What follows from a module: its uses, its positions, its system and its graph.
ghost use Rattle.std.specs.Prelude.{◌≡◌, ◌≤◌, ℕ, List, IfOk, IfErr, length};
ghost use Rattle.ir_module.specs.WellFormed.{IsWellFormed, HasFew};
ghost use Rattle.positions.specs.Numbering.{AreOf};
ghost use Rattle.positions.specs.Order.{positions_of};
ghost use Rattle.positions.specs.declared.positions.TheConstants.{WORD_LIMIT};
ghost use Rattle.rule_says.specs.Reading.{IsNumbering};
ghost use Rattle.dep_graph.specs.Graph.{IsGraphOf, edges_of};
ghost use Rattle.dep_graph.specs.declared.invert.TheConstants.{EDGE_LIMIT};
ghost use Rattle.accept.specs.Accepted.{IsChecked};
ghost use Rattle.accept.specs.Causes.{IsCause};
ghost use Rattle.accept.specs.Limits.{IsOfSize};
ghost use Rattle.accept.specs.Following.{Follows, IsOfGraph};

use crate::refusal::{Limit, Refusal};
use dep_graph::{DepGraph, GraphRefusal, dependents};
use ir_module::Module;
use ir_uses::{Uses, uses};
use module_system::system;
use positions::{PosRefusal, Positions};
use rule_terms::System;
use std::alloc::Global;

/// The positions of a module.
fn placed(alloc: Global, m: &Module, u: &Uses) -> Result<Positions, Refusal>
    requires few { HasFew m.now }
    requires sized { IsOfSize m.now }
    ensures positions { IfOk result (IsNumbering m.now) }
    ensures listed { IfOk result (AreOf m.now) }
    ensures few { IfOk result (λ _. length (positions_of m.now) ≤ WORD_LIMIT) }
    ensures refused { (b : List ℕ) → IsChecked b m.now → IfErr result (IsCause b) }
{
    match Positions::of(alloc, m, u) {
        Ok(positions) => Ok(positions),
        Err(PosRefusal::NoMemory) => Err(Refusal::NoMemory),
        Err(PosRefusal::TooMany { words }) => Err(Refusal::TooLarge {
            which: Limit::Words,
            count: words,
        }),
    }
}

/// The graph of a system.
fn graph(alloc: Global, s: &System) -> Result<DepGraph, Refusal>
    ensures graph { IfOk result (IsGraphOf s.now) }
    ensures few { IfOk result (λ _. edges_of s.now ≤ EDGE_LIMIT) }
    ensures refused { IfErr result (IsOfGraph s.now) }
{
    match dependents(alloc, s) {
        Ok(graph) => Ok(graph),
        Err(GraphRefusal::NoMemory) => Err(Refusal::NoMemory),
        Err(GraphRefusal::TooMany { edges }) => Err(Refusal::TooLarge {
            which: Limit::Edges,
            count: edges,
        }),
    }
}

/// What follows from a module.
#[derive(Drop)]
pub(crate) struct Back {
    pub uses: Uses,
    pub positions: Positions,
    pub system: System,
    pub graph: DepGraph,
}

/// All that follows from a module.
pub(crate) fn follow(alloc: Global, m: &Module) -> Result<Back, Refusal>
    requires formed { IsWellFormed m.now }
    requires sized { IsOfSize m.now }
    ensures follows { IfOk result (Follows m.now) }
    ensures refused { (b : List ℕ) → IsChecked b m.now → IfErr result (IsCause b) }
{
    let uses = uses(alloc, m)?;
    let positions = placed(alloc, m, &uses)?;
    let system = system(alloc, m, &uses, &positions)?;
    let graph = graph(alloc, &system)?;
    Ok(Back {
        uses,
        positions,
        system,
        graph,
    })
}
