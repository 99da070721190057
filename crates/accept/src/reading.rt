//! The front door: a text goes in, and what the deduction and the printing need of it comes out.
ghost use Rattle.std.specs.Prelude.{IfOk, IfErr};
ghost use Rattle.accept.specs.Causes.{IsCause};
ghost use Rattle.accept.specs.Ready.{IsReady};

use crate::back::follow;
use crate::checking::{sized, verified};
use crate::front::read_module;
use crate::refusal::Refusal;
use dep_graph::DepGraph;
use ir_module::Module;
use ir_token::Tokens;
use ir_tree::Tree;
use ir_uses::Uses;
use positions::Positions;
use rule_terms::System;
use std::alloc::Global;

/// What is read of an accepted text.
#[derive(Drop)]
pub struct Ready {
    pub tokens: Tokens,
    pub tree: Tree,
    pub module: Module,
    pub uses: Uses,
    pub positions: Positions,
    pub system: System,
    pub graph: DepGraph,
}

/// The module of a text, verified and within the limits, with all that follows from it.
///
/// # Errors
/// The first cause against the text, in the order of `Refusal`, or that no memory was left.
pub fn read(alloc: Global, text: &[u8]) -> Result<Ready, Refusal>
    ensures ready { IfOk result (IsReady text.now) }
    ensures refused { IfErr result (IsCause text.now) }
{
    let front = read_module(alloc, text)?;
    verified(alloc, &front.module)?;
    sized(&front.module)?;
    let back = follow(alloc, &front.module)?;
    Ok(Ready {
        tokens: front.tokens,
        tree: front.tree,
        module: front.module,
        uses: back.uses,
        positions: back.positions,
        system: back.system,
        graph: back.graph,
    })
}
