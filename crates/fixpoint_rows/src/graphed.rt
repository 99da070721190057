//! Calls of a system and its graph.
ghost use Rattle.dep_graph.specs.Graph.{IsGraphOf};

use crate::line::Line;
use crate::numbers::{place, shared, small};
use crate::{machine, running, seats};
use attr_ids::PosId;
use dep_graph::{DepGraph, budget, dependents};
use rule_terms::System;
use std::alloc::Global;
use std::thread::Threads;

/// How many dependents of a position are answered at most.
const MANY: u32 = 1000;

/// Answers the dependents of a position, and what each reads of it.
fn put_dependents(line: &mut Line, s: &System, graph: &DepGraph, p: PosId)
    requires { IsGraphOf s.now graph.now }
{
    if p.0 >= s.count() {
        return;
    }
    line.put_places(graph.of(p));
    for j in 0..MANY {
        if j as usize >= graph.of(p).len() {
            break;
        }
        line.push(graph.read_by(p, j));
    }
}

/// Answers a call of a system with its graph, if it is one.
fn put_answer<R: Threads + Sync>(
    rt: &R,
    alloc: Global,
    s: &System,
    graph: &DepGraph,
    call: &str,
    n: &[u64],
    line: &mut Line,
) -> bool
    requires { IsGraphOf s.now graph.now }
{
    match call {
        "dependents" => put_dependents(line, s, graph, place(n, 0)),
        "budget" => line.push(budget(s, graph)),
        "events" => machine::put_reached(alloc, line, s, graph, n),
        "two_seats" => seats::run_two(alloc, line, s, graph),
        "seats" => seats::open_and_close(alloc, line, s, graph, small(n, 0)),
        "run_one" => running::run_one(alloc, line, s, graph, n),
        "run_other" => running::run_other(alloc, line, s, graph, n),
        "run_all" => running::run_each(rt, alloc, line, s, graph, n),
        _ => return false,
    }
    true
}

/// Answers a call of a system with its graph, if it is one.
pub(crate) fn answer<R: Threads + Sync>(
    rt: &R,
    alloc: Global,
    s: &System,
    call: &str,
    n: &[u64],
    line: &mut Line,
) -> bool {
    let Ok(graph) = dependents(alloc, s) else {
        line.lose();
        return true;
    };
    shared(&graph);
    put_answer(rt, alloc, s, &graph, call, n, line)
}
