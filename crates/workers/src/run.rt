//! A run of all workers.
ghost use Rattle.std.specs.Prelude.{◌≡◌, ◌*◌, ◌<◌, ◌≤◌, length, All, IfOk};
ghost use Rattle.attr_ids.specs.declared.status.WorkerEnd.TheVariants.{Done};
ghost use Rattle.rule_terms.specs.Greatest.{AreWithin, IsAbove, IsGreatest};
ghost use Rattle.dep_graph.specs.Graph.{IsGraphOf, budget_of};
ghost use Rattle.workers.specs.Workers.{spent_count};

use crate::team::{parts_of, run_team, team_of};
use attr_ids::{EndList, NoMemory, WordList};
use attr_io::Gate;
use dep_graph::DepGraph;
use rule_terms::System;
use std::alloc::Global;
use std::thread::Threads;
use steal_pool::pools;
use word_rule::LatticeWords;

/// The words that a run left, and how each worker ended.
#[derive(Debug, Drop)]
pub struct Ran {
    pub words: WordList,
    pub ends: EndList,
}

/// Opens the words of the system, runs so many workers on them, each for at most so many turns, and closes them.
pub fn run_all<R: Threads + Sync, G: Gate + Sync>(
    rt: &R,
    alloc: Global,
    s: &System,
    g: &DepGraph,
    workers: u8,
    turns: u64,
    gate: &G,
) -> Result<Ran, NoMemory>
    requires graph { IsGraphOf s.now g.now }
    requires workers { (0 < workers) × (workers ≤ 16) }
    ensures long { IfOk result (λ ran. length ran.words ≡ length s.now.masks) }
    ensures within { IfOk result (λ ran. AreWithin ran.words s.now.masks) }
    ensures above { IfOk result (λ ran. IsAbove s.now ran.words) }
    ensures ends { IfOk result (λ ran. length ran.ends ≡ workers) }
    ensures greatest { IfOk result (λ ran. All (λ end. end ≡ Done) ran.ends → IsGreatest s.now ran.words) }
    ensures budget { IfOk result (λ ran. spent_count ran.ends * turns ≤ budget_of s.now g.now) }
    ensures done { IfOk result (λ ran. budget_of s.now g.now < turns → All (λ end. end ≡ Done) ran.ends) }
{
    let (words, seats) = LatticeWords::open(alloc, s, g, workers)?;
    let (pools, robbers) = pools(alloc, workers, s.count())?;
    let mut team = team_of(alloc, seats, pools, robbers)?;
    run_team(rt, &words, team.as_mut_slice(), turns, gate);
    let (seats, ends) = parts_of(alloc, team)?;
    Ok(Ran {
        words: words.close(seats),
        ends,
    })
}
