//! Workers over a system.
ghost use Rattle.std.specs.Prelude.{◌≡◌, ◌<◌, ◌≤◌, false, length, All, IfOk};
ghost use Rattle.dep_graph.specs.Graph.{IsGraphOf};
ghost use Rattle.word_rule.specs.Belongs.{system_in, workers_in};
ghost use Rattle.workers.specs.Workers.{count_in, IsReady, IsPoolOf, IsWorkerOf};
ghost use Rattle.steal_pool.specs.Pools.{IsRobberOf};

use crate::line::Line;
use crate::numbers::{at, place, small};
use attr_ids::{NoMemory, PosId, WorkerEnd};
use attr_io::Gate;
use dep_graph::DepGraph;
use rule_terms::System;
use std::alloc::Global;
use std::thread::Threads;
use steal_pool::{OwnPool, OwnPools, Robbers, pools};
use word_rule::{LatticeWords, WorkerSeats};
use workers::{Ran, Worker, run_all, run_worker};

/// A gate that holds nobody back.
struct Still;

impl Gate for Still {
    fn at_turn(&self, _worker: u8, _turn: u64) {}
}

/// 0 for a worker that is done, 1 for one that is spent.
fn code(end: WorkerEnd) -> u64 {
    match end {
        WorkerEnd::Done => 0,
        WorkerEnd::Spent => 1,
    }
}

/// Answers the position of each hint that the pool still has, of at most three.
fn put_hints(line: &mut Line, own: &mut OwnPool) {
    for _ in 0..3 {
        let Some(p) = own.draw() else {
            return;
        };
        line.push(u64::from(p.0));
    }
}

/// One worker for each seat, by their numbers.
fn team(
    alloc: Global,
    words: &LatticeWords,
    seats: WorkerSeats,
    pools: OwnPools,
    robbers: Robbers,
) -> Result<Vec<Worker>, NoMemory>
    requires seats { (length seats ≤ 16) × All (IsReady words.now) seats }
    requires pools { (length pools ≡ length seats) × All (IsPoolOf (count_in words.now)) pools }
    requires robbers { (length robbers ≡ length seats) × All (IsRobberOf (workers_in words.now) (count_in words.now)) robbers }
    ensures many { IfOk result (λ made. length made.items ≡ length seats) }
    ensures ready { IfOk result (λ made. All (IsWorkerOf words.now) made.items) }
{
    let count = seats.len();
    let mut seats = seats.into_vec();
    let mut pools = pools.into_vec();
    let mut robbers = robbers.into_vec();
    let mut made = Vec::new(alloc);
    for number in 0..count {
        made.push(Worker::new(
            number as u8,
            seats.remove(0),
            pools.remove(0),
            robbers.remove(0),
        ))?;
    }
    Ok(made)
}

/// The words of a system, and its workers before they run.
fn opened<'s>(
    alloc: Global,
    s: &'s System,
    g: &'s DepGraph,
    workers: u8,
) -> Result<(LatticeWords<'s>, Vec<Worker>), NoMemory>
    requires graph { IsGraphOf s.now g.now }
    requires workers { (0 < workers) × (workers ≤ 16) }
    ensures system { IfOk result (λ made. system_in made.0 ≡ s.now) }
    ensures many { IfOk result (λ made. length made.1.items ≡ workers) }
    ensures ready { IfOk result (λ made. All (IsWorkerOf made.0) made.1.items) }
{
    let (words, seats) = LatticeWords::open(alloc, s, g, workers)?;
    let (pools, robbers) = pools(alloc, workers, s.count())?;
    let made = team(alloc, &words, seats, pools, robbers)?;
    Ok((words, made))
}

/// Gives the worker's own pool a hint, if it names a position.
fn give(words: &LatticeWords, worker: &mut Worker, p: PosId)
    requires { IsWorkerOf words.now worker.old }
    ensures { IsWorkerOf words.now worker.new }
{
    if p.0 < words.system().count() {
        worker.own.give(p);
    }
}

/// Gives the only worker two hints, and runs it for so many turns. Answers how it ended, and the hints that its pool
/// has then.
fn run_given(line: &mut Line, words: &LatticeWords, worker: &mut Worker, n: &[u64])
    requires { IsWorkerOf words.now worker.old }
{
    give(words, worker, place(n, 1));
    give(words, worker, place(n, 2));
    line.push(code(run_worker(words, worker, at(n, 0), &Still)));
    put_hints(line, &mut worker.own)
}

/// Runs one worker over the system.
pub(crate) fn run_one(alloc: Global, line: &mut Line, s: &System, graph: &DepGraph, n: &[u64])
    requires { IsGraphOf s.now graph.now }
{
    let Ok((words, mut team)) = opened(alloc, s, graph, 1) else {
        return line.lose();
    };
    run_given(line, &words, &mut team[0], n)
}

/// Whether a dirty bit of the word is set, which ends the worker.
fn finds_dirty(words: &LatticeWords, worker: &mut Worker, p: PosId) -> bool
    requires { IsWorkerOf words.now worker.old }
    ensures { result ≡ false → IsWorkerOf words.now worker.new }
{
    p.0 < words.system().count() && words.take(&mut worker.seat, p).is_some()
}

/// Gives the first of two workers two hints, and runs the second one for so many turns. Answers how it ended, and
/// whether the first finds the words of the hints, and then of another position, dirty.
fn run_second(
    line: &mut Line,
    words: &LatticeWords,
    first: &mut Worker,
    second: &mut Worker,
    n: &[u64],
)
    requires first { IsWorkerOf words.now first.old }
    requires second { IsWorkerOf words.now second.old }
{
    give(words, first, place(n, 1));
    give(words, first, place(n, 2));
    line.push(code(run_worker(words, second, at(n, 0), &Still)));
    let is_left = finds_dirty(words, first, place(n, 1)) || finds_dirty(words, first, place(n, 2));
    line.push(u64::from(is_left));
    if !is_left {
        line.push(u64::from(finds_dirty(words, first, place(n, 3))));
    }
}

/// Runs the second of two workers over the system.
pub(crate) fn run_other(alloc: Global, line: &mut Line, s: &System, graph: &DepGraph, n: &[u64])
    requires { IsGraphOf s.now graph.now }
{
    let Ok((words, mut team)) = opened(alloc, s, graph, 2) else {
        return line.lose();
    };
    if let [first, second] = team.as_mut_slice() {
        run_second(line, &words, first, second, n);
    }
}

fn put_ran(line: &mut Line, ran: &Ran) {
    line.put_all(ran.words.as_slice());
    for end in ran.ends.as_slice() {
        line.push(code(*end));
    }
}

/// Runs all of so many workers, each for so many turns. Answers the words that they leave, and how each ended.
pub(crate) fn run_each<R: Threads + Sync>(
    rt: &R,
    alloc: Global,
    line: &mut Line,
    s: &System,
    graph: &DepGraph,
    n: &[u64],
)
    requires { IsGraphOf s.now graph.now }
{
    let workers = small(n, 0);
    if workers == 0 || workers > 16 {
        return line.put(" not 1 to 16 workers");
    }
    match run_all(rt, alloc, s, graph, workers as u8, at(n, 1), &Still) {
        Ok(ran) => put_ran(line, &ran),
        Err(NoMemory) => line.lose(),
    }
}
