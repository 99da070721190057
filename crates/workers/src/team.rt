//! All workers of a run.
ghost use Rattle.std.specs.Prelude.{◌≡◌, ◌<◌, ◌≤◌, ℕ, length, map, slice_index_or, All, IfOk};
ghost use Rattle.workers.specs.Workers.{IsWorkerOf, HasRun};

use crate::worker::{Worker, run_worker};
use attr_ids::{EndList, NoMemory, Sequence};
use attr_io::Gate;
use std::alloc::Global;
use std::thread;
use std::thread::Threads;
use steal_pool::{OwnPools, Robbers};
use word_rule::{LatticeWords, WorkerSeats};

/// The most threads that run workers.
const THREADS: usize = 16;

/// One worker for each seat, by their numbers.
pub(crate) fn team_of(
    alloc: Global,
    seats: WorkerSeats,
    pools: OwnPools,
    robbers: Robbers,
) -> Result<Vec<Worker>, NoMemory>
    requires few { length seats ≤ 16 }
    requires many { (length pools ≡ length seats) × (length robbers ≡ length seats) }
    ensures seats { IfOk result (λ team. map (λ worker. worker.seat) team.items ≡ seats) }
    ensures pools { IfOk result (λ team. map (λ worker. worker.own) team.items ≡ pools) }
    ensures robbers { IfOk result (λ team. map (λ worker. worker.robber) team.items ≡ robbers) }
{
    let mut seats = seats.into_vec();
    let mut pools = pools.into_vec();
    let mut robbers = robbers.into_vec();
    let mut team = Vec::with_capacity(alloc, seats.len())?;
    for number in 0..seats.len() {
        team.push(Worker::new(
            number as u8,
            seats.remove(0),
            pools.remove(0),
            robbers.remove(0),
        ))?;
    }
    Ok(team)
}

/// Runs one worker.
pub(crate) fn run_one<G: Gate>(words: &LatticeWords, worker: &mut Worker, turns: u64, gate: &G)
    requires { IsWorkerOf words.now worker.old }
    ensures { HasRun words.now turns worker.old worker.new }
{
    worker.end = run_worker(words, worker, turns, gate);
}

/// Runs all workers, each in a thread of its own.
pub(crate) fn run_team<R: Threads + Sync, G: Gate + Sync>(
    rt: &R,
    words: &LatticeWords,
    team: &mut [Worker],
    turns: u64,
    gate: &G,
)
    requires { All (IsWorkerOf words.now) team.old }
    ensures long { length team.new ≡ length team.old }
    ensures ran { (i : ℕ) (d : _) → i < length team.old → HasRun words.now turns (slice_index_or team.old i d) (slice_index_or team.new i d) }
{
    thread::for_each_mut(
        rt,
        team,
        THREADS,
        &|_, worker: &mut Worker|
            requires { IsWorkerOf words.now worker.now }
            ensures { HasRun words.entry.now turns worker.entry.now worker.exit.now }
        { run_one(words, worker, turns, gate) },
    );
}

/// The seats and the ends of the workers.
pub(crate) fn parts_of(
    alloc: Global,
    mut team: Vec<Worker>,
) -> Result<(WorkerSeats, EndList), NoMemory>
    ensures seats { IfOk result (λ parts. parts.0 ≡ map (λ worker. worker.seat) team.items) }
    ensures ends { IfOk result (λ parts. parts.1 ≡ map (λ worker. worker.end) team.items) }
{
    let mut seats = Vec::with_capacity(alloc, team.len())?;
    let mut ends = Vec::with_capacity(alloc, team.len())?;
    for _ in 0..team.len() {
        let Worker {
            number: _,
            seat,
            own: _own,
            robber: _robber,
            held: _,
            taken: _,
            end,
        } = team.remove(0);
        seats.push(seat)?;
        ends.push(end)?;
    }
    Ok((Sequence::from_vec(seats), Sequence::from_vec(ends)))
}
