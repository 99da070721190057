//! One worker, and its run.
ghost use Rattle.std.specs.Prelude.{◌≡◌, ◌<◌, ◌≤◌, ◌+◌, ◌↔◌};
ghost use Rattle.attr_ids.specs.declared.status.WorkerEnd.TheVariants.{Done, Spent};
ghost use Rattle.fix_core.specs.declared.state.CoreMode.TheVariants.{Idle};
ghost use Rattle.word_rule.specs.Belongs.{core_of, IsSameSeat, KnowsAll};
ghost use Rattle.workers.specs.Workers.{budget_in, count_in, IsWorkerOf};

use crate::turn::Shift;
use attr_ids::WorkerEnd;
use attr_io::Gate;
use steal_pool::{OwnPool, Robber};
use word_rule::{LatticeWords, WorkerSeat};

/// One worker: its number, what it runs with, how many hints it takes its own pool to hold, how many turns of its run it
/// has done, and how it ended. Until it has run it counts as spent.
#[derive(Drop)]
pub struct Worker {
    pub number: u8,
    pub seat: WorkerSeat,
    pub own: OwnPool,
    pub robber: Robber,
    pub(crate) held: u32,
    pub(crate) taken: u64,
    pub end: WorkerEnd,
}

impl Worker {
    /// A worker that has not run yet.
    pub fn new(number: u8, seat: WorkerSeat, own: OwnPool, robber: Robber) -> Worker
        ensures { (result.seat ≡ seat) × (result.own ≡ own) × (result.robber ≡ robber) }
    {
        Worker {
            number,
            seat,
            own,
            robber,
            held: 0,
            taken: 0,
            end: WorkerEnd::Spent,
        }
    }
}

/// The most hints that a worker's own pool is to hold, where so many workers have a pool each. All pools together
/// hold at most one for every four positions, or few.
fn most_hints(count: u32, pools: usize) -> u32 {
    let pools = pools.clamp(1, 16) as u32;
    (count / 4 / pools).max(1024)
}

/// Goes round after round until a round takes no dirty word up, and does at most so many turns. With more turns than
/// the budget it is never spent.
pub fn run_worker<G: Gate>(
    words: &LatticeWords,
    worker: &mut Worker,
    turns: u64,
    gate: &G,
) -> WorkerEnd
    requires { IsWorkerOf words.now worker.old }
    ensures same { IsSameSeat worker.old.seat worker.new.seat }
    ensures idle { (core_of worker.new.seat).mode ≡ Idle }
    ensures spent { (result ≡ Spent) ↔ ((core_of worker.new.seat).took ≡ (core_of worker.old.seat).took + turns) }
    ensures done { (result ≡ Done) ↔ ((core_of worker.new.seat).took < (core_of worker.old.seat).took + turns) }
    ensures enough { budget_in words.now < turns → result ≡ Done }
    ensures known { result ≡ Done → KnowsAll (count_in words.now) (core_of worker.new.seat) }
    ensures worker { IsWorkerOf words.now worker.new }
{
    let shift = Shift {
        words,
        turns,
        gate,
        count: words.system().count(),
        most: most_hints(words.system().count(), worker.robber.pool_count()),
    };
    worker.held = 0;
    worker.taken = 0;
    'running: while worker.taken < turns {
        let before = worker.taken;
        worker.round(&shift);
        if worker.taken == before {
            return WorkerEnd::Done;
        }
    }
    WorkerEnd::Spent
}
