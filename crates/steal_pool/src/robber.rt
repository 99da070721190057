//! What takes hints out of the pools of all workers.
ghost use Rattle.std.specs.Prelude.{◌≡◌};
ghost use Rattle.crossbeam_deque.specs.Handles.{view, IsPassOf, stealer_deque};
ghost use Rattle.steal_pool.specs.declared.hints.Stage.TheVariants.{Used};

use crate::hints::{HintPass, Taken, Thief};
use attr_ids::{PosId, Sequence};
use crossbeam_deque::Steal;

/// What one try to rob a pool came to.
#[derive(Clone, Copy, Debug, PartialEq, Eq)]
pub enum Robbed {
    /// This position came out.
    Got { p: PosId },
    /// One step found no position in the pool.
    Empty,
    /// Others took from the pool meanwhile, or it was empty at one step: try again.
    Again,
}

/// A worker's way into one pool, with a pass of its own.
#[derive(Drop)]
pub(crate) struct Door {
    pub(crate) thief: Thief,
    pub(crate) pass: HintPass,
    ghost fits: { IsPassOf (stealer_deque thief) pass },
    ghost used: { (view pass).stage ≡ Used },
}

/// A worker's ways into the pools of all workers, by their numbers.
#[derive(Drop)]
pub struct Robber {
    pub(crate) doors: Vec<Door>,
}

/// One robber for each worker.
pub type Robbers = Sequence<Robber>;

impl Door {
    ghost use Rattle.std.specs.Prelude.{◌≡◌};
    ghost use Rattle.steal_pool.specs.Pools.{Steals, door_log, door_deque};

    fn steal(&mut self) -> Robbed
        ensures robbed { Steals (door_log self.old) result (door_log self.new) }
        ensures same { door_deque self.new ≡ door_deque self.old }
    {
        match self.thief.steal_as::<Taken>(&mut self.pass) {
            Steal::Success(p) => Robbed::Got { p },
            Steal::Empty => Robbed::Empty,
            Steal::Retry => Robbed::Again,
        }
    }
}

impl Robber {
    ghost use Rattle.std.specs.Prelude.{◌≡◌, ◌<◌, ℕ, length};
    ghost use Rattle.steal_pool.specs.Hints.{IsBelow};
    ghost use Rattle.steal_pool.specs.Pools.{Robs, IsRobberOf, IfGot, robber_logs, robber_deques};

    /// How many pools it robs.
    pub fn pool_count(&self) -> usize
        ensures { result ≡ length (robber_logs self.now) }
    {
        self.doors.len()
    }

    /// Tries once to take the first position of the pool of the worker `from`.
    pub fn rob(&mut self, from: u8) -> Robbed
        requires { from < length (robber_logs self.old) }
        ensures robs { Robs (robber_logs self.old) from result (robber_logs self.new) }
        ensures same { robber_deques self.new ≡ robber_deques self.old }

        // In the words of a caller that knows the number of workers and of positions.
        ensures below { (workers count : ℕ) → IsRobberOf workers count self.old → IfGot result (IsBelow count) }
        ensures fits { (workers count : ℕ) → IsRobberOf workers count self.old → IsRobberOf workers count self.new }
    {
        self.doors[from as usize].steal()
    }
}
