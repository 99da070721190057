//! A worker's own pool.
ghost use Rattle.std.specs.Prelude.{◌≡◌, ◌+◌, ◌≤◌, length};
ghost use Rattle.crossbeam_deque.specs.Handles.{worker_view, worker_flavor, worker_capacity, worker_index};
ghost use Rattle.steal_pool.specs.declared.hints.Stage.TheVariants.{Used};

use crate::hints::{Bound, Free, Given, Owner, Shared, Taken};
use crate::robber::Door;
use attr_ids::{NoMemory, PosId, Sequence};
use std::alloc::Global;

/// The slots with which a pool begins.
pub const SLOTS: usize = 64;

/// A worker's own pool of hints. It grows as it needs, and hints come out in the order in which they
/// were given.
#[derive(Drop)]
pub struct OwnPool {
    owner: Owner,
    ghost used: { (worker_view owner).stage ≡ Used },
    ghost fifo: { worker_flavor owner ≡ 0 },
    ghost slots: { 64 ≤ worker_capacity owner },
    ghost room: { worker_index owner ≤ length (worker_view owner).given + 1 },
}

/// One pool for each worker.
pub type OwnPools = Sequence<OwnPool>;

impl OwnPool {
    ghost use Rattle.std.specs.Prelude.{◌≡◌, ◌<◌, ◌⊎◌, None, IfOk, IfSome};
    ghost use Rattle.steal_pool.specs.Hints.{fresh};
    ghost use Rattle.steal_pool.specs.Pools.{own_log, own_deque, door_log, door_deque, HasRoom, Keeps, Yields};

    /// An empty pool of positions below `count`.
    pub(crate) fn new(alloc: Global, count: u32) -> Result<OwnPool, NoMemory>
        ensures { IfOk result (λ pool. own_log pool ≡ fresh count) }
    {
        let mut owner = Owner::fifo_as(alloc, SLOTS)?;
        let Ok(()) = owner.push_as::<Bound>(PosId(count)) else {
            return Err(NoMemory);
        };
        match owner.pop_as::<Free>() {
            Some(_) => Ok(OwnPool { owner }),
            None => unreachable!(),
        }
    }

    /// A way into this pool for a robber.
    pub(crate) fn door(&mut self) -> Result<Door, NoMemory>
        ensures same { (own_log self.new ≡ own_log self.old) × (own_deque self.new ≡ own_deque self.old) }
        ensures door { IfOk result (λ door. (door_deque door ≡ own_deque self.old) × (door_log door ≡ fresh (own_log self.old).count)) }
    {
        let thief = self.owner.stealer()?;
        let pass = self.owner.another::<Shared>();
        Ok(Door { thief, pass })
    }

    /// Puts a position into the pool. Where the pool has used its slots and cannot grow, the hint is
    /// dropped.
    pub fn give(&mut self, p: PosId)
        requires { p.0 < (own_log self.old).count }
        ensures kept { HasRoom (own_log self.old) → Keeps (own_log self.old) p (own_log self.new) }
        ensures either { Keeps (own_log self.old) p (own_log self.new) ⊎ (own_log self.new ≡ own_log self.old) }
        ensures same { own_deque self.new ≡ own_deque self.old }
    {
        let _ = self.owner.push_as::<Given>(p);
    }

    /// The position that was given first of those in the pool. `None` comes where one step found no
    /// position in the pool, and leaves everything as it was.
    pub fn draw(&mut self) -> Option<PosId>
        ensures some { IfSome result (λ p. Yields (own_log self.old) p (own_log self.new)) }
        ensures none { result ≡ None → own_log self.new ≡ own_log self.old }
        ensures same { own_deque self.new ≡ own_deque self.old }
    {
        self.owner.pop_as::<Taken>()
    }
}
