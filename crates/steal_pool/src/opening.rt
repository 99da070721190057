//! The pools and the robbers of a run.
ghost use Rattle.std.specs.Prelude.{◌≡◌, ◌<◌, ◌≤◌, IfOk, map, length, All};
ghost use Rattle.steal_pool.specs.Pools.{own_deque, IsFreshPool, IsRobberOf, RobsAll, AreFresh};

use crate::pool::{OwnPool, OwnPools};
use crate::robber::{Robber, Robbers};
use attr_ids::{NoMemory, Sequence};
use std::alloc::Global;

fn empty_pools(alloc: Global, workers: u8, count: u32) -> Result<Vec<OwnPool>, NoMemory>
    ensures { IfOk result (λ pools. (length pools.items ≡ workers) × All (IsFreshPool count) pools.items) }
{
    let mut pools = Vec::new(alloc);
    for _ in 0..workers {
        pools.push(OwnPool::new(alloc, count)?)?;
    }
    Ok(pools)
}

/// A robber of these pools.
fn robber(alloc: Global, pools: &mut Vec<OwnPool>, count: u32) -> Result<Robber, NoMemory>
    requires { All (IsFreshPool count) pools.old.items }
    ensures same { (map own_deque pools.new.items ≡ map own_deque pools.old.items) × All (IsFreshPool count) pools.new.items }
    ensures robs { IfOk result (λ robber. RobsAll (map own_deque pools.old.items) count robber) }
{
    let mut doors = Vec::new(alloc);
    for next in 0..pools.len() {
        doors.push(pools[next].door()?)?;
    }
    Ok(Robber { doors })
}

fn robbers_of(
    alloc: Global,
    pools: &mut Vec<OwnPool>,
    workers: u8,
    count: u32,
) -> Result<Vec<Robber>, NoMemory>
    requires { All (IsFreshPool count) pools.old.items }
    ensures same { (map own_deque pools.new.items ≡ map own_deque pools.old.items) × All (IsFreshPool count) pools.new.items }
    ensures robs { IfOk result (λ robbers. (length robbers.items ≡ workers) × All (RobsAll (map own_deque pools.old.items) count) robbers.items) }
{
    let mut robbers = Vec::new(alloc);
    for _ in 0..workers {
        robbers.push(robber(alloc, pools, count)?)?;
    }
    Ok(robbers)
}

/// Empty pools of positions below `count`, and their robbers.
pub fn pools(alloc: Global, workers: u8, count: u32) -> Result<(OwnPools, Robbers), NoMemory>
    requires { (0 < workers) × (workers ≤ 16) }
    ensures fresh { IfOk result (λ made. AreFresh workers count made.0 made.1) }
    ensures robbers { IfOk result (λ made. All (IsRobberOf workers count) made.1) }
{
    let mut pools = empty_pools(alloc, workers, count)?;
    let robbers = robbers_of(alloc, &mut pools, workers, count)?;
    Ok((Sequence::from_vec(pools), Sequence::from_vec(robbers)))
}
