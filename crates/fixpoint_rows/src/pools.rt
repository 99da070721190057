//! Pools of hints.
ghost use Rattle.std.specs.Prelude.{◌≡◌};
ghost use Rattle.steal_pool.specs.Pools.{IsRobberOf, own_log};

use crate::line::Line;
use crate::numbers::is_send;
use attr_ids::PosId;
use std::alloc::Global;
use steal_pool::{OwnPool, Robbed, Robber, pools};

/// Answers the position, or the largest number where there is none.
fn put_hint(line: &mut Line, hint: Option<PosId>) {
    match hint {
        Some(p) => line.push(u64::from(p.0)),
        None => line.push(u64::MAX),
    }
}

fn hint_of(robbed: Robbed) -> Option<PosId> {
    match robbed {
        Robbed::Got { p } => Some(p),
        Robbed::Empty => None,
        Robbed::Again => Some(PosId(u32::MAX)),
    }
}

/// Gives a pool 3 and 5, and draws three times.
fn draw_thrice(line: &mut Line, own: &mut OwnPool)
    requires { (own_log own.old).count ≡ 6 }
{
    own.give(PosId(3));
    own.give(PosId(5));
    put_hint(line, own.draw());
    put_hint(line, own.draw());
    put_hint(line, own.draw())
}

fn drawn(alloc: Global, line: &mut Line) {
    let Ok((pools, _)) = pools(alloc, 1, 6) else {
        return line.lose();
    };
    let mut pools = pools.into_vec();
    draw_thrice(line, &mut pools[0])
}

/// Gives the first of two pools 0 and 2. The second worker robs its own pool and the first one, the first one draws,
/// and the second robs it again.
fn rob_thrice(line: &mut Line, own: &mut OwnPool, robber: &mut Robber)
    requires own { (own_log own.old).count ≡ 6 }
    requires robber { IsRobberOf 2 6 robber.old }
{
    own.give(PosId(0));
    own.give(PosId(2));
    put_hint(line, hint_of(robber.rob(1)));
    put_hint(line, hint_of(robber.rob(0)));
    put_hint(line, own.draw());
    put_hint(line, hint_of(robber.rob(0)))
}

fn robbed(alloc: Global, line: &mut Line) {
    let Ok((pools, robbers)) = pools(alloc, 2, 6) else {
        return line.lose();
    };
    is_send(&pools);
    is_send(&robbers);
    let mut pools = pools.into_vec();
    let mut robbers = robbers.into_vec();
    rob_thrice(line, &mut pools[0], &mut robbers[1])
}

/// Answers a call of pools, if it is one.
pub(crate) fn answer(alloc: Global, call: &str, line: &mut Line) -> bool {
    match call {
        "drawn" => drawn(alloc, line),
        "robbed" => robbed(alloc, line),
        _ => return false,
    }
    true
}
