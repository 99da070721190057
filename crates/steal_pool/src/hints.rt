//! The rule of a deque of hints. A rule is fixed before a program runs and cannot name the number of
//! positions of a module, so this number goes through the deque once, in the place of a position, before
//! another thread knows of the deque. From then on every position in the deque is below it.
use attr_ids::PosId;
use crossbeam_deque::protocol::{Outcome, Protocol, Split};
use crossbeam_deque::{Pass, Stealer, Worker};
use std::alloc::Global;
use std::collections::LinkedList;

/// How far a deque is: made, with the bound of its positions in it, or in use.
#[derive(Clone, Copy, Debug, PartialEq, Eq)]
pub enum Stage {
    Made,
    Bounding,
    Used,
}

/// What one worker knows of a deque: the bound of its positions, its stage, and the positions that this
/// worker itself gave and took, in their order. It is there for contracts; no value of it is made.
pub struct Log {
    pub count: u32,
    pub stage: Stage,
    pub given: LinkedList<PosId>,
    pub taken: LinkedList<PosId>,
}

pub struct Bounded;

impl Protocol<PosId, Log> for Bounded {
    ghost use Rattle.std.specs.Prelude.{[]};
    ghost use Rattle.steal_pool.specs.declared.hints.Stage.TheVariants.{Made};
    ghost use Rattle.steal_pool.specs.Hints.{log, Hints};

    ghost holds = { Hints };

    ghost first = { log 0 Made [] [] };

    ghost guest = { log 0 Made [] [] };
}

/// The bound enters the deque.
pub struct Bound;

impl Outcome<PosId, Log> for Bound {
    ghost use Rattle.steal_pool.specs.Hints.{Bounds};

    ghost then = { Bounds };
}

/// The bound leaves the deque.
pub struct Free;

impl Outcome<PosId, Log> for Free {
    ghost use Rattle.std.specs.Prelude.{◌≡◌, []};
    ghost use Rattle.steal_pool.specs.declared.hints.Stage.TheVariants.{Used};
    ghost use Rattle.steal_pool.specs.Hints.{log};

    ghost then = { λ v _ w. w ≡ log v.count Used [] [] };

    ghost empty = { λ _. ⊥ };
}

/// A hint is given.
pub struct Given;

impl Outcome<PosId, Log> for Given {
    ghost use Rattle.std.specs.Prelude.{◌≡◌};
    ghost use Rattle.steal_pool.specs.Hints.{gave};

    ghost then = { λ v xs w. w ≡ gave v xs };
}

/// A hint is taken.
pub struct Taken;

impl Outcome<PosId, Log> for Taken {
    ghost use Rattle.steal_pool.specs.Hints.{Takes};

    ghost then = { Takes };
}

/// Another worker comes to know the deque.
pub struct Shared;

impl Split<Log> for Shared {
    ghost use Rattle.std.specs.Prelude.{[]};
    ghost use Rattle.steal_pool.specs.Hints.{log};

    ghost left = { λ v. v };

    ghost right = { λ v. log v.count v.stage [] [] };
}

pub type Owner = Worker<PosId, Global, Log, Bounded>;

pub type Thief = Stealer<PosId, Global, Log, Bounded>;

pub type HintPass = Pass<PosId, Log>;
