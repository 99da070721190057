ghost use Rattle.std.specs.Prelude.{◌≡◌};
ghost use Rattle.attr_ids.specs.Status.{exit_code};

use crate::sequence::Sequence;

/// How a run of the program ended. The exit status of the process is its place in this list, from 0.
#[derive(Clone, Copy, Debug, PartialEq, Eq)]
pub enum Status {
    Done,
    Refused,
    Usage,
    ReadFault,
    WriteFault,
    NoMemory,
}

impl Status {
    /// The exit status of the process, from 0 to 5.
    pub fn code(self) -> u8
        ensures { result ≡ exit_code self }
    {
        self as u8
    }
}

/// How a worker ended: with its part of the fixpoint reached, or with its turns used up.
#[derive(Clone, Copy, Debug, PartialEq, Eq)]
pub enum WorkerEnd {
    Done,
    Spent,
}

pub type EndList = Sequence<WorkerEnd>;
