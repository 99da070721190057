ghost use Rattle.std.specs.Prelude.{◌≡◌};

use attr_ids::NoMemory;

/// Why a step is not done.
#[derive(Clone, Copy, PartialEq, Eq)]
pub enum Stop {
    /// The behaviour of the program is undefined.
    Undefined,
    /// The choice does not fit the state.
    Over,
}

/// Why work that takes memory is not done.
#[derive(Clone, Copy, PartialEq, Eq)]
pub enum Halt {
    Stopped(Stop),
    NoMemory,
}

impl From<Stop> for Halt {
    fn from(stop: Stop) -> Halt
        ensures from_gives { result ≡ Halt.Stopped stop }
    {
        Halt::Stopped(stop)
    }
}

impl From<NoMemory> for Halt {
    fn from(_no_memory: NoMemory) -> Halt
        ensures from_gives { result ≡ Halt.NoMemory }
    {
        Halt::NoMemory
    }
}
