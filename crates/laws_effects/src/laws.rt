ghost use Rattle.std.specs.Prelude.{ℕ, All};
ghost use Rattle.ir_machine.specs.Meanings.{memory, HoldsOfBody};
ghost use Rattle.fact_meanings.specs.Values.{FramesAreRight};
ghost use Rattle.fact_meanings.specs.Runs.{memory_of, RowHolds};
ghost use Rattle.law_premises.specs.Premises.{InHonestRuns, IsControlled};
ghost use Rattle.law_premises.specs.Types.{PassesAddresses};

/// In every honest run no call of a body makes an access that the body's facts of memory rule out, given of each step that control
/// goes as its facts say, that the values of frames are to blocks of the classes that their words leave, and that what points to
/// a block is passed as a pointer.
pub fn memory_holds()
    ensures { InHonestRuns (λ m held steps. All (IsControlled m held) steps → All (λ d. FramesAreRight held d.before) steps →
        All (PassesAddresses m) steps → (f : ℕ) → HoldsOfBody (memory (memory_of held f)) f steps) }
{}

/// In every honest run no body is entered in the extent of a call of one that does not reach it, and none at all that the outside
/// does not reach, given of each step that control goes as its facts say.
pub fn reach_holds()
    ensures { InHonestRuns (λ m held steps. All (IsControlled m held) steps → (r t : ℕ) → RowHolds m held r t steps) }
{}
