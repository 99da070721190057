ghost use Rattle.std.specs.Prelude.{ℕ, All};
ghost use Rattle.fact_meanings.specs.Values.{FramesAreRight};
ghost use Rattle.fact_meanings.specs.Runs.{EntryHolds, ReturnsHold};
ghost use Rattle.law_premises.specs.Premises.{InHonestRuns, IsControlled};
ghost use Rattle.law_premises.specs.Types.{PassesAddresses, HasItsBits};
ghost use Rattle.laws_pointer.specs.Told.{but_numbers};

/// At every moment of every honest run each value of a frame is as its word says, but for alignment and bytes: not null, the same
/// as a parameter, to a block of a class that is left. Given of each step that control goes as its facts say and that what points
/// to a block is passed as a pointer.
pub fn pointers_hold()
    ensures before { InHonestRuns (λ m held steps. All (IsControlled m held) steps → All (PassesAddresses m) steps →
        All (λ step. FramesAreRight (but_numbers held) step.before) steps) }
    ensures next { InHonestRuns (λ m held steps. All (IsControlled m held) steps → All (PassesAddresses m) steps →
        All (λ step. FramesAreRight (but_numbers held) step.next) steps) }
    ensures entries { InHonestRuns (λ m held steps. All (IsControlled m held) steps → All (PassesAddresses m) steps → HasItsBits m held →
        (f at : ℕ) → All (EntryHolds (but_numbers held) f at) steps) }
    ensures returns { InHonestRuns (λ m held steps. All (IsControlled m held) steps → All (PassesAddresses m) steps →
        (f : ℕ) → All (ReturnsHold (but_numbers held) f) steps) }
{}
