ghost use Rattle.std.specs.Prelude.{ℕ, All};
ghost use Rattle.fact_meanings.specs.Values.{FramesAreRight};
ghost use Rattle.fact_meanings.specs.Runs.{EntryHolds, ReturnsHold};
ghost use Rattle.law_premises.specs.Premises.{IsControlled};
ghost use Rattle.laws_aligned.specs.Aligned.{but_bytes, InTypedHonestRuns};

/// At every moment of every honest run each value of a frame is as its word says, but for bytes: aligned, not null, the same as a
/// parameter, to a block of a class that is left; so is each argument at entry and each value that is returned. Given of each step
/// that control goes as its facts say, of the module that its types tell pointers from all else and how far indices lead, and of
/// the set that its facts are bits of the masks.
pub fn alignment_holds()
    ensures before { InTypedHonestRuns (λ m held steps. All (IsControlled m held) steps → All (λ step. FramesAreRight (but_bytes held) step.before) steps) }
    ensures next { InTypedHonestRuns (λ m held steps. All (IsControlled m held) steps → All (λ step. FramesAreRight (but_bytes held) step.next) steps) }
    ensures entries { InTypedHonestRuns (λ m held steps. All (IsControlled m held) steps →
        (f at : ℕ) → All (EntryHolds (but_bytes held) f at) steps) }
    ensures returns { InTypedHonestRuns (λ m held steps. All (IsControlled m held) steps → (f : ℕ) → All (ReturnsHold (but_bytes held) f) steps) }
{}
