ghost use Rattle.std.specs.Prelude.{All};
ghost use Rattle.law_premises.specs.Premises.{KeepsTypes};
ghost use Rattle.law_premises.specs.Types.{InTypedRuns, FramesAreTyped, PassesAddresses};

/// At every moment of every run of a module whose types tell pointers from all else, each value that a frame has made has the
/// type of its name: one of pointer type is a pointer, and any other has no origins and is no address. So pointers keep their
/// types through calls, and what points to a block is passed as a pointer.
pub fn values_have_their_types()
    ensures before { InTypedRuns (λ m steps. All (λ step. FramesAreTyped m step.before) steps) }
    ensures next { InTypedRuns (λ m steps. All (λ step. FramesAreTyped m step.next) steps) }
    ensures keeps { InTypedRuns (λ m steps. All (KeepsTypes m) steps) }
    ensures passes { InTypedRuns (λ m steps. All (PassesAddresses m) steps) }
{}
