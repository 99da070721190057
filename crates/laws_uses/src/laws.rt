ghost use Rattle.std.specs.Prelude.{ℕ, All};
ghost use Rattle.law_premises.specs.Premises.{InHonestRuns, IsControlled, KeepsTypes};
ghost use Rattle.fact_meanings.specs.Runs.{IsParamOf, ParamUsesHold};

/// In every honest run what the facts of the uses of a parameter say holds of each call of its body, given of each step that control
/// goes as its facts say and that pointers keep their types: no event of the call's extent captures what came in as the
/// argument, reads or writes through it, the call does not return it, and none of it is stored or kept while the call stands.
pub fn uses_hold()
    ensures { InHonestRuns (λ m held steps. All (IsControlled m held) steps → All (KeepsTypes m) steps →
        (f at v : ℕ) → IsParamOf m f at v → ParamUsesHold m held f at v steps) }
{}
