ghost use Rattle.std.specs.Prelude.{◌≡◌, ℕ, true, All};
ghost use Rattle.facts.specs.Kinds.{NoUnwind, NoReturn, NoFree};
ghost use Rattle.facts.specs.Facts.{dead, nounwind_of, noreturn_of, nofree_of};
ghost use Rattle.ir_machine.specs.Meanings.{nounwind, noreturn, nofree, HoldsOfBody};
ghost use Rattle.fact_meanings.specs.Runs.{IsNeverDone};
ghost use Rattle.law_premises.specs.Premises.{InHonestRuns, StandLive, TakesLiveEdges};
ghost use Rattle.laws_of_control.specs.Control.{HoldsAtCalls};

/// At every moment of every honest run each frame stands in a segment that is not dead: the one on top, and those below it
/// at the calls that they made.
pub fn frames_stand_live()
    ensures before { InHonestRuns (λ m held steps. All (λ d. StandLive held d.before.stack) steps) }
    ensures next { InHonestRuns (λ m held steps. All (λ d. StandLive held d.next.stack) steps) }
{}

/// No step of a dead segment is done, and none of the phis at its start.
pub fn dead_segments_are_never_done()
    ensures { InHonestRuns (λ m held steps. (k : ℕ) → held (dead k) ≡ true → IsNeverDone k steps) }
{}

/// A dead edge is never taken: where a frame goes on from a terminator with labels, an edge leads to where it goes that is not dead.
pub fn dead_edges_are_not_taken()
    ensures { InHonestRuns (λ m held steps. All (TakesLiveEdges m held) steps) }
{}

/// No call of a body with the fact unwinds, and none that is made at an instruction whose callee has it or promises it.
pub fn nounwind_holds()
    ensures bodies { InHonestRuns (λ m held steps. (f : ℕ) → held (nounwind_of f) ≡ true → HoldsOfBody nounwind f steps) }
    ensures calls { InHonestRuns (λ m held steps. HoldsAtCalls m held NoUnwind nounwind steps) }
{}

/// No call of a body with the fact returns, and none that is made at an instruction whose callee has it or promises it.
pub fn noreturn_holds()
    ensures bodies { InHonestRuns (λ m held steps. (f : ℕ) → held (noreturn_of f) ≡ true → HoldsOfBody noreturn f steps) }
    ensures calls { InHonestRuns (λ m held steps. HoldsAtCalls m held NoReturn noreturn steps) }
{}

/// While a call of a body with the fact stands, no block is freed that existed before it; so too while one stands that was made at
/// an instruction whose callee has the fact or promises it.
pub fn nofree_holds()
    ensures bodies { InHonestRuns (λ m held steps. (f : ℕ) → held (nofree_of f) ≡ true → HoldsOfBody nofree f steps) }
    ensures calls { InHonestRuns (λ m held steps. HoldsAtCalls m held NoFree nofree steps) }
{}
