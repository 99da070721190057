ghost use Rattle.std.specs.Prelude.{◌≡◌, ◌<◌, ℕ, List, All};
ghost use Rattle.ir_module.specs.declared.module.Module.{Module};
ghost use Rattle.ir_machine.specs.declared.choice.Choice.{Choice};
ghost use Rattle.ir_machine.specs.Frames.{State};
ghost use Rattle.ir_machine.specs.Runs.{IsOpening, run, events_of};
ghost use Rattle.ir_machine.specs.Links.{IsLinked, RunsItsCallee};
ghost use Rattle.ir_machine.specs.Stays.{FramesStay, ExtentsNest};
ghost use Rattle.ir_machine.specs.Arguments.{ArgumentsAreOperands};
ghost use Rattle.ir_module.specs.WellFormed.{IsWellFormed};
ghost use Rattle.ir_machine.specs.Valid.{scope_of, Known, AllAre, AreOrdered, AreBlocks, IsLater};

/// Numbers of calls are never used again: at every moment the calls that stand have falling numbers from the top
/// down, all below the number that the next call gets, and each knows how many blocks there were when it began.
pub fn numbers_are_never_used_again()
    ensures before { (m : Module) → (opening : State) → IsOpening m opening → (choices : List Choice) →
        All (λ step. AreOrdered step.before.born step.before.next_call step.before.memory.count step.before.stack) (run m opening choices) }
    ensures next { (m : Module) → (opening : State) → IsOpening m opening → (choices : List Choice) →
        All (λ step. AreOrdered step.next.born step.next.next_call step.next.memory.count step.next.stack) (run m opening choices) }
{}

/// At every moment each block lies in the address space, above 0; live and closed blocks do not overlap; a global's or
/// function's block was made for it; and an alloca names a call that has begun and is no older than that call.
pub fn blocks_do_not_overlap()
    ensures before { (m : Module) → (opening : State) → IsOpening m opening → (choices : List Choice) →
        All (λ step. AreBlocks step.before.memory (scope_of step.before)) (run m opening choices) }
    ensures next { (m : Module) → (opening : State) → IsOpening m opening → (choices : List Choice) →
        All (λ step. AreBlocks step.next.memory (scope_of step.next)) (run m opening choices) }
{}

/// A block keeps its number, base, size and kind, a symbol its block, and a dead block stays dead.
pub fn blocks_stay()
    ensures { (m : Module) → (opening : State) → IsOpening m opening → (choices : List Choice) →
        All (λ step. IsLater step.before.memory step.next.memory) (run m opening choices) }
{}

/// At every moment each value anywhere, in frames, in the outside's hands and in memory, is to a block that exists, each
/// of its marks names a call that has begun, and a pointer with that mark is to a block that existed before that call.
pub fn marks_are_older()
    ensures before { (m : Module) → (opening : State) → IsOpening m opening → (choices : List Choice) →
        All (λ step. AllAre (Known (scope_of step.before)) step.before) (run m opening choices) }
    ensures next { (m : Module) → (opening : State) → IsOpening m opening → (choices : List Choice) →
        All (λ step. AllAre (Known (scope_of step.next)) step.next) (run m opening choices) }
{}

/// At every moment of every run each frame was made by the frame below it, down to the lowest one, which
/// runs the outside; each call runs what its beginning says, and each module frame stands in its function.
pub fn frames_are_linked()
    ensures before { (m : Module) → IsWellFormed m → (opening : State) → IsOpening m opening → (choices : List Choice) →
        All (λ step. IsLinked m step.before.stack) (run m opening choices) }
    ensures next { (m : Module) → IsWellFormed m → (opening : State) → IsOpening m opening → (choices : List Choice) →
        All (λ step. IsLinked m step.next.stack) (run m opening choices) }
{}

/// Each call that an event names runs what its beginning says: one made at a call instruction runs the
/// function that the instruction calls.
pub fn calls_run_their_callees()
    ensures { (m : Module) → IsWellFormed m → (opening : State) → IsOpening m opening → (choices : List Choice) →
        All (λ e. All (RunsItsCallee m) e.calls) (events_of (run m opening choices)) }
{}

/// A step leaves every frame as it is, but the one on top before it, those that it takes away, and the one on top after it.
pub fn frames_below_stay()
    ensures { (m : Module) → (opening : State) → (choices : List Choice) →
        All (λ step. FramesStay step.before.stack step.next.stack) (run m opening choices) }
{}

/// At every moment the arguments of each call that a module frame made are the values of its operands in that frame, with
/// the call's mark where they are pointers: so an argument points to the block of its operand's value.
pub fn arguments_are_operands()
    ensures before { (m : Module) → (opening : State) → IsOpening m opening → (choices : List Choice) →
        All (λ step. ArgumentsAreOperands m step.before.memory.home step.before.stack) (run m opening choices) }
    ensures next { (m : Module) → (opening : State) → IsOpening m opening → (choices : List Choice) →
        All (λ step. ArgumentsAreOperands m step.next.memory.home step.next.stack) (run m opening choices) }
{}

/// While a call stands, the calls below it stay: so the extent of each call made above another lies within the extent of that one.
pub fn extents_nest()
    ensures { (m : Module) → (opening : State) → IsOpening m opening → (choices : List Choice) → ExtentsNest (events_of (run m opening choices)) }
{}
