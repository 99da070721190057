ghost use Rattle.std.specs.Prelude.{List, All};
ghost use Rattle.ir_module.specs.declared.module.Module.{Module};
ghost use Rattle.ir_module.specs.WellFormed.{IsWellFormed};
ghost use Rattle.ir_machine.specs.declared.choice.Choice.{Choice};
ghost use Rattle.ir_machine.specs.Frames.{State};
ghost use Rattle.ir_machine.specs.Runs.{IsOpening, run};
ghost use Rattle.ir_machine.specs.Honest.{IsHonest};
ghost use Rattle.law_premises.specs.Types.{HasTypes};
ghost use Rattle.laws_blocks.specs.Blocks.{HaveBlocks, AreLive, ConstantsHold};

/// At every moment of every run each global and function has the block that was made for it when the run began, with a size and a base
/// that it may have; one that is `extern_weak` may have none.
pub fn blocks_are_kept()
    ensures before { (m : Module) → (opening : State) → IsOpening m opening → (choices : List Choice) →
        All (λ step. HaveBlocks m step.before.memory) (run m opening choices) }
    ensures next { (m : Module) → (opening : State) → IsOpening m opening → (choices : List Choice) →
        All (λ step. HaveBlocks m step.next.memory) (run m opening choices) }
{}

/// At every moment of every honest run of a module with types these blocks are neither dead nor closed: the outside frees those of the
/// heap alone, and lifetime markers speak of allocas.
pub fn blocks_are_live()
    ensures before { (m : Module) → IsWellFormed m → HasTypes m → (opening : State) → IsOpening m opening → (choices : List Choice) →
        IsHonest m (run m opening choices) → All (λ step. AreLive step.before.memory) (run m opening choices) }
    ensures next { (m : Module) → IsWellFormed m → HasTypes m → (opening : State) → IsOpening m opening → (choices : List Choice) →
        IsHonest m (run m opening choices) → All (λ step. AreLive step.next.memory) (run m opening choices) }
{}

/// In every honest run of a module with types each constant that is passed as a pointer argument is as the table of constants says.
pub fn constants_hold()
    ensures { (m : Module) → IsWellFormed m → HasTypes m → (opening : State) → IsOpening m opening → (choices : List Choice) →
        IsHonest m (run m opening choices) → All (ConstantsHold m) (run m opening choices) }
{}
