ghost use Rattle.std.specs.Prelude.{Bool, List, All};
ghost use Rattle.ir_module.specs.declared.module.Module.{Module};
ghost use Rattle.ir_module.specs.WellFormed.{IsWellFormed};
ghost use Rattle.facts.specs.Facts.{Fact};
ghost use Rattle.ir_machine.specs.declared.choice.Choice.{Choice};
ghost use Rattle.ir_machine.specs.Frames.{State};
ghost use Rattle.ir_machine.specs.Runs.{IsOpening, run};
ghost use Rattle.fact_meanings.specs.Runs.{FactsHold};
ghost use Rattle.laws_printed.specs.Printed.{AdditionsHold, ConstantsAreRight};

/// In each run of a well formed module in which the facts of a set hold, and in which constants are what is known of them where they
/// are passed, each attribute that is added for the set holds of its subject.
pub fn printed_attributes_hold()
    ensures { (m : Module) → IsWellFormed m → (held : Fact → Bool) → (opening : State) → IsOpening m opening → (choices : List Choice) →
        FactsHold m held (run m opening choices) → All (ConstantsAreRight m held) (run m opening choices) → AdditionsHold m held (run m opening choices) }
{}
