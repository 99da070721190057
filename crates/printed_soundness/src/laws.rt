ghost use Rattle.std.specs.Prelude.{Bool};
ghost use Rattle.ir_module.specs.declared.module.Module.{Module};
ghost use Rattle.ir_module.specs.WellFormed.{IsWellFormed};
ghost use Rattle.facts.specs.Facts.{Fact};
ghost use Rattle.facts.specs.Justified.{SupportsItself};
ghost use Rattle.laws_printed.specs.Printed.{ArePrintedHolding};

/// In every honest run of a well formed module, whatever its opening and its choices are, all that is printed for a set that
/// supports itself holds: each attribute of each addition, of its body, parameter, call or argument.
pub fn what_is_printed_holds()
    ensures { (m : Module) → IsWellFormed m → (held : Fact → Bool) → SupportsItself m held → ArePrintedHolding m held }
{}
