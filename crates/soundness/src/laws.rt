ghost use Rattle.std.specs.Prelude.{◌≡◌, Bool};
ghost use Rattle.ir_module.specs.declared.module.Module.{Module};
ghost use Rattle.ir_module.specs.WellFormed.{IsWellFormed};
ghost use Rattle.facts.specs.Facts.{Fact};
ghost use Rattle.facts.specs.Justified.{SupportsItself};
ghost use Rattle.soundness.specs.Soundness.{IsSound};

/// In every honest run of a well formed module, whatever its opening and its choices are, each fact of a set that supports
/// itself holds, and `nounwind`, `noreturn` and `nofree` hold of each call whose callee has them or promises them.
pub fn every_fact_holds()
    ensures { (m : Module) → IsWellFormed m → (held : Fact → Bool) → SupportsItself m held → IsSound m held }
{}
