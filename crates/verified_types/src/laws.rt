ghost use Rattle.ir_module.specs.declared.module.Module.{Module};
ghost use Rattle.ir_module.specs.WellFormed.{IsWellFormed};
ghost use Rattle.ir_verify.specs.Verified.{IsVerified};
ghost use Rattle.law_premises.specs.Types.{HasTypes};
ghost use Rattle.verified_types.specs.Results.{AreResultsWritten};

/// The types of a verified module tell pointers from all else: its operands have the types that are written for them, and
/// its instructions, calls and returns those that their operations give.
pub fn verified_modules_have_their_types()
    ensures { (m : Module) → IsWellFormed m → IsVerified m → AreResultsWritten m → HasTypes m }
{}
