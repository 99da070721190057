//! Laws of verified modules: each has no parameter and an empty body, and its contract is the law.
ghost use Rattle.std.specs.Prelude.{◌≡◌, ℕ, List};
ghost use Rattle.ir_type_equality.specs.Numbers.{AreCanonical};
ghost use Rattle.ir_module.specs.declared.module.Module.{Module};
ghost use Rattle.ir_module.specs.WellFormed.{IsWellFormed};
ghost use Rattle.ir_verify.specs.declared.verify_module.Fault.{Fault};
ghost use Rattle.ir_verify.specs.declared.verify_module.Fault.TheVariants as fault;
ghost use Rattle.ir_verify.specs.Verified.{IsVerified, HaveLayouts, KeepsOthers, IsFault};

/// A module whose types have layouts, and that is verified, keeps all rules by whatever canonical numbers of its types.
pub fn verified_by_any_numbers()
    ensures { (m : Module) → HaveLayouts m → IsVerified m → (numbers : List ℕ) → AreCanonical m.types numbers → KeepsOthers m numbers }
{}

/// Nothing is told of such a module but that no memory was left: no rule fails anywhere, and no type lacks a layout.
pub fn a_verified_module_has_no_fault()
    ensures { (m : Module) → IsWellFormed m → HaveLayouts m → IsVerified m → (f : Fault) → IsFault m f → f ≡ fault.NoMemory }
{}
