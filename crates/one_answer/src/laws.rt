//! A law of the definitions: it has no parameter and an empty body, and its contract is the law.
ghost use Rattle.std.specs.Prelude.{◌≡◌, ℕ, List};
ghost use Rattle.ir_module.specs.declared.module.Module.{Module};
ghost use Rattle.accept.specs.declared.refusal.Refusal.{Refusal};
ghost use Rattle.accept.specs.declared.refusal.Refusal.TheVariants as refusal;
ghost use Rattle.accept.specs.Accepted.{Accepted};
ghost use Rattle.accept.specs.Causes.{IsCause};

/// An accepted text is refused by no cause: its reading ends well, or for want of memory.
pub fn accepted_is_not_refused()
    ensures { (b : List ℕ) (m : Module) → Accepted b m → (why : Refusal) → IsCause b why → why ≡ refusal.NoMemory }
{}
