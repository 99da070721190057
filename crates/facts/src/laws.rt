ghost use Rattle.std.specs.Prelude.{◌≡◌, ◌↔◌, ℕ, Bool, true, false, Some};
ghost use Rattle.ir_module.specs.declared.module.Module.{Module};
ghost use Rattle.ir_module.specs.declared.module.Spot.{Spot};
ghost use Rattle.ir_module.specs.declared.op.Instr.{Instr};
ghost use Rattle.ir_module.specs.declared.op.Written.{Written};
ghost use Rattle.ir_module.specs.declared.op.Op.TheVariants as op;
ghost use Rattle.ir_module.specs.Places.{instr_at, IsIn};
ghost use Rattle.facts.specs.Facts.{Fact, dead_at, nounwind_of, function};
ghost use Rattle.facts.specs.Masks.{IsFact, is_bit, is_built};
ghost use Rattle.facts.specs.Tables.{SayTheirFacts};
ghost use Rattle.facts.specs.Justified.{Justified, JustifiedAt, Rule, AreEffects, HasMore, SupportsItself, IsGreatest, IsInSome};

/// A set justifies what each smaller one does, whatever effects stand in it.
pub fn a_larger_set_justifies_more()
    ensures { (m : Module) (held other : Fact → Bool) → HasMore held other → (x : Fact) → Justified m held x → Justified m other x }
{}

/// The greatest set that supports itself is the union of all that do.
pub fn the_greatest_is_the_union()
    ensures { (m : Module) (held : Fact → Bool) → IsGreatest m held → (x : Fact) → (held x ≡ true) ↔ IsInSome m x }
{}

/// A module has one greatest set at most.
pub fn the_greatest_is_one()
    ensures { (m : Module) (held other : Fact → Bool) → IsGreatest m held → IsGreatest m other → (x : Fact) → held x ≡ other x }
{}

/// The greatest set has each fact that it justifies.
pub fn the_greatest_has_what_it_justifies()
    ensures { (m : Module) (held : Fact → Bool) → IsGreatest m held → (x : Fact) → IsFact m x → Justified m held x → held x ≡ true }
{}

/// Where effects are what they should be, a body's rule may read them in place of its instructions.
pub fn effects_stand_for_instructions()
    ensures { (m : Module) (held : Fact → Bool) → AreEffects m held → (f bit : ℕ) → is_bit m (function f) bit ≡ true →
        Rule m held (function f) bit ↔ JustifiedAt m held (function f) bit }
{}

/// A body in which a `resume` stands that is not dead has no `nounwind` in a set that supports itself.
pub fn a_resume_unwinds()
    ensures { (m : Module) (held : Fact → Bool) → SupportsItself m held → (f : ℕ) (s : Spot) (instr : Instr) (val : Written) → IsIn m f s →
        instr_at m s ≡ Some instr → instr.op ≡ op.Resume val → held (dead_at s) ≡ false → held (nounwind_of f) ≡ false }
{}

/// Each bit says the fact whose bit it is.
pub fn bits_say_their_facts()
    ensures { SayTheirFacts }
{}

/// A fact of a kind that is not built stands in no set that supports itself.
pub fn what_is_not_built_is_not_held()
    ensures { (m : Module) (held : Fact → Bool) → SupportsItself m held → (x : Fact) → is_built x.pos x.bit ≡ false → held x ≡ false }
{}
