ghost use Rattle.std.specs.Prelude.{◌≡◌, ℕ, true};
ghost use Rattle.ir_module.specs.declared.module.Module.{Module};
ghost use Rattle.facts.specs.declared.pos.Pos.{Pos};
ghost use Rattle.facts.specs.Masks.{has_bit_of};
ghost use Rattle.positions.specs.Listed.{IsPosition};

/// What has a bit, of a kind that is built or not, is a position of the module.
pub fn bits_are_of_positions()
    ensures { (m : Module) (p : Pos) (bit : ℕ) → has_bit_of m p bit ≡ true → IsPosition m p }
{}
