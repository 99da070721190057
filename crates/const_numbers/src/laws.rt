//! Laws of canonical numbers: each has no parameter and an empty body, and its contract is the law.
ghost use Rattle.std.specs.Prelude.{◌≡◌, ◌↔◌, ◌⊎◌, ℕ, List};
ghost use Rattle.ir_types.specs.declared.ir_type.IrType.{IrType};
ghost use Rattle.ir_type_equality.specs.Numbers.{AreCanonical, HaveOneNumber, IsLaidOut};
ghost use Rattle.ir_consts.specs.Reading.{Reading};
ghost use Rattle.ir_consts.specs.Consts.{const_of};
ghost use Rattle.ir_consts.specs.Faults.{faults_of};
ghost use Rattle.const_numbers.specs.Numbered.{AreLaidOut, numbered};

/// Two lists of canonical numbers of one table tell the same types apart, where of the two types one at least is not nested too
/// deep.
pub fn canonical_numbers_tell_the_same()
    ensures { (types : List IrType) (a b : List ℕ) → AreCanonical types a → AreCanonical types b →
        (t u : ℕ) → IsLaidOut types t ⊎ IsLaidOut types u → HaveOneNumber a t u ↔ HaveOneNumber b t u }
{}

/// Where no type is nested too deep, constants are read alike by all canonical numbers; names that stand for nothing are told
/// by none of them.
pub fn constants_do_not_depend_on_numbers()
    ensures constants { (r : Reading) (a b : List ℕ) → AreLaidOut r.types → AreCanonical r.types a → AreCanonical r.types b →
        const_of (numbered r a) ≡ const_of (numbered r b) }
    ensures faults { (r : Reading) (a b : List ℕ) → faults_of (numbered r a) ≡ faults_of (numbered r b) }
{}
