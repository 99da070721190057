//! Laws of the definitions: each has no parameter and an empty body, and its contract is the law.
ghost use Rattle.std.specs.Prelude.{◌≡◌, ◌↔◌, ℕ, List, None, Some, slice_get};
ghost use Rattle.ir_tree.specs.declared.types.Ty.{Ty};
ghost use Rattle.ir_tree.specs.declared.entities.Entity.{Entity};
ghost use Rattle.ir_type_names.specs.Reading.{Reading};
ghost use Rattle.ir_type_names.specs.Numbers.{Key, Table, type_id, form_of, table_of};
ghost use Rattle.ir_type_names.specs.Numbers.Form.{Keyed};
ghost use Rattle.ir_type_names.specs.Places.{Mark, least};
ghost use Rattle.ir_type_names.specs.Laws.{AreNames, HasEarlierParts, IsThere, IsWritten, IsLeast};
ghost use Rattle.ir_type_names.specs.Chains as spec;

/// What is found for a name is where its chain ends, if it ends; and if what is found leads to itself, the chain ends there.
/// So a name whose chain ends nowhere is one for which what is found leads to another.
pub fn chains_that_end_are_found()
    ensures found { (nexts ends : List ℕ) (k e : ℕ) → spec.AreEnds nexts ends → spec.Ends nexts k e → spec.step ends k ≡ e }
    ensures ended { (nexts ends : List ℕ) (k : ℕ) → spec.AreEnds nexts ends → spec.step nexts (spec.step ends k) ≡ spec.step ends k →
        spec.Ends nexts k (spec.step ends k) }
{}

/// Each part of an unnamed type has a smaller number than the type.
pub fn parts_come_first()
    ensures { (r : Reading) (es : List Entity) → AreNames r es → HasEarlierParts (table_of r es) }
{}

/// Every type that is written, and every part of one, is in the table, where it is an unnamed one.
pub fn written_types_are_there()
    ensures { (r : Reading) (es : List Entity) (ty : Ty) → IsWritten es ty → IsThere (table_of r es).keys (form_of (table_of r es) ty) }
{}

/// Two unnamed types that are in a table have one number exactly where they have one constructor, the same written there, and
/// parts of the same numbers.
pub fn equal_types_have_one_number()
    ensures { (t : Table) (a b : Ty) (k l : Key) → form_of t a ≡ Keyed k → form_of t b ≡ Keyed l → IsThere t.keys (form_of t a) →
        IsThere t.keys (form_of t b) → (type_id t a ≡ type_id t b) ↔ (k ≡ l) }
{}

/// The place that is answered for a type is the least at which it is written, and none is answered only where it is written
/// nowhere.
pub fn the_least_place_is_found()
    ensures found { (n at : ℕ) (ms : List Mark) → least n None ms ≡ Some at → IsLeast n ms at }
    ensures none { (n : ℕ) (ms : List Mark) → least n None ms ≡ None → (k at : ℕ) → slice_get ms k ≡ Some (n, at) → ⊥ }
{}
