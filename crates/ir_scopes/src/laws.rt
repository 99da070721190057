//! Laws of the definitions: each has no parameter and an empty body, and its contract is the law.
ghost use Rattle.std.specs.Prelude.{◌≡◌, ◌<◌, [], List, ℕ, None, Some, slice_get, take};
ghost use Rattle.ir_names.specs.Ids.{numeral};
ghost use Rattle.ir_scopes.specs.declared.faults.NameFault.{NameFault};
ghost use Rattle.ir_scopes.specs.declared.slot.Counts.{Counts};
ghost use Rattle.ir_scopes.specs.declared.slot.Entry.{Entry};
ghost use Rattle.ir_scopes.specs.declared.slot.Slot.{Slot};
ghost use Rattle.ir_scopes.specs.Counting.{IsNext};
ghost use Rattle.ir_scopes.specs.Faults.{first_in, IsFirst};
ghost use Rattle.ir_scopes.specs.Scopes.{definitions, repeats};

/// The first of a list of faults is one of them, and none stands before it; there is none only where the list is empty.
pub fn first_is_least()
    ensures some { (faults : List NameFault) (fault : NameFault) → first_in None faults ≡ Some fault → IsFirst faults fault }
    ensures none { (faults : List NameFault) → first_in None faults ≡ None → faults ≡ [] }
{}

/// Where no definition is a second one, each name stands for one definition: two definitions with one name are one.
pub fn one_definition()
    ensures { (ids : List ℕ) (c : Counts) (ss : List Slot) → repeats ids [] c ss ≡ [] → (i j : ℕ) (x y : ℕ × Entry) →
        slice_get (definitions ids c ss) i ≡ Some x → slice_get (definitions ids c ss) j ≡ Some y → x.0 ≡ y.0 → i ≡ j }
{}

/// Each thing without a name has the number that the counter gives it, which begins at 0: the least number above all
/// numbers of the things before it, whether they are written or not.
pub fn unnamed_things_are_counted()
    ensures { (ids : List ℕ) (c : Counts) (ss : List Slot) (i : ℕ) (s : Slot) → c.counter ≡ 0 → slice_get ss i ≡ Some s → s.written ≡ None →
        (n : ℕ) × (e : Entry) × (slice_get (definitions ids c ss) i ≡ Some (numeral n, e)) × IsNext (take i (definitions ids c ss)) n }
{}
