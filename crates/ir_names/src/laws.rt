//! Laws of the definitions: each has no parameter and an empty body, and its contract is the law.
ghost use Rattle.std.specs.Prelude.{◌≡◌, ◌↔◌, List, ℕ, Some, slice_get, slice_index};
ghost use Rattle.ir_token.specs.declared.token.Token.{Token};
ghost use Rattle.ir_token.specs.Names.{Name};
ghost use Rattle.ir_token.specs.Names.Name.{Number};
ghost use Rattle.ir_names.specs.Ids.{names, name_ids, numeral};

/// Two tokens of a text that have names have one number exactly if they have one name.
pub fn equal_ids()
    ensures { (b : List ℕ) (ts : List Token) (i j : ℕ) (x y : Name) → slice_get (names b ts) i ≡ Some (Some x) →
        slice_get (names b ts) j ≡ Some (Some y) → (slice_index (name_ids b ts) i ≡ slice_index (name_ids b ts) j) ↔ (x ≡ y) }
{}

/// A name that is a number has a number of its own that no text can change.
pub fn names_that_are_numbers()
    ensures { (b : List ℕ) (ts : List Token) (i : ℕ) (x : Name) → slice_get (names b ts) i ≡ Some (Some x) →
        (n : ℕ) → (slice_index (name_ids b ts) i ≡ numeral n) ↔ (x ≡ Number n) }
{}
