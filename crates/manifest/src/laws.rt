//! Laws of what is added.
ghost use Rattle.std.specs.Prelude.{◌≡◌, ◌≤◌, ℕ, Bool, List, All};
ghost use Rattle.std.specs.List.{AllByRecursion};
ghost use Rattle.std.specs.List.Sorted.{IsNonDecreasingBy};
ghost use Rattle.ir_module.specs.declared.module.Module.{Module};
ghost use Rattle.facts.specs.Facts.{Fact};
ghost use Rattle.manifest.specs.Attrs.{Attr};
ghost use Rattle.manifest.specs.Added.{Added};
ghost use Rattle.manifest.specs.Additions.{additions_of, insertions_of};
ghost use Rattle.manifest.specs.Places.{PlacesRise};
ghost use Rattle.manifest.specs.Spelling.{IsProper, words_of};

/// What is added is told by its words: one spelling means one list of attributes.
pub fn words_tell_attributes()
    ensures one_spelling { (a b : List Attr) → AllByRecursion IsProper a → AllByRecursion IsProper b → words_of a ≡ words_of b → a ≡ b }
    ensures proper { (m : Module) (held : Fact → Bool) → AllByRecursion (λ (x : Added). AllByRecursion IsProper x.attrs) (additions_of m held) }
{}

/// The insertions stand by rising offset, within the text, where the places of the module do.
pub fn offsets_rise()
    ensures rise { (n : ℕ) (m : Module) (held : Fact → Bool) → PlacesRise n m → IsNonDecreasingBy (λ x. x.at) (insertions_of m held) }
    ensures within { (n : ℕ) (m : Module) (held : Fact → Bool) → PlacesRise n m → All (λ x. x.at ≤ n) (insertions_of m held) }
{}
