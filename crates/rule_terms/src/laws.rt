ghost use Rattle.std.specs.Prelude.{◌≡◌, ◌≢◌, ◌^◌, ◌<◌, ℕ, List, All, length, bit_and, slice_index, slice_get, map, IsTrue, ◌↔◌, Some};
ghost use Rattle.std.specs.List.{flat_map};
ghost use Rattle.attr_ids.specs.declared.ids.PosId.{PosId};
ghost use Rattle.lattice_words.specs.Words.{IsWithin};
ghost use Rattle.rule_terms.specs.Meaning.{meaning};
ghost use Rattle.rule_terms.specs.Names.{has_name, names_of};
ghost use Rattle.rule_terms.specs.System.{System, IsSystem, with_term, value, value_at, value_in, inputs_of, terms_at};
ghost use Rattle.rule_terms.specs.Reads.{reads_at, AgreeOn};
ghost use Rattle.rule_terms.specs.Greatest.{AreWithin, Supports, IsGreatest, IsAbove, IsCut, IsReached};
ghost use Rattle.rule_terms.specs.declared.term.NewTerm.{NewTerm};

/// The value of a position that a term is met into becomes its And with what the term gives.
pub fn meet_is_and()
    ensures { (s : System) (p : ℕ) (term : NewTerm) (word : ℕ → ℕ) → p < length s.terms →
        value (with_term s p term) p word ≡ bit_and (value s p word) (meaning word term) }
{}

/// A term that is met into one position changes the value of no other.
pub fn meet_changes_one_position()
    ensures { (s : System) (p q : ℕ) (term : NewTerm) (word : ℕ → ℕ) → q ≢ p → value (with_term s p term) q word ≡ value s q word }
{}

/// More facts of all positions leave more facts of each.
pub fn eval_is_monotone()
    ensures { (s : System) → IsSystem s → (p : ℕ) (words others : List ℕ) → AreWithin words others → IsWithin (value_in s p words) (value_in s p others) }
{}

/// A system has one greatest list of words at most.
pub fn the_greatest_is_one()
    ensures { (s : System) (a b : List ℕ) → IsGreatest s a → IsGreatest s b → a ≡ b }
{}

/// A cut takes no fact away that a self-supporting list has, where the words before it have them all.
pub fn a_cut_stays_above()
    ensures { (s : System) → IsSystem s → (old new : List ℕ) → length old ≡ length s.masks → IsCut s old new → IsAbove s old → IsAbove s new }
{}

/// Cuts from the masks that come to an end come to the greatest list.
pub fn cuts_lead_to_the_greatest()
    ensures { (s : System) → IsSystem s → (words : List ℕ) → IsReached s words → All (λ word. word < 2 ^ 64) words → Supports s words → IsGreatest s words }
{}

/// What is left of a position, cut to its mask, goes by the bits alone that are read of each input.
pub fn eval_goes_by_what_is_read()
    ensures { (s : System) → IsSystem s → (p : ℕ) (a b : List ℕ) → length a ≡ length (inputs_of s p) → length b ≡ length (inputs_of s p) →
        ((i : ℕ) → i < length (inputs_of s p) → AgreeOn (reads_at s p i) (slice_index a i) (slice_index b i)) →
        bit_and (slice_index s.masks p) (value_at s p a) ≡ bit_and (slice_index s.masks p) (value_at s p b) }
{}

/// The inputs of a position are the positions that its terms name, each once.
pub fn inputs_are_the_named_positions()
    ensures named { (s : System) (p : ℕ) (q : PosId) → IsTrue (has_name (inputs_of s p) q) ↔ IsTrue (has_name (flat_map names_of (terms_at s p)) q) }
    ensures once { (s : System) (p i j : ℕ) (q r : PosId) → slice_get (inputs_of s p) i ≡ Some q → slice_get (inputs_of s p) j ≡ Some r → q.0 ≡ r.0 → i ≡ j }
{}

/// What is left of a position goes by the words of its inputs alone.
pub fn eval_goes_by_the_inputs()
    ensures { (s : System) (p : ℕ) (words : List ℕ) → value_in s p words ≡ value_at s p (map (λ q. slice_index words q.0) (inputs_of s p)) }
{}
