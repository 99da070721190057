ghost use Rattle.std.specs.Prelude.{◌≡◌, List};
ghost use Rattle.rule_terms.specs.Greatest.{IsGreatest};
ghost use Rattle.rule_terms.specs.System.{System, IsSystem};
ghost use Rattle.why_check.specs.declared.entry.Entry.{Entry};
ghost use Rattle.why_check.specs.declared.entry.Verdict.{Verdict};
ghost use Rattle.why_check.specs.Judged.{IsComplete, IsVerdict};
ghost use Rattle.why_check.specs.Removal.{IsRemoval, NoneIsSupported, words_left};

/// Law: no fact that a removal takes away stands in a list of words that supports itself, since the words
/// before each entry contain every such list, and terms are monotone.
pub fn no_removed_fact_is_supported()
    ensures { (s : System) → IsSystem s → (entries : List Entry) → IsRemoval s entries → NoneIsSupported s entries }
{}

/// Law: a complete removal leaves the greatest list of words.
pub fn a_complete_removal_leaves_the_greatest()
    ensures { (s : System) → IsSystem s → (entries : List Entry) → IsRemoval s entries → IsComplete s entries → IsGreatest s (words_left s entries) }
{}

/// Law: a list of entries has one verdict at most.
pub fn a_verdict_is_one()
    ensures { (s : System) (entries : List Entry) (a b : Verdict) → IsVerdict s entries a → IsVerdict s entries b → a ≡ b }
{}
