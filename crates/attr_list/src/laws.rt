//! What a summary counts.
ghost use Rattle.std.specs.Prelude.{◌≡◌, ℕ, Bool, List, Some, slice_get, sum_by};
ghost use Rattle.ir_module.specs.declared.module.Module.{Module};
ghost use Rattle.facts.specs.Facts.{Fact};
ghost use Rattle.manifest.specs.Added.{Added};
ghost use Rattle.manifest.specs.Additions.{additions_of, insertions_of};
ghost use Rattle.attr_list.specs.Summed.{names, named, times};

/// Each line of a summary counts the attributes of its name that are added.
pub fn lines_count_attributes()
    ensures { (m : Module) (held : Fact → Bool) (k : ℕ) (name : List ℕ) → slice_get names k ≡ Some name →
        times (insertions_of m held) name ≡ sum_by (λ (a : Added). named name a.attrs) (additions_of m held) }
{}
