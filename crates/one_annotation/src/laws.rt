//! A law of the definitions: it has no parameter and an empty body, and its contract is the law.
ghost use Rattle.std.specs.Prelude.{◌≡◌, ℕ, List};
ghost use Rattle.command_line.specs.declared.asked.Emit.{Emit as TheEmit};
ghost use Rattle.attrib.specs.Annotated.{IsAnnotated};

/// One text at most is printed for a text and what is asked of it. So two answers of `annotate` for them are equal if both are `Ok`.
pub fn one_annotation()
    ensures { (form : TheEmit) (b out other : List ℕ) → IsAnnotated form b out → IsAnnotated form b other → out ≡ other }
{}
