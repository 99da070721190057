ghost use Rattle.std.specs.Prelude.{◌≡◌, ℕ, List};
ghost use Rattle.command_line.specs.Command as spec;
ghost use Rattle.command_line.specs.declared.asked.Asked.{Asked};

/// A law: a command asks for one thing.
pub fn one_command()
    ensures { (words : List (List ℕ)) (a b : Asked) → spec.IsAsked words a → spec.IsAsked words b → a ≡ b }
{}

/// A law: a command that asks for something is not refused.
pub fn asked_or_refused()
    ensures { (words : List (List ℕ)) (a : Asked) → spec.IsAsked words a → spec.IsRefused words → ⊥ }
{}
