//! Laws of modules that are resolved: each has no parameter and an empty body, and its contract is the law.
ghost use Rattle.std.specs.Prelude.{ℕ, List};
ghost use Rattle.ir_token.specs.declared.token.Token.{Token};
ghost use Rattle.ir_tree.specs.declared.entities.Tree.{Tree};
ghost use Rattle.ir_module.specs.declared.module.Module.{Module};
ghost use Rattle.ir_module.specs.WellFormed.{IsWellFormed};
ghost use Rattle.ir_verify.specs.Verified.{IsVerified};
ghost use Rattle.ir_resolve.specs.Modules.{Resolved};
ghost use Rattle.law_premises.specs.Types.{HasTypes};
ghost use Rattle.verified_types.specs.Results.{AreResultsWritten};

/// In the module of a text whose names are all right each instruction has the type that its operation writes.
pub fn results_are_written()
    ensures { (b : List ℕ) (toks : List Token) (tree : Tree) (m : Module) → Resolved b toks tree m → AreResultsWritten m }
{}

/// Where the verifier passes it, its types tell pointers from all else: the premise of the laws of types, pointers and uses.
pub fn verified_texts_have_their_types()
    ensures { (b : List ℕ) (toks : List Token) (tree : Tree) (m : Module) → Resolved b toks tree m → IsWellFormed m → IsVerified m → HasTypes m }
{}
