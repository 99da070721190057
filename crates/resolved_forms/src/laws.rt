//! Laws of modules that are resolved: each has no parameter and an empty body, and its contract is the law.
ghost use Rattle.std.specs.Prelude.{ℕ, List};
ghost use Rattle.ir_token.specs.declared.token.Token.{Token};
ghost use Rattle.ir_tree.specs.declared.entities.Tree.{Tree};
ghost use Rattle.ir_module.specs.declared.module.Module.{Module};
ghost use Rattle.ir_module.specs.WellFormed.{HasFew, IsWellFormed};
ghost use Rattle.ir_resolve.specs.Modules.{Resolved};

/// The module of a text whose names are all right is well formed, where it has fewer than 2^31 things of each kind.
pub fn resolved_modules_are_well_formed()
    ensures { (b : List ℕ) (toks : List Token) (tree : Tree) (m : Module) → Resolved b toks tree m → HasFew m → IsWellFormed m }
{}
