//! Laws of the definitions: each has no parameter and an empty body, and its contract is the law.
ghost use Rattle.std.specs.Prelude.{◌≡◌, ℕ, List};
ghost use Rattle.ir_token.specs.declared.token.Token.{Token};
ghost use Rattle.ir_tree.specs.declared.entities.Tree.{Tree};
ghost use Rattle.ir_tree.specs.Example as example;
ghost use Rattle.ir_tree.specs.Fits as spec;

/// At most one tree fits the tokens of a text.
pub fn one_tree()
    ensures { (b : List ℕ) (ts : List Token) (t u : Tree) → spec.Fits b t ts → spec.Fits b u ts → t ≡ u }
{}

/// A small module has a tree that fits, so the productions can be met.
pub fn some_tree()
    ensures { spec.Fits example.text example.tree example.tokens }
{}
