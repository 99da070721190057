//! Laws of texts and modules: each has no parameter and an empty body, and its contract is the law.
ghost use Rattle.std.specs.Prelude.{◌≡◌, ℕ, List};
ghost use Rattle.ir_token.specs.declared.token.Token.{Token};
ghost use Rattle.ir_tree.specs.declared.entities.Tree.{Tree};
ghost use Rattle.ir_module.specs.declared.module.Module.{Module};
ghost use Rattle.ir_scopes.specs.declared.faults.NameFault.{NameFault};
ghost use Rattle.const_numbers.specs.Numbered.{AreLaidOut};
ghost use Rattle.ir_resolve.specs.Modules.{Resolved, IsFirstFault};

/// A text has one module at most, where no type of that is nested too deep.
pub fn a_text_has_one_module()
    ensures { (text : List ℕ) (toks : List Token) (tree : Tree) (m n : Module) → AreLaidOut m.types →
        Resolved text toks tree m → Resolved text toks tree n → m ≡ n }
{}

/// A text that has a module has no fault, and no text has two first faults.
pub fn a_text_has_one_first_fault()
    ensures none { (text : List ℕ) (toks : List Token) (tree : Tree) (m : Module) (f : NameFault) →
        Resolved text toks tree m → IsFirstFault text toks tree f → ⊥ }
    ensures one { (text : List ℕ) (toks : List Token) (tree : Tree) (f g : NameFault) →
        IsFirstFault text toks tree f → IsFirstFault text toks tree g → f ≡ g }
{}
