//! Laws of the definitions: each has no parameter and an empty body, and its contract is the law.
ghost use Rattle.std.specs.Prelude.{◌≡◌, ◌≤◌, All, List, take, ℕ};
ghost use Rattle.ir_token.specs.declared.token.Token.{Token};
ghost use Rattle.ir_token.specs.Lists as spec;
ghost use Rattle.ir_token.specs.Nesting.{open_after, nesting_of};

/// A text has at most one token list.
pub fn one_token_list()
    ensures { (b : List ℕ) (ts us : List Token) → spec.AreTokens b ts → spec.AreTokens b us → ts ≡ us }
{}

/// Each token of a text has a byte, and ends in the text.
pub fn tokens_are_within()
    ensures { (b : List ℕ) (ts : List Token) → spec.AreTokens b ts → All (spec.IsWithin b) ts }
{}

/// A text is read as something: its list, or a place at which it is refused.
pub fn some_reading()
    ensures { (b : List ℕ) → (x : spec.Reading) × spec.Reads b x }
{}

/// A text is read as one thing at most: its list, or the one place at which it is refused.
pub fn one_reading()
    ensures { (b : List ℕ) (x y : spec.Reading) → spec.Reads b x → spec.Reads b y → x ≡ y }
{}

/// The nesting of tokens is the greatest number of brackets that are open behind the first of them.
pub fn nesting_is_greatest()
    ensures bound { (b : List ℕ) (ts : List Token) (n : ℕ) → open_after b 0 (take n ts) ≤ nesting_of b ts }
    ensures reached { (b : List ℕ) (ts : List Token) → (n : ℕ) × (open_after b 0 (take n ts) ≡ nesting_of b ts) }
{}
