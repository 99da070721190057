//! Laws of the definitions: each has no parameter and an empty body, and its contract is the law.
ghost use Rattle.std.specs.Prelude.{◌≡◌, ◌∷◌, ℕ, List, Option, Some, false, true, map, if◌then◌else◌};
ghost use Rattle.std.specs.List.{list_any};
ghost use Rattle.ir_token.specs.declared.token.Token.{Token};
ghost use Rattle.ir_tree.specs.declared.attributes.Fattr.{Fattr};
ghost use Rattle.ir_tree.specs.declared.attributes.Word.{Word};
ghost use Rattle.ir_module.specs.declared.attrs.MemoryAttr.{MemoryAttr};
ghost use Rattle.ir_attrs.specs.Latest.{IsLast};
ghost use Rattle.ir_tree.specs.declared.attributes.Inner.{Inner};
ghost use Rattle.ir_attrs.specs.declared.memory.Access.{Access};
ghost use Rattle.ir_attrs.specs.Memory.{mark, is_list, permitted, everything, memory_of};
ghost use Rattle.ir_attrs.specs.Spelled.{spelled};
ghost use Rattle.ir_attrs.specs.Functions.{memory_says, is_former, all_attrs, func_attrs};

/// The `memory` of a function or a call is that of an attribute behind which none of its kind stands, among those that
/// are written there and behind them those of its groups. Where an attribute stands there that `memory` took the place
/// of, it permits everything.
pub fn the_last_memory_counts()
    ensures last { (b : List ℕ) (toks : List Token) (ids : List ℕ) (groups : ℕ → Option (List Fattr)) (ws : List Word) (m : MemoryAttr) →
        list_any (is_former b toks) (all_attrs ids groups ws) ≡ false → IsLast (memory_says b toks) (all_attrs ids groups ws) m →
        (func_attrs b toks ids groups ws).memory ≡ Some m }
    ensures written { (b : List ℕ) (toks : List Token) (ids : List ℕ) (groups : ℕ → Option (List Fattr)) (ws : List Word) (m : MemoryAttr) →
        list_any (is_former b toks) (all_attrs ids groups ws) ≡ false → (func_attrs b toks ids groups ws).memory ≡ Some m →
        IsLast (memory_says b toks) (all_attrs ids groups ws) m }
    ensures former { (b : List ℕ) (toks : List Token) (ids : List ℕ) (groups : ℕ → Option (List Fattr)) (ws : List Word) →
        list_any (is_former b toks) (all_attrs ids groups ws) ≡ true → (func_attrs b toks ids groups ws).memory ≡ Some everything }
{}

/// What is written between the parentheses of a `memory` as one access or more, each with or without a location, with commas
/// between them, permits what these accesses permit together; and everything, where one location has two of them, or two
/// have none.
pub fn a_list_of_accesses_is_read()
    ensures { (b : List ℕ) (toks : List Token) (inside : List Inner) (a : Access) (rest : List Access) →
        map (mark b toks) inside ≡ spelled a rest →
        memory_of b toks inside ≡ (if is_list (Some a ∷ map (λ x. Some x) rest) then permitted (Some a ∷ map (λ x. Some x) rest) else everything) }
{}
