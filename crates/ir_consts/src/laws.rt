//! Laws of the definitions: each has no parameter and an empty body, and its contract is the law.
ghost use Rattle.std.specs.Prelude.{◌≡◌, ◌<◌, ◌+ℤ◌, ℕ, [], ◌∷◌, List, length, None, Some};
ghost use Rattle.std.specs.Int.{w64, int_wrap};
ghost use Rattle.attr_ids.specs.declared.ids.TypeId.{TypeId as TheTypeId};
ghost use Rattle.attr_ids.specs.declared.ids.GlobalId.{GlobalId};
ghost use Rattle.attr_ids.specs.declared.ids.FuncId.{FuncId};
ghost use Rattle.ir_tree.specs.declared.constants.Const.{Const};
ghost use Rattle.ir_tree.specs.declared.entities.Entity.{Entity};
ghost use Rattle.ir_tree.specs.declared.types.Ty.{Ty};
ghost use Rattle.ir_type_names.specs.Contents.{types_of};
ghost use Rattle.ir_type_names.specs.Numbers.{Table, type_id};
ghost use Rattle.ir_types.specs.declared.ir_type.IrType.{IrType};
ghost use Rattle.ir_module.specs.declared.op.Operand.TheVariants as operand;
ghost use Rattle.ir_module.specs.declared.op.Symbol.TheVariants as symbol;
ghost use Rattle.ir_module.specs.declared.op.Written.{Written};
ghost use Rattle.ir_module.specs.WellFormed.{Each, HasPartsBelow};
ghost use Rattle.ir_operands.specs.declared.rule.Site.{Site};
ghost use Rattle.ir_operands.specs.declared.rule.ConstantRule.{ConstantRule};
ghost use Rattle.ir_operands.specs.Constants.{ArePartsBelow};
ghost use Rattle.ir_operands.specs.Offsets.{KeepsOffset, IsFirstBroken, rules_at};
ghost use Rattle.ir_consts.specs.Reading.{Reading};
ghost use Rattle.ir_consts.specs.There.{IsTableOf};
ghost use Rattle.ir_consts.specs.Consts.{const_of};
ghost use Rattle.ir_consts.specs.Below.{Sits};
ghost use Rattle.ir_consts.specs.Broken.{broken};
ghost use Rattle.ir_consts.specs.Chains.{Link, chain, sum_of, all_inbounds, one_wraps};

/// The parts of a constant are put behind those that are there, and each stands before what names it.
pub fn parts_stand_before()
    ensures { (r : Reading) (c : Const) (ty : TheTypeId) (parts : List Written) → ArePartsBelow parts → Sits parts (const_of r c ty parts) }
{}

/// A chain of getelementptrs over a symbol is one offset: the sum of all literal offsets modulo 2^64, read with its sign.
/// It is `inbounds` where each of them is, and wraps where one of them does.
pub fn offsets_of_a_chain_add_up()
    ensures globals { (g : GlobalId) (l : Link) (ls : List Link) → chain (operand.Global g) (l ∷ ls) ≡
        operand.Offset (symbol.Global g) (int_wrap w64 (sum_of (l ∷ ls))) (all_inbounds (l ∷ ls)) (one_wraps (l ∷ ls)) }
    ensures funcs { (f : FuncId) (l : Link) (ls : List Link) → chain (operand.Func f) (l ∷ ls) ≡
        operand.Offset (symbol.Func f) (int_wrap w64 (sum_of (l ∷ ls))) (all_inbounds (l ∷ ls)) (one_wraps (l ∷ ls)) }
{}

/// The rule that a constant getelementptr is refused by is broken, and all rules of a smaller number are kept; where none
/// is found all are kept.
pub fn the_first_broken_rule_is_found()
    ensures broken { (types : List IrType) (numbers : List ℕ) (site : Site) (parts : List Written)
        (elem : TheTypeId) (operands : List Written) (r : ConstantRule) →
        ArePartsBelow parts → Each operands (λ k w. HasPartsBelow (length parts) w.val) → broken types numbers site parts elem operands ≡ Some r →
        IsFirstBroken (λ s. KeepsOffset types numbers parts s elem operands) (rules_at site) r }
    ensures kept { (types : List IrType) (numbers : List ℕ) (site : Site) (parts : List Written) (elem : TheTypeId) (operands : List Written) →
        ArePartsBelow parts → Each operands (λ k w. HasPartsBelow (length parts) w.val) → broken types numbers site parts elem operands ≡ None →
        Each (rules_at site) (λ k r. KeepsOffset types numbers parts r elem operands) }
{}

/// Each type of a tree has a number in the table of a module's types, so that what reading constants requires of the numbers
/// of types is met by that table.
pub fn each_type_is_there()
    ensures { (t : Table) (es : List Entity) → IsTableOf t es → (ty : Ty) → type_id t ty < length (types_of t es) }
{}
