ghost use Rattle.std.specs.Prelude.{◌≡◌, ℕ, List, IfOk, length, slice_index};
ghost use Rattle.ir_module.specs.WellFormed.{IsWellFormed};
ghost use Rattle.ir_uses.specs.Uses.{AreUsesOf};
ghost use Rattle.rule_terms.specs.Greatest as rule;
ghost use Rattle.facts.specs.Names.{AreNamed};
ghost use Rattle.facts.specs.Justified.{IsGreatest};
ghost use Rattle.rule_says.specs.Reading.{IsNumbering, facts_in};
ghost use Rattle.module_system.specs.Filled.{IsSystemOf, AreInputs, input_count};
ghost use Rattle.facts.specs.declared.pos.Pos.{Pos};

use attr_ids::{NoMemory, PosId, Sequence, WordList};
use ir_module::Module;
use ir_uses::Uses;
use positions::Positions;
use rule_terms::System;
use std::alloc::Global;

/// The mask of each position.
fn masks(alloc: Global, p: &Positions) -> Result<WordList, NoMemory>
    requires { length p.now.masks ≡ length p.now.list }
    ensures { IfOk result (λ masks. masks ≡ p.now.masks) }
{
    let mut masks = Vec::new(alloc);
    for n in 0..p.count() {
        masks.push(p.mask(PosId(n)))?;
    }
    Ok(Sequence::from_vec(masks))
}

/// The system of the rules of a module. Its greatest words hold the greatest set of facts that supports itself,
/// beside the words of effects, which are no facts.
pub fn system(alloc: Global, m: &Module, u: &Uses, p: &Positions) -> Result<System, NoMemory>
    requires formed { IsWellFormed m.now }
    requires uses { AreUsesOf m.now u.now }
    requires numbering { IsNumbering m.now p.now }
    ensures system { IfOk result (IsSystemOf m.now p.now) }
    ensures composed { IfOk result (λ s. (best : List ℕ) → rule.IsGreatest s best → IsGreatest m.now (facts_in p.now (slice_index best))) }
    ensures inputs { IfOk result (AreInputs m.now p.now) }
    ensures count { IfOk result (λ s. (pairs : List (Pos × Pos)) → AreNamed m.now pairs → input_count s ≡ length pairs) }
{
    let _positions = p.count();
    let mut s = System::new(alloc, masks(alloc, p)?)?;
    aa_control::terms(alloc, m, u, p, &mut s)?;
    aa_reach::terms(alloc, m, u, p, &mut s)?;
    let _count = s.count();
    Ok(s)
}
