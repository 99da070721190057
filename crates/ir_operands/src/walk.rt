//! One rule, of a constant and of all that lies in it.
ghost use Rattle.std.specs.Prelude.{◌≡◌, ◌+◌, ◌≤◌, ◌↔◌, IsTrue, length};
ghost use Rattle.ir_module.specs.WellFormed.{HasPartsBelow};
ghost use Rattle.ir_operands.specs.Constants as spec;

use crate::constant::{Run, is_not_wrong, keeps_alone, may_stand, own_run};
use crate::rule::{ConstantRule, Site};
use ir_module::Written;
use ir_types::TypeTable;

/// Whether each part of a run keeps a rule, and so do its parts, their parts, and so on. Each lies before the part that
/// names it, so the runs end at smaller and smaller numbers.
fn run_keeps(
    types: &TypeTable,
    numbers: &[u32],
    parts: &[Written],
    rule: ConstantRule,
    run: Run,
) -> bool
    requires below { spec.ArePartsBelow parts.now }
    requires within { run.first + run.count ≤ length parts.now }
    ensures { IsTrue result ↔ spec.RunHas (λ i w. spec.Keeps types.now numbers.now parts.now rule w) parts.now run.first run.count }
{
    for i in 0..run.count {
        let w = parts[run.first + i];
        if !keeps_alone(types, numbers, parts, rule, &w) {
            return false;
        }
        if !run_keeps(types, numbers, parts, rule, own_run(w.val)) {
            return false;
        }
    }
    true
}

/// Whether a constant keeps a rule, and so do its parts, their parts, and so on.
pub fn keeps(
    types: &TypeTable,
    numbers: &[u32],
    parts: &[Written],
    rule: ConstantRule,
    w: &Written,
) -> bool
    requires below { spec.ArePartsBelow parts.now }
    requires within { HasPartsBelow (length parts.now) w.now.val }
    ensures { IsTrue result ↔ spec.Keeps types.now numbers.now parts.now rule w.now }
{
    keeps_alone(types, numbers, parts, rule, w)
        && run_keeps(types, numbers, parts, rule, own_run(w.val))
}

/// Whether the parts of a constant keep a rule, and their parts, and so on, and the constant is no getelementptr that
/// breaks it; nothing else is asked of the constant itself.
pub fn keeps_inside(
    types: &TypeTable,
    numbers: &[u32],
    parts: &[Written],
    rule: ConstantRule,
    w: &Written,
) -> bool
    requires below { spec.ArePartsBelow parts.now }
    requires within { HasPartsBelow (length parts.now) w.now.val }
    ensures { IsTrue result ↔ spec.KeepsInside types.now numbers.now parts.now rule w.now }
{
    is_not_wrong(rule.number(), w.val) && run_keeps(types, numbers, parts, rule, own_run(w.val))
}

/// Whether an operand has a scalar type, where it is written so that it must, and so do the parts of it that must.
pub fn is_scalar_operand(
    types: &TypeTable,
    numbers: &[u32],
    parts: &[Written],
    site: Site,
    w: &Written,
) -> bool
    requires below { spec.ArePartsBelow parts.now }
    requires within { HasPartsBelow (length parts.now) w.now.val }
    ensures { IsTrue result ↔ spec.IsScalarOperand types.now numbers.now parts.now site w.now }
{
    may_stand(types, site, w) && keeps(types, numbers, parts, site.parts_rule(), w)
}
