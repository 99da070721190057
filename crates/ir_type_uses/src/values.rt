//! The types that constants and values write.
ghost use Rattle.std.specs.Prelude.{◌≡◌, ◌++◌, OnOk};
ghost use Rattle.std.specs.List.{flat_map};
ghost use Rattle.std.specs.Option.{option_copied};
ghost use Rattle.ir_type_uses.specs.Uses.{listed};
ghost use Rattle.ir_type_uses.specs.Written as spec;

use crate::uses::{Uses, push};
use attr_ids::NoMemory;
use ir_tree::{Const, Leaf, Tconst, Tvalue, Value};

#[cycle(constants)]
#[tactic(auto, using(crate::proofs::Trees::const_equations))]
pub(crate) fn push_const<'a>(
    uses: &mut Uses<'a>,
    at: Leaf,
    value: &'a Const,
) -> Result<(), NoMemory>
    ensures { OnOk result (listed uses.new.items ≡ listed uses.old.items ++ spec.const at value.now) }
{
    match value {
        Const::Array { parts, .. } => push_tconsts(uses, at, parts.as_slice()),
        Const::Struct { parts, .. } => push_tconsts(uses, at, parts.as_slice()),
        Const::Packed { parts, .. } => push_tconsts(uses, at, parts.as_slice()),
        Const::GetElementPtr { elem, operands, .. } => {
            push(uses, at, elem.get())?;
            push_tconsts(uses, at, operands.as_slice())
        }
        Const::Cast { of, to, .. } => {
            push_tconst(uses, at, of.get())?;
            push(uses, at, to.get())
        }
        Const::Binop { left, right, .. } => {
            push_tconst(uses, at, left.get())?;
            push_tconst(uses, at, right.get())
        }
        _ => Ok(()),
    }
}

#[cycle(constants)]
#[tactic(auto, using(crate::proofs::Trees::const_equations))]
pub(crate) fn push_tconst<'a>(
    uses: &mut Uses<'a>,
    at: Leaf,
    value: &'a Tconst,
) -> Result<(), NoMemory>
    ensures { OnOk result (listed uses.new.items ≡ listed uses.old.items ++ spec.tconst at value.now) }
{
    push(uses, at, &value.ty)?;
    push_const(uses, at, &value.value)
}

#[cycle(constants)]
fn push_tconsts<'a>(uses: &mut Uses<'a>, at: Leaf, parts: &'a [Tconst]) -> Result<(), NoMemory>
    ensures { OnOk result (listed uses.new.items ≡ listed uses.old.items ++ flat_map (spec.tconst at) parts.now) }
{
    for part in parts {
        push_tconst(uses, at, part)?;
    }
    Ok(())
}

pub(crate) fn push_value<'a>(
    uses: &mut Uses<'a>,
    at: Leaf,
    value: &'a Value,
) -> Result<(), NoMemory>
    ensures { OnOk result (listed uses.new.items ≡ listed uses.old.items ++ spec.value at value.now) }
{
    match value {
        Value::Local(_) => Ok(()),
        Value::Const(c) => push_const(uses, at, c.get()),
    }
}

pub(crate) fn push_tvalue<'a>(
    uses: &mut Uses<'a>,
    at: Leaf,
    value: &'a Tvalue,
) -> Result<(), NoMemory>
    ensures { OnOk result (listed uses.new.items ≡ listed uses.old.items ++ spec.tvalue at value.now) }
{
    push(uses, at, &value.ty)?;
    push_value(uses, at, &value.value)
}

pub(crate) fn push_tvalues<'a>(
    uses: &mut Uses<'a>,
    at: Leaf,
    values: &'a [Tvalue],
) -> Result<(), NoMemory>
    ensures { OnOk result (listed uses.new.items ≡ listed uses.old.items ++ flat_map (spec.tvalue at) values.now) }
{
    for value in values {
        push_tvalue(uses, at, value)?;
    }
    Ok(())
}
