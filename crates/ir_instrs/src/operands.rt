//! Operands and labels. A name that has no definition of its kind is noted, and stands for the first value or block.
ghost use Rattle.std.specs.Prelude.{◌≡◌, [], ◌∷◌, IfOk};
ghost use Rattle.std.specs.Option.{option_copied};
ghost use Rattle.ir_tree.specs.declared.values.Value.TheVariants as tree_value;
ghost use Rattle.ir_operands.specs.Constants.{ArePartsBelow};
ghost use Rattle.ir_instrs.specs.Reading.{reading, IsSound};
ghost use Rattle.ir_instrs.specs.Uses as uses;
ghost use Rattle.ir_instrs.specs.Uses.{Takes};
ghost use Rattle.ir_instrs.specs.Uses.Use.{Typed, Label};
ghost use Rattle.ir_instrs.specs.Operands as spec;

use crate::source::{Source, constant, entry_at, leaf_from, type_of};
use attr_ids::{BlockId, NoMemory, TypeId, ValueId};
use ir_consts::Laid;
use ir_module::{Operand, Written};
use ir_scopes::{Cause, Entry, note_unless};
use ir_tree::{Const, Leaf, Tconst, Tvalue, Value};
use std::alloc::Global;

fn as_value(entry: Option<&Entry>) -> Operand
    ensures { result ≡ spec.as_value (option_copied entry.entry) }
{
    match entry {
        Some(Entry::Value(v)) => Operand::Value(*v),
        _ => Operand::Value(ValueId(0)),
    }
}

fn is_value(entry: Option<&Entry>) -> bool
    ensures { result ≡ uses.is_value (option_copied entry.entry) }
{
    matches!(entry, Some(Entry::Value(_)))
}

fn as_block(entry: Option<&Entry>) -> BlockId
    ensures { result ≡ spec.as_block (option_copied entry.entry) }
{
    match entry {
        Some(Entry::Block(b)) => *b,
        _ => BlockId(0),
    }
}

fn is_block(entry: Option<&Entry>) -> bool
    ensures { result ≡ uses.is_block (option_copied entry.entry) }
{
    matches!(entry, Some(Entry::Block(_)))
}

/// A constant that is written at a type.
pub fn literal(
    alloc: Global,
    src: &Source<'_>,
    ty: TypeId,
    value: &Const,
    notes: &mut Laid,
) -> Result<Written, NoMemory>
    requires sound { IsSound src.now }
    requires below { ArePartsBelow notes.old.parts.items }
    ensures value { IfOk result (λ w. w ≡ spec.written (reading src.now) notes.old.parts.items ty (tree_value.Const value.now)) }
    ensures takes { IfOk result (λ _. Takes (reading src.now) (Typed ty (tree_value.Const value.now) ∷ []) notes.old notes.new) }
{
    constant(alloc, src, ty, value, notes)
}

/// A value that is named.
fn local(src: &Source<'_>, ty: TypeId, name: Leaf, notes: &mut Laid) -> Written
    requires sound { IsSound src.now }
    requires below { ArePartsBelow notes.old.parts.items }
    ensures value { result ≡ spec.written (reading src.now) notes.old.parts.items ty (tree_value.Local name) }
    ensures takes { Takes (reading src.now) (Typed ty (tree_value.Local name) ∷ []) notes.old notes.new }
{
    let entry = entry_at(src, name);
    note_unless(&mut notes.found, is_value(entry), Cause::Unknown, name);
    Written {
        val: as_value(entry),
        ty,
        at: leaf_from(src, name),
    }
}

/// An operand as it is written at a type.
pub fn written(
    alloc: Global,
    src: &Source<'_>,
    ty: TypeId,
    value: &Value,
    notes: &mut Laid,
) -> Result<Written, NoMemory>
    requires sound { IsSound src.now }
    requires below { ArePartsBelow notes.old.parts.items }
    ensures value { IfOk result (λ w. w ≡ spec.written (reading src.now) notes.old.parts.items ty value.now) }
    ensures takes { IfOk result (λ _. Takes (reading src.now) (Typed ty value.now ∷ []) notes.old notes.new) }
{
    match value {
        Value::Local(name) => Ok(local(src, ty, *name, notes)),
        Value::Const(c) => literal(alloc, src, ty, c.get(), notes),
    }
}

/// An operand with its type before it.
pub fn tvalue(
    alloc: Global,
    src: &Source<'_>,
    x: &Tvalue,
    notes: &mut Laid,
) -> Result<Written, NoMemory>
    requires sound { IsSound src.now }
    requires below { ArePartsBelow notes.old.parts.items }
    ensures value { IfOk result (λ w. w ≡ spec.tvalue (reading src.now) notes.old.parts.items x.now) }
    ensures takes { IfOk result (λ _. Takes (reading src.now) (spec.tvalue_uses (reading src.now) x.now) notes.old notes.new) }
{
    let ty = type_of(alloc, src, &x.ty)?;
    written(alloc, src, ty, &x.value, notes)
}

/// A constant with its type before it.
pub fn tconst(
    alloc: Global,
    src: &Source<'_>,
    x: &Tconst,
    notes: &mut Laid,
) -> Result<Written, NoMemory>
    requires sound { IsSound src.now }
    requires below { ArePartsBelow notes.old.parts.items }
    ensures value { IfOk result (λ w. w ≡ spec.tconst (reading src.now) notes.old.parts.items x.now) }
    ensures takes { IfOk result (λ _. Takes (reading src.now) (spec.tconst_uses (reading src.now) x.now) notes.old notes.new) }
{
    let ty = type_of(alloc, src, &x.ty)?;
    literal(alloc, src, ty, &x.value, notes)
}

/// An operand that may be missing.
pub fn optional(
    alloc: Global,
    src: &Source<'_>,
    x: &Option<Tvalue>,
    notes: &mut Laid,
) -> Result<Option<Written>, NoMemory>
    requires sound { IsSound src.now }
    requires below { ArePartsBelow notes.old.parts.items }
    ensures value { IfOk result (λ w. w ≡ spec.optional (reading src.now) notes.old.parts.items x.now) }
    ensures takes { IfOk result (λ _. Takes (reading src.now) (spec.optional_uses (reading src.now) x.now) notes.old notes.new) }
{
    let Some(x) = x else {
        return Ok(None);
    };
    let val = tvalue(alloc, src, x, notes)?;
    Ok(Some(val))
}

/// The block that a label names.
pub fn label(src: &Source<'_>, at: Leaf, notes: &mut Laid) -> BlockId
    requires sound { IsSound src.now }
    requires below { ArePartsBelow notes.old.parts.items }
    ensures value { result ≡ spec.label (reading src.now) at }
    ensures takes { Takes (reading src.now) (Label at ∷ []) notes.old notes.new }
{
    let entry = entry_at(src, at);
    note_unless(&mut notes.found, is_block(entry), Cause::Unknown, at);
    as_block(entry)
}
