//! Constants.
ghost use Rattle.std.specs.Prelude.{◌≡◌, ◌<◌, ◌≤◌, ◌^◌, IfOk, OnOk, ℕ, List, [], ◌∷◌, ◌++◌, length, slice_get, Some, None};
ghost use Rattle.std.specs.List.{flat_map};
ghost use Rattle.ir_module.specs.declared.op.Written.{Written};
ghost use Rattle.ir_operands.specs.Types.{type_of};
ghost use Rattle.std.specs.Option.{option_copied};
ghost use Rattle.ir_module.specs.WellFormed.{Each, HasPartsBelow};
ghost use Rattle.ir_operands.specs.Constants.{ArePartsBelow};
ghost use Rattle.ir_scopes.specs.Faults.{first_in, fault_unless};
ghost use Rattle.ir_consts.specs.Source.{reading};
ghost use Rattle.ir_consts.specs.Reading.{AreThere};
ghost use Rattle.ir_consts.specs.Reading as reads;
ghost use Rattle.ir_consts.specs.Faults as faults;
ghost use Rattle.ir_consts.specs.Consts as spec;

use crate::kinds::kind_of;
use crate::offsets::address;
use crate::source::{Source, inside_of, leaf_from, leaf_text, symbol_at, width_of};
use attr_ids::{GlobalId, NoMemory, TypeId};
use ir_literals::{literal_at as bits_at, read_len};
use ir_module::{Operand, Shape, Written};
use ir_operands::broken_rule;
use ir_scopes::{Cause, Entry, NameFault, note_unless};
use ir_tree::{Const, Gepflag, Leaf, Tconst};
use sqlite_items::Items;
use std::alloc::Global;

fn symbol_of(entry: Option<&Entry>) -> Operand
    ensures { result ≡ spec.symbol_of (option_copied entry.entry) }
{
    match entry {
        Some(Entry::Global(g)) => Operand::Global(*g),
        Some(Entry::Func(f)) => Operand::Func(*f),
        _ => Operand::Global(GlobalId(0)),
    }
}

fn is_symbol(entry: Option<&Entry>) -> bool
    ensures { result ≡ faults.is_symbol (option_copied entry.entry) }
{
    matches!(entry, Some(Entry::Global(_)) | Some(Entry::Func(_)))
}

fn fitted(bits: Option<u64>) -> Operand
    ensures { result ≡ spec.fitted bits }
{
    match bits {
        Some(bits) => Operand::Int { bits, fits: true },
        None => Operand::Int {
            bits: 0,
            fits: false,
        },
    }
}

/// A literal at a type of so many bits, or at one that is no integer.
fn literal_at(width: Option<u32>, text: &[u8]) -> Operand
    requires { (w : ℕ) → width ≡ Some w → (1 ≤ w) × (w ≤ 64) }
    ensures { result ≡ spec.literal_at width text.now }
{
    match width {
        Some(width) => fitted(bits_at(text, width)),
        None => Operand::Int {
            bits: 0,
            fits: true,
        },
    }
}

/// A number of parts, where it is below 2^31.
fn short(len: usize) -> Result<u32, NoMemory>
    ensures same { IfOk result (λ n. n ≡ len) }
    ensures short { IfOk result (λ n. n < 2 ^ 31) }
{
    if len < 1 << 31 {
        Ok(len as u32)
    } else {
        Err(NoMemory)
    }
}

/// A string, which has no parts in the list.
fn string_of(text: &[u8]) -> Result<Operand, NoMemory>
    ensures { IfOk result (λ o. o ≡ spec.string_of text.now) }
{
    let count = short(read_len(inside_of(text)))?;
    Ok(Operand::Parts {
        shape: Shape::Bytes,
        first: 0,
        count,
    })
}

/// What names a run of parts: an aggregate of a form, or a constant expression.
fn named(form: Option<Shape>, first: u32, count: u32) -> Operand
    ensures { result ≡ spec.named form first count }
{
    match form {
        Some(shape) => Operand::Parts {
            shape,
            first,
            count,
        },
        None => Operand::AnyInt { first, count },
    }
}

/// Lays a run of parts behind those that are there, and answers what names it.
fn lay(parts: &mut Vec<Written>, own: &[Written], form: Option<Shape>) -> Result<Operand, NoMemory>
    ensures laid { IfOk result (λ o. (o, parts.new.items) ≡ spec.laid form (own.now, parts.old.items)) }
    ensures few { OnOk result (length parts.new.items < 2 ^ 31) }
{
    let first = short(parts.len())?;
    let count = short(own.len())?;
    parts.extend_from_slice(own)?;
    short(parts.len())?;
    Ok(named(form, first, count))
}

/// A constant getelementptr of these operands.
fn offset_of(
    src: &Source<'_>,
    flags: &[Gepflag],
    elem: TypeId,
    operands: &[Written],
    parts: &[Written],
) -> Operand
    requires elem { elem.0 < length (reading src.now).types }
    requires below { ArePartsBelow parts.now }
    requires within { Each operands.now (λ k w. HasPartsBelow (length parts.now) w.val) }
    ensures { result ≡ spec.offset_of (reading src.now) flags.now elem operands.now parts.now }
{
    if operands.is_empty() {
        return Operand::WrongOffset { rule: 1 };
    }
    match broken_rule(src.types, src.numbers, parts, src.site, elem, operands) {
        Some(rule) => Operand::WrongOffset {
            rule: rule.number(),
        },
        None => address(src, flags, elem, operands[0].val, &operands[1..]),
    }
}

/// An operand with its type, and the offset of its first token.
fn written(src: &Source<'_>, ty: TypeId, at: Leaf, val: Operand) -> Written
    ensures { result ≡ spec.placed (reading src.now) ty at val }
{
    Written {
        val,
        ty,
        at: leaf_from(src, at),
    }
}

/// `Int`
fn int(src: &Source<'_>, ty: TypeId, at: Leaf) -> Operand
    ensures { result ≡ spec.literal_at (reads.width_in (type_of (reading src.now).types ty)) (reads.leaf_text (reading src.now) at) }
{
    literal_at(width_of(src.types, ty), leaf_text(src, at))
}

/// `Global`
fn symbol(src: &Source<'_>, at: Leaf, found: &mut Option<NameFault>) -> Operand
    ensures value { result ≡ spec.symbol_of (reads.symbol_at (reading src.now) at) }
    ensures found { found.new ≡ first_in found.old (fault_unless (faults.is_symbol (reads.symbol_at (reading src.now) at)) Cause.Unknown at) }
{
    let entry = symbol_at(src, at);
    note_unless(found, is_symbol(entry), Cause::Unknown, at);
    symbol_of(entry)
}

/// What reading leaves: the parts of constants, and the first fault that was found.
#[derive(Drop)]
pub struct Laid {
    pub parts: Vec<Written>,
    pub found: Option<NameFault>,
}

/// `const`, at a type.
#[cycle(constants)]
#[tactic(auto, using(crate::proofs::Equations::const_equations))]
pub fn constant(
    alloc: Global,
    src: &Source<'_>,
    ty: TypeId,
    c: &Const,
    out: &mut Laid,
) -> Result<Written, NoMemory>
    requires there { AreThere (reading src.now) }
    requires below { ArePartsBelow out.old.parts.items }
    ensures value { IfOk result (λ w. (w, out.new.parts.items) ≡ spec.const_of (reading src.now) c.now ty out.old.parts.items) }
    ensures found { OnOk result (out.new.found ≡ first_in out.old.found (faults.faults_of (reading src.now) c.now)) }
{
    match c {
        Const::Int(at) => Ok(written(src, ty, *at, int(src, ty, *at))),
        Const::True(at) => Ok(written(src, ty, *at, Operand::Truth(true))),
        Const::False(at) => Ok(written(src, ty, *at, Operand::Truth(false))),
        Const::Null(at) => Ok(written(src, ty, *at, Operand::Null)),
        Const::Undef(at) => Ok(written(src, ty, *at, Operand::Undef)),
        Const::Poison(at) => Ok(written(src, ty, *at, Operand::Poison)),
        Const::Zero(at) => Ok(written(src, ty, *at, Operand::Zero)),
        Const::Global(at) => Ok(written(src, ty, *at, symbol(src, *at, &mut out.found))),
        Const::CStr(at) => Ok(written(src, ty, *at, string_of(leaf_text(src, *at))?)),
        Const::Array { open, parts } => run(alloc, src, ty, *open, Shape::Array, parts, out),
        Const::Struct { open, parts } => run(alloc, src, ty, *open, Shape::Struct, parts, out),
        Const::Packed { open, parts } => run(alloc, src, ty, *open, Shape::Packed, parts, out),
        Const::GetElementPtr {
            op,
            flags,
            elem,
            operands,
        } => {
            let own = tconsts(alloc, src, operands.as_slice(), out)?;
            let elem = kind_of(alloc, src.kinds, elem.get())?;
            let val = offset_of(src, flags.as_slice(), elem, &own, &out.parts);
            Ok(written(src, ty, *op, val))
        }
        Const::Cast { op, of, .. } => cast(alloc, src, ty, *op, of.get(), out),
        Const::Binop {
            op,
            left,
            right,
            ..
        } => {
            let left = tconst(alloc, src, left.get(), out)?;
            let right = tconst(alloc, src, right.get(), out)?;
            let val = lay(&mut out.parts, &[left, right], None)?;
            Ok(written(src, ty, *op, val))
        }
    }
}

/// `'[' tconst,* ']'` and the other aggregates.
#[cycle(constants)]
fn run(
    alloc: Global,
    src: &Source<'_>,
    ty: TypeId,
    at: Leaf,
    shape: Shape,
    own: &Items<Tconst>,
    out: &mut Laid,
) -> Result<Written, NoMemory>
    requires there { AreThere (reading src.now) }
    requires below { ArePartsBelow out.old.parts.items }
    ensures value { IfOk result (λ w. (w, out.new.parts.items) ≡
        spec.written (reading src.now) ty at (spec.laid (Some shape) (spec.tconsts_of (reading src.now) own.now out.old.parts.items))) }
    ensures found { OnOk result (out.new.found ≡ first_in out.old.found (flat_map (faults.tconst_faults (reading src.now)) own.now)) }
{
    let own = tconsts(alloc, src, own.as_slice(), out)?;
    let val = lay(&mut out.parts, &own, Some(shape))?;
    Ok(written(src, ty, at, val))
}

/// `('ptrtoint' | 'trunc') '(' tconst 'to' type ')'`
#[cycle(constants)]
fn cast(
    alloc: Global,
    src: &Source<'_>,
    ty: TypeId,
    at: Leaf,
    of: &Tconst,
    out: &mut Laid,
) -> Result<Written, NoMemory>
    requires there { AreThere (reading src.now) }
    requires below { ArePartsBelow out.old.parts.items }
    ensures value { IfOk result (λ w. (w, out.new.parts.items) ≡
        spec.written (reading src.now) ty at (spec.laid None (spec.tconsts_of (reading src.now) (of.now ∷ []) out.old.parts.items))) }
    ensures found { OnOk result (out.new.found ≡ first_in out.old.found (faults.tconst_faults (reading src.now) of.now)) }
{
    let own = [tconst(alloc, src, of, out)?];
    let val = lay(&mut out.parts, &own, None)?;
    Ok(written(src, ty, at, val))
}

/// `tconst`
#[cycle(constants)]
pub fn tconst(
    alloc: Global,
    src: &Source<'_>,
    t: &Tconst,
    out: &mut Laid,
) -> Result<Written, NoMemory>
    requires there { AreThere (reading src.now) }
    requires below { ArePartsBelow out.old.parts.items }
    ensures value { IfOk result (λ w. (w, out.new.parts.items) ≡ spec.tconst_of (reading src.now) t.now out.old.parts.items) }
    ensures found { OnOk result (out.new.found ≡ first_in out.old.found (faults.tconst_faults (reading src.now) t.now)) }
{
    let ty = kind_of(alloc, src.kinds, &t.ty)?;
    constant(alloc, src, ty, &t.value, out)
}

/// `tconst,*`
#[cycle(constants)]
fn tconsts(
    alloc: Global,
    src: &Source<'_>,
    ts: &[Tconst],
    out: &mut Laid,
) -> Result<Vec<Written>, NoMemory>
    requires there { AreThere (reading src.now) }
    requires below { ArePartsBelow out.old.parts.items }
    ensures value { IfOk result (λ own. (own.items, out.new.parts.items) ≡ spec.tconsts_of (reading src.now) ts.now out.old.parts.items) }
    ensures found { OnOk result (out.new.found ≡ first_in out.old.found (flat_map (faults.tconst_faults (reading src.now)) ts.now)) }
{
    let mut own = Vec::new(alloc);
    for t in ts {
        own.push(tconst(alloc, src, t, out)?)?;
    }
    Ok(own)
}
