//! What types say.
ghost use Rattle.std.specs.Prelude.{◌≡◌, IfOk, map};
ghost use Rattle.std.specs.Option.{option_copied};
ghost use Rattle.ir_types.specs.IrType.{IsWellFormed};
ghost use Rattle.ir_type_names.specs.Numbers.{type_ids};
ghost use Rattle.ir_type_names.specs.Contents as spec;
ghost use Rattle.ir_type_names.specs.Tables.{table};

use crate::keys::{ARRAY, INT, PACKED, STRUCT};
use crate::source::{bits_of, elements_of, named};
use crate::table::TypeIds;
use attr_ids::{NoMemory, Sequence, TypeId};
use ir_tree::{Ty, TypeBody};
use ir_types::{IrType, TypeList};
use std::alloc::Global;

/// The width of an integer; no token has another than 1 to 64.
fn width(bits: u64) -> u8
    ensures { result ≡ spec.width bits }
{
    if bits >= 1 && bits <= 64 {
        bits as u8
    } else {
        64
    }
}

/// A struct whose one field is this type.
fn around(alloc: Global, n: u32) -> Result<IrType, NoMemory>
    ensures { IfOk result (λ ty. ty ≡ spec.around n) }
{
    let fields = Sequence::from_slice(alloc, &[TypeId(n)])?;
    Ok(IrType::Struct {
        fields,
        packed: false,
    })
}

/// The numbers of parts of a type of the tree.
fn part_ids(alloc: Global, ids: &TypeIds<'_>, parts: &[Ty]) -> Result<TypeList, NoMemory>
    ensures { IfOk result (λ fields. fields ≡ map spec.id (type_ids (table ids.now) parts.now)) }
{
    let mut fields = Vec::new(alloc);
    for part in parts {
        fields.push(ids.id(alloc, part)?)?;
    }
    Ok(Sequence::from_vec(fields))
}

/// What a type of the tree says. A name is a struct around what it stands for, which a type that names itself so contains.
#[tactic(auto, using(crate::proofs::Trees::type_equations))]
fn content_of(alloc: Global, ids: &TypeIds<'_>, ty: &Ty) -> Result<IrType, NoMemory>
    ensures content { IfOk result (λ content. content ≡ spec.content_of (table ids.now) ty.now) }
    ensures well_formed { IfOk result IsWellFormed }
{
    match ty {
        Ty::Void(_) => Ok(IrType::Void),
        Ty::Ptr(_) => Ok(IrType::Ptr),
        Ty::Named(name) => around(alloc, named(&ids.source, *name)),
        Ty::Int(at) => Ok(IrType::Int {
            width: width(bits_of(&ids.source, *at)),
        }),
        Ty::Array { count, elem, .. } => Ok(IrType::Array {
            count: elements_of(&ids.source, *count),
            elem: ids.id(alloc, elem.get())?,
        }),
        Ty::Struct { parts, .. } => Ok(IrType::Struct {
            fields: part_ids(alloc, ids, parts.as_slice())?,
            packed: false,
        }),
        Ty::Packed { parts, .. } => Ok(IrType::Struct {
            fields: part_ids(alloc, ids, parts.as_slice())?,
            packed: true,
        }),
    }
}

/// What a named type says whose definition this is.
pub(crate) fn body_content(
    alloc: Global,
    ids: &TypeIds<'_>,
    body: Option<&TypeBody>,
) -> Result<IrType, NoMemory>
    ensures content { IfOk result (λ content. content ≡ spec.body_content (table ids.now) (option_copied body.entry)) }
    ensures well_formed { IfOk result IsWellFormed }
{
    match body {
        Some(TypeBody::Ty(ty)) => content_of(alloc, ids, ty),
        _ => Ok(IrType::Opaque),
    }
}

/// The numbers of the parts of a struct, as its key has them.
fn fields_of(alloc: Global, words: &[u64]) -> Result<TypeList, NoMemory>
    ensures { IfOk result (λ fields. fields ≡ map spec.id words.now) }
{
    let mut fields = Vec::new(alloc);
    for word in words {
        match u32::try_from(*word) {
            Ok(number) => fields.push(TypeId(number))?,
            Err(_) => return Err(NoMemory),
        }
    }
    Ok(Sequence::from_vec(fields))
}

/// An unnamed type, by what it is known by.
pub(crate) fn type_of_key(alloc: Global, key: &[u64]) -> Result<IrType, NoMemory>
    ensures content { IfOk result (λ ty. ty ≡ spec.type_of_key key.now) }
    ensures well_formed { IfOk result IsWellFormed }
{
    match key {
        [INT, bits] => Ok(IrType::Int {
            width: width(*bits),
        }),
        [ARRAY, count, elem] => match u32::try_from(*elem) {
            Ok(elem) => Ok(IrType::Array {
                count: *count,
                elem: TypeId(elem),
            }),
            Err(_) => Err(NoMemory),
        },
        [STRUCT, parts @ ..] => Ok(IrType::Struct {
            fields: fields_of(alloc, parts)?,
            packed: false,
        }),
        [PACKED, parts @ ..] => Ok(IrType::Struct {
            fields: fields_of(alloc, parts)?,
            packed: true,
        }),
        _ => Ok(IrType::Opaque),
    }
}
