//! The types of a module by their numbers.
ghost use Rattle.std.specs.Prelude.{◌≡◌, ◌++◌, ◌∷◌, [], IfOk, OnOk, map, slice_get};
ghost use Rattle.std.specs.Option.{option_copied};
ghost use Rattle.ir_types.specs.IrType.{IsWellFormed};
ghost use Rattle.ir_type_names.specs.Contents as spec;
ghost use Rattle.ir_type_names.specs.Chains as chains;
ghost use Rattle.ir_type_names.specs.Reading.{reading};
ghost use Rattle.ir_type_names.specs.Bodies.{bodies_at};
ghost use Rattle.ir_type_names.specs.Tables.{table, keys_at};

use crate::chains::chain_ends;
use crate::contents::{body_content, type_of_key};
use crate::keys::Key;
use crate::source::{Source, more, named, narrow};
use crate::table::TypeIds;
use attr_ids::NoMemory;
use ir_tree::{Entity, Ty, TypeBody};
use ir_types::{IrType, TypeTable};
use std::alloc::Global;

/// The bodies of the named types, in the order of the text.
fn bodies<'a>(alloc: Global, entities: &'a [Entity]) -> Result<Vec<&'a TypeBody>, NoMemory>
    ensures { IfOk result (λ all. bodies_at all.items ≡ spec.bodies entities.now) }
{
    let mut all = Vec::new(alloc);
    for entity in entities {
        if let Entity::Named { body, .. } = entity {
            all.push(body.get())?;
        }
    }
    Ok(all)
}

/// Where the named type at a place leads to; a type that is no name of another leads to itself.
#[tactic(auto, using(crate::proofs::Trees::type_equations))]
fn next_of(source: &Source<'_>, k: u32, body: &TypeBody) -> u32
    ensures { result ≡ spec.next_of (reading source.now) k body.now }
{
    match body {
        TypeBody::Ty(Ty::Named(name)) => {
            let n = named(source, *name);
            if n >= 2 { n - 2 } else { k }
        }
        _ => k,
    }
}

/// Where each named type leads to.
fn nexts(alloc: Global, source: &Source<'_>, bodies: &[&TypeBody]) -> Result<Vec<u32>, NoMemory>
    ensures { IfOk result (λ nexts. nexts.items ≡ spec.nexts_from (reading source.now) 0 (bodies_at bodies.now)) }
{
    let mut nexts = Vec::new(alloc);
    let mut k = 0;
    for body in bodies {
        nexts.push(next_of(source, k, *body))?;
        k = more(k, 1)?;
    }
    Ok(nexts)
}

/// The name that a name leads to.
fn step(nexts: &[u32], name: u32) -> u32
    ensures { result ≡ chains.step nexts.now name }
{
    let at = name as usize;
    if at < nexts.len() { nexts[at] } else { name }
}

/// The name at which the chain of a name ends, or the name itself where it ends nowhere.
fn stands_for(nexts: &[u32], ends: &[u32], name: u32) -> u32
    requires { chains.AreEnds nexts.now ends.now }
    ensures { result ≡ spec.stands_for nexts.now name }
{
    let end = step(ends, name);
    if step(nexts, end) == end { end } else { name }
}

/// Puts a type at the end of a table.
fn add(alloc: Global, types: &mut TypeTable, ty: IrType) -> Result<(), NoMemory>
    requires { IsWellFormed ty }
    ensures { OnOk result (types.new ≡ types.old ++ ty ∷ []) }
{
    if types.len() >= 1 << 31 {
        return Err(NoMemory);
    }
    types.add(alloc, ty)?;
    Ok(())
}

/// The body at a place.
fn body_at<'a>(bodies: &[&'a TypeBody], at: u32) -> Option<&'a TypeBody>
    ensures { option_copied result ≡ slice_get (bodies_at bodies.now) at }
{
    match bodies.get(at as usize) {
        Some(body) => Some(*body),
        None => None,
    }
}

/// What the named type at a place says.
fn named_content(
    alloc: Global,
    ids: &TypeIds<'_>,
    bodies: &[&TypeBody],
    nexts: &[u32],
    ends: &[u32],
    name: u32,
) -> Result<IrType, NoMemory>
    requires { chains.AreEnds nexts.now ends.now }
    ensures content { IfOk result (λ ty. ty ≡ spec.named_content (table ids.now) (bodies_at bodies.now) nexts.now name) }
    ensures well_formed { IfOk result IsWellFormed }
{
    body_content(alloc, ids, body_at(bodies, stands_for(nexts, ends, name)))
}

/// Puts the named types in.
fn add_named(
    alloc: Global,
    ids: &TypeIds<'_>,
    types: &mut TypeTable,
    bodies: &[&TypeBody],
) -> Result<(), NoMemory>
    ensures { OnOk result (types.new ≡ types.old ++ spec.all_named (table ids.now) (bodies_at bodies.now)) }
{
    let nexts = nexts(alloc, &ids.source, bodies)?;
    let ends = chain_ends(alloc, nexts.as_slice())?;
    for k in 0..bodies.len() {
        let name = narrow(k)?;
        let ty = named_content(alloc, ids, bodies, nexts.as_slice(), ends.as_slice(), name)?;
        add(alloc, types, ty)?;
    }
    Ok(())
}

/// Puts the unnamed types in.
fn add_unnamed(alloc: Global, types: &mut TypeTable, keys: &[Key]) -> Result<(), NoMemory>
    ensures { OnOk result (types.new ≡ types.old ++ map spec.type_of_key (keys_at keys.now)) }
{
    for key in keys {
        add(alloc, types, type_of_key(alloc, key)?)?;
    }
    Ok(())
}

/// The types of a module, each at its number.
pub fn module_types(
    alloc: Global,
    ids: &TypeIds<'_>,
    entities: &[Entity],
) -> Result<TypeTable, NoMemory>
    ensures { IfOk result (λ types. types ≡ spec.types_of (table ids.now) entities.now) }
{
    let mut types = TypeTable::new(alloc);
    add(alloc, &mut types, IrType::Void)?;
    add(alloc, &mut types, IrType::Ptr)?;
    let bodies = bodies(alloc, entities)?;
    add_named(alloc, ids, &mut types, bodies.as_slice())?;
    add_unnamed(alloc, &mut types, ids.keys.as_slice())?;
    Ok(types)
}
