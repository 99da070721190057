//! The first place at which each type is written.
ghost use Rattle.std.specs.Prelude.{◌≡◌, ◌∷◌, [], IfOk, OnOk, map, replicate, None, ℕ};
ghost use Rattle.std.specs.Option.{unwrap_or};
ghost use Rattle.std.specs.List.{flat_map};
ghost use Rattle.ir_type_uses.specs.Uses.{listed};
ghost use Rattle.ir_type_uses.specs.Written.{written};
ghost use Rattle.ir_type_names.specs.Reading.{reading};
ghost use Rattle.ir_type_names.specs.Numbers.{place, type_ids};
ghost use Rattle.ir_type_names.specs.Places as spec;
ghost use Rattle.ir_type_names.specs.Tables.{table};

use crate::keys::{Key, PACKED, STRUCT, array_key, int_key, struct_key};
use crate::source::{Source, is_definition, more, named, offset_of};
use crate::table::TypeIds;
use attr_ids::{NoMemory, Offsets, Sequence};
use ir_tree::{Entity, Ty};
use ir_type_uses::TypeUse;
use std::alloc::Global;

/// Notes that a type is written at an offset.
fn mark(places: &mut [Option<u32>], n: u32, at: u32)
    ensures { spec.AreMarked places.old places.new ((n, at) ∷ []) }
{
    let n = n as usize;
    if n < places.len() {
        places[n] = match places[n] {
            Some(old) => Some(old.min(at)),
            None => Some(at),
        };
    }
}

/// Notes the parts of a struct, and answers what it is known by.
#[cycle(marking)]
fn mark_parts(
    alloc: Global,
    ids: &TypeIds<'_>,
    places: &mut [Option<u32>],
    at: u32,
    kind: u64,
    parts: &[Ty],
) -> Result<Key, NoMemory>
    ensures key { IfOk result (λ key. key.items ≡ kind ∷ type_ids (table ids.now) parts.now) }
    ensures marked { OnOk result (spec.AreMarked places.old places.new (flat_map (spec.marks_of (table ids.now) at) parts.now)) }
{
    let mut key = struct_key(alloc, kind)?;
    for part in parts {
        key.push(mark_type(alloc, ids, places, at, part)? as u64)?;
    }
    Ok(key)
}

/// Notes an unnamed type that is known by a key, and answers its number.
fn mark_key(
    ids: &TypeIds<'_>,
    places: &mut [Option<u32>],
    at: u32,
    key: &Key,
) -> Result<u32, NoMemory>
    ensures number { IfOk result (λ n. n ≡ place (table ids.now).first (table ids.now).keys key.now.items) }
    ensures marked { IfOk result (λ n. spec.AreMarked places.old places.new ((n, at) ∷ [])) }
{
    let n = ids.place(key)?;
    mark(places, n, at);
    Ok(n)
}

/// Notes a type and all that it is made of, and answers its number.
#[cycle(marking)]
fn mark_type(
    alloc: Global,
    ids: &TypeIds<'_>,
    places: &mut [Option<u32>],
    at: u32,
    ty: &Ty,
) -> Result<u32, NoMemory>
    ensures { IfOk result (λ n. spec.IsMarked (table ids.now) at ty.now places.old places.new n) }
{
    match ty {
        Ty::Void(_) => {
            mark(places, 0, at);
            Ok(0)
        }
        Ty::Ptr(_) => {
            mark(places, 1, at);
            Ok(1)
        }
        Ty::Named(name) => {
            let n = named(&ids.source, *name);
            mark(places, n, at);
            Ok(n)
        }
        Ty::Int(bits) => {
            let key = int_key(alloc, &ids.source, *bits)?;
            mark_key(ids, places, at, &key)
        }
        Ty::Array { count, elem, .. } => {
            let elem = mark_type(alloc, ids, places, at, elem.get())?;
            let key = array_key(alloc, &ids.source, *count, elem)?;
            mark_key(ids, places, at, &key)
        }
        Ty::Struct { parts, .. } => {
            let key = mark_parts(alloc, ids, places, at, STRUCT, parts.as_slice())?;
            mark_key(ids, places, at, &key)
        }
        Ty::Packed { parts, .. } => {
            let key = mark_parts(alloc, ids, places, at, PACKED, parts.as_slice())?;
            mark_key(ids, places, at, &key)
        }
    }
}

/// Notes the definition of a named type, where the entity is one.
fn mark_definition(source: &Source<'_>, places: &mut [Option<u32>], n: u32, entity: &Entity)
    ensures { spec.AreMarked places.old places.new (spec.definition_in (reading source.now) n entity.now) }
{
    if let Entity::Named { name, .. } = entity {
        mark(places, n, offset_of(source, *name));
    }
}

/// Notes the definitions of named types.
fn mark_definitions(
    source: &Source<'_>,
    places: &mut [Option<u32>],
    entities: &[Entity],
) -> Result<(), NoMemory>
    ensures { OnOk result (spec.AreMarked places.old places.new (spec.definitions (reading source.now) 2 entities.now)) }
{
    let mut n = 2;
    for entity in entities {
        mark_definition(source, places, n, entity);
        n = more(n, is_definition(entity))?;
    }
    Ok(())
}

/// Notes the types that are written.
fn mark_uses(
    alloc: Global,
    ids: &TypeIds<'_>,
    places: &mut [Option<u32>],
    uses: &[TypeUse<'_>],
) -> Result<(), NoMemory>
    ensures { OnOk result (spec.AreMarked places.old places.new (flat_map (spec.marks_at (table ids.now)) (listed uses.now))) }
{
    for u in uses {
        mark_type(alloc, ids, places, offset_of(&ids.source, u.at), u.ty)?;
    }
    Ok(())
}

/// No places.
fn no_places(alloc: Global, count: usize) -> Result<Vec<Option<u32>>, NoMemory>
    ensures { IfOk result (λ places. places.items ≡ replicate count None) }
{
    let mut places = Vec::new(alloc);
    for _ in 0..count {
        places.push(None)?;
    }
    Ok(places)
}

/// The places that were found, and 0 where none was.
fn offsets(alloc: Global, places: &[Option<u32>]) -> Result<Offsets, NoMemory>
    ensures { IfOk result (λ offsets. offsets ≡ map (λ p. unwrap_or p 0) places.now) }
{
    let mut offsets = Vec::new(alloc);
    for place in places {
        offsets.push(place.unwrap_or(0))?;
    }
    Ok(Sequence::from_vec(offsets))
}

/// The offsets that come of all places, where none was noted before.
fn noted(
    alloc: Global,
    ids: &TypeIds<'_>,
    places: &mut [Option<u32>],
    entities: &[Entity],
    uses: &[TypeUse<'_>],
) -> Result<Offsets, NoMemory>
    requires { listed uses.now ≡ written entities.now }
    ensures { IfOk result (λ offsets. (count : ℕ) → places.old ≡ replicate count None → spec.ArePlaces (table ids.now) entities.now count offsets) }
{
    mark_definitions(&ids.source, places, entities)?;
    mark_uses(alloc, ids, places, uses)?;
    offsets(alloc, places)
}

/// The least offset at which each of `count` types is written, in a module that writes these types; 0 for a type that is
/// written nowhere.
pub fn type_places(
    alloc: Global,
    ids: &TypeIds<'_>,
    count: usize,
    entities: &[Entity],
    uses: &[TypeUse<'_>],
) -> Result<Offsets, NoMemory>
    requires { listed uses.now ≡ written entities.now }
    ensures { IfOk result (λ places. spec.ArePlaces (table ids.now) entities.now count places) }
{
    let mut places = no_places(alloc, count)?;
    noted(alloc, ids, &mut places, entities, uses)
}
