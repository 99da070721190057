//! The names of a module: its types, and its functions and globals.
ghost use Rattle.std.specs.Prelude.{◌≡◌, ◌&&◌, ◌||◌, nat_eq, slice_get, IfOk, OnOk, ℕ};
ghost use Rattle.std.specs.HashSet.{contains};
ghost use Rattle.std.specs.Option.{option_copied};
ghost use Rattle.indexmap.specs.IndexMap.{get};
ghost use Rattle.ir_scopes.specs.declared.top.Space.TheVariants.{Types};
ghost use Rattle.ir_scopes.specs.Markers as markers;
ghost use Rattle.ir_type_names.specs.Reading as type_names;
ghost use Rattle.ir_resolve.specs.Answers.{names_at};
ghost use Rattle.ir_resolve.specs.Inputs.{type_reading, named_in, is_void_entry};
ghost use Rattle.ir_resolve.specs.Voids as spec;

use attr_ids::NoMemory;
use indexmap::IndexSet;
use ir_scopes::{Entry, Names, Voids, id_at};
use ir_token::Token;
use ir_tree::{Entity, Leaf};
use ir_type_names::Source;
use ir_types::{IrType, TypeTable};
use std::alloc::Global;

/// The entities of a module with their names.
#[derive(Clone, Copy)]
pub struct Top<'a> {
    pub text: &'a [u8],
    pub toks: &'a [Token],
    pub entities: &'a [Entity],
    /// The number of each token's name.
    pub ids: &'a [u32],
    /// What the names of types stand for, and those of functions and globals.
    pub types: &'a Names,
    pub symbols: &'a Names,
}

/// What types are read with.
pub(crate) fn type_source<'a>(top: &Top<'a>) -> Source<'a>
    ensures { type_names.reading result ≡ type_reading (names_at top.now) }
{
    Source {
        text: top.text,
        toks: top.toks,
        ids: top.ids,
        names: top.types,
    }
}

fn is_void_type(ty: Option<&IrType>) -> bool
    ensures { result ≡ markers.is_void_type (option_copied ty.entry) }
{
    matches!(ty, Some(IrType::Void))
}

/// Whether a name stands for a type whose content is void.
fn is_void(types: &[IrType], entry: Option<&Entry>) -> bool
    ensures { result ≡ is_void_entry types.now (option_copied entry.entry) }
{
    match entry {
        Some(Entry::Type(t)) => is_void_type(types.get(t.0 as usize)),
        _ => false,
    }
}

/// Takes in a name, where it stands for a type whose content is void.
fn enter_name(voids: &mut Voids, types: &[IrType], names: &Names, id: u32) -> Result<(), NoMemory>
    ensures { OnOk result ((name : ℕ) → contains nat_eq voids.new name
        ≡ (contains nat_eq voids.old name || (nat_eq id name && is_void_entry types.now (get nat_eq names.now name)))) }
{
    if is_void(types, names.get(&id)) {
        voids.insert(id)?;
    }
    Ok(())
}

/// Takes in the name of a type, where an entity defines one whose content is void.
fn enter_void(
    voids: &mut Voids,
    ids: &[u32],
    types: &[IrType],
    names: &Names,
    entity: &Entity,
) -> Result<(), NoMemory>
    ensures { OnOk result ((name : ℕ) → contains nat_eq voids.new name
        ≡ (contains nat_eq voids.old name || (spec.names_type ids.now name entity.now && is_void_entry types.now (get nat_eq names.now name)))) }
{
    match entity {
        Entity::Named { name, .. } => enter_name(voids, types, names, id_at(ids, *name)),
        _ => Ok(()),
    }
}

/// The names of types whose content is void.
pub(crate) fn voids_of(alloc: Global, top: &Top<'_>, types: &[IrType]) -> Result<Voids, NoMemory>
    requires { (name : ℕ) → get nat_eq top.now.types.now name ≡ named_in top.now.ids.now Types top.now.entities.now name }
    ensures { IfOk result (λ voids. (name : ℕ) → contains nat_eq voids name ≡ is_void_entry types.now (get nat_eq top.now.types.now name)) }
{
    let mut voids = IndexSet::new(alloc);
    for entity in top.entities {
        enter_void(&mut voids, top.ids, types, top.types, entity)?;
    }
    Ok(voids)
}
