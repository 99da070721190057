//! The names of a module: functions and globals, types, groups.
ghost use Rattle.std.specs.Prelude.{◌≡◌, [], List, ℕ, OnOk, IfOk};
ghost use Rattle.ir_scopes.specs.declared.slot.Entry.{Entry};
ghost use Rattle.ir_scopes.specs.Enters.{Knows, Enters};
ghost use Rattle.ir_scopes.specs.Slots as spec;
ghost use Rattle.ir_scopes.specs.Faults.{first_in};
ghost use Rattle.ir_scopes.specs.Scopes.{definitions, all_counted, repeats};

use crate::faults::NameFault;
use crate::scope::Scope;
use crate::slot::{Counts, Kind, Slot};
use attr_ids::NoMemory;
use ir_tree::{Entity, Leaf};
use std::alloc::Global;

/// The things of a module that have a space of names in common.
#[derive(Clone, Copy)]
pub enum Space {
    /// Functions and globals, declared and defined.
    Symbols,
    /// Named types.
    Types,
    /// Groups of attributes.
    Groups,
}

/// What an entity defines in a space, and the token of its name.
fn defined(space: Space, entity: &Entity) -> Option<(Kind, Leaf)>
    ensures { spec.entity_slots space entity.now ≡ spec.defined_slots result }
{
    match (space, entity) {
        (Space::Symbols, Entity::GlobalVar(global)) => Some((Kind::Global, global.get().name)),
        (Space::Symbols, Entity::Declare(declare)) => Some((Kind::Func, declare.get().header.name)),
        (Space::Symbols, Entity::Define(define)) => Some((Kind::Func, define.get().header.name)),
        (Space::Types, Entity::Named { name, .. }) => Some((Kind::Type, *name)),
        (Space::Groups, Entity::Attributes { group, .. }) => Some((Kind::Group, *group)),
        _ => None,
    }
}

fn enter_entity(
    scope: &mut Scope,
    ids: &[u32],
    space: Space,
    entity: &Entity,
) -> Result<(), NoMemory>
    ensures { OnOk result ((before : List (ℕ × Entry)) → Knows scope.old.names before →
        Enters ids.now before (spec.entity_slots space entity.now) scope.old scope.new) }
{
    if let Some((kind, name)) = defined(space, entity) {
        scope.enter(
            ids,
            Slot {
                kind,
                written: Some(name),
            },
        )?;
    }
    Ok(())
}

fn enter_entities(
    scope: &mut Scope,
    ids: &[u32],
    space: Space,
    entities: &[Entity],
) -> Result<(), NoMemory>
    ensures { OnOk result ((before : List (ℕ × Entry)) → Knows scope.old.names before →
        Enters ids.now before (spec.top_slots space entities.now) scope.old scope.new) }
{
    for entity in entities {
        enter_entity(scope, ids, space, entity)?;
    }
    Ok(())
}

/// The names that a module has in a space. A name that is declared and also defined stands twice.
pub fn top_scope(
    alloc: Global,
    ids: &[u32],
    space: Space,
    entities: &[Entity],
    counts: Counts,
    found: Option<NameFault>,
) -> Result<Scope, NoMemory>
    ensures names { IfOk result (λ scope. Knows scope.names (definitions ids.now counts (spec.top_slots space entities.now))) }
    ensures counts { IfOk result (λ scope. scope.counts ≡ all_counted ids.now counts (spec.top_slots space entities.now)) }
    ensures found { IfOk result (λ scope. scope.found ≡ first_in found (repeats ids.now [] counts (spec.top_slots space entities.now))) }
{
    let mut scope = Scope::new(alloc, counts, found);
    enter_entities(&mut scope, ids, space, entities)?;
    Ok(scope)
}
