//! The types that entities write.
ghost use Rattle.std.specs.Prelude.{◌≡◌, ◌++◌, OnOk, IfOk};
ghost use Rattle.std.specs.List.{flat_map};
ghost use Rattle.ir_type_uses.specs.Uses.{listed};
ghost use Rattle.ir_type_uses.specs.Written as spec;

use crate::bodies::push_body;
use crate::uses::{Uses, push};
use crate::values::{push_const, push_tconst};
use attr_ids::NoMemory;
use ir_tree::{Entity, Ftail, GlobalVar, Header, Leaf, Param, Params, TypeBody};
use std::alloc::Global;

fn push_listed<'a>(uses: &mut Uses<'a>, at: Leaf, params: &'a [Param]) -> Result<(), NoMemory>
    ensures { OnOk result (listed uses.new.items ≡ listed uses.old.items ++ flat_map (spec.param at) params.now) }
{
    for param in params {
        push(uses, at, &param.ty)?;
    }
    Ok(())
}

fn push_params<'a>(uses: &mut Uses<'a>, at: Leaf, params: &'a Params) -> Result<(), NoMemory>
    ensures { OnOk result (listed uses.new.items ≡ listed uses.old.items ++ spec.params at params.now) }
{
    match params {
        Params::Listed { params, .. } => push_listed(uses, at, params.as_slice()),
        _ => Ok(()),
    }
}

fn push_tail<'a>(uses: &mut Uses<'a>, at: Leaf, tail: &'a Ftail) -> Result<(), NoMemory>
    ensures { OnOk result (listed uses.new.items ≡ listed uses.old.items ++ spec.tail at tail.now) }
{
    match tail {
        Ftail::Extra { value, .. } => push_tconst(uses, at, value),
        _ => Ok(()),
    }
}

fn push_tails<'a>(uses: &mut Uses<'a>, at: Leaf, tails: &'a [Ftail]) -> Result<(), NoMemory>
    ensures { OnOk result (listed uses.new.items ≡ listed uses.old.items ++ flat_map (spec.tail at) tails.now) }
{
    for tail in tails {
        push_tail(uses, at, tail)?;
    }
    Ok(())
}

fn push_header<'a>(uses: &mut Uses<'a>, at: Leaf, header: &'a Header) -> Result<(), NoMemory>
    ensures { OnOk result (listed uses.new.items ≡ listed uses.old.items ++ spec.header at header.now) }
{
    push(uses, at, &header.result)?;
    push_params(uses, at, &header.params)?;
    push_tails(uses, at, header.tails.as_slice())
}

fn push_global<'a>(uses: &mut Uses<'a>, global: &'a GlobalVar) -> Result<(), NoMemory>
    ensures { OnOk result (listed uses.new.items ≡ listed uses.old.items ++ spec.global global.now) }
{
    push(uses, global.name, &global.ty)?;
    match &global.initial {
        Some(initial) => push_const(uses, global.name, initial),
        None => Ok(()),
    }
}

fn push_type_body<'a>(uses: &mut Uses<'a>, at: Leaf, body: &'a TypeBody) -> Result<(), NoMemory>
    ensures { OnOk result (listed uses.new.items ≡ listed uses.old.items ++ spec.type_body at body.now) }
{
    match body {
        TypeBody::Ty(ty) => push(uses, at, ty),
        TypeBody::Opaque(_) => Ok(()),
    }
}

fn push_entity<'a>(uses: &mut Uses<'a>, entity: &'a Entity) -> Result<(), NoMemory>
    ensures { OnOk result (listed uses.new.items ≡ listed uses.old.items ++ spec.entity entity.now) }
{
    match entity {
        Entity::Named { name, body } => push_type_body(uses, *name, body.get()),
        Entity::GlobalVar(global) => push_global(uses, global.get()),
        Entity::Declare(declare) => { push_header(uses, declare.get().word, &declare.get().header) }
        Entity::Define(define) => {
            push_header(uses, define.get().word, &define.get().header)?;
            push_body(uses, &define.get().body)
        }
        _ => Ok(()),
    }
}

/// The types that a module writes, in the order of the text.
pub fn type_uses(alloc: Global, entities: &[Entity]) -> Result<Uses<'_>, NoMemory>
    ensures { IfOk result (λ uses. listed uses.items ≡ spec.written entities.now) }
{
    let mut uses = Vec::new(alloc);
    for entity in entities {
        push_entity(&mut uses, entity)?;
    }
    Ok(uses)
}
