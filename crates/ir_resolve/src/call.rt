//! Trees are resolved.
ghost use Rattle.std.specs.Prelude.{◌≡◌, ◌≤◌, ◌<◌, ◌^◌, ◌++◌, [], nat_eq, ℕ, None, Err, IfOk, length};
ghost use Rattle.indexmap.specs.IndexMap.{get};
ghost use Rattle.attr_ids.specs.declared.insertion.Span.{Span as TheSpan};
ghost use Rattle.ir_token.specs.declared.TheConstants.{MAX_TOKENS};
ghost use Rattle.ir_token.specs.Lists.{AreTokens};
ghost use Rattle.ir_type_equality.specs.Numbers.{AreCanonical};
ghost use Rattle.ir_module.specs.WellFormed.{HasFew};
ghost use Rattle.ir_scopes.specs.declared.faults.Cause.TheVariants as cause;
ghost use Rattle.ir_scopes.specs.Faults.{first_in};
ghost use Rattle.ir_type_names.specs.Numbers.{table_of};
ghost use Rattle.ir_type_names.specs.Tables as tables;
ghost use Rattle.ir_type_names.specs.Places.{ArePlaces};
ghost use Rattle.ir_resolve.specs.declared.refusal.NameRefusal.TheVariants as refusal;
ghost use Rattle.ir_resolve.specs.Answers.{Tells, TellsBySome, IsTop, names_at};
ghost use Rattle.ir_resolve.specs.Building.{IsBuilt};
ghost use Rattle.ir_resolve.specs.Entities.{nothing, each_entity, entity_faults};
ghost use Rattle.ir_resolve.specs.Inputs.{types_in, table_in, type_reading, setting_in};
ghost use Rattle.ir_resolve.specs.Modules.{Resolved, IsFirstFault, fault, span_at, offset_at, module_with, places_of, top_faults};

use crate::desk::Desk;
use crate::refusal::{NameRefusal, refusal_of};
use crate::state::{Resolving, START};
use crate::top::{Top, type_source, voids_of};
use attr_ids::{NoMemory, Offsets, Sequence};
use ir_attrs::groups;
use ir_consts::Laid;
use ir_module::{Module, Operands, has_few};
use ir_names::name_ids;
use ir_scopes::{NameFault, Space, top_scope};
use ir_token::Token;
use ir_tree::Tree;
use ir_type_equality::canonical;
use ir_type_names::{TypeIds, module_types, note_unknown_types, type_ids, type_places};
use ir_type_uses::type_uses;
use ir_types::TypeTable;
use std::alloc::Global;

/// Canonical numbers of types. No text has so many types that a number does not fit.
fn numbers_of(alloc: Global, types: &TypeTable) -> Result<Offsets, NoMemory>
    ensures { IfOk result (λ numbers. AreCanonical types.now numbers) }
{
    if types.len() >= 1 << 31 {
        return Err(NoMemory);
    }
    canonical(alloc, types)
}

/// The parts of constants.
fn parts_of(notes: Laid) -> Operands
    ensures { result ≡ notes.parts.items }
{
    Operands::from_vec(notes.parts)
}

/// The module, where no fault was found.
fn finished(
    toks: &[Token],
    types: TypeTable,
    built: Resolving,
    places: Offsets,
) -> Result<Module, NameRefusal>
    ensures { Tells toks.now built.builder.notes.found (record {
      types = types;
      globals = built.globals.items;
      funcs = built.funcs.items;
      blocks = built.builder.blocks.items;
      segs = built.builder.cutter.segs.items;
      values = built.values.items;
      parts = built.builder.notes.parts.items;
      type_at = places;
    }) result }
{
    if let Some(fault) = built.builder.notes.found {
        return Err(refusal_of(toks, fault));
    }
    let Resolving {
        globals,
        funcs,
        values,
        builder,
    } = built;
    let cutter = builder.cutter;
    let module = Module {
        types,
        globals: Sequence::from_vec(globals),
        funcs: Sequence::from_vec(funcs),
        blocks: Sequence::from_vec(builder.blocks),
        segs: Sequence::from_vec(cutter.segs),
        values: Sequence::from_vec(values),
        parts: parts_of(builder.notes),
        type_at: places,
    };
    if has_few(&module) {
        Ok(module)
    } else {
        Err(NameRefusal::NoMemory)
    }
}

/// The things of the entities, behind the fault that was found before.
fn built(
    alloc: Global,
    top: &Top<'_>,
    kinds: &TypeIds<'_>,
    types: &TypeTable,
    numbers: &[u32],
    found: Option<NameFault>,
) -> Result<Resolving, NoMemory>
    requires top { IsTop top.now }
    requires kinds { tables.table kinds.now ≡ table_in (names_at top.now) }
    requires types { types.now ≡ types_in (names_at top.now) }
    ensures { IfOk result (λ s. IsBuilt (setting_in (names_at top.now) numbers.now) top.now.entities.now found s) }
{
    let voids = voids_of(alloc, top, types.as_slice())?;
    let groups = groups(alloc, top.text, top.toks, top.ids, top.entities)?;
    let desk = Desk {
        text: top.text,
        toks: top.toks,
        ids: top.ids,
        entities: top.entities,
        symbols: top.symbols,
        kinds,
        types,
        numbers,
        voids: &voids,
        groups: &groups,
    };
    let mut built = Resolving::new(alloc, found);
    built.entities(alloc, &desk, top.entities)?;
    Ok(built)
}

/// The module of entities whose names are known, or the first fault in them or before.
fn typed(alloc: Global, top: &Top<'_>, found: Option<NameFault>) -> Result<Module, NameRefusal>
    requires { IsTop top.now }
    ensures { TellsBySome (names_at top.now) found result }
{
    let uses = type_uses(alloc, top.entities)?;
    let source = type_source(top);
    let mut found = found;
    note_unknown_types(&source, &uses, &mut found);
    let kinds = type_ids(alloc, source, top.entities, &uses)?;
    let types = module_types(alloc, &kinds, top.entities)?;
    let numbers = numbers_of(alloc, &types)?;
    let places = type_places(alloc, &kinds, types.len(), top.entities, &uses)?;
    let built = built(alloc, top, &kinds, &types, numbers.as_slice(), found)?;
    finished(top.toks, types, built, places)
}

/// The module of a tree over its text and tokens, or the first name in the text that is amiss.
pub fn resolve(
    alloc: Global,
    tree: &Tree,
    toks: &[Token],
    text: &[u8],
) -> Result<Module, NameRefusal>
    requires tokens { AreTokens text.now toks.now }
    requires few { length toks.now ≤ MAX_TOKENS }
    ensures resolved { IfOk result (λ m. Resolved text.now toks.now tree.now m) }
    ensures few_things { IfOk result (λ m. HasFew m) }
    ensures unknown { (name : TheSpan) → result ≡ Err (refusal.Unknown name) →
        (at : ℕ) × IsFirstFault text.now toks.now tree.now (fault cause.Unknown at) × (name ≡ span_at toks.now at) }
    ensures twice { (name : TheSpan) → result ≡ Err (refusal.Twice name) →
        (at : ℕ) × IsFirstFault text.now toks.now tree.now (fault cause.Twice at) × (name ≡ span_at toks.now at) }
    ensures layout { (offset : ℕ) → result ≡ Err (refusal.Layout offset) →
        (at : ℕ) × IsFirstFault text.now toks.now tree.now (fault cause.Layout at) × (offset ≡ offset_at toks.now at) }
{
    let entities = tree.entities.as_slice();
    let ids = name_ids(alloc, text, toks)?;
    let ids = ids.as_slice();
    let types = top_scope(alloc, ids, Space::Types, entities, START, None)?;
    let groups = top_scope(alloc, ids, Space::Groups, entities, START, types.found)?;
    let symbols = top_scope(alloc, ids, Space::Symbols, entities, START, groups.found)?;
    let top = Top {
        text,
        toks,
        entities,
        ids,
        types: &types.names,
        symbols: &symbols.names,
    };
    typed(alloc, &top, symbols.found)
}
