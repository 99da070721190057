//! The texts of functions: the constants of their headers, their bodies, and their names.
ghost use Rattle.std.specs.Prelude.{◌≡◌, ◌++◌, [], nat_eq, IfOk, OnOk, List, ℕ};
ghost use Rattle.std.specs.Option.{option_copied};
ghost use Rattle.ir_operands.specs.Constants.{ArePartsBelow};
ghost use Rattle.ir_scopes.specs.Faults.{first_in};
ghost use Rattle.ir_scopes.specs.Scopes.{all_counted};
ghost use Rattle.ir_scopes.specs.Slots.{param_slots};
ghost use Rattle.ir_bodies.specs.Building.{Builds};
ghost use Rattle.ir_bodies.specs.Context.{context, IsSound as IsSoundScene};
ghost use Rattle.ir_bodies.specs.Groups.{words_faults, body_faults};
ghost use Rattle.ir_headers.specs.Headers as headers;
ghost use Rattle.ir_resolve.specs.Building.{Reads};
ghost use Rattle.ir_resolve.specs.Functions.{parts_in};

use attr_ids::NoMemory;
use indexmap::IndexSet;
use ir_bodies::{Builder, Owner, Scene, note_groups, note_groups_of_body};
use ir_headers::extras_of;
use ir_module::Operands;
use ir_scopes::{Counts, NameFault, body_scope};
use ir_tree::{Body, Ftail, Header, Leaf, Params};
use std::alloc::Global;

/// Puts a body in, where there is one. `close` is the token behind it.
fn read_body(
    builder: &mut Builder,
    alloc: Global,
    scene: &Scene<'_>,
    owner: Owner,
    body: Option<&Body>,
    close: Leaf,
) -> Result<(), NoMemory>
    requires run { builder.old.cutter.run.items ≡ [] }
    requires sound { IsSoundScene scene.now }
    requires below { ArePartsBelow builder.old.notes.parts.items }
    ensures { OnOk result (Builds (context scene.now) owner.func owner.counter close (parts_in (option_copied body.entry)) builder.old builder.new) }
{
    match body {
        Some(body) => builder.body(alloc, scene, owner, body, close),
        None => Ok(()),
    }
}

/// Reads the constants of a header, which it answers, and the body, whose first value has the number `counts.values`.
pub(crate) fn read_function(
    builder: &mut Builder,
    alloc: Global,
    scene: &Scene<'_>,
    owner: Owner,
    counts: Counts,
    tails: &[Ftail],
    body: Option<&Body>,
    close: Leaf,
) -> Result<Operands, NoMemory>
    requires run { builder.old.cutter.run.items ≡ [] }
    requires sound { IsSoundScene scene.now }
    requires below { ArePartsBelow builder.old.notes.parts.items }
    requires counter { owner.counter ≡ counts.counter }
    ensures extras { IfOk result (λ extras. extras ≡ headers.extras_of (context scene.now).reading builder.old.notes.parts.items tails.now) }
    ensures reads { IfOk result (λ _. Reads (context scene.now) owner.func counts tails.now close (parts_in (option_copied body.entry))
        builder.old builder.new) }
{
    let extras = extras_of(alloc, &scene.source, tails, &mut builder.notes)?;
    builder.values = counts.values;
    read_body(builder, alloc, scene, owner, body, close)?;
    Ok(extras)
}

/// Notes the groups that a function names and that are defined nowhere.
pub(crate) fn note_all_groups(
    scene: &Scene<'_>,
    header: &Header,
    body: Option<&Body>,
    found: &mut Option<NameFault>,
)
    requires sound { IsSoundScene scene.now }
    ensures { found.new ≡ first_in found.old
        (words_faults (context scene.now) header.now.attributes ++ body_faults (context scene.now) (parts_in (option_copied body.entry))) }
{
    note_groups(scene, header.attributes.as_slice(), found);
    if let Some(body) = body {
        note_groups_of_body(scene, body, found);
    }
}

/// The counts behind the parameters of a function.
pub(crate) fn behind_params(
    alloc: Global,
    ids: &[u32],
    params: &Params,
    counts: Counts,
) -> Result<Counts, NoMemory>
    ensures { IfOk result (λ behind. behind ≡ all_counted ids.now counts (param_slots params.now)) }
{
    let none = IndexSet::new(alloc);
    let scope = body_scope(alloc, ids, &none, params, None, counts, None)?;
    Ok(scope.counts)
}
