//! The names of a function: its parameters, blocks and values.
ghost use Rattle.std.specs.Prelude.{◌≡◌, [], List, ℕ, OnOk, IfOk, nat_eq, Some, None};
ghost use Rattle.std.specs.Option.{option_copied};
ghost use Rattle.std.specs.List.{flat_map};
ghost use Rattle.std.specs.HashSet.{contains};
ghost use Rattle.ir_scopes.specs.declared.slot.Entry.{Entry};
ghost use Rattle.ir_scopes.specs.Enters.{Knows, Enters};
ghost use Rattle.ir_scopes.specs.Slots as spec;
ghost use Rattle.ir_scopes.specs.Faults.{first_in};
ghost use Rattle.ir_scopes.specs.Scopes.{definitions, all_counted, repeats};

use crate::faults::NameFault;
use crate::results::{Voids, gives_result, is_void};
use crate::scope::Scope;
use crate::slot::{Counts, Kind, Slot};
use attr_ids::NoMemory;
use ir_tree::{Block, Body, Last, Leaf, Line, Param, Params};
use std::alloc::Global;

/// Takes the parameters in.
fn enter_params(scope: &mut Scope, ids: &[u32], params: &[Param]) -> Result<(), NoMemory>
    ensures { OnOk result ((before : List (ℕ × Entry)) → Knows scope.old.names before →
        Enters ids.now before (spec.listed_slots params.now) scope.old scope.new) }
{
    for param in params {
        scope.enter(
            ids,
            Slot {
                kind: Kind::Value,
                written: param.name,
            },
        )?;
    }
    Ok(())
}

/// Takes in the value of an instruction, where it gives one.
fn enter_result(
    scope: &mut Scope,
    ids: &[u32],
    gives: bool,
    written: Option<Leaf>,
) -> Result<(), NoMemory>
    ensures { OnOk result ((before : List (ℕ × Entry)) → Knows scope.old.names before →
        Enters ids.now before (spec.result_slots gives written) scope.old scope.new) }
{
    if gives {
        scope.enter(
            ids,
            Slot {
                kind: Kind::Value,
                written,
            },
        )?;
    }
    Ok(())
}

fn enter_line(scope: &mut Scope, ids: &[u32], voids: &Voids, line: &Line) -> Result<(), NoMemory>
    ensures { OnOk result ((before : List (ℕ × Entry)) → Knows scope.old.names before →
        Enters ids.now before (spec.line_slots ids.now (contains nat_eq voids.now) line.now) scope.old scope.new) }
{
    match line {
        Line::Opaque(_) => Ok(()),
        Line::Instr { result, instr, .. } => {
            enter_result(scope, ids, gives_result(ids, voids, instr.get()), *result)
        }
    }
}

fn enter_lines(
    scope: &mut Scope,
    ids: &[u32],
    voids: &Voids,
    lines: &[Line],
) -> Result<(), NoMemory>
    ensures { OnOk result ((before : List (ℕ × Entry)) → Knows scope.old.names before →
        Enters ids.now before (flat_map (spec.line_slots ids.now (contains nat_eq voids.now)) lines.now) scope.old scope.new) }
{
    for line in lines {
        enter_line(scope, ids, voids, line)?;
    }
    Ok(())
}

fn enter_last(scope: &mut Scope, ids: &[u32], voids: &Voids, last: &Last) -> Result<(), NoMemory>
    ensures { OnOk result ((before : List (ℕ × Entry)) → Knows scope.old.names before →
        Enters ids.now before (spec.last_slots ids.now (contains nat_eq voids.now) last.now) scope.old scope.new) }
{
    match last {
        Last::Term { .. } => Ok(()),
        Last::Invoke { result, invoke, .. } => {
            let gives = !is_void(ids, voids, &invoke.get().called.callee.result);
            enter_result(scope, ids, gives, *result)
        }
    }
}

/// Takes in a block, and then the values of its instructions.
fn enter_part(
    scope: &mut Scope,
    ids: &[u32],
    voids: &Voids,
    label: Option<Leaf>,
    lines: &[Line],
    last: &Last,
) -> Result<(), NoMemory>
    ensures { OnOk result ((before : List (ℕ × Entry)) → Knows scope.old.names before →
        Enters ids.now before (spec.part_slots ids.now (contains nat_eq voids.now) label lines.now last.now) scope.old scope.new) }
{
    scope.enter(
        ids,
        Slot {
            kind: Kind::Block,
            written: label,
        },
    )?;
    enter_lines(scope, ids, voids, lines)?;
    enter_last(scope, ids, voids, last)
}

fn enter_blocks(
    scope: &mut Scope,
    ids: &[u32],
    voids: &Voids,
    blocks: &[Block],
) -> Result<(), NoMemory>
    ensures { OnOk result ((before : List (ℕ × Entry)) → Knows scope.old.names before →
        Enters ids.now before (flat_map (spec.block_slots ids.now (contains nat_eq voids.now)) blocks.now) scope.old scope.new) }
{
    for block in blocks {
        let lines = block.lines.as_slice();
        enter_part(scope, ids, voids, Some(block.label), lines, &block.last)?;
    }
    Ok(())
}

fn enter_body(scope: &mut Scope, ids: &[u32], voids: &Voids, body: &Body) -> Result<(), NoMemory>
    ensures { OnOk result ((before : List (ℕ × Entry)) → Knows scope.old.names before →
        Enters ids.now before (spec.body_slots ids.now (contains nat_eq voids.now) body.now) scope.old scope.new) }
{
    let first = &body.first;
    enter_part(
        scope,
        ids,
        voids,
        first.label,
        first.lines.as_slice(),
        &first.last,
    )?;
    enter_blocks(scope, ids, voids, body.blocks.as_slice())
}

/// Takes in the parameters of a header.
fn enter_header(scope: &mut Scope, ids: &[u32], params: &Params) -> Result<(), NoMemory>
    ensures { OnOk result ((before : List (ℕ × Entry)) → Knows scope.old.names before →
        Enters ids.now before (spec.param_slots params.now) scope.old scope.new) }
{
    match params {
        Params::Listed { params, .. } => enter_params(scope, ids, params.as_slice()),
        _ => Ok(()),
    }
}

/// Takes in a body, where there is one.
fn enter_optional(
    scope: &mut Scope,
    ids: &[u32],
    voids: &Voids,
    body: Option<&Body>,
) -> Result<(), NoMemory>
    ensures { OnOk result ((before : List (ℕ × Entry)) → Knows scope.old.names before →
        Enters ids.now before (spec.optional_slots ids.now (contains nat_eq voids.now) (option_copied body.entry)) scope.old scope.new) }
{
    match body {
        Some(body) => enter_body(scope, ids, voids, body),
        None => Ok(()),
    }
}

/// The names of a function's parameters, blocks and values. `counts` has the numbers of the first value and of the first
/// block, and the counter, which begins at 0; `found` is the first fault so far.
pub fn body_scope(
    alloc: Global,
    ids: &[u32],
    voids: &Voids,
    params: &Params,
    body: Option<&Body>,
    counts: Counts,
    found: Option<NameFault>,
) -> Result<Scope, NoMemory>
    ensures names { IfOk result (λ scope. Knows scope.names (definitions ids.now counts
        (spec.func_slots ids.now (contains nat_eq voids.now) params.now (option_copied body.entry)))) }
    ensures counts { IfOk result (λ scope. scope.counts ≡ all_counted ids.now counts
        (spec.func_slots ids.now (contains nat_eq voids.now) params.now (option_copied body.entry))) }
    ensures found { IfOk result (λ scope. scope.found ≡ first_in found (repeats ids.now [] counts
        (spec.func_slots ids.now (contains nat_eq voids.now) params.now (option_copied body.entry)))) }
{
    let mut scope = Scope::new(alloc, counts, found);
    enter_header(&mut scope, ids, params)?;
    enter_optional(&mut scope, ids, voids, body)?;
    Ok(scope)
}
