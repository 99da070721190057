//! What the names of functions stand for.
use crate::line::Line;
use crate::read::{Module, module_of};
use crate::top::{START, add_entry, add_fault, add_token};
use attr_ids::NoMemory;
use indexmap::IndexSet;
use ir_scopes::{Counts, Scope, Voids, body_scope, id_at};
use ir_token::Kind;
use ir_tree::{Entity, Leaf};
use std::alloc::Global;

/// The names whose text behind the first byte is this one, as those of void types.
fn voids_of(alloc: Global, text: &[u8], module: &Module, name: &[u8]) -> Result<Voids, NoMemory> {
    let mut voids = IndexSet::new(alloc);
    let mut at = 0;
    for token in module.toks.as_slice() {
        let from = token.span.from as usize;
        let to = token.span.to as usize;
        if token.kind == Kind::Local
            && from < to
            && to <= text.len()
            && &text[from + 1..to] == name
        {
            voids.insert(id_at(module.ids.as_slice(), at))?;
        }
        at = at.saturating_add(1);
    }
    Ok(voids)
}

/// Adds what the names at these tokens stand for.
fn add_names(line: &mut Line, text: &[u8], module: &Module, scope: &Scope, tokens: (Leaf, Leaf)) {
    for at in tokens.0..tokens.1 {
        let Some(token) = module.toks.get(at as usize) else {
            return;
        };
        if token.kind == Kind::Local || token.kind == Kind::Label {
            add_token(line, text, &module.toks, at);
            add_entry(line, &scope.names, id_at(module.ids.as_slice(), at));
        }
    }
}

/// The names of an entity, where it is a function, and its tokens.
fn scope_of(
    alloc: Global,
    module: &Module,
    voids: &Voids,
    entity: &Entity,
    counts: Counts,
) -> Result<Option<(Scope, (Leaf, Leaf))>, NoMemory> {
    let ids = module.ids.as_slice();
    match entity {
        Entity::Declare(declare) => {
            let header = &declare.get().header;
            let scope = body_scope(alloc, ids, voids, &header.params, None, counts, None)?;
            Ok(Some((scope, (header.name, header.close))))
        }
        Entity::Define(define) => {
            let define = define.get();
            let params = &define.header.params;
            let scope = body_scope(alloc, ids, voids, params, Some(&define.body), counts, None)?;
            Ok(Some((scope, (define.header.name, define.close))))
        }
        _ => Ok(None),
    }
}

/// What each name in each function stands for, and the first fault there.
pub fn shown(alloc: Global, text: &[u8], void: &[u8], line: &mut Line) -> Result<(), NoMemory> {
    let Some(module) = module_of(alloc, text)? else {
        line.word("no module");
        return Ok(());
    };
    let voids = voids_of(alloc, text, &module, void)?;
    let mut counts = START;
    for entity in module.tree.entities.as_slice() {
        if let Some((scope, tokens)) = scope_of(alloc, &module, &voids, entity, counts)? {
            add_names(line, text, &module, &scope, tokens);
            add_fault(line, text, &module.toks, scope.found);
            line.word("next");
            line.part(" ");
            line.number(scope.counts.counter);
            line.word("|");
            counts = Counts {
                values: scope.counts.values,
                blocks: scope.counts.blocks,
                ..START
            };
        }
    }
    Ok(())
}
