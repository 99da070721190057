//! What the names of a module stand for.
use crate::line::Line;
use crate::read::{Module, module_of};
use attr_ids::NoMemory;
use ir_scopes::{Cause, Counts, Entry, NameFault, Names, Scope, Space, id_at, top_scope};
use ir_token::{Kind, Tokens};
use ir_tree::Leaf;
use std::alloc::Global;

/// Nothing was counted yet; the types begin behind `void` and `ptr`.
pub const START: Counts = Counts {
    values: 0,
    blocks: 0,
    globals: 0,
    funcs: 0,
    types: 2,
    groups: 0,
    counter: 0,
};

/// Adds the text of a token.
pub fn add_token(line: &mut Line, text: &[u8], toks: &Tokens, at: Leaf) {
    let Some(token) = toks.get(at as usize) else {
        return;
    };
    let from = token.span.from as usize;
    let to = token.span.to as usize;
    if from <= to && to <= text.len() {
        line.part(" ");
        line.bytes(&text[from..to]);
    }
}

fn add_kind(line: &mut Line, kind: &str, number: u32) {
    line.part("=");
    line.part(kind);
    line.number(number);
}

/// Adds what a name stands for.
pub fn add_entry(line: &mut Line, names: &Names, id: u32) {
    match names.get(&id) {
        Some(Entry::Value(v)) => add_kind(line, "value", v.0),
        Some(Entry::Block(b)) => add_kind(line, "block", b.0),
        Some(Entry::Global(g)) => add_kind(line, "global", g.0),
        Some(Entry::Func(f)) => add_kind(line, "func", f.0),
        Some(Entry::Type(t)) => add_kind(line, "type", t.0),
        Some(Entry::Group(g)) => add_kind(line, "group", *g),
        None => line.part("=none"),
    }
}

/// Adds the first fault, if there is one.
pub fn add_fault(line: &mut Line, text: &[u8], toks: &Tokens, found: Option<NameFault>) {
    let Some(fault) = found else {
        return;
    };
    line.word(match fault.cause {
        Cause::Unknown => "Unknown",
        Cause::Twice => "Twice",
        Cause::Layout => "Layout",
    });
    line.part("@");
    line.number(fault.at);
    add_token(line, text, toks, fault.at);
}

/// The names of a space, with what was found before.
pub fn scope_of(
    alloc: Global,
    module: &Module,
    space: Space,
    found: Option<NameFault>,
) -> Result<Scope, NoMemory> {
    let entities = module.tree.entities.as_slice();
    top_scope(alloc, module.ids.as_slice(), space, entities, START, found)
}

/// Adds what the names at the tokens of a kind stand for in a space.
fn add_names(line: &mut Line, text: &[u8], module: &Module, kind: Kind, scope: &Scope) {
    let mut at = 0;
    for token in module.toks.as_slice() {
        if token.kind == kind {
            add_token(line, text, &module.toks, at);
            add_entry(line, &scope.names, id_at(module.ids.as_slice(), at));
        }
        at = at.saturating_add(1);
    }
}

/// What the names of functions and globals, of types and of groups stand for.
pub fn shown(alloc: Global, text: &[u8], line: &mut Line) -> Result<(), NoMemory> {
    let Some(module) = module_of(alloc, text)? else {
        line.word("no module");
        return Ok(());
    };
    let symbols = scope_of(alloc, &module, Space::Symbols, None)?;
    let types = scope_of(alloc, &module, Space::Types, symbols.found)?;
    let groups = scope_of(alloc, &module, Space::Groups, types.found)?;
    add_names(line, text, &module, Kind::Global, &symbols);
    line.word("|");
    add_names(line, text, &module, Kind::Local, &types);
    line.word("|");
    add_names(line, text, &module, Kind::Group, &groups);
    line.word("|");
    add_fault(line, text, &module.toks, groups.found);
    Ok(())
}
