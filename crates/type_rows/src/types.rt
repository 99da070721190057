//! The types of a module.
ghost use Rattle.std.specs.Prelude.{◌≤◌, length};
ghost use Rattle.ir_token.specs.declared.TheConstants.{MAX_BYTES, MAX_TOKENS};
ghost use Rattle.ir_token.specs.Lists.{AreTokens};

use crate::line::Line;
use attr_ids::{NoMemory, Offsets};
use ir_names::name_ids;
use ir_parse_body::SyntaxRefusal;
use ir_parse_top::parse_module;
use ir_scopes::{Counts, Space, top_scope};
use ir_token::{LexRefusal, MAX_BYTES, Tokens, nesting, tokens};
use ir_tree::Tree;
use ir_type_names::{Source, module_types, note_unknown_types, type_ids, type_places};
use ir_type_uses::type_uses;
use ir_types::IrType;
use std::alloc::Global;

/// Nothing was counted yet; the named types begin behind `void` and `ptr`.
const START: Counts = Counts {
    values: 0,
    blocks: 0,
    globals: 0,
    funcs: 0,
    types: 2,
    groups: 0,
    counter: 0,
};

/// Adds what a type is.
fn add_type(line: &mut Line, ty: &IrType) {
    match ty {
        IrType::Void => line.put("void"),
        IrType::Ptr => line.put("ptr"),
        IrType::Opaque => line.put("opaque"),
        IrType::Int { width } => line.counted("i", *width as u64),
        IrType::Array { count, elem } => {
            line.counted("[", *count);
            line.counted(" x ", elem.0 as u64);
            line.put("]");
        }
        IrType::Struct { fields, packed } => {
            line.put(if *packed { "<{" } else { "{" });
            for field in fields.as_slice() {
                line.counted(" ", field.0 as u64);
            }
            line.put(if *packed { " }>" } else { " }" });
        }
    }
}

/// Adds each type with its number and its place.
fn add_types(line: &mut Line, types: &[IrType], places: &Offsets) {
    for (n, ty) in types.iter().enumerate() {
        line.counted(" ", n as u64);
        line.put(":");
        add_type(line, ty);
        match places.get(n) {
            Some(at) => line.counted("@", *at as u64),
            None => line.put("?"),
        }
    }
}

fn add_tree(
    alloc: Global,
    text: &[u8],
    toks: &Tokens,
    tree: &Tree,
    line: &mut Line,
) -> Result<(), NoMemory>
    requires tokens { AreTokens text.now toks.now }
    requires few { length toks.now ≤ MAX_TOKENS }
{
    let ids = name_ids(alloc, text, toks.as_slice())?;
    let entities = tree.entities.as_slice();
    let scope = top_scope(alloc, ids.as_slice(), Space::Types, entities, START, None)?;
    let source = Source {
        text,
        toks: toks.as_slice(),
        ids: ids.as_slice(),
        names: &scope.names,
    };
    let uses = type_uses(alloc, entities)?;
    let table = type_ids(alloc, source, entities, &uses)?;
    let types = module_types(alloc, &table, entities)?;
    let places = type_places(alloc, &table, types.len(), entities, &uses)?;
    add_types(line, types.as_slice(), &places);
    line.counted(" bit ", table.bit(alloc)?.0 as u64);
    let mut found = scope.found;
    note_unknown_types(&source, &uses, &mut found);
    if let Some(fault) = found {
        line.counted(" fault ", fault.at as u64);
    }
    Ok(())
}

fn parsed(alloc: Global, text: &[u8], toks: &Tokens, line: &mut Line) -> Result<(), NoMemory>
    requires small { length text.now ≤ MAX_BYTES }
    requires tokens { AreTokens text.now toks.now }
    requires few { length toks.now ≤ MAX_TOKENS }
{
    if nesting(toks, text) > 256 {
        line.put(" too deep");
        return Ok(());
    }
    match parse_module(alloc, toks, text) {
        Ok(tree) => add_tree(alloc, text, toks, &tree, line),
        Err(SyntaxRefusal::Syntax { .. }) => {
            line.put(" no module");
            Ok(())
        }
        Err(SyntaxRefusal::NoMemory) => Err(NoMemory),
    }
}

/// Tells the types of a module.
pub fn told(alloc: Global, text: &[u8], line: &mut Line) -> Result<(), NoMemory> {
    if text.len() > MAX_BYTES {
        return Ok(());
    }
    match tokens(alloc, text) {
        Ok(toks) => parsed(alloc, text, &toks, line),
        Err(LexRefusal::NoMemory) => Err(NoMemory),
        Err(_) => {
            line.put(" no tokens");
            Ok(())
        }
    }
}
