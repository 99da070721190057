//! Parts of the trees of bodies and modules, as words.
ghost use Rattle.std.specs.Prelude.{◌≤◌, length};
ghost use Rattle.ir_token.specs.declared.TheConstants.{MAX_BYTES};
ghost use Rattle.ir_token.specs.Lists.{AreTokens};

use crate::line::Line;
use ir_parse_top::parse_module;
use ir_token::{Tokens, nesting};
use ir_tree::{Body, Define, Entity, GlobalVar, Header, Instr, Last, Line as TreeLine, Term};
use std::alloc::Global;

/// The blocks from which the arms of a phi come.
fn put_instr(line: &mut Line, found: &Instr) {
    if let Instr::Phi { arms, .. } = found {
        line.put("phi from");
        for arm in arms.as_slice() {
            line.token(" ", arm.from);
        }
        line.put("; ");
    }
}

/// The labels that a last line names, in their order.
fn put_last(line: &mut Line, found: &Last) {
    match found {
        Last::Term {
            term: Term::Branch { yes, no, .. },
            ..
        } => {
            line.token("yes ", *yes);
            line.token(", no ", *no);
        }
        Last::Term { .. } => line.put("no labels"),
        Last::Invoke { invoke, .. } => {
            line.token("normal ", invoke.get().normal);
            line.token(", unwind ", invoke.get().unwind);
        }
    }
}

/// The arms of the first line, where it is a phi, and the labels of the first block's last line.
pub fn put_body(line: &mut Line, found: &Body) {
    if let Some(TreeLine::Instr { instr, .. }) = found.first.lines.get(0) {
        put_instr(line, instr.get());
    }
    put_last(line, &found.first.last);
}

/// The name of a function, where its parameters close, and how many attributes and how many tails stand
/// behind them.
fn put_header(line: &mut Line, found: &Header) {
    line.token("name ", found.name);
    line.token(", close ", found.close);
    line.put(", ");
    line.count(found.attributes.len(), " attributes, ");
    line.count(found.tails.len(), " tails");
}

/// How many tails and how many groups a global variable has, and whether it has an initial value.
fn put_global(line: &mut Line, found: &GlobalVar) {
    line.count(found.tails.len(), " tails, ");
    line.count(found.groups.len(), " groups, ");
    line.put(if found.initial.is_some() {
        "initial value"
    } else {
        "no initial value"
    });
}

/// Where a definition begins, and where it closes.
fn put_define(line: &mut Line, found: &Define) {
    line.token("define ", found.word);
    line.token(" to ", found.close);
}

/// A part of an entity.
fn put_entity(line: &mut Line, found: &Entity) {
    match found {
        Entity::Declare(declare) => put_header(line, &declare.get().header),
        Entity::Define(define) => put_define(line, define.get()),
        Entity::GlobalVar(global) => put_global(line, global.get()),
        _ => line.put("another entity"),
    }
}

/// Puts a part of the first entity of a module.
pub fn put_module(alloc: Global, line: &mut Line, toks: &Tokens, text: &[u8])
    requires small { length text.now ≤ MAX_BYTES }
    requires tokens { AreTokens text.now toks.now }
{
    if nesting(toks, text) > 256 {
        line.put("none");
        return;
    }
    let Ok(tree) = parse_module(alloc, toks, text) else {
        line.put("none");
        return;
    };
    match tree.entities.get(0) {
        Some(entity) => put_entity(line, entity),
        None => line.put("none"),
    }
}
